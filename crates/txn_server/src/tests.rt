//! Each row of the tables on a server of its own, and runs of a few steps.

use super::*;
use std::process::Abort;

const SILENT: ServerActs = ServerActs {
    send: false,
    repeat: false,
    loose_ack: false,
};

const SENT: ServerActs = ServerActs {
    send: true,
    ..SILENT
};

const REPEATED: ServerActs = ServerActs {
    repeat: true,
    ..SILENT
};

const LOOSE_ACK: ServerActs = ServerActs {
    loose_ack: true,
    ..SILENT
};

const RETRY: ServerEvent = ServerEvent::Timer(ServerTimer::Retry);

const END: ServerEvent = ServerEvent::Timer(ServerTimer::End);

/// An event and its moment; then the state, what is done, and when `retry` and `end` are due.
type Line = (
    ServerEvent,
    u64,
    ServerState,
    ServerActs,
    Option<u64>,
    Option<u64>,
);

fn walk(rt: &impl Abort, invite: bool, lines: &[Line]) {
    let mut s = Server::new(invite);
    for (event, now, state, acts, retry, end) in lines {
        let done = server_step(&mut s, *event, *now);
        assert_eq!(rt; done, *acts, "acts at {now}");
        assert_eq!(rt; s.state, *state, "state at {now}");
        assert_eq!(rt; (s.retry, s.end), (*retry, *end), "timers at {now}");
    }
}

#[test]
fn an_invite_that_is_refused(rt: HostRuntime) {
    use ServerState::{Completed, Confirmed, Proceeding, Terminated};
    walk(
        &rt,
        true,
        &[
            (ServerEvent::Copy, 0, Proceeding, SILENT, None, None),
            (ServerEvent::Send(100), 0, Proceeding, SENT, None, None),
            (ServerEvent::Copy, 0, Proceeding, REPEATED, None, None),
            (ServerEvent::Ack, 0, Proceeding, SILENT, None, None),
            (
                ServerEvent::Send(486),
                0,
                Completed,
                SENT,
                Some(500),
                Some(32_000),
            ),
            (
                ServerEvent::Copy,
                100,
                Completed,
                REPEATED,
                Some(500),
                Some(32_000),
            ),
            (
                ServerEvent::Send(180),
                200,
                Completed,
                SILENT,
                Some(500),
                Some(32_000),
            ),
            (ServerEvent::Ack, 300, Confirmed, SILENT, None, Some(5_300)),
            (ServerEvent::Copy, 400, Confirmed, SILENT, None, Some(5_300)),
            (END, 5_300, Terminated, SILENT, None, None),
            (
                ServerEvent::Send(486),
                5_400,
                Terminated,
                SILENT,
                None,
                None,
            ),
        ],
    );
}

#[test]
fn a_refusal_without_an_ack(rt: HostRuntime) {
    use ServerState::{Completed, Terminated};
    walk(
        &rt,
        true,
        &[
            (
                ServerEvent::Send(486),
                0,
                Completed,
                SENT,
                Some(500),
                Some(32_000),
            ),
            (RETRY, 500, Completed, REPEATED, Some(1_500), Some(32_000)),
            (RETRY, 1_500, Completed, REPEATED, Some(3_500), Some(32_000)),
            (RETRY, 3_500, Completed, REPEATED, Some(7_500), Some(32_000)),
            (
                RETRY,
                7_500,
                Completed,
                REPEATED,
                Some(11_500),
                Some(32_000),
            ),
            (END, 32_000, Terminated, SILENT, None, None),
        ],
    );
}

#[test]
fn a_2xx_after_another_final_response(rt: HostRuntime) {
    use ServerState::{Completed, Confirmed, Terminated};
    walk(
        &rt,
        true,
        &[
            (
                ServerEvent::Send(486),
                0,
                Completed,
                SENT,
                Some(500),
                Some(32_000),
            ),
            (
                ServerEvent::Send(200),
                100,
                Completed,
                SENT,
                Some(500),
                Some(32_000),
            ),
            (
                ServerEvent::Copy,
                200,
                Completed,
                REPEATED,
                Some(500),
                Some(32_000),
            ),
            (ServerEvent::Ack, 300, Confirmed, SILENT, None, Some(5_300)),
            (
                ServerEvent::Send(200),
                400,
                Confirmed,
                SENT,
                None,
                Some(5_300),
            ),
            (END, 5_300, Terminated, SILENT, None, None),
            (ServerEvent::Send(299), 5_400, Terminated, SENT, None, None),
        ],
    );
}

#[test]
fn an_invite_that_is_accepted(rt: HostRuntime) {
    use ServerState::{Accepted, Terminated};
    walk(
        &rt,
        true,
        &[
            (
                ServerEvent::Send(200),
                0,
                Accepted,
                SENT,
                None,
                Some(32_000),
            ),
            (ServerEvent::Copy, 100, Accepted, SILENT, None, Some(32_000)),
            (
                ServerEvent::Ack,
                200,
                Accepted,
                LOOSE_ACK,
                None,
                Some(32_000),
            ),
            (
                ServerEvent::Send(200),
                300,
                Accepted,
                SENT,
                None,
                Some(32_000),
            ),
            (
                ServerEvent::Send(486),
                400,
                Accepted,
                SILENT,
                None,
                Some(32_000),
            ),
            (RETRY, 500, Accepted, SILENT, None, Some(32_000)),
            (END, 32_000, Terminated, SILENT, None, None),
        ],
    );
}

#[test]
fn another_request(rt: HostRuntime) {
    use ServerState::{Completed, Proceeding, Terminated, Trying};
    walk(
        &rt,
        false,
        &[
            (ServerEvent::Copy, 0, Trying, SILENT, None, None),
            (ServerEvent::Send(99), 0, Trying, SILENT, None, None),
            (ServerEvent::Send(100), 100, Proceeding, SENT, None, None),
            (ServerEvent::Copy, 200, Proceeding, REPEATED, None, None),
            (
                ServerEvent::Send(699),
                300,
                Completed,
                SENT,
                None,
                Some(32_300),
            ),
            (
                ServerEvent::Send(200),
                400,
                Completed,
                SILENT,
                None,
                Some(32_300),
            ),
            (
                ServerEvent::Copy,
                500,
                Completed,
                REPEATED,
                None,
                Some(32_300),
            ),
            (END, 32_300, Terminated, SILENT, None, None),
            (ServerEvent::Copy, 32_400, Terminated, SILENT, None, None),
        ],
    );
}

#[test]
fn moments_end_at_the_greatest_number(rt: HostRuntime) {
    use ServerState::{Accepted, Completed, Trying};
    walk(
        &rt,
        true,
        &[(
            ServerEvent::Send(200),
            u64::MAX - 1,
            Accepted,
            SENT,
            None,
            Some(u64::MAX),
        )],
    );
    walk(
        &rt,
        false,
        &[
            (ServerEvent::Send(700), u64::MAX, Trying, SILENT, None, None),
            (
                ServerEvent::Send(300),
                u64::MAX,
                Completed,
                SENT,
                None,
                Some(u64::MAX),
            ),
        ],
    );
}
