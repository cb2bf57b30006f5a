//! Each row of the tables on a client of its own, and runs of a few steps.

use super::*;
use std::process::Abort;

const SILENT: ClientActs = ClientActs {
    send: false,
    ack: false,
    up: false,
    timeout: false,
};

const SENT: ClientActs = ClientActs {
    send: true,
    ..SILENT
};

const UP: ClientActs = ClientActs { up: true, ..SILENT };

const ACKED: ClientActs = ClientActs {
    ack: true,
    ..SILENT
};

const ACKED_UP: ClientActs = ClientActs {
    ack: true,
    up: true,
    ..SILENT
};

const TIMED_OUT: ClientActs = ClientActs {
    timeout: true,
    ..SILENT
};

const RETRY: ClientEvent = ClientEvent::Timer(ClientTimer::Retry);

const LIMIT: ClientEvent = ClientEvent::Timer(ClientTimer::Limit);

const LINGER: ClientEvent = ClientEvent::Timer(ClientTimer::Linger);

/// An event and its moment; then the state, what is done, and when `retry`, `limit` and `linger` are due.
type Line = (
    ClientEvent,
    u64,
    ClientState,
    ClientActs,
    Option<u64>,
    Option<u64>,
    Option<u64>,
);

fn walk(rt: &impl Abort, invite: bool, lines: &[Line]) {
    let mut c = Client::new(invite);
    for (event, now, state, acts, retry, limit, linger) in lines {
        let done = client_step(&mut c, *event, *now);
        assert_eq!(rt; done, *acts, "acts at {now}");
        assert_eq!(rt; c.state, *state, "state at {now}");
        assert_eq!(rt;
            (c.retry, c.limit, c.linger),
            (*retry, *limit, *linger),
            "timers at {now}"
        );
    }
}

#[test]
fn an_invite_without_a_response(rt: HostRuntime) {
    use ClientState::{Calling, Terminated};
    walk(
        &rt,
        true,
        &[
            (RETRY, 0, Calling, SILENT, None, None, None),
            (
                ClientEvent::Start,
                0,
                Calling,
                SENT,
                Some(500),
                Some(32_000),
                None,
            ),
            (RETRY, 500, Calling, SENT, Some(1_500), Some(32_000), None),
            (RETRY, 1_500, Calling, SENT, Some(3_500), Some(32_000), None),
            (RETRY, 3_500, Calling, SENT, Some(7_500), Some(32_000), None),
            (
                RETRY,
                7_500,
                Calling,
                SENT,
                Some(15_500),
                Some(32_000),
                None,
            ),
            (
                RETRY,
                15_500,
                Calling,
                SENT,
                Some(31_500),
                Some(32_000),
                None,
            ),
            (
                RETRY,
                31_500,
                Calling,
                SENT,
                Some(63_500),
                Some(32_000),
                None,
            ),
            (LIMIT, 32_000, Terminated, TIMED_OUT, None, None, None),
            (
                ClientEvent::Success,
                32_100,
                Terminated,
                SILENT,
                None,
                None,
                None,
            ),
        ],
    );
}

#[test]
fn an_invite_that_is_refused(rt: HostRuntime) {
    use ClientState::{Calling, Completed, Proceeding, Terminated};
    walk(
        &rt,
        true,
        &[
            (
                ClientEvent::Start,
                0,
                Calling,
                SENT,
                Some(500),
                Some(32_000),
                None,
            ),
            (
                ClientEvent::Provisional,
                100,
                Proceeding,
                UP,
                None,
                None,
                None,
            ),
            (RETRY, 500, Proceeding, SILENT, None, None, None),
            (
                ClientEvent::Failure,
                600,
                Completed,
                ACKED_UP,
                None,
                None,
                Some(32_600),
            ),
            (
                ClientEvent::Failure,
                1_100,
                Completed,
                ACKED,
                None,
                None,
                Some(32_600),
            ),
            (
                ClientEvent::Provisional,
                1_200,
                Completed,
                SILENT,
                None,
                None,
                Some(32_600),
            ),
            (LINGER, 32_600, Terminated, SILENT, None, None, None),
        ],
    );
}

#[test]
fn an_invite_that_is_accepted(rt: HostRuntime) {
    use ClientState::{Accepted, Calling, Terminated};
    walk(
        &rt,
        true,
        &[
            (
                ClientEvent::Start,
                0,
                Calling,
                SENT,
                Some(500),
                Some(32_000),
                None,
            ),
            (
                ClientEvent::Success,
                400,
                Accepted,
                UP,
                None,
                None,
                Some(32_400),
            ),
            (
                ClientEvent::Success,
                900,
                Accepted,
                UP,
                None,
                None,
                Some(32_400),
            ),
            (
                ClientEvent::Failure,
                1_000,
                Accepted,
                SILENT,
                None,
                None,
                Some(32_400),
            ),
            (LINGER, 32_400, Terminated, SILENT, None, None, None),
        ],
    );
}

#[test]
fn another_request_without_a_response(rt: HostRuntime) {
    use ClientState::{Terminated, Trying};
    walk(
        &rt,
        false,
        &[
            (
                ClientEvent::Start,
                0,
                Trying,
                SENT,
                Some(500),
                Some(32_000),
                None,
            ),
            (RETRY, 500, Trying, SENT, Some(1_500), Some(32_000), None),
            (RETRY, 1_500, Trying, SENT, Some(3_500), Some(32_000), None),
            (RETRY, 3_500, Trying, SENT, Some(7_500), Some(32_000), None),
            (RETRY, 7_500, Trying, SENT, Some(11_500), Some(32_000), None),
            (LIMIT, 32_000, Terminated, TIMED_OUT, None, None, None),
        ],
    );
}

#[test]
fn another_request_that_is_answered(rt: HostRuntime) {
    use ClientState::{Completed, Proceeding, Terminated, Trying};
    walk(
        &rt,
        false,
        &[
            (
                ClientEvent::Start,
                0,
                Trying,
                SENT,
                Some(500),
                Some(32_000),
                None,
            ),
            (
                ClientEvent::Provisional,
                100,
                Proceeding,
                UP,
                Some(500),
                Some(32_000),
                None,
            ),
            (
                RETRY,
                500,
                Proceeding,
                SENT,
                Some(4_500),
                Some(32_000),
                None,
            ),
            (
                ClientEvent::Failure,
                600,
                Completed,
                UP,
                None,
                None,
                Some(5_600),
            ),
            (
                ClientEvent::Success,
                700,
                Completed,
                SILENT,
                None,
                None,
                Some(5_600),
            ),
            (LINGER, 5_600, Terminated, SILENT, None, None, None),
        ],
    );
}

#[test]
fn moments_end_at_the_greatest_number(rt: HostRuntime) {
    use ClientState::Calling;
    walk(
        &rt,
        true,
        &[
            (
                ClientEvent::Start,
                u64::MAX - 600,
                Calling,
                SENT,
                Some(u64::MAX - 100),
                Some(u64::MAX),
                None,
            ),
            (
                RETRY,
                u64::MAX - 100,
                Calling,
                SENT,
                Some(u64::MAX),
                Some(u64::MAX),
                None,
            ),
        ],
    );
}
