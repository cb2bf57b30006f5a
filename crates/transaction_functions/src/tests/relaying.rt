//! Requests that are sent on.

use super::{Before, facts, message, request, settings};
use crate::{Relaying, relay_ack, relay_request, relayed};
use message_functions::TextRoom;
use pv_table::{Facts, Outcome, Target};
use pv_values::Text;
use std::alloc::{AllocError, Global};
use std::process::Abort;
use std::test::Fail;

/// Puts so many targets behind the first.
fn append(alloc: Global, of_run: &mut Facts, targets: usize) -> Result<(), AllocError> {
    for _ in 0..targets {
        of_run.targets.push(Target {
            uri: Text::from_slice(alloc, b"sip:c@192.0.2.3")?,
            destination: None,
        })?;
    }
    Ok(())
}

const B: &str = "sip:b@192.0.2.9";

const ZERO: &str = "Max-Forwards: 0\r\n";

/// How the transaction of an INVITE stands, `$ru`, further fields, how many branches there are, how many targets were appended,
/// and what `t_relay` comes to.
const CALLS: [(Before, &str, &str, u8, usize, Relaying); 13] = [
    (Before::Nothing, B, "", 0, 0, Relaying::Wants(2)),
    (
        Before::Responded,
        B,
        "Max-Forwards: 1\r\n",
        0,
        0,
        Relaying::Wants(2),
    ),
    (Before::Outcome, B, ZERO, 0, 0, Relaying::Code(-5)),
    (Before::Answered, B, "", 0, 0, Relaying::Code(-5)),
    (Before::Suspended, B, "", 0, 0, Relaying::Code(-5)),
    (Before::Cancelled, B, ZERO, 0, 0, Relaying::Code(-4)),
    (Before::Nothing, "tel:1", ZERO, 0, 0, Relaying::Code(-5)),
    (
        Before::Nothing,
        "sip:b@other.example",
        "",
        0,
        0,
        Relaying::Code(-1),
    ),
    (Before::Exists, B, "", 0, 2, Relaying::Wants(6)),
    (Before::Exists, B, "", 9, 2, Relaying::Wants(6)),
    (Before::Exists, B, "", 10, 2, Relaying::Code(-1)),
    (Before::Exists, B, "", 0, 12, Relaying::Code(-1)),
    (Before::Exists, B, "", 12, 0, Relaying::Code(-1)),
];

/// What `t_relay` comes to.
fn comes_to(
    rt: &impl Abort,
    alloc: Global,
    b: &[u8],
    of_run: &mut Facts,
) -> Result<Relaying, AllocError> {
    let m = message(rt, b);
    let settings = settings(alloc)?;
    let mut room = TextRoom::new(alloc)?;
    relay_request(alloc, b, &m, of_run, &settings, &mut room)
}

/// The outcome is the response 483.
fn is_483(of_run: &Facts) -> bool {
    match &of_run.outcome {
        Outcome::Answered(response) => {
            response.code == 483 && response.reason.bytes() == b"Too Many Hops".as_slice()
        }
        _ => false,
    }
}

#[test]
fn a_request_goes_on_where_nothing_speaks_against_it(rt: HostRuntime) -> Result<(), Fail> {
    let alloc = rt.alloc();
    for (before, uri, fields, branches, appended, expected) in &CALLS {
        let b = request(alloc, "INVITE", fields.as_bytes())?;
        let mut of_run = facts(alloc, uri, *before)?;
        of_run.branches = *branches;
        append(alloc, &mut of_run, *appended)?;
        let found = comes_to(&rt, alloc, b.as_slice(), &mut of_run)?;
        assert_eq!(rt; found, *expected, "{before:?} {uri} {branches} {appended}");
        let has_no_hop = *fields == ZERO && *before == Before::Nothing;
        assert_eq!(rt;
            (of_run.has_called_relay, is_483(&of_run)),
            (true, has_no_hop)
        );
    }
    Ok(())
}

/// The INVITE as it goes on, with a field of one byte `a`.
const FORWARDED: &str =
    "INVITE sip:b@192.0.2.9 SIP/2.0\r\nVia: SIP/2.0/UDP 127.0.0.1:5060;branch=z9hG4bKrs00000001.0.0.0\r\nVia: SIP/2.0/UDP 192.0.2.1:5060;branch=z9hG4bK6a\r\nFrom: <sip:a@192.0.2.1>;tag=a\r\nTo: <sip:b@192.0.2.9>\r\nCall-ID: 6\r\nCSeq: 1 INVITE\r\nMax-Forwards: 69\r\nX: a\r\n\r\n";

/// The ACK as it goes on, with the same field.
const ACK: &str =
    "ACK sip:b@192.0.2.9 SIP/2.0\r\nVia: SIP/2.0/UDP 127.0.0.1:5060;branch=z9hG4bKsl.6a\r\nVia: SIP/2.0/UDP 192.0.2.1:5060;branch=z9hG4bK6a\r\nFrom: <sip:a@192.0.2.1>;tag=a\r\nTo: <sip:b@192.0.2.9>\r\nCall-ID: 6\r\nCSeq: 1 ACK\r\nMax-Forwards: 69\r\nX: a\r\n\r\n";

/// Further fields, the last of which has so many bytes `a`.
fn with_long_field(alloc: Global, method: &str, bytes: usize) -> Result<Vec<u8>, AllocError> {
    let long = vec![in alloc; b'a'; bytes]?;
    let mut fields = Vec::from_slice(alloc, b"Max-Forwards: 70\r\nX: ")?;
    fields.extend_from_slice(long.as_slice())?;
    fields.extend_from_slice(b"\r\n")?;
    request(alloc, method, fields.as_slice())
}

#[test]
fn a_request_that_goes_on_has_at_most_8192_bytes(rt: HostRuntime) -> Result<(), Fail> {
    let alloc = rt.alloc();
    let most = 8192 - FORWARDED.len() + 1;
    for (bytes, expected) in &[(most, Relaying::Wants(2)), (most + 1, Relaying::Code(-3))] {
        let b = with_long_field(alloc, "INVITE", *bytes)?;
        let mut of_run = facts(alloc, B, Before::Nothing)?;
        let found = comes_to(&rt, alloc, b.as_slice(), &mut of_run)?;
        assert_eq!(rt; found, *expected, "{bytes} bytes");
    }
    Ok(())
}

/// A method, how the transaction stands, and how many responses there are once the request was relayed.
const TRIED: [(&str, Before, usize); 3] = [
    ("INVITE", Before::Nothing, 1),
    ("INVITE", Before::Responded, 0),
    ("BYE", Before::Nothing, 0),
];

#[test]
fn a_relayed_request_uses_its_targets_up(rt: HostRuntime) -> Result<(), Fail> {
    let alloc = rt.alloc();
    for (method, before, responses) in &TRIED {
        let b = request(alloc, method, b"")?;
        let m = message(&rt, b.as_slice());
        let mut of_run = facts(alloc, B, *before)?;
        of_run.branches = 2;
        append(alloc, &mut of_run, 2)?;
        relayed(alloc, b.as_slice(), &m, &mut of_run)?;
        assert_eq!(rt; (of_run.branches, of_run.targets.len()), (5, 0));
        assert_eq!(rt; of_run.responses.len(), *responses, "{method} {before:?}");
        for response in of_run.responses.as_slice() {
            assert_eq!(rt;
                (response.code, response.reason.bytes()),
                (100, b"Trying".as_slice())
            );
        }
        let targets = match &of_run.outcome {
            Outcome::Relayed(relay) => relay.targets.len(),
            _ => 0,
        };
        assert_eq!(rt; targets, 2);
    }
    Ok(())
}

/// Whether an outcome came before, a URI, further fields of an ACK, and the code of `t_relay`.
const ACKS: [(Before, &str, &str, i64); 5] = [
    (Before::Nothing, B, "", 1),
    (Before::Answered, B, "", 1),
    (Before::Outcome, B, "", -5),
    (Before::Nothing, "tel:1", ZERO, -5),
    (Before::Nothing, "tel:1", "", -1),
];

/// The code of `t_relay` for an ACK, and whether it goes on.
fn acked(
    rt: &impl Abort,
    alloc: Global,
    b: &[u8],
    of_run: &mut Facts,
) -> Result<(i64, bool), AllocError> {
    let m = message(rt, b);
    let settings = settings(alloc)?;
    let mut room = TextRoom::new(alloc)?;
    let code = relay_ack(alloc, b, &m, of_run, &settings, &mut room)?;
    Ok((code, matches!(&of_run.outcome, Outcome::Relayed(_))))
}

#[test]
fn an_ack_goes_on_without_a_transaction(rt: HostRuntime) -> Result<(), Fail> {
    let alloc = rt.alloc();
    for (before, uri, fields, code) in &ACKS {
        let b = request(alloc, "ACK", fields.as_bytes())?;
        let mut of_run = facts(alloc, uri, *before)?;
        let found = acked(&rt, alloc, b.as_slice(), &mut of_run)?;
        assert_eq!(rt; found, (*code, *code == 1), "{before:?} {uri} {fields:?}");
        assert_eq!(rt; of_run.standing.exists, false);
    }
    Ok(())
}

#[test]
fn an_ack_that_goes_on_has_at_most_8192_bytes(rt: HostRuntime) -> Result<(), Fail> {
    let alloc = rt.alloc();
    let most = 8192 - ACK.len() + 1;
    for (bytes, code) in &[(most, 1), (most + 1, -3)] {
        let b = with_long_field(alloc, "ACK", *bytes)?;
        let mut of_run = facts(alloc, B, Before::Nothing)?;
        let found = acked(&rt, alloc, b.as_slice(), &mut of_run)?;
        assert_eq!(rt; found, (*code, *code == 1), "{bytes} bytes");
    }
    Ok(())
}
