//! Transactions, their responses and their timers.

use super::{Before, facts, message, request};
use crate::{t_newtran, t_reply, t_set_fr};
use message_functions::TextRoom;
use pv_table::{Facts, Outcome};
use pv_values::Text;
use std::alloc::{AllocError, Global};
use std::process::Abort;
use std::test::Fail;

/// A method, how the transaction stands, and the code of `t_newtran`.
const NEW: [(&str, Before, i64); 5] = [
    ("INVITE", Before::Nothing, 1),
    ("BYE", Before::Outcome, 1),
    ("INVITE", Before::Exists, -1),
    ("ACK", Before::Nothing, -1),
    ("CANCEL", Before::Nothing, -1),
];

#[test]
fn a_request_has_one_transaction(rt: HostRuntime) -> Result<(), Fail> {
    let alloc = rt.alloc();
    for (method, before, code) in &NEW {
        let b = request(alloc, method, b"")?;
        let m = message(&rt, b.as_slice());
        let mut of_run = facts(alloc, "sip:b@192.0.2.9", *before)?;
        assert_eq!(rt;
            t_newtran(b.as_slice(), &m, &mut of_run),
            *code,
            "{method} {before:?}"
        );
        assert_eq!(rt;
            of_run.standing.exists,
            *code == 1 || *before == Before::Exists
        );
    }
    Ok(())
}

/// What was decided.
#[derive(Clone, Copy, Debug, PartialEq, Eq)]
enum Decided {
    Nothing,
    Provisional,
    Final,
}

/// A method, how the transaction stands, a code and a reason, and what `t_reply` answers and decides with them.
const REPLIES: [(&str, Before, u16, &str, i64, Decided); 12] = [
    (
        "INVITE",
        Before::Nothing,
        180,
        "Ringing",
        1,
        Decided::Provisional,
    ),
    ("INVITE", Before::Nothing, 199, "", 1, Decided::Provisional),
    ("INVITE", Before::Nothing, 200, "OK", 1, Decided::Final),
    ("BYE", Before::Exists, 404, "Not Found", 1, Decided::Final),
    ("ACK", Before::Nothing, 200, "OK", -1, Decided::Nothing),
    ("CANCEL", Before::Nothing, 200, "OK", -1, Decided::Nothing),
    ("INVITE", Before::Outcome, 200, "OK", -1, Decided::Nothing),
    ("INVITE", Before::Answered, 200, "OK", -1, Decided::Nothing),
    (
        "INVITE",
        Before::Cancelled,
        180,
        "Ringing",
        -1,
        Decided::Nothing,
    ),
    ("INVITE", Before::Suspended, 200, "OK", -1, Decided::Nothing),
    (
        "INVITE",
        Before::Nothing,
        200,
        "a\r\nX: y",
        -3,
        Decided::Nothing,
    ),
    // -1 goes before -3
    (
        "INVITE",
        Before::Cancelled,
        200,
        "a\nb",
        -1,
        Decided::Nothing,
    ),
];

/// What the facts say was decided with this code.
fn what_was_decided(of_run: &Facts, status: u16) -> Decided {
    match &of_run.outcome {
        Outcome::Answered(response) if response.code == status && of_run.standing.is_answered => {
            Decided::Final
        }
        _ if of_run.responses.len() == 1 && of_run.standing.has_responded => Decided::Provisional,
        _ => Decided::Nothing,
    }
}

/// The code of `t_reply` for a request, and what it decides.
fn replied(
    rt: &impl Abort,
    alloc: Global,
    b: &[u8],
    before: Before,
    status: u16,
    reason: &[u8],
) -> Result<(i64, Decided), AllocError> {
    let m = message(rt, b);
    let mut of_run = facts(alloc, "sip:b@192.0.2.9", before)?;
    let mut room = TextRoom::new(alloc)?;
    let reason = Text::from_slice(alloc, reason)?;
    let code = t_reply(b, &m, &mut of_run, status, reason, &mut room)?;
    Ok((code, what_was_decided(&of_run, status)))
}

#[test]
fn a_transaction_is_answered_once(rt: HostRuntime) -> Result<(), Fail> {
    let alloc = rt.alloc();
    for (method, before, status, reason, code, what) in &REPLIES {
        let b = request(alloc, method, b"")?;
        let found = replied(
            &rt,
            alloc,
            b.as_slice(),
            *before,
            *status,
            reason.as_bytes(),
        )?;
        assert_eq!(rt;
            found,
            (*code, *what),
            "{method} {before:?} {status} {reason:?}"
        );
    }
    Ok(())
}

/// The response 200 to an INVITE, without its reason.
const RESPONSE: &str =
    "SIP/2.0 200 \r\nVia: SIP/2.0/UDP 192.0.2.1:5060;branch=z9hG4bK6a\r\nFrom: <sip:a@192.0.2.1>;tag=a\r\nTo: <sip:b@192.0.2.9>;tag=rt6a\r\nCall-ID: 6\r\nCSeq: 1 INVITE\r\nContent-Length: 0\r\n\r\n";

#[test]
fn a_response_of_a_transaction_has_at_most_8192_bytes(rt: HostRuntime) -> Result<(), Fail> {
    let alloc = rt.alloc();
    let room = 8192 - RESPONSE.len();
    let b = request(alloc, "INVITE", b"")?;
    for (bytes, code, what) in &[(room, 1, Decided::Final), (room + 1, -3, Decided::Nothing)] {
        let reason = vec![in alloc; b'a'; *bytes]?;
        let found = replied(
            &rt,
            alloc,
            b.as_slice(),
            Before::Nothing,
            200,
            reason.as_slice(),
        )?;
        assert_eq!(rt; found, (*code, *what), "{bytes} bytes");
    }
    Ok(())
}

/// The two arguments of `t_set_fr`, its code, and the timers then.
const TIMERS: [(&str, &str, i64, u64, u64); 7] = [
    ("5000", "1000", 1, 5_000, 1_000),
    ("0", "1000", 1, 120_000, 1_000),
    ("3600000", "0", 1, 3_600_000, 30_000),
    ("3600001", "1000", -1, 120_000, 30_000),
    ("5000", "3600001", -1, 120_000, 30_000),
    ("-1", "1000", -1, 120_000, 30_000),
    ("5000", "x", -1, 120_000, 30_000),
];

#[test]
fn timers_are_set_up_to_an_hour(rt: HostRuntime) -> Result<(), Fail> {
    let alloc = rt.alloc();
    for (invite, other, code, after, rest) in &TIMERS {
        let mut of_run = facts(alloc, "sip:b@192.0.2.9", Before::Nothing)?;
        let found = t_set_fr(&mut of_run, invite.as_bytes(), other.as_bytes());
        let timers = of_run.final_timers;
        assert_eq!(rt;
            (found, timers.invite, timers.other),
            (*code, *after, *rest),
            "{invite} {other}"
        );
    }
    Ok(())
}
