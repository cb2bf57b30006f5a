//! Responses without a transaction.

use super::{facts, message, request};
use crate::{TextRoom, sl_send_reply};
use pv_table::{BlockKind, Facts, Outcome};
use pv_values::Text;
use std::alloc::{AllocError, Global};
use std::process::Abort;
use std::test::Fail;

const BYE: &str =
    "BYE sip:b@192.0.2.9 SIP/2.0\r\nVia: SIP/2.0/UDP 192.0.2.1:5060;branch=z9hG4bK6a\r\nFrom: <sip:a@192.0.2.1>;tag=a\r\nTo: <sip:b@192.0.2.9>;tag=t\r\nCall-ID: 6\r\nCSeq: 1 BYE\r\n\r\n";

/// The response with the code 200 and no reason to it, where it came from 192.0.2.9, port 5065.
const RESPONSE: &str =
    "SIP/2.0 200 \r\nVia: SIP/2.0/UDP 192.0.2.1:5060;branch=z9hG4bK6a;received=192.0.2.9\r\nFrom: <sip:a@192.0.2.1>;tag=a\r\nTo: <sip:b@192.0.2.9>;tag=t\r\nCall-ID: 6\r\nCSeq: 1 BYE\r\nContent-Length: 0\r\n\r\n";

/// What a run has decided before.
#[derive(Clone, Copy)]
enum Before {
    Nothing,
    Transaction,
    Outcome,
}

/// The facts of a run that has decided this.
fn decided(alloc: Global, before: Before) -> Result<Facts, AllocError> {
    let mut of_run = facts(alloc, BlockKind::Request, "sip:b@192.0.2.9")?;
    match before {
        Before::Nothing => {}
        Before::Transaction => of_run.standing.exists = true,
        Before::Outcome => of_run.outcome = Outcome::Suspended,
    }
    Ok(of_run)
}

/// The outcome is the response with the code 200 and this reason.
fn is_kept(outcome: &Outcome, reason: &[u8]) -> bool {
    match outcome {
        Outcome::Stateless(response) => response.code == 200 && response.reason.bytes() == reason,
        _ => false,
    }
}

/// The code of `sl_send_reply("200", reason)`, and whether the response is kept.
fn replied(
    rt: &impl Abort,
    alloc: Global,
    b: &[u8],
    before: Before,
    reason: &[u8],
) -> Result<(i64, bool), AllocError> {
    let m = message(rt, b);
    let mut of_run = decided(alloc, before)?;
    let mut room = TextRoom::new(alloc)?;
    let text = Text::from_slice(alloc, reason)?;
    let code = sl_send_reply(b, &m, &mut of_run, 200, text, &mut room);
    Ok((code, is_kept(&of_run.outcome, reason)))
}

/// A reason, and the code.
const REASONS: [(&str, i64); 8] = [
    ("OK", 1),
    ("", 1),
    ("één:  <sip:x>\t\"", 1),
    ("a\0b", -3),
    ("a\rb", -3),
    ("a\nb", -3),
    // a folded field, as `$hdr` reads it
    ("one\r\n two", -3),
    ("a\r\nX: y", -3),
];

#[test]
fn a_reason_is_one_line(rt: HostRuntime) -> Result<(), Fail> {
    for (reason, code) in &REASONS {
        let b = BYE.as_bytes();
        let found = replied(&rt, rt.alloc(), b, Before::Nothing, reason.as_bytes())?;
        assert_eq!(rt; found, (*code, *code == 1), "{reason:?}");
    }
    Ok(())
}

#[test]
fn an_ack_a_transaction_and_an_outcome_take_no_response(rt: HostRuntime) -> Result<(), Fail> {
    let alloc = rt.alloc();
    let ack = request(alloc, "")?;
    let found = replied(&rt, alloc, ack.as_slice(), Before::Nothing, b"OK")?;
    assert_eq!(rt; found, (-1, false));
    for before in &[Before::Transaction, Before::Outcome] {
        let found = replied(&rt, alloc, BYE.as_bytes(), *before, b"OK")?;
        assert_eq!(rt; found, (-1, false));
    }
    Ok(())
}

/// A text of so many bytes.
fn long(alloc: Global, bytes: usize) -> Result<Vec<u8>, AllocError> {
    vec![in alloc; b'a'; bytes]
}

#[test]
fn a_response_has_at_most_8192_bytes(rt: HostRuntime) -> Result<(), Fail> {
    let alloc = rt.alloc();
    let room = 8192 - RESPONSE.len();
    for (bytes, code) in &[(room, 1), (room + 1, -3)] {
        let reason = long(alloc, *bytes)?;
        let b = BYE.as_bytes();
        let found = replied(&rt, alloc, b, Before::Nothing, reason.as_slice())?;
        assert_eq!(rt; found, (*code, *code == 1), "{bytes} bytes");
    }
    Ok(())
}

/// A request whose Via values stand in so many fields, beside four others.
fn with_vias(alloc: Global, fields: usize) -> Result<Vec<u8>, AllocError> {
    let mut text = Vec::from_slice(alloc, b"BYE sip:b@192.0.2.9 SIP/2.0\r\n")?;
    for _ in 0..fields {
        text.extend_from_slice(b"Via: SIP/2.0/UDP 192.0.2.1;branch=z9hG4bK6\r\n")?;
    }
    text.extend_from_slice(
        b"From: <sip:a@192.0.2.1>;tag=a\r\nTo: <sip:b@192.0.2.9>;tag=t\r\nCall-ID: 6\r\nCSeq: 1 BYE\r\n\r\n",
    )?;
    Ok(text)
}

#[test]
fn a_response_has_at_most_128_fields(rt: HostRuntime) -> Result<(), Fail> {
    let alloc = rt.alloc();
    for (fields, code) in &[(123, 1), (124, -3)] {
        let b = with_vias(alloc, *fields)?;
        let found = replied(&rt, alloc, b.as_slice(), Before::Nothing, b"OK")?;
        assert_eq!(rt; found, (*code, *code == 1), "{fields} Via fields");
    }
    Ok(())
}
