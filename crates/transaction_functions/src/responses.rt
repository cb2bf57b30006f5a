//! The functions that make a transaction and respond in it.
ghost use Rattle.std.specs.Prelude.{◌≡◌, IfOk, OnErr};
ghost use Rattle.sip_msg.specs.Table.{Reads};
ghost use Rattle.host_meaning.specs.Run.{received, ComesTo};
ghost use Rattle.host_meaning.specs.Transactions.{with_transaction, t_newtran, with_response, with_final_response, replied, refuses_response, t_reply};

use crate::methods::has_no_transaction;
use message_functions::{TextRoom, can_reply, is_undecided};
use pv_table::{Facts, Outcome, Response};
use pv_values::Text;
use sip_msg::Message;
use std::alloc::{AllocError as NoMemory, Global};

/// The lowest code of a final response (RFC 3261, section 7.2).
const FINAL: u16 = 200;

/// Makes a transaction. 1; -1 for an ACK or a CANCEL, or where there is one.
pub fn t_newtran(b: &[u8], m: &Message, facts: &mut Facts) -> i64
    requires { Reads b.now m.now }
    ensures { ComesTo (t_newtran (received b.now m.now)) facts.old result facts.new }
{
    if has_no_transaction(b, m) || facts.standing.exists {
        return -1;
    }
    facts.standing.exists = true;
    1
}

/// Decides a response that is no outcome. Out of memory the facts stay as they were.
pub(crate) fn respond(facts: &mut Facts, response: Response) -> Result<(), NoMemory>
    ensures ok { IfOk result (λ _. facts.new ≡ with_response response facts.old) }
    ensures err { OnErr result (facts.new ≡ facts.old) }
{
    facts.responses.push(response)?;
    facts.standing.exists = true;
    facts.standing.has_responded = true;
    Ok(())
}

/// Decides a final response, which is the outcome.
pub(crate) fn answer(facts: &mut Facts, response: Response)
    ensures { facts.new ≡ with_final_response response facts.old }
{
    facts.outcome = Outcome::Answered(response);
    facts.standing.exists = true;
    facts.standing.has_responded = true;
    facts.standing.is_answered = true;
}

/// Whether no response is taken: for an ACK or a CANCEL, with an outcome, and in a transaction that is answered, cancelled or
/// suspended.
fn refuses_response(b: &[u8], m: &Message, facts: &Facts) -> bool
    requires { Reads b.now m.now }
    ensures { result ≡ refuses_response (received b.now m.now) facts.now }
{
    has_no_transaction(b, m)
        || !is_undecided(&facts.outcome)
        || facts.standing.is_answered
        || facts.standing.is_cancelled
        || facts.standing.is_suspended
}

/// Decides a response of the transaction: a final one is the outcome, one with a code below 200 isn't. 1; -1 for an ACK or a
/// CANCEL, with an outcome, and in a transaction that is answered, cancelled or suspended; -3 where the response would be too
/// long or would not read, or where its reason has a NUL, CR or LF. Out of memory the facts stay as they were.
pub fn t_reply(
    b: &[u8],
    m: &Message,
    facts: &mut Facts,
    status: u16,
    reason: Text,
    room: &mut TextRoom,
) -> Result<i64, NoMemory>
    requires { Reads b.now m.now }
    ensures ok { IfOk result (λ n. ComesTo (t_reply (received b.now m.now) status reason) facts.old n facts.new) }
    ensures err { OnErr result (facts.new ≡ facts.old) }
{
    if refuses_response(b, m, facts) {
        return Ok(-1);
    }
    if !can_reply(b, m, facts, status, reason.bytes(), room) {
        return Ok(-3);
    }
    let response = Response {
        code: status,
        reason,
    };
    if status < FINAL {
        respond(facts, response)?;
    } else {
        answer(facts, response);
    }
    Ok(1)
}
