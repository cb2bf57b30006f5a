//! The function that responds without a transaction.
ghost use Rattle.std.specs.List.{list_all};
ghost use Rattle.std.specs.Prelude.{◌≡◌};
ghost use Rattle.sip_scan.specs.Lines.{is_plain};
ghost use Rattle.sip_msg.specs.Table.{Reads};
ghost use Rattle.host_meaning.specs.Run.{received, ComesTo};
ghost use Rattle.host_meaning.specs.Responses.{sl_send_reply, refuses_reply, can_reply, is_ack, is_undecided};

use crate::room::TextRoom;
use pv_table::{Facts, Outcome, Response, bytes_at};
use pv_values::Text;
use sip_msg::{Message, Start};
use sip_words::Class;

/// Whether the message is an ACK.
#[tactic(auto, using(pv_table::proofs::PartsWithin::start_within))]
pub fn is_ack(b: &[u8], m: &Message) -> bool
    requires { Reads b.now m.now }
    ensures { result ≡ is_ack (received b.now m.now) }
{
    match m.start {
        Start::Request { method, .. } => bytes_at(b, method) == b"ACK".as_slice(),
        Start::Status { .. } => false,
    }
}

/// Whether the run has decided nothing.
pub fn is_undecided(outcome: &Outcome) -> bool
    ensures { result ≡ is_undecided outcome.now }
{
    matches!(outcome, Outcome::Undecided)
}

/// Whether there is nothing to respond to without a transaction: the message is an ACK, or has a transaction or an outcome.
fn refuses_reply(b: &[u8], m: &Message, facts: &Facts) -> bool
    requires { Reads b.now m.now }
    ensures { result ≡ refuses_reply (received b.now m.now) facts.now }
{
    is_ack(b, m) || facts.standing.exists || !is_undecided(&facts.outcome)
}

/// Whether the text has no NUL, CR or LF.
#[tactic(auto, unfolding(sip_words::specs::Bytes::has))]
fn is_of_one_line(text: &[u8]) -> bool
    ensures { result ≡ list_all is_plain text.now }
{
    for byte in text {
        if !Class::InLine.has(*byte) {
            return false;
        }
    }
    true
}

/// Whether the request can have a response with this code and reason: it reads, and the reason is of one line.
pub fn can_reply(
    b: &[u8],
    m: &Message,
    facts: &Facts,
    status: u16,
    reason: &[u8],
    room: &mut TextRoom,
) -> bool
    requires { Reads b.now m.now }
    ensures { result ≡ can_reply (received b.now m.now) facts.now status reason.now }
{
    is_of_one_line(reason) && room.reply_reads(b, m, facts.source, status, reason)
}

/// Decides a response without a transaction. 1; -1 for an ACK, with a transaction or an outcome; -3 where the response
/// would be too long or would not read, or where its reason has a NUL, CR or LF.
pub fn sl_send_reply(
    b: &[u8],
    m: &Message,
    facts: &mut Facts,
    status: u16,
    reason: Text,
    room: &mut TextRoom,
) -> i64
    requires { Reads b.now m.now }
    ensures { ComesTo (sl_send_reply (received b.now m.now) status reason) facts.old result facts.new }
{
    if refuses_reply(b, m, facts) {
        return -1;
    }
    if !can_reply(b, m, facts, status, reason.bytes(), room) {
        return -3;
    }
    facts.outcome = Outcome::Stateless(Response {
        code: status,
        reason,
    });
    1
}
