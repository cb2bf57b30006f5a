//! Messages by their methods.
ghost use Rattle.std.specs.Prelude.{◌≡◌};
ghost use Rattle.sip_msg.specs.Table.{Reads};
ghost use Rattle.host_meaning.specs.Run.{received};
ghost use Rattle.host_meaning.specs.Transactions.{is_cancel, is_invite, has_no_transaction};

use message_functions::is_ack;
use pv_table::bytes_at;
use sip_msg::{Message, Start};

/// Whether the message is a CANCEL.
#[tactic(auto, using(pv_table::proofs::PartsWithin::start_within))]
pub fn is_cancel(b: &[u8], m: &Message) -> bool
    requires { Reads b.now m.now }
    ensures { result ≡ is_cancel (received b.now m.now) }
{
    match m.start {
        Start::Request { method, .. } => bytes_at(b, method) == b"CANCEL".as_slice(),
        Start::Status { .. } => false,
    }
}

/// Whether the message is an INVITE.
#[tactic(auto, using(pv_table::proofs::PartsWithin::start_within))]
pub fn is_invite(b: &[u8], m: &Message) -> bool
    requires { Reads b.now m.now }
    ensures { result ≡ is_invite (received b.now m.now) }
{
    match m.start {
        Start::Request { method, .. } => bytes_at(b, method) == b"INVITE".as_slice(),
        Start::Status { .. } => false,
    }
}

/// Whether the message is an ACK or a CANCEL, which have no transaction of their own: they belong to that of their INVITE.
pub fn has_no_transaction(b: &[u8], m: &Message) -> bool
    requires { Reads b.now m.now }
    ensures { result ≡ has_no_transaction (received b.now m.now) }
{
    is_ack(b, m) || is_cancel(b, m)
}
