//! The server key of a request (RFC 3261, section 17.2.3).

ghost use Rattle.std.specs.Prelude.{◌≡◌, codes, length, IfSome, slice_range, unwrap_or};
ghost use Rattle.sip_words.specs.Spans.{IsBetween};
ghost use Rattle.sip_msg.specs.Start.{IsStartBetween};
ghost use Rattle.sip_msg.specs.Table.{Reads};
ghost use Rattle.sip_keys.specs.Keys.{ShowsKey, branch_in, method_in};

use server_key::KeyView;
use sip_fields::{Span, Via};
use sip_msg::{Message, Start};

/// The port of a sent-by without one (RFC 3261, section 18.2.2).
const DEFAULT_PORT: u16 = 5060;

/// The method of a request; a response has none.
fn method_of(b: &[u8], start: Start) -> &[u8]
    requires place { IsStartBetween 0 (length b.now) start }
    ensures { result.now ≡ method_in b.now start }
{
    match start {
        Start::Request { method, .. } => &b[method.from..method.to],
        Start::Status { .. } => b"",
    }
}

/// The bytes of a branch.
fn branch_in(b: &[u8], branch: Option<Span>) -> &[u8]
    requires place { IfSome branch (IsBetween 0 (length b.now)) }
    ensures { result.now ≡ branch_in b.now branch }
{
    match branch {
        Some(at) => &b[at.from..at.to],
        None => b"",
    }
}

/// The key of a top Via and a method.
fn key_with<'a>(b: &'a [u8], via: &Via, method: &'a [u8]) -> KeyView<'a>
    requires host { IsBetween 0 (length b.now) via.now.host_at }
    requires branch { IfSome via.now.branch (IsBetween 0 (length b.now)) }
    ensures branch { result.branch.now ≡ branch_in b.now via.now.branch }
    ensures host { result.host.now ≡ slice_range b.now via.now.host_at.from via.now.host_at.to }
    ensures port { result.port ≡ unwrap_or via.now.port 5060 }
    ensures method { result.method.now ≡ method.now }
{
    KeyView {
        branch: branch_in(b, via.branch),
        host: &b[via.host_at.from..via.host_at.to],
        port: via.port.unwrap_or(DEFAULT_PORT),
        method,
    }
}

/// The key of a request's own server transaction: the branch, host and port of its top Via, and its method.
#[tactic(auto, using(crate::proofs::Within::top_lies, crate::proofs::Within::start_lies))]
pub fn key_of<'a>(b: &'a [u8], m: &Message) -> KeyView<'a>
    requires reads { Reads b.now m.now }
    ensures { ShowsKey b.now m.now (method_in b.now m.now.start) result }
{
    key_with(b, &m.via, method_of(b, m.start))
}

/// The key under which an ACK or a CANCEL finds the transaction of its INVITE (RFC 3261, sections 9.2 and 17.2.3).
#[tactic(auto, using(crate::proofs::Within::top_lies))]
pub fn invite_key<'a>(b: &'a [u8], m: &Message) -> KeyView<'a>
    requires reads { Reads b.now m.now }
    ensures { ShowsKey b.now m.now (codes "INVITE") result }
{
    key_with(b, &m.via, b"INVITE")
}
