//! What a response to a malformed request rests on.
ghost use Rattle.std.specs.Prelude.{◌≡◌, ◌≤◌, ◌<◌, IfSome, codes, length, take};
ghost use Rattle.std.specs.Str.{bytes_eq};
ghost use Rattle.sip_words.specs.Spans.{IsWithin};
ghost use Rattle.sip_words.specs.Words.{is_the};
ghost use Rattle.sip_msg.specs.Places.{BasisLiesIn};
ghost use Rattle.sip_msg.specs.Basis.{version_end, version_at_space, uri_at_space, first_from, answerable_at, basis_in, basis_of};

use crate::Span;
use crate::fields::Kinds;
use crate::message::LONGEST;
use crate::values::via_of;
use sip_fields::Via;
use sip_scan::{Head, scan, start_line};
use sip_words::{Class, stands, word_at, word_end};

/// What a response to a malformed request rests on.
#[derive(Debug, Drop)]
pub struct Basis {
    /// The head of the first 8,192 bytes.
    pub head: Head,
    /// The first value of the first Via.
    pub via: Via,
    /// Whether the version of the first line is 2.0.
    pub version_ok: bool,
    /// Whether the datagram has more than 8,192 bytes.
    pub too_long: bool,
}

/// The end of a version: `SIP/`, digits, a dot and digits.
#[tactic(auto, unfolding(crate::specs::Basis::version_end))]
fn version_end(text: &[u8], from: usize) -> Option<usize>
    requires { from ≤ length text.now }
    ensures { result ≡ version_end text.now from }
{
    let major = word_at(text, from, b"SIP/")?;
    let dot = word_end(text, major, Class::Digit)?;
    if !stands(text, dot, b'.') {
        return None;
    }
    word_end(text, dot + 1, Class::Digit)
}

/// Whether this is the end of the line.
fn is_end(text: &[u8], end: Option<usize>) -> bool
    ensures { result ≡ is_the (length text.now) end }
{
    match end {
        Some(end) => end == text.len(),
        None => false,
    }
}

/// Whether a SP stands here, and a version is the rest of the line behind it.
#[tactic(auto, unfolding(crate::specs::Basis::version_at_space))]
fn version_at_space(text: &[u8], at: usize) -> bool
    requires { at < length text.now }
    ensures { result ≡ version_at_space text.now at }
{
    stands(text, at, b' ') && is_end(text, version_end(text, at + 1))
}

/// Whether a SP stands here, and a URI up to another SP behind it.
#[tactic(auto, unfolding(crate::specs::Basis::uri_at_space))]
fn uri_at_space(text: &[u8], at: usize) -> bool
    requires { at < length text.now }
    ensures { result ≡ uri_at_space text.now at }
{
    if !stands(text, at, b' ') {
        return false;
    }
    match word_end(text, at + 1, Class::Visible) {
        Some(end) => stands(text, end, b' '),
        None => false,
    }
}

/// The SP before the first URI that stands between two SPs.
#[tactic(auto, using(crate::proofs::Places::here, crate::proofs::Places::goes, crate::proofs::Places::none))]
fn uri_from(text: &[u8], from: usize) -> Option<usize>
    requires { from ≤ length text.now }
    ensures { result ≡ first_from (uri_at_space text.now) text.now from }
{
    for at in from..text.len() {
        if uri_at_space(text, at) {
            return Some(at);
        }
    }
    None
}

/// The SP before the version that ends the line.
#[tactic(auto, using(crate::proofs::Places::here, crate::proofs::Places::goes, crate::proofs::Places::none))]
fn version_from(text: &[u8], from: usize) -> Option<usize>
    requires { from ≤ length text.now }
    ensures value { result ≡ first_from (version_at_space text.now) text.now from }
    ensures bound { IfSome result (λ at. at < length text.now) }
{
    for at in from..text.len() {
        if version_at_space(text, at) {
            return Some(at);
        }
    }
    None
}

/// Whether the method is ACK. Case counts.
fn is_ack(method: &[u8]) -> bool
    ensures { result ≡ bytes_eq method.now (codes "ACK") }
{
    method == b"ACK".as_slice()
}

/// Whether the version of a first line that can be answered is 2.0. None where the line can't be answered: its first
/// part between SPs isn't a method other than ACK, no part in its middle is a URI, or its last one isn't a version.
#[tactic(auto, unfolding(crate::specs::Basis::answerable_at))]
fn answerable_at(b: &[u8], line: Span) -> Option<bool>
    requires { IsWithin b.now line }
    ensures { result ≡ answerable_at (take line.to b.now) line.from }
{
    let text = &b[..line.to];
    let method_end = word_end(text, line.from, Class::Token)?;
    uri_from(text, method_end)?;
    let version = version_from(text, method_end)?;
    if !stands(text, method_end, b' ') || is_ack(&text[line.from..method_end]) {
        return None;
    }
    Some(is_end(text, word_at(text, version + 1, b"SIP/2.0")))
}

/// The basis that these first bytes of a datagram have.
#[tactic(auto, unfolding(crate::specs::Basis::basis_in))]
fn basis_in(front: &[u8], too_long: bool) -> Option<Basis>
    ensures value { result ≡ basis_in front.now too_long }
    ensures places { IfSome result (BasisLiesIn front.now) }
{
    let line = start_line(front)?;
    let version_ok = answerable_at(front, line)?;
    let Ok(head) = scan(front) else {
        return None;
    };
    let via = via_of(front, &Kinds::of(&head.fields))?;
    Some(Basis {
        head,
        via,
        version_ok,
        too_long,
    })
}

/// The first 8,192 bytes, or all where there are fewer.
fn first_bytes(b: &[u8]) -> &[u8]
    ensures { result.now ≡ take 8192 b.now }
{
    if LONGEST < b.len() { &b[..LONGEST] } else { b }
}

/// What a response to this datagram rests on, if it is malformed. None where it can't be answered: in its first 8,192
/// bytes there is no first line with a method other than ACK, a URI and a version `SIP/` digits `.` digits; or the
/// header fields don't read; or there are 129 of them or more; or the first value of the first Via doesn't read.
pub fn read_basis(b: &[u8]) -> Option<Basis>
    // It is the basis that the datagram has.
    ensures exact { result ≡ basis_of b.now }
    // Each span lies in the value of its field, within the first 8,192 bytes.
    ensures places { IfSome result (BasisLiesIn (take 8192 b.now)) }
{
    basis_in(first_bytes(b), LONGEST < b.len())
}
