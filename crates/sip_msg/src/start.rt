//! Start lines (RFC 3261, sections 7.1 and 7.2).
ghost use Rattle.std.specs.Prelude.{◌≡◌, ◌≤◌, length, take, IfSome};
ghost use Rattle.sip_words.specs.Spans.{IsWithin};
ghost use Rattle.sip_msg.specs.StartGrammar.{IsStartAt};
ghost use Rattle.sip_msg.specs.Start.{behind_space, request_at, reason_at, status_at, start_at, IsStartBetween};

use crate::Span;
use sip_words::{Class, byte_end, number_at, stands, word_at, word_end};

/// A start line.
#[derive(Clone, Copy, Debug, PartialEq, Eq)]
pub enum Start {
    Request { method: Span, uri: Span },
    /// The code is 100 to 699. The reason is all that stands behind the SP behind it. Where there is no such SP the
    /// span is empty and begins directly behind the code.
    Status { code: u16, reason: Span },
}

/// The place behind a SP.
#[tactic(auto, unfolding(sip_words::specs::Words::byte_end))]
fn behind_space(text: &[u8], from: usize) -> Option<usize>
    ensures value { result ≡ behind_space text.now from }
    ensures bounds { IfSome result (λ end. (from ≤ end) × (end ≤ length text.now)) }
{
    byte_end(text, from, b' ')
}

/// The request line at `from`: a method, a URI and `SIP/2.0`, with one SP between.
#[tactic(auto, unfolding(crate::specs::Start::request_at))]
fn request_at(text: &[u8], from: usize) -> Option<Start>
    requires { from ≤ length text.now }
    ensures value { result ≡ request_at text.now from }
    ensures between { IfSome result (IsStartBetween from (length text.now)) }
{
    let method_end = word_end(text, from, Class::Token)?;
    let uri = behind_space(text, method_end)?;
    let uri_end = word_end(text, uri, Class::Visible)?;
    let version = behind_space(text, uri_end)?;
    let end = word_at(text, version, b"SIP/2.0")?;
    if end != text.len() {
        return None;
    }
    Some(Start::Request {
        method: Span {
            from,
            to: method_end,
        },
        uri: Span {
            from: uri,
            to: uri_end,
        },
    })
}

/// The reason behind a code that ends at `from`: none, or SP and what is left of the line.
fn reason_at(text: &[u8], from: usize) -> Option<Span>
    requires { from ≤ length text.now }
    ensures value { result ≡ reason_at text.now from }
    ensures bounds { IfSome result (λ reason. (from ≤ reason.from) × (reason.from ≤ reason.to) × (reason.to ≤ length text.now)) }
{
    if from == text.len() {
        return Some(Span { from, to: from });
    }
    if !stands(text, from, b' ') {
        return None;
    }
    Some(Span {
        from: from + 1,
        to: text.len(),
    })
}

/// The status line at `from`: `SIP/2.0`, SP, a code, and SP and a reason, which may be left out.
#[tactic(auto, unfolding(crate::specs::Start::status_at))]
fn status_at(text: &[u8], from: usize) -> Option<Start>
    requires { from ≤ length text.now }
    ensures value { result ≡ status_at text.now from }
    ensures between { IfSome result (IsStartBetween from (length text.now)) }
{
    let version_end = word_at(text, from, b"SIP/2.0")?;
    let code = behind_space(text, version_end)?;
    let (number, end) = number_at(text, code, 3)?;
    let reason = reason_at(text, end)?;
    if number < 100 || 699 < number {
        return None;
    }
    Some(Start::Status {
        code: number as u16,
        reason,
    })
}

/// The start line in this part of the bytes.
#[tactic(auto, unfolding(crate::specs::Start::start_at))]
pub fn start_at(b: &[u8], line: Span) -> Option<Start>
    requires { IsWithin b.now line }
    ensures value { result ≡ start_at (take line.to b.now) line.from }
    ensures found { IfSome result (IsStartAt (take line.to b.now) line.from) }
    ensures between { IfSome result (IsStartBetween line.from line.to) }
{
    let text = &b[..line.to];
    match request_at(text, line.from) {
        Some(request) => Some(request),
        None => status_at(text, line.from),
    }
}
