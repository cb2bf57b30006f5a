//! The values of header fields (RFC 3261, sections 20 and 25.1).
ghost use Rattle.std.specs.Prelude.{◌≡◌, ◌≤◌, ◌<◌, All, IfSome, length, take, slice_range, suc};
ghost use Rattle.std.specs.List.{list_all};
ghost use Rattle.sip_words.specs.Spans.{IsBetween, IsWithin};
ghost use Rattle.sip_scan.specs.Field.{IsField};
ghost use Rattle.sip_scan.specs.declared.field.Kind.TheVariants as kind;
ghost use Rattle.sip_fields.specs.Via.{IsViaBetween};
ghost use Rattle.sip_fields.specs.NameAddr.{IsNameAddrBetween};
ghost use Rattle.sip_fields.specs.CSeq.{IsCSeqBetween};
ghost use Rattle.sip_msg.specs.Places.{InFirst, ValuesLie};
ghost use Rattle.sip_msg.specs.Start.{IsStartBetween};
ghost use Rattle.sip_msg.specs.Values.{call_id_at, whole_number, hops_at, via_of, name_addr_of, call_id_of, cseq_of, max_forwards_of, content_length_of, next_via, next_route, next_value, list_reads, has_cookie, fits, values_of, HasValues};

use crate::fields::Kinds;
use crate::{Span, Start};
use sip_fields::{CSeq, NameAddr, Via, read_cseq, read_name_addr, read_route, read_via};
use sip_scan::{HeaderSpan, Kind};
use sip_words::{Class, lws_end, number_at, word_end};

/// The values that a message has of its fields.
#[derive(Clone, Copy)]
pub struct Values {
    pub via: Via,
    pub from: NameAddr,
    pub to: NameAddr,
    pub call_id: Span,
    pub cseq: CSeq,
    pub max_forwards: Option<u8>,
    pub content_length: Option<usize>,
}

/// The Call-ID that these bytes are, with LWS round it.
#[tactic(auto, unfolding(crate::specs::Values::call_id_at))]
fn call_id_at(b: &[u8], at: Span) -> Option<Span>
    requires { IsWithin b.now at }
    ensures value { result ≡ call_id_at (take at.to b.now) at.from }
    ensures between { IfSome result (IsBetween at.from at.to) }
{
    let text = &b[..at.to];
    let from = lws_end(text, at.from);
    let to = word_end(text, from, Class::Unbroken)?;
    if lws_end(text, to) != text.len() {
        return None;
    }
    Some(Span { from, to })
}

/// The number of at most `most` digits that these bytes are, with LWS round it.
#[tactic(auto, unfolding(crate::specs::Values::whole_number))]
fn whole_number(b: &[u8], at: Span, most: usize) -> Option<u64>
    requires within { IsWithin b.now at }
    requires short { most ≤ 10 }
    ensures { result ≡ whole_number most (take at.to b.now) at.from }
{
    let text = &b[..at.to];
    let (number, end) = number_at(text, lws_end(text, at.from), most)?;
    if lws_end(text, end) != text.len() {
        return None;
    }
    Some(number)
}

/// The number up to 255 that these bytes are.
#[tactic(auto, unfolding(crate::specs::Values::hops_at))]
fn hops_at(b: &[u8], at: Span) -> Option<u8>
    requires { IsWithin b.now at }
    ensures { result ≡ hops_at (take at.to b.now) at.from }
{
    let number = whole_number(b, at, 3)?;
    if number < 256 {
        Some(number as u8)
    } else {
        None
    }
}

/// The first value of the first Via.
#[tactic(auto, unfolding(crate::specs::Values::via_of))]
pub fn via_of(b: &[u8], kinds: &Kinds) -> Option<Via>
    requires { All (IsField b.now) kinds.now.fields.now }
    ensures value { result ≡ via_of b.now kinds.now.fields.now }
    ensures branch { IfSome result (λ via. IfSome via.branch (IsWithin b.now)) }
    ensures lies { IfSome result (λ via. InFirst kind.Via kinds.now.fields.now (λ i j. IsViaBetween i j via)) }
{
    let field = kinds.first(b, Kind::Via)?;
    read_via(b, field.value).ok()
}

/// The value of the field From or To, if it has one alone.
#[tactic(auto, unfolding(crate::specs::Values::name_addr_of))]
fn name_addr_of(b: &[u8], kinds: &Kinds, kind: Kind) -> Option<NameAddr>
    requires { All (IsField b.now) kinds.now.fields.now }
    ensures value { result ≡ name_addr_of kind b.now kinds.now.fields.now }
    ensures lies { IfSome result (λ n. InFirst kind kinds.now.fields.now (λ i j. IsNameAddrBetween i j n)) }
{
    let field = kinds.first(b, kind)?;
    let value = read_name_addr(b, field.value).ok()?;
    if value.next.is_some() {
        return None;
    }
    Some(value)
}

/// The Call-ID.
#[tactic(auto, unfolding(crate::specs::Values::call_id_of))]
fn call_id_of(b: &[u8], kinds: &Kinds) -> Option<Span>
    requires { All (IsField b.now) kinds.now.fields.now }
    ensures value { result ≡ call_id_of b.now kinds.now.fields.now }
    ensures lies { IfSome result (λ c. InFirst kind.CallId kinds.now.fields.now (λ i j. IsBetween i j c)) }
{
    let field = kinds.first(b, Kind::CallId)?;
    call_id_at(b, field.value)
}

/// The CSeq.
#[tactic(auto, unfolding(crate::specs::Values::cseq_of))]
fn cseq_of(b: &[u8], kinds: &Kinds) -> Option<CSeq>
    requires { All (IsField b.now) kinds.now.fields.now }
    ensures value { result ≡ cseq_of b.now kinds.now.fields.now }
    ensures within { IfSome result (λ c. IsWithin b.now c.method) }
    ensures lies { IfSome result (λ c. InFirst kind.CSeq kinds.now.fields.now (λ i j. IsCSeqBetween i j c)) }
{
    let field = kinds.first(b, Kind::CSeq)?;
    read_cseq(b, field.value).ok()
}

/// The number of Max-Forwards, if it stands there; or None where it doesn't read.
#[tactic(auto, unfolding(crate::specs::Values::max_forwards_of))]
fn max_forwards_of(b: &[u8], kinds: &Kinds) -> Option<Option<u8>>
    requires { All (IsField b.now) kinds.now.fields.now }
    ensures { result ≡ max_forwards_of b.now kinds.now.fields.now }
{
    match kinds.first(b, Kind::MaxForwards) {
        Some(field) => Some(Some(hops_at(b, field.value)?)),
        None => Some(None),
    }
}

/// The number of Content-Length, if it stands there; or None where it doesn't read.
#[tactic(auto, unfolding(crate::specs::Values::content_length_of))]
fn content_length_of(b: &[u8], kinds: &Kinds) -> Option<Option<usize>>
    requires { All (IsField b.now) kinds.now.fields.now }
    ensures { result ≡ content_length_of b.now kinds.now.fields.now }
{
    match kinds.first(b, Kind::ContentLength) {
        Some(field) => Some(Some(whole_number(b, field.value, 10)? as usize)),
        None => Some(None),
    }
}

/// Where the value of Via behind this one begins, if there is one; or None where this one doesn't read.
#[tactic(auto, unfolding(crate::specs::Values::next_via))]
fn next_via(b: &[u8], at: Span) -> Option<Option<usize>>
    requires { IsWithin b.now at }
    ensures value { result ≡ next_via (take at.to b.now) at.from }
    ensures between { IfSome result (λ next. IfSome next (λ n. (at.from < n) × (n ≤ at.to))) }
{
    let via = read_via(b, at).ok()?;
    Some(via.next)
}

/// The same for a value of Route.
#[tactic(auto, unfolding(crate::specs::Values::next_route))]
fn next_route(b: &[u8], at: Span) -> Option<Option<usize>>
    requires { IsWithin b.now at }
    ensures value { result ≡ next_route (take at.to b.now) at.from }
    ensures between { IfSome result (λ next. IfSome next (λ n. (at.from < n) × (n ≤ at.to))) }
{
    let route = read_route(b, at).ok()?;
    Some(route.next)
}

/// The same in a field of this kind. Of other kinds nothing is asked.
fn next_value(b: &[u8], at: Span, kind: Kind) -> Option<Option<usize>>
    requires { IsWithin b.now at }
    ensures value { result ≡ next_value kind (take at.to b.now) at.from }
    ensures between { IfSome result (λ next. IfSome next (λ n. (at.from < n) × (n ≤ at.to))) }
{
    match kind {
        Kind::Via => next_via(b, at),
        Kind::Route => next_route(b, at),
        _ => Some(None),
    }
}

/// Whether each value of the field reads, where it is Via or Route.
fn list_reads(b: &[u8], field: &HeaderSpan) -> bool
    requires { IsField b.now field.now }
    ensures { result ≡ list_reads b.now field.now }
{
    let to = field.value.to;
    let mut from = field.value.from;
    while let Some(next) = next_value(b, Span { from, to }, field.kind) {
        match next {
            Some(place) => from = place,
            None => return true,
        }
    }
    false
}

/// Whether each value of each Via and Route field reads.
#[tactic(auto, using(std::proofs::lemmas::List::Folds::list_all_more, std::proofs::lemmas::List::Folds::list_all_at))]
fn lists_read(b: &[u8], fields: &[HeaderSpan]) -> bool
    requires { All (IsField b.now) fields.now }
    ensures { result ≡ list_all (list_reads b.now) fields.now }
{
    for field in fields {
        if !list_reads(b, field) {
            return false;
        }
    }
    true
}

/// Whether the branch begins with the cookie of RFC 3261, section 8.1.1.7.
fn has_cookie(b: &[u8], branch: Option<Span>) -> bool
    requires { IfSome branch (IsWithin b.now) }
    ensures { result ≡ has_cookie b.now branch }
{
    match branch {
        Some(branch) => b[branch.from..branch.to].starts_with(b"z9hG4bK"),
        None => false,
    }
}

/// Whether the values fit the start line: in a request the CSeq method is the method, byte by byte, and the top
/// Via's branch begins with the cookie.
fn fits(b: &[u8], start: Start, cseq: CSeq, via: Via) -> bool
    requires start { IsStartBetween 0 (length b.now) start }
    requires cseq { IsWithin b.now cseq.method }
    requires branch { IfSome via.branch (IsWithin b.now) }
    ensures { result ≡ fits b.now start cseq via }
{
    match start {
        Start::Request { method, .. } => {
            b[cseq.method.from..cseq.method.to] == b[method.from..method.to]
                && has_cookie(b, via.branch)
        }
        Start::Status { .. } => true,
    }
}

/// The values of the fields, if each one reads and they fit the start line.
#[tactic(auto, unfolding(crate::specs::Values::values_of))]
pub fn values_of(b: &[u8], start: Start, kinds: &Kinds) -> Option<Values>
    requires start { IsStartBetween 0 (length b.now) start }
    requires fields { All (IsField b.now) kinds.now.fields.now }
    ensures value { result ≡ values_of b.now start kinds.now.fields.now }
    ensures parts { IfSome result (HasValues b.now kinds.now.fields.now) }
    ensures lie { IfSome result (ValuesLie kinds.now.fields.now) }
{
    let via = via_of(b, kinds)?;
    let from = name_addr_of(b, kinds, Kind::From)?;
    let to = name_addr_of(b, kinds, Kind::To)?;
    let call_id = call_id_of(b, kinds)?;
    let cseq = cseq_of(b, kinds)?;
    let max_forwards = max_forwards_of(b, kinds)?;
    let content_length = content_length_of(b, kinds)?;
    if !lists_read(b, kinds.fields) || !fits(b, start, cseq, via) {
        return None;
    }
    Some(Values {
        via,
        from,
        to,
        call_id,
        cseq,
        max_forwards,
        content_length,
    })
}
