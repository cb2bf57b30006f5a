//! The values of From, To and Route (RFC 3261, sections 20.20, 20.34, 20.39 and 25.1).
ghost use Rattle.std.specs.Prelude.{◌≡◌, ◌≤◌, ◌<◌, length, take, IfSome, IfOk, Ok, Some};
ghost use Rattle.sip_words.specs.Spans.{IsBetween};
ghost use Rattle.sip_fields.specs.Tail.{or_bad};
ghost use Rattle.sip_fields.specs.NameAddr.{names_end, display_end, open_at, closed_uri, bare_uri, any_uri, route_uri, tag_of, rest_at, name_addr_at, route_at, IsNameAddrBetween};
ghost use Rattle.sip_fields.specs.NameAddrGrammar.{IsNameAddrAt, IsRouteAt};

use crate::tail::{Bad, next_at};
use crate::uri::{is_absolute, uri_at};
use sip_words::{
    Class, Span, Surroundings, lws_end, params_at, quoted_end, run_end, stands, word_end,
};

/// A value of From, To or Route: a URI, and what stands round it.
#[derive(Clone, Copy, Debug, PartialEq, Eq)]
pub struct NameAddr {
    /// The URI, without `<` and `>`.
    pub uri: Span,
    /// The value of the parameter `tag`, where it has one.
    pub tag: Option<Span>,
    /// From the first byte to the end of the last parameter, without the LWS round it.
    pub whole: Span,
    /// The place behind a comma and the LWS behind it.
    pub next: Option<usize>,
}

/// The end of the tokens, and of the LWS behind each, at `from`.
#[tactic(auto, using(crate::proofs::Names::names_go, crate::proofs::Names::names_stop))]
fn names_end(text: &[u8], from: usize) -> usize
    requires { from ≤ length text.now }
    ensures value { names_end text.now from ≡ Some result }
    ensures bounds { (from ≤ result) × (result ≤ length text.now) }
{
    let mut end = from;
    while let Some(name_end) = word_end(text, end, Class::Token) {
        end = lws_end(text, name_end);
    }
    end
}

/// The end of a display name, which may be none, and of the LWS behind it.
#[tactic(auto, unfolding(crate::specs::NameAddr::display_end))]
fn display_end(text: &[u8], from: usize) -> Option<usize>
    requires { from ≤ length text.now }
    ensures value { result ≡ display_end text.now from }
    ensures bounds { IfSome result (λ end. (from ≤ end) × (end ≤ length text.now)) }
{
    if stands(text, from, b'"') {
        let end = quoted_end(text, from + 1)?;
        Some(lws_end(text, end))
    } else {
        Some(names_end(text, from))
    }
}

/// The place behind the `<` that a display name has, or that stands at `from`.
#[tactic(auto, unfolding(crate::specs::NameAddr::open_at))]
fn open_at(text: &[u8], from: usize) -> Option<usize>
    requires { from ≤ length text.now }
    ensures value { result ≡ open_at text.now from }
    ensures bounds { IfSome result (λ end. (from < end) × (end ≤ length text.now)) }
{
    let place = display_end(text, from)?;
    stands(text, place, b'<').then_some(place + 1)
}

/// The URI up to a `>`, and the place behind it.
#[tactic(auto, unfolding(crate::specs::NameAddr::closed_uri))]
fn closed_uri(text: &[u8], from: usize) -> Option<(Span, usize)>
    requires { from ≤ length text.now }
    ensures value { result ≡ closed_uri text.now from }
    ensures bounds { IfSome result (λ u. (u.0.to < u.1) × (u.1 ≤ length text.now)) }
    ensures between { IfSome result (λ u. IsBetween from (length text.now) u.0) }
{
    let to = run_end(text, from, Class::InBrackets);
    if stands(text, to, b'>') && is_absolute(&text[from..to]) {
        Some((Span { from, to }, to + 1))
    } else {
        None
    }
}

/// The URI without `<` and `>`, and its end.
#[tactic(auto, unfolding(crate::specs::NameAddr::bare_uri))]
fn bare_uri(text: &[u8], from: usize) -> Option<(Span, usize)>
    requires { from ≤ length text.now }
    ensures value { result ≡ bare_uri text.now from }
    ensures bounds { IfSome result (λ u. (u.0.to ≤ u.1) × (u.1 ≤ length text.now)) }
    ensures between { IfSome result (λ u. IsBetween from (length text.now) u.0) }
{
    let to = word_end(text, from, Class::Bare)?;
    if is_absolute(&text[from..to]) {
        Some((Span { from, to }, to))
    } else {
        None
    }
}

/// The URI of a value of From or To, and the place behind it.
#[tactic(auto, unfolding(crate::specs::NameAddr::any_uri))]
fn any_uri(text: &[u8], from: usize) -> Option<(Span, usize)>
    requires { from ≤ length text.now }
    ensures value { result ≡ any_uri text.now from }
    ensures bounds { IfSome result (λ u. (u.0.to ≤ u.1) × (u.1 ≤ length text.now)) }
    ensures between { IfSome result (λ u. IsBetween from (length text.now) u.0) }
{
    match open_at(text, from) {
        Some(place) => closed_uri(text, place),
        None => bare_uri(text, from),
    }
}

/// The URI of a value of Route, which stands between `<` and `>` and reads by itself, and the place behind it.
#[tactic(auto, unfolding(crate::specs::NameAddr::route_uri))]
fn route_uri(text: &[u8], from: usize) -> Option<(Span, usize)>
    requires { from ≤ length text.now }
    ensures value { result ≡ route_uri text.now from }
    ensures bounds { IfSome result (λ u. (u.0.to ≤ u.1) × (u.1 ≤ length text.now)) }
    ensures between { IfSome result (λ u. IsBetween from (length text.now) u.0) }
{
    let (uri, end) = closed_uri(text, open_at(text, from)?)?;
    uri_at(&text[..uri.to], uri.from)?;
    Some((uri, end))
}

/// The value that begins at `start` and whose URI this is.
#[tactic(auto, unfolding(crate::specs::NameAddr::rest_at))]
fn rest_at(text: &[u8], start: usize, uri: Span, from: usize) -> Option<NameAddr>
    requires order { start ≤ uri.from }
    requires uri { IsBetween start from uri }
    requires within { from ≤ length text.now }
    ensures value { result ≡ rest_at text.now start (uri, from) }
    ensures between { IfSome result (IsNameAddrBetween start (length text.now)) }
{
    let params = params_at(text, from, Surroundings::Field)?;
    let next = next_at(text, params.end)?;
    Some(NameAddr {
        uri,
        tag: params.tag.and_then(|param| param.value),
        whole: Span {
            from: start,
            to: params.end,
        },
        next,
    })
}

/// The value of From or To at `from`.
#[tactic(auto, unfolding(crate::specs::NameAddr::name_addr_at))]
fn name_addr_at(text: &[u8], from: usize) -> Option<NameAddr>
    requires { from ≤ length text.now }
    ensures value { result ≡ name_addr_at text.now from }
    ensures between { IfSome result (IsNameAddrBetween from (length text.now)) }
{
    let start = lws_end(text, from);
    let (uri, end) = any_uri(text, start)?;
    rest_at(text, start, uri, end)
}

/// The value of Route at `from`.
#[tactic(auto, unfolding(crate::specs::NameAddr::route_at))]
fn route_at(text: &[u8], from: usize) -> Option<NameAddr>
    requires { from ≤ length text.now }
    ensures value { result ≡ route_at text.now from }
    ensures between { IfSome result (IsNameAddrBetween from (length text.now)) }
{
    let start = lws_end(text, from);
    let (uri, end) = route_uri(text, start)?;
    rest_at(text, start, uri, end)
}

/// The first value of From or To in this part of the bytes.
pub fn read_name_addr(b: &[u8], at: Span) -> Result<NameAddr, Bad>
    requires order { at.from ≤ at.to }
    requires within { at.to ≤ length b.now }
    // What is read is spelled by the grammar, each span being the place of its part.
    ensures found { IfOk result (IsNameAddrAt (take at.to b.now) at.from) }
    // What the grammar spells is read, and nothing else can be.
    ensures only { (v : NameAddr) → IsNameAddrAt (take at.to b.now) at.from v → result ≡ Ok v }
    // The same as a function.
    ensures exact { result ≡ or_bad (name_addr_at (take at.to b.now) at.from) }
    // Each span lies in this part of the bytes.
    ensures between { IfOk result (IsNameAddrBetween at.from at.to) }
{
    name_addr_at(&b[..at.to], at.from).ok_or(Bad)
}

/// The first value of Route in this part of the bytes.
pub fn read_route(b: &[u8], at: Span) -> Result<NameAddr, Bad>
    requires order { at.from ≤ at.to }
    requires within { at.to ≤ length b.now }
    // What is read is spelled by the grammar, each span being the place of its part.
    ensures found { IfOk result (IsRouteAt (take at.to b.now) at.from) }
    // What the grammar spells is read, and nothing else can be.
    ensures only { (v : NameAddr) → IsRouteAt (take at.to b.now) at.from v → result ≡ Ok v }
    // The same as a function.
    ensures exact { result ≡ or_bad (route_at (take at.to b.now) at.from) }
    // Each span lies in this part of the bytes.
    ensures between { IfOk result (IsNameAddrBetween at.from at.to) }
{
    route_at(&b[..at.to], at.from).ok_or(Bad)
}
