//! The value of Via (RFC 3261, sections 20.42 and 25.1).
ghost use Rattle.std.specs.Prelude.{◌≡◌, ◌≤◌, ◌<◌, length, take, IfSome, IfOk, Ok};
ghost use Rattle.sip_words.specs.Spans.{IsBetween, HasParts};
ghost use Rattle.sip_fields.specs.Tail.{or_bad};
ghost use Rattle.sip_fields.specs.Via.{protocol_at, branch_of, rport_of, received_of, via_at, IsRportBetween, IsViaBetween};
ghost use Rattle.sip_fields.specs.ViaGrammar.{IsViaAt};

use crate::host::{Host, host_at, port_at};
use crate::tail::{Bad, next_at};
use sip_words::{
    Class, Param, Span, Surroundings, gap_end, is_all, lws_end, params_at, separator_at, word_at,
    word_end,
};

/// The parameter `rport` of a Via value (RFC 3581).
#[derive(Clone, Copy, Debug, PartialEq, Eq)]
pub enum Rport {
    Absent,
    /// It has no value: the span of the word.
    Empty(Span),
    /// The span of its value.
    Given(Span),
}

/// A value of Via.
///
/// ```
/// let b = b"SIP/2.0/UDP 192.0.2.1:5062;rport;branch=z9hG4bK1";
/// let via = read_via(b, Span { from: 0, to: 48 })?;
/// via.host; // V4(0xc000_0201)
/// via.port; // Some(5062)
/// via.branch; // the span of `z9hG4bK1`
/// via.rport; // Empty, with the span of `rport`
/// via.next; // None: the field has no second value
/// ```
#[derive(Clone, Copy, Debug, PartialEq, Eq)]
pub struct Via {
    pub host: Host,
    pub host_at: Span,
    pub port: Option<u16>,
    /// The value of the parameter `branch`, a token.
    pub branch: Option<Span>,
    pub rport: Rport,
    /// The parameter `received`, from its semicolon to the end of its value, where it has a value.
    pub received: Option<Span>,
    /// From the first byte to the end of the last parameter, without the LWS round it.
    pub whole: Span,
    /// The place behind a comma and the LWS behind it.
    pub next: Option<usize>,
}

/// The place of the host behind `SIP/2.0/`, a transport and LWS.
#[tactic(auto, unfolding(crate::specs::Via::protocol_at))]
fn protocol_at(text: &[u8], from: usize) -> Option<usize>
    requires { from ≤ length text.now }
    ensures value { result ≡ protocol_at text.now from }
    ensures bounds { IfSome result (λ end. (from < end) × (end ≤ length text.now)) }
{
    let name = word_at(text, from, b"SIP")?;
    let slash = separator_at(text, name, b'/', Surroundings::Field)?;
    let version = word_at(text, slash.end, b"2.0")?;
    let slash = separator_at(text, version, b'/', Surroundings::Field)?;
    let transport = word_end(text, slash.end, Class::Token)?;
    gap_end(text, transport)
}

/// The branch that a parameter gives. None where it is no token.
fn branch_of(text: &[u8], param: Option<Param>, from: usize) -> Option<Option<Span>>
    requires { IfSome param (HasParts from (length text.now)) }
    ensures value { result ≡ branch_of text.now param }
    ensures between { IfSome result (λ branch. IfSome branch (IsBetween from (length text.now))) }
{
    let Some(param) = param else {
        return Some(None);
    };
    let value = param.value?;
    if is_all(&text[value.from..value.to], Class::Token) {
        Some(Some(value))
    } else {
        None
    }
}

/// What a parameter says as `rport`.
fn rport_of(param: Option<Param>) -> Rport
    ensures { result ≡ rport_of param }
{
    let Some(param) = param else {
        return Rport::Absent;
    };
    match param.value {
        None => Rport::Empty(param.name),
        Some(value) => Rport::Given(value),
    }
}

/// A whole parameter, where it has a value.
fn received_of(param: Option<Param>) -> Option<Span>
    ensures { result ≡ received_of param }
{
    let param = param?;
    param.value?;
    Some(param.whole)
}

/// The value of Via at `from`.
#[tactic(auto, unfolding(crate::specs::Via::via_at))]
fn via_at(text: &[u8], from: usize) -> Option<Via>
    requires { from ≤ length text.now }
    ensures value { result ≡ via_at text.now from }
    ensures between { IfSome result (IsViaBetween from (length text.now)) }
{
    let start = lws_end(text, from);
    let place = protocol_at(text, start)?;
    let (host, host_end) = host_at(text, place)?;
    let (port, port_end) = port_at(text, host_end, Surroundings::Field)?;
    let params = params_at(text, port_end, Surroundings::Field)?;
    let branch = branch_of(text, params.branch, port_end)?;
    let next = next_at(text, params.end)?;
    Some(Via {
        host,
        host_at: Span {
            from: place,
            to: host_end,
        },
        port,
        branch,
        rport: rport_of(params.rport),
        received: received_of(params.received),
        whole: Span {
            from: start,
            to: params.end,
        },
        next,
    })
}

/// The first value of Via in this part of the bytes.
pub fn read_via(b: &[u8], at: Span) -> Result<Via, Bad>
    requires order { at.from ≤ at.to }
    requires within { at.to ≤ length b.now }
    // What is read is spelled by the grammar, each span being the place of its part.
    ensures found { IfOk result (IsViaAt (take at.to b.now) at.from) }
    // What the grammar spells is read, and nothing else can be.
    ensures only { (v : Via) → IsViaAt (take at.to b.now) at.from v → result ≡ Ok v }
    // The same as a function.
    ensures exact { result ≡ or_bad (via_at (take at.to b.now) at.from) }
    // Each span lies in this part of the bytes.
    ensures between { IfOk result (IsViaBetween at.from at.to) }
{
    via_at(&b[..at.to], at.from).ok_or(Bad)
}
