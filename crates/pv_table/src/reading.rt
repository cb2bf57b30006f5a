//! What each variable reads.
ghost use Rattle.std.specs.Option.{option_copied};
ghost use Rattle.std.specs.Prelude.{◌≡◌, ◌≤◌, IfOk, IfSome, length};
ghost use Rattle.sip_msg.specs.Start.{IsStartBetween};
ghost use Rattle.sip_words.specs.Spans.{IsWithin};
ghost use Rattle.sip_msg.specs.Table.{Reads};
ghost use Rattle.cfg_tree.specs.Transformations.{part_or_null};
ghost use Rattle.pv_values.specs.declared.value.Val.TheVariants as val;
ghost use Rattle.numerals.specs.Numerals.{dotted};
ghost use Rattle.pv_table.specs.UriParts.{bytes_at};
ghost use Rattle.pv_table.specs.Reading.{of_text, user_of, host_of, port_of, target_of, code_of, reason_of, slot_of, label_of, value};

use crate::facts::Facts;
use crate::fields::field_value;
use crate::uri_parts::bytes_at;
use cfg_tree::{uri_host, uri_user};
use numerals::push_ip;
use outside_ports::Addr;
use pv_values::{BlockKind, PvUse, Text, Val};
use sip_fields::{Scheme, read_uri};
use sip_msg::{Message, Start};
use sip_words::{Span, stands};
use std::alloc::{AllocError as NoMemory, Global};

/// The port of a URI without one, also of `sips` (RFC 3261, section 19.1.2, has 5061 there).
const DEFAULT_PORT: u16 = 5060;

/// A copy of a text as a value, `$null` without one.
fn text_value(alloc: Global, text: Option<&[u8]>) -> Result<Val, NoMemory>
    ensures { IfOk result (λ v. v ≡ of_text val.Text (option_copied text.entry)) }
{
    match text {
        Some(text) => Ok(Val::Text(Text::from_slice(alloc, text)?)),
        None => Ok(Val::Null),
    }
}

/// A copy of a part of the message.
fn part(alloc: Global, b: &[u8], at: Span) -> Result<Val, NoMemory>
    requires { IsWithin b.now at }
    ensures { IfOk result (λ v. v ≡ val.Text (bytes_at b.now at)) }
{
    Ok(Val::Text(Text::from_slice(alloc, bytes_at(b, at))?))
}

/// The same of a part that may be absent.
fn optional_part(alloc: Global, b: &[u8], at: Option<Span>) -> Result<Val, NoMemory>
    requires { IfSome at (IsWithin b.now) }
    ensures { IfOk result (λ v. v ≡ part_or_null b.now at) }
{
    match at {
        Some(at) => part(alloc, b, at),
        None => Ok(Val::Null),
    }
}

/// The port of a text that reads as a `sip` or `sips` URI.
fn uri_port(text: &[u8]) -> Val
    ensures { result ≡ port_of text.now }
{
    let whole = Span {
        from: 0,
        to: text.len(),
    };
    let Ok(uri) = read_uri(text, whole) else {
        return Val::Null;
    };
    match uri.scheme {
        Scheme::Sip | Scheme::Sips => Val::Int(i64::from(uri.port.unwrap_or(DEFAULT_PORT))),
        Scheme::Other => Val::Null,
    }
}

/// The target URI, which a reply block and an event block don't have.
fn target(facts: &Facts) -> Option<&[u8]>
    ensures { option_copied result ≡ target_of facts.now }
{
    match facts.kind {
        BlockKind::Request | BlockKind::Branch | BlockKind::Failure => Some(facts.uri.bytes()),
        BlockKind::Reply | BlockKind::Event => None,
    }
}

/// The destination URI, where it is set.
fn destination(facts: &Facts) -> Option<&[u8]>
    ensures { option_copied result ≡ facts.now.destination }
{
    match &facts.destination {
        Some(text) => Some(text.bytes()),
        None => None,
    }
}

fn user_value(alloc: Global, uri: Option<&[u8]>) -> Result<Val, NoMemory>
    ensures { IfOk result (λ v. v ≡ of_text user_of (option_copied uri.entry)) }
{
    match uri {
        Some(uri) => uri_user(alloc, uri),
        None => Ok(Val::Null),
    }
}

fn host_value(alloc: Global, uri: Option<&[u8]>) -> Result<Val, NoMemory>
    ensures { IfOk result (λ v. v ≡ of_text host_of (option_copied uri.entry)) }
{
    match uri {
        Some(uri) => uri_host(alloc, uri),
        None => Ok(Val::Null),
    }
}

fn port_value(uri: Option<&[u8]>) -> Val
    ensures { result ≡ of_text port_of (option_copied uri.entry) }
{
    match uri {
        Some(uri) => uri_port(uri),
        None => Val::Null,
    }
}

/// The address from which the message came, in decimal.
fn source_value(alloc: Global, source: Addr) -> Result<Val, NoMemory>
    ensures { IfOk result (λ v. v ≡ val.Text (dotted source.ip)) }
{
    let mut text = Vec::new(alloc);
    push_ip(alloc, &mut text, source.ip)?;
    Ok(Val::Text(Text::of(text)))
}

/// The code of a response.
fn code_value(start: Start) -> Val
    ensures { result ≡ code_of start }
{
    match start {
        Start::Request { .. } => Val::Null,
        Start::Status { code, .. } => Val::Int(i64::from(code)),
    }
}

/// The reason of a response, where one stands.
fn reason_value(alloc: Global, b: &[u8], start: Start) -> Result<Val, NoMemory>
    requires { IsStartBetween 0 (length b.now) start }
    ensures { IfOk result (λ v. v ≡ reason_of b.now start) }
{
    match start {
        Start::Status { reason, .. } if stands(b, reason.from.saturating_sub(1), b' ') => {
            part(alloc, b, reason)
        }
        _ => Ok(Val::Null),
    }
}

/// The slot of the last suspension.
fn slot_value(facts: &Facts) -> Val
    ensures { result ≡ slot_of facts.now.slot facts.now.label }
{
    match facts.label {
        Some(_) => Val::Int(i64::from(facts.slot)),
        None => Val::Null,
    }
}

/// Its label.
fn label_value(label: Option<u64>) -> Val
    ensures { result ≡ label_of label }
{
    match label {
        Some(label) if label < 1 << 63 => Val::Int(label as i64),
        _ => Val::Null,
    }
}

/// What a variable reads in this message with these facts (the Kamailio core cookbook, "Pseudo-variables"). A part that is
/// absent reads `$null`. The items of tables and `uri == myself` aren't read here: they are `$null`. In an event block
/// there is no message, so whoever runs it answers by itself.
#[tactic(auto, using(crate::proofs::PartsWithin::from_uri_within, crate::proofs::PartsWithin::from_tag_within, crate::proofs::PartsWithin::to_uri_within, crate::proofs::PartsWithin::to_tag_within, crate::proofs::PartsWithin::call_id_within, crate::proofs::PartsWithin::method_within, crate::proofs::PartsWithin::start_within))]
pub fn read_pv(
    alloc: Global,
    b: &[u8],
    m: &Message,
    facts: &Facts,
    name: &PvUse,
) -> Result<Val, NoMemory>
    requires reads { Reads b.now m.now }
    ensures { IfOk result (λ v. v ≡ value b.now m.now facts.now name.now) }
{
    match name {
        PvUse::RequestUri => text_value(alloc, target(facts)),
        PvUse::RequestUser => user_value(alloc, target(facts)),
        PvUse::RequestHost => host_value(alloc, target(facts)),
        PvUse::RequestPort => Ok(port_value(target(facts))),
        PvUse::DestinationUri => text_value(alloc, destination(facts)),
        PvUse::FromUri => part(alloc, b, m.from.uri),
        PvUse::FromUser => uri_user(alloc, bytes_at(b, m.from.uri)),
        PvUse::FromHost => uri_host(alloc, bytes_at(b, m.from.uri)),
        PvUse::FromTag => optional_part(alloc, b, m.from.tag),
        PvUse::ToUri => part(alloc, b, m.to.uri),
        PvUse::ToUser => uri_user(alloc, bytes_at(b, m.to.uri)),
        PvUse::ToHost => uri_host(alloc, bytes_at(b, m.to.uri)),
        PvUse::ToTag => optional_part(alloc, b, m.to.tag),
        PvUse::CallId => part(alloc, b, m.call_id),
        PvUse::CseqNumber => Ok(Val::Int(i64::from(m.cseq.number))),
        PvUse::CseqMethod => part(alloc, b, m.cseq.method),
        PvUse::SourceAddress => source_value(alloc, facts.source),
        PvUse::SourcePort => Ok(Val::Int(i64::from(facts.source.port))),
        PvUse::ReplyCode => Ok(code_value(m.start)),
        PvUse::ReplyReason => reason_value(alloc, b, m.start),
        PvUse::UserAgent => text_value(alloc, field_value(b, m, b"User-Agent")),
        PvUse::Header(name) => text_value(alloc, field_value(b, m, name.bytes())),
        PvUse::Avp(name) => facts.avps.newest(alloc, name.bytes()),
        PvUse::IdIndex => Ok(slot_value(facts)),
        PvUse::IdLabel => Ok(label_value(facts.label)),
        PvUse::Null
        | PvUse::Item(_, _)
        | PvUse::ItemSeconds(_, _)
        | PvUse::ItemIncrement(_, _)
        | PvUse::ItemDecrement(_, _)
        | PvUse::Myself => Ok(Val::Null),
    }
}
