//! Header fields by their kinds.
ghost use Rattle.std.specs.Prelude.{◌≡◌, IfSome};
ghost use Rattle.sip_msg.specs.Fields.{is_of, first};
ghost use Rattle.sip_build.specs.Parts.{field_text, uri_of};
ghost use Rattle.sip_build.specs.Writing.{FieldLies, FieldsLie};

use sip_msg::{Span, Start};
use sip_scan::{HeaderSpan, Kind};

/// Whether the field is of this kind.
#[tactic(auto, unfolding(sip_msg::specs::Fields::is_of))]
pub fn is_of(field: &HeaderSpan, kind: Kind) -> bool
    ensures { result ≡ is_of kind field.now }
{
    kind.is_same(field.kind)
}

/// The first field of a kind of the message `b`.
#[tactic(auto, using(crate::proofs::Found::found_lies))]
pub fn first_field(b: &[u8], fields: &[HeaderSpan], kind: Kind) -> Option<HeaderSpan>
    requires { FieldsLie b.now fields.now }
    ensures value { result ≡ first kind fields.now }
    ensures lies { IfSome result (FieldLies b.now) }
{
    found(fields, kind)
}

/// The first field of a kind in a list.
fn found(fields: &[HeaderSpan], kind: Kind) -> Option<HeaderSpan>
    ensures { result ≡ first kind fields.now }
{
    fields.iter().copied().find(|field| is_of(field, kind))
}

/// The first field of a kind with its name and bytes, or no byte where it is absent.
pub fn field_text<'a>(b: &'a [u8], fields: &[HeaderSpan], kind: Kind) -> &'a [u8]
    requires { FieldsLie b.now fields.now }
    ensures { result.now ≡ field_text b.now (first kind fields.now) }
{
    match first_field(b, fields, kind) {
        Some(field) => &b[field.whole.from..field.whole.to],
        None => &[],
    }
}

/// The URI of a request line, or an empty span where it is a status line.
pub fn uri_of(start: Start) -> Span
    ensures { result ≡ uri_of start }
{
    match start {
        Start::Request { uri, .. } => uri,
        Start::Status { reason, .. } => Span {
            from: reason.from,
            to: reason.from,
        },
    }
}
