//! Header fields.
ghost use Rattle.std.specs.Prelude.{◌≡◌, ◌≤◌, ◌<◌, ◌+◌, length, IfSome};
ghost use Rattle.sip_scan.specs.Field.{full_name, kind_of, field_at, IsField};

use crate::lines::{folded_end, wsp_end};
use sip_words::{Class, Span, same_word, stands, word_end};

/// The kinds of header fields that the proxy knows.
#[derive(Clone, Copy, Debug, Default, PartialEq, Eq)]
pub enum Kind {
    Via,
    From,
    To,
    CallId,
    CSeq,
    MaxForwards,
    Route,
    RecordRoute,
    Contact,
    ContentLength,
    /// A field of any other name.
    #[default]
    Other,
}

impl Kind {
    ghost use Rattle.sip_scan.specs.Field.{field_kind_number, is_same_kind};

    /// How many kinds there are.
    pub const COUNT: usize = 11;

    /// The place of this kind in a table of all kinds.
    pub fn number(self) -> usize
        ensures value { result ≡ field_kind_number self }
        ensures below { result < Self.COUNT }
    {
        match self {
            Kind::Via => 0,
            Kind::From => 1,
            Kind::To => 2,
            Kind::CallId => 3,
            Kind::CSeq => 4,
            Kind::MaxForwards => 5,
            Kind::Route => 6,
            Kind::RecordRoute => 7,
            Kind::Contact => 8,
            Kind::ContentLength => 9,
            Kind::Other => 10,
        }
    }

    /// Whether these are one kind.
    pub fn is_same(self, other: Kind) -> bool
        ensures { result ≡ is_same_kind self other }
    {
        self == other
    }
}

/// A header field, as spans of the datagram.
#[derive(Clone, Copy, Debug, Default, PartialEq, Eq)]
pub struct HeaderSpan {
    pub kind: Kind,
    /// The name, without the blanks that may stand before the colon.
    pub name: Span,
    /// All that stands between the colon and the CRLF that ends the field: blanks and folds round the value too.
    pub value: Span,
    /// From the name to behind that CRLF.
    pub whole: Span,
}

/// The full name that this compact name stands for, or the name itself (RFC 3261, section 7.3.3). Case is ignored.
#[tactic(auto, unfolding(crate::specs::Field::full_name))]
pub fn full_name(name: &[u8]) -> &[u8]
    ensures { result.now ≡ full_name name.now }
{
    if same_word(name, b"v") {
        b"Via"
    } else if same_word(name, b"f") {
        b"From"
    } else if same_word(name, b"t") {
        b"To"
    } else if same_word(name, b"i") {
        b"Call-ID"
    } else if same_word(name, b"m") {
        b"Contact"
    } else if same_word(name, b"l") {
        b"Content-Length"
    } else if same_word(name, b"c") {
        b"Content-Type"
    } else if same_word(name, b"k") {
        b"Supported"
    } else if same_word(name, b"s") {
        b"Subject"
    } else if same_word(name, b"e") {
        b"Content-Encoding"
    } else {
        name
    }
}

/// The kind of a field of this name, in full or compact. Case is ignored.
#[tactic(auto, unfolding(crate::specs::Field::kind_of))]
pub fn kind_of(name: &[u8]) -> Kind
    ensures { result ≡ kind_of name.now }
{
    let full = full_name(name);
    if same_word(full, b"Via") {
        Kind::Via
    } else if same_word(full, b"From") {
        Kind::From
    } else if same_word(full, b"To") {
        Kind::To
    } else if same_word(full, b"Call-ID") {
        Kind::CallId
    } else if same_word(full, b"CSeq") {
        Kind::CSeq
    } else if same_word(full, b"Max-Forwards") {
        Kind::MaxForwards
    } else if same_word(full, b"Route") {
        Kind::Route
    } else if same_word(full, b"Record-Route") {
        Kind::RecordRoute
    } else if same_word(full, b"Contact") {
        Kind::Contact
    } else if same_word(full, b"Content-Length") {
        Kind::ContentLength
    } else {
        Kind::Other
    }
}

/// The field at `from`, with its continuation lines.
#[tactic(auto, unfolding(crate::specs::Field::field_at))]
pub fn field_at(text: &[u8], from: usize) -> Option<HeaderSpan>
    requires { from ≤ length text.now }
    ensures value { result ≡ field_at text.now from }
    ensures bounds { IfSome result (λ f. (f.whole.from ≡ from) × (from < f.whole.to) × (f.whole.to ≤ length text.now)) }
    ensures parts { IfSome result (λ f. IsField text.now f) }
{
    let name_end = word_end(text, from, Class::Token)?;
    let colon = wsp_end(text, name_end);
    if !stands(text, colon, b':') {
        return None;
    }
    let end = folded_end(text, colon + 1)?;
    Some(HeaderSpan {
        kind: kind_of(&text[from..name_end]),
        name: Span { from, to: name_end },
        value: Span {
            from: colon + 1,
            to: end - 2,
        },
        whole: Span { from, to: end },
    })
}
