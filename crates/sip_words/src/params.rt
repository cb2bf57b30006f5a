//! Parameters (RFC 3261, section 25.1: generic-param).
ghost use Rattle.std.specs.Prelude.{◌≡◌, ◌≤◌, ◌<◌, ℕ, length, IfSome, option_map};
ghost use Rattle.sip_words.specs.Spans.{HasParts, KnownHaveParts};
ghost use Rattle.sip_words.specs.Params.{value_class, value_end, param_at, first_of, no_params, with_param, params_at, known};

use crate::Span;
use crate::bytes::Class;
use crate::separators::{Separator, Surroundings, separator_at};
use crate::words::{quoted_end, same_word, stands, word_end};

/// A parameter: `whole` is from its semicolon to its end, `value` is what stands behind its `=`, quotes included.
#[derive(Clone, Copy, Debug, PartialEq, Eq)]
pub struct Param {
    pub whole: Span,
    pub name: Span,
    pub value: Option<Span>,
}

/// Of a list of parameters the first of each name that the proxy knows, and the end of the list.
#[derive(Clone, Copy, Debug, PartialEq, Eq)]
pub struct Params {
    pub branch: Option<Param>,
    pub received: Option<Param>,
    pub rport: Option<Param>,
    pub tag: Option<Param>,
    pub lr: Option<Param>,
    pub end: usize,
}

/// The class of a value without quotes.
fn value_class(surroundings: Surroundings) -> Class
    ensures { result ≡ value_class surroundings }
{
    match surroundings {
        Surroundings::Field => Class::Value,
        Surroundings::Uri => Class::UriValue,
    }
}

/// The end of a parameter's value: a quoted string, or one or more bytes of the class.
#[tactic(auto, unfolding(crate::specs::Params::value_end))]
fn value_end(text: &[u8], from: usize, surroundings: Surroundings) -> Option<usize>
    requires { from ≤ length text.now }
    ensures value { result ≡ value_end surroundings text.now from }
    ensures bounds { IfSome result (λ end. (from < end) × (end ≤ length text.now)) }
{
    if stands(text, from, b'"') {
        quoted_end(text, from + 1)
    } else {
        word_end(text, from, value_class(surroundings))
    }
}

/// The parameter behind this semicolon.
#[tactic(auto, unfolding(crate::specs::Params::param_at))]
pub fn param_at(text: &[u8], semicolon: Separator, surroundings: Surroundings) -> Option<Param>
    requires order { semicolon.place < semicolon.end }
    requires within { semicolon.end ≤ length text.now }
    ensures value { result ≡ param_at surroundings text.now semicolon }
    ensures bounds { IfSome result (λ p. semicolon.end < p.whole.to) }
    ensures parts { IfSome result (HasParts semicolon.place (length text.now)) }
{
    let name_end = word_end(text, semicolon.end, Class::Token)?;
    let name = Span {
        from: semicolon.end,
        to: name_end,
    };
    let mut end = name_end;
    let mut value = None;
    if stands(text, name_end, b'=') {
        end = value_end(text, name_end + 1, surroundings)?;
        value = Some(Span {
            from: name_end + 1,
            to: end,
        });
    }
    let whole = Span {
        from: semicolon.place,
        to: end,
    };
    Some(Param { whole, name, value })
}

/// The one that is known already, else this one if it has the name.
fn first_of(known: Option<Param>, text: &[u8], param: Param, name: &[u8]) -> Option<Param>
    requires parts { HasParts 0 (length text.now) param }
    ensures value { result ≡ first_of name.now text.now known param }
    ensures parts { (i j : ℕ) → IfSome known (HasParts i j) → HasParts i j param → IfSome result (HasParts i j) }
{
    if known.is_some() || !same_word(&text[param.name.from..param.name.to], name) {
        return known;
    }
    Some(param)
}

/// The parameters from `from` on, each behind a semicolon. None where something else stands behind a semicolon.
pub fn params_at(text: &[u8], from: usize, surroundings: Surroundings) -> Option<Params>
    requires { from ≤ length text.now }
    ensures value { result ≡ option_map (known text.now) (params_at surroundings text.now from) }
    ensures bounds { IfSome result (λ p. (from ≤ p.end) × (p.end ≤ length text.now)) }
    ensures parts { IfSome result (KnownHaveParts from (length text.now)) }
{
    let mut found = Params::none(from);
    while let Some(semicolon) = separator_at(text, found.end, b';', surroundings) {
        let param = param_at(text, semicolon, surroundings)?;
        found = found.with(text, param);
    }
    Some(found)
}

impl Params {
    /// Those of the empty list that ends at `end`.
    fn none(end: usize) -> Params
        ensures { result ≡ no_params end }
    {
        Params {
            branch: None,
            received: None,
            rport: None,
            tag: None,
            lr: None,
            end,
        }
    }

    /// Those of a list to which this parameter is added.
    fn with(self, text: &[u8], param: Param) -> Params
        requires parts { HasParts 0 (length text.now) param }
        ensures value { result ≡ with_param text.now self param }
        ensures parts { (i j : ℕ) → KnownHaveParts i j self → HasParts i j param → KnownHaveParts i j result }
    {
        Params {
            branch: first_of(self.branch, text, param, b"branch"),
            received: first_of(self.received, text, param, b"received"),
            rport: first_of(self.rport, text, param, b"rport"),
            tag: first_of(self.tag, text, param, b"tag"),
            lr: first_of(self.lr, text, param, b"lr"),
            end: param.whole.to,
        }
    }
}
