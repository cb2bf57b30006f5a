//! Transformations of a value.

ghost use Rattle.std.specs.Prelude.{◌≡◌, ◌≤◌, pos, length, IfOk, IfSome};
ghost use Rattle.cfg_tree.specs.Transformations.{transformed, int_or_null, part_or_null, user_in, host_in};
ghost use Rattle.sip_fields.specs.Uri.{uri_at};

use pv_values::{Text, Transformation, Val, as_int, as_text};
use sip_fields::{Scheme, read_uri};
use sip_words::Span;
use std::alloc::{AllocError as NoMemory, Global};

/// What the transformation makes of a value; `$null` stays.
pub fn transform(alloc: Global, transformation: Transformation, v: &Val) -> Result<Val, NoMemory>
    ensures { IfOk result (λ w. w ≡ transformed transformation v.now) }
{
    match v {
        Val::Null => Ok(Val::Null),
        Val::Int(n) => match transformation {
            Transformation::Length => Ok(length_value(as_text(alloc, v)?.bytes())),
            Transformation::Number => Ok(Val::Int(*n)),
            Transformation::UriUser | Transformation::UriHost => Ok(Val::Null),
        },
        Val::Text(text) => match transformation {
            Transformation::Length => Ok(length_value(text.bytes())),
            Transformation::Number => Ok(number_value(as_int(v))),
            Transformation::UriUser => uri_user(alloc, text.bytes()),
            Transformation::UriHost => uri_host(alloc, text.bytes()),
        },
    }
}

/// A number as a value, and `$null` without one.
fn number_value(n: Option<i64>) -> Val
    ensures { result ≡ int_or_null n }
{
    match n {
        Some(n) => Val::Int(n),
        None => Val::Null,
    }
}

fn length_value(text: &[u8]) -> Val
    ensures { result ≡ Val.Int (pos (length text.now)) }
{
    Val::Int(text.len() as i64)
}

/// A part of a text as a value, and `$null` without one.
fn part_value(alloc: Global, text: &[u8], part: Option<Span>) -> Result<Val, NoMemory>
    requires { IfSome part (λ p. (p.from ≤ p.to) × (p.to ≤ length text.now)) }
    ensures { IfOk result (λ v. v ≡ part_or_null text.now part) }
{
    match part {
        Some(part) => Ok(Val::Text(Text::from_slice(alloc, &text[part.from..part.to])?)),
        None => Ok(Val::Null),
    }
}

/// The user of the `sip` or `sips` URI that the text is; `$null` of any other text.
pub fn uri_user(alloc: Global, text: &[u8]) -> Result<Val, NoMemory>
    ensures { IfOk result (λ v. v ≡ user_in text.now (uri_at text.now 0)) }
{
    let all = Span {
        from: 0,
        to: text.len(),
    };
    match read_uri(text, all) {
        Ok(uri) => match uri.scheme {
            Scheme::Other => Ok(Val::Null),
            _ => part_value(alloc, text, uri.user),
        },
        Err(_) => Ok(Val::Null),
    }
}

/// The host of such a URI.
pub fn uri_host(alloc: Global, text: &[u8]) -> Result<Val, NoMemory>
    ensures { IfOk result (λ v. v ≡ host_in text.now (uri_at text.now 0)) }
{
    let all = Span {
        from: 0,
        to: text.len(),
    };
    match read_uri(text, all) {
        Ok(uri) => match uri.scheme {
            Scheme::Other => Ok(Val::Null),
            _ => part_value(alloc, text, Some(uri.host_at)),
        },
        Err(_) => Ok(Val::Null),
    }
}
