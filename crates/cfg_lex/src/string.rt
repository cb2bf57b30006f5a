//! Strings.

ghost use Rattle.std.specs.Prelude.{◌≡◌, ◌≤◌, ◌<◌, ◌+◌, length, IfSome, IfOk, MatchResult};
ghost use Rattle.cfg_lex.specs.Strings.{is_escape, escaped, before_quote, is_bad, bad_escape, unescaped, first_meant};
ghost use Rattle.cfg_lex.specs.Shapes.{string_at, FitsIn, WrongEndsIn};

use crate::shape::{Found, TokenShape, Wrong};
use pv_values::Text;
use std::alloc::{AllocError, Global};

/// Whether this byte may stand after a backslash: `\\ \" \' \n \r \t`.
fn is_escape(b: u8) -> bool
    ensures { result ≡ is_escape b }
{
    b"\\\"'nrt".contains(&b)
}

/// The byte that stands for the one after a backslash.
fn escaped(b: u8) -> u8
    ensures { result ≡ escaped b }
{
    match b {
        b'n' => b'\n',
        b'r' => b'\r',
        b't' => b'\t',
        _ => b,
    }
}

/// How many bytes stand before the quote that closes a string. A backslash takes the byte after it along.
#[tactic(auto, using(crate::proofs::Quotes::quote_here, crate::proofs::Quotes::quote_pair, crate::proofs::Quotes::quote_later, crate::proofs::Quotes::quote_never))]
fn before_quote(text: &[u8], quote: u8) -> Option<usize>
    ensures value { result ≡ before_quote quote text.now }
    ensures within { IfSome result (λ n. n < length text.now) }
{
    let mut at = 0;
    while at < text.len() {
        if text[at] == quote {
            return Some(at);
        }
        at += if text[at] == b'\\' { 2 } else { 1 };
    }
    None
}

/// Whether these are a backslash and a byte that isn't escaped.
fn is_bad(b: u8, c: u8) -> bool
    ensures { result ≡ is_bad b c }
{
    b == b'\\' && !is_escape(c)
}

/// Where the first backslash stands after which there is no escape.
#[tactic(auto, using(crate::proofs::Quotes::bad_here, crate::proofs::Quotes::bad_pair, crate::proofs::Quotes::bad_later, crate::proofs::Quotes::bad_never))]
fn bad_escape(text: &[u8]) -> Option<usize>
    ensures value { result ≡ bad_escape text.now }
    ensures within { IfSome result (λ n. n + 2 ≤ length text.now) }
{
    let mut at = 0;
    while at + 1 < text.len() {
        if is_bad(text[at], text[at + 1]) {
            return Some(at);
        }
        at += if text[at] == b'\\' { 2 } else { 1 };
    }
    None
}

/// The string after this quote.
#[tactic(auto, unfolding(crate::specs::Shapes::string_at))]
pub fn string_at(quote: u8, text: &[u8]) -> Result<Found, Wrong>
    ensures value { result ≡ string_at quote text.now }
    ensures within { MatchResult result (FitsIn (length text.now + 1)) (WrongEndsIn (length text.now + 1)) }
{
    let Some(len) = before_quote(text, quote) else {
        return Err(Wrong::Unclosed);
    };
    match bad_escape(&text[..len]) {
        Some(at) => Err(Wrong::BadByte {
            from: at + 1,
            to: at + 3,
        }),
        None => Ok(Found::Token(TokenShape::String, len + 2)),
    }
}

/// The first byte that is meant, and how many are written for it.
#[tactic(auto, unfolding(crate::specs::Strings::first_meant))]
fn first_meant(text: &[u8]) -> (u8, usize)
    ensures value { result ≡ first_meant text.now }
    ensures within { result.1 ≤ length text.now }
    ensures some { 0 < length text.now → 0 < result.1 }
{
    match text {
        [] => (0, 0),
        [b'\\', c, ..] => (escaped(*c), 2),
        [b, ..] => (*b, 1),
    }
}

/// The bytes that these stand for.
#[tactic(auto, using(crate::proofs::Quotes::meant_next, crate::proofs::Quotes::meant_all))]
pub fn unescaped(alloc: Global, text: &[u8]) -> Result<Text, AllocError>
    ensures { IfOk result (λ t. t ≡ unescaped text.now) }
{
    let mut bytes = Vec::new(alloc);
    let mut at = 0;
    while at < text.len() {
        let (byte, len) = first_meant(&text[at..]);
        bytes.push(byte)?;
        at += len;
    }
    Ok(Text::of(bytes))
}
