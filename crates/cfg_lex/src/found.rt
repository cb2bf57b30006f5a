//! What stands at a place of a script.

ghost use Rattle.std.specs.Prelude.{◌≡◌, ◌≤◌, ◌+◌, length, IfOk, MatchResult};
ghost use Rattle.cfg_lex.specs.Shapes.{dollar_at, ordinary_at, found_at, lexeme_of, begins_line, FitsIn, WrongEndsIn, IsWhole};

use crate::bytes::{RunClass, begins_name, is_blank, is_quote, run_len};
use crate::comment::{hash_at, slash_at};
use crate::context::TokenContext;
use crate::listen::listen_at;
use crate::mark::mark_token_at;
use crate::shape::{Found, TokenShape, Wrong};
use crate::string::{string_at, unescaped};
use crate::variable::{form_at, is_cut_off, variable_of};
use crate::word::{number_token_at, word_token_at};
use cfg_tree::Lexeme;
use pv_values::Text;
use std::alloc::{AllocError, Global};

/// The variable after a `$`.
#[tactic(auto, unfolding(crate::specs::Shapes::dollar_at))]
fn dollar_at(text: &[u8]) -> Result<Found, Wrong>
    ensures value { result ≡ dollar_at text.now }
    ensures within { MatchResult result (FitsIn (length text.now + 1)) (WrongEndsIn (length text.now + 1)) }
{
    match form_at(text) {
        Some(form) => Ok(Found::Token(TokenShape::Variable(form), form.len + 1)),
        None if is_cut_off(text) => Err(Wrong::Unclosed),
        None => Err(Wrong::BadByte { from: 0, to: 1 }),
    }
}

/// What may stand at every place: a gap, or a token other than LISTEN and a block's name.
#[tactic(auto, unfolding(crate::specs::Shapes::ordinary_at))]
fn ordinary_at(text: &[u8], fresh: bool) -> Result<Found, Wrong>
    ensures value { result ≡ ordinary_at fresh text.now }
    ensures within { MatchResult result (FitsIn (length text.now)) (WrongEndsIn (length text.now)) }
{
    match text {
        [] => Err(Wrong::BadByte { from: 0, to: 1 }),
        [first, rest @ ..] => {
            let first = *first;
            if is_blank(first) {
                Ok(Found::Gap(1))
            } else if first == b'#' {
                hash_at(rest, fresh)
            } else if first == b'/' {
                slash_at(rest)
            } else if begins_name(first) {
                word_token_at(text)
            } else if first.is_ascii_digit() {
                number_token_at(text)
            } else if is_quote(first) {
                string_at(first, rest)
            } else if first == b'$' {
                dollar_at(rest)
            } else {
                mark_token_at(first, rest)
            }
        }
    }
}

/// What stands at the beginning of a text, in this context. `fresh`: it begins a line.
#[tactic(auto, unfolding(crate::specs::Shapes::found_at))]
pub fn found_at(text: &[u8], fresh: bool, context: TokenContext) -> Result<Found, Wrong>
    ensures value { result ≡ found_at fresh context text.now }
    ensures within { MatchResult result (FitsIn (length text.now)) (WrongEndsIn (length text.now)) }
{
    if context == TokenContext::BlockName {
        let len = run_len(text, RunClass::BlockName);
        if len > 0 {
            return Ok(Found::Token(TokenShape::BlockName, len));
        }
    } else if context == TokenContext::Address {
        if let Some((listen, len)) = listen_at(text) {
            return Ok(Found::Token(TokenShape::Listen(listen), len));
        }
    }
    ordinary_at(text, fresh)
}

/// Whether a line begins at `at`.
#[tactic(auto, unfolding(crate::specs::Shapes::begins_line))]
pub fn begins_line(text: &[u8], at: usize) -> bool
    requires { at ≤ length text.now }
    ensures { result ≡ begins_line text.now at }
{
    at == 0 || text[at - 1] == b'\n'
}

/// The token of this shape and length at the beginning of a text.
#[tactic(auto, unfolding(crate::specs::Shapes::lexeme_of))]
pub fn lexeme_of(
    alloc: Global,
    text: &[u8],
    shape: TokenShape,
    len: usize,
) -> Result<Lexeme, AllocError>
    requires { IsWhole (length text.now) shape len }
    ensures { IfOk result (λ x. x ≡ lexeme_of text.now shape len) }
{
    match shape {
        TokenShape::Name => Ok(Lexeme::Name(Text::from_slice(alloc, &text[..len])?)),
        TokenShape::Keyword(keyword) => Ok(Lexeme::Keyword(keyword)),
        TokenShape::Mark(mark) => Ok(Lexeme::Mark(mark)),
        TokenShape::Number(number) => Ok(Lexeme::Number(number)),
        TokenShape::String => Ok(Lexeme::String(unescaped(alloc, &text[1..len - 1])?)),
        TokenShape::Variable(form) => Ok(Lexeme::Variable(variable_of(alloc, &text[1..], form)?)),
        TokenShape::Listen(listen) => Ok(Lexeme::Listen(listen)),
        TokenShape::BlockName => Ok(Lexeme::BlockName(Text::from_slice(alloc, &text[..len])?)),
    }
}
