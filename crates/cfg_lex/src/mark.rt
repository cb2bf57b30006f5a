//! Operators and brackets.

ghost use Rattle.std.specs.Prelude.{◌≡◌, ◌+◌, length, MatchResult};
ghost use Rattle.cfg_lex.specs.Marks.{two_byte_mark, bracket, one_byte_mark};
ghost use Rattle.cfg_lex.specs.Shapes.{mark_token_at, FitsIn, WrongEndsIn};

use crate::shape::{Found, TokenShape, Wrong};
use cfg_tree::Mark;

/// The operator that these two bytes are.
#[tactic(auto, unfolding(crate::specs::Marks::two_byte_mark))]
fn two_byte_mark(a: u8, b: u8) -> Option<Mark>
    ensures { result ≡ two_byte_mark a b }
{
    match (a, b) {
        (b'=', b'=') => Some(Mark::Equal),
        (b'!', b'=') => Some(Mark::NotEqual),
        (b'<', b'=') => Some(Mark::LessOrEqual),
        (b'>', b'=') => Some(Mark::GreaterOrEqual),
        (b'=', b'~') => Some(Mark::Matches),
        (b'|', b'|') => Some(Mark::Or),
        (b'&', b'&') => Some(Mark::And),
        _ => None,
    }
}

/// The bracket, comma, semicolon or colon that this byte is.
#[tactic(auto, unfolding(crate::specs::Marks::bracket))]
fn bracket(a: u8) -> Option<Mark>
    ensures { result ≡ bracket a }
{
    match a {
        b'(' => Some(Mark::OpenRound),
        b')' => Some(Mark::CloseRound),
        b'[' => Some(Mark::OpenSquare),
        b']' => Some(Mark::CloseSquare),
        b'{' => Some(Mark::OpenCurly),
        b'}' => Some(Mark::CloseCurly),
        b',' => Some(Mark::Comma),
        b';' => Some(Mark::Semicolon),
        b':' => Some(Mark::Colon),
        _ => None,
    }
}

/// The operator or bracket that this byte is.
#[tactic(auto, unfolding(crate::specs::Marks::one_byte_mark))]
fn one_byte_mark(a: u8) -> Option<Mark>
    ensures { result ≡ one_byte_mark a }
{
    match a {
        b'=' => Some(Mark::Assign),
        b'<' => Some(Mark::Less),
        b'>' => Some(Mark::Greater),
        b'!' => Some(Mark::Not),
        b'+' => Some(Mark::Plus),
        b'-' => Some(Mark::Minus),
        b'*' => Some(Mark::Times),
        b'/' => Some(Mark::Divide),
        _ => bracket(a),
    }
}

/// The operator or bracket that begins with this byte, the longest; after it stands this text.
#[tactic(auto, unfolding(crate::specs::Shapes::mark_token_at))]
pub fn mark_token_at(first: u8, text: &[u8]) -> Result<Found, Wrong>
    ensures value { result ≡ mark_token_at first text.now }
    ensures within { MatchResult result (FitsIn (length text.now + 1)) (WrongEndsIn (length text.now + 1)) }
{
    if let [second, ..] = text {
        if let Some(mark) = two_byte_mark(first, *second) {
            return Ok(Found::Token(TokenShape::Mark(mark), 2));
        }
    }
    match one_byte_mark(first) {
        None => Err(Wrong::BadByte { from: 0, to: 1 }),
        Some(mark) => Ok(Found::Token(TokenShape::Mark(mark), 1)),
    }
}
