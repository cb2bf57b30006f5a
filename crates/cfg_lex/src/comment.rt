//! Comments.

ghost use Rattle.std.specs.Prelude.{◌≡◌, ◌≤◌, ◌<◌, ◌+◌, length, IfSome, IsTrue, MatchResult};
ghost use Rattle.cfg_lex.specs.Comments.{names_dialect, is_no_comment, begins_end, before_end};
ghost use Rattle.cfg_lex.specs.Shapes.{hash_at, slash_at, FitsIn, WrongEndsIn};

use crate::bytes::{RunClass, begins_at, run_len};
use crate::shape::{Found, TokenShape, Wrong};
use cfg_tree::Mark;

/// Whether one of the words KAMAILIO, OPENSER, SER, MAXCOMPAT, ALL stands here, and no letter, digit or `_` after it.
#[tactic(auto, unfolding(crate::specs::Comments::names_dialect))]
fn names_dialect(text: &[u8]) -> bool
    ensures { result ≡ names_dialect text.now }
{
    let word = &text[..run_len(text, RunClass::NameByte)];
    word == b"KAMAILIO".as_slice()
        || word == b"OPENSER".as_slice()
        || word == b"SER".as_slice()
        || word == b"MAXCOMPAT".as_slice()
        || word == b"ALL".as_slice()
}

/// Whether what stands after a `#` makes it no comment: at a line's beginning a `!`, and none of these words.
#[tactic(auto, unfolding(crate::specs::Comments::is_no_comment))]
fn is_no_comment(text: &[u8], fresh: bool) -> bool
    ensures { result ≡ is_no_comment fresh text.now }
{
    fresh && begins_at(text, 0, b'!') && !names_dialect(&text[1..])
}

/// What stands after a `#`. `fresh`: the `#` begins a line.
#[tactic(auto, unfolding(crate::specs::Shapes::hash_at))]
pub fn hash_at(text: &[u8], fresh: bool) -> Result<Found, Wrong>
    ensures value { result ≡ hash_at fresh text.now }
    ensures within { MatchResult result (FitsIn (length text.now + 1)) (WrongEndsIn (length text.now + 1)) }
{
    if is_no_comment(text, fresh) {
        return Err(Wrong::BadByte { from: 0, to: 1 });
    }
    Ok(Found::Gap(1 + run_len(text, RunClass::Other(b'\n'))))
}

/// Whether `*/` stands at the beginning.
#[tactic(auto, unfolding(crate::specs::Comments::begins_end))]
fn begins_end(text: &[u8]) -> bool
    ensures value { result ≡ begins_end text.now }
    ensures within { IsTrue result → 2 ≤ length text.now }
{
    match text {
        [] => false,
        [first, rest @ ..] => *first == b'*' && begins_at(rest, 0, b'/'),
    }
}

/// How many bytes stand before the first `*/`.
#[tactic(auto, using(crate::proofs::Ends::end_here, crate::proofs::Ends::end_later, crate::proofs::Ends::end_never))]
fn before_end(text: &[u8]) -> Option<usize>
    ensures value { result ≡ before_end text.now }
    ensures within { IfSome result (λ n. n + 2 ≤ length text.now) }
{
    for at in 0..text.len() {
        if begins_end(&text[at..]) {
            return Some(at);
        }
    }
    None
}

/// What stands after a `/`.
#[tactic(auto, unfolding(crate::specs::Shapes::slash_at))]
pub fn slash_at(text: &[u8]) -> Result<Found, Wrong>
    ensures value { result ≡ slash_at text.now }
    ensures within { MatchResult result (FitsIn (length text.now + 1)) (WrongEndsIn (length text.now + 1)) }
{
    if begins_at(text, 0, b'/') {
        return Ok(Found::Gap(2 + run_len(&text[1..], RunClass::Other(b'\n'))));
    }
    if !begins_at(text, 0, b'*') {
        return Ok(Found::Token(TokenShape::Mark(Mark::Divide), 1));
    }
    match before_end(&text[1..]) {
        None => Err(Wrong::Unclosed),
        Some(len) => Ok(Found::Gap(len + 4)),
    }
}
