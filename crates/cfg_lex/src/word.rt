//! Words and numbers.

ghost use Rattle.std.specs.Prelude.{◌≡◌, ◌≤◌, ◌<◌, length, MatchResult};
ghost use Rattle.cfg_tree.specs.Variables.{name_len};
ghost use Rattle.cfg_lex.specs.Words.{operand_word, statement_word, other_word, keyword_of_word};
ghost use Rattle.cfg_lex.specs.Shapes.{word_token_at, number_token_at, FitsIn, WrongEndsIn};

use crate::bytes::{RunClass, name_len, run_len};
use crate::shape::{Found, TokenShape, Wrong};
use cfg_tree::Keyword;
use pv_values::text_number;

/// The keyword of expressions that this word is.
#[tactic(auto, unfolding(crate::specs::Words::operand_word))]
fn operand_word(word: &[u8]) -> Option<Keyword>
    ensures { result ≡ operand_word word.now }
{
    if word == b"and".as_slice() {
        Some(Keyword::And)
    } else if word == b"or".as_slice() {
        Some(Keyword::Or)
    } else if word == b"not".as_slice() {
        Some(Keyword::Not)
    } else if word == b"mod".as_slice() {
        Some(Keyword::Mod)
    } else if word == b"uri".as_slice() {
        Some(Keyword::Uri)
    } else if word == b"myself".as_slice() {
        Some(Keyword::Myself)
    } else if word == b"route".as_slice() {
        Some(Keyword::Route)
    } else {
        None
    }
}

/// The keyword of statements that this word is.
#[tactic(auto, unfolding(crate::specs::Words::statement_word))]
fn statement_word(word: &[u8]) -> Option<Keyword>
    ensures { result ≡ statement_word word.now }
{
    if word == b"if".as_slice() {
        Some(Keyword::If)
    } else if word == b"else".as_slice() {
        Some(Keyword::Else)
    } else if word == b"while".as_slice() {
        Some(Keyword::While)
    } else if word == b"switch".as_slice() {
        Some(Keyword::Switch)
    } else if word == b"case".as_slice() {
        Some(Keyword::Case)
    } else if word == b"default".as_slice() {
        Some(Keyword::Default)
    } else {
        None
    }
}

/// The other keyword that this word is.
#[tactic(auto, unfolding(crate::specs::Words::other_word))]
fn other_word(word: &[u8]) -> Option<Keyword>
    ensures { result ≡ other_word word.now }
{
    if word == b"return".as_slice() {
        Some(Keyword::Return)
    } else if word == b"exit".as_slice() {
        Some(Keyword::Exit)
    } else if word == b"drop".as_slice() {
        Some(Keyword::Drop)
    } else if word == b"break".as_slice() {
        Some(Keyword::Break)
    } else if word == b"loadmodule".as_slice() {
        Some(Keyword::Loadmodule)
    } else if word == b"modparam".as_slice() {
        Some(Keyword::Modparam)
    } else {
        None
    }
}

/// The keyword that this word is, where the grammar writes it itself.
#[tactic(auto, unfolding(crate::specs::Words::keyword_of_word))]
fn keyword_of_word(word: &[u8]) -> Option<Keyword>
    ensures { result ≡ keyword_of_word word.now }
{
    if let Some(keyword) = operand_word(word) {
        return Some(keyword);
    }
    if let Some(keyword) = statement_word(word) {
        return Some(keyword);
    }
    other_word(word)
}

/// The word at the beginning, a keyword or a name.
#[tactic(auto, unfolding(crate::specs::Shapes::word_token_at))]
pub fn word_token_at(text: &[u8]) -> Result<Found, Wrong>
    requires { 0 < name_len text.now }
    ensures value { result ≡ word_token_at text.now }
    ensures within { MatchResult result (FitsIn (length text.now)) (WrongEndsIn (length text.now)) }
{
    let len = name_len(text);
    let shape = match keyword_of_word(&text[..len]) {
        None => TokenShape::Name,
        Some(keyword) => TokenShape::Keyword(keyword),
    };
    Ok(Found::Token(shape, len))
}

/// The number at the beginning.
#[tactic(auto, unfolding(crate::specs::Shapes::number_token_at))]
pub fn number_token_at(text: &[u8]) -> Result<Found, Wrong>
    ensures value { result ≡ number_token_at text.now }
    ensures within { MatchResult result (FitsIn (length text.now)) (WrongEndsIn (length text.now)) }
{
    let len = run_len(text, RunClass::Digit);
    match text_number(&text[..len]) {
        None => Err(Wrong::BadByte { from: 0, to: len }),
        Some(number) => Ok(Found::Token(TokenShape::Number(number), len)),
    }
}
