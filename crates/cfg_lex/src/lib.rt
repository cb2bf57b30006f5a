//! The tokens of a script.
//!
//! [`lex`] reads a text into its tokens, each with its place, or refuses it by its first fault. What the tokens of a
//! text are is `specs/Tokens.antt`: each class of token by its bytes and by what stands after it, and the text as
//! tokens with blanks and comments between them. [`pieces`] reads the variables in a text that is expanded.
#![tactic(auto)]

ghost use Rattle.std.specs.Prelude.{◌≡◌, ◌⊎◌, ℕ, List, IfOk, IfErr, MatchResult};
ghost use Rattle.pv_values.specs.declared.refusal.Place.{Place};
ghost use Rattle.cfg_tree.specs.declared.token.Token.{Token};
ghost use Rattle.cfg_lex.specs.Tokens.{TokensOf, FaultOf, IsFaultOf};

mod bytes;
mod comment;
mod context;
mod found;
pub mod laws;
mod listen;
mod mark;
mod piece;
mod reader;
mod shape;
mod string;
#[cfg(test)]
mod tests;
mod variable;
mod word;

use cfg_tree::Token;
pub use piece::{Piece, pieces};
use pv_values::ScriptFault;
use std::alloc::Global;

/// The tokens of the text, each with its place.
///
/// Refused are, by the first fault: a text over 1 MiB (1,048,576 bytes), as `TooLarge` at the place of what is too
/// much; else bytes with which no token begins, as `BadByte`, and what the text ends before the end of, as `Unclosed`.
///
/// ```
/// let tokens = lex(alloc, b"exit;")?;
/// tokens[0]; // the word `exit`, from 0 to 4
/// tokens[1]; // the mark `;`, from 4 to 5
/// lex(alloc, b"exit @"); // refused: BadByte, from 5 to 6
/// ```
pub fn lex(alloc: Global, text: &[u8]) -> Result<Vec<Token>, ScriptFault>
    // What is given is the text's tokens.
    ensures found { IfOk result (λ v. TokensOf text.now v.items) }
    // What is refused is its first fault.
    ensures fault { IfErr result (IsFaultOf text.now) }
    // Where the text has tokens, they are given, or it is out of memory.
    ensures whole { (ts : List Token) → TokensOf text.now ts
        → MatchResult result (λ v. v.items ≡ ts) (λ e. e ≡ ScriptFault.NoMemory) }
    // Where it has a fault, that is given, or it is out of memory.
    ensures refused { (kind : ℕ) (at : Place) → FaultOf text.now (ScriptFault.Refused kind at)
        → MatchResult result (λ _. ⊥) (λ e. (e ≡ ScriptFault.Refused kind at) ⊎ (e ≡ ScriptFault.NoMemory)) }
{
    reader::tokens_in(alloc, text)
}
