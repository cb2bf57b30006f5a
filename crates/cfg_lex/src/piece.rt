//! The pieces of a text that is expanded.

ghost use Rattle.std.specs.Prelude.{◌≡◌, ◌≤◌, ◌<◌, length, map, IfOk, IfSome, option_map};
ghost use Rattle.cfg_tree.specs.Variables.{pieces_of};
ghost use Rattle.cfg_lex.specs.Pieces.{as_piece, first_piece, piece_shown};

use crate::bytes::{RunClass, begins_at, run_len};
use crate::variable::{form_at, variable_of};
use cfg_tree::Variable;
use pv_values::Text;
use std::alloc::{AllocError as NoMemory, Global};

/// A piece of a text that is expanded.
#[derive(Debug, Drop)]
pub enum Piece {
    /// Bytes that stand for themselves. `$$` is the one byte `$`.
    Plain(Text),
    /// A variable, in whose place its text stands.
    Of(Variable),
}

/// The first piece, and how many bytes it takes.
#[tactic(auto, unfolding(crate::specs::Pieces::first_piece))]
fn first_piece(alloc: Global, text: &[u8]) -> Result<Option<(Piece, usize)>, NoMemory>
    requires { 0 < length text.now }
    ensures value { IfOk result (λ o. option_map piece_shown o ≡ first_piece text.now) }
    ensures within { IfOk result (λ o. IfSome o (λ r. (0 < r.1) × (r.1 ≤ length text.now))) }
{
    let len = run_len(text, RunClass::Other(b'$'));
    if len > 0 {
        let plain = Text::from_slice(alloc, &text[..len])?;
        return Ok(Some((Piece::Plain(plain), len)));
    }
    if begins_at(text, 1, b'$') {
        let plain = Text::from_slice(alloc, b"$")?;
        return Ok(Some((Piece::Plain(plain), 2)));
    }
    let Some(form) = form_at(&text[1..]) else {
        return Ok(None);
    };
    let variable = variable_of(alloc, &text[1..], form)?;
    Ok(Some((Piece::Of(variable), form.len + 1)))
}

/// The pieces of a text that is expanded, as a string or a table's key: bytes that stand for themselves, `$$` for `$`,
/// and variables as a script writes them. None where another `$` stands in it.
pub fn pieces(alloc: Global, text: &[u8]) -> Result<Option<Vec<Piece>>, NoMemory>
    ensures { IfOk result (λ o. option_map (λ v. map as_piece v.items) o ≡ pieces_of text.now) }
{
    let mut pieces = Vec::new(alloc);
    let mut at = 0;
    while at < text.len() {
        let Some((piece, len)) = first_piece(alloc, &text[at..])? else {
            return Ok(None);
        };
        pieces.push(piece)?;
        at += len;
    }
    Ok(Some(pieces))
}
