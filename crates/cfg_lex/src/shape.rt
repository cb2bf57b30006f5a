//! What stands at a place, before any memory is taken for it.

ghost use Rattle.std.specs.Prelude.{◌≡◌};

use crate::variable::VariableForm;
use cfg_tree::{Keyword, Listen, Mark};

/// What a token is. What has bytes of its own is read from the text later.
#[derive(Clone, Copy, Debug, PartialEq, Eq)]
pub enum TokenShape {
    Name,
    Keyword(Keyword),
    Mark(Mark),
    Number(i64),
    String,
    Variable(VariableForm),
    Listen(Listen),
    BlockName,
}

/// What stands at the beginning of a text, and how long it is.
#[derive(Clone, Copy, Debug, PartialEq, Eq)]
pub enum Found {
    /// A blank, or a comment.
    Gap(usize),
    Token(TokenShape, usize),
}

/// Why neither stands there.
#[derive(Clone, Copy, Debug, PartialEq, Eq)]
pub enum Wrong {
    /// The bytes from `from` up to, and without, the one at `to` begin no token.
    BadByte { from: usize, to: usize },
    /// The text ends before what stands there does.
    Unclosed,
}
