//! The tokens of a script.

use crate::setting::Listen;
use pv_values::{Place, Text};

/// A token, and where it stands.
#[derive(Debug, Drop)]
pub struct Token {
    pub lexeme: Lexeme,
    pub at: Place,
}

/// What a token is.
#[derive(Debug, Drop)]
pub enum Lexeme {
    /// A word that the grammar doesn't write itself.
    Name(Text),
    Keyword(Keyword),
    Mark(Mark),
    /// 0 to 9223372036854775807.
    Number(i64),
    /// The bytes that the string between its quotes stands for.
    String(Text),
    Variable(Variable),
    /// `udp:IP:PORT`, after `listen` and `=`.
    Listen(Listen),
    /// The name of a block, after `[`, or after the `(` that follows `route`.
    BlockName(Text),
}

/// A variable as it is written: `$NAME`, `$NAME(INNER)`, `$(NAME{TRANSFORMATION})`,
/// `$(NAME(INNER){TRANSFORMATION})`.
#[derive(Debug, Drop)]
pub struct Variable {
    pub name: Text,
    pub inner: Option<Text>,
    pub transformation: Option<Text>,
}

/// The words that the grammar writes itself.
#[derive(Clone, Copy, Debug, PartialEq, Eq)]
pub enum Keyword {
    And,
    Break,
    Case,
    Default,
    Drop,
    Else,
    Exit,
    If,
    Loadmodule,
    Mod,
    Modparam,
    Myself,
    Not,
    Or,
    Return,
    Route,
    Switch,
    Uri,
    While,
}

/// Operators and brackets.
#[derive(Clone, Copy, Debug, PartialEq, Eq)]
pub enum Mark {
    /// `(`
    OpenRound,
    /// `)`
    CloseRound,
    /// `[`
    OpenSquare,
    /// `]`
    CloseSquare,
    /// `{`
    OpenCurly,
    /// `}`
    CloseCurly,
    /// `,`
    Comma,
    /// `;`
    Semicolon,
    /// `:`
    Colon,
    /// `=`
    Assign,
    /// `==`
    Equal,
    /// `!=`
    NotEqual,
    /// `<`
    Less,
    /// `>`
    Greater,
    /// `<=`
    LessOrEqual,
    /// `>=`
    GreaterOrEqual,
    /// `=~`
    Matches,
    /// `||`
    Or,
    /// `&&`
    And,
    /// `!`
    Not,
    /// `+`
    Plus,
    /// `-`
    Minus,
    /// `*`
    Times,
    /// `/`
    Divide,
}
