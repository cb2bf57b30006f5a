//! A script as it is written: the tree of its tokens, with the places of what may be refused.

use crate::setting::Listen;
use crate::token::Variable;
use pv_values::{BinOp, BlockKind, Place, Text, Val};
use sqlite_items::{Boxed, Items};

/// A script as it is written.
#[derive(Drop)]
pub struct RawScript {
    pub items: Items<RawItem>,
    /// The length of the text.
    pub end: usize,
}

/// A name or a string, and where it stands.
#[derive(Debug, Drop)]
pub struct Word {
    pub text: Text,
    pub at: Place,
}

/// A variable as it is written, and where it stands.
#[derive(Debug, Drop)]
pub struct RawVariable {
    pub variable: Variable,
    pub at: Place,
}

/// What stands at the top of a script.
#[derive(Drop)]
pub enum RawItem {
    /// `NAME = VALUE`
    Parameter(Word, Setting),
    /// `loadmodule STRING`
    Module(Word),
    /// `modparam(MODULE, NAME, VALUE)`
    ModuleParameter(Word, Word, Setting),
    Block(RawBlock),
}

/// The value of a parameter.
#[derive(Debug, Drop)]
pub enum Setting {
    Number(i64),
    String(Text),
    Name(Text),
    Listen(Listen),
}

/// A block.
#[derive(Drop)]
pub struct RawBlock {
    pub kind: RouteKind,
    pub name: Option<Word>,
    /// Where its first word stands.
    pub kind_at: Place,
    /// From its first token to its last one.
    pub at: Place,
    pub body: Items<RawStmt>,
}

/// `route[NAME]`, or a block from which a run begins.
#[derive(Clone, Copy, Debug, PartialEq, Eq)]
pub enum RouteKind {
    Route,
    Begins(BlockKind),
}

/// A statement, from its first token to its last one.
#[derive(Drop)]
pub enum RawStmt {
    If(Place, RawExpr, Boxed<RawStmt>, Option<Boxed<RawStmt>>),
    While(Place, RawExpr, Boxed<RawStmt>),
    /// The value, the cases with their labels, and the default.
    Switch(Place, RawExpr, Items<(Val, Items<RawStmt>)>, Items<RawStmt>),
    Set(Place, RawVariable, RawExpr),
    Do(Place, RawCall),
    Return(Place, Option<RawExpr>),
    Exit(Place),
    Drop(Place),
    Break(Place),
    /// `{ .. }`
    Group(Place, Items<RawStmt>),
    /// `;`
    Empty(Place),
}

/// A call of a function or a route.
#[derive(Drop)]
pub enum RawCall {
    Function(Word, Items<RawArg>),
    Route(Word),
}

/// An argument.
#[derive(Debug, Drop)]
pub enum RawArg {
    String(Word),
    Number(i64),
    Variable(RawVariable),
}

/// An expression.
#[derive(Drop)]
pub enum RawExpr {
    Number(i64),
    String(Word),
    Variable(RawVariable),
    Call(RawCall),
    Not(Boxed<RawExpr>),
    Negative(Boxed<RawExpr>),
    /// Operands of one level, each with the operator before it.
    Chain(Boxed<RawExpr>, Items<(BinOp, RawExpr)>),
    /// `=~` and its pattern.
    Matches(Boxed<RawExpr>, Word),
    All(Items<RawExpr>),
    Any(Items<RawExpr>),
    /// `uri == myself`, or `uri != myself`.
    Myself(bool),
}
