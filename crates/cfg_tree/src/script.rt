//! An accepted script.

use crate::setting::Parameters;
use pv_values::{BinOp, Func, Patterns, PvUse, TableSpec, Text, Transformation, Val};
use sqlite_items::{Boxed, Items};

/// How a script reads or writes an item of a table.
#[derive(Clone, Copy, Debug, PartialEq, Eq)]
pub enum TableUse {
    /// `$sht(TABLE=>KEY)`: its value.
    Item,
    /// `$shtex(TABLE=>KEY)`: the seconds that are left to it.
    Seconds,
    /// `$shtinc(TABLE=>KEY)`: one more.
    Increment,
    /// `$shtdec(TABLE=>KEY)`: one less.
    Decrement,
}

/// A part of an expanded text: a text that stands for itself, or a variable.
#[derive(Drop)]
pub enum Part {
    Text(Text),
    /// `$var(NAME)`, by the number of its name.
    Var(u32),
    /// `$rc`, `$retcode`
    Code,
    /// A variable of the host.
    Host(PvUse),
    /// An item of a table, by its number, with the parts of its key.
    Item(TableUse, u32, Items<Part>),
    /// A variable with a transformation.
    Transformed(Transformation, Boxed<Part>),
}

/// An expression.
#[derive(Drop)]
pub enum Expr {
    Int(i64),
    /// A text that isn't expanded.
    Text(Text),
    /// A variable.
    Read(Part),
    /// A function with its literal arguments, and the parts of each expanded one.
    Call(Func, Items<Items<Part>>),
    /// `route(NAME)`, by the number of the block.
    Route(u32),
    Not(Boxed<Expr>),
    Negative(Boxed<Expr>),
    /// Operands of one level, from left to right, each with the operator before it.
    Chain(Boxed<Expr>, Items<(BinOp, Expr)>),
    /// `=~`, with the number of the pattern.
    Matches(Boxed<Expr>, u32),
    /// `&&` between operands.
    All(Items<Expr>),
    /// `||` between operands.
    Any(Items<Expr>),
}

/// What an assignment writes.
#[derive(Drop)]
pub enum Target {
    /// `$var(NAME)`, by the number of its name.
    Var(u32),
    /// A variable of the host.
    Host(PvUse),
    /// An item of a table, by its number, with the parts of its key.
    Item(TableUse, u32, Items<Part>),
}

/// A statement. Braces and empty statements leave no trace: a list of statements is what they hold.
#[derive(Drop)]
pub enum Stmt {
    Set(Target, Expr),
    /// A call of a function or a route.
    Do(Expr),
    If(Expr, Items<Stmt>, Items<Stmt>),
    While(Expr, Items<Stmt>),
    /// The value, the cases in order, each with its label, and the default. A case goes on with the
    /// next one.
    Switch(Expr, Items<(Val, Items<Stmt>)>, Items<Stmt>),
    Break,
    Return(Option<Expr>),
    Exit,
    Drop,
}

/// An accepted script.
#[derive(Drop)]
pub struct Script {
    /// The blocks, in the order in which they are written: a block's number is its place here.
    pub blocks: Items<Items<Stmt>>,
    /// The number of `request_route`.
    pub request: u32,
    /// The number of `reply_route`, where there is one.
    pub reply: Option<u32>,
    /// How many names of `$var` there are.
    pub vars: u32,
    pub patterns: Patterns,
    pub tables: Items<TableSpec>,
    pub parameters: Parameters,
}
