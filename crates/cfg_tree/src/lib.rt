//! The trees of a script: as it is written (`RawScript`) and as it is accepted (`Script`).
//!
//! The meaning of a script is `specs/Meaning.antt`: the dialogue of each of its blocks. Which tokens a tree is derived from
//! is `specs/Grammar.antt`; what is refused of a tree, and which script it stands for, `specs/Checks.antt`.
//!
//! The trees are plain data. [`Script`] is the main one: the checks make it, and a [`ClosedScript`] keeps that its numbers
//! name what is there. `request_route { exit; }` as a script without tables or patterns:
//!
//! ```
//! let body = Items::from_vec(vec![in alloc; Stmt::Exit]?);
//! let script = Script {
//!     blocks: Items::from_vec(vec![in alloc; body]?),
//!     request: 0, // the number of the block in which a run of a request begins
//!     reply: None,
//!     vars: 0,
//!     patterns: Patterns::of(Vec::new(alloc)),
//!     tables: Items::from_vec(Vec::new(alloc)),
//!     parameters,
//! };
//! let closed = ClosedScript::new(script); // where `IsClosed script`
//! closed.script().blocks.as_slice().len(); // 1
//! closed.into_script(); // the same script, taken out
//! ```
#![tactic(auto)]

mod closed;
pub mod laws;
mod raw;
mod refusal_kind;
mod script;
mod setting;
mod token;
mod transformation;

pub use closed::ClosedScript;
pub use raw::{
    RawArg, RawBlock, RawCall, RawExpr, RawItem, RawScript, RawStmt, RawVariable, RouteKind,
    Setting, Word,
};
pub use refusal_kind::RefusalKind;
pub use script::{Expr, Part, Script, Stmt, TableUse, Target};
pub use setting::{Listen, Parameters};
pub use token::{Keyword, Lexeme, Mark, Token, Variable};
pub use transformation::{transform, uri_host, uri_user};

#[cfg(test)]
mod tests;
