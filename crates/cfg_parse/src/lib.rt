//! The tree of the tokens of a script, or that the grammar derives none from them.
//!
//! [`parse`] is the one call. Its clauses speak of the grammar alone (`Derives`, of `cfg_tree`). Between the grammar and
//! the code stand the reading functions of `specs/`, one a rule: each function here equals one of them, and the laws
//! of [`laws`] say that they read exactly what the grammar derives.
#![tactic(auto)]

mod calls;
mod exprs;
mod fault;
pub mod laws;
mod repeat;
mod script;
mod stmts;
#[cfg(test)]
mod tests;
mod tokens;
mod tree;

pub use tree::parse;
