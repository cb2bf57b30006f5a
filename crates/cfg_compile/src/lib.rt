//! From the tree of a script to flat code that stands for it.
#![tactic(auto)]

mod block;
mod expr;
mod part;
mod stmt;
mod text;

pub use block::compile;
