//! Why a script is refused, kind by kind, in words of its own.
//!
//! - [`laws`] says of each kind of refusal where it is among the refusals of a tree.
//!
//! There is no code.
#![tactic(auto)]

pub mod laws;
