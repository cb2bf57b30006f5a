//! The calls of a script: which function or variable a name stands for, and what is read of the arguments of a call.
//!
//! [`Checker`] keeps what was refused and met so far; each of its methods follows one check of `cfg_tree`, and says so by
//! one clause, `Follows`. [`Known`] is what is known of the whole script before: its blocks and its tables. Calls and
//! variables are read in the order of the text:
//!
//! ```
//! let known = Known::new(blocks, settings.table_names(alloc)?); // a BlockIndex, and the tables' names
//! let mut checker = Checker::new(alloc, refusals);
//! checker.count(place)?; // one more statement, where it stands
//! checker.function_call(&known, kind, name, args.as_slice())?; // the function, or None where it is refused
//! checker.variable(&known, v)?; // what the variable stands for, or None
//! let (refusals, vars, patterns) = checker.into_parts()?;
//! ```
#![tactic(auto)]

mod argument;
mod checker;
mod form;
mod head;
mod host;
mod index;
mod joins;
mod known;
mod variable;
mod vars;

pub use checker::{Checker, number};
pub use form::Call;
pub use head::BlockHead;
pub use index::BlockIndex;
pub use joins::{one, with_item, with_items};
pub use known::Known;
