//! What a block of a script does to its message: the meaning of the script, each ask of which is answered by its row.
//!
//! There is no code here but the words of the definitions, and laws of the rows and of runs. A row reads or changes the facts of the run (`pv_table`), or
//! asks outside: a table, a block, a claim. `specs/Rows.antt` has one row for each variable and function,
//! `specs/Host.antt` the course of a run: what it asks, what it does with each answer, and how it ends, also where it
//! finds no memory. Contracts speak of [`Asked`] and [`Heard`], which are plain data; no value of them need be made.
#![tactic(auto)]

mod ask;
pub mod laws;
mod routing;
mod settings;

pub use ask::{Asked, Heard, JobOrder};
pub use routing::RouteValue;
pub use settings::{HostAddress, Hosts, Settings};
