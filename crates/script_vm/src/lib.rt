//! Runs of a script's code. A run asks its host, one question after another, and goes on from each
//! answer: `Run::begin` makes one, `Run::advance` takes an answer and tells whether the run asks or has
//! ended, `Run::asked` shows the ask, and `Run::close` takes the end out.
//!
//! It asks and ends exactly as the script means (`specs/Meaning.antt` of `cfg_tree`), whatever it is
//! answered: `play` says so of a whole run.
#![tactic(auto)]

mod ask;
mod block;
mod operand;
mod playing;
mod run;
mod stack;
mod step;
mod stop;

pub use ask::{AskView, VariableView};
pub use playing::{Played, play};
pub use run::{Run, RunNext, Went};
