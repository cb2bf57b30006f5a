//! Runs of a script's blocks over their messages: the script's meaning, joined to variables, functions, tables and the log.
//!
//! [`HostRun::begin`] makes a run of a block over the data that it has, [`HostRun::advance`] takes an answer and says whether
//! the run asks, has ended or found no memory. [`HostRun::asked`] shows what it asks outside, [`HostRun::take_ask`] takes it
//! out, and [`HostRun::close`] gives the data back and tells how the run ended. What the data decide by themselves is never
//! asked.
//!
//! A run asks and ends exactly as `specs/Host.antt` of `host_meaning` says, whatever it is answered: an answer that doesn't
//! fit the ask counts as an object that found no memory.
#![tactic(auto)]

mod answers;
mod ask;
mod calls;
mod lent;
mod relaying;
mod restorable;
mod row;
mod run;
mod variables;
mod workshop;

pub use ask::{Answer, Ask};
pub use host_meaning::{Asked, Heard, HostAddress, Hosts, JobOrder, Settings};
pub use lent::{Lent, MessageView};
pub use pv_table::{BlockKind, RunData};
pub use restorable::{HostNext, RestorableRun};
pub use run::{HostRun, HostWent};
pub use workshop::Workshop;
