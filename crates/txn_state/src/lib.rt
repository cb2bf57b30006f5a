//! A transaction as it is kept between its steps: its request and its branches, each text in a block of its own, the script's
//! part, the server and the clients, and the response context.
//!
//! [`Txn`] is changed in place by the steps of the transaction. What it stands for is said in `specs/Kept.antt`: `shown` makes
//! a transaction as the definition of a step sees it of the data, of the history of the response context, and of the reading
//! of the request, neither of which is kept.
//!
//! [`Txn::due`], [`Txn::due_above`] and [`Txn::timer_at`] look at the timers of all machines (RFC 3261, section 17; RFC 6026),
//! [`Txn::is_over`] tells whether all machines are, and [`Txn::owes_487`] whether a cancelled transaction is still to be
//! answered.
#![tactic(auto)]

mod branch;
mod changes;
mod ending;
mod text_block;
mod timers;
mod txn;

pub use branch::{Branch, BranchState};
pub use text_block::{TextBlock, put_front};
pub use txn::{Progress, ScriptState, Txn};

#[cfg(test)]
mod tests;
