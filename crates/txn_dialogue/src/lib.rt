//! What a step of a transaction is: what happens to a slot at one datagram, one timer, one continuation or one
//! cancellation, with all runs of blocks that it causes (RFC 3261, sections 16.7 and 17; RFC 6026).
//!
//! There is no code here but the words of the definitions. They stand in `specs/`, in the order in which they are read:
//! `Slots` (a slot as a reader sees it), `Sends` (datagrams that are decided), `Ending` (the end of a step), `Memory` (out of
//! memory), `Runs` (runs of blocks), `Rounds` (targets, branches, the best response), `Replies` (responses of branches),
//! `Timers` (which timer is the one), `Events`, `Dialogue` (the whole), `Loose` (datagrams that are of no slot), `Entries`
//! (what is recorded, and a slot's history). Contracts speak of these types; no value of them need be made.
#![tactic(auto)]

mod entry;
pub mod examples;
mod happening;
pub mod laws;
mod mark;

pub use entry::{Entry, IndexHeard, LooseEntry, Occasion};
pub use happening::{ArmedTimer, BranchTimer, Happening, SlotTimer};
pub use mark::{Cause, Mark};
