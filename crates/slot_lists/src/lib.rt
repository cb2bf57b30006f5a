//! Slots by number: in which of some lists each is ([`Lists`]), and which of them are free ([`FreeSlots`]).
//!
//! All memory is taken when these are made, so no later call can want any.
#![tactic(auto)]

mod bits;
mod free;
mod lists;

pub use free::FreeSlots;
pub use lists::Lists;
