//! A wheel of due moments: for each of a fixed number of slots at most one timer, which has the generation that it was
//! set for and the moment when it is due. `Wheel::pop_due` answers the timers that are due, the earliest first and those
//! of one moment by their slots.
//!
//! Moments are milliseconds, and the wheel knows no clock: `now` is handed in. A wheel takes all its memory when it is
//! made, so no later call can want any.
#![tactic(auto)]

pub mod laws;
mod levels;
mod lists;
mod record;
mod wheel;

pub use record::WheelRecord;
pub use wheel::{Timer, Wheel};

#[cfg(test)]
mod tests;
