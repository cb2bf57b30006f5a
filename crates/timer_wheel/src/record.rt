//! What is recorded of a wheel.
use crate::wheel::Timer;

/// One call of a wheel, with its moment and its answer. A history is a list of these. Contracts speak of them, and no value
/// need be made.
#[derive(Clone, Copy, Debug, PartialEq, Eq)]
pub enum WheelRecord {
    /// The slot's timer was set.
    Set {
        slot: u32,
        timer: Timer,
    },
    /// The slot's timer was taken away, if it had one.
    Clear {
        slot: u32,
    },
    /// The first timer that was due at `now` was taken away and answered: its slot, its generation and when it was due.
    Pop {
        now: u64,
        popped: Option<(u32, u64, u64)>,
    },
    /// The least moment at which a timer is due was answered.
    Next {
        due: Option<u64>,
    },
}
