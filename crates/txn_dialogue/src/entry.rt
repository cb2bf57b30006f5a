//! What is recorded of steps.

use crate::happening::Happening;
use crate::mark::Mark;
use dialogue::CourseItem;
use host_meaning::{Asked, Heard, JobOrder};
use outside_ports::Addr;
use pv_values::Text;
use sqlite_items::Items;
use txn_store::IndexEnd;

/// What the index was asked for a datagram, and its answer.
pub enum IndexHeard {
    /// Nothing.
    Unasked,
    /// The slot that holds the key of its INVITE, and its generation.
    Found(Option<(u32, u64)>),
    /// The slot that its key gets, or has.
    Claimed(IndexEnd),
    /// Memory was short.
    NoMemory,
}

/// What a step is made for.
pub enum Occasion {
    /// A datagram, where it came from, and what the index answered.
    Datagram {
        text: Text,
        from: Addr,
        index: IndexHeard,
    },
    /// The slot's timer was popped from the wheel.
    Pop,
    /// A job was taken.
    Job(JobOrder),
}

/// A step of a slot, as it is recorded: by which worker, for what, what happened to the slot under which generation and when,
/// what was asked and answered, and how it ended; without a mark it was aborted.
pub struct Entry {
    pub worker: u32,
    pub occasion: Occasion,
    pub happening: Happening,
    pub generation: u64,
    pub now: u64,
    pub items: Items<CourseItem<Asked, Heard>>,
    pub mark: Option<Mark>,
}

/// A datagram that was handled without a slot, as it is recorded.
pub struct LooseEntry {
    pub worker: u32,
    pub text: Text,
    pub from: Addr,
    pub index: IndexHeard,
    pub now: u64,
    pub items: Items<CourseItem<Asked, Heard>>,
    pub mark: Option<Mark>,
}
