//! What is recorded of an index.
use crate::index::IndexEnd;
use server_key::Key;
use std::alloc::AllocError as NoMemory;

/// One call of an index with its answer. A history is a list of these. Contracts speak of them, and no value need be made.
#[derive(Drop)]
pub enum IndexRecord {
    /// The slot of the key was asked for, which a new key gets.
    Claim {
        key: Key,
        end: Result<IndexEnd, NoMemory>,
    },
    /// The slot that holds the key was asked for, and its generation.
    Find {
        key: Key,
        at: Option<(u32, u64)>,
    },
    /// The slot was freed.
    Free {
        slot: u32,
    },
}
