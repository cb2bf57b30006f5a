//! What a table is asked, and what it answers.

use pv_values::{Key, Val};
use std::alloc::AllocError as NoMemory;

/// An operation on a table.
#[derive(Debug, Drop)]
pub enum TabOp {
    /// Reads the value of a key.
    Get(Key),
    /// Gives a key a value, or takes it out where the value is `$null`.
    Set(Key, Val),
    /// Takes a key out.
    Remove(Key),
    /// Adds one to the value of a key.
    Inc(Key),
    /// Takes one from the value of a key.
    Dec(Key),
    /// Reads how many seconds the item of a key has left.
    Left(Key),
    /// Gives the item of a key this many seconds from now, or no limit.
    Limit(Key, i64),
    /// Takes out each key in which the pattern of this number matches.
    RemoveMatching(u32),
    /// Takes out each key.
    Reset,
}

/// What a table answers.
#[derive(Debug, Drop)]
pub enum TabReply {
    /// What a key reads or is counted to: its item's value, or the initial number where it is absent.
    Value(Val),
    /// Nothing changed: the key is absent, or a limit is out of bounds.
    Null,
    Done,
    /// Nothing changed: a new key would be the 100,001st live item.
    Full,
    /// Nothing changed: the key or the text has more than 512 bytes.
    TooLong,
    /// Nothing changed: the item is a text, or its number has no next one within 64 bits.
    NotNumber,
    /// How many keys were taken out.
    Count(u64),
}

/// One operation of a table's history: what was asked, when, and what came of it. A history is a list of these.
#[derive(Debug, Drop)]
pub struct TabRecord {
    pub op: TabOp,
    pub now: u64,
    pub reply: Result<TabReply, NoMemory>,
}
