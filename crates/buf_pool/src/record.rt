//! What is recorded of a pool.

/// One call of a pool with its answer. A history is a list of these. Contracts speak of them, and no value need be made.
#[derive(Clone, Copy, Debug, PartialEq, Eq)]
pub enum PoolRecord {
    /// A block was asked for, and was taken or wasn't.
    Take { taken: bool },
    /// A block was given back.
    Give,
    /// How many blocks are free was answered.
    Free { free: u32 },
}
