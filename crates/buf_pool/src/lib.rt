//! The pool of message blocks: a fixed number of blocks, each free or out. A block is taken from the pool and given back
//! to it, and what is free and what is out always adds up to the size of the pool.
//!
//! Each block holds a share of its pool's ledger, so a block can only be given to the pool that it was taken from, and is
//! given back once.
#![tactic(auto)]

mod laws;
mod ledger;
mod pool;
mod record;

pub use laws::{a_pool_history_is_a_fold, blocks_are_conserved, each_pool_call_has_one_answer};
pub use pool::{BLOCK_SIZE, Block, Pool};
pub use record::PoolRecord;

#[cfg(test)]
mod tests;
