//! The index of transactions: which slot the transaction of a key has, and of which generation the slot is. A key comes
//! in by `Index::claim`, which answers whether it is old or new, and goes out when its slot is freed. The generation
//! tells one transaction of a slot from the next.
//!
//! Workers share an index, a wheel of timers, a pool of blocks and the slots themselves as cells that they take turns at
//! (`turn_table`). The index, the wheel and the pool are the one cell of a table each, and each of their calls is one turn.
//! What a slot's value means is for the crate above to say, by `SlotValue`.
#![tactic(auto)]

mod hashed;
mod index;
mod index_cell;
pub mod laws;
mod pool_cell;
mod record;
mod slot_cell;
mod wheel_cell;

pub use index::{Index, IndexEnd, IndexPlace};
pub use index_cell::{claim_key, find_key, free_slot, share_index, share_index_with_hasher};
pub use key_hash::HashState;
pub use pool_cell::{PoolCell, free_blocks, give_block, share_pool, take_block};
pub use record::IndexRecord;
pub use server_key::{Key, KeyView};
pub use slot_cell::{SlotCell, SlotValue};
pub use wheel_cell::{WheelCell, clear_timer, next_due, pop_due, set_timer, share_wheel};

#[cfg(test)]
mod plain;
#[cfg(test)]
mod plain_tests;
#[cfg(test)]
mod shared_tests;
#[cfg(test)]
mod tests;
