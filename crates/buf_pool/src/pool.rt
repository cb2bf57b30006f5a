//! The pool and its blocks.
ghost use Rattle.std.specs.Prelude.{◌≡◌, ℕ, ◌+◌, ◌-◌, ◌<◌, IfOk, IfSome, IfNone, length, vec_len};

use crate::ledger::{Ledger, Share};
use std::alloc::{AllocError as NoMemory, Global};
use std::marker::Model;

/// How many bytes a block has.
pub const BLOCK_SIZE: usize = 8192;

/// A block of a pool: `BLOCK_SIZE` bytes. A clause sees which pool it is of, and its bytes. A block that is dropped never
/// comes back: for its pool it is out from then on.
#[derive(Drop)]
pub struct Block {
    memory: Vec<u8>,
    share: Share,
}

impl Model for Block {
    ghost use Rattle.std.specs.Prelude.{◌≡◌, vec_len};
    ghost use Rattle.buf_pool.specs.Pools.{BlockState, coded_block};
    ghost use Rattle.buf_pool.specs.declared.pool.TheConstants.{BLOCK_SIZE};

    ghost Value = { BlockState };

    ghost coded = { coded_block };

    ghost view = { λ b. record { pool = b.share; bytes = b.memory.items } };

    ghost invariant = { λ b. vec_len b.memory ≡ BLOCK_SIZE };
}

impl Block {
    ghost use Rattle.std.specs.Borrow.{sem};
    ghost use Rattle.buf_pool.specs.Lending.{LendsBytes};

    pub fn bytes(&self) -> &[u8]
        ensures value { result.now ≡ self.now.bytes }
        ensures size { length result.now ≡ BLOCK_SIZE }
    {
        self.memory.as_slice()
    }

    /// The bytes, to be written. What they were before a block was taken is not said.
    pub fn bytes_mut(&mut self) -> &mut [u8]
        ensures* writes_back { sem 𝓛 (LendsBytes self.entry result) }
        ensures value { result.now ≡ self.old.bytes }
        ensures size { length result.now ≡ BLOCK_SIZE }
    {
        self.memory.as_mut_slice()
    }
}

/// A pool of blocks. A clause sees which pool it is, and how many of its blocks are free and how many are out.
#[derive(Drop)]
pub struct Pool {
    ledger: Ledger,
    free: Vec<Vec<u8>>,
}

impl Model for Pool {
    ghost use Rattle.std.specs.Prelude.{◌≡◌, ◌+◌, ◌<◌, ◌≤◌, ◌^◌, All, vec_len, vec_capacity};
    ghost use Rattle.buf_pool.specs.Pools.{PoolState, coded_pool};
    ghost use Rattle.buf_pool.specs.declared.pool.TheConstants.{BLOCK_SIZE};

    ghost Value = { PoolState };

    ghost coded = { coded_pool };

    ghost view = { λ p. record { name = p.ledger.name; free = vec_len p.free; out = p.ledger.out } };

    ghost invariant = { λ p. record {
      counted : vec_len p.free + p.ledger.out < 2 ^ 32;
      room : vec_len p.free + p.ledger.out ≤ vec_capacity p.free;
      whole : All (λ memory. vec_len memory ≡ BLOCK_SIZE) p.free.items;
    } };
}

impl Pool {
    ghost use Rattle.std.specs.Prelude.{is_some};
    ghost use Rattle.buf_pool.specs.Pools.{size_of, after_take, after_give};
    ghost use Rattle.buf_pool.specs.Records.{PoolStep};
    ghost use Rattle.buf_pool.specs.declared.record.PoolRecord.TheVariants as recorded;

    /// A pool of this many blocks, all of them free. The memory of all of them is taken here, `BLOCK_SIZE` bytes a block,
    /// and their bytes are 0. No later call takes memory or clears any.
    pub fn new(alloc: Global, blocks: u32) -> Result<Pool, NoMemory>
        ensures free { IfOk result (λ pool. pool.free ≡ blocks) }
        ensures out { IfOk result (λ pool. pool.out ≡ 0) }
    {
        let ledger = Ledger::open(alloc)?;
        let mut free = Vec::with_capacity(alloc, blocks as usize)?;
        for _block in 0..blocks {
            free.push_reserved(vec![in alloc; 0; BLOCK_SIZE]?);
        }
        Ok(Pool { ledger, free })
    }

    /// Takes a block, where one is free. Its bytes are not cleared.
    pub fn take(&mut self) -> Option<Block>
        ensures block { IfSome result (λ block. (block.pool ≡ self.old.name) × (0 < self.old.free) × (self.new ≡ after_take self.old)) }

        // None comes exactly where no block is free.
        ensures none { IfNone result ((self.old.free ≡ 0) × (self.new ≡ self.old)) }
        ensures name { self.new.name ≡ self.old.name }
        ensures size { size_of self.new ≡ size_of self.old }
        ensures step { PoolStep self.old (recorded.Take (is_some result)) self.new }
    {
        let memory = self.free.pop()?;
        let share = self.ledger.lend();
        Some(Block { memory, share })
    }

    /// Takes a block back, which is free again.
    pub fn give(&mut self, block: Block)
        requires { block.pool ≡ self.old.name }
        ensures after { self.new ≡ after_give self.old }
        ensures was_out { 0 < self.old.out }
        ensures name { self.new.name ≡ self.old.name }
        ensures size { size_of self.new ≡ size_of self.old }
        ensures step { PoolStep self.old recorded.Give self.new }
    {
        let Block { memory, share } = block;
        self.ledger.take_back(share);
        self.free.push_reserved(memory);
    }

    /// How many blocks are free.
    pub fn free(&self) -> u32
        ensures free { result ≡ self.now.free }
        ensures step { PoolStep self.now (recorded.Free result) self.now }
    {
        self.free.len() as u32
    }
}
