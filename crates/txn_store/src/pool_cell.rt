//! The pool of message blocks, which workers share: the one cell of its table. Each call is one turn of it.
ghost use Rattle.std.specs.Prelude.{◌≡◌, ◌<◌, IfOk, IfSome, is_some};
ghost use Rattle.buf_pool.specs.Records.{PoolStep};
ghost use Rattle.buf_pool.specs.declared.record.PoolRecord.TheVariants as recorded;
ghost use Rattle.turn_table.specs.Tables.{IsPassOf, id_of, fixed_of, cells_of};
ghost use Rattle.turn_table.specs.Passes.{HoldsNone, AreNewPasses};
ghost use Rattle.turn_table.specs.Objects.{DidInTurn};
ghost use Rattle.txn_store.specs.Cells.{PoolStands};

use buf_pool::{Block, Pool, PoolRecord};
use histories::Same;
use std::alloc::{AllocError as NoMemory, Global};
use std::snapshot::Snapshot;
use std::sync::Wait;
use turn_table::{Pass, TurnCell, Turns};

/// A pool that workers take turns at.
#[derive(Drop)]
pub struct PoolCell {
    pub pool: Pool,
}

// The fixed part is the pool as it was at first: its name, and all of its blocks free.
impl TurnCell for PoolCell {
    type Record = PoolRecord;

    type Note = ();

    type Fixed = Snapshot<Pool>;

    ghost stands = { PoolStands };
}

/// A pool of this many blocks, all of them free, and a pass for each number below `workers`.
pub fn share_pool(
    alloc: Global,
    blocks: u32,
    workers: u32,
) -> Result<(Turns<PoolCell>, Vec<Pass<PoolCell>>), NoMemory>
    requires { 0 < workers }
    ensures cell { IfOk result (λ r. cells_of r.0 ≡ 1) }
    ensures pool { IfOk result (λ r. ((fixed_of r.0).value.free ≡ blocks) × ((fixed_of r.0).value.out ≡ 0)) }
    ensures passes { IfOk result (λ r. AreNewPasses (id_of r.0) (fixed_of r.0) workers r.1.items) }
{
    let mut cells = Vec::with_capacity(alloc, 1)?;
    let pool = Pool::new(alloc, blocks)?;
    let first = Snapshot::of(&pool);
    cells.push_reserved(PoolCell { pool });
    Turns::new(alloc, cells, workers, &first)
}

/// `Pool::take` of the shared pool. It waits while another worker has the pool.
pub fn take_block<R: Wait>(
    rt: &R,
    pool: &Turns<PoolCell>,
    pass: &mut Pass<PoolCell>,
) -> Option<Block>
    requires own { IsPassOf pool.now pass.old × HoldsNone pass.old }
    requires cell { 0 < cells_of pool.now }
    ensures block { IfSome result (λ block. block.pool ≡ (fixed_of pool.now).value.name) }
    ensures did { DidInTurn PoolStep (fixed_of pool.now).value 0 (recorded.Take (is_some result)) pass.old pass.new }
{
    let mut turn = pool.take(rt, pass, 0);
    let block = turn.value.pool.take();
    let taken = block.is_some();
    pool.give_told::<Same, PoolRecord>(pass, turn, &PoolRecord::Take { taken });
    block
}

/// `Pool::give` of the shared pool. It waits while another worker has the pool.
pub fn give_block<R: Wait>(rt: &R, pool: &Turns<PoolCell>, pass: &mut Pass<PoolCell>, block: Block)
    requires own { IsPassOf pool.now pass.old × HoldsNone pass.old }
    requires cell { 0 < cells_of pool.now }
    requires block { block.pool ≡ (fixed_of pool.now).value.name }
    ensures { DidInTurn PoolStep (fixed_of pool.now).value 0 recorded.Give pass.old pass.new }
{
    let mut turn = pool.take(rt, pass, 0);
    turn.value.pool.give(block);
    pool.give_told::<Same, PoolRecord>(pass, turn, &PoolRecord::Give);
}

/// `Pool::free` of the shared pool. It waits while another worker has the pool.
pub fn free_blocks<R: Wait>(rt: &R, pool: &Turns<PoolCell>, pass: &mut Pass<PoolCell>) -> u32
    requires own { IsPassOf pool.now pass.old × HoldsNone pass.old }
    requires cell { 0 < cells_of pool.now }
    ensures { DidInTurn PoolStep (fixed_of pool.now).value 0 (recorded.Free result) pass.old pass.new }
{
    let turn = pool.take(rt, pass, 0);
    let free = turn.value.pool.free();
    pool.give_told::<Same, PoolRecord>(pass, turn, &PoolRecord::Free { free });
    free
}
