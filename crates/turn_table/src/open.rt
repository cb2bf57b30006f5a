//! A new table, and its passes.
ghost use Rattle.std.specs.Prelude.{◌≡◌, ◌+◌, ◌^◌, ◌<◌, ◌≤◌, [], Some, ℕ, IfOk, map, replicate, vec_len};
ghost use Rattle.std.specs.Vec.{vec_capacity};
ghost use mathlib.Core.Option.{some};
ghost use lib.ListN.{get_elem?};
ghost use Rattle.turn_table.specs.Views.{first_view};
ghost use Rattle.turn_table.specs.Tables.{id_of, fixed_of, cells_of};
ghost use Rattle.turn_table.specs.Passes.{IsPass, HoldsNone, AreNewPasses};

use crate::cell::TurnCell;
use crate::law::Deal;
use crate::room::Room;
use crate::table::{CellSteps, Pass, Turns};
use atomic_table::Table;
use std::alloc::{AllocError, Global};

impl<C: TurnCell> Turns<C> {
    /// A table of cells that have these values, in order, and a pass for each number below `workers`, in order of
    /// numbers. Each value has to stand for the empty list of records. It takes all the memory that the table ever needs.
    pub fn new(
        alloc: Global,
        cells: Vec<C>,
        workers: u32,
        fixed: &C::Fixed,
    ) -> Result<(Turns<C>, Vec<Pass<C>>), AllocError>
    where
        C: Drop,
        requires some_worker { 0 < workers }
        requires few { vec_len cells < 2 ^ 32 }
        requires stand { (k : ℕ) (v : C) → get_elem? cells.items k ≡ some v → C.stands fixed.now k v [] }
        ensures fixed { IfOk result (λ r. fixed_of r.0 ≡ fixed.now) }
        ensures cells { IfOk result (λ r. cells_of r.0 ≡ vec_len cells) }
        ensures passes { IfOk result (λ r. AreNewPasses (id_of r.0) fixed.now workers r.1.items) }
    {
        let count = cells.len();
        let room = Room::new(alloc, count)?;
        let mut passes = Vec::with_capacity(alloc, workers as usize)?;
        let words = zeros(alloc, count + 1)?;
        let slots = filled(alloc, cells)?;
        let Ok((table, first)) = Table::new(alloc, words.as_slice(), slots, fixed) else {
            return Err(AllocError);
        };
        let first = deal_passes(&table.shared, first, &mut passes, workers);
        let Ok(()) = passes.insert(0, first) else {
            return Err(AllocError);
        };
        Ok((Turns { table, room }, passes))
    }
}

fn zeros(alloc: Global, count: usize) -> Result<Vec<u64>, AllocError>
    ensures { IfOk result (λ v. v.items ≡ replicate count 0) }
{
    vec![in alloc; 0; count]
}

fn filled<C: Drop>(alloc: Global, cells: Vec<C>) -> Result<Vec<Option<C>>, AllocError>
    ensures { IfOk result (λ v. v.items ≡ map Some cells.items) }
{
    cells.into_iter().map(|cell| Some(cell)).collect(alloc)
}

// Makes the other passes.
fn deal_passes<C: TurnCell>(
    shared: &CellSteps<C>,
    mut first: Pass<C>,
    passes: &mut Vec<Pass<C>>,
    workers: u32,
) -> Pass<C>
    requires some_worker { (0 < workers) × (0 < shared.now.table_id.words) }
    requires first { IsPass shared.now.table_id shared.now.key first × HoldsNone first × (first.me.0 ≡ first_view shared.now.key 0 1) }
    requires room { (passes.old.items ≡ []) × (workers ≤ vec_capacity passes.old) }
    ensures first { IsPass shared.now.table_id shared.now.key result × HoldsNone result × (result.me.0 ≡ first_view shared.now.key 0 workers) }
    ensures others { (i : ℕ) (p : _) → get_elem? passes.new.items i ≡ some p → IsPass shared.now.table_id shared.now.key p × HoldsNone p × (p.me.0 ≡ first_view shared.now.key (i + 1) 0) }
    ensures count { vec_len passes.new + 1 ≡ workers }
{
    for made in 1..workers {
        let _ = made;
        let next = shared.split_seat::<Deal>(&mut first);
        passes.push_reserved(next);
    }
    first
}
