//! The end of a table: all values, and what the passes saw and recorded.
ghost use Rattle.std.specs.Prelude.{◌≡◌, ◌<◌, ◌≤◌, [], ◌∷◌, length, map, vec_len};
ghost use Rattle.std.specs.Vec.{vec_capacity};
ghost use Rattle.std.specs.Slots.{slots_items, slots_len, IsFull};
ghost use Rattle.turn_table.specs.Tables.{id_of, fixed_of, cells_of};
ghost use Rattle.turn_table.specs.Passes.{IsPass, HoldsNone, Follow, AreAllPasses, IsClosedTable, own_of};

use crate::cell::TurnCell;
use crate::law::Gather;
use crate::table::{CellSteps, Pass, Turns};
use std::alloc::Global;
use std::snapshot::Snapshot;

/// What is left of a table.
#[derive(Drop)]
pub struct Closed<C: TurnCell> {
    /// The cells' values, in order, each of them Some.
    pub values: Vec<Option<C>>,
    /// The first pass, which took in all others: it has seen every history whole, and has every own list.
    pub last: Snapshot<Pass<C>>,
}

impl<C: TurnCell> Turns<C> {
    /// Ends the table. It asks for all passes that `new` gave, in that order, none of them holding a turn, and takes no
    /// memory.
    pub fn close(self, mut passes: Vec<Pass<C>>) -> Closed<C>
        requires { AreAllPasses (id_of self) (fixed_of self) passes.items }
        ensures count { vec_len result.values ≡ cells_of self }
        ensures own { result.last.value.me.0.mine ∷ result.last.value.me.0.got ≡ map own_of passes.items }
        ensures closes { IsClosedTable C.stands (fixed_of self) result.values.items result.last.value.me.0 }
    {
        let Turns { table, room } = self;
        let first = passes.remove(0);
        let first = take_in(&table.shared, first, passes);
        let last = Snapshot::of(&first);
        let values = emptied(table.close_with(first), room.open());
        Closed { values, last }
    }
}

// Takes in the other passes, in order.
fn take_in<C: TurnCell>(
    shared: &CellSteps<C>,
    mut first: Pass<C>,
    mut passes: Vec<Pass<C>>,
) -> Pass<C>
    requires some_word { 0 < shared.now.table_id.words }
    requires first { IsPass shared.now.table_id shared.now.key first × HoldsNone first × (first.me.0.got ≡ []) }
    requires others { Follow shared.now.table_id shared.now.key 1 passes.items }
    ensures same { IsPass shared.now.table_id shared.now.key result × HoldsNone result }
    ensures all { (result.me.0.made ≡ first.me.0.made) × (length result.me.0.got ≡ vec_len passes) }
    ensures own { (result.me.0.mine ≡ first.me.0.mine) × (result.me.0.got ≡ map own_of passes.items) }
{
    while !passes.is_empty() {
        let next = passes.remove(0);
        shared.join_seat::<Gather>(&mut first, next);
    }
    first
}

// The values of the slots, in order.
fn emptied<S>(mut closed: atomic_table::Closed<S, Global>, mut values: Vec<S>) -> Vec<S>
    requires full { IsFull closed.slots }
    requires room { (values.items ≡ []) × (slots_len closed.slots ≤ vec_capacity values) }
    ensures { result.items ≡ slots_items closed.slots }
{
    for i in 0..closed.slot_count() {
        values.push_reserved(closed.take(i));
    }
    closed.free();
    values
}
