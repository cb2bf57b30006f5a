//! The tables.
ghost use Rattle.std.specs.Prelude.{◌≡◌, ◌^◌, ◌<◌, ◌∷◌, ℕ, Some, IfOk, length, map, slice_get, vec_len};
ghost use mathlib.Core.Option.{some};
ghost use lib.ListN.{get_elem?};
ghost use Rattle.ht_core.specs.Tables.{fresh};
ghost use Rattle.ht_core.specs.Shown.{state_of};
ghost use Rattle.turn_table.specs.Tables.{id_of, fixed_of};
ghost use Rattle.turn_table.specs.Passes.{HoldsNone, AreNewPasses, AreAllPasses, IsClosedTable, own_of};
ghost use Rattle.ht_shared.specs.Stands.{TableStands};
ghost use Rattle.ht_shared.specs.Shared.{IsTablesPass, specs_of, patterns_of, count_of, AppliesTo};

use crate::cell::{IsShown, Shown, TableCell, TablesFixed};
use ht_core::{TabOp, TabReply, Table};
use key_hash::HashState;
use pv_values::{Patterns, TableSpec};
use std::alloc::{AllocError as NoMemory, Global};
use std::snapshot::Snapshot;
use std::sync::Wait;
use turn_table::{Closed, Pass, Turns};

/// The tables of a script, which workers share.
#[derive(Drop)]
pub struct Tables {
    pub(crate) turns: Turns<TableCell>,
}

impl Tables {
    /// A table without items for each of these specifications, in order, and a pass for each number below `workers`. Keys
    /// are hashed with a fixed seed.
    pub fn new(
        alloc: Global,
        specs: &[TableSpec],
        patterns: &Patterns,
        workers: u32,
    ) -> Result<(Tables, Vec<Pass<TableCell>>), NoMemory>
        requires some_worker { 0 < workers }
        requires few { length specs.now < 2 ^ 32 }
        ensures specs { IfOk result (λ r. (specs_of r.0 ≡ specs.now) × (count_of r.0 ≡ length specs.now)) }
        ensures patterns { IfOk result (λ r. patterns_of r.0 ≡ patterns.now) }
        ensures passes { IfOk result (λ r. AreNewPasses (id_of r.0.turns) (fixed_of r.0.turns) workers r.1.items) }
    {
        Tables::with_hasher(alloc, specs, patterns, workers, HashState::Fixed)
    }

    /// The same, where keys are hashed by this.
    pub fn with_hasher(
        alloc: Global,
        specs: &[TableSpec],
        patterns: &Patterns,
        workers: u32,
        state: HashState,
    ) -> Result<(Tables, Vec<Pass<TableCell>>), NoMemory>
        requires some_worker { 0 < workers }
        requires few { length specs.now < 2 ^ 32 }
        ensures specs { IfOk result (λ r. (specs_of r.0 ≡ specs.now) × (count_of r.0 ≡ length specs.now)) }
        ensures patterns { IfOk result (λ r. patterns_of r.0 ≡ patterns.now) }
        ensures passes { IfOk result (λ r. AreNewPasses (id_of r.0.turns) (fixed_of r.0.turns) workers r.1.items) }
    {
        let fixed = TablesFixed {
            specs: Vec::from_slice(alloc, specs)?,
            patterns: Snapshot::of(patterns),
        };
        let cells = fresh_cells(alloc, specs, state)?;
        let (turns, passes) = Turns::new(alloc, cells, workers, &fixed)?;
        Ok((Tables { turns }, passes))
    }

    /// Does the operation on the table of this number, and waits while another worker does one on it. The reply is the one
    /// that the table gives at that place of its history; `now` earlier than an earlier operation's counts as that. The
    /// patterns are those that the tables were made with.
    pub fn apply<R: Wait>(
        &self,
        rt: &R,
        alloc: Global,
        pass: &mut Pass<TableCell>,
        table: u32,
        op: TabOp,
        patterns: &Patterns,
        now: u64,
    ) -> Result<TabReply, NoMemory>
        requires own { IsTablesPass self.now pass.old × HoldsNone pass.old }
        requires table { table < count_of self.now }
        requires patterns { patterns.now ≡ patterns_of self.now }
        ensures { AppliesTo self.now table (record { op = op; now = now; reply = result }) pass.old pass.new }
    {
        let asked = Snapshot::of(&op);
        let mut turn = self.turns.take(rt, pass, table);
        let reply = turn.value.table.apply(alloc, op, patterns, now);
        let shown = Shown {
            op: asked,
            now,
            reply: Snapshot::of(&reply),
        };
        self.turns.give_told::<IsShown, Shown>(pass, turn, &shown);
        reply
    }

    /// Ends the tables. It asks for all passes that `new` gave, in that order. It takes no memory.
    pub fn close(self, passes: Vec<Pass<TableCell>>) -> Closed<TableCell>
        requires { AreAllPasses (id_of self.turns) (fixed_of self.turns) passes.items }
        ensures count { vec_len result.values ≡ count_of self }
        ensures own { result.last.value.me.0.mine ∷ result.last.value.me.0.got ≡ map own_of passes.items }
        ensures closes { IsClosedTable TableStands (fixed_of self.turns) result.values.items result.last.value.me.0 }
    {
        let Tables { turns } = self;
        turns.close(passes)
    }
}

// A cell with a table without items for each specification. Keys are hashed by this.
fn fresh_cells(
    alloc: Global,
    specs: &[TableSpec],
    state: HashState,
) -> Result<Vec<TableCell>, NoMemory>
    ensures { IfOk result (λ v. map (λ c. state_of c.table.value) v.items ≡ map fresh specs.now) }
{
    let mut cells = Vec::with_capacity(alloc, specs.len())?;
    for k in 0..specs.len() {
        let table = Box::new(alloc, Table::with_hasher(alloc, specs[k], state)?)?;
        cells.push_reserved(TableCell { table });
    }
    Ok(cells)
}
