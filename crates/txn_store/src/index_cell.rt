//! The index, which workers share: the one cell of its table. Each call is one turn of it.
ghost use Rattle.std.specs.Prelude.{◌≡◌, ◌<◌, IfOk};
ghost use Rattle.server_key.specs.Keys.{shown_key};
ghost use Rattle.turn_table.specs.Tables.{IsPassOf, id_of, fixed_of, cells_of};
ghost use Rattle.turn_table.specs.Passes.{HoldsNone, AreNewPasses};
ghost use Rattle.turn_table.specs.Objects.{DidInTurn};
ghost use Rattle.txn_store.specs.Places.{vacant_places};
ghost use Rattle.txn_store.specs.Records.{IndexStep};
ghost use Rattle.txn_store.specs.Cells.{IndexStands};
ghost use Rattle.txn_store.specs.declared.record.IndexRecord.TheVariants as recorded;

use crate::index::{Index, IndexEnd};
use crate::record::IndexRecord;
use histories::{Same, Telling};
use key_hash::HashState;
use server_key::KeyView;
use std::alloc::{AllocError as NoMemory, Global};
use std::snapshot::Snapshot;
use std::sync::Wait;
use turn_table::{Pass, TurnCell, Turns};

// The fixed part is the number of slots.
impl TurnCell for Index {
    type Record = IndexRecord;

    type Note = ();

    type Fixed = u32;

    ghost stands = { IndexStands };
}

/// A key as contracts see it, with what was answered.
#[derive(Drop)]
struct Asked<'a, T> {
    key: Snapshot<KeyView<'a>>,
    answer: T,
}

/// The record is this claim, or this look-up.
struct IsAsked;

impl<'a> Telling<Asked<'a, Result<IndexEnd, NoMemory>>, IndexRecord> for IsAsked {
    ghost told = { λ asked r. r ≡ recorded.Claim (shown_key asked.key.value) asked.answer };
}

impl<'a> Telling<Asked<'a, Option<(u32, u64)>>, IndexRecord> for IsAsked {
    ghost told = { λ asked r. r ≡ recorded.Find (shown_key asked.key.value) asked.answer };
}

/// An index of this many slots, which hold no key, and a pass for each number below `workers`. Keys are
/// hashed with a fixed seed.
pub fn share_index(
    alloc: Global,
    slots: u32,
    workers: u32,
) -> Result<(Turns<Index>, Vec<Pass<Index>>), NoMemory>
    requires { 0 < workers }
    ensures cell { IfOk result (λ r. (cells_of r.0 ≡ 1) × (fixed_of r.0 ≡ slots)) }
    ensures passes { IfOk result (λ r. AreNewPasses (id_of r.0) slots workers r.1.items) }
{
    share_index_with_hasher(alloc, slots, workers, HashState::Fixed)
}

/// `share_index` of an index whose keys are hashed by this.
pub fn share_index_with_hasher(
    alloc: Global,
    slots: u32,
    workers: u32,
    state: HashState,
) -> Result<(Turns<Index>, Vec<Pass<Index>>), NoMemory>
    requires { 0 < workers }
    ensures cell { IfOk result (λ r. (cells_of r.0 ≡ 1) × (fixed_of r.0 ≡ slots)) }
    ensures passes { IfOk result (λ r. AreNewPasses (id_of r.0) slots workers r.1.items) }
{
    let mut cells = Vec::with_capacity(alloc, 1)?;
    cells.push_reserved(Index::with_hasher(alloc, slots, state)?);
    Turns::new(alloc, cells, workers, &slots)
}

/// `Index::claim` of the shared index. It waits while another worker has the index.
pub fn claim_key<R: Wait>(
    rt: &R,
    index: &Turns<Index>,
    pass: &mut Pass<Index>,
    key: KeyView,
) -> Result<IndexEnd, NoMemory>
    requires own { IsPassOf index.now pass.old × HoldsNone pass.old }
    requires cell { 0 < cells_of index.now }
    ensures { DidInTurn IndexStep (vacant_places (fixed_of index.now)) 0 (recorded.Claim (shown_key key.entry) result) pass.old pass.new }
{
    let mut turn = index.take(rt, pass, 0);
    let end = turn.value.claim(key);
    let asked = Asked {
        key: Snapshot::of(&key),
        answer: end,
    };
    index.give_told::<IsAsked, Asked<'_, Result<IndexEnd, NoMemory>>>(pass, turn, &asked);
    end
}

/// `Index::find` of the shared index. It waits while another worker has the index.
pub fn find_key<R: Wait>(
    rt: &R,
    index: &Turns<Index>,
    pass: &mut Pass<Index>,
    key: KeyView,
) -> Option<(u32, u64)>
    requires own { IsPassOf index.now pass.old × HoldsNone pass.old }
    requires cell { 0 < cells_of index.now }
    ensures { DidInTurn IndexStep (vacant_places (fixed_of index.now)) 0 (recorded.Find (shown_key key.entry) result) pass.old pass.new }
{
    let turn = index.take(rt, pass, 0);
    let at = turn.value.find(key);
    let asked = Asked {
        key: Snapshot::of(&key),
        answer: at,
    };
    index.give_told::<IsAsked, Asked<'_, Option<(u32, u64)>>>(pass, turn, &asked);
    at
}

/// `Index::free` of the shared index. It waits while another worker has the index.
pub fn free_slot<R: Wait>(rt: &R, index: &Turns<Index>, pass: &mut Pass<Index>, slot: u32)
    requires own { IsPassOf index.now pass.old × HoldsNone pass.old }
    requires cell { 0 < cells_of index.now }
    requires slot { slot < fixed_of index.now }
    ensures { DidInTurn IndexStep (vacant_places (fixed_of index.now)) 0 (recorded.Free slot) pass.old pass.new }
{
    let mut turn = index.take(rt, pass, 0);
    turn.value.free(slot);
    index.give_told::<Same, IndexRecord>(pass, turn, &IndexRecord::Free { slot });
}
