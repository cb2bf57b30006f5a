//! How the claims are made, and how they end.
ghost use Rattle.std.specs.Prelude.{◌≡◌, ◌+◌, ◌^◌, ◌<◌, ◌≤◌, ◌++◌, [], ◌∷◌, ℕ, List, IfOk, length, map, replicate, vec_len};
ghost use Rattle.std.specs.Vec.{vec_capacity};
ghost use mathlib.Core.Option.{some};
ghost use lib.ListN.{get_elem?};
ghost use Rattle.claim_words.specs.Claims.{ClaimsClosed, AreNumbered, IsDesk, maker, desk};
ghost use Rattle.claim_words.specs.Owned.{id_of, slots_of, workers_of, IsNewOpener, IsNewPass};

use crate::claims::{ClaimPass, Claims, Opener};
use crate::steps::{ClaimSeat, DealClaimSeat, GatherClaimSeat, Words};
use atomic_table::Table;
use std::alloc::{AllocError, Global};
use std::snapshot::Snapshot;

/// What is left of claims: in `last` all that the passes and Openers saw and did, for contracts alone.
#[derive(Drop)]
pub struct ClosedClaims {
    pub last: Snapshot<ClaimSeat>,
}

// Makes the passes.
fn deal_claim_passes(
    words: &Words,
    dealer: &mut ClaimSeat,
    passes: &mut Vec<ClaimPass>,
    workers: u32,
)
    requires maker { (dealer.old.table_id ≡ words.now.table_id) × (dealer.old.me ≡ (maker workers 0, [])) × (words.now.key.1 ≡ workers) × (0 < words.now.table_id.words) }
    requires room { (passes.old.items ≡ []) × (workers ≤ vec_capacity passes.old) }
    ensures maker { (dealer.new.table_id ≡ words.now.table_id) × (dealer.new.me ≡ (maker workers workers, [])) }
    ensures count { vec_len passes.new ≡ workers }
    ensures passes { (i : ℕ) (p : _) → get_elem? passes.new.items i ≡ some p → (p.seat.table_id ≡ words.now.table_id) × (p.seat.me ≡ (desk i 0, [])) × (p.number ≡ i) }
{
    for number in 0..workers {
        let seat = words.split_seat::<DealClaimSeat>(dealer);
        passes.push_reserved(ClaimPass { seat, number });
    }
}

// Makes the Openers.
fn deal_openers(
    words: &Words,
    dealer: &mut ClaimSeat,
    openers: &mut Vec<Opener>,
    workers: u32,
    slots: u32,
)
    requires maker { (dealer.old.table_id ≡ words.now.table_id) × (dealer.old.me ≡ (maker workers workers, [])) × (words.now.key ≡ (slots, workers)) × (0 < words.now.table_id.words) × (workers + slots < 2 ^ 32) }
    requires room { (openers.old.items ≡ []) × (slots ≤ vec_capacity openers.old) }
    ensures count { vec_len openers.new ≡ slots }
    ensures openers { (k : ℕ) (p : _) → get_elem? openers.new.items k ≡ some p → (p.seat.table_id ≡ words.now.table_id) × (p.seat.me ≡ (desk (workers + k) k, [])) × (p.slot ≡ k) × (p.last ≡ 0) }
{
    for slot in 0..slots {
        let seat = words.split_seat::<DealClaimSeat>(dealer);
        openers.push_reserved(Opener {
            seat,
            slot,
            last: 0,
        });
    }
}

// Takes in the passes that follow, in order.
fn take_passes(words: &Words, mut first: ClaimSeat, mut passes: Vec<ClaimPass>) -> ClaimSeat
    requires first { IsDesk words.now.table_id 0 first × (0 < words.now.table_id.words) }
    requires others { AreNumbered (λ p. p.seat) words.now.table_id (length first.me.0.got + 1) passes.items }
    ensures same { IsDesk words.now.table_id 0 result × (result.me.0.mine ≡ first.me.0.mine) }
    ensures own { result.me.0.got ≡ first.me.0.got ++ map (λ p. p.seat.me.0.mine) passes.items }
{
    while !passes.is_empty() {
        let ClaimPass { seat, number: _ } = passes.remove(0);
        words.join_seat::<GatherClaimSeat>(&mut first, seat);
    }
    first
}

// Takes in the Openers, in order.
fn take_openers(words: &Words, mut first: ClaimSeat, mut openers: Vec<Opener>) -> ClaimSeat
    requires first { IsDesk words.now.table_id 0 first × (0 < words.now.table_id.words) }
    requires others { AreNumbered (λ p. p.seat) words.now.table_id (length first.me.0.got + 1) openers.items }
    ensures same { IsDesk words.now.table_id 0 result × (result.me.0.mine ≡ first.me.0.mine) }
    ensures own { result.me.0.got ≡ first.me.0.got ++ map (λ p. p.seat.me.0.mine) openers.items }
{
    while !openers.is_empty() {
        let Opener {
            seat,
            slot: _,
            last: _,
        } = openers.remove(0);
        words.join_seat::<GatherClaimSeat>(&mut first, seat);
    }
    first
}

impl Claims {
    /// Claims of so many slots, with an Opener for each slot and a pass for each worker.
    pub fn new(
        alloc: Global,
        slots: u32,
        workers: u32,
    ) -> Result<(Claims, Vec<Opener>, Vec<ClaimPass>), AllocError>
        requires { (0 < slots) × (0 < workers) × (workers + slots < 2 ^ 32) }
        ensures key { IfOk result (λ r. (slots_of r.0 ≡ slots) × (workers_of r.0 ≡ workers)) }
        ensures counts { IfOk result (λ r. (vec_len r.1 ≡ slots) × (vec_len r.2 ≡ workers)) }
        ensures openers { IfOk result (λ r. (k : ℕ) (p : _) → get_elem? r.1.items k ≡ some p → IsNewOpener r.0 k p) }
        ensures passes { IfOk result (λ r. (i : ℕ) (p : _) → get_elem? r.2.items i ≡ some p → IsNewPass r.0 i p) }
    {
        let mut openers = Vec::with_capacity(alloc, slots as usize)?;
        let mut passes = Vec::with_capacity(alloc, workers as usize)?;
        let words = vec![in alloc; 0; slots as usize]?;
        let (table, mut dealer) = Table::of_words(alloc, words.as_slice(), &(slots, workers))?;
        deal_claim_passes(&table.shared, &mut dealer, &mut passes, workers);
        deal_openers(&table.shared, &mut dealer, &mut openers, workers, slots);
        Ok((Claims { table }, openers, passes))
    }

    /// Ends the claims, given all passes and all Openers in order. Takes no memory.
    pub fn close(self, mut passes: Vec<ClaimPass>, openers: Vec<Opener>) -> ClosedClaims
        requires passes { (vec_len passes ≡ workers_of self) × (0 < vec_len passes) × AreNumbered (λ p. p.seat) (id_of self) 0 passes.items }
        requires openers { (vec_len openers ≡ slots_of self) × AreNumbered (λ p. p.seat) (id_of self) (workers_of self) openers.items }
        requires fresh { (p : _) → get_elem? passes.items 0 ≡ some p → p.seat.me.0.got ≡ [] }
        ensures own { result.last.value.me.0.mine ∷ result.last.value.me.0.got ≡ map (λ p. p.seat.me.0.mine) passes.items ++ map (λ p. p.seat.me.0.mine) openers.items }
        ensures closes { ClaimsClosed (workers_of self) (slots_of self) result.last.value.me.0 }
    {
        let Claims { table } = self;
        let ClaimPass { seat, number: _ } = passes.remove(0);
        let first = take_passes(&table.shared, seat, passes);
        let first = take_openers(&table.shared, first, openers);
        let last = Snapshot::of(&first);
        let closed = table.close_with(first);
        closed.free();
        ClosedClaims { last }
    }
}
