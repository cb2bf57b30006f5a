//! Two workers at one index, one wheel, one pool and one slot.
ghost use Rattle.std.specs.Prelude.{◌≡◌, ℕ, ◌+◌, ◌%◌, ◌^◌, ◌<◌};
ghost use Rattle.histories.specs.Runs.{Runs};
ghost use Rattle.turn_table.specs.Tables.{IsPassOf, id_of, fixed_of, cells_of};
ghost use Rattle.turn_table.specs.Passes.{HoldsNone, GoesOn, AreNewPasses};

use crate::tests::{FIRST, LOWER_HOST, OTHER_METHOD, new, old};
use crate::{
    Index, PoolCell, SlotCell, SlotValue, WheelCell, claim_key, clear_timer, find_key, free_blocks,
    free_slot, give_block, next_due, pop_due, set_timer, share_index, share_pool, share_wheel,
    take_block,
};
use histories::Same;
use std::alloc::{AllocError, Global};
use std::process::Abort;
use std::sync::Wait;
use std::test::Fail;
use std::thread::{Threads, join};
use timer_wheel::Timer;
use turn_table::{Closed, Pass, TurnCell, Turns};

// The passes of two workers.
fn both<C: TurnCell>(turns: &Turns<C>, mut passes: Vec<Pass<C>>) -> (Pass<C>, Pass<C>)
    requires { AreNewPasses (id_of turns.now) (fixed_of turns.now) 2 passes.items }
    ensures one { IsPassOf turns.now result.0 × HoldsNone result.0 }
    ensures two { IsPassOf turns.now result.1 × HoldsNone result.1 }
{
    let one = passes.remove(0);
    let two = passes.remove(0);
    (one, two)
}

#[test]
fn a_key_that_one_worker_claimed_is_held_for_the_other(rt: HostRuntime) -> Result<(), Fail> {
    let (index, passes) = share_index(rt.alloc(), 2, 2)?;
    let (mut one, mut two) = both(&index, passes);
    assert_eq!(rt; claim_key(&rt, &index, &mut one, FIRST)?, new(0, 0));
    assert_eq!(rt; claim_key(&rt, &index, &mut two, LOWER_HOST)?, old(0, 0));
    assert_eq!(rt; find_key(&rt, &index, &mut two, FIRST), Some((0, 0)));
    assert_eq!(rt; claim_key(&rt, &index, &mut two, OTHER_METHOD)?, new(1, 0));
    free_slot(&rt, &index, &mut one, 0);
    assert_eq!(rt; find_key(&rt, &index, &mut two, FIRST), None);
    assert_eq!(rt; claim_key(&rt, &index, &mut one, FIRST)?, new(0, 1));
    Ok(())
}

const TIMER: Timer = Timer {
    generation: 4,
    due: 70,
};

#[test]
fn a_timer_that_one_worker_set_is_popped_by_the_other(rt: HostRuntime) -> Result<(), Fail> {
    let (wheel, passes) = share_wheel(rt.alloc(), 2, 2)?;
    let (mut one, mut two) = both(&wheel, passes);
    set_timer(&rt, &wheel, &mut one, 1, TIMER);
    assert_eq!(rt; next_due(&rt, &wheel, &mut two), Some(70));
    assert_eq!(rt; pop_due(&rt, &wheel, &mut two, 69), None);
    assert_eq!(rt; pop_due(&rt, &wheel, &mut two, 70), Some((1, 4, 70)));
    assert_eq!(rt; pop_due(&rt, &wheel, &mut one, 70), None);
    set_timer(&rt, &wheel, &mut one, 0, TIMER);
    clear_timer(&rt, &wheel, &mut two, 0);
    assert_eq!(rt; next_due(&rt, &wheel, &mut one), None);
    Ok(())
}

#[test]
fn a_block_that_one_worker_took_is_out_for_the_other(rt: HostRuntime) -> Result<(), Fail> {
    let (pool, passes) = share_pool(rt.alloc(), 1, 2)?;
    let (mut one, mut two) = both(&pool, passes);
    let block = take_block(&rt, &pool, &mut one).ok_or("no block is free")?;
    assert_eq!(rt; free_blocks(&rt, &pool, &mut two), 0);
    assert!(rt; take_block(&rt, &pool, &mut two).is_none());
    give_block(&rt, &pool, &mut two, block);
    assert_eq!(rt; free_blocks(&rt, &pool, &mut one), 1);
    Ok(())
}

// Sets a timer for each slot.
fn set_all<R: Wait>(rt: &R, wheel: &Turns<WheelCell>, pass: &mut Pass<WheelCell>, slots: u32)
    requires own { IsPassOf wheel.now pass.old × HoldsNone pass.old }
    requires cell { (0 < cells_of wheel.now) × (fixed_of wheel.now ≡ slots) }
    ensures on { GoesOn pass.old pass.new }
{
    for slot in 0..slots {
        set_timer(rt, wheel, pass, slot, TIMER);
    }
}

// How many timers the worker popped in so many tries, and the sum of their slots.
fn pop_all<R: Wait>(
    rt: &R,
    wheel: &Turns<WheelCell>,
    mut pass: Pass<WheelCell>,
    tries: u32,
) -> (Pass<WheelCell>, u32, u32)
    requires own { IsPassOf wheel.now pass × HoldsNone pass }
    requires cell { 0 < cells_of wheel.now }
    ensures on { GoesOn pass result.0 }
{
    let mut popped = 0u32;
    let mut sum = 0u32;
    for _ in 0..tries {
        if let Some((slot, _, _)) = pop_due(rt, wheel, &mut pass, 70) {
            popped = popped.wrapping_add(1);
            sum = sum.wrapping_add(slot);
        }
    }
    (pass, popped, sum)
}

// How many timers two threads popped, and the sum of their slots.
fn pop_by_two<R: Threads + Wait + Sync>(rt: &R, alloc: Global) -> Result<(u32, u32), AllocError> {
    let (wheel, passes) = share_wheel(alloc, 200, 2)?;
    let (mut one, two) = both(&wheel, passes);
    set_all(rt, &wheel, &mut one, 200);
    let (one, two) = join(
        rt,
        || -> (Pass<WheelCell>, u32, u32)
            requires { IsPassOf wheel one × HoldsNone one × (0 < cells_of wheel) }
            ensures { GoesOn one result.0 }
        { pop_all(rt, &wheel, one, 200) },
        || -> (Pass<WheelCell>, u32, u32)
            requires { IsPassOf wheel two × HoldsNone two × (0 < cells_of wheel) }
            ensures { GoesOn two result.0 }
        { pop_all(rt, &wheel, two, 200) },
    );
    Ok((one.1.wrapping_add(two.1), one.2.wrapping_add(two.2)))
}

#[test]
fn each_timer_is_popped_by_one_thread(rt: HostRuntime) -> Result<(), Fail> {
    assert!(rt; pop_by_two(&rt, rt.alloc())? == (200, 19_900));
    Ok(())
}

// A slot's sum, which wraps. Its records are what was added; what lies beside it is the slot's number.
#[derive(Drop)]
struct Sum {
    value: u64,
}

impl SlotValue<u32> for Sum {
    type Record = u64;

    type Note = ();

    type Fixed = ();

    ghost stands = { λ f k sum number rs. (number ≡ k) × Runs (λ (old : ℕ) (r : ℕ) (new : ℕ). new ≡ (old + r) % 2 ^ 64) 0 rs sum.value };
}

// Adds to the sum of the first slot, and answers what it was.
fn add<R: Wait>(
    rt: &R,
    slots: &Turns<SlotCell<Sum, u32>>,
    pass: &mut Pass<SlotCell<Sum, u32>>,
    amount: u64,
) -> u64
    requires own { IsPassOf slots.now pass.old × HoldsNone pass.old }
    requires cell { 0 < cells_of slots.now }
    ensures on { GoesOn pass.old pass.new }
{
    let mut turn = slots.take(rt, pass, 0);
    let old = turn.value.value.value;
    turn.value.value.value = old.wrapping_add(amount);
    slots.give_told::<Same, u64>(pass, turn, &amount);
    old
}

#[test]
fn a_slot_is_a_cell(rt: HostRuntime) -> Result<(), Fail> {
    let mut cells = Vec::new(rt.alloc());
    cells.push(SlotCell {
        value: Sum { value: 0 },
        opener: 0,
    })?;
    let (slots, passes) = Turns::new(rt.alloc(), cells, 2, &())?;
    let (mut one, mut two) = both(&slots, passes);
    assert_eq!(rt; add(&rt, &slots, &mut one, 3), 0);
    assert_eq!(rt; add(&rt, &slots, &mut two, 4), 3);
    assert_eq!(rt; add(&rt, &slots, &mut one, 0), 7);
    Ok(())
}
