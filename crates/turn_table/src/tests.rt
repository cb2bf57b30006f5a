//! Cells that hold a sum: one that is taken while it is free, and several that threads add to.

ghost use Rattle.std.specs.Prelude.{◌≡◌, ℕ, ◌%◌, ◌^◌, ◌<◌, [], map, sum, length, slice_index_or, IfOk, vec_len};
ghost use Rattle.turn_table.specs.declared.tests.Worker.{Worker};
ghost use mathlib.Core.Option.{some};
ghost use lib.ListN.{get_elem?};
ghost use Rattle.histories.specs.Records.{records};
ghost use Rattle.turn_table.specs.Tables.{IsPassOf, id_of, fixed_of, cells_of};
ghost use Rattle.turn_table.specs.Passes.{HoldsNone, HoldsCell, history_of, AreNewPasses, AreAllPasses, GoesOn, IsSameSeat};

use crate::{Closed, Pass, Turn, TurnCell, Turns};
use histories::Same;
use std::alloc::{AllocError, Global};
use std::sync::Wait;
use std::test::Fail;
use std::thread;
use std::thread::Threads;

// A sum that wraps. Its records are what was added.
#[derive(Clone, Copy)]
struct Sum {
    value: u64,
}

impl TurnCell for Sum {
    type Record = u64;

    type Note = u64;

    type Fixed = ();

    ghost stands = { λ f k c rs. c.value ≡ sum rs % 2 ^ 64 };
}

// A table of sums that are 0.
fn zeros(
    alloc: Global,
    cells: u32,
    workers: u32,
) -> Result<(Turns<Sum>, Vec<Pass<Sum>>), AllocError>
    requires { 0 < workers }
    ensures cells { IfOk result (λ r. cells_of r.0 ≡ cells) }
    ensures passes { IfOk result (λ r. AreNewPasses (id_of r.0) (fixed_of r.0) workers r.1.items) }
{
    let sums = vec![in alloc; Sum { value: 0 }; cells as usize]?;
    Turns::new(alloc, sums, workers, &())
}

// Adds to a cell whose turn the pass has, and gives it back.
fn add(turns: &Turns<Sum>, pass: &mut Pass<Sum>, mut turn: Turn<Sum>, amount: u64)
    requires own { IsPassOf turns.now pass.old }
    requires holds { HoldsCell turn.cell pass.old × (turn.cell < cells_of turns.now) }
    requires right { turn.value.value ≡ sum (records (history_of pass.old turn.cell)) % 2 ^ 64 }
    ensures same { IsSameSeat pass.old pass.new }
    ensures on { GoesOn pass.old pass.new }
{
    let sum = turn.value();
    sum.value = sum.value.wrapping_add(amount);
    turns.give_told::<Same, u64>(pass, turn, &amount);
}

// Whether the cell could be taken. Then it has 1 more.
fn try_add(turns: &Turns<Sum>, pass: &mut Pass<Sum>, k: u32) -> bool
    requires own { IsPassOf turns.now pass.old × HoldsNone pass.old }
    requires cell { k < cells_of turns.now }
    ensures own { IsPassOf turns.now pass.new × HoldsNone pass.new }
{
    match turns.try_take(pass, k) {
        Some(turn) => {
            add(turns, pass, turn, 1);
            true
        }
        None => false,
    }
}

// Two cells for two workers.
fn pair(alloc: Global) -> Result<(Turns<Sum>, Pass<Sum>, Pass<Sum>), AllocError>
    ensures cells { IfOk result (λ r. cells_of r.0 ≡ 2) }
    ensures one { IfOk result (λ r. IsPassOf r.0 r.1 × HoldsNone r.1) }
    ensures two { IfOk result (λ r. IsPassOf r.0 r.2 × HoldsNone r.2) }
{
    let (turns, mut passes) = zeros(alloc, 2, 2)?;
    let one = passes.remove(0);
    let two = passes.remove(0);
    Ok((turns, one, two))
}

// Whether a free cell was taken, whether it was taken while it was held, whether the other one was then, and whether the first
// was once it was given back.
fn tries(alloc: Global) -> Result<[bool; 4], AllocError> {
    let (turns, mut one, mut two) = pair(alloc)?;
    let Some(turn) = turns.try_take(&mut one, 0) else {
        return Ok([false; 4]);
    };
    let held = try_add(&turns, &mut two, 0);
    let other = try_add(&turns, &mut two, 1);
    add(&turns, &mut one, turn, 1);
    let again = try_add(&turns, &mut two, 0);
    Ok([true, held, other, again])
}

#[test]
fn a_cell_is_taken_while_it_is_free(rt: HostRuntime) -> Result<(), Fail> {
    assert!(rt; tries(rt.alloc())? == [true, false, true, true]);
    Ok(())
}

// A worker's pass, and how many turns it takes.
#[derive(Drop)]
struct Worker {
    pass: Pass<Sum>,
    rounds: u32,
}

fn seated(alloc: Global, passes: Vec<Pass<Sum>>, rounds: u32) -> Result<Vec<Worker>, AllocError>
    ensures { IfOk result (λ v. v.items ≡ map (λ p. record { pass = p; rounds = rounds }) passes.items) }
{
    passes
        .into_iter()
        .map(|pass| Worker { pass, rounds })
        .collect(alloc)
}

fn unseated(alloc: Global, workers: Vec<Worker>) -> Result<Vec<Pass<Sum>>, AllocError>
    ensures { IfOk result (λ v. v.items ≡ map (λ w. w.pass) workers.items) }
{
    workers.into_iter().map(|worker| worker.pass).collect(alloc)
}

// Worker `number` adds 1000 to the power of its number to one cell after the other, but for as many of the last as its number.
fn work<R: Wait>(rt: &R, turns: &Turns<Sum>, worker: &mut Worker, number: usize, cells: u32)
    requires own { IsPassOf turns.now worker.old.pass × HoldsNone worker.old.pass }
    requires cells { (cells_of turns.now ≡ cells) × (0 < cells) }
    ensures on { GoesOn worker.old.pass worker.new.pass }
{
    const AMOUNTS: [u64; 4] = [1, 1_000, 1_000_000, 1_000_000_000];
    let used = ((number % 4) as u32).min(cells - 1);
    for round in 0..worker.rounds {
        let turn = turns.take(rt, &mut worker.pass, round % (cells - used));
        add(turns, &mut worker.pass, turn, AMOUNTS[number % 4]);
    }
    turns.note_told::<Same, u64>(&mut worker.pass, &7);
}

// Each worker adds in a thread of its own.
fn run_all<R: Threads + Wait + Sync>(rt: &R, turns: &Turns<Sum>, workers: &mut [Worker], cells: u32)
    requires own { (i : ℕ) (d : Worker) → i < length workers.old → IsPassOf turns.now (slice_index_or workers.old i d).pass × HoldsNone (slice_index_or workers.old i d).pass }
    requires cells { (cells_of turns.now ≡ cells) × (0 < cells) }
    ensures count { length workers.new ≡ length workers.old }
    ensures on { (i : ℕ) (d : Worker) → i < length workers.old → GoesOn (slice_index_or workers.old i d).pass (slice_index_or workers.new i d).pass }
{
    thread::for_each_mut(
        rt,
        workers,
        4,
        &|number: usize, worker: &mut Worker|
            requires { IsPassOf turns.now worker.now.pass × HoldsNone worker.now.pass × (cells_of turns.now ≡ cells) × (0 < cells) }
            ensures { GoesOn worker.entry.now.pass worker.exit.now.pass }
        { work(rt, turns, worker, number, cells) },
    );
}

// The passes after all workers added.
fn ran<R: Threads + Wait + Sync>(
    rt: &R,
    alloc: Global,
    turns: &Turns<Sum>,
    passes: Vec<Pass<Sum>>,
    cells: u32,
) -> Result<Vec<Pass<Sum>>, AllocError>
    requires passes { AreNewPasses (id_of turns.now) (fixed_of turns.now) (vec_len passes) passes.items }
    requires some { 0 < vec_len passes }
    requires cells { (cells_of turns.now ≡ cells) × (0 < cells) }
    ensures { IfOk result (λ v. AreAllPasses (id_of turns.now) (fixed_of turns.now) v.items) }
{
    let mut workers = seated(alloc, passes, 840)?;
    run_all(rt, turns, workers.as_mut_slice(), cells);
    let passes = unseated(alloc, workers)?;
    Ok(passes)
}

// What so many workers leave in so many cells.
fn sums<R: Threads + Wait + Sync>(
    rt: &R,
    alloc: Global,
    cells: u32,
    workers: u32,
) -> Result<Vec<u64>, AllocError>
    requires { (0 < cells) × (0 < workers) }
{
    let (turns, passes) = zeros(alloc, cells, workers)?;
    let passes = ran(rt, alloc, &turns, passes, cells)?;
    let Closed { values, last: _ } = turns.close(passes);
    values
        .into_iter()
        .map(|value| match value {
            Some(sum) => sum.value,
            None => 0,
        })
        .collect(alloc)
}

#[test]
fn the_values_at_the_end_are_what_was_added(rt: HostRuntime) -> Result<(), Fail> {
    assert!(rt; sums(&rt, rt.alloc(), 1, 2)?.as_slice() == [840_840].as_slice());
    // 840 turns each, over 8, 7, 6 and 5 cells.
    let most = 168_140_120_105;
    let want = [most, most, most, most, most, 140_120_105, 120_105, 105];
    assert!(rt; sums(&rt, rt.alloc(), 8, 4)?.as_slice() == want.as_slice());
    Ok(())
}
