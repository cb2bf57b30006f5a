//! The wheel of timers, which workers share: the one cell of its table. Each call is one turn of it.
ghost use Rattle.std.specs.Prelude.{◌≡◌, ◌<◌, IfOk, IfSome};
ghost use Rattle.timer_wheel.specs.Records.{WheelStep};
ghost use Rattle.timer_wheel.specs.declared.record.WheelRecord.TheVariants as recorded;
ghost use Rattle.turn_table.specs.Tables.{IsPassOf, id_of, fixed_of, cells_of};
ghost use Rattle.turn_table.specs.Passes.{HoldsNone, AreNewPasses};
ghost use Rattle.turn_table.specs.Objects.{DidInTurn};
ghost use Rattle.txn_store.specs.Cells.{WheelStands, idle_wheel};

use histories::Same;
use std::alloc::{AllocError as NoMemory, Global};
use std::sync::Wait;
use timer_wheel::{Timer, Wheel, WheelRecord};
use turn_table::{Pass, TurnCell, Turns};

/// A wheel that workers take turns at.
#[derive(Drop)]
pub struct WheelCell {
    pub wheel: Wheel,
}

// The fixed part is the number of slots.
impl TurnCell for WheelCell {
    type Record = WheelRecord;

    type Note = ();

    type Fixed = u32;

    ghost stands = { WheelStands };
}

/// A wheel of this many slots, in which no timer is set, and a pass for each number below `workers`.
pub fn share_wheel(
    alloc: Global,
    slots: u32,
    workers: u32,
) -> Result<(Turns<WheelCell>, Vec<Pass<WheelCell>>), NoMemory>
    requires { 0 < workers }
    ensures cell { IfOk result (λ r. (cells_of r.0 ≡ 1) × (fixed_of r.0 ≡ slots)) }
    ensures passes { IfOk result (λ r. AreNewPasses (id_of r.0) slots workers r.1.items) }
{
    let mut cells = Vec::with_capacity(alloc, 1)?;
    let wheel = Wheel::new(alloc, slots)?;
    cells.push_reserved(WheelCell { wheel });
    Turns::new(alloc, cells, workers, &slots)
}

/// `Wheel::set` of the shared wheel. It waits while another worker has the wheel.
pub fn set_timer<R: Wait>(
    rt: &R,
    wheel: &Turns<WheelCell>,
    pass: &mut Pass<WheelCell>,
    slot: u32,
    timer: Timer,
)
    requires own { IsPassOf wheel.now pass.old × HoldsNone pass.old }
    requires cell { 0 < cells_of wheel.now }
    requires slot { slot < fixed_of wheel.now }
    ensures { DidInTurn WheelStep (idle_wheel (fixed_of wheel.now)) 0 (recorded.Set slot timer) pass.old pass.new }
{
    let mut turn = wheel.take(rt, pass, 0);
    turn.value.wheel.set(slot, timer.generation, timer.due);
    wheel.give_told::<Same, WheelRecord>(pass, turn, &WheelRecord::Set { slot, timer });
}

/// `Wheel::clear` of the shared wheel. It waits while another worker has the wheel.
pub fn clear_timer<R: Wait>(rt: &R, wheel: &Turns<WheelCell>, pass: &mut Pass<WheelCell>, slot: u32)
    requires own { IsPassOf wheel.now pass.old × HoldsNone pass.old }
    requires cell { 0 < cells_of wheel.now }
    requires slot { slot < fixed_of wheel.now }
    ensures { DidInTurn WheelStep (idle_wheel (fixed_of wheel.now)) 0 (recorded.Clear slot) pass.old pass.new }
{
    let mut turn = wheel.take(rt, pass, 0);
    turn.value.wheel.clear(slot);
    wheel.give_told::<Same, WheelRecord>(pass, turn, &WheelRecord::Clear { slot });
}

/// `Wheel::pop_due` of the shared wheel. It waits while another worker has the wheel.
pub fn pop_due<R: Wait>(
    rt: &R,
    wheel: &Turns<WheelCell>,
    pass: &mut Pass<WheelCell>,
    now: u64,
) -> Option<(u32, u64, u64)>
    requires own { IsPassOf wheel.now pass.old × HoldsNone pass.old }
    requires cell { 0 < cells_of wheel.now }
    ensures slot { IfSome result (λ popped. popped.0 < fixed_of wheel.now) }
    ensures did { DidInTurn WheelStep (idle_wheel (fixed_of wheel.now)) 0 (recorded.Pop now result) pass.old pass.new }
{
    let mut turn = wheel.take(rt, pass, 0);
    let popped = turn.value.wheel.pop_due(now);
    wheel.give_told::<Same, WheelRecord>(pass, turn, &WheelRecord::Pop { now, popped });
    popped
}

/// `Wheel::next_due` of the shared wheel. It waits while another worker has the wheel.
pub fn next_due<R: Wait>(
    rt: &R,
    wheel: &Turns<WheelCell>,
    pass: &mut Pass<WheelCell>,
) -> Option<u64>
    requires own { IsPassOf wheel.now pass.old × HoldsNone pass.old }
    requires cell { 0 < cells_of wheel.now }
    ensures { DidInTurn WheelStep (idle_wheel (fixed_of wheel.now)) 0 (recorded.Next result) pass.old pass.new }
{
    let turn = wheel.take(rt, pass, 0);
    let due = turn.value.wheel.next_due();
    wheel.give_told::<Same, WheelRecord>(pass, turn, &WheelRecord::Next { due });
    due
}
