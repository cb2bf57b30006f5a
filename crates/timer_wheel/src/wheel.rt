//! The wheel.
ghost use Rattle.std.specs.Prelude.{◌≡◌, ◌≢◌, ℕ, ◌^◌, ◌<◌, ◌≤◌, Some, None, Option, List, IfOk, IfSome, IfNone, IsSome, IsTrue, ◌↔◌, MatchOption, length, replicate, slice_set};
ghost use Rattle.timer_wheel.specs.Timers.{Timers, HasTimer, IsFirst, IsIdle, IsLeastDue, NoneIsDue};
ghost use Rattle.timer_wheel.specs.Records.{WheelStep};
ghost use Rattle.timer_wheel.specs.Wheels.{IsKnown};
ghost use Rattle.timer_wheel.specs.declared.record.WheelRecord.TheVariants as recorded;

use crate::levels::{HIGHER, list_at};
use crate::lists::{Lists, goes_before};
use std::alloc::{AllocError as NoMemory, Global};
use std::marker::Model;

/// A slot's timer.
#[derive(Clone, Copy, Debug, PartialEq, Eq)]
pub struct Timer {
    /// The generation of the slot for which it was set.
    pub generation: u64,
    /// The moment when it is due, in milliseconds.
    pub due: u64,
}

/// The timers of the slots from 0 up to a number that is fixed when the wheel is made. A clause sees the list of them by
/// slot, with None where a slot has no timer.
///
/// It is a hierarchical timing wheel (Varghese and Lauck, 1987, scheme 7): each slot is in the list of the moment when its timer
/// is due. `last` is the wheel's last moment. `known` is the timer that goes off first; it is None where no timer is set, or while
/// a call looks for it.
#[derive(Drop)]
pub struct Wheel {
    timers: Vec<Option<Timer>>,
    lists: Lists,
    last: u64,
    known: Option<(u32, Timer)>,
}

impl Model for Wheel {
    ghost use Rattle.std.specs.Prelude.{List, Option, ◌<◌, ◌^◌, length};
    ghost use Rattle.timer_wheel.specs.declared.wheel.Timer.{Timer};

    ghost Value = { List (Option Timer) };

    ghost use Rattle.timer_wheel.specs.Wheels.{IsWheel};

    ghost view = { λ w. w.timers.items };

    ghost invariant = { λ w. IsWheel w.timers.items w.lists w.last w.known };
}

impl Wheel {
    /// A wheel of this many slots, in which no timer is set.
    pub fn new(alloc: Global, slots: u32) -> Result<Wheel, NoMemory>
        ensures { IfOk result (λ wheel. wheel ≡ replicate slots None) }
    {
        let timers = vec![in alloc; None; slots as usize]?;
        let lists = Lists::new(alloc, slots)?;
        Ok(Wheel {
            timers,
            lists,
            last: 0,
            known: None,
        })
    }

    /// Sets the slot's timer, in place of the one that it may have had.
    pub fn set(&mut self, slot: u32, generation: u64, due: u64)
        requires { slot < length self.old }
        ensures set { self.new ≡ slice_set self.old slot (Some (record { generation = generation; due = due })) }
        ensures step { WheelStep self.old (recorded.Set slot (record { generation = generation; due = due })) self.new }
    {
        let timer = Timer { generation, due };
        self.lists.take_out(slot);
        self.lists.put_in(slot, list_at(self.last, due));
        self.timers[slot as usize] = Some(timer);
        self.known = known_after_set(self.known, slot, timer);
        self.settle();
    }

    /// Takes away the slot's timer, if it has one.
    pub fn clear(&mut self, slot: u32)
        requires { slot < length self.old }
        ensures cleared { self.new ≡ slice_set self.old slot None }
        ensures step { WheelStep self.old (recorded.Clear slot) self.new }
    {
        self.lists.take_out(slot);
        self.timers[slot as usize] = None;
        self.known = known_after_clear(self.known, slot);
        self.settle();
    }

    /// Takes away the timer that goes off first, where it is due at `now`, and answers its slot, its generation and the
    /// moment when it was due.
    pub fn pop_due(&mut self, now: u64) -> Option<(u32, u64, u64)>
        ensures first { IfSome result (λ popped. IsFirst self.old popped.0 (record { generation = popped.1; due = popped.2 })) }
        ensures due { IfSome result (λ popped. popped.2 ≤ now) }
        ensures removed { IfSome result (λ popped. self.new ≡ slice_set self.old popped.0 None) }
        ensures in_range { IfSome result (λ popped. popped.0 < length self.old) }

        // None comes exactly where no timer is due.
        ensures none_is_due { IfNone result (NoneIsDue self.old now) }
        ensures unchanged { IfNone result (self.new ≡ self.old) }
        ensures slots { length self.new ≡ length self.old }
        ensures step { WheelStep self.old (recorded.Pop now result) self.new }
    {
        let (slot, timer) = self.first()?;
        self.turn_to(now.min(timer.due));
        if timer.due > now {
            return None;
        }
        self.clear(slot);
        Some((slot, timer.generation, timer.due))
    }

    /// The least moment at which a timer is due.
    pub fn next_due(&self) -> Option<u64>
        ensures least { IfSome result (IsLeastDue self.now) }
        ensures idle { IfNone result (IsIdle self.now) }
        ensures step { WheelStep self.now (recorded.Next result) self.now }
    {
        let (_, timer) = self.first()?;
        Some(timer.due)
    }

    /// The timer that goes off first, and its slot.
    fn first(&self) -> Option<(u32, Timer)>
        ensures first { IfSome result (λ found. IsFirst self.now found.0 found.1) }
        ensures idle { IfNone result (IsIdle self.now) }
    {
        if self.known.is_some() {
            return self.known;
        }
        let list = self.lists.first()?;
        self.lists.earliest(list, self.timers.as_slice())
    }

    /// Finds out which timer goes off first, where that isn't known. Where it is in a long list the wheel turns to its moment, so
    /// that the slots of that list are found in shorter ones from now on.
    fn settle(&mut self)
        ensures { self.new ≡ self.old }
    {
        if self.known.is_some() {
            return;
        }
        let Some((slot, timer)) = self.first() else {
            return;
        };
        self.known = Some((slot, timer));
        if self.lists.is_long(list_at(self.last, timer.due)) {
            self.turn_to(timer.due);
        }
    }

    /// Makes this moment, before which no timer is due, the wheel's last one, if it isn't before that. The slots that are in the
    /// list of this moment move to lower levels; the others stay in their lists.
    fn turn_to(&mut self, now: u64)
        requires { (slot : ℕ) (timer : _) → HasTimer self.old slot timer → now ≤ timer.due }
        ensures { self.new ≡ self.old }
    {
        if now <= self.last {
            return;
        }
        let list = list_at(self.last, now);
        if list < HIGHER {
            self.last = now;
            return;
        }
        while let Some(slot) = self.lists.oldest(list) {
            self.lists.take_out(slot);
            if let Some(timer) = self.timers[slot as usize] {
                self.lists.put_in(slot, list_at(now, timer.due));
            }
        }
        self.last = now;
    }
}

/// What is known of the first timer, when the slot's timer has been set.
fn known_after_set(known: Option<(u32, Timer)>, slot: u32, timer: Timer) -> Option<(u32, Timer)>
    ensures known { (timers : Timers) → slot < length timers → IsKnown timers known → IsKnown (slice_set timers slot (Some timer)) result }
    ensures kept { IfSome known (λ first. first.0 ≢ slot → IsSome result) }
{
    let (first, _) = known?;
    if goes_before(slot, timer, known) {
        Some((slot, timer))
    } else if first == slot {
        None
    } else {
        known
    }
}

/// What is known of the first timer, when the slot's timer has been taken away.
fn known_after_clear(known: Option<(u32, Timer)>, slot: u32) -> Option<(u32, Timer)>
    ensures known { (timers : Timers) → IsKnown timers known → IsKnown (slice_set timers slot None) result }
    ensures kept { IfSome known (λ first. first.0 ≢ slot → result ≡ known) }
{
    let (first, _) = known?;
    if first == slot { None } else { known }
}
