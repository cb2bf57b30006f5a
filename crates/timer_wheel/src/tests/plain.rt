//! The plain program: a list by slot that is searched whole.
ghost use Rattle.std.specs.Prelude.{◌≡◌, ℕ, ◌^◌, ◌<◌, IfOk, IfSome, length};

use crate::wheel::Timer;
use std::alloc::{AllocError as NoMemory, Global};
use std::marker::Model;

/// The timers by slot.
#[derive(Drop)]
pub struct Plain {
    timers: Vec<Option<Timer>>,
}

impl Model for Plain {
    ghost use Rattle.std.specs.Prelude.{List, Option, ◌<◌, ◌^◌, length};
    ghost use Rattle.timer_wheel.specs.declared.wheel.Timer.{Timer};

    ghost Value = { List (Option Timer) };

    ghost view = { λ w. w.timers.items };

    ghost invariant = { λ w. length w.timers.items < 2 ^ 32 };
}

impl Plain {
    pub fn new(alloc: Global, slots: u32) -> Result<Plain, NoMemory>
        ensures { IfOk result (λ plain. length plain ≡ slots) }
    {
        let timers = vec![in alloc; None; slots as usize]?;
        Ok(Plain { timers })
    }

    pub fn set(&mut self, slot: u32, generation: u64, due: u64)
        requires { slot < length self.old }
        ensures { length self.new ≡ length self.old }
    {
        self.timers[slot as usize] = Some(Timer { generation, due });
    }

    pub fn clear(&mut self, slot: u32)
        requires { slot < length self.old }
        ensures { length self.new ≡ length self.old }
    {
        self.timers[slot as usize] = None;
    }

    pub fn pop_due(&mut self, now: u64) -> Option<(u32, u64, u64)>
        ensures { length self.new ≡ length self.old }
    {
        let (slot, timer) = first(self.timers.as_slice())?;
        if timer.due > now {
            return None;
        }
        self.clear(slot);
        Some((slot, timer.generation, timer.due))
    }

    pub fn next_due(&self) -> Option<u64> {
        let (_, timer) = first(self.timers.as_slice())?;
        Some(timer.due)
    }
}

/// The timer that goes off first, and its slot.
fn first(timers: &[Option<Timer>]) -> Option<(u32, Timer)>
    requires { length timers.now < 2 ^ 32 }
    ensures { IfSome result (λ found. found.0 < length timers.now) }
{
    let mut found: Option<(u32, Timer)> = None;
    for slot in 0..timers.len() {
        if let Some(timer) = timers[slot]
            && is_earlier(timer, found)
        {
            found = Some((slot as u32, timer));
        }
    }
    found
}

/// Whether the timer is due earlier than the one that was found before it.
fn is_earlier(timer: Timer, found: Option<(u32, Timer)>) -> bool {
    match found {
        Some((_, earliest)) => timer.due < earliest.due,
        None => true,
    }
}
