//! Which slots are free.
//!
//! A bit for each slot tells whether it is free, and a bit for each word of these whether it has a bit. So the lowest free
//! slot is found without a look at each.
ghost use Rattle.std.specs.Prelude.{◌≡◌, ◌≢◌, ◌↔◌, ℕ, ◌<◌, ◌≤◌, ◌*◌, ◌⊎◌, IfOk, IfSome, IfNone, length};
ghost use Rattle.slot_lists.specs.Bits.{Has};

use crate::bits::Bits;
use std::alloc::{AllocError as NoMemory, Global};
use std::marker::Model;

/// Which of the slots from 0 up to a number that is fixed when this is made are free. A clause sees words of 64 bits, one bit
/// for each slot.
#[derive(Drop)]
pub struct FreeSlots {
    slots: Bits,
    words: Bits,
}

impl Model for FreeSlots {
    ghost use Rattle.std.specs.Prelude.{List, ℕ};
    ghost use Rattle.slot_lists.specs.Bits.{AreLevels};

    ghost Value = { List ℕ };

    ghost view = { λ f. f.slots };

    ghost invariant = { λ f. AreLevels f.slots f.words };
}

impl FreeSlots {
    /// So many slots, each of which is free.
    pub fn new(alloc: Global, slots: u32) -> Result<FreeSlots, NoMemory>
        ensures room { IfOk result (λ free. slots ≤ 64 * length free) }
        ensures all { IfOk result (λ free. (slot : ℕ) → Has free slot ↔ (slot < slots)) }
    {
        let mut free = FreeSlots::none(alloc, slots)?;
        for slot in 0..slots {
            free.add(slot);
        }
        Ok(free)
    }

    /// Room for so many slots, of which none is free.
    fn none(alloc: Global, slots: u32) -> Result<FreeSlots, NoMemory>
        ensures room { IfOk result (λ free. slots ≤ 64 * length free) }
        ensures none { IfOk result (λ free. (slot : ℕ) → ¬ Has free slot) }
    {
        let words = slots / 64 + 1;
        Ok(FreeSlots {
            slots: Bits::new(alloc, words)?,
            words: Bits::new(alloc, words / 64 + 1)?,
        })
    }

    /// The lowest free slot.
    pub fn lowest(&self) -> Option<usize>
        ensures has { IfSome result (λ slot. Has self.now slot) }
        ensures lowest { IfSome result (λ lowest. (slot : ℕ) → Has self.now slot → lowest ≤ slot) }
        ensures none { IfNone result ((slot : ℕ) → ¬ Has self.now slot) }
    {
        let word = self.words.lowest()?;
        Some(word * 64 + self.slots.lowest_in(word))
    }

    /// Makes the slot free.
    pub fn add(&mut self, slot: u32)
        requires { slot < 64 * length self.old }
        ensures room { length self.new ≡ length self.old }
        ensures has { (other : ℕ) → Has self.new other ↔ ((other ≡ slot) ⊎ Has self.old other) }
    {
        let slot = slot as usize;
        self.slots.set(slot);
        self.words.set(slot / 64);
    }

    /// The slot is free no more.
    pub fn remove(&mut self, slot: u32)
        requires { slot < 64 * length self.old }
        ensures room { length self.new ≡ length self.old }
        ensures has { (other : ℕ) → Has self.new other ↔ ((other ≢ slot) × Has self.old other) }
    {
        let slot = slot as usize;
        self.slots.clear(slot);
        if self.slots.is_empty(slot / 64) {
            self.words.clear(slot / 64);
        }
    }
}
