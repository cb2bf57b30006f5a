//! Lists of slots.
//!
//! Each list goes through its slots in the order of their numbers, by links, so what the links are follows from which slots
//! are in the list.
ghost use Rattle.std.specs.Prelude.{◌≡◌, ℕ, ◌+◌, ◌<◌, ◌≤◌, ◌^◌, Some, None, IfOk, IfSome, MatchOption, length, replicate, slice_get};
ghost use Rattle.slot_lists.specs.Lists.{IsIn, IsNextIn, IsLastBelow, placed};

use std::alloc::{AllocError as NoMemory, Global};
use std::marker::Model;

/// Slots from 0 up to a number that is fixed when this is made, each in one of the lists or in none. A clause sees how many
/// lists there are, and by slot the list in which it is.
#[derive(Drop)]
pub struct Lists {
    places: Vec<Option<u32>>,
    first: Vec<Option<u32>>,
    next: Vec<Option<u32>>,
}

impl Model for Lists {
    ghost use Rattle.std.specs.Prelude.{length};
    ghost use Rattle.slot_lists.specs.Lists.{Listed, AreLists};

    ghost Value = { Listed };

    ghost view = { λ l. record { lists = length l.first.items; places = l.places.items } };

    ghost invariant = { λ l. AreLists l.places.items l.first.items l.next.items };
}

impl Lists {
    /// So many slots, none in a list, and so many lists.
    pub fn new(alloc: Global, slots: u32, lists: u32) -> Result<Lists, NoMemory>
        ensures { IfOk result (λ made. made ≡ record { lists = lists; places = replicate slots None }) }
    {
        let places = no_numbers(alloc, slots as usize)?;
        let first = no_numbers(alloc, lists as usize)?;
        let next = no_numbers(alloc, slots as usize)?;
        Ok(Lists {
            places,
            first,
            next,
        })
    }

    /// How many lists there are.
    pub fn lists(&self) -> u32
        ensures { result ≡ self.now.lists }
    {
        self.first.len() as u32
    }

    /// The lowest slot of the list.
    pub fn first(&self, list: u32) -> Option<u32>
        requires { list < self.now.lists }
        ensures { IsNextIn self.now.places list 0 result }
    {
        self.first[list as usize]
    }

    /// The next slot of the list in which this slot is.
    pub fn after(&self, slot: u32) -> Option<u32>
        requires { slot < length self.now.places }
        ensures { (list : ℕ) → IsIn self.now.places slot list → IsNextIn self.now.places list (slot + 1) result }
    {
        self.next[slot as usize]
    }

    /// Puts the slot, which is in no list, into this one.
    pub fn put_in(&mut self, slot: u32, list: u32)
        requires slot { slice_get self.old.places slot ≡ Some None }
        requires list { list < self.old.lists }
        ensures { self.new ≡ placed self.old slot (Some list) }
    {
        let Some(before) = self.before(list, slot) else {
            self.next[slot as usize] = self.first[list as usize];
            self.first[list as usize] = Some(slot);
            self.places[slot as usize] = Some(list);
            return;
        };
        self.next[slot as usize] = self.next[before as usize];
        self.next[before as usize] = Some(slot);
        self.places[slot as usize] = Some(list);
    }

    /// Takes the slot out of its list, if it is in one.
    pub fn take_out(&mut self, slot: u32)
        requires { slot < length self.old.places }
        ensures { self.new ≡ placed self.old slot None }
    {
        let Some(list) = self.places[slot as usize] else {
            return;
        };
        let after = self.next[slot as usize];
        let Some(before) = self.before(list, slot) else {
            self.first[list as usize] = after;
            self.places[slot as usize] = None;
            return;
        };
        self.next[before as usize] = after;
        self.places[slot as usize] = None;
    }

    /// The last slot of the list below this one.
    fn before(&self, list: u32, slot: u32) -> Option<u32>
        requires { list < self.now.lists }
        ensures { IsLastBelow self.now.places list slot result }
    {
        let mut before = None;
        let mut next = self.first(list);
        while let Some(at) = next {
            if at >= slot {
                break;
            }
            before = Some(at);
            next = self.after(at);
        }
        before
    }
}

/// So many places without a number.
fn no_numbers(alloc: Global, places: usize) -> Result<Vec<Option<u32>>, NoMemory>
    ensures { IfOk result (λ made. made.items ≡ replicate places None) }
{
    vec![in alloc; None; places]
}
