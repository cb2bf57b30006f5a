//! The places of items, queued by the moments when they are looked at.

ghost use Rattle.std.specs.Prelude.{◌≡◌, ◌+◌, ◌<◌, ◌≤◌, [], ◌∷◌, All, IsPermutation, IfSome, IfNone, OnOk, length};

use std::alloc::{AllocError as NoMemory, Global};
use std::cmp::Reverse;
use std::collections::BinaryHeap;
use std::marker::Model;

/// The place of an item, and the moment when it is looked at.
#[derive(Clone, Copy, Debug, PartialEq, Eq, PartialOrd, Ord)]
pub(crate) struct Due {
    pub moment: u64,
    pub place: usize,
}

/// Places, the earliest first. A place may be queued more than once. A clause sees what is queued, in no order, and for how
/// many places more there is room.
#[derive(Drop)]
pub(crate) struct Dues {
    heap: BinaryHeap<Reverse<Due>>,
}

impl Model for Dues {
    ghost use Rattle.std.specs.Prelude.{◌-◌, map};
    ghost use Rattle.std.specs.BinaryHeap.{heap_items, heap_len, heap_capacity, IsHeap};
    ghost use Rattle.ht_core.specs.Queues.{Queue, earliest_first};

    ghost Value = { Queue };

    ghost view = { λ d. record { places = map (λ e. e.0) (heap_items d.heap); spare = heap_capacity d.heap - heap_len d.heap } };

    ghost invariant = { λ d. IsHeap earliest_first (heap_items d.heap) };
}

impl Dues {
    pub fn new(alloc: Global) -> Dues
        ensures { result.places ≡ [] }
    {
        Dues {
            heap: BinaryHeap::new(alloc),
        }
    }

    pub fn len(&self) -> usize
        ensures { result ≡ length self.now.places }
    {
        self.heap.len()
    }

    /// How many places there is room for, those that are queued among them.
    pub fn capacity(&self) -> usize
        ensures { result ≡ length self.now.places + self.now.spare }
    {
        self.heap.capacity()
    }

    /// Makes room for so many places in all.
    pub fn reserve(&mut self, places: usize) -> Result<(), NoMemory>
        ensures same { self.new.places ≡ self.old.places }
        ensures spare { self.old.spare ≤ self.new.spare }
        ensures ok { OnOk result (places ≤ length self.new.places + self.new.spare) }
    {
        self.heap.reserve(places.saturating_sub(self.heap.len()))
    }

    /// Queues a place.
    pub fn push(&mut self, due: Due)
        requires { 0 < self.old.spare }
        ensures queued { IsPermutation (due ∷ self.old.places) self.new.places }
        ensures spare { self.old.spare ≤ self.new.spare + 1 }
    {
        self.heap.push(Reverse(due)).unwrap();
    }

    /// Takes out the earliest place, where its moment has come.
    pub fn pop(&mut self, clock: u64) -> Option<Due>
        ensures popped { IfSome result (λ due. IsPermutation self.old.places (due ∷ self.new.places)) }
        ensures has_come { IfSome result (λ due. due.moment ≤ clock) }
        ensures spare { IfSome result (λ due. self.new.spare ≡ self.old.spare + 1) }
        ensures none { IfNone result (All (λ due. clock < due.moment) self.old.places) }
        ensures unchanged { IfNone result (self.new ≡ self.old) }
    {
        let Reverse(due) = *self.heap.peek()?;
        if due.moment > clock {
            return None;
        }
        self.heap.pop();
        Some(due)
    }

    /// Takes out all places, and keeps the room.
    pub fn clear(&mut self)
        ensures places { self.new.places ≡ [] }
        ensures spare { self.new.spare ≡ length self.old.places + self.old.spare }
    {
        self.heap.clear();
    }
}
