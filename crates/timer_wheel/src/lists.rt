//! Lists of slots.
//!
//! Each list is a ring of links by number, with a head of its own, so a slot goes in and out of one in the same few writes
//! wherever it stands. A slot that is in no list is a ring alone. A bit for each list tells whether it has slots.
ghost use Rattle.std.specs.Prelude.{◌≡◌, ◌≢◌, ℕ, ◌^◌, ◌<◌, ◌≤◌, Some, None, Option, List, IfOk, IfSome, IfNone, IsTrue, ◌↔◌, MatchOption, length, replicate, slice_set, slice_get};
ghost use Rattle.std.specs.List.{range_with_len};
ghost use Rattle.timer_wheel.specs.Rings.{IsIn};
ghost use Rattle.timer_wheel.specs.Timers.{GoesFirst};
ghost use Rattle.timer_wheel.specs.Wheels.{IsFirstIn, NoTimerIn};

use crate::wheel::Timer;
use std::alloc::{AllocError as NoMemory, Global};
use std::marker::Model;

/// How many lists there are.
pub const LISTS: usize = 4096;

/// How many slots a list may have that isn't long.
const SHORT: usize = 32;

/// The number of bits of a word.
const BITS: usize = 64;

/// Slots from 0 up to a number that is fixed when this is made, each in one of the lists or in none. A clause sees the list of
/// these by slot.
#[derive(Drop)]
pub struct Lists {
    places: Vec<Option<u16>>,
    next: Vec<usize>,
    prev: Vec<usize>,
    words: Vec<u64>,
}

impl Model for Lists {
    ghost use Rattle.std.specs.Prelude.{List, Option, ℕ};
    ghost use Rattle.timer_wheel.specs.Rings.{AreLists};

    ghost Value = { List (Option ℕ) };

    ghost view = { λ l. l.places.items };

    ghost invariant = { λ l. (age : ℕ → ℕ) × AreLists l.places.items l.next.items l.prev.items l.words.items age };
}

impl Lists {
    /// So many slots, none in a list.
    pub fn new(alloc: Global, slots: u32) -> Result<Lists, NoMemory>
        ensures { IfOk result (λ lists. lists ≡ replicate slots None) }
    {
        let nodes = slots as usize + LISTS;
        let places = no_places(alloc, slots as usize)?;
        let next = rings(alloc, nodes)?;
        let prev = rings(alloc, nodes)?;
        let words = no_bits(alloc, LISTS / BITS)?;
        Ok(Lists {
            places,
            next,
            prev,
            words,
        })
    }

    /// Takes the slot out of its list, if it is in one.
    pub fn take_out(&mut self, slot: u32)
        requires { slot < length self.old }
        ensures { self.new ≡ slice_set self.old slot None }
    {
        let node = slot as usize;
        let Some(list) = self.places[node] else {
            return;
        };
        let prev = self.prev[node];
        let next = self.next[node];
        self.next[prev] = next;
        self.prev[next] = prev;
        self.next[node] = node;
        self.prev[node] = node;
        self.places[node] = None;
        let list = list as usize;
        let head = self.places.len() + list;
        if self.next[head] == head {
            self.words[list / BITS] &= !(1 << (list % BITS));
        }
    }

    /// Puts the slot, which is in no list, at the end of this one.
    pub fn put_in(&mut self, slot: u32, list: u16)
        requires slot { slice_get self.old slot ≡ Some None }
        requires list { list < 4096 }
        ensures { self.new ≡ slice_set self.old slot (Some list) }
    {
        let node = slot as usize;
        let head = self.places.len() + list as usize;
        let prev = self.prev[head];
        self.next[prev] = node;
        self.next[node] = head;
        self.prev[node] = prev;
        self.prev[head] = node;
        self.places[node] = Some(list);
        self.words[list as usize / BITS] |= 1 << (list as usize % BITS);
    }

    /// The first list that has a slot.
    pub fn first(&self) -> Option<u16>
        ensures few { IfSome result (λ list. list < 4096) }
        ensures has_slots { IfSome result (λ list. (slot : ℕ) × IsIn self.now slot list) }
        ensures least { IfSome result (λ list. (slot k : ℕ) → IsIn self.now slot k → list ≤ k) }
        ensures none { IfNone result ((slot k : ℕ) → ¬ IsIn self.now slot k) }
    {
        for (at, &word) in self.words.iter().enumerate() {
            if word != 0 {
                return Some(at as u16 * BITS as u16 + word.trailing_zeros() as u16);
            }
        }
        None
    }

    /// The slot that has been in the list for longest.
    pub fn oldest(&self, list: u16) -> Option<u32>
        requires { list < 4096 }
        ensures is_in { IfSome result (λ slot. IsIn self.now slot list) }
        ensures none { IfNone result ((slot : ℕ) → ¬ IsIn self.now slot list) }
    {
        let head = self.places.len() + list as usize;
        let node = self.next[head];
        if node == head {
            None
        } else {
            Some(node as u32)
        }
    }

    /// Whether there are more slots in the list than are gone over at each look for the first timer.
    pub fn is_long(&self, list: u16) -> bool
        requires { list < 4096 }
    {
        let head = self.places.len() + list as usize;
        let mut node = self.next[head];
        for passed in 0..SHORT {
            if node == head {
                return false;
            }
            node = self.next[node];
        }
        true
    }

    /// Of the timers of the slots in the list the one that goes off first, and its slot.
    pub fn earliest(&self, list: u16, timers: &[Option<Timer>]) -> Option<(u32, Timer)>
        requires list { list < 4096 }
        requires timers { length timers.now ≡ length self.now }
        ensures first { IfSome result (λ found. IsFirstIn self.now list timers.now found.0 found.1) }
        ensures none { IfNone result (NoTimerIn self.now list timers.now) }
    {
        let head = self.places.len() + list as usize;
        let mut found: Option<(u32, Timer)> = None;
        let mut node = self.next[head];
        for passed in 0..self.places.len() {
            if node == head {
                break;
            }
            if let Some(timer) = timers[node]
                && goes_before(node as u32, timer, found)
            {
                found = Some((node as u32, timer));
            }
            node = self.next[node];
        }
        found
    }
}

/// Whether the slot's timer goes off before the one that was found so far.
pub fn goes_before(slot: u32, timer: Timer, found: Option<(u32, Timer)>) -> bool
    ensures { MatchOption found (IsTrue result) (λ other. IsTrue result ↔ GoesFirst timer.due slot other.1.due other.0) }
{
    match found {
        Some((other, earliest)) => timer.due < earliest.due
            || timer.due == earliest.due && slot <= other,
        None => true,
    }
}

/// So many nodes, each a ring alone.
fn rings(alloc: Global, nodes: usize) -> Result<Vec<usize>, NoMemory>
    ensures { IfOk result (λ links. links.items ≡ range_with_len 0 nodes) }
{
    (0..nodes).collect(alloc)
}

/// So many slots, none in a list.
fn no_places(alloc: Global, slots: usize) -> Result<Vec<Option<u16>>, NoMemory>
    ensures { IfOk result (λ places. places.items ≡ replicate slots None) }
{
    vec![in alloc; None; slots]
}

/// So many words without a bit.
fn no_bits(alloc: Global, words: usize) -> Result<Vec<u64>, NoMemory>
    ensures { IfOk result (λ made. made.items ≡ replicate words 0) }
{
    vec![in alloc; 0; words]
}
