//! The index.
ghost use Rattle.std.specs.Prelude.{◌≡◌, ℕ, ◌^◌, ◌<◌, ◌↔◌, List, Some, None, IsTrue, IfOk, IfSome, IfNone, OnErr, length};
ghost use Rattle.server_key.specs.Keys.{shown_key};
ghost use Rattle.txn_store.specs.Places.{vacant_places_of};

use crate::hashed::{holder, list_of};
use key_hash::HashState;
use server_key::{Key, KeyView};
use slot_lists::{FreeSlots, Lists};
use std::alloc::{AllocError as NoMemory, Global};
use std::marker::Model;

/// What a claim of a key came to.
#[derive(Clone, Copy, Debug, PartialEq, Eq)]
pub enum IndexEnd {
    /// The key was held by this slot already.
    Old { slot: u32, generation: u64 },
    /// The key was held by no slot, and from now on is held by this one, the lowest that held no key.
    New { slot: u32, generation: u64 },
    /// The key is held by no slot, and each slot holds another.
    Full,
}

/// A slot's place in the index.
#[derive(Debug, Drop)]
pub struct IndexPlace {
    /// How often the slot was freed. At the greatest u64 it stands still.
    pub generation: u64,
    /// The key of its transaction.
    pub key: Option<Key>,
}

impl IndexPlace {
    /// Whether the slot holds the key.
    pub(crate) fn holds(&self, key: KeyView) -> bool
        ensures { IsTrue result ↔ (self.now.key ≡ Some (shown_key key.entry)) }
    {
        match &self.key {
            Some(held) => held.is_shown_by(key),
            None => false,
        }
    }
}

/// The slots from 0 up to a number that is fixed when the index is made, each with its generation and the key that it
/// holds. A clause sees the list of their places.
///
/// The slots that hold keys are in lists, each in the list of its key's hash, so a look at one list tells which slot holds a
/// key. Beside the lists it is kept which slots hold none.
#[derive(Drop)]
pub struct Index {
    places: Vec<IndexPlace>,
    state: HashState,
    lists: Lists,
    free: FreeSlots,
}

impl Model for Index {
    ghost use Rattle.std.specs.Prelude.{List};
    ghost use Rattle.txn_store.specs.declared.index.IndexPlace.{IndexPlace};

    ghost Value = { List IndexPlace };

    ghost use Rattle.txn_store.specs.Hashed.{IsIndex};

    ghost view = { λ i. i.places.items };

    ghost invariant = { λ i. IsIndex i.places.items i.state i.lists i.free };
}

impl Index {
    ghost use Rattle.txn_store.specs.Places.{vacant_places, HoldsKey, IsHeldNowhere, SomeIsFree, EachKeyIsOnce, ClaimAnswers, after_claim, after_free};
    ghost use Rattle.txn_store.specs.Records.{IndexStep};
    ghost use Rattle.txn_store.specs.declared.record.IndexRecord.TheVariants as recorded;

    /// An index of this many slots, which hold no key and are of generation 0. Keys are hashed with a fixed seed.
    pub fn new(alloc: Global, slots: u32) -> Result<Index, NoMemory>
        ensures { IfOk result (λ index. index ≡ vacant_places slots) }
    {
        Index::with_hasher(alloc, slots, HashState::Fixed)
    }

    /// An index of this many slots, which hold no key and are of generation 0. Keys are hashed by this.
    pub fn with_hasher(alloc: Global, slots: u32, state: HashState) -> Result<Index, NoMemory>
        ensures { IfOk result (λ index. index ≡ vacant_places slots) }
    {
        Index::of_generation(alloc, slots, 0, slots.max(1), state)
    }

    /// An index of this many slots, which hold no key and are of this generation, with so many lists.
    pub(crate) fn of_generation(
        alloc: Global,
        slots: u32,
        generation: u64,
        lists: u32,
        state: HashState,
    ) -> Result<Index, NoMemory>
        requires { 0 < lists }
        ensures { IfOk result (λ index. index ≡ vacant_places_of slots generation) }
    {
        Ok(Index {
            places: vacant_places(alloc, slots, generation)?,
            state,
            lists: Lists::new(alloc, slots, lists)?,
            free: FreeSlots::new(alloc, slots)?,
        })
    }

    /// The slot of the key: the one that holds it, or else the lowest one that holds no key, which then holds it.
    pub fn claim(&mut self, key: KeyView) -> Result<IndexEnd, NoMemory>
        ensures answers { IfOk result (ClaimAnswers self.old (shown_key key.entry)) }
        ensures after { IfOk result (λ end. self.new ≡ after_claim self.old (shown_key key.entry) end) }

        // Memory is wanted for a new key alone.
        ensures no_memory { OnErr result (self.new ≡ self.old) }
        ensures memory_for_new { OnErr result (IsHeldNowhere self.old (shown_key key.entry) × SomeIsFree self.old) }

        ensures slots { length self.new ≡ length self.old }
        ensures once { EachKeyIsOnce self.new }
        ensures step { IndexStep self.old (recorded.Claim (shown_key key.entry) result) self.new }
    {
        let list = list_of(&self.state, &self.lists, key);
        if let Some((slot, generation)) = holder(self.places.as_slice(), &self.lists, list, key) {
            return Ok(IndexEnd::Old { slot, generation });
        }
        let Some(slot) = self.free.lowest() else {
            return Ok(IndexEnd::Full);
        };
        let key = Key::copy_of(*self.places.allocator(), key)?;
        let slot = slot as u32;
        let generation = self.places[slot as usize].generation;
        self.places[slot as usize] = IndexPlace {
            generation,
            key: Some(key),
        };
        self.lists.put_in(slot, list);
        self.free.remove(slot);
        Ok(IndexEnd::New { slot, generation })
    }

    /// The slot that holds the key, and its generation.
    pub fn find(&self, key: KeyView) -> Option<(u32, u64)>
        ensures held { IfSome result (λ at. HoldsKey self.now at.0 at.1 (shown_key key.entry)) }
        ensures held_nowhere { IfNone result (IsHeldNowhere self.now (shown_key key.entry)) }
        ensures in_range { IfSome result (λ at. at.0 < length self.now) }
        ensures once { EachKeyIsOnce self.now }
        ensures step { IndexStep self.now (recorded.Find (shown_key key.entry) result) self.now }
    {
        let list = list_of(&self.state, &self.lists, key);
        holder(self.places.as_slice(), &self.lists, list, key)
    }

    /// Takes the key from the slot, and raises its generation by one. The greatest u64 is the last generation: a slot of it
    /// stays of it. It takes 2^64 - 1 calls for one slot to come there.
    pub fn free(&mut self, slot: u32)
        requires { slot < length self.old }
        ensures after { self.new ≡ after_free self.old slot }
        ensures slots { length self.new ≡ length self.old }
        ensures once { EachKeyIsOnce self.new }
        ensures step { IndexStep self.old (recorded.Free slot) self.new }
    {
        let place = &mut self.places[slot as usize];
        place.generation = place.generation.saturating_add(1);
        place.key = None;
        self.lists.take_out(slot);
        self.free.add(slot);
    }
}

/// So many places without keys, of this generation.
fn vacant_places(alloc: Global, slots: u32, generation: u64) -> Result<Vec<IndexPlace>, NoMemory>
    ensures { IfOk result (λ places. places.items ≡ vacant_places_of slots generation) }
{
    let mut places = Vec::with_capacity(alloc, slots as usize)?;
    for _slot in 0..slots {
        places.push_reserved(IndexPlace {
            generation,
            key: None,
        });
    }
    Ok(places)
}
