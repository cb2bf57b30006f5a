//! The items that a table holds, live or not.

ghost use Rattle.std.specs.Prelude.{◌≡◌, OnOk, OnErr};
ghost use Rattle.ht_core.specs.Tables.{is_found_by};
ghost use Rattle.ht_core.specs.Held.{due_of};

use crate::dues::Dues;
use crate::expiry::{Entries, expire_below, expire_some, make_room, queue_if_earlier, requeue};
use crate::item::Item;
use crate::name::Name;
use indexmap::IndexMap;
use key_hash::HashState;
use pv_values::PatternMatcher;
use std::alloc::{AllocError as NoMemory, Global};
use std::marker::Model;

/// The items by their keys, and their places by the moments when they are due. A clause sees the finite map from keys to items.
#[derive(Drop)]
pub(crate) struct Held {
    items: Entries,
    dues: Dues,
}

impl Model for Held {
    ghost use Rattle.ht_core.specs.Tables.{Items};

    ghost Value = { Items };

    ghost use Rattle.std.specs.FinMap as map;
    ghost use Rattle.std.specs.Coded.{coded_list, coded_ℕ};
    ghost use Rattle.ht_core.specs.contracts.item.Item as item;

    ghost coded = { map.code (coded_list coded_ℕ) item.the_row.coded };

    ghost use Rattle.ht_core.specs.Held.{items_of, IsHeld};

    ghost view = { λ h. items_of h.items.entries };

    ghost invariant = { λ h. IsHeld h.items.entries h.dues };
}

impl Held {
    ghost use Rattle.std.specs.FinMap as map;
    ghost use Rattle.std.specs.Option.{option_copied};
    ghost use Rattle.std.specs.Prelude.{nat_lt, not};
    ghost use Rattle.ht_core.specs.Tables.{live};
    ghost use Rattle.ht_core.specs.Held.{due_from_now_on};

    pub fn new(alloc: Global, state: HashState) -> Held
        ensures { result ≡ map.empty }
    {
        Held {
            items: IndexMap::with_hasher(alloc, state),
            dues: Dues::new(alloc),
        }
    }

    pub fn len(&self) -> usize
        ensures { result ≡ map.len self.now }
    {
        self.items.len()
    }

    pub fn get(&self, name: &Name) -> Option<&Item>
        ensures { option_copied result ≡ map.get self.now name.now }
    {
        self.items.get(name)
    }

    /// Gives the key the item.
    pub fn put(&mut self, name: Name, item: Item) -> Result<(), NoMemory>
        ensures ok { OnOk result (self.new ≡ map.insert self.old name item) }
        ensures err { OnErr result (self.new ≡ self.old) }
    {
        make_room(&self.items, &mut self.dues, item.due)?;
        let (place, old) = self.items.insert_full(name, item)?;
        queue_if_earlier(&self.items, &mut self.dues, place, due_of(old));
        Ok(())
    }

    /// Makes the item of the key, if there is one, due at this moment.
    pub fn set_due(&mut self, name: &Name, due: Option<u64>) -> Result<(), NoMemory>
        ensures ok { OnOk result (self.new ≡ due_from_now_on self.old name.now due (map.get self.old name.now)) }
        ensures err { OnErr result (self.new ≡ self.old) }
    {
        // No two keys are equal, as the length says.
        let _len = self.items.len();
        let Some((place, _, item)) = self.items.get_full(name) else {
            return Ok(());
        };
        let queued = item.due;
        make_room(&self.items, &mut self.dues, due)?;
        self.items[place].due = due;
        queue_if_earlier(&self.items, &mut self.dues, place, queued);
        Ok(())
    }

    pub fn remove(&mut self, name: &Name)
        ensures { self.new ≡ map.remove self.old name.now }
    {
        let Some((place, _, _)) = self.items.swap_remove_full(name) else {
            return;
        };
        queue_if_earlier(&self.items, &mut self.dues, place, None);
    }

    /// Takes out a few items that are no longer live.
    pub fn expire(&mut self, clock: u64)
        ensures { live clock self.new ≡ live clock self.old }
    {
        expire_some(&mut self.items, &mut self.dues, clock);
    }

    /// Fewer items than `most` are live. Items that are no longer live are taken out while there are as many items.
    pub fn is_below(&mut self, clock: u64, most: usize) -> bool
        ensures below { result ≡ nat_lt (map.len (live clock self.old)) most }
        ensures same { live clock self.new ≡ live clock self.old }
    {
        expire_below(&mut self.items, &mut self.dues, clock, most)
    }

    /// Takes out the items that are no longer live, and counts the others.
    pub fn keep_live(&mut self, clock: u64) -> usize
        ensures live { self.new ≡ live clock self.old }
        ensures len { result ≡ map.len self.new }
    {
        // No two keys are equal, as the length says.
        let _len = self.items.len();
        self.items.retain(|_, item| item.is_live(clock));
        requeue(&self.items, &mut self.dues);
        self.items.len()
    }

    /// Takes out the items in whose keys the pattern matches, if there is one.
    pub fn remove_matching(&mut self, mut matcher: Option<PatternMatcher>)
        ensures { self.new ≡ map.retain_keys self.old (λ key. not (is_found_by matcher.entry key)) }
    {
        self.items.retain(|name, _| !is_found(&mut matcher, name));
        requeue(&self.items, &mut self.dues);
    }

    pub fn clear(&mut self)
        ensures { self.new ≡ map.empty }
    {
        self.items.clear();
        self.dues.clear();
    }
}

/// The moment when the item was due, if there was one.
fn due_of(item: Option<Item>) -> Option<u64>
    ensures { result ≡ due_of item }
{
    item?.due
}

/// The pattern, if there is one, matches in the key.
fn is_found(matcher: &mut Option<PatternMatcher>, name: &Name) -> bool
    ensures found { result ≡ is_found_by matcher.old name.now }
    ensures same { matcher.new ≡ matcher.old }
{
    match matcher {
        Some(matcher) => matcher.is_match(name.bytes()),
        None => false,
    }
}
