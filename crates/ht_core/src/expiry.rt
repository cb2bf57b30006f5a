//! Which items are looked at when: the place of each item that is due some time is queued at that moment, or before it. An item
//! that is due later than its place is queued is queued anew when that moment comes.
//!
//! A place may be queued for an item that is no longer there. Such places are skipped when their moments come, or are gone once
//! there are more than twice as many places in the queue as there are items, and 64: then it is made anew from the items.

ghost use Rattle.std.specs.Prelude.{◌≡◌, ◌≢◌, ◌+◌, ◌*◌, ◌<◌, ◌≤◌, ◌==◌, ◌⊎◌, false, true, Some, IsSome, IsTrue, IfOk, IfSome, OnOk, OnErr, MatchOption, MatchBool, length, slice_get};
ghost use Rattle.std.specs.FinMap as map;
ghost use Rattle.ht_core.specs.Tables.{is_live, live};
ghost use Rattle.ht_core.specs.Queues.{IsQueued};
ghost use Rattle.ht_core.specs.Held.{AreQueued, AreQueuedBut, HasRoom, comes_before, IsHeld, IsOver, Expires, Queues, due_at, items_of, work};

use crate::dues::{Due, Dues};
use crate::item::Item;
use crate::name::Name;
use indexmap::IndexMap;
use key_hash::HashState;
use std::alloc::{AllocError, AllocError as NoMemory};

/// The items of a table, by their keys. Each has a place.
pub(crate) type Entries = IndexMap<Name, Item, HashState>;

/// How many places more than twice as many as there are items the queue may have.
const MORE: usize = 64;

/// How many places one call looks at.
const AT_ONCE: u32 = 4;

/// The moment when the item at this place is due.
pub(crate) fn due_at(items: &Entries, place: usize) -> Option<u64>
    ensures { result ≡ due_at items.now.entries place }
{
    let (_, item) = items.get_index(place)?;
    item.due
}

/// Queues the place under the moment when its item is due.
pub(crate) fn queue(items: &Entries, dues: &mut Dues, place: usize)
    requires { IsSome (due_at items.now.entries place) → 0 < dues.old.spare }
    ensures queued { Queues dues.old.places place (due_at items.now.entries place) dues.new.places }
    ensures spare { dues.old.spare ≤ dues.new.spare + 1 }
    ensures kept { length dues.old.places + dues.old.spare ≤ length dues.new.places + dues.new.spare }
{
    if let Some(moment) = due_at(items, place) {
        dues.push(Due { moment, place });
    }
}

/// Queues the place of each item, and nothing else.
pub(crate) fn requeue(items: &Entries, dues: &mut Dues)
    requires { HasRoom items.now.entries dues.old }
    ensures { IsHeld items.now.entries dues.new }
{
    dues.clear();
    for place in 0..items.len() {
        queue(items, dues, place);
    }
}

/// Makes the queue anew where it has too many places.
pub(crate) fn trim(items: &Entries, dues: &mut Dues)
    requires queued { AreQueued items.now.entries dues.old.places }
    requires room { HasRoom items.now.entries dues.old }
    ensures { IsHeld items.now.entries dues.new }
{
    if dues.len().saturating_sub(MORE) > 2 * items.len() {
        requeue(items, dues);
    }
}

/// Makes room for the places of one item more, if that is due some time, or any item may be.
pub(crate) fn make_room(items: &Entries, dues: &mut Dues, due: Option<u64>) -> Result<(), NoMemory>
    ensures same { dues.new.places ≡ dues.old.places }
    ensures spare { dues.old.spare ≤ dues.new.spare }
    ensures ok { OnOk result (IsSome due ⊎ (0 < length dues.old.places + dues.old.spare) → 2 * length items.now.entries + 68 ≤ length dues.new.places + dues.new.spare) }
{
    if due.is_none() && dues.capacity() == 0 {
        return Ok(());
    }
    let places = (2 * items.len()).checked_add(MORE + 4).ok_or(AllocError)?;
    dues.reserve(places)
}

/// Queues the place if its item is due before the moment for which the place is queued.
pub(crate) fn queue_if_earlier(items: &Entries, dues: &mut Dues, place: usize, queued: Option<u64>)
    requires others { AreQueuedBut place items.now.entries dues.old.places }
    requires queued { (moment : _) → queued ≡ Some moment → IsQueued dues.old.places place moment }
    requires spare { IsSome (due_at items.now.entries place) → 0 < dues.old.spare }
    requires room { HasRoom items.now.entries dues.old }
    ensures { IsHeld items.now.entries dues.new }
{
    if comes_before(due_at(items, place), queued) {
        queue(items, dues, place);
    }
    trim(items, dues);
}

/// The moment comes before the one for which a place is queued.
fn comes_before(moment: Option<u64>, queued: Option<u64>) -> bool
    ensures { result ≡ comes_before moment queued }
{
    match (moment, queued) {
        (Some(moment), Some(queued)) => moment < queued,
        (Some(_), None) => true,
        (None, _) => false,
    }
}

/// The item at this place is no longer live.
fn is_over(items: &Entries, place: usize, clock: u64) -> bool
    ensures over { IsTrue result → IsOver clock items.now place }
    ensures later { result ≡ false → (moment : _) → due_at items.now.entries place ≡ Some moment → clock < moment }
{
    match items.get_index(place) {
        Some((_, item)) => !item.is_live(clock),
        None => false,
    }
}

/// Takes out the item at this place if it is no longer live.
fn take_out_over(items: &mut Entries, place: usize, clock: u64)
    ensures { Expires clock items.old.entries place items.new.entries }
{
    if is_over(items, place, clock) {
        items.swap_remove_index(place);
    }
}

/// Looks at the first place whose moment has come, and takes its item out if that is no longer live. False where no moment has
/// come.
fn expire_one(items: &mut Entries, dues: &mut Dues, clock: u64) -> bool
    requires queued { AreQueued items.old.entries dues.old.places }
    requires room { HasRoom items.old.entries dues.old }
    ensures queued { AreQueued items.new.entries dues.new.places }
    ensures room { HasRoom items.new.entries dues.new }
    ensures same { live clock (items_of items.new.entries) ≡ live clock (items_of items.old.entries) }

    // Each look leaves less to do, and without one all items are live.
    ensures less { IsTrue result → work clock items.new.entries dues.new.places < work clock items.old.entries dues.old.places }
    ensures live { result ≡ false → live clock (items_of items.new.entries) ≡ items_of items.new.entries }
{
    let Some(due) = dues.pop(clock) else {
        return false;
    };
    take_out_over(items, due.place, clock);
    queue(items, dues, due.place);
    true
}

/// Looks at a few places, so that items which are no longer live go, and no call takes long.
pub(crate) fn expire_some(items: &mut Entries, dues: &mut Dues, clock: u64)
    requires { IsHeld items.old.entries dues.old }
    ensures held { IsHeld items.new.entries dues.new }
    ensures same { live clock (items_of items.new.entries) ≡ live clock (items_of items.old.entries) }
{
    for _ in 0..AT_ONCE {
        if !expire_one(items, dues, clock) {
            break;
        }
    }
    trim(items, dues);
}

/// Takes out items that are no longer live while there are so many items, and answers whether there are fewer then.
pub(crate) fn expire_below(items: &mut Entries, dues: &mut Dues, clock: u64, most: usize) -> bool
    requires { IsHeld items.old.entries dues.old }
    ensures held { IsHeld items.new.entries dues.new }
    ensures same { live clock (items_of items.new.entries) ≡ live clock (items_of items.old.entries) }
    ensures fewer { IsTrue result → length items.new.entries < most }
    ensures full { result ≡ false → most ≤ map.len (live clock (items_of items.new.entries)) }
{
    while items.len() >= most {
        if !expire_one(items, dues, clock) {
            break;
        }
    }
    trim(items, dues);
    items.len() < most
}
