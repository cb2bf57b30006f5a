//! Where a key is looked for: the list of its hash.
ghost use Rattle.std.specs.Prelude.{◌≡◌, ℕ, ◌^◌, ◌<◌, IfSome, IfNone, length};
ghost use Rattle.server_key.specs.Keys.{shown_key};
ghost use Rattle.slot_lists.specs.Lists.{IsIn};
ghost use Rattle.txn_store.specs.Places.{HoldsKey, IsHeldNowhere};
ghost use Rattle.txn_store.specs.Hashed as hashed;

use crate::index::IndexPlace;
use key_hash::HashState;
use server_key::KeyView;
use slot_lists::Lists;
use std::hash::{BuildHasher, Hasher};

/// The hash of the key. Letters of the host are hashed in lower case.
fn hash_of(state: &HashState, key: KeyView) -> u64
    ensures { result ≡ hashed.hash_of state.now (shown_key key.entry) }
{
    let mut hasher = state.build_hasher();
    hasher.write(key.branch);
    hasher.write(key.method);
    hasher.write_u16(key.port);
    for byte in key.host {
        hasher.write_u8(byte.to_ascii_lowercase());
    }
    hasher.finish()
}

/// The list in which a slot that holds the key is.
pub(crate) fn list_of(state: &HashState, lists: &Lists, key: KeyView) -> u32
    requires { 0 < lists.now.lists }
    ensures list { result ≡ hashed.list_of state.now lists.now.lists (shown_key key.entry) }
    ensures few { result < lists.now.lists }
{
    (hash_of(state, key) % lists.lists() as u64) as u32
}

/// The slot of this list that holds the key, and its generation.
pub(crate) fn holder(
    places: &[IndexPlace],
    lists: &Lists,
    list: u32,
    key: KeyView,
) -> Option<(u32, u64)>
    requires list { list < lists.now.lists }
    requires slots { length lists.now.places ≡ length places.now }
    requires listed { (slot generation : ℕ) → HoldsKey places.now slot generation (shown_key key) → IsIn lists.now.places slot list }
    ensures held { IfSome result (λ at. HoldsKey places.now at.0 at.1 (shown_key key.entry)) }
    ensures held_nowhere { IfNone result (IsHeldNowhere places.now (shown_key key.entry)) }
{
    let mut next = lists.first(list);
    while let Some(slot) = next {
        let place = &places[slot as usize];
        if place.holds(key) {
            return Some((slot, place.generation));
        }
        next = lists.after(slot);
    }
    None
}
