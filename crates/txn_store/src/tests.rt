ghost use Rattle.std.specs.Prelude.{◌≡◌, length};

use super::IndexEnd::{Full, New, Old};
use super::{Index, IndexEnd, KeyView};
use key_hash::HashState;
use std::process::Abort;
use std::test::Fail;

#[derive(Clone, Copy)]
enum Call {
    Claim(KeyView<'static>, IndexEnd),
    Find(KeyView<'static>, Option<(u32, u64)>),
    Free(u32),
}

pub(crate) const FIRST: KeyView<'static> = KeyView {
    branch: b"z9hG4bK776asdhds",
    host: b"Pc33.Atlanta.COM",
    port: 5060,
    method: b"INVITE",
};

pub(crate) const LOWER_HOST: KeyView<'static> = KeyView {
    branch: b"z9hG4bK776asdhds",
    host: b"pc33.atlanta.com",
    port: 5060,
    method: b"INVITE",
};

pub(crate) const OTHER_METHOD: KeyView<'static> = KeyView {
    branch: b"z9hG4bK776asdhds",
    host: b"Pc33.Atlanta.COM",
    port: 5060,
    method: b"BYE",
};

const OTHER_PORT: KeyView<'static> = KeyView {
    branch: b"z9hG4bK776asdhds",
    host: b"Pc33.Atlanta.COM",
    port: 5061,
    method: b"INVITE",
};

const OTHER_BRANCH: KeyView<'static> = KeyView {
    branch: b"z9hG4bK776ASDHDS",
    host: b"Pc33.Atlanta.COM",
    port: 5060,
    method: b"INVITE",
};

pub(crate) fn new(slot: u32, generation: u64) -> IndexEnd {
    New { slot, generation }
}

pub(crate) fn old(slot: u32, generation: u64) -> IndexEnd {
    Old { slot, generation }
}

fn play(rt: &impl Abort, index: &mut Index, call: Call) -> Result<(), Fail>
    requires { length index.old ≡ 3 }
    ensures { length index.new ≡ 3 }
{
    match call {
        Call::Claim(key, want) => assert_eq!(rt; index.claim(key)?, want, "{key:?}"),
        Call::Find(key, want) => assert_eq!(rt; index.find(key), want, "{key:?}"),
        Call::Free(slot) => {
            assert!(rt; slot < 3);
            index.free(slot);
        }
    }
    Ok(())
}

fn into_thread<T: Send>(value: T) -> T
    ensures { result ≡ value }
{
    value
}

#[test]
fn keys_have_slots_with_generations(rt: HostRuntime) -> Result<(), Fail> {
    let calls = [
        Call::Find(FIRST, None),
        Call::Claim(FIRST, new(0, 0)),
        Call::Claim(FIRST, old(0, 0)),
        // The host has no case.
        Call::Claim(LOWER_HOST, old(0, 0)),
        Call::Find(LOWER_HOST, Some((0, 0))),
        // Each other part counts.
        Call::Claim(OTHER_METHOD, new(1, 0)),
        Call::Claim(OTHER_PORT, new(2, 0)),
        // A held key is old also where no slot is free.
        Call::Claim(OTHER_BRANCH, Full),
        Call::Find(OTHER_BRANCH, None),
        Call::Claim(OTHER_METHOD, old(1, 0)),
        // A freed slot is of the next generation, and its key is gone.
        Call::Free(1),
        Call::Find(OTHER_METHOD, None),
        Call::Claim(OTHER_BRANCH, new(1, 1)),
        Call::Claim(OTHER_METHOD, Full),
        // The lowest free slot is taken.
        Call::Free(2),
        Call::Free(0),
        Call::Claim(OTHER_PORT, new(0, 1)),
        Call::Claim(LOWER_HOST, new(2, 1)),
        Call::Claim(FIRST, old(2, 1)),
        // A slot that holds no key is freed like another.
        Call::Free(1),
        Call::Free(1),
        Call::Claim(OTHER_METHOD, new(1, 3)),
        Call::Find(OTHER_METHOD, Some((1, 3))),
        Call::Find(OTHER_BRANCH, None),
    ];
    let mut index = into_thread(Index::new(rt.alloc(), 3)?);
    for call in calls {
        play(&rt, &mut index, call)?;
    }
    Ok(())
}

#[test]
fn index_of_no_slots_is_full(rt: HostRuntime) -> Result<(), Fail> {
    let mut index = Index::new(rt.alloc(), 0)?;
    assert_eq!(rt; index.find(FIRST), None);
    assert_eq!(rt; index.claim(FIRST)?, Full);
    Ok(())
}

#[test]
fn the_greatest_generation_has_no_next_one(rt: HostRuntime) -> Result<(), Fail> {
    let mut index = Index::of_generation(rt.alloc(), 1, u64::MAX - 1, 1, HashState::Fixed)?;
    assert_eq!(rt; index.claim(FIRST)?, new(0, u64::MAX - 1));
    index.free(0);
    assert_eq!(rt; index.claim(FIRST)?, new(0, u64::MAX));
    index.free(0);
    assert_eq!(rt; index.find(FIRST), None);
    assert_eq!(rt; index.claim(FIRST)?, new(0, u64::MAX));
    Ok(())
}
