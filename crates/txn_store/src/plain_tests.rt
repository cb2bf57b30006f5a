//! Thousands of calls of the index and of the plain program, which answer the same.
ghost use Rattle.std.specs.Prelude.{◌≡◌, ◌<◌, length};

use crate::IndexEnd::Full;
use crate::plain::Plain;
use crate::{HashState, Index, KeyView};
use std::hash::RandomState;
use std::process::Abort;
use std::test::Fail;

const SLOTS: u32 = 16;

/// Three branches, of which two differ in case.
const BRANCHES: [&[u8]; 4] = [b"z9hG4bKa", b"z9hG4bKA", b"z9hG4bKab", b"z9hG4bK776asdhds"];

/// Three hosts, each in two ways of writing it.
const HOSTS: [&[u8]; 6] = [
    b"a.example",
    b"A.Example",
    b"b.example",
    b"b.EXAMPLE",
    b"pc33",
    b"PC33",
];

const METHODS: [&[u8]; 2] = [b"INVITE", b"BYE"];

/// The key of a number: 48 keys, each in two ways of writing it.
fn key(number: u64) -> KeyView<'static> {
    KeyView {
        branch: BRANCHES[(number % 4) as usize],
        host: HOSTS[(number / 4 % 6) as usize],
        port: 5060 + (number / 24 % 2) as u16,
        method: METHODS[(number / 48 % 2) as usize],
    }
}

/// Does one call of both, and tells whether no slot was free.
fn call(rt: &impl Abort, index: &mut Index, plain: &mut Plain, number: u64) -> Result<bool, Fail>
    requires { length index.old ≡ 16 }
    ensures { length index.new ≡ 16 }
{
    let key = key(number / 8);
    match number % 8 {
        0..4 => {
            let end = index.claim(key)?;
            assert_eq!(rt; end, plain.claim(key)?, "{key:?}");
            return Ok(end == Full);
        }
        4..6 => assert_eq!(rt; index.find(key), plain.find(key), "{key:?}"),
        _ => {
            let slot = (number / 8 % 16) as u32;
            index.free(slot);
            plain.free(slot);
        }
    }
    Ok(false)
}

/// Makes so many calls of both, and tells how often no slot was free.
fn calls(rt: &impl Abort, index: &mut Index, plain: &mut Plain, times: u32) -> Result<u32, Fail>
    requires { length index.old ≡ 16 }
    ensures { length index.new ≡ 16 }
{
    let mut random = 38u64;
    let mut full = 0u32;
    for _ in 0..times {
        random = random
            .wrapping_mul(6_364_136_223_846_793_005)
            .wrapping_add(1_442_695_040_888_963_407);
        if call(rt, index, plain, random >> 33)? {
            full = full.wrapping_add(1);
        }
    }
    Ok(full)
}

#[test]
fn the_index_answers_as_the_plain_program(rt: HostRuntime) -> Result<(), Fail> {
    let random = HashState::Random(RandomState::new(&rt)?);
    for (lists, state) in [
        (1, HashState::Fixed),
        (3, HashState::Fixed),
        (16, HashState::Fixed),
        (16, random),
    ] {
        let mut index = Index::of_generation(rt.alloc(), SLOTS, 0, lists, state)?;
        let mut plain = Plain::new(rt.alloc(), SLOTS)?;
        let full = calls(&rt, &mut index, &mut plain, 4_000)?;
        assert!(rt; full > 100 && full < 3_900);
    }
    Ok(())
}
