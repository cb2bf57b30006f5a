//! Items that expire, beside a plain map.

ghost use Rattle.std.specs.Prelude.{◌^◌, ◌<◌};

use super::{drawn, key};
use crate::held::Held;
use crate::item::Item;
use crate::name::Name;
use key_hash::HashState;
use pv_values::Val;
use std::alloc::{AllocError, Global};
use std::collections::BTreeMap;
use std::process::Abort;
use std::test::Fail;

/// What is held, and the due moments of the same keys.
#[derive(Drop)]
struct Both {
    held: Held,
    plain: BTreeMap<u64, Option<u64>>,
}

fn name(alloc: Global, number: u64) -> Result<Name, AllocError> {
    Ok(Name::of(key(alloc, &number.to_be_bytes())?))
}

/// No moment, or one that is up to a second away.
fn moment(state: &mut u64, clock: u64) -> Option<u64> {
    match drawn(state) % 8 {
        0..=2 => None,
        _ => Some(clock.saturating_add(drawn(state) % 1_000)),
    }
}

impl Both {
    /// Makes a generated change of both, of live items alone.
    fn change(&mut self, alloc: Global, state: &mut u64, clock: u64) -> Result<(), AllocError> {
        self.keep_live(clock);
        let number = drawn(state) % 24;
        let name = name(alloc, number)?;
        match drawn(state) % 8 {
            0..=1 => {
                let due = moment(state, clock);
                self.held.put(
                    name,
                    Item {
                        value: Val::Null,
                        due,
                    },
                )?;
                self.plain.insert(number, due)?;
            }
            2..=5 => {
                let due = moment(state, clock);
                if self.plain.contains_key(&number) {
                    self.held.set_due(&name, due)?;
                    self.plain.insert(number, due)?;
                }
            }
            6 => {
                self.held.remove(&name);
                self.plain.remove(&number);
            }
            _ => self.held.expire(clock),
        }
        Ok(())
    }

    fn keep_live(&mut self, clock: u64) {
        self.plain
            .retain(|_, due| due.is_none_or(|moment| clock < moment));
    }

    /// Asserts that as many items of both are live.
    fn compare(&mut self, rt: &impl Abort, clock: u64, most: usize) {
        self.keep_live(clock);
        let is_below = self.plain.len() < most;
        assert!(rt;
            self.held.is_below(clock, most) == is_below,
            "at {clock}: {most}"
        );
    }
}

#[test]
fn expired_items_are_taken_out_in_time(rt: HostRuntime) -> Result<(), Fail> {
    let (mut state, mut clock) = (1, 0u64);
    let mut both = Both {
        held: Held::new(rt.alloc(), HashState::Fixed),
        plain: BTreeMap::new(rt.alloc()),
    };
    for call in 0..20_000 {
        both.change(rt.alloc(), &mut state, clock)?;
        let most = (drawn(&mut state) % 24) as usize;
        both.compare(&rt, clock, most);
        if drawn(&mut state) % 64 == 0 {
            clock = clock.wrapping_add(drawn(&mut state) % 200);
        }
    }
    Ok(())
}

#[test]
fn items_that_are_over_are_let_go(rt: HostRuntime) -> Result<(), Fail> {
    let alloc = rt.alloc();
    let mut held = Held::new(alloc, HashState::Fixed);
    for number in 0..8 {
        let item = Item {
            value: Val::Null,
            due: Some(10),
        };
        held.put(name(alloc, number)?, item)?;
    }
    held.expire(9);
    assert!(rt; held.len() == 8);
    for _ in 0..8 {
        held.expire(10);
    }
    assert!(rt; held.len() == 0);
    Ok(())
}
