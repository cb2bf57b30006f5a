//! The plain program: an ordered map, gone over at each call.

use crate::item::{Item, due_after, limit_seconds, seconds_left};
use crate::operation::{TabOp, TabReply};
use pv_values::{Patterns, TableSpec, Val};
use std::alloc::{AllocError as NoMemory, Global};
use std::collections::BTreeMap;

/// A table whose items are all live after each call.
#[derive(Drop)]
pub struct Plain {
    spec: TableSpec,
    clock: u64,
    items: BTreeMap<Vec<u8>, Item>,
}

impl Plain {
    pub fn new(alloc: Global, spec: TableSpec) -> Plain {
        Plain {
            spec,
            clock: 0,
            items: BTreeMap::new(alloc),
        }
    }

    pub fn apply(
        &mut self,
        alloc: Global,
        op: &TabOp,
        patterns: &Patterns,
        now: u64,
    ) -> Result<TabReply, NoMemory> {
        self.clock = self.clock.max(now);
        let clock = self.clock;
        self.items.retain(|_, item| item.is_live(clock));
        match op {
            TabOp::Get(key) => self.read(alloc, key.bytes()),
            TabOp::Set(key, value) => self.set(alloc, key.bytes(), value),
            TabOp::Remove(key) => Ok(self.remove(key.bytes())),
            TabOp::Inc(key) => self.count(alloc, key.bytes(), 1),
            TabOp::Dec(key) => self.count(alloc, key.bytes(), -1),
            TabOp::Left(key) => Ok(self.left(key.bytes())),
            TabOp::Limit(key, seconds) => Ok(self.limit(key.bytes(), *seconds)),
            TabOp::RemoveMatching(number) => self.remove_matching(alloc, *number, patterns),
            TabOp::Reset => Ok(self.reset()),
        }
    }

    fn read(&self, alloc: Global, key: &[u8]) -> Result<TabReply, NoMemory> {
        if key.len() > 512 {
            return Ok(TabReply::TooLong);
        }
        match (self.items.get(key), self.spec.initval) {
            (Some(item), _) => Ok(TabReply::Value(item.value.copy(alloc)?)),
            (None, Some(n)) => Ok(TabReply::Value(Val::Int(n))),
            (None, None) => Ok(TabReply::Null),
        }
    }

    fn set(&mut self, alloc: Global, key: &[u8], value: &Val) -> Result<TabReply, NoMemory> {
        if let Val::Null = value {
            return Ok(self.remove(key));
        }
        if key.len() > 512 {
            return Ok(TabReply::TooLong);
        }
        self.assign(alloc, key, value.copy(alloc)?)?;
        Ok(TabReply::Done)
    }

    fn remove(&mut self, key: &[u8]) -> TabReply {
        if key.len() > 512 {
            return TabReply::TooLong;
        }
        self.items.remove(key);
        TabReply::Done
    }

    fn reset(&mut self) -> TabReply {
        let count = self.items.len();
        self.items.clear();
        TabReply::Count(count as u64)
    }

    fn assign(&mut self, alloc: Global, key: &[u8], value: Val) -> Result<(), NoMemory> {
        let due = due_after(self.clock, self.spec.autoexpire);
        self.items
            .insert(Vec::from_slice(alloc, key)?, Item { value, due })?;
        Ok(())
    }

    fn count(&mut self, alloc: Global, key: &[u8], step: i64) -> Result<TabReply, NoMemory> {
        if key.len() > 512 {
            return Ok(TabReply::TooLong);
        }
        let next = match self.items.get(key) {
            Some(item) => match item.value {
                Val::Int(n) => n.checked_add(step),
                _ => None,
            },
            None => self.spec.initval.unwrap_or(0).checked_add(step),
        };
        let Some(n) = next else {
            return Ok(TabReply::NotNumber);
        };
        self.assign(alloc, key, Val::Int(n))?;
        Ok(TabReply::Value(Val::Int(n)))
    }

    fn left(&self, key: &[u8]) -> TabReply {
        match self.items.get(key) {
            Some(item) => TabReply::Value(Val::Int(seconds_left(self.clock, item.due))),
            None if key.len() > 512 => TabReply::TooLong,
            None => TabReply::Null,
        }
    }

    fn limit(&mut self, key: &[u8], limit: i64) -> TabReply {
        let clock = self.clock;
        match (limit_seconds(limit), self.items.get_mut(key)) {
            (Some(seconds), Some(item)) => {
                item.due = due_after(clock, seconds);
                TabReply::Done
            }
            _ if key.len() > 512 => TabReply::TooLong,
            _ => TabReply::Null,
        }
    }

    fn remove_matching(
        &mut self,
        alloc: Global,
        number: u32,
        patterns: &Patterns,
    ) -> Result<TabReply, NoMemory> {
        let before = self.items.len();
        if let Some(pattern) = patterns.as_slice().get(number as usize) {
            let mut matcher = pattern.matcher(alloc)?;
            self.items
                .retain(|key, _| !matcher.is_match(key.as_slice()));
        }
        Ok(TabReply::Count(before.saturating_sub(self.items.len()) as u64))
    }
}
