//! The table.

ghost use Rattle.std.specs.Prelude.{◌≡◌, true, IfOk, OnOk, OnErr, slice_get};
ghost use Rattle.std.specs.Option.{option_copied};
ghost use Rattle.std.specs.FinMap as map;
ghost use Rattle.ht_core.specs.declared.operation.TabReply.TheVariants as reply;
ghost use Rattle.ht_core.specs.Tables.{fresh, at, holding, due_after, reading, left, limit_seconds, limited, counted_from, stepped, is_full, set_to, count_by, all_matching, all_keys, is_too_long, is_found_by, is_refusal, done, Comes, IsStep};
ghost use Rattle.ht_core.specs.Shown.{state_of};

use crate::held::Held;
use crate::item::{Item, due_after, limit_seconds, seconds_left};
use crate::name::Name;
use crate::operation::{TabOp, TabReply};
use key_hash::HashState;
use pv_values::{PatternMatcher, Patterns, TableSpec, Val};
use std::alloc::{AllocError as NoMemory, Global};

/// The longest key, and the longest text of a value, in bytes.
const LONGEST: usize = 512;

/// How many live items a table has at most.
const MOST_ITEMS: usize = 100_000;

/// A table. A clause sees it by `state_of`: its specification, the greatest moment so far, and its live items.
#[derive(Drop)]
pub struct Table {
    spec: TableSpec,
    clock: u64,
    /// The live items, and some that are no longer live.
    held: Held,
}

impl Table {
    /// A table without items. Its keys are hashed with a fixed seed.
    pub fn new(alloc: Global, spec: TableSpec) -> Result<Table, NoMemory>
        ensures { IfOk result (λ t. state_of t ≡ fresh spec) }
    {
        Table::with_hasher(alloc, spec, HashState::Fixed)
    }

    /// A table without items, whose keys are hashed by this.
    pub fn with_hasher(alloc: Global, spec: TableSpec, state: HashState) -> Result<Table, NoMemory>
        ensures { IfOk result (λ t. state_of t ≡ fresh spec) }
    {
        Ok(Table {
            spec,
            clock: 0,
            held: Held::new(alloc, state),
        })
    }

    /// Does the operation at this moment; one that is earlier than an earlier call's counts as that. A number of no pattern
    /// matches in no key.
    pub fn apply(
        &mut self,
        alloc: Global,
        op: TabOp,
        patterns: &Patterns,
        now: u64,
    ) -> Result<TabReply, NoMemory>
        ensures step { IsStep patterns.now (state_of self.old) (record { op = op; now = now; reply = result }) (state_of self.new) }

        // Out of memory, and after any answer other than Value, Done or Count, the live items are as they were.
        ensures refused { is_refusal result ≡ true → state_of self.new ≡ at now (state_of self.old) }
    {
        self.rise(now);
        if is_too_long(&op) {
            return Ok(TabReply::TooLong);
        }
        self.answer(alloc, op, patterns)
    }

    /// Sets the clock to this moment, unless it is later, and takes out a few items that are no longer live.
    fn rise(&mut self, now: u64)
        ensures { state_of self.new ≡ at now (state_of self.old) }
    {
        self.clock = self.clock.max(now);
        self.held.expire(self.clock);
    }

    /// Does the operation, of which nothing is too long.
    fn answer(
        &mut self,
        alloc: Global,
        op: TabOp,
        patterns: &Patterns,
    ) -> Result<TabReply, NoMemory>
        ensures { Comes (state_of self.old) (done patterns.now (state_of self.old) op) result (state_of self.new) }
    {
        match op {
            TabOp::Get(key) => self.read(alloc, &Name::of(key)),
            TabOp::Set(key, value) => self.set(Name::of(key), value),
            TabOp::Remove(key) => Ok(self.remove(&Name::of(key))),
            TabOp::Inc(key) => self.count(Name::of(key), 1),
            TabOp::Dec(key) => self.count(Name::of(key), -1),
            TabOp::Left(key) => Ok(self.left(&Name::of(key))),
            TabOp::Limit(key, seconds) => self.limit(&Name::of(key), seconds),
            TabOp::RemoveMatching(number) => {
                let matcher = matcher_of(alloc, number, patterns)?;
                Ok(self.remove_matching(matcher))
            }
            TabOp::Reset => Ok(self.reset()),
        }
    }

    /// The live item of a key.
    fn item(&self, name: &Name) -> Option<&Item>
        ensures { option_copied result ≡ map.get (state_of self.now).items name.now }
    {
        match self.held.get(name) {
            Some(item) if item.is_live(self.clock) => Some(item),
            _ => None,
        }
    }

    fn read(&self, alloc: Global, name: &Name) -> Result<TabReply, NoMemory>
        ensures { IfOk result (λ a. a ≡ reading (state_of self.now) (map.get (state_of self.now).items name.now)) }
    {
        match (self.item(name), self.spec.initval) {
            (Some(item), _) => Ok(TabReply::Value(item.value.copy(alloc)?)),
            (None, Some(n)) => Ok(TabReply::Value(Val::Int(n))),
            (None, None) => Ok(TabReply::Null),
        }
    }

    fn set(&mut self, name: Name, value: Val) -> Result<TabReply, NoMemory>
        ensures { Comes (state_of self.old) (set_to (state_of self.old) name value) result (state_of self.new) }
    {
        if let Val::Null = value {
            return Ok(self.remove(&name));
        }
        if self.is_full(&name) {
            return Ok(TabReply::Full);
        }
        self.assign(name, value)?;
        Ok(TabReply::Done)
    }

    fn remove(&mut self, name: &Name) -> TabReply
        ensures answered { result ≡ reply.Done }
        ensures leaves { state_of self.new ≡ holding (state_of self.old) (map.remove (state_of self.old).items name.now) }
    {
        self.held.remove(name);
        TabReply::Done
    }

    /// Adds a step to the number of a key.
    fn count(&mut self, name: Name, step: i64) -> Result<TabReply, NoMemory>
        ensures { Comes (state_of self.old) (count_by (state_of self.old) name step) result (state_of self.new) }
    {
        if self.is_full(&name) {
            return Ok(TabReply::Full);
        }
        let Some(n) = self.stepped(&name, step) else {
            return Ok(TabReply::NotNumber);
        };
        self.assign(name, Val::Int(n))?;
        Ok(TabReply::Value(Val::Int(n)))
    }

    /// The number that a key is counted to.
    fn stepped(&self, name: &Name, step: i64) -> Option<i64>
        ensures { result ≡ stepped step (counted_from (state_of self.now) (map.get (state_of self.now).items name.now)) }
    {
        match self.item(name) {
            Some(item) => match item.value {
                Val::Int(n) => n.checked_add(step),
                _ => None,
            },
            None => self.spec.initval.unwrap_or(0).checked_add(step),
        }
    }

    fn left(&self, name: &Name) -> TabReply
        ensures { result ≡ left (state_of self.now) (map.get (state_of self.now).items name.now) }
    {
        match self.item(name) {
            Some(item) => TabReply::Value(Val::Int(seconds_left(self.clock, item.due))),
            None => TabReply::Null,
        }
    }

    fn limit(&mut self, name: &Name, limit: i64) -> Result<TabReply, NoMemory>
        ensures { Comes (state_of self.old) (limited (state_of self.old) name.now (limit_seconds limit) (map.get (state_of self.old).items name.now)) result (state_of self.new) }
    {
        match limit_seconds(limit) {
            Some(seconds) => self.give_seconds(name, seconds),
            None => Ok(TabReply::Null),
        }
    }

    /// The item lives so many seconds from now.
    fn give_seconds(&mut self, name: &Name, seconds: u64) -> Result<TabReply, NoMemory>
        ensures { Comes (state_of self.old) (limited (state_of self.old) name.now (Some seconds) (map.get (state_of self.old).items name.now)) result (state_of self.new) }
    {
        if self.item(name).is_none() {
            return Ok(TabReply::Null);
        }
        self.held.set_due(name, due_after(self.clock, seconds))?;
        Ok(TabReply::Done)
    }

    /// A new key would be one too many.
    fn is_full(&mut self, name: &Name) -> bool
        ensures full { result ≡ is_full (state_of self.old) name.now }
        ensures same { state_of self.new ≡ state_of self.old }
    {
        if self.held.len() < MOST_ITEMS || self.item(name).is_some() {
            return false;
        }
        !self.held.is_below(self.clock, MOST_ITEMS)
    }

    /// Gives the key a value, whose life starts anew.
    fn assign(&mut self, name: Name, value: Val) -> Result<(), NoMemory>
        ensures ok { OnOk result (state_of self.new ≡ holding (state_of self.old) (map.insert (state_of self.old).items name (record { value = value; due = due_after self.old.clock self.old.spec.autoexpire }))) }
        ensures err { OnErr result (state_of self.new ≡ state_of self.old) }
    {
        let due = due_after(self.clock, self.spec.autoexpire);
        self.held.put(name, Item { value, due })
    }

    fn remove_matching(&mut self, matcher: Option<PatternMatcher>) -> TabReply
        ensures { Comes (state_of self.old) (all_matching (is_found_by matcher.entry) (state_of self.old)) (Ok result) (state_of self.new) }
    {
        let before = self.held.keep_live(self.clock);
        self.held.remove_matching(matcher);
        TabReply::Count((before - self.held.len()) as u64)
    }

    fn reset(&mut self) -> TabReply
        ensures { Comes (state_of self.old) (all_keys (state_of self.old)) (Ok result) (state_of self.new) }
    {
        let before = self.held.keep_live(self.clock);
        self.held.clear();
        TabReply::Count(before as u64)
    }
}

/// A matcher of the pattern of this number, if there is one.
fn matcher_of(
    alloc: Global,
    number: u32,
    patterns: &Patterns,
) -> Result<Option<PatternMatcher<'_>>, NoMemory>
    ensures { IfOk result (λ m. m ≡ slice_get patterns.now number) }
{
    match patterns.as_slice().get(number as usize) {
        Some(pattern) => Ok(Some(pattern.matcher(alloc)?)),
        None => Ok(None),
    }
}

/// The key or the text of the operation has too many bytes.
fn is_too_long(op: &TabOp) -> bool
    ensures { result ≡ is_too_long op.now }
{
    match op {
        TabOp::Get(key)
        | TabOp::Remove(key)
        | TabOp::Inc(key)
        | TabOp::Dec(key)
        | TabOp::Left(key)
        | TabOp::Limit(key, _) => key.bytes().len() > LONGEST,
        TabOp::Set(key, Val::Text(text)) => {
            key.bytes().len() > LONGEST || text.bytes().len() > LONGEST
        }
        TabOp::Set(key, _) => key.bytes().len() > LONGEST,
        TabOp::RemoveMatching(_) | TabOp::Reset => false,
    }
}
