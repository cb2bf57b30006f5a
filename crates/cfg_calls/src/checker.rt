//! What is kept while a script is checked.

ghost use Rattle.std.specs.Prelude.{◌≡◌, ◌≤◌, ◌+◌, ◌^◌, ◌++◌, ◌∷◌, [], length, IfOk, OnOk, OnErr};
ghost use Rattle.cfg_tree.specs.Checks as checks;
ghost use Rattle.cfg_tree.specs.Names as names;
ghost use Rattle.cfg_tree.specs.Functions as functions;
ghost use Rattle.cfg_tree.specs.Refusals.{refusal, refused};
ghost use Rattle.cfg_calls.specs.Following.{CheckState, Follows, Counts};

use crate::vars::Names;
use cfg_settings::Refusal;
use cfg_tree::RefusalKind;
use pv_values::{PatternText, Place};
use sqlite_items::Items;
use std::alloc::{AllocError as NoMemory, Global};
use std::marker::Model;

/// The most statements of a script.
const STATEMENTS: usize = 50_000;

/// The most patterns of a script.
const PATTERNS: usize = 64;

/// What was refused and met so far, in the order of the text.
#[derive(Drop)]
pub struct Checker {
    alloc: Global,
    refusals: Items<Refusal>,
    statements: usize,
    patterns: Vec<PatternText>,
    vars: Names,
}

impl Model for Checker {
    ghost use Rattle.cfg_calls.specs.Following.{CheckState};

    ghost Value = { CheckState };

    ghost view = { λ c. record {
      refusals = c.refusals;
      seen = record { statements = c.statements; patterns = c.patterns.items; vars = c.vars };
    } };
}

/// The number of something by its place, which a place from 2^32 on hasn't.
pub fn number(place: usize) -> Result<u32, NoMemory>
    ensures number { IfOk result (λ n. n ≡ place) }
    ensures beyond { OnErr result (2 ^ 32 ≤ place) }
{
    u32::try_from(place).map_err(|_| NoMemory)
}

/// One more than so many, which the greatest number has not.
fn one_more(count: usize) -> Result<usize, NoMemory>
    ensures more { IfOk result (λ n. n ≡ count + 1) }
    ensures greatest { OnErr result (count ≡ usize.MAX) }
{
    count.checked_add(1).ok_or(NoMemory)
}

impl Checker {
    /// Nothing was met yet.
    pub fn new(alloc: Global, refusals: Items<Refusal>) -> Checker
        ensures { result ≡ record { refusals = refusals; seen = checks.nothing_seen } }
    {
        Checker {
            alloc,
            refusals,
            statements: 0,
            patterns: Vec::new(alloc),
            vars: Names::new(alloc),
        }
    }

    /// The refusals, the number of names of `$var`, and the patterns' texts.
    pub fn into_parts(self) -> Result<(Items<Refusal>, u32, Vec<PatternText>), NoMemory>
        ensures refusals { IfOk result (λ parts. parts.0 ≡ self.refusals) }
        ensures vars { IfOk result (λ parts. parts.1 ≡ length self.seen.vars) }
        ensures patterns { IfOk result (λ parts. parts.2.items ≡ self.seen.patterns) }
    {
        let vars = number(self.vars.len())?;
        Ok((self.refusals, vars, self.patterns))
    }

    pub fn alloc(&self) -> Global {
        self.alloc
    }

    /// Notes a refusal beside what is read.
    pub fn note(&mut self, kind: RefusalKind, at: Place) -> Result<(), NoMemory>
        ensures seen { OnOk result (self.new.seen ≡ self.old.seen) }
        ensures refusals { OnOk result (self.new.refusals ≡ self.old.refusals ++ refusal kind at ∷ []) }
    {
        self.refusals.push(Refusal::new(kind, at))
    }

    /// Refuses what stands here: there is no value.
    pub fn refuse<T: Drop>(&mut self, kind: RefusalKind, at: Place) -> Result<Option<T>, NoMemory>
        ensures { IfOk result (λ v. Follows (refused kind at) self.old v self.new) }
    {
        self.refusals.push(Refusal::new(kind, at))?;
        Ok(None)
    }

    /// The number of a name of `$var`.
    pub fn var_number(&mut self, name: &[u8]) -> Result<Option<u32>, NoMemory>
        ensures { IfOk result (λ v. Follows (names.var_number name.now) self.old v self.new) }
    {
        let place = self.vars.place(self.alloc, name)?;
        Ok(Some(number(place)?))
    }

    /// The number of one more pattern, at this place.
    pub fn pattern_number(&mut self, at: Place, source: &[u8]) -> Result<Option<u32>, NoMemory>
        ensures { IfOk result (λ v. Follows (functions.pattern_number at source.now) self.old v self.new) }
    {
        let Some(pattern) = PatternText::new(self.alloc, source)? else {
            return self.refuse(RefusalKind::BadPattern, at);
        };
        let place = self.patterns.len();
        if place >= PATTERNS {
            return self.refuse(RefusalKind::TooLarge, at);
        }
        self.patterns.push(pattern)?;
        Ok(Some(number(place)?))
    }

    /// Counts a statement, and tells whether it is one of those that a script may have.
    pub fn count(&mut self, at: Place) -> Result<bool, NoMemory>
        ensures { IfOk result (λ within. Counts at self.old within self.new) }
    {
        let within = self.statements < STATEMENTS;
        if !within {
            self.refusals.push(Refusal::new(RefusalKind::TooLarge, at))?;
        }
        self.statements = one_more(self.statements)?;
        Ok(within)
    }
}
