//! Patterns of a script (`=~`, `t_check_status`, `sht_rm_name_re`), and what they match.

ghost use Rattle.std.specs.Prelude.{◌≡◌, false, true, IfOk, IfErr, List, ℕ};
ghost use Rattle.pv_values.specs.Matching.{is_pattern, matches_in};

use crate::matcher::{Matchers, PatternMatcher};
use regex::bytes::Regex;
use sqlite_items::Items;
use std::alloc::{AllocError as NoMemory, Global};
use std::marker::Model;

/// Why a text gives no pattern.
#[derive(Clone, Copy, Debug, PartialEq, Eq)]
pub enum PatternFault {
    /// It isn't UTF-8, `regex` doesn't read it, or it is nested too deep for it.
    NotAPattern,
    NoMemory,
}

/// A pattern, which contracts see as its text.
#[derive(Drop)]
pub struct Pattern {
    pub(crate) regex: Regex,
}

impl Model for Pattern {
    ghost use Rattle.std.specs.Prelude.{List, ℕ, ◌≡◌};
    ghost use Rattle.regex.specs.Bytes.{regex_source, regex_config, IsReadFromSource};
    ghost use Rattle.pv_values.specs.Matching.{byte_config};

    ghost Value = { List ℕ };

    ghost view = { λ p. regex_source p.regex };

    ghost invariant = { λ p. ∥ IsReadFromSource p.regex × (regex_config p.regex ≡ byte_config) ∥₁ };
}

impl Pattern {
    /// Builds the pattern. `NotAPattern` exactly where the text is none.
    pub fn new(alloc: Global, source: &[u8]) -> Result<Pattern, PatternFault>
        ensures text { IfOk result (λ p. p ≡ source.now) }
        ensures read { IfOk result (λ _. is_pattern source.now ≡ true) }
        ensures refused { IfErr result (λ e. e ≡ PatternFault.NotAPattern → is_pattern source.now
            ≡ false) }
    {
        let Ok(text) = str::from_utf8(source) else {
            return Err(PatternFault::NotAPattern);
        };
        match Regex::new(alloc, text) {
            Ok(regex) => Ok(Pattern { regex }),
            Err(regex::Error::Syntax(_)) => Err(PatternFault::NotAPattern),
            Err(_) => Err(PatternFault::NoMemory),
        }
    }

    /// The pattern matches somewhere in the text.
    pub fn is_match(&self, alloc: Global, text: &[u8]) -> Result<bool, NoMemory>
        ensures { IfOk result (λ found. found ≡ matches_in self.now text.now) }
    {
        Ok(self.matcher(alloc)?.is_match(text))
    }

    /// A matcher of the pattern, for many matches.
    pub fn matcher(&self, alloc: Global) -> Result<PatternMatcher<'_>, NoMemory>
        ensures { IfOk result (λ m. m ≡ self.now) }
    {
        Ok(PatternMatcher {
            matcher: self.regex.matcher(alloc)?,
            pattern: self,
        })
    }
}

/// The patterns of a script, by number.
#[derive(Drop)]
pub struct Patterns {
    list: Items<Pattern>,
}

impl Model for Patterns {
    ghost use Rattle.std.specs.Prelude.{List, ℕ};

    ghost Value = { List (List ℕ) };

    ghost view = { λ p. p.list };
}

impl Patterns {
    pub fn of(list: Vec<Pattern>) -> Patterns
        ensures { result ≡ list.items }
    {
        Patterns {
            list: Items::from_vec(list),
        }
    }

    pub fn as_slice(&self) -> &[Pattern]
        ensures { result.now ≡ self.now }
    {
        self.list.as_slice()
    }

    /// A matcher of each pattern, for many matches.
    pub fn matchers(&self, alloc: Global) -> Result<Matchers<'_>, NoMemory>
        ensures { IfOk result (λ m. m ≡ self.now) }
    {
        let mut list = Vec::new(alloc);
        for pattern in self.as_slice() {
            list.push(pattern.matcher(alloc)?)?;
        }
        Ok(Matchers { list })
    }
}
