//! Matchers of patterns, which are made once: a match then takes no memory.

ghost use Rattle.std.specs.Prelude.{◌≡◌, slice_get};
ghost use Rattle.std.specs.Option.{option_map};
ghost use Rattle.pv_values.specs.Matching.{matches_in};

use crate::pattern::Pattern;
use regex::bytes::Matcher;
use std::marker::Model;

/// A matcher of a pattern, which contracts see as the pattern's text.
#[derive(Drop)]
pub struct PatternMatcher<'p> {
    pub(crate) pattern: &'p Pattern,
    pub(crate) matcher: Matcher<'p>,
}

impl<'p> Model for PatternMatcher<'p> {
    ghost use Rattle.std.specs.Prelude.{List, ℕ};
    ghost use Rattle.regex.specs.Bytes.{matcher_pattern};
    ghost use Rattle.pv_values.specs.Matching.{FindsAs};

    ghost Value = { List ℕ };

    ghost view = { λ m. m.pattern.now };

    ghost invariant = { λ m. ∥ FindsAs (matcher_pattern m.matcher) m.pattern.now ∥₁ };
}

impl PatternMatcher<'_> {
    /// The pattern matches somewhere in the text.
    pub fn is_match(&mut self, text: &[u8]) -> bool
        ensures found { result ≡ matches_in self.old text.now }
        ensures same { self.new ≡ self.old }
    {
        self.matcher.is_match(text)
    }
}

/// Matchers of the patterns of a script, by number. Contracts see the patterns' texts.
#[derive(Drop)]
pub struct Matchers<'p> {
    pub(crate) list: Vec<PatternMatcher<'p>>,
}

impl<'p> Model for Matchers<'p> {
    ghost use Rattle.std.specs.Prelude.{List, ℕ};

    ghost Value = { List (List ℕ) };

    ghost view = { λ m. m.list.items };
}

impl Matchers<'_> {
    /// The pattern of this number matches somewhere in the text. `None` exactly where there is no
    /// such pattern.
    pub fn is_match(&mut self, number: u32, text: &[u8]) -> Option<bool>
        ensures found { result ≡ option_map (λ source. matches_in source text.now) (slice_get self.old number) }
        ensures same { self.new ≡ self.old }
    {
        let number = number as usize;
        if number < self.list.len() {
            Some(self.list[number].is_match(text))
        } else {
            None
        }
    }
}
