//! Patterns by their texts: each is tested where it is met, and built later.

ghost use Rattle.std.specs.Prelude.{◌≡◌, Some, None, true, IfOk, if◌then◌else◌};
ghost use Rattle.pv_values.specs.Matching.{is_pattern};

use crate::pattern::{Pattern, PatternFault};
use crate::text::Text;
use regex_syntax::{Config, ErrorKind, parse};
use std::alloc::{AllocError as NoMemory, Global};
use std::marker::Model;

/// How `regex` reads a pattern that matches bytes.
fn byte_config() -> Config
    ensures { result ≡ Rattle.pv_values.specs.Matching.byte_config }
{
    Config {
        utf8: false,
        ..Config::default()
    }
}

impl Pattern {
    /// Whether the text is a pattern, of which nothing is built: it is UTF-8, `regex` reads it, and it isn't nested too
    /// deep for it.
    pub fn is_pattern(alloc: Global, source: &[u8]) -> Result<bool, NoMemory>
        ensures { IfOk result (λ is. is ≡ is_pattern source.now) }
    {
        let Ok(text) = str::from_utf8(source) else {
            return Ok(false);
        };
        match parse(alloc, text, &byte_config()) {
            Ok(_) => Ok(true),
            Err(error) if error.kind == ErrorKind::OutOfMemory => Err(NoMemory),
            Err(_) => Ok(false),
        }
    }
}

/// The text of a pattern, which contracts see as the text.
#[derive(Drop)]
pub struct PatternText {
    text: Text,
}

impl Model for PatternText {
    ghost use Rattle.std.specs.Prelude.{List, ℕ, ◌≡◌, true};
    ghost use Rattle.pv_values.specs.Matching.{is_pattern};

    ghost Value = { List ℕ };

    ghost view = { λ p. p.text };

    ghost invariant = { λ p. is_pattern p.text ≡ true };
}

impl PatternText {
    /// A copy of the text, where it is a pattern.
    pub fn new(alloc: Global, source: &[u8]) -> Result<Option<PatternText>, NoMemory>
        ensures { IfOk result (λ t. t ≡ if is_pattern source.now then Some source.now else None) }
    {
        if !Pattern::is_pattern(alloc, source)? {
            return Ok(None);
        }
        let text = Text::from_slice(alloc, source)?;
        Ok(Some(PatternText { text }))
    }

    /// Builds the pattern.
    pub fn build(&self, alloc: Global) -> Result<Pattern, NoMemory>
        ensures { IfOk result (λ p. p ≡ self.now) }
    {
        match Pattern::new(alloc, self.text.bytes()) {
            Ok(pattern) => Ok(pattern),
            Err(PatternFault::NoMemory) => Err(NoMemory),
            // The text is a pattern.
            Err(PatternFault::NotAPattern) => unreachable!(),
        }
    }
}
