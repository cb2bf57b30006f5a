//! Arguments.

ghost use Rattle.std.specs.Prelude.{◌≡◌, IfOk, option_copied};
ghost use Rattle.cfg_tree.specs.Functions as functions;
ghost use Rattle.cfg_tree.specs.Functions.{between, number_arg, plain_decimal, not_below_0};
ghost use Rattle.cfg_calls.specs.Following.{Follows};

use crate::checker::{Checker, number};
use crate::joins::one;
use crate::known::Known;
use cfg_tree::{Part, RawArg, RefusalKind, RouteKind, Word};
use pv_values::{Place, Val, as_text, text_number};
use sqlite_items::Items;
use std::alloc::AllocError as NoMemory;

/// A literal argument, which is a string.
pub fn literal(arg: &RawArg) -> Option<&Word>
    ensures { option_copied result ≡ functions.literal arg.now }
{
    match arg {
        RawArg::String(word) => Some(word),
        RawArg::Number(_) | RawArg::Variable(_) => None,
    }
}

/// The number that is written in plain decimal: digits without a leading zero.
fn plain_number(text: &[u8], low: u16, high: u16) -> Option<u16>
    ensures { result ≡ between low high (plain_decimal text.now) }
{
    if text.len() > 1 && text.starts_with(b"0") || text.starts_with(b"-") {
        return None;
    }
    number_within(text_number(text)?, low, high)
}

/// A number within these bounds.
fn number_within(n: i64, low: u16, high: u16) -> Option<u16>
    ensures { result ≡ between low high (not_below_0 n) }
{
    let n = u16::try_from(n).ok()?;
    if low <= n && n <= high { Some(n) } else { None }
}

/// A number within these bounds, or a literal string of it in plain decimal.
pub fn number_argument(arg: &RawArg, low: u16, high: u16) -> Option<u16>
    ensures { result ≡ between low high (number_arg arg.now) }
{
    match arg {
        RawArg::Number(n) => number_within(*n, low, high),
        RawArg::String(word) => plain_number(word.text.bytes(), low, high),
        RawArg::Variable(_) => None,
    }
}

impl Checker {
    /// The parts of an argument that is expanded: a string, a variable, or a number, which is its decimal text.
    pub fn expanded(&mut self, known: &Known, arg: &RawArg) -> Result<Option<Items<Part>>, NoMemory>
        ensures { IfOk result (λ v. Follows (functions.expanded_arg known.now arg.now) self.old v self.new) }
    {
        match arg {
            RawArg::String(word) => self.expansion(known, word.at, word.text.bytes()),
            RawArg::Number(n) => {
                let text = as_text(self.alloc(), &Val::Int(*n))?;
                Ok(Some(one(self.alloc(), Part::Text(text))?))
            }
            RawArg::Variable(v) => match self.variable(known, v)? {
                Some(part) => Ok(Some(one(self.alloc(), part)?)),
                None => Ok(None),
            },
        }
    }

    /// The number of the block of this kind, which the word names.
    pub fn block_number(
        &mut self,
        known: &Known,
        kind: RouteKind,
        word: &Word,
    ) -> Result<Option<u32>, NoMemory>
        ensures { IfOk result (λ v. Follows (functions.block_number known.now kind word.now) self.old v self.new) }
    {
        match known.block(self.alloc(), kind, word.text.bytes())? {
            Some(place) => Ok(Some(number(place)?)),
            None => self.refuse(RefusalKind::UnknownRoute, word.at),
        }
    }

    /// The number of the table of this name.
    pub fn table_number(
        &mut self,
        known: &Known,
        at: Place,
        name: &[u8],
    ) -> Result<Option<u32>, NoMemory>
        ensures { IfOk result (λ v. Follows (functions.table_number known.now at name.now) self.old v self.new) }
    {
        match known.table(name) {
            Some(place) => Ok(Some(number(place)?)),
            None => self.refuse(RefusalKind::UnknownVariable, at),
        }
    }
}
