//! The word of a slot: `WAYS` times the latest serial, and the number of the way in which that suspension was ended, or 0
//! while it is open. What each way is in a word stands here and nowhere else, and in `specs/Words.antt`.
ghost use Rattle.std.specs.Prelude.{◌≡◌};
ghost use Rattle.claim_words.specs.Words.{end_by_word, by_of, code};

use crate::{By, ClaimEnd};

// A number above that of each way.
pub(crate) const WAYS: u64 = 4;

// The most suspensions of a slot.
pub(crate) const MOST: u64 = 1 << 60;

// The number of a way.
pub(crate) fn code_of(by: By) -> u64
    ensures { result ≡ code by }
{
    match by {
        By::Continued => 1,
        By::TimedOut => 2,
        By::Cancelled => 3,
    }
}

// The way of a number.
fn way_of(n: u64) -> By
    ensures { result ≡ by_of n }
{
    match n {
        1 => By::Continued,
        2 => By::TimedOut,
        _ => By::Cancelled,
    }
}

// What a claim of a serial comes to at this word.
pub(crate) fn end_of(found: u64, serial: u64) -> ClaimEnd
    ensures { result ≡ end_by_word found serial }
{
    let latest = found / WAYS;
    if serial == 0 || latest < serial {
        ClaimEnd::Unknown
    } else if serial < latest {
        ClaimEnd::Past(latest)
    } else if found % WAYS == 0 {
        ClaimEnd::Won(serial - 1)
    } else {
        ClaimEnd::Lost(way_of(found % WAYS))
    }
}
