//! Numbers in decimal digits.
ghost use Rattle.std.specs.Prelude.{◌≡◌, ◌≤◌, ◌<◌, ◌^◌, length, IfSome, EachIndex, slice_index};
ghost use Rattle.std.specs.Str.Parse.{digits_value};
ghost use Rattle.std.specs.Char.{IsAsciiDigit};
ghost use Rattle.sip_words.specs.Numbers.{number_at};

use crate::bytes::Class;
use crate::words::word_end;

/// The number that these decimal digits write.
#[tactic(auto, using(crate::proofs::Digits::digits_more))]
fn value_of(digits: &[u8]) -> u64
    requires short { length digits.now ≤ 10 }
    requires digits { EachIndex digits.now (λ k. IsAsciiDigit (slice_index digits.now k)) }
    ensures { result ≡ digits_value 10 digits.now }
{
    let mut value = 0;
    for digit in digits {
        value = value * 10 + u64::from(*digit - b'0');
    }
    value
}

/// The number of one to `most` decimal digits at `from`, and its end. A longer run of digits is none.
#[tactic(auto, using(crate::proofs::Digits::digits_pass), unfolding(crate::specs::Numbers::number_at))]
pub fn number_at(text: &[u8], from: usize, most: usize) -> Option<(u64, usize)>
    requires place { from ≤ length text.now }
    requires short { most ≤ 10 }
    ensures value { result ≡ number_at most text.now from }
    ensures bounds { IfSome result (λ n. (from < n.1) × (n.1 ≤ length text.now)) }
{
    let end = word_end(text, from, Class::Digit)?;
    if most < end - from {
        return None;
    }
    Some((value_of(&text[from..end]), end))
}
