//! Numbers that texts write.

ghost use Rattle.std.specs.Prelude.{◌≡◌};
ghost use Rattle.pv_values.specs.Numbers.{numeral, number_in};

/// The number that decimal digits write. `None` where there is no digit, another byte, or where the
/// number passes 64 bits.
fn digits_number(digits: &[u8]) -> Option<u64>
    ensures { result ≡ numeral digits.now }
{
    if digits.is_empty() {
        return None;
    }
    let mut n: u64 = 0;
    for &byte in digits {
        let digit = (byte as char).to_digit(10)?;
        n = n.checked_mul(10)?.checked_add(digit as u64)?;
    }
    Some(n)
}

/// The number that a text writes: an optional `-` and decimal digits, within 64 bits.
pub fn text_number(text: &[u8]) -> Option<i64>
    ensures { result ≡ number_in text.now }
{
    if let [b'-', digits @ ..] = text {
        0i64.checked_sub_unsigned(digits_number(digits)?)
    } else {
        i64::try_from(digits_number(text)?).ok()
    }
}
