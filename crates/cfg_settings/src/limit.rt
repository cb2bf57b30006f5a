//! Values that may be given once, and numbers within bounds.

ghost use Rattle.std.specs.Prelude.{◌≡◌};
ghost use Rattle.cfg_tree.specs.Functions.{between};
ghost use Rattle.cfg_tree.specs.Settings.{first_time, natural};

/// A value where none was given before.
pub fn first_time<T: Copy>(old: Option<T>, new: Option<T>) -> Option<T>
    ensures { result ≡ first_time old new }
{
    match old {
        None => new,
        Some(_) => None,
    }
}

/// A number within these bounds.
pub fn number_between(low: u32, high: u32, number: Option<i64>) -> Option<u32>
    ensures { result ≡ between low high (natural number) }
{
    let number = u32::try_from(number?).ok()?;
    if low <= number && number <= high {
        Some(number)
    } else {
        None
    }
}
