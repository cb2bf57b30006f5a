//! Items.

ghost use Rattle.std.specs.Prelude.{◌≡◌, pos};
ghost use Rattle.ht_core.specs.Tables.{is_live, due_after, limit_seconds, seconds_left};

use pv_values::Val;

/// The longest limit, in seconds.
const LONGEST_LIMIT: u64 = 10_000_000;

/// What a table holds at a key.
#[derive(Debug, Drop)]
pub struct Item {
    pub value: Val,
    /// The moment from which on the item is absent. None is never.
    pub due: Option<u64>,
}

impl Item {
    pub(crate) fn is_live(&self, clock: u64) -> bool
        ensures { result ≡ is_live clock self.now }
    {
        match self.due {
            Some(due) => clock < due,
            None => true,
        }
    }
}

/// The moment after so many seconds, where there are any and a clock can come to it.
pub(crate) fn due_after(clock: u64, seconds: u64) -> Option<u64>
    ensures { result ≡ due_after clock seconds }
{
    if seconds == 0 {
        return None;
    }
    clock.checked_add(seconds.checked_mul(1000)?)
}

/// The seconds of a limit. None where they are below 0 or too many.
pub(crate) fn limit_seconds(limit: i64) -> Option<u64>
    ensures { result ≡ limit_seconds limit }
{
    match u64::try_from(limit) {
        Ok(seconds) if seconds <= LONGEST_LIMIT => Some(seconds),
        _ => None,
    }
}

/// The seconds until a due moment, rounded up.
pub(crate) fn seconds_left(clock: u64, due: Option<u64>) -> i64
    ensures { result ≡ pos (seconds_left clock due) }
{
    match due {
        Some(due) => due.saturating_sub(clock).div_ceil(1000) as i64,
        None => 0,
    }
}
