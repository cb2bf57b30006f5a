//! In which list of a wheel a moment stands.
//!
//! On each side of the wheel's last moment there are eight levels of 256 lists. A moment stands in the level of the highest byte
//! in which it differs from the last moment, and there in the list of that byte. The lists are numbered in the order of their
//! moments: so of two moments in two lists the one in the lower list is the earlier one.
ghost use Rattle.std.specs.Prelude.{◌≡◌, ℕ, ◌<◌, ◌≤◌};
ghost use Rattle.timer_wheel.specs.Levels as levels;

/// The first list of the moments from the last one on. Its level is the lowest, where each list has one moment.
const MIDDLE: u16 = 2048;

/// The first list above that level.
pub const HIGHER: u16 = MIDDLE + 256;

/// The list in which a moment stands, where `last` is the wheel's last one.
pub fn list_at(last: u64, due: u64) -> u16
    ensures list { result ≡ levels.list_at last due }
    ensures few { result < 4096 }
{
    if due < last {
        MIDDLE - 1 - level_list(!last, !due)
    } else {
        MIDDLE + level_list(last, due)
    }
}

/// The place of a moment among the lists of the moments from `last` on.
fn level_list(last: u64, due: u64) -> u16
    requires { last ≤ due }
    ensures list { result ≡ levels.level_list 8 last due }
    ensures few { result < 2048 }
{
    let (mut last, mut due) = (last, due);
    let mut level = 0;
    while due / 256 != last / 256 {
        due /= 256;
        last /= 256;
        level += 256;
    }
    level + (due % 256) as u16
}
