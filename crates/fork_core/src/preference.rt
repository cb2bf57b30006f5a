//! Which of two final responses is the better one to send.

ghost use Rattle.std.specs.Prelude.{◌≡◌, ◌↔◌, IsTrue};
ghost use Rattle.fork_core.specs.Preference.{group_of, place_in_class, IsBetterCode};

/// Whether a response with the status code `code` goes before one with `other`, whatever their branches: a 6xx before all others,
/// then the lowest class, in their class 401, 407, 415, 420 and 484 before the others, then the lowest code.
pub fn goes_before(code: u16, other: u16) -> bool
    ensures { IsTrue result ↔ IsBetterCode code other }
{
    let (group, other_group) = (group(code), group(other));
    let (place, other_place) = (place(code), place(other));
    if group != other_group {
        group < other_group
    } else if place != other_place {
        place < other_place
    } else {
        code < other
    }
}

/// The place of the code's class: 0 for a 6xx, which goes before all others.
fn group(code: u16) -> u16
    ensures { result ≡ group_of code }
{
    if code >= 600 { 0 } else { code / 100 }
}

/// The place of the code in its class: 0 for those that go before the others.
fn place(code: u16) -> u16
    ensures { result ≡ place_in_class code }
{
    match code {
        401 | 407 | 415 | 420 | 484 => 0,
        _ => 1,
    }
}
