ghost use Rattle.std.specs.Prelude.{◌≡◌, ◌^◌, ◌<◌, length};

mod plain;

use super::Wheel;
use plain::Plain;
use std::process::Abort;
use std::test::Fail;

enum Call {
    Set(u32, u64, u64),
    Clear(u32),
    Pop(u64, Option<(u32, u64, u64)>),
    Next(Option<u64>),
}

const LAST: u64 = u64::MAX;

const CALLS: [Call; 46] = [
    Call::Next(None),
    Call::Pop(LAST, None),
    // Of two timers of one moment the one of the lower slot goes first.
    Call::Set(1, 0, 7),
    Call::Set(0, 0, 7),
    Call::Pop(6, None),
    Call::Next(Some(7)),
    Call::Pop(7, Some((0, 0, 7))),
    Call::Pop(7, Some((1, 0, 7))),
    Call::Pop(7, None),
    Call::Next(None),
    // A slot has one timer, the one that was set last.
    Call::Set(2, 5, 100),
    Call::Set(2, 6, 50),
    Call::Next(Some(50)),
    Call::Pop(100, Some((2, 6, 50))),
    Call::Pop(100, None),
    Call::Set(2, 6, 50),
    Call::Set(2, 7, 60),
    Call::Pop(50, None),
    Call::Pop(60, Some((2, 7, 60))),
    // The greatest moment is one like others.
    Call::Set(3, 1, LAST),
    Call::Set(0, 2, LAST - 1),
    Call::Pop(LAST - 2, None),
    Call::Pop(LAST - 1, Some((0, 2, LAST - 1))),
    Call::Pop(LAST - 1, None),
    Call::Next(Some(LAST)),
    Call::Pop(LAST, Some((3, 1, LAST))),
    Call::Pop(LAST, None),
    // So is the least.
    Call::Set(1, LAST, 0),
    Call::Next(Some(0)),
    Call::Pop(0, Some((1, LAST, 0))),
    // A cleared timer does not go off, and a slot without one may be cleared.
    Call::Set(1, 0, 5),
    Call::Set(2, 0, 6),
    Call::Clear(1),
    Call::Clear(1),
    Call::Clear(3),
    Call::Next(Some(6)),
    Call::Pop(10, Some((2, 0, 6))),
    Call::Next(None),
    // The earliest goes first, whatever its slot.
    Call::Set(0, 1, 30),
    Call::Set(1, 2, 20),
    Call::Set(3, 3, 10),
    Call::Pop(30, Some((3, 3, 10))),
    Call::Pop(30, Some((1, 2, 20))),
    Call::Pop(29, None),
    Call::Pop(30, Some((0, 1, 30))),
    Call::Next(None),
];

fn play(rt: &impl Abort, wheel: &mut Wheel, call: &Call)
    requires { length wheel.old ≡ 4 }
    ensures { length wheel.new ≡ 4 }
{
    match *call {
        Call::Set(slot, generation, due) => {
            assert!(rt; slot < 4);
            wheel.set(slot, generation, due);
        }
        Call::Clear(slot) => {
            assert!(rt; slot < 4);
            wheel.clear(slot);
        }
        Call::Pop(now, want) => {
            let popped = wheel.pop_due(now);
            assert_eq!(rt; popped, want, "at {now}");
        }
        Call::Next(want) => assert_eq!(rt; wheel.next_due(), want),
    }
}

fn into_thread<T: Send>(value: T) -> T
    ensures { result ≡ value }
{
    value
}

#[test]
fn timers_go_off_in_order(rt: HostRuntime) -> Result<(), Fail> {
    let mut wheel = into_thread(Wheel::new(rt.alloc(), 4)?);
    for call in &CALLS {
        play(&rt, &mut wheel, call);
    }
    Ok(())
}

#[test]
fn wheel_of_no_slots_has_no_timer(rt: HostRuntime) -> Result<(), Fail> {
    let mut wheel = Wheel::new(rt.alloc(), 0)?;
    assert_eq!(rt; wheel.pop_due(LAST), None);
    assert_eq!(rt; wheel.next_due(), None);
    Ok(())
}

/// How many slots the wheel and the plain program have.
const SLOTS: u32 = 100;

/// Moments at the borders of the levels.
const BORDERS: [u64; 26] = [
    0,
    1,
    (1 << 8) - 1,
    1 << 8,
    (1 << 8) + 1,
    (1 << 16) - 1,
    1 << 16,
    (1 << 16) + 1,
    (1 << 24) - 1,
    1 << 24,
    (1 << 24) + 1,
    (1 << 32) - 1,
    1 << 32,
    (1 << 32) + 1,
    (1 << 40) - 1,
    1 << 40,
    (1 << 40) + 1,
    (1 << 48) - 1,
    1 << 48,
    (1 << 48) + 1,
    (1 << 56) - 1,
    1 << 56,
    (1 << 56) + 1,
    1 << 63,
    LAST - 1,
    LAST,
];

/// A number that looks drawn at random, below 2^31.
fn drawn(state: &mut u64) -> u64
    ensures { result < 2 ^ 31 }
{
    *state = state
        .wrapping_mul(6_364_136_223_846_793_005)
        .wrapping_add(1_442_695_040_888_963_407);
    *state >> 33
}

/// A moment at a border, at this one or just beside it, before or after it, or with another byte.
fn moment(state: &mut u64, at: u64) -> u64 {
    let (way, some) = (drawn(state) % 5, drawn(state));
    match way {
        0 => BORDERS[(some % 26) as usize],
        1 => at.saturating_add(some % 3),
        2 => at.saturating_add(some % 70_000),
        3 => at.saturating_sub(some % 600),
        _ => at ^ some % 256 << 8 * (some / 256 % 8),
    }
}

/// Asks both for the timer that is due at `now`, and answers whether there was one.
fn pop(rt: &impl Abort, wheel: &mut Wheel, plain: &mut Plain, now: u64) -> bool
    requires wheel { length wheel.old ≡ 100 }
    requires plain { length plain.old ≡ 100 }
    ensures wheel { length wheel.new ≡ 100 }
    ensures plain { length plain.new ≡ 100 }
{
    let popped = wheel.pop_due(now);
    assert_eq!(rt; popped, plain.pop_due(now), "at {now}");
    popped.is_some()
}

/// Makes one call of both, asserts that they answer the same, and answers whether a timer went off.
fn call_both(
    rt: &impl Abort,
    wheel: &mut Wheel,
    plain: &mut Plain,
    state: &mut u64,
    now: &mut u64,
) -> bool
    requires wheel { length wheel.old ≡ 100 }
    requires plain { length plain.old ≡ 100 }
    ensures wheel { length wheel.new ≡ 100 }
    ensures plain { length plain.new ≡ 100 }
{
    let slot = (drawn(state) % 100) as u32;
    match drawn(state) % 8 {
        0..=3 => {
            let (generation, due) = (drawn(state), moment(state, *now));
            wheel.set(slot, generation, due);
            plain.set(slot, generation, due);
            false
        }
        4 => {
            wheel.clear(slot);
            plain.clear(slot);
            false
        }
        5 => {
            *now = moment(state, *now);
            pop(rt, wheel, plain, *now)
        }
        6 => pop(rt, wheel, plain, *now),
        _ => {
            assert_eq!(rt; wheel.next_due(), plain.next_due());
            false
        }
    }
}

#[test]
fn wheel_answers_as_the_plain_program(rt: HostRuntime) -> Result<(), Fail> {
    let (mut state, mut gone_off) = (1, 0u32);
    for round in 0..20 {
        let mut wheel = Wheel::new(rt.alloc(), SLOTS)?;
        let mut plain = Plain::new(rt.alloc(), SLOTS)?;
        let mut now = 0;
        for call in 0..400 {
            if call_both(&rt, &mut wheel, &mut plain, &mut state, &mut now) {
                gone_off = gone_off.saturating_add(1);
            }
        }
    }
    assert!(rt; gone_off > 1_000, "only {gone_off} timers went off");
    Ok(())
}

/// The due moments of all slots.
#[derive(Clone, Copy)]
enum Dues {
    /// In one list of a higher level, later from slot to slot.
    Rising,
    /// The same, earlier from slot to slot.
    Falling,
    AtBorders,
    AtOneMoment,
}

impl Dues {
    fn of(self, slot: u32) -> u64 {
        match self {
            Dues::Rising => 70_000 + u64::from(slot) * 7,
            Dues::Falling => 900_000u64.saturating_sub(u64::from(slot) * 7),
            Dues::AtBorders => BORDERS[(slot % 26) as usize],
            Dues::AtOneMoment => LAST,
        }
    }
}

/// Sets all slots of both, the first one again to another moment, and asserts that all go off, in the same order.
fn all_go_off(rt: &impl Abort, wheel: &mut Wheel, plain: &mut Plain, dues: Dues)
    requires wheel { length wheel.old ≡ 100 }
    requires plain { length plain.old ≡ 100 }
    ensures wheel { length wheel.new ≡ 100 }
    ensures plain { length plain.new ≡ 100 }
{
    for slot in 0..SLOTS {
        let due = dues.of(slot);
        wheel.set(slot, 0, due);
        plain.set(slot, 0, due);
    }
    let later = dues.of(SLOTS);
    wheel.set(0, 1, later);
    plain.set(0, 1, later);
    for left in 0..SLOTS {
        assert_eq!(rt; wheel.next_due(), plain.next_due());
        assert!(rt; pop(rt, wheel, plain, LAST));
    }
    assert!(rt; !pop(rt, wheel, plain, LAST));
}

#[test]
fn all_timers_go_off_in_order(rt: HostRuntime) -> Result<(), Fail> {
    let mut wheel = Wheel::new(rt.alloc(), SLOTS)?;
    let mut plain = Plain::new(rt.alloc(), SLOTS)?;
    for dues in [
        Dues::Rising,
        Dues::Falling,
        Dues::AtBorders,
        Dues::AtOneMoment,
    ] {
        all_go_off(&rt, &mut wheel, &mut plain, dues);
    }
    Ok(())
}
