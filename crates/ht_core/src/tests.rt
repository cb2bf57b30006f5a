//! The operations on a table, case by case, and beside the plain program.

ghost use Rattle.std.specs.Prelude.{◌^◌, ◌<◌};

mod expiry;
mod plain;

use super::{Key, TabOp, TabReply, Table};
use plain::Plain;
use pv_values::{Pattern, Patterns, TableSpec, Text, Val};
use std::alloc::{AllocError, Global};
use std::process::Abort;
use std::test::Fail;

/// An operation, by its texts.
#[derive(Clone, Copy, Debug)]
enum Op {
    Get(&'static [u8]),
    SetText(&'static [u8], &'static [u8]),
    SetInt(&'static [u8], i64),
    SetNull(&'static [u8]),
    Remove(&'static [u8]),
    Inc(&'static [u8]),
    Dec(&'static [u8]),
    Left(&'static [u8]),
    Limit(&'static [u8], i64),
    RemoveMatching(u32),
    Reset,
}

/// What is answered, by its text.
#[derive(Clone, Copy, Debug)]
enum Want {
    Text(&'static [u8]),
    Int(i64),
    Null,
    Done,
    Full,
    TooLong,
    NotNumber,
    Count(u64),
}

const KEY_512: &[u8] = &[b'k'; 512];

const KEY_513: &[u8] = &[b'k'; 513];

pub(crate) fn key(alloc: Global, bytes: &[u8]) -> Result<Key, AllocError> {
    Ok(Key::of(Text::from_slice(alloc, bytes)?))
}

fn operation(alloc: Global, op: Op) -> Result<TabOp, AllocError> {
    Ok(match op {
        Op::Get(k) => TabOp::Get(key(alloc, k)?),
        Op::SetText(k, text) => {
            TabOp::Set(key(alloc, k)?, Val::Text(Text::from_slice(alloc, text)?))
        }
        Op::SetInt(k, n) => TabOp::Set(key(alloc, k)?, Val::Int(n)),
        Op::SetNull(k) => TabOp::Set(key(alloc, k)?, Val::Null),
        Op::Remove(k) => TabOp::Remove(key(alloc, k)?),
        Op::Inc(k) => TabOp::Inc(key(alloc, k)?),
        Op::Dec(k) => TabOp::Dec(key(alloc, k)?),
        Op::Left(k) => TabOp::Left(key(alloc, k)?),
        Op::Limit(k, n) => TabOp::Limit(key(alloc, k)?, n),
        Op::RemoveMatching(number) => TabOp::RemoveMatching(number),
        Op::Reset => TabOp::Reset,
    })
}

fn is_wanted(reply: &TabReply, want: Want) -> bool {
    match (reply, want) {
        (TabReply::Value(Val::Text(text)), Want::Text(wanted)) => text.bytes() == wanted,
        (TabReply::Value(Val::Int(n)), Want::Int(wanted)) => *n == wanted,
        (TabReply::Count(n), Want::Count(wanted)) => *n == wanted,
        (TabReply::Null, Want::Null)
        | (TabReply::Done, Want::Done)
        | (TabReply::Full, Want::Full)
        | (TabReply::TooLong, Want::TooLong)
        | (TabReply::NotNumber, Want::NotNumber) => true,
        _ => false,
    }
}

fn spec(autoexpire: u64, initval: Option<i64>) -> TableSpec {
    TableSpec {
        size: 8,
        autoexpire,
        initval,
        update: true,
    }
}

/// The patterns of the calls: keys that begin with an `a`, and keys with a `b`.
fn patterns_of(rt: &impl Abort, alloc: Global) -> Result<Patterns, AllocError> {
    let mut list = Vec::new(alloc);
    for source in [b"^a".as_slice(), b"b".as_slice()] {
        match Pattern::new(alloc, source) {
            Ok(pattern) => list.push(pattern)?,
            Err(_) => assert!(rt; false),
        }
    }
    Ok(Patterns::of(list))
}

fn play(
    rt: &impl Abort,
    alloc: Global,
    spec: TableSpec,
    calls: &[(u64, Op, Want)],
) -> Result<(), Fail> {
    let patterns = patterns_of(rt, alloc)?;
    let mut table = Table::new(alloc, spec)?;
    for &(now, op, want) in calls {
        let reply = table.apply(alloc, operation(alloc, op)?, &patterns, now)?;
        assert!(rt; is_wanted(&reply, want), "at {now} {op:?} {want:?}");
    }
    Ok(())
}

#[test]
fn an_item_lives_for_a_minute(rt: HostRuntime) -> Result<(), Fail> {
    let calls = [
        (0, Op::SetText(b"k", b"v"), Want::Done),
        (59_999, Op::Get(b"k"), Want::Text(b"v")),
        (60_000, Op::Get(b"k"), Want::Null),
        (60_000, Op::Inc(b"new"), Want::Int(1)),
        (60_000, Op::SetText(b"x", b"x"), Want::Done),
        (60_000, Op::Inc(b"x"), Want::NotNumber),
        (60_000, Op::Get(b"x"), Want::Text(b"x")),
        (60_000, Op::SetInt(b"m", i64::MAX), Want::Done),
        (60_000, Op::Inc(b"m"), Want::NotNumber),
        (60_000, Op::Get(b"m"), Want::Int(i64::MAX)),
        (60_000, Op::Dec(b"m"), Want::Int(i64::MAX - 1)),
        (60_000, Op::SetInt(b"m", i64::MIN), Want::Done),
        (60_000, Op::Dec(b"m"), Want::NotNumber),
        (60_000, Op::Get(b"m"), Want::Int(i64::MIN)),
        (60_000, Op::Inc(b"m"), Want::Int(i64::MIN + 1)),
        // A text that reads as a number is a text.
        (60_000, Op::SetText(b"x", b"5"), Want::Done),
        (60_000, Op::Inc(b"x"), Want::NotNumber),
        (60_000, Op::Dec(b"x"), Want::NotNumber),
    ];
    play(&rt, rt.alloc(), spec(60, None), &calls)
}

#[test]
fn each_operation_on_an_absent_a_live_and_an_expired_key(rt: HostRuntime) -> Result<(), Fail> {
    let calls = [
        // absent
        (0, Op::Get(b"k"), Want::Null),
        (0, Op::Left(b"k"), Want::Null),
        (0, Op::Limit(b"k", 5), Want::Null),
        (0, Op::Remove(b"k"), Want::Done),
        (0, Op::SetNull(b"k"), Want::Done),
        (0, Op::Reset, Want::Count(0)),
        (0, Op::RemoveMatching(0), Want::Count(0)),
        (0, Op::Get(b"k"), Want::Null),
        // live
        (0, Op::Dec(b"k"), Want::Int(-1)),
        (500, Op::Inc(b"k"), Want::Int(0)),
        (500, Op::Inc(b"k"), Want::Int(1)),
        (500, Op::Left(b"k"), Want::Int(10)),
        (501, Op::Left(b"k"), Want::Int(10)),
        (1_499, Op::Left(b"k"), Want::Int(10)),
        (1_500, Op::Left(b"k"), Want::Int(9)),
        (10_499, Op::Left(b"k"), Want::Int(1)),
        (10_499, Op::Get(b"k"), Want::Int(1)),
        // expired
        (10_500, Op::Get(b"k"), Want::Null),
        (10_500, Op::Left(b"k"), Want::Null),
        (10_500, Op::Limit(b"k", 5), Want::Null),
        (10_500, Op::Reset, Want::Count(0)),
        (10_500, Op::Inc(b"k"), Want::Int(1)),
        (20_499, Op::SetInt(b"k", 7), Want::Done),
        (30_498, Op::Get(b"k"), Want::Int(7)),
        (30_499, Op::Dec(b"k"), Want::Int(-1)),
        (40_499, Op::SetInt(b"k", 7), Want::Done),
        (50_499, Op::Remove(b"k"), Want::Done),
        (50_499, Op::Get(b"k"), Want::Null),
        // a key that is taken out
        (50_499, Op::SetInt(b"k", 7), Want::Done),
        (50_499, Op::Remove(b"k"), Want::Done),
        (50_499, Op::Get(b"k"), Want::Null),
        (50_499, Op::SetInt(b"k", 7), Want::Done),
        (50_499, Op::SetNull(b"k"), Want::Done),
        (50_499, Op::Get(b"k"), Want::Null),
        // the empty key is one like others
        (50_499, Op::SetText(b"", b""), Want::Done),
        (50_499, Op::Get(b""), Want::Text(b"")),
        (50_499, Op::Reset, Want::Count(1)),
    ];
    play(&rt, rt.alloc(), spec(10, None), &calls)
}

#[test]
fn an_absent_key_reads_the_initial_value_and_stays_absent(rt: HostRuntime) -> Result<(), Fail> {
    let calls = [
        (0, Op::Get(b"k"), Want::Int(41)),
        (0, Op::Left(b"k"), Want::Null),
        (0, Op::Reset, Want::Count(0)),
        (0, Op::Inc(b"k"), Want::Int(42)),
        (0, Op::Dec(b"l"), Want::Int(40)),
        (0, Op::Reset, Want::Count(2)),
    ];
    play(&rt, rt.alloc(), spec(10, Some(41)), &calls)?;
    let calls = [
        (0, Op::Inc(b"k"), Want::NotNumber),
        (0, Op::Left(b"k"), Want::Null),
        (0, Op::Get(b"k"), Want::Int(i64::MAX)),
    ];
    play(&rt, rt.alloc(), spec(10, Some(i64::MAX)), &calls)
}

#[test]
fn a_limit_is_within_bounds_and_lasts_until_the_life_starts_anew(
    rt: HostRuntime,
) -> Result<(), Fail> {
    let calls = [
        (0, Op::SetInt(b"k", 1), Want::Done),
        // Without autoexpire there is no limit.
        (u64::MAX, Op::Get(b"k"), Want::Int(1)),
    ];
    play(&rt, rt.alloc(), spec(0, None), &calls)?;
    let calls = [
        (0, Op::SetInt(b"k", 1), Want::Done),
        (0, Op::Left(b"k"), Want::Int(0)),
        (1_000, Op::Limit(b"k", -1), Want::Null),
        (1_000, Op::Limit(b"k", i64::MIN), Want::Null),
        (1_000, Op::Limit(b"k", 10_000_001), Want::Null),
        (1_000, Op::Limit(b"k", i64::MAX), Want::Null),
        (1_000, Op::Left(b"k"), Want::Int(0)),
        (1_000, Op::Limit(b"k", 10_000_000), Want::Done),
        (1_000, Op::Left(b"k"), Want::Int(10_000_000)),
        (2_000, Op::Limit(b"k", 3), Want::Done),
        (4_999, Op::Get(b"k"), Want::Int(1)),
        (4_999, Op::Limit(b"k", 0), Want::Done),
        (9_000, Op::Get(b"k"), Want::Int(1)),
        (9_000, Op::Limit(b"k", 1), Want::Done),
        (9_999, Op::Inc(b"k"), Want::Int(2)),
        (99_999, Op::Left(b"k"), Want::Int(0)),
        (99_999, Op::Limit(b"k", 1), Want::Done),
        (100_999, Op::Get(b"k"), Want::Null),
    ];
    play(&rt, rt.alloc(), spec(0, None), &calls)
}

#[test]
fn a_clock_that_falls_back_stands_still(rt: HostRuntime) -> Result<(), Fail> {
    let calls = [
        (5_000, Op::SetInt(b"k", 1), Want::Done),
        (1_000, Op::Left(b"k"), Want::Int(10)),
        (1_000, Op::SetInt(b"l", 1), Want::Done),
        (14_999, Op::Get(b"l"), Want::Int(1)),
        (15_000, Op::Get(b"l"), Want::Null),
        (0, Op::Get(b"l"), Want::Null),
        (0, Op::Get(b"k"), Want::Null),
        // No clock comes to what is due after the last moment.
        (u64::MAX, Op::SetInt(b"k", 1), Want::Done),
        (u64::MAX, Op::Get(b"k"), Want::Int(1)),
        (u64::MAX, Op::Left(b"k"), Want::Int(0)),
    ];
    play(&rt, rt.alloc(), spec(10, None), &calls)
}

#[test]
fn keys_in_which_a_pattern_matches_are_taken_out(rt: HostRuntime) -> Result<(), Fail> {
    let calls = [
        (0, Op::SetInt(b"a", 1), Want::Done),
        (9_000, Op::SetInt(b"ab", 2), Want::Done),
        (9_000, Op::SetInt(b"ba", 3), Want::Done),
        (9_000, Op::SetInt(b"c", 4), Want::Done),
        // The first key is no longer live.
        (10_000, Op::RemoveMatching(0), Want::Count(1)),
        (10_000, Op::Get(b"ab"), Want::Null),
        (10_000, Op::Get(b"ba"), Want::Int(3)),
        (10_000, Op::RemoveMatching(2), Want::Count(0)),
        (10_000, Op::RemoveMatching(1), Want::Count(1)),
        (10_000, Op::Get(b"ba"), Want::Null),
        (10_000, Op::Get(b"c"), Want::Int(4)),
        (10_000, Op::Reset, Want::Count(1)),
        (10_000, Op::Get(b"c"), Want::Null),
    ];
    play(&rt, rt.alloc(), spec(10, None), &calls)
}

#[test]
fn keys_and_texts_have_512_bytes_at_most(rt: HostRuntime) -> Result<(), Fail> {
    let calls = [
        (0, Op::SetText(KEY_512, KEY_512), Want::Done),
        (0, Op::Get(KEY_512), Want::Text(KEY_512)),
        (0, Op::SetText(b"k", KEY_513), Want::TooLong),
        (0, Op::Get(b"k"), Want::Null),
        (0, Op::Get(KEY_513), Want::TooLong),
        (0, Op::SetText(KEY_513, b"v"), Want::TooLong),
        (0, Op::SetInt(KEY_513, 1), Want::TooLong),
        (0, Op::SetNull(KEY_513), Want::TooLong),
        (0, Op::Remove(KEY_513), Want::TooLong),
        (0, Op::Inc(KEY_513), Want::TooLong),
        (0, Op::Dec(KEY_513), Want::TooLong),
        (0, Op::Left(KEY_513), Want::TooLong),
        (0, Op::Limit(KEY_513, 1), Want::TooLong),
        (0, Op::SetText(KEY_512, KEY_513), Want::TooLong),
        (0, Op::Get(KEY_512), Want::Text(KEY_512)),
        (0, Op::Reset, Want::Count(1)),
    ];
    play(&rt, rt.alloc(), spec(10, None), &calls)
}

#[test]
fn a_table_has_100_000_live_items_at_most(rt: HostRuntime) -> Result<(), Fail> {
    let alloc = rt.alloc();
    let patterns = Patterns::of(Vec::new(alloc));
    let mut table = Table::new(alloc, spec(10, None))?;
    // One item is due a second earlier.
    for n in 0..100_000u32 {
        let now = if n == 0 { 0 } else { 1_000 };
        let op = TabOp::Set(key(alloc, &n.to_be_bytes())?, Val::Int(1));
        let reply = table.apply(alloc, op, &patterns, now)?;
        assert!(rt; is_wanted(&reply, Want::Done), "{n}");
    }
    let calls = [
        (9_999, Op::SetInt(b"new", 1), Want::Full),
        (9_999, Op::Inc(b"new"), Want::Full),
        (9_999, Op::Dec(b"new"), Want::Full),
        (9_999, Op::SetText(b"new", KEY_513), Want::TooLong),
        (9_999, Op::SetNull(b"new"), Want::Done),
        (9_999, Op::Get(b"new"), Want::Null),
        (9_999, Op::Left(b"new"), Want::Null),
        // A key that is there has room.
        (9_999, Op::Inc(&[0, 0, 0, 1]), Want::Int(2)),
        (9_999, Op::SetText(&[0, 0, 0, 1], b"v"), Want::Done),
        (9_999, Op::Inc(&[0, 0, 0, 1]), Want::NotNumber),
        (10_000, Op::SetInt(b"new", 1), Want::Done),
        (10_000, Op::SetInt(b"other", 1), Want::Full),
        (10_000, Op::Inc(b"new"), Want::Int(2)),
        (10_000, Op::Remove(&[0, 0, 0, 2]), Want::Done),
        (10_000, Op::Inc(b"other"), Want::Int(1)),
        (10_000, Op::Inc(b"third"), Want::Full),
        // All but three items are due.
        (11_000, Op::Inc(b"third"), Want::Int(1)),
        (11_000, Op::Reset, Want::Count(4)),
    ];
    for (now, op, want) in calls {
        let reply = table.apply(alloc, operation(alloc, op)?, &patterns, now)?;
        assert!(rt; is_wanted(&reply, want), "at {now} {op:?} {want:?}");
    }
    Ok(())
}

/// The keys of the generated calls.
const KEYS: [&[u8]; 16] = [
    b"a", b"ab", b"abc", b"b", b"ba", b"c", b"cb", b"d", b"e", b"f", b"g", b"h", b"", b"0", b"00",
    KEY_513,
];

/// By how much time goes on from one generated call to the next.
const STEPS: [u64; 16] = [
    0, 0, 0, 0, 0, 0, 1, 1, 499, 500, 999, 1_000, 1_001, 9_999, 10_000, 10_001,
];

/// A number that looks drawn at random, below 2^31.
pub(crate) fn drawn(state: &mut u64) -> u64
    ensures { result < 2 ^ 31 }
{
    *state = state
        .wrapping_mul(6_364_136_223_846_793_005)
        .wrapping_add(1_442_695_040_888_963_407);
    *state >> 33
}

/// A generated call.
fn generated(state: &mut u64) -> Op {
    let key = KEYS[(drawn(state) % 16) as usize];
    let way = drawn(state) % 64;
    let number = (drawn(state) % 12) as i64;
    match way {
        0..=9 => Op::Get(key),
        10..=14 => Op::SetInt(key, number),
        15..=16 => Op::SetText(key, b"text"),
        17..=21 => Op::Remove(key),
        22..=23 => Op::SetNull(key),
        24..=31 => Op::Inc(key),
        32..=35 => Op::Dec(key),
        36..=43 => Op::Left(key),
        44..=61 => Op::Limit(key, number),
        62 => Op::RemoveMatching((number % 3) as u32),
        _ => Op::Reset,
    }
}

/// The kinds of what is answered.
fn kind(reply: &TabReply) -> usize
    ensures { result < 7 }
{
    match reply {
        TabReply::Value(_) => 0,
        TabReply::Null => 1,
        TabReply::Done => 2,
        TabReply::Full => 3,
        TabReply::TooLong => 4,
        TabReply::NotNumber => 5,
        TabReply::Count(_) => 6,
    }
}

fn is_same(reply: &TabReply, other: &TabReply) -> bool {
    match (reply, other) {
        (TabReply::Value(Val::Int(n)), TabReply::Value(Val::Int(m))) => n == m,
        (TabReply::Value(Val::Text(s)), TabReply::Value(Val::Text(t))) => s.bytes() == t.bytes(),
        (TabReply::Value(_), _) => false,
        (TabReply::Count(n), TabReply::Count(m)) => n == m,
        _ => kind(reply) == kind(other),
    }
}

/// Makes so many calls of both, and asserts that they answer the same. Counts the answers of each kind.
fn play_both(
    rt: &impl Abort,
    alloc: Global,
    spec: TableSpec,
    state: &mut u64,
    answers: &mut [u32; 7],
) -> Result<(), Fail> {
    let patterns = patterns_of(rt, alloc)?;
    let mut table = Table::new(alloc, spec)?;
    let mut plain = Plain::new(alloc, spec);
    let mut now = 0u64;
    for call in 0..4_000u32 {
        let op = generated(state);
        now = now.wrapping_add(STEPS[(drawn(state) % 16) as usize]);
        let reply = table.apply(alloc, operation(alloc, op)?, &patterns, now)?;
        let wanted = plain.apply(alloc, &operation(alloc, op)?, &patterns, now)?;
        assert!(rt;
            is_same(&reply, &wanted),
            "call {call} at {now} {op:?}: {reply:?}, not {wanted:?}"
        );
        let count = &mut answers[kind(&reply)];
        *count = count.saturating_add(1);
    }
    Ok(())
}

#[test]
fn table_answers_as_the_plain_program(rt: HostRuntime) -> Result<(), Fail> {
    let (mut state, mut answers) = (1, [0; 7]);
    for (autoexpire, initval) in [
        (0, None),
        (1, Some(3)),
        (10, None),
        (10, Some(-1)),
        (11, None),
    ] {
        play_both(
            &rt,
            rt.alloc(),
            spec(autoexpire, initval),
            &mut state,
            &mut answers,
        )?;
    }
    for (kind, count) in answers.iter().enumerate() {
        assert!(rt; *count > 50 || kind == 3, "{answers:?}");
    }
    Ok(())
}
