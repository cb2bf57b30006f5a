//! Tables that two threads count in, and what of them may cross threads.
ghost use Rattle.std.specs.Prelude.{◌≡◌, []};
ghost use Rattle.turn_table.specs.Passes.{HoldsNone, GoesOn};
ghost use Rattle.ht_shared.specs.Shared.{IsTablesPass, patterns_of, count_of};

use crate::{Closed, Key, Pass, Patterns, TabOp, TabReply, TableCell, TableSpec, Tables};
use pv_values::{Text, Val};
use std::alloc::{AllocError, Global};
use std::sync::Wait;
use std::test::Fail;
use std::thread::{Threads, join};

const SPEC: TableSpec = TableSpec {
    size: 8,
    autoexpire: 0,
    initval: None,
    update: true,
};

fn key(alloc: Global) -> Result<Key, AllocError> {
    Ok(Key::of(Text::from_slice(alloc, b"calls")?))
}

// The number in a reply, or -1.
fn number(reply: TabReply) -> i64 {
    match reply {
        TabReply::Value(Val::Int(n)) => n,
        _ => -1,
    }
}

// Adds one to a key of the last table, so often.
fn count<R: Wait>(
    rt: &R,
    alloc: Global,
    tables: &Tables,
    pass: &mut Pass<TableCell>,
    times: u32,
) -> Result<i64, AllocError>
    requires own { IsTablesPass tables.now pass.old × HoldsNone pass.old }
    requires tables { (count_of tables.now ≡ 2) × (patterns_of tables.now ≡ []) }
    ensures on { GoesOn pass.old pass.new }
{
    let patterns = Patterns::of(Vec::new(alloc));
    let mut last = 0;
    for time in 0..times {
        let reply = tables.apply(
            rt,
            alloc,
            pass,
            1,
            TabOp::Inc(key(alloc)?),
            &patterns,
            u64::from(time),
        )?;
        last = number(reply);
    }
    Ok(last)
}

// A worker's pass, after it counted; -1 where it found no memory.
fn counted<R: Wait>(
    rt: &R,
    alloc: Global,
    tables: &Tables,
    mut pass: Pass<TableCell>,
) -> (Pass<TableCell>, i64)
    requires own { IsTablesPass tables.now pass × HoldsNone pass }
    requires tables { (count_of tables.now ≡ 2) × (patterns_of tables.now ≡ []) }
    ensures on { GoesOn pass result.0 }
{
    let last = count(rt, alloc, tables, &mut pass, 1000);
    (pass, last.unwrap_or(-1))
}

// The value at the end after two threads counted, and the greater of their last replies.
fn count_by_two<R: Threads + Wait + Sync>(
    rt: &R,
    alloc: Global,
) -> Result<(i64, i64, i64), AllocError> {
    let patterns = Patterns::of(Vec::new(alloc));
    let (tables, mut passes) = Tables::new(alloc, &[SPEC, SPEC], &patterns, 2)?;
    let one = passes.remove(0);
    let two = passes.remove(0);
    let (one, two) = join(
        rt,
        || -> (Pass<TableCell>, i64)
            requires { IsTablesPass tables one × HoldsNone one × (count_of tables ≡ 2) × (patterns_of tables ≡ []) }
            ensures { GoesOn one result.0 }
        { counted(rt, alloc, &tables, one) },
        || -> (Pass<TableCell>, i64)
            requires { IsTablesPass tables two × HoldsNone two × (count_of tables ≡ 2) × (patterns_of tables ≡ []) }
            ensures { GoesOn two result.0 }
        { counted(rt, alloc, &tables, two) },
    );
    let (one, a) = one;
    let (two, b) = two;
    passes.push_reserved(one);
    passes.push_reserved(two);
    let Closed {
        mut values,
        last: _,
    } = tables.close(passes);
    let changed = left_in(alloc, values.pop(), &patterns)?;
    let other = left_in(alloc, values.pop(), &patterns)?;
    Ok((changed, other, a.max(b)))
}

// What the key has in a table that was given back, or -1.
fn left_in(
    alloc: Global,
    cell: Option<Option<TableCell>>,
    patterns: &Patterns,
) -> Result<i64, AllocError> {
    let Some(Some(cell)) = cell else {
        return Ok(-1);
    };
    let TableCell { mut table } = cell;
    let reply = table.apply(alloc, TabOp::Get(key(alloc)?), patterns, 0)?;
    Ok(number(reply))
}

#[test]
fn two_threads_count_to_2000(rt: HostRuntime) -> Result<(), Fail> {
    assert!(rt; count_by_two(&rt, rt.alloc())? == (2000, -1, 2000));
    Ok(())
}

fn shares<T: Sync>(_x: &T) {}

fn sends<T: Send>(x: T) -> T {
    x
}

// Tables and patterns may be shared, and passes may cross threads.
fn crosses(tables: &Tables, patterns: &Patterns, pass: Pass<TableCell>) -> Pass<TableCell> {
    shares(tables);
    shares(patterns);
    sends(pass)
}
