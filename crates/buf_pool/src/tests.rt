//! A pool of two blocks and an empty one, also across threads.
ghost use Rattle.std.specs.Prelude.{◌≡◌, IfOk};

use super::{BLOCK_SIZE, Block, Pool};
use std::process::Abort;
use std::test::Fail;

fn into_thread<T: Send>(value: T) -> T
    ensures { result ≡ value }
{
    value
}

// The next block, which has to be there, with as many free ones left.
fn next(rt: &impl Abort, pool: &mut Pool, left: u32) -> Result<Block, Fail>
    ensures name { pool.new.name ≡ pool.old.name }
    ensures block { IfOk result (λ block. block.pool ≡ pool.old.name) }
{
    let block = pool.take().ok_or("no block is free")?;
    assert_eq!(rt; pool.free(), left);
    Ok(block)
}

fn no_more(rt: &impl Abort, pool: &mut Pool) -> Result<(), Fail>
    ensures { pool.new.name ≡ pool.old.name }
{
    assert!(rt; pool.take().is_none());
    Ok(())
}

fn write_ends(block: &mut Block, first: u8, last: u8)
    ensures { block.new.pool ≡ block.old.pool }
{
    let bytes = block.bytes_mut();
    bytes[0] = first;
    bytes[8191] = last;
}

#[test]
fn third_block_of_two_is_none(rt: HostRuntime) -> Result<(), Fail> {
    let mut pool = into_thread(Pool::new(rt.alloc(), 2)?);
    assert_eq!(rt; pool.free(), 2);
    let first = next(&rt, &mut pool, 1)?;
    let second = into_thread(next(&rt, &mut pool, 0)?);
    no_more(&rt, &mut pool)?;
    pool.give(second);
    assert_eq!(rt; pool.free(), 1);
    let third = next(&rt, &mut pool, 0)?;
    no_more(&rt, &mut pool)?;
    pool.give(first);
    pool.give(third);
    assert_eq!(rt; pool.free(), 2);
    Ok(())
}

#[test]
fn empty_pool_has_no_block(rt: HostRuntime) -> Result<(), Fail> {
    let mut pool = Pool::new(rt.alloc(), 0)?;
    assert_eq!(rt; pool.free(), 0);
    no_more(&rt, &mut pool)
}

#[test]
fn blocks_keep_what_is_written(rt: HostRuntime) -> Result<(), Fail> {
    let mut pool = Pool::new(rt.alloc(), 2)?;
    let mut first = next(&rt, &mut pool, 1)?;
    let mut second = next(&rt, &mut pool, 0)?;
    assert_eq!(rt; BLOCK_SIZE, 8192);
    write_ends(&mut first, 1, 2);
    write_ends(&mut second, 3, 4);
    assert_eq!(rt; (first.bytes()[0], first.bytes()[8191]), (1, 2));
    assert_eq!(rt; (second.bytes()[0], second.bytes()[8191]), (3, 4));
    Ok(())
}
