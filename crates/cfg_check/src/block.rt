//! Blocks.

ghost use Rattle.std.specs.Prelude.{◌≡◌, ◌++◌, [], length, map, IfOk, OnOk};
ghost use Rattle.cfg_tree.specs.Checks.{block_name, blocks_of, name_place, twice, too_many, block_refusals, bodies_in};
ghost use Rattle.cfg_calls.specs.Following.{Follows};
ghost use Rattle.cfg_calls.specs.Heads.{shown};

use crate::stmt;
use cfg_calls::{BlockHead, BlockIndex, Checker, Known, with_item};
use cfg_settings::Refusal;
use cfg_tree::{RawBlock, RawItem, RefusalKind, Stmt};
use pv_values::Place;
use sqlite_items::Items;
use std::alloc::{AllocError as NoMemory, Global};

/// The most blocks of a script.
const BLOCKS: usize = 1_000;

/// A block's name, or the word that begins it.
fn name_place(block: &RawBlock) -> Place
    ensures { result ≡ name_place block.now.kind_at block.now.name }
{
    match &block.name {
        Some(name) => name.at,
        None => block.kind_at,
    }
}

/// What is refused of a block after others: that it is a second one of its kind and name, and that it is one too many.
fn refuse_block(
    earlier: &BlockIndex,
    head: &BlockHead,
    block: &RawBlock,
    refusals: &mut Items<Refusal>,
) -> Result<(), NoMemory>
    requires { shown head.now ≡ block_name block.now }
    ensures { OnOk result (refusals.new ≡ refusals.old ++ (twice earlier.now block.now ++ too_many (length earlier.now) block.now)) }
{
    if earlier.has(head) {
        refusals.push(Refusal::new(RefusalKind::RouteTwice, name_place(block)))?;
    }
    if earlier.len() >= BLOCKS {
        refusals.push(Refusal::new(RefusalKind::TooLarge, block.at))?;
    }
    Ok(())
}

/// The kinds and names of the blocks, and what is refused of them.
pub fn blocks_in(
    alloc: Global,
    items: &[RawItem],
    refusals: &mut Items<Refusal>,
) -> Result<BlockIndex, NoMemory>
    ensures names { IfOk result (λ names. names ≡ map block_name (blocks_of items.now)) }
    ensures refused { OnOk result (refusals.new ≡ refusals.old ++ block_refusals [] (blocks_of items.now)) }
{
    let mut blocks = BlockIndex::new(alloc);
    for item in items {
        if let RawItem::Block(block) = item {
            let head = BlockHead::of(alloc, block)?;
            refuse_block(&blocks, &head, block, refusals)?;
            blocks = blocks.with(alloc, head)?;
        }
    }
    Ok(blocks)
}

/// The statements of the blocks, block by block.
pub fn bodies(
    checker: &mut Checker,
    known: &Known,
    items: &[RawItem],
) -> Result<Option<Items<Items<Stmt>>>, NoMemory>
    ensures { IfOk result (λ r. Follows (bodies_in known.now (blocks_of items.now)) checker.old r checker.new) }
{
    let mut bodies = Some(Items::new(checker.alloc()));
    for item in items {
        if let RawItem::Block(block) = item {
            let body = stmt::stmts(checker, known, block.kind, block.body.as_slice())?;
            bodies = with_item(bodies, body)?;
        }
    }
    Ok(bodies)
}
