//! What is known of a whole script before its blocks are checked.

ghost use Rattle.std.specs.Prelude.{◌≡◌, Some, None, IfOk, position};
ghost use Rattle.std.specs.Str.{bytes_eq};
ghost use Rattle.cfg_tree.specs.Functions as functions;

use crate::head::BlockHead;
use crate::index::BlockIndex;
use cfg_tree::RouteKind;
use pv_values::Text;
use sqlite_items::Items;
use std::alloc::{AllocError as NoMemory, Global};
use std::marker::Model;

/// The blocks with their kinds and names, and the names of the tables, in the order in which they are written.
#[derive(Drop)]
pub struct Known {
    blocks: BlockIndex,
    tables: Items<Text>,
}

impl Model for Known {
    ghost use Rattle.cfg_tree.specs.Names.{Known as Meant};

    ghost Value = { Meant };

    ghost view = { λ k. record { blocks = k.blocks; tables = k.tables } };
}

impl Known {
    pub fn new(blocks: BlockIndex, tables: Items<Text>) -> Known
        ensures { result ≡ record { blocks = blocks; tables = tables } }
    {
        Known { blocks, tables }
    }

    /// The place of the table of this name.
    pub fn table(&self, name: &[u8]) -> Option<usize>
        ensures { result ≡ position (bytes_eq name.now) self.now.tables }
    {
        self.tables
            .as_slice()
            .iter()
            .position(|table| name == table.bytes())
    }

    /// The place of the block of this kind and name.
    pub fn block(
        &self,
        alloc: Global,
        kind: RouteKind,
        name: &[u8],
    ) -> Result<Option<usize>, NoMemory>
        ensures { IfOk result (λ place. place ≡ position (functions.is_same_block (kind, Some name.now)) self.now.blocks) }
    {
        Ok(self.blocks.place(&BlockHead::named(alloc, kind, name)?))
    }

    /// The place of the block of this kind without a name.
    pub fn unnamed(&self, kind: RouteKind) -> Option<usize>
        ensures { result ≡ position (functions.is_same_block (kind, None)) self.now.blocks }
    {
        self.blocks.place(&BlockHead::unnamed(kind))
    }
}
