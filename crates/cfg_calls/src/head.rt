//! The kind and the name of a block, by which it is found.

ghost use Rattle.std.specs.Prelude.{◌≡◌, ℕ, List, None, Some, Option, IfOk};
ghost use Rattle.cfg_tree.specs.Checks.{block_name};
ghost use Rattle.cfg_calls.specs.Heads.{shown};

use cfg_tree::{RawBlock, RouteKind};
use std::alloc::{AllocError as NoMemory, Global};

/// A kind of blocks, and a name or none.
#[derive(Drop, PartialEq, Eq)]
#[derive_where(Hash)]
pub struct BlockHead {
    #[derive_where(skip(Hash))]
    kind: RouteKind,
    name: Option<Vec<u8>>,
}

impl BlockHead {
    /// Without a name.
    pub fn unnamed(kind: RouteKind) -> BlockHead
        ensures { shown result ≡ (kind, None) }
    {
        BlockHead { kind, name: None }
    }

    pub fn named(alloc: Global, kind: RouteKind, name: &[u8]) -> Result<BlockHead, NoMemory>
        ensures { IfOk result (λ h. shown h ≡ (kind, Some name.now)) }
    {
        let name = Some(Vec::from_slice(alloc, name)?);
        Ok(BlockHead { kind, name })
    }

    /// The kind and the name of this block.
    pub fn of(alloc: Global, block: &RawBlock) -> Result<BlockHead, NoMemory>
        ensures { IfOk result (λ h. shown h ≡ block_name block.now) }
    {
        match &block.name {
            Some(name) => BlockHead::named(alloc, block.kind, name.text.bytes()),
            None => Ok(BlockHead::unnamed(block.kind)),
        }
    }

    /// The same kind and name.
    pub fn copy(&self, alloc: Global) -> Result<BlockHead, NoMemory>
        ensures { IfOk result (λ h. shown h ≡ shown self.now) }
    {
        match &self.name {
            Some(name) => BlockHead::named(alloc, self.kind, name.as_slice()),
            None => Ok(BlockHead::unnamed(self.kind)),
        }
    }
}
