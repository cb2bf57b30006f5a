//! The blocks of a script by their kinds and names, which finds the first one of each.

ghost use Rattle.std.specs.Prelude.{◌≡◌, ◌++◌, ◌∷◌, [], length, position, IfOk};
ghost use Rattle.std.specs.List.{list_any};
ghost use Rattle.cfg_tree.specs.Functions.{is_same_block};
ghost use Rattle.cfg_calls.specs.Heads.{shown};

use crate::head::BlockHead;
use indexmap::IndexMap;
use std::alloc::{AllocError as NoMemory, Global};
use std::marker::Model;

/// The kinds and names of blocks, in the order in which they are written.
#[derive(Drop)]
pub struct BlockIndex {
    heads: Vec<BlockHead>,
    /// The place of the first block of each kind and name.
    places: IndexMap<BlockHead, usize>,
}

impl Model for BlockIndex {
    ghost use Rattle.std.specs.Prelude.{List, ℕ, Option, map};
    ghost use Rattle.cfg_tree.specs.declared.raw.RouteKind.{RouteKind};
    ghost use Rattle.cfg_calls.specs.Heads.{shown, FindsFirst};

    ghost Value = { List (RouteKind × Option (List ℕ)) };

    ghost view = { λ b. map shown b.heads.items };

    ghost invariant = { λ b. ∥ FindsFirst b.places.entries (map shown b.heads.items) ∥₁ };
}

impl BlockIndex {
    pub fn new(alloc: Global) -> BlockIndex
        ensures { result ≡ [] }
    {
        BlockIndex {
            heads: Vec::new(alloc),
            places: IndexMap::new(alloc),
        }
    }

    /// How many blocks there are.
    pub fn len(&self) -> usize
        ensures { result ≡ length self.now }
    {
        self.heads.len()
    }

    /// The place of the first block of this kind and name.
    pub fn place(&self, head: &BlockHead) -> Option<usize>
        ensures { result ≡ position (is_same_block (shown head.now)) self.now }
    {
        self.places.get(head).copied()
    }

    /// Whether one of the blocks is of this kind and name.
    pub fn has(&self, head: &BlockHead) -> bool
        ensures { result ≡ list_any (is_same_block (shown head.now)) self.now }
    {
        self.place(head).is_some()
    }

    /// With one more block after the others.
    pub fn with(self, alloc: Global, head: BlockHead) -> Result<BlockIndex, NoMemory>
        ensures { IfOk result (λ blocks. blocks ≡ self ++ shown head ∷ []) }
    {
        let BlockIndex {
            mut heads,
            mut places,
        } = self;
        if places.get(&head).is_none() {
            let key = head.copy(alloc)?;
            let Ok(_) = places.insert(key, heads.len()) else {
                return Err(NoMemory);
            };
        }
        heads.push(head)?;
        Ok(BlockIndex { heads, places })
    }
}
