//! What a script says of its tables.

ghost use Rattle.std.specs.Prelude.{◌≡◌, IfOk};

use crate::text::Text;
use std::alloc::{AllocError as NoMemory, Global};
use std::marker::Model;

/// A table, as the script's `modparam("htable", "htable", ..)` gives it.
#[derive(Clone, Copy, Debug, PartialEq, Eq)]
pub struct TableSpec {
    /// The logarithm of the number of buckets, 2 to 14.
    pub size: u32,
    /// How long an item lives, in seconds, up to 10,000,000; 0 is for ever.
    pub autoexpire: u64,
    /// What an absent key reads as.
    pub initval: Option<i64>,
    /// A change of an item starts its life anew.
    pub update: bool,
}

/// The key of an item: an expanded text, of any length.
#[derive(Debug, Drop)]
pub struct Key {
    text: Text,
}

impl Model for Key {
    ghost use Rattle.std.specs.Prelude.{List, ℕ};

    ghost Value = { List ℕ };

    ghost view = { λ k. k.text };
}

impl Key {
    pub fn of(text: Text) -> Key
        ensures { result ≡ text }
    {
        Key { text }
    }

    pub fn bytes(&self) -> &[u8]
        ensures { result.now ≡ self.now }
    {
        self.text.bytes()
    }

    pub fn into_text(self) -> Text
        ensures { result ≡ self }
    {
        let Key { text } = self;
        text
    }

    pub fn copy(&self, alloc: Global) -> Result<Key, NoMemory>
        ensures { IfOk result (λ k. k ≡ self.now) }
    {
        Ok(Key {
            text: self.text.copy(alloc)?,
        })
    }
}
