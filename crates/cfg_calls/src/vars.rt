//! The names of `$var`.

ghost use Rattle.std.specs.Prelude.{◌≡◌, [], length, IfOk};
ghost use Rattle.cfg_calls.specs.Names.{place_of, with_name};

use indexmap::IndexSet;
use std::alloc::{AllocError as NoMemory, Global};
use std::marker::Model;

/// Names, numbered in the order in which they are met.
#[derive(Drop)]
pub struct Names {
    set: IndexSet<Vec<u8>>,
}

impl Model for Names {
    ghost use Rattle.std.specs.Prelude.{List, ℕ, map};

    ghost Value = { List (List ℕ) };

    ghost view = { λ n. map (λ name. name.items) n.set.keys };
}

impl Names {
    pub fn new(alloc: Global) -> Names
        ensures { result ≡ [] }
    {
        Names {
            set: IndexSet::new(alloc),
        }
    }

    /// How many names there are.
    pub fn len(&self) -> usize
        ensures { result ≡ length self.now }
    {
        self.set.len()
    }

    /// The place of a name, which is put after the others where it is new.
    pub fn place(&mut self, alloc: Global, name: &[u8]) -> Result<usize, NoMemory>
        ensures place { IfOk result (λ n. n ≡ place_of name.now self.old) }
        ensures names { IfOk result (λ _. self.new ≡ with_name name.now self.old) }
    {
        match self.set.insert_full(Vec::from_slice(alloc, name)?) {
            Ok((place, _)) => Ok(place),
            Err(_) => Err(NoMemory),
        }
    }
}
