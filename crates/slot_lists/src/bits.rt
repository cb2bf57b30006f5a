//! Bits by number, in words of 64.
ghost use Rattle.std.specs.Prelude.{◌≡◌, false, ◌^◌, ◌≢◌, ◌↔◌, ℕ, ◌<◌, ◌≤◌, ◌*◌, ◌+◌, ◌⊎◌, IfOk, IfSome, IfNone, IsTrue, length, replicate, slice_index};
ghost use Rattle.slot_lists.specs.Bits.{Has};

use std::alloc::{AllocError as NoMemory, Global};
use std::marker::Model;

/// So many words of bits. A clause sees the words.
#[derive(Drop)]
pub(crate) struct Bits {
    words: Vec<u64>,
}

impl Model for Bits {
    ghost use Rattle.std.specs.Prelude.{List, ℕ};

    ghost Value = { List ℕ };

    ghost view = { λ b. b.words.items };

    ghost use Rattle.std.specs.Prelude.{◌≤◌, ◌^◌, length};

    ghost invariant = { λ b. length b.words.items ≤ 2 ^ 32 };
}

impl Bits {
    /// So many words without a bit.
    pub fn new(alloc: Global, words: u32) -> Result<Bits, NoMemory>
        ensures { IfOk result (λ bits. bits ≡ replicate words 0) }
    {
        let words = vec![in alloc; 0; words as usize]?;
        Ok(Bits { words })
    }

    pub fn set(&mut self, bit: usize)
        requires { bit < 64 * length self.old }
        ensures room { length self.new ≡ length self.old }
        ensures has { (other : ℕ) → Has self.new other ↔ ((other ≡ bit) ⊎ Has self.old other) }
    {
        self.words[bit / 64] |= 1 << (bit % 64);
    }

    pub fn clear(&mut self, bit: usize)
        requires { bit < 64 * length self.old }
        ensures room { length self.new ≡ length self.old }
        ensures has { (other : ℕ) → Has self.new other ↔ ((other ≢ bit) × Has self.old other) }
    {
        self.words[bit / 64] &= !(1 << (bit % 64));
    }

    /// The word has no bit.
    pub fn is_empty(&self, word: usize) -> bool
        requires { word < length self.now }
        ensures empty { IsTrue result → (bit : ℕ) → bit < 64 → ¬ Has self.now (word * 64 + bit) }
        ensures some { result ≡ false → (bit : ℕ) × (bit < 64) × Has self.now (word * 64 + bit) }
    {
        self.words[word] == 0
    }

    /// The lowest bit of a word that has one.
    pub fn lowest_in(&self, word: usize) -> usize
        requires { (bit : ℕ) × (bit < 64) × Has self.now (word * 64 + bit) }
        ensures few { result < 64 }
        ensures has { Has self.now (word * 64 + result) }
        ensures lowest { (bit : ℕ) → bit < 64 → Has self.now (word * 64 + bit) → result ≤ bit }
    {
        self.words[word].trailing_zeros() as usize
    }

    /// The lowest bit.
    pub fn lowest(&self) -> Option<usize>
        ensures few { IfSome result (λ bit. bit < 2 ^ 38) }
        ensures has { IfSome result (λ bit. Has self.now bit) }
        ensures lowest { IfSome result (λ lowest. (bit : ℕ) → Has self.now bit → lowest ≤ bit) }
        ensures none { IfNone result ((bit : ℕ) → ¬ Has self.now bit) }
    {
        for (at, &word) in self.words.iter().enumerate() {
            if word != 0 {
                return Some(at * 64 + word.trailing_zeros() as usize);
            }
        }
        None
    }
}
