//! The claims on one thread: the same words, and the same definition.
ghost use Rattle.std.specs.Prelude.{◌≡◌, ◌<◌, ℕ, List, length, replicate, [], IfOk};
ghost use Rattle.claim_words.specs.Lists.{nth_list};
ghost use Rattle.claim_words.specs.Suspensions.{claim_end};
ghost use Rattle.claim_words.specs.Alone.{AllSuspensions, StandFor, opened_at, serial_at, claimed_at};

use crate::word::{MOST, WAYS, code_of, end_of};
use crate::{By, ClaimEnd};
use std::alloc::{AllocError, Global};
use std::marker::Model;

/// The suspensions of each slot, on one thread. Contracts see one word for each slot, and `StandFor` says which suspensions
/// the words stand for.
#[derive(Drop)]
pub struct PlainClaims {
    words: Vec<u64>,
}

impl Model for PlainClaims {
    ghost Value = { List ℕ };

    ghost view = { λ c. c.words.items };
}

impl PlainClaims {
    /// No suspensions, for so many slots.
    pub fn new(alloc: Global, slots: u32) -> Result<PlainClaims, AllocError>
        ensures { IfOk result (λ c. (length c ≡ slots) × StandFor c (replicate slots [])) }
    {
        let words = vec![in alloc; 0; slots as usize]?;
        Ok(PlainClaims { words })
    }

    /// Opens the next suspension of slot k, and answers its serial: 1 at first. Where the slot has had 2^60, that is the answer,
    /// and nothing is opened.
    pub fn open(&mut self, k: u32) -> u64
        requires slot { k < length self.old }
        ensures count { length self.new ≡ length self.old }
        ensures opened { (all : AllSuspensions) → StandFor self.old all → (result ≡ serial_at all k) × StandFor self.new (opened_at all k) }
    {
        let last = self.words[k as usize] / WAYS;
        if last >= MOST {
            return MOST;
        }
        self.words[k as usize] = WAYS * (last + 1);
        last + 1
    }

    /// Claims the suspension of this serial of slot k, and answers as `Claims::claim` does.
    pub fn claim(&mut self, k: u32, serial: u64, by: By) -> ClaimEnd
        requires slot { k < length self.old }
        ensures count { length self.new ≡ length self.old }
        ensures claimed { (all : AllSuspensions) → StandFor self.old all → (result ≡ claim_end (nth_list all k) serial) × StandFor self.new (claimed_at all k serial by) }
    {
        let found = self.words[k as usize];
        let end = end_of(found, serial);
        if let ClaimEnd::Won(_) = end {
            self.words[k as usize] = found + code_of(by);
        }
        end
    }
}
