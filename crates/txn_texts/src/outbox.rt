//! The datagrams of a step, in the order in which they were decided.
ghost use Rattle.std.specs.Prelude.{◌≤◌, vec_len};

use crate::desk::Desk;
use crate::out_text::OutText;
use crate::sources::Sources;
use outside_ports::Addr;
use std::alloc::{AllocError as NoMemory, Global};

/// A datagram that is to be sent, and the branch whose request it is.
#[derive(Drop)]
pub struct Sent {
    pub to: Addr,
    pub text: OutText,
    pub branch: Option<u8>,
}

/// Where a datagram goes whose text was written, and the branch whose request it is.
#[derive(Clone, Copy, Debug, PartialEq, Eq)]
pub struct Addressed {
    pub to: Addr,
    pub branch: Option<u8>,
}

/// The datagrams that a step has decided, each a text that reads. [`Outbox::add`] takes one in, and [`Outbox::next`] writes the
/// first that is left. It is used again by the steps of a worker.
#[derive(Drop)]
pub struct Outbox {
    list: Vec<Sent>,
    /// How many of them were written.
    written: usize,
    ghost within: { written ≤ vec_len list },
}

impl Outbox {
    ghost use Rattle.std.specs.Prelude.{◌≡◌, ℕ, List, Option, ◌<◌, ◌+◌, ◌∷◌, [], length, IfOk, OnOk, OnErr, MatchOption};
    ghost use Rattle.txn_dialogue.specs.Sends.{and_sent, kept_of};
    ghost use Rattle.txn_texts.specs.Texts.{AreRead, Parts, parts_from, text_of};
    ghost use Rattle.txn_texts.specs.Desks.{text_on, passed_on, last_on};
    ghost use Rattle.txn_texts.specs.Outboxes.{sends_shown, room_in, AllRead};
    ghost use Rattle.txn_dialogue.specs.Sends.{Sent as Decided};

    /// No datagram, and no room yet.
    pub fn new(alloc: Global) -> Outbox
        ensures sends { (p : Parts) → sends_shown p result ≡ [] }
        ensures read { (p : Parts) → AllRead p result }
    {
        Outbox {
            list: Vec::new(alloc),
            written: 0,
        }
    }

    /// No datagram is left; the room stays.
    pub fn clear(&mut self)
        ensures sends { (p : Parts) → sends_shown p self.new ≡ [] }
        ensures read { (p : Parts) → AllRead p self.new }
        ensures room { room_in self.old ≤ room_in self.new }
    {
        self.list.clear();
        self.written = 0;
    }

    /// Makes room for so many datagrams more.
    pub fn reserve(&mut self, more: usize) -> Result<(), NoMemory>
        ensures room { OnOk result (more ≤ room_in self.new) }
        ensures same { (p : Parts) → sends_shown p self.new ≡ sends_shown p self.old }
        ensures read { (p : Parts) → AllRead p self.old → AllRead p self.new }
    {
        self.list.reserve(more)
    }

    /// Takes in a datagram with this text, where it reads; one that doesn't read isn't sent.
    pub fn add(
        &mut self,
        desk: &mut Desk,
        sources: &Sources<'_>,
        to: Addr,
        text: OutText,
        branch: Option<u8>,
    )
        requires read { AreRead sources.now }
        requires room { 0 < room_in self.old }
        ensures sends { sends_shown (parts_from sources.now (passed_on desk.old)) self.new ≡ and_sent to (text_of (parts_from sources.now (passed_on desk.old)) text) branch (sends_shown (parts_from sources.now (passed_on desk.old)) self.old) }
        ensures read { AllRead (parts_from sources.now (passed_on desk.old)) self.old → AllRead (parts_from sources.now (passed_on desk.old)) self.new }
        ensures room { room_in self.old ≤ room_in self.new + 1 }
        // The text lies on the desk where it reads.
        ensures text { text_on desk.new ≡ kept_of (text_of (parts_from sources.now (passed_on desk.old)) text) }
        ensures passed { passed_on desk.new ≡ passed_on desk.old }
        ensures last { (old : Option (List ℕ)) → last_on desk.new old ≡ last_on desk.old old }
    {
        if desk.is_sendable(sources, &text) {
            self.list.push_reserved(Sent { to, text, branch });
        }
    }

    /// Writes the first datagram that is left, and tells where it goes; none where none is left.
    pub fn next(&mut self, desk: &mut Desk, sources: &Sources<'_>) -> Option<Addressed>
        requires read { AreRead sources.now }
        requires all_read { AllRead (parts_from sources.now (passed_on desk.old)) self.old }
        ensures next { MatchOption result (sends_shown (parts_from sources.now (passed_on desk.old)) self.old ≡ []) (λ a. sends_shown (parts_from sources.now (passed_on desk.old)) self.old
            ≡ record { to = a.to; text = text_on desk.new; branch = a.branch } ∷ sends_shown (parts_from sources.now (passed_on desk.old)) self.new) }
        ensures read { AllRead (parts_from sources.now (passed_on desk.old)) self.new }
        ensures passed { passed_on desk.new ≡ passed_on desk.old }
        ensures last { (old : Option (List ℕ)) → last_on desk.new old ≡ last_on desk.old old }
    {
        if self.written >= self.list.len() {
            return None;
        }
        let sent = &self.list[self.written];
        desk.write(sources, &sent.text);
        let addressed = Addressed {
            to: sent.to,
            branch: sent.branch,
        };
        self.written += 1;
        Some(addressed)
    }
}
