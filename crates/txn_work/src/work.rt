//! What a step has decided so far.
ghost use Rattle.std.specs.Prelude.{◌≡◌, ◌<◌, ◌≤◌, ◌+◌, List, ℕ, Option};
ghost use Rattle.txn_dialogue.specs.Sends.{and_sent, kept_of, sent_if};
ghost use Rattle.txn_texts.specs.Texts.{IsRead, text_of};
ghost use Rattle.txn_texts.specs.Desks.{last_on, passed_on, text_on};
ghost use Rattle.txn_texts.specs.Outboxes.{AllRead, room_in, sends_shown};

use buf_pool::Block;
use outside_ports::Addr;
use txn_state::Txn;
use txn_texts::{Desk, OutText, Outbox, Readings, Sources};

/// What a step has decided so far, beside what it has made of the transaction; with the worker's desk, on which its texts lie. A
/// worker has one, for one step after another.
#[derive(Drop)]
pub struct Work {
    pub desk: Desk,
    pub outbox: Outbox,
    /// The blocks that are none of a text yet.
    pub spare: Vec<Block>,
    /// The time of the step, in milliseconds.
    pub time: u64,
    /// The request is handled for the first time.
    pub first: bool,
    /// There is a transaction.
    pub exists: bool,
    /// How many suspended transactions this step has continued.
    pub continued: u8,
    /// This step is itself a continuation.
    pub is_continuation: bool,
}

impl Work {
    ghost use Rattle.txn_work.specs.Works.{parts_in};

    /// This text is sent, where it reads.
    pub(crate) fn send(
        &mut self,
        txn: &Txn,
        readings: &Readings<'_>,
        to: Addr,
        text: OutText,
        branch: Option<u8>,
    )
        requires read { IsRead txn.now readings.now }
        requires room { 0 < room_in self.old.outbox }
        ensures sends { sends_shown (parts_in txn.now readings.now self.new) self.new.outbox
            ≡ and_sent to (text_of (parts_in txn.now readings.now self.old) text) branch (sends_shown (parts_in txn.now readings.now self.old) self.old.outbox) }
        ensures read { AllRead (parts_in txn.now readings.now self.old) self.old.outbox → AllRead (parts_in txn.now readings.now self.new) self.new.outbox }
        ensures room { room_in self.old.outbox ≤ room_in self.new.outbox + 1 }
        ensures text { text_on self.new.desk ≡ kept_of (text_of (parts_in txn.now readings.now self.old) text) }
        ensures passed { passed_on self.new.desk ≡ passed_on self.old.desk }
        ensures last { (old : Option (List ℕ)) → last_on self.new.desk old ≡ last_on self.old.desk old }
        ensures same { self.new ≡ record self.old { desk = self.new.desk; outbox = self.new.outbox } }
    {
        let sources = Sources {
            txn,
            readings: *readings,
        };
        self.outbox.add(&mut self.desk, &sources, to, text, branch);
    }

    /// This text is sent, if it is decided and reads.
    pub(crate) fn send_if(
        &mut self,
        decided: bool,
        txn: &Txn,
        readings: &Readings<'_>,
        to: Addr,
        text: OutText,
        branch: Option<u8>,
    )
        requires read { IsRead txn.now readings.now }
        requires room { 0 < room_in self.old.outbox }
        ensures sends { sends_shown (parts_in txn.now readings.now self.new) self.new.outbox
            ≡ sent_if decided to (text_of (parts_in txn.now readings.now self.old) text) branch (sends_shown (parts_in txn.now readings.now self.old) self.old.outbox) }
        ensures read { AllRead (parts_in txn.now readings.now self.old) self.old.outbox → AllRead (parts_in txn.now readings.now self.new) self.new.outbox }
        ensures room { room_in self.old.outbox ≤ room_in self.new.outbox + 1 }
        ensures passed { passed_on self.new.desk ≡ passed_on self.old.desk }
        ensures last { (old : Option (List ℕ)) → last_on self.new.desk old ≡ last_on self.old.desk old }
        ensures same { self.new ≡ record self.old { desk = self.new.desk; outbox = self.new.outbox } }
    {
        if decided {
            self.send(txn, readings, to, text, branch);
        }
    }
}
