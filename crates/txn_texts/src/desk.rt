//! A worker's room for the texts of its steps.
ghost use Rattle.std.specs.Prelude.{◌≡◌, ◌≤◌, vec_len};
ghost use Rattle.host_meaning.specs.Run.{is_readable};

use crate::out_text::OutText;
use crate::sources::Sources;
use msg_edits::Edit;
use sip_build::relayed_reply;
use sip_msg::Message;
use std::alloc::{AllocError as NoMemory, Global};
use txn_state::put_front;

/// The most bytes that a message may have.
const LONGEST: usize = 8192;

/// The rooms of 8,192 bytes that a worker lends to its steps: for the text that is sent next, for the one that goes on, and for the
/// response that the server repeats from this step on; with room for two readings. A text lies in the first from when it is
/// written or looked at to when the next one is, in the others to the end of the step.
#[derive(Drop)]
pub struct Desk {
    room: Vec<u8>,
    /// How many bytes of the room are the text.
    len: usize,
    passed: Vec<u8>,
    /// How many bytes of that room are the text that goes on.
    passed_len: usize,
    last: Vec<u8>,
    /// This step has decided a response that is repeated.
    has_last: bool,
    /// How many bytes of that room are the response.
    last_len: usize,
    reading: Message,
    other: Message,
    ghost has_all: { vec_len room ≡ 8192 },
    ghost has_all_of_passed: { vec_len passed ≡ 8192 },
    ghost has_all_of_last: { vec_len last ≡ 8192 },
    ghost fits: { len ≤ 8192 },
    ghost passed_fits: { passed_len ≤ 8192 },
    ghost last_fits: { last_len ≤ 8192 },
}

impl Desk {
    ghost use Rattle.std.specs.Prelude.{◌≡◌, ℕ, List, Option, Some, take, length, true, IfOk, IfSome, IfNone, []};
    ghost use Rattle.sip_msg.specs.Table.{Reads};
    ghost use Rattle.sip_build.specs.Relayed.{relayed_text};
    ghost use Rattle.txn_texts.specs.Texts.{AreRead, parts_from, text_of};
    ghost use Rattle.txn_texts.specs.Desks.{text_on, passed_on, last_on};
    ghost use Rattle.txn_dialogue.specs.Sends.{kept_of};

    /// A desk with no text on it.
    pub fn new(alloc: Global) -> Result<Desk, NoMemory>
        ensures text { IfOk result (λ d. text_on d ≡ []) }
        ensures passed { IfOk result (λ d. passed_on d ≡ []) }
        ensures last { IfOk result (λ d. (old : Option (List ℕ)) → last_on d old ≡ old) }
    {
        Ok(Desk {
            room: vec![in alloc; 0; LONGEST]?,
            len: 0,
            passed: vec![in alloc; 0; LONGEST]?,
            passed_len: 0,
            last: vec![in alloc; 0; LONGEST]?,
            has_last: false,
            last_len: 0,
            reading: Message::room(),
            other: Message::room(),
        })
    }

    /// Whether the text reads as a message. One that doesn't isn't sent.
    pub fn is_sendable(&mut self, sources: &Sources<'_>, text: &OutText) -> bool
        requires { AreRead sources.now }
        ensures reads { result ≡ is_readable (text_of (parts_from sources.now (passed_on self.old)) text.now) }
        // Where it reads it lies in the room.
        ensures text { text_on self.new ≡ kept_of (text_of (parts_from sources.now (passed_on self.old)) text.now) }
        ensures passed { passed_on self.new ≡ passed_on self.old }
        ensures last { (old : Option (List ℕ)) → last_on self.new old ≡ last_on self.old old }
    {
        self.len = 0;
        let passed = &self.passed[..self.passed_len];
        let Ok(len) = sources.write(text, passed, &mut self.other, self.room.as_mut_slice()) else {
            return false;
        };
        if !reads(&self.room[..len], &mut self.reading) {
            return false;
        }
        self.len = len;
        true
    }

    /// Writes a text that reads, so that it can be sent.
    pub fn write(&mut self, sources: &Sources<'_>, text: &OutText)
        requires read { AreRead sources.now }
        requires sendable { is_readable (text_of (parts_from sources.now (passed_on self.old)) text.now) ≡ true }
        ensures text { text_on self.new ≡ text_of (parts_from sources.now (passed_on self.old)) text.now }
        ensures passed { passed_on self.new ≡ passed_on self.old }
        ensures last { (old : Option (List ℕ)) → last_on self.new old ≡ last_on self.old old }
    {
        let passed = &self.passed[..self.passed_len];
        match sources.write(text, passed, &mut self.other, self.room.as_mut_slice()) {
            Ok(len) => self.len = len,
            Err(_) => self.len = 0,
        }
    }

    /// The text that was written last.
    pub fn text(&self) -> &[u8]
        ensures { result.now ≡ text_on self.now }
    {
        &self.room[..self.len]
    }

    /// The text that goes on from this step.
    pub fn passed(&self) -> &[u8]
        ensures value { result.now ≡ passed_on self.now }
        ensures fits { length result.now ≤ 8192 }
    {
        &self.passed[..self.passed_len]
    }

    /// This response goes on, without its top Via and with these edits (RFC 3261, section 16.7); nothing where it doesn't read
    /// any more.
    pub fn pass_relayed(&mut self, b: &[u8], m: &Message, edits: &[Edit])
        requires { Reads b.now m.now }
        ensures passed { passed_on self.new ≡ kept_of (relayed_text b.now m.now edits.now) }
        ensures text { text_on self.new ≡ text_on self.old }
        ensures last { (old : Option (List ℕ)) → last_on self.new old ≡ last_on self.old old }
    {
        self.passed_len = 0;
        let Ok(len) = relayed_reply(b, m, edits, self.passed.as_mut_slice()) else {
            return;
        };
        if !reads(&self.passed[..len], &mut self.reading) {
            return;
        }
        self.passed_len = len;
    }

    /// This text goes on.
    pub fn pass(&mut self, text: &[u8])
        requires { length text.now ≤ 8192 }
        ensures passed { passed_on self.new ≡ text.now }
        ensures text { text_on self.new ≡ text_on self.old }
        ensures last { (old : Option (List ℕ)) → last_on self.new old ≡ last_on self.old old }
    {
        put_front(self.passed.as_mut_slice(), text);
        self.passed_len = text.len();
    }

    /// The server repeats, from this step on, the text that lies in the room.
    pub fn keep_last(&mut self)
        ensures last { (old : Option (List ℕ)) → last_on self.new old ≡ Some (text_on self.old) }
        ensures text { text_on self.new ≡ text_on self.old }
        ensures passed { passed_on self.new ≡ passed_on self.old }
    {
        put_front(self.last.as_mut_slice(), &self.room[..self.len]);
        self.has_last = true;
        self.last_len = self.len;
    }

    /// The response that the server repeats from this step on, where the step has decided one.
    pub fn last(&self) -> Option<&[u8]>
        ensures none { IfNone result ((old : Option (List ℕ)) → last_on self.now old ≡ old) }
        ensures some { IfSome result (λ text. (old : Option (List ℕ)) → last_on self.now old ≡ Some text.now) }
    {
        if self.has_last {
            Some(&self.last[..self.last_len])
        } else {
            None
        }
    }

    /// A step begins: no response is decided, and none goes on.
    pub fn clear(&mut self)
        ensures last { (old : Option (List ℕ)) → last_on self.new old ≡ old }
        ensures passed { passed_on self.new ≡ [] }
    {
        self.has_last = false;
        self.passed_len = 0;
    }
}

/// Whether the text reads.
fn reads(text: &[u8], reading: &mut Message) -> bool
    ensures { result ≡ is_readable text.now }
{
    match Message::read_into(text, reading) {
        Ok(()) => true,
        Err(_) => false,
    }
}
