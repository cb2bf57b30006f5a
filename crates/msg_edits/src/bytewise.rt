//! A text with more edits than are put in order, byte by byte.
ghost use Rattle.std.specs.Prelude.{◌≡◌, ◌<◌, ◌≤◌, ◌+◌, ℕ, List, ◌++◌, length};
ghost use Rattle.msg_edits.specs.Edited.{cuts_byte, text_at, is_cut, inserted_at, edited};
ghost use Rattle.msg_edits.specs.Change.{edit_of};
ghost use Rattle.sip_words.specs.Room.{IsWrittenSoFar};
ghost use Rattle.msg_edits.specs.Writing.{edits_of};

use crate::changes::Changes;
use crate::parts::Change;
use sip_words::put;

impl<'a> Changes<'a> {
    /// Writes as much of the text as fits, in whole pieces, and answers the length of all of it, held at the end of
    /// the type.
    pub fn write_each_byte(&self, b: &[u8], out: &mut [u8]) -> usize
        ensures { IsWrittenSoFar out.old out.new result (edited b.now (edits_of self.now)) }
    {
        let mut len = 0;
        for at in 0..b.len() {
            len = self.put_inserts(at, out, len);
            if self.cuts(at) {
                continue;
            }
            len = put(out, len, &b[at..at + 1]);
        }
        self.put_inserts(b.len(), out, len)
    }

    /// Writes the texts that are inserted at `at`.
    fn put_inserts(&self, at: usize, out: &mut [u8], len: usize) -> usize
        ensures { (room text : List ℕ) → IsWrittenSoFar room out.old len text → IsWrittenSoFar room out.new result (text ++ inserted_at (edits_of self.now) at) }
    {
        let mut end = len;
        for i in 0..self.len() {
            end = put(out, end, self.get(i).text_at(at));
        }
        end
    }

    /// Whether the byte at `at` is cut.
    fn cuts(&self, at: usize) -> bool
        ensures { result ≡ is_cut (edits_of self.now) at }
    {
        for i in 0..self.len() {
            if self.get(i).cuts_byte(at) {
                return true;
            }
        }
        false
    }
}

impl<'a> Change<'a> {
    /// What this inserts at `at`.
    fn text_at(self, at: usize) -> &'a [u8]
        ensures { result.now ≡ text_at at (edit_of self.entry) }
    {
        match self {
            Change::Insert { place, text } if place == at => text,
            _ => &[],
        }
    }

    /// Whether this cuts the byte at `at`.
    fn cuts_byte(self, at: usize) -> bool
        ensures { result ≡ cuts_byte at (edit_of self.entry) }
    {
        match self {
            Change::Cut(span) => span.from <= at && at < span.to,
            Change::Insert { .. } => false,
        }
    }
}
