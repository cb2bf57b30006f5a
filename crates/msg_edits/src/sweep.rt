//! One pass over a text and its edits in the order of their places.
ghost use Rattle.std.specs.Prelude.{◌≡◌, ◌<◌, ◌≤◌, ◌+◌, ℕ, List, [], ◌∷◌, ◌++◌, length, take, drop, map, min};
ghost use Rattle.msg_edits.specs.declared.parts.Edit.{Edit};
ghost use Rattle.msg_edits.specs.Edited.{edited};
ghost use Rattle.msg_edits.specs.Change.{edit_of};
ghost use Rattle.sip_words.specs.Room.{IsWrittenSoFar};
ghost use Rattle.msg_edits.specs.Writing.{edits_of, edit_place, picked, IsOrder, SameEdits, IsSwept};

use crate::changes::Changes;
use crate::parts::Change;
use sip_words::put;

/// How far a text is written.
#[derive(Clone, Copy)]
pub struct Progress {
    /// How long the edited text is so far, held at the end of the type.
    pub len: usize,
    /// The bytes before this are written or cut.
    pub from: usize,
}

impl Changes<'_> {
    /// Writes as much of the text as fits, in whole pieces, and answers the length of all of it, held at the end of
    /// the type.
    pub fn sweep(&self, order: &[u8], b: &[u8], out: &mut [u8]) -> usize
        requires order { IsOrder (edits_of self.now) order.now }
        requires whole { SameEdits (picked (edits_of self.now) order.now) (edits_of self.now) }
        ensures { IsWrittenSoFar out.old out.new result (edited b.now (edits_of self.now)) }
    {
        let mut so_far = Progress { len: 0, from: 0 };
        for i in order {
            let change = self.get(*i as usize);
            let place = change.place();
            if place > b.len() {
                continue;
            }
            so_far = so_far.with_bytes(b, place, out);
            so_far = so_far.with_change(change, out);
        }
        so_far.with_bytes(b, b.len(), out).len
    }
}

impl Progress {
    /// Writes the bytes before `place` that are neither written nor cut.
    fn with_bytes(self, b: &[u8], place: usize, out: &mut [u8]) -> Progress
        requires { place ≤ length b.now }
        ensures { (edits : List Edit) (last : ℕ) (room : List ℕ) → last ≤ place → IsSwept edits b.now last self room out.old → IsSwept edits b.now place result room out.new }
    {
        if place <= self.from {
            return self;
        }
        Progress {
            len: put(out, self.len, &b[self.from..place]),
            from: place,
        }
    }

    /// Makes an edit at the place up to which the bytes are written or cut.
    fn with_change(self, change: Change<'_>, out: &mut [u8]) -> Progress
        ensures { (edits : List Edit) (b room : List ℕ) → IsSwept edits b (edit_place (edit_of change.entry)) self room out.old → IsSwept (edits ++ edit_of change.entry ∷ []) b (edit_place (edit_of change.entry)) result room out.new }
    {
        match change {
            Change::Cut(at) => Progress {
                from: self.from.max(at.to),
                ..self
            },
            Change::Insert { text, .. } => Progress {
                len: put(out, self.len, text),
                ..self
            },
        }
    }
}
