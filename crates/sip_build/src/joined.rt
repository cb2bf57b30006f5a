//! A text that joins parts of messages.
ghost use Rattle.std.specs.Prelude.{◌≡◌, ◌≤◌, ◌<◌, ℕ, List, ◌++◌, length, map, slice_range};
ghost use Rattle.sip_words.specs.Spans.{IsWithin};
ghost use Rattle.msg_edits.specs.Change.{edit_of};
ghost use Rattle.msg_edits.specs.Edited.{edited, edited_from};
ghost use Rattle.msg_edits.specs.Writing.{IsWritten, IsWrittenSoFar};
ghost use Rattle.sip_build.specs.Writing.{within, is_taken, fields_text, pieces_text, joined_text, FieldsLie};

use crate::fields::is_of;
use msg_edits::{Change, TooLong, apply_after};
use sip_msg::Span;
use sip_scan::{HeaderSpan, Kind};
use sip_words::put;

/// Which fields of a message a text takes over.
#[derive(Clone, Copy)]
pub enum Taken {
    Vias,
    Routes,
}

/// A text: pieces, then fields of a message in order, then pieces.
#[derive(Clone, Copy)]
pub struct Joined<'p, 'f, 'm, 'c, 'b> {
    pub front: &'p [&'f [u8]],
    /// The message, its fields, which of them are taken over, and what is changed in them.
    pub b: &'m [u8],
    pub fields: &'m [HeaderSpan],
    pub taken: Taken,
    pub changes: [Change<'c>; 3],
    pub back: &'p [&'b [u8]],
}

impl Joined<'_, '_, '_, '_, '_> {
    /// Writes the text to the front of `out`, and says how long it is. Where it doesn't fit, `out` stays as it was.
    pub fn fit(&self, out: &mut [u8]) -> Result<usize, TooLong>
        requires { FieldsLie self.now.b.now self.now.fields.now }
        ensures { IsWritten (joined_text self.now) out.old out.new result }
    {
        let len = self.write(&mut []);
        if len > out.len() {
            return Err(TooLong { len });
        }
        Ok(self.write(out))
    }

    /// Writes as much of the text as fits, in whole pieces, and returns the length of all of it, held at the end of
    /// the type.
    fn write(&self, out: &mut [u8]) -> usize
        requires { FieldsLie self.now.b.now self.now.fields.now }
        ensures { IsWrittenSoFar out.old out.new result (joined_text self.now) }
    {
        let len = put_all(out, 0, self.front);
        let len = self.put_fields(out, len);
        put_all(out, len, self.back)
    }

    /// Writes the fields.
    fn put_fields(&self, out: &mut [u8], len: usize) -> usize
        requires { FieldsLie self.now.b.now self.now.fields.now }
        ensures { (room text : List ℕ) → IsWrittenSoFar room out.old len text → IsWrittenSoFar room out.new result (text ++ fields_text self.now) }
    {
        let mut end = len;
        for field in self.fields {
            if self.takes(field) {
                end = put_part(out, end, self.b, field.whole, &self.changes);
            }
        }
        end
    }

    /// Whether this field is taken over.
    fn takes(&self, field: &HeaderSpan) -> bool
        ensures { result ≡ is_taken self.now.taken field.now }
    {
        match self.taken {
            Taken::Vias => is_of(field, Kind::Via),
            Taken::Routes => is_of(field, Kind::Route),
        }
    }
}

/// Writes the pieces one after the other.
fn put_all(out: &mut [u8], len: usize, pieces: &[&[u8]]) -> usize
    ensures { (room text : List ℕ) → IsWrittenSoFar room out.old len text → IsWrittenSoFar room out.new result (text ++ pieces_text pieces.now) }
{
    let mut end = len;
    for piece in pieces {
        end = put(out, end, piece);
    }
    end
}

/// Writes what the part of `b` at `at` becomes after changes of `b`, without what is inserted at its end.
fn put_part(out: &mut [u8], len: usize, b: &[u8], at: Span, changes: &[Change<'_>; 3]) -> usize
    requires { IsWithin b.now at }
    ensures { (room text : List ℕ) → IsWrittenSoFar room out.old len text → IsWrittenSoFar room out.new result (text ++ edited_from (map edit_of changes.now) at.from (slice_range b.now at.from at.to)) }
{
    let bytes = &b[at.from..at.to];
    let moved = all_within(changes, at);
    put_edited(out, len, bytes, &moved)
}

/// Writes `bytes` after changes behind the first `len` bytes where they fit, and returns the length with them.
fn put_edited(out: &mut [u8], len: usize, bytes: &[u8], changes: &[Change<'_>; 3]) -> usize
    ensures { (room text : List ℕ) → IsWrittenSoFar room out.old len text → IsWrittenSoFar room out.new result (text ++ edited bytes.now (map edit_of changes.now)) }
{
    if len <= out.len() {
        len.saturating_add(write_edited(bytes, changes, &mut out[len..]))
    } else {
        len.saturating_add(write_edited(bytes, changes, &mut []))
    }
}

/// Writes `bytes` after changes where they fit, and returns their length, held at the end of the type.
fn write_edited(bytes: &[u8], changes: &[Change<'_>; 3], out: &mut [u8]) -> usize
    ensures { IsWrittenSoFar out.old out.new result (edited bytes.now (map edit_of changes.now)) }
{
    match apply_after(bytes, changes, &[], out) {
        Ok(len) => len,
        Err(TooLong { len }) => len,
    }
}

/// The changes of a text, as changes of its part at `at`.
fn all_within<'a>(changes: &[Change<'a>; 3], at: Span) -> [Change<'a>; 3]
    ensures { map edit_of result ≡ map (within at) (map edit_of changes.now) }
{
    let [first, second, third] = *changes;
    [
        change_within(first, at),
        change_within(second, at),
        change_within(third, at),
    ]
}

/// A change of a text, as a change of its part at `at`. One that lies elsewhere does nothing.
fn change_within<'a>(change: Change<'a>, at: Span) -> Change<'a>
    ensures { edit_of result ≡ within at (edit_of change.entry) }
{
    match change {
        Change::Cut(span) => Change::Cut(Span {
            from: span.from.saturating_sub(at.from),
            to: span.to.saturating_sub(at.from),
        }),
        Change::Insert { place, text } => Change::Insert {
            place: place.saturating_sub(at.from),
            text: if at.from <= place && place < at.to {
                text
            } else {
                &[]
            },
        },
    }
}
