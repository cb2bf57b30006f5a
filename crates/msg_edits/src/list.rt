//! The list of edits that a script makes.
ghost use Rattle.std.specs.Prelude.{◌≡◌, ◌==◌, ◌<◌, ◌≤◌, ℕ, true, false, [], ◌∷◌, ◌++◌, length, take, OnOk, OnErr, IfErr};
ghost use Rattle.msg_edits.specs.Edited.{has_byte, is_cut};
ghost use Rattle.msg_edits.specs.Causes.{MeetsCut};

use crate::parts::Edit;
use arrayvec::ArrayVec;
use outside_ports::Bytes;
use sip_words::Span;
use std::alloc::Global;
use std::marker::Model;

/// How many edits one message can have.
pub const LIMIT: usize = 64;

/// Why an edit isn't made.
#[derive(Clone, Copy, Debug, PartialEq, Eq)]
pub enum EditFault {
    /// The cut shares a byte with an earlier cut.
    Overlap,
    /// There are 64 edits already. This goes before `Overlap`.
    Full,
    /// Out of memory for the inserted text.
    NoMemory,
}

/// The edits of one message, in the order of making. Contracts see them as that list.
///
/// ```
/// let mut edits = Edits::new();
/// edits.cut(Span { from: 1, to: 3 })?;
/// edits.insert(alloc, 1, b"X")?;
/// let len = apply(b"abcdef", edits.as_slice(), &mut room)?; // 5
/// &room[..len]; // aXdef
/// ```
#[derive(Drop)]
pub struct Edits {
    list: ArrayVec<Edit, LIMIT>,
}

impl Model for Edits {
    ghost use Rattle.std.specs.Prelude.{List};
    ghost use Rattle.msg_edits.specs.declared.parts.Edit.{Edit};

    ghost Value = { List Edit };

    ghost view = { λ e. e.list.items };

    ghost use Rattle.msg_edits.specs.Laws.{IsCutOnce};

    ghost invariant = { λ e. IsCutOnce e.list.items };
}

impl Edits {
    ghost use Rattle.msg_edits.specs.Causes.{CanCut, RefusesCut, RefusesInsert};
    ghost use Rattle.msg_edits.specs.Laws.{IsCutOnce};

    /// No edits.
    pub fn new() -> Edits
        ensures { result ≡ [] }
    {
        Edits {
            list: ArrayVec::new(),
        }
    }

    /// Takes the bytes of `at` away. `Full` comes where there are 64 edits, and else `Overlap` where `at` shares a
    /// byte with an earlier cut. This takes no memory.
    pub fn cut(&mut self, at: Span) -> Result<(), EditFault>
        ensures made { OnOk result (self.new ≡ self.old ++ Edit.Cut at ∷ []) }
        ensures can { OnOk result (CanCut self.old at) }
        ensures cause { IfErr result (λ fault. RefusesCut self.old at fault) }
        ensures refused { OnErr result (self.new ≡ self.old) }
    {
        if self.list.is_full() {
            return Err(EditFault::Full);
        }
        if meets_cut(self.list.as_slice(), at) {
            return Err(EditFault::Overlap);
        }
        self.list.push(Edit::Cut(at));
        Ok(())
    }

    /// Puts a copy of `text` before the byte at `place`, behind what was inserted there before. `Full` comes where
    /// there are 64 edits.
    pub fn insert(&mut self, alloc: Global, place: usize, text: &[u8]) -> Result<(), EditFault>
        ensures made { OnOk result (self.new ≡ self.old ++ Edit.Insert place text.now ∷ []) }
        ensures can { OnOk result (length self.old < 64) }
        ensures cause { IfErr result (λ fault. RefusesInsert self.old fault) }
        ensures refused { OnErr result (self.new ≡ self.old) }
    {
        if self.list.is_full() {
            return Err(EditFault::Full);
        }
        let Ok(copy) = Vec::from_slice(alloc, text) else {
            return Err(EditFault::NoMemory);
        };
        let text = Bytes::of(copy);
        self.list.push(Edit::Insert { place, text });
        Ok(())
    }

    /// How many edits there are.
    pub fn len(&self) -> usize
        ensures value { result ≡ length self.now }
        ensures limit { result ≤ 64 }
    {
        self.list.len()
    }

    /// Whether there is no edit.
    pub fn is_empty(&self) -> bool
        ensures { result ≡ (length self.now == 0) }
    {
        self.list.is_empty()
    }

    /// Forgets all edits but the first `len`.
    pub fn truncate(&mut self, len: usize)
        ensures { self.new ≡ take len self.old }
    {
        self.list.truncate(len);
    }

    /// The edits, in the order of making. No byte is cut twice.
    pub fn as_slice(&self) -> &[Edit]
        ensures value { result.now ≡ self.now }
        ensures limit { length result.now ≤ 64 }
        ensures once { IsCutOnce self.now }
    {
        self.list.as_slice()
    }
}

impl Default for Edits {
    ghost is_default = { λ e. e ≡ [] };

    fn default() -> Self {
        Self::new()
    }
}

/// Whether a cut of the list shares a byte with `at`.
fn meets_cut(edits: &[Edit], at: Span) -> bool
    ensures yes { result ≡ true → MeetsCut edits.now at }
    ensures no { result ≡ false → (i : ℕ) → has_byte at i ≡ true → is_cut edits.now i ≡ false }
{
    for edit in edits {
        if let Edit::Cut(earlier) = edit {
            if shares_byte(*earlier, at) {
                return true;
            }
        }
    }
    false
}

/// Whether a byte lies in both spans.
fn shares_byte(a: Span, b: Span) -> bool
    ensures yes { result ≡ true → (i : ℕ) × (has_byte a i ≡ true) × (has_byte b i ≡ true) }
    ensures no { result ≡ false → (i : ℕ) → has_byte a i ≡ true → has_byte b i ≡ true → ⊥ }
{
    a.from.max(b.from) < a.to.min(b.to)
}
