//! The head of a message: its start line and its header fields, as spans of the datagram (RFC 3261, section 7).
//!
//! CR and LF bytes in front are skipped. Then comes the start line, then a line for each header field, with the
//! lines that begin with SP or HTAB continuing the one before, and the head ends with an empty line. Nothing is
//! unfolded or copied: a field is told by the spans of its name, its value and its whole.
//!
//! - [`scan_into`] reads the whole head into a room that the caller keeps. Its faults are tried in the order in which
//!   [`ScanFault`] lists them. [`scan`] answers the head itself, which is 7 KB that are moved.
//! - [`scan_behind`] is the same for a caller that has the start line already.
//! - [`start_line`] reads the start line alone, for a caller that judges it before the fields are looked at.
//! - [`is_crlf`], [`skipped`] and [`field_at`] are for whoever walks over the lines or the fields of a head by himself.
//!
//! Nothing here takes memory.
#![tactic(auto)]

ghost use Rattle.std.specs.Prelude.{◌≡◌, ◌≤◌, ◌<◌, ◌+◌, ◌∷◌, ◌++◌, [], List, ℕ, length, take, IfSome, IfNone, IfOk, Some, None, Ok, Err, All};
ghost use Rattle.sip_scan.specs.declared.field.HeaderSpan.{HeaderSpan};
ghost use Rattle.sip_words.specs.Spans.{IsWithin};
ghost use Rattle.sip_scan.specs.Lines.{start_line};
ghost use Rattle.sip_scan.specs.Field.{fields_at, IsField};
ghost use Rattle.sip_scan.specs.Head.{at_most_128, in_room, scanned, HeadLiesIn, LieFrom};
ghost use Rattle.sip_scan.specs.Grammar.{MessageTree, message, IsMessageTree, head_place};

mod field;
mod lines;
#[cfg(test)]
mod tests;

use arrayvec::ArrayVec;
pub use field::{HeaderSpan, Kind, field_at, full_name, kind_of};
use lines::line_end;
pub use lines::{is_crlf, skipped, start_line};
pub use sip_words::Span;

/// The head of a message.
///
/// ```
/// let mut room = Head::new();
/// scan_into(b"OPTIONS sip:a@h SIP/2.0\r\nv: SIP/2.0/UDP h\r\n\r\n", &mut room)?;
/// room.start; // from 0 to 23
/// room.fields[0].kind; // Via
/// room.fields[0].value; // from 27 to 41, with the blank in front
/// room.body; // 45
/// ```
#[derive(Debug, Drop)]
pub struct Head {
    /// The start line, without its CRLF.
    pub start: Span,
    /// The header fields, in order.
    pub fields: ArrayVec<HeaderSpan, 128>,
    /// Where the body begins, behind the empty line.
    pub body: usize,
}

/// Why a datagram has no head. The first fault that holds, in this order, is answered.
#[derive(Clone, Copy, Debug, PartialEq, Eq)]
pub enum ScanFault {
    /// Behind the CR and LF in front there is no CRLF, or neither the first line nor what stands behind its last SP
    /// begins with `SIP/`, in any case.
    NotSip,
    /// There is no empty line; or a NUL, a lone CR or a lone LF stands in the head; or the first field line begins
    /// with SP or HTAB; or a field isn't a token, SP and HTAB, a colon and a value.
    BadHeader,
    /// There are 129 fields or more.
    TooManyHeaders,
}

impl Head {
    ghost use Rattle.sip_scan.specs.Head.{no_head};

    /// A room to scan into: a head without fields. It takes a while to make, and any number of datagrams can be
    /// scanned into it, one after the other.
    pub fn new() -> Head
        ensures { result ≡ no_head }
    {
        Head {
            start: Span { from: 0, to: 0 },
            fields: ArrayVec::new(),
            body: 0,
        }
    }
}

/// The head of the datagram, or the first fault. [`scan_into`] does the same without moving the head.
pub fn scan(b: &[u8]) -> Result<Head, ScanFault>
    // What is read is spelled by the grammar, each span being the place of its part.
    ensures found { IfOk result (λ h. (t : MessageTree) × IsMessageTree t × (b.now ≡ message t) × (h ≡ head_place t)) }
    // So is what has too many fields.
    ensures many { result ≡ Err ScanFault.TooManyHeaders → (t : MessageTree) × IsMessageTree t × (b.now ≡ message t) × (128 < length t.fields) }
    // What the grammar spells is read, or has too many fields, and nothing else can be.
    ensures only { (t : MessageTree) → IsMessageTree t → b.now ≡ message t → result ≡ at_most_128 (head_place t) }
    // The same as a function, with the faults in their order.
    ensures exact { result ≡ scanned b.now }
    // The parts stand in order within the datagram.
    ensures places { IfOk result (HeadLiesIn b.now) }
{
    let mut head = Head::new();
    match scan_into(b, &mut head) {
        Ok(()) => Ok(head),
        Err(fault) => Err(fault),
    }
}

/// Reads the head of the datagram into a room, whatever it held before. On a fault, which is the first one, the room
/// holds anything.
pub fn scan_into(b: &[u8], head: &mut Head) -> Result<(), ScanFault>
    // What is read is spelled by the grammar, each span being the place of its part.
    ensures found { IfOk result (λ _. (t : MessageTree) × IsMessageTree t × (b.now ≡ message t) × (head.new ≡ head_place t)) }
    // So is what has too many fields.
    ensures many { result ≡ Err ScanFault.TooManyHeaders → (t : MessageTree) × IsMessageTree t × (b.now ≡ message t) × (128 < length t.fields) }
    // What the grammar spells is read, or has too many fields, and nothing else can be.
    ensures only { (t : MessageTree) → IsMessageTree t → b.now ≡ message t → in_room result head.new ≡ at_most_128 (head_place t) }
    // The same as a function, with the faults in their order.
    ensures exact { in_room result head.new ≡ scanned b.now }
    // The parts stand in order within the datagram.
    ensures places { IfOk result (λ _. HeadLiesIn b.now head.new) }
{
    let Some(start) = start_line(b) else {
        return Err(ScanFault::NotSip);
    };
    scan_behind(b, start, head)
}

/// The same for a datagram whose start line was found.
pub fn scan_behind(b: &[u8], start: Span, head: &mut Head) -> Result<(), ScanFault>
    requires line { start_line b.now ≡ Some start }
    requires within { IsWithin b.now start }
    ensures exact { in_room result head.new ≡ scanned b.now }
    ensures places { IfOk result (λ _. HeadLiesIn b.now head.new) }
{
    let Some(end) = line_end(b, start.from) else {
        return Err(ScanFault::BadHeader);
    };
    let Some(fields) = fields_at(b, end + 2, &mut head.fields) else {
        return Err(ScanFault::BadHeader);
    };
    if 128 < fields.count {
        return Err(ScanFault::TooManyHeaders);
    }
    head.start = start;
    head.body = fields.end + 2;
    Ok(())
}

/// How many fields there are, and the place of the empty line.
#[derive(Clone, Copy)]
struct Fields {
    count: usize,
    end: usize,
}

/// Puts the first 128 fields from `from` on into this list, in the place of those that it held.
fn fields_at(text: &[u8], from: usize, first: &mut ArrayVec<HeaderSpan, 128>) -> Option<Fields>
    requires { from ≤ length text.now }
    ensures none { IfNone result (fields_at text.now from ≡ None) }
    ensures some { IfSome result (λ f. (all : List HeaderSpan) × (fields_at text.now from ≡ Some (all, f.end)) × (first.new.items ≡ take 128 all) × (f.count ≡ length all) × LieFrom from all f.end) }
    ensures bounds { IfSome result (λ f. (from ≤ f.end) × (f.end + 2 ≤ length text.now)) }
    ensures each { IfSome result (λ f. All (IsField text.now) first.new.items) }
{
    first.clear();
    let mut count = 0;
    let mut at = from;
    while !is_crlf(text, at) {
        let field = field_at(text, at)?;
        keep(first, field);
        count += 1;
        at = field.whole.to;
    }
    Some(Fields { count, end: at })
}

/// Adds a field where there is room.
#[tactic(auto, using(crate::proofs::Kept::kept_all, crate::proofs::Kept::kept_full, crate::proofs::Kept::each_push))]
fn keep(first: &mut ArrayVec<HeaderSpan, 128>, field: HeaderSpan)
    requires { length first.old.items ≤ 128 }
    ensures kept { first.new.items ≡ take 128 (first.old.items ++ field ∷ []) }
    ensures each { (text : List ℕ) → All (IsField text) first.old.items → IsField text field → All (IsField text) first.new.items }
{
    if !first.is_full() {
        first.push(field);
    }
}
