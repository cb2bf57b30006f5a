//! The request that goes on (RFC 3261, section 16.6).
ghost use Rattle.std.specs.Prelude.{◌≡◌, ◌≤◌, ◌<◌, ◌+◌, ◌-◌, [], ◌∷◌, ◌++◌, ℕ, List, codes, length, map, take, IfSome};
ghost use Rattle.std.specs.Fmt.{decimal};
ghost use Rattle.sip_words.specs.Spans.{IsWithin};
ghost use Rattle.sip_scan.specs.declared.field.Kind.TheVariants as kind;
ghost use Rattle.msg_edits.specs.declared.parts.Edit.TheVariants as edit;
ghost use Rattle.msg_edits.specs.Change.{edit_of};
ghost use Rattle.sip_msg.specs.Fields.{first};
ghost use Rattle.sip_msg.specs.Table.{Reads};
ghost use Rattle.numerals.specs.Numerals.{socket};
ghost use Rattle.sip_build.specs.Parts.{place_of};
ghost use Rattle.outside_ports.specs.declared.port.Addr.{Addr as Address};
ghost use Rattle.sip_build.specs.Forwarded.{number_in, one_less, via_line, with_hops, forwarded_text};
ghost use Rattle.sip_build.specs.Stateless.{token_of, stateless_ack_text};
ghost use Rattle.msg_edits.specs.Writing.{IsWritten, SameEdits};
ghost use Rattle.sip_build.specs.Writing.{FieldsLie, edits_of_hops};

use crate::addresses::{add_ip, add_number, add_octet};
use crate::fields::{first_field, uri_of};
use crate::responses::without_cookie;
use crate::stamp::Stamp;
use arrayvec::ArrayString;
use msg_edits::{Change, Edit, TooLong, apply_after};
use outside_ports::Addr;
use sip_msg::{Message, Span};
use sip_scan::Kind;
use sip_words::{Class, lws_end, run_end};

/// Writes the request `m`, which came from `from`, as it goes on. In this order it is stamped; its URI is replaced by
/// `uri`; a line Via with the address `listen` and the branch `branch` is put before its first Via field; the number
/// of Max-Forwards is lowered by one, or a field Max-Forwards with `absent_hops` is put before the empty line where it
/// has none; and the edits are made. Bytes behind the end of the message are left out.
pub fn forwarded(
    b: &[u8],
    m: &Message,
    from: Addr,
    edits: &[Edit],
    uri: &[u8],
    listen: Addr,
    branch: &[u8],
    absent_hops: u8,
    out: &mut [u8],
) -> Result<usize, TooLong>
    requires reading { Reads b.now m.now }
    requires hops { IfSome m.now.max_forwards (λ hops. 0 < hops) }
    ensures { IsWritten (forwarded_text b.now m.now from edits.now uri.now listen branch.now absent_hops) out.old out.new result }
{
    let via = via_front(listen, "");
    forward(
        b,
        m,
        from,
        edits,
        uri,
        via.as_str().as_bytes(),
        branch,
        absent_hops,
        out,
    )
}

/// Writes the ACK `m`, which came from `from` and for which there is no transaction, as it goes on: a forwarded request
/// whose branch is `z9hG4bKsl.` and the branch of the top Via value without its cookie.
#[tactic(auto, using(crate::proofs::Readings::branch_within))]
pub fn stateless_ack(
    b: &[u8],
    m: &Message,
    from: Addr,
    edits: &[Edit],
    uri: &[u8],
    listen: Addr,
    absent_hops: u8,
    out: &mut [u8],
) -> Result<usize, TooLong>
    requires reading { Reads b.now m.now }
    requires hops { IfSome m.now.max_forwards (λ hops. 0 < hops) }
    ensures { IsWritten (stateless_ack_text b.now m.now from edits.now uri.now listen absent_hops) out.old out.new result }
{
    let via = via_front(listen, "z9hG4bKsl.");
    let token = token_of(b, m.via.branch);
    forward(
        b,
        m,
        from,
        edits,
        uri,
        via.as_str().as_bytes(),
        token,
        absent_hops,
        out,
    )
}

/// A branch without its cookie, or no byte where there is none.
fn token_of(b: &[u8], branch: Option<Span>) -> &[u8]
    requires { IfSome branch (IsWithin b.now) }
    ensures { result.now ≡ token_of b.now branch }
{
    match branch {
        Some(branch) => without_cookie(&b[branch.from..branch.to]),
        None => &[],
    }
}

/// Writes the request as it goes on, with a line Via of two pieces and a CRLF.
#[tactic(auto, using(crate::proofs::Readings::fields_lie, crate::proofs::Readings::end_within, crate::proofs::Readings::line_low, crate::proofs::Readings::body_low))]
fn forward<'a>(
    b: &[u8],
    m: &Message,
    from: Addr,
    edits: &[Edit],
    uri: &'a [u8],
    front: &'a [u8],
    branch: &'a [u8],
    absent_hops: u8,
    out: &mut [u8],
) -> Result<usize, TooLong>
    requires reading { Reads b.now m.now }
    requires hops { IfSome m.now.max_forwards (λ hops. 0 < hops) }
    ensures { (listen : Address) (whole : List ℕ) → front.now ++ (branch.now ++ codes "\r\n") ≡ via_line listen whole
        → IsWritten (forwarded_text b.now m.now from edits.now uri.now listen whole absent_hops) out.old out.new result }
{
    let stamp = Stamp::of(&m.via, from);
    let hops = Hops::of(b, m, absent_hops);
    let uri_at = uri_of(m.start);
    let place = via_place(b, m);
    let changes = [
        stamp.received(),
        stamp.port(),
        stamp.address(),
        Change::Cut(uri_at),
        insert(uri_at.from, uri),
        insert(place, front),
        insert(place, branch),
        insert(place, b"\r\n"),
        Change::Cut(hops.at),
        insert(hops.at.from, hops.text.as_str().as_bytes()),
    ];
    apply_after(&b[..m.end], &changes, edits, out)
}

/// An insert of a borrowed text.
fn insert(place: usize, text: &[u8]) -> Change<'_>
    ensures { edit_of result ≡ edit.Insert place text.now }
{
    Change::Insert { place, text }
}

/// Where the line Via goes: before the first Via field.
fn via_place(b: &[u8], m: &Message) -> usize
    requires fields { FieldsLie b.now m.now.head.fields.items }
    requires line { m.now.head.start.to + 4 ≤ length b.now }
    ensures { result ≡ place_of (first kind.Via m.now.head.fields.items) (m.now.head.start.to + 2) }
{
    match first_field(b, &m.head.fields, Kind::Via) {
        Some(field) => field.whole.from,
        None => m.head.start.to + 2,
    }
}

/// The line Via up to the branch, and the mark with which the branch begins.
fn via_front(listen: Addr, mark: &str) -> ArrayString<56>
    requires { length mark.now ≤ 10 }
    ensures { result.bytes ≡ codes "Via: SIP/2.0/UDP " ++ (socket listen ++ (codes ";branch=" ++ mark.now)) }
{
    let mut text = ArrayString::new();
    text.push_str("Via: SIP/2.0/UDP ");
    add_ip(&mut text, listen.ip);
    text.push_str(":");
    add_number(&mut text, listen.port);
    text.push_str(";branch=");
    text.push_str(mark);
    text
}

/// What becomes of Max-Forwards: the bytes at a span are replaced by a text.
#[derive(Clone, Copy)]
struct Hops {
    at: Span,
    text: ArrayString<19>,
}

impl Hops {
    /// One less, where the field stands; else a field before the empty line.
    fn of(b: &[u8], m: &Message, absent_hops: u8) -> Hops
        requires fields { FieldsLie b.now m.now.head.fields.items }
        requires body { 2 ≤ m.now.head.body }
        requires hops { IfSome m.now.max_forwards (λ hops. 0 < hops) }
        ensures { SameEdits (edits_of_hops result) (with_hops b.now (first kind.MaxForwards m.now.head.fields.items) m.now.max_forwards m.now.head.body absent_hops) }
    {
        match first_field(b, &m.head.fields, Kind::MaxForwards) {
            Some(field) => Hops {
                at: number_in(&b[..field.value.to], field.value.from),
                text: number_text(one_less(m.max_forwards)),
            },
            None => Hops {
                at: Span {
                    from: m.head.body - 2,
                    to: m.head.body - 2,
                },
                text: hops_line(absent_hops),
            },
        }
    }
}

/// The digits of a number that LWS may stand round.
#[tactic(auto, unfolding(crate::specs::Forwarded::number_in))]
fn number_in(text: &[u8], from: usize) -> Span
    requires { from ≤ length text.now }
    ensures { result ≡ number_in text.now from }
{
    let start = lws_end(text, from);
    Span {
        from: start,
        to: run_end(text, start, Class::Digit),
    }
}

/// One hop less, where there is a number.
fn one_less(hops: Option<u8>) -> u8
    requires { IfSome hops (λ hops. 0 < hops) }
    ensures { result ≡ one_less hops }
{
    match hops {
        Some(hops) => hops - 1,
        None => 0,
    }
}

/// A number alone.
fn number_text(number: u8) -> ArrayString<19>
    ensures { result.bytes ≡ decimal number }
{
    let mut text = ArrayString::new();
    add_octet(&mut text, number);
    text
}

/// A field Max-Forwards.
fn hops_line(number: u8) -> ArrayString<19>
    ensures { result.bytes ≡ codes "Max-Forwards: " ++ (decimal number ++ codes "\r\n") }
{
    let mut text = ArrayString::new();
    text.push_str("Max-Forwards: ");
    add_octet(&mut text, number);
    text.push_str("\r\n");
    text
}
