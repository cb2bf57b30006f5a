//! A message: the request or the response that a datagram is (RFC 3261, sections 7 and 18.3).
ghost use Rattle.std.specs.Prelude.{◌≡◌, ◌≤◌, ◌-◌, All, IfErr, IfNone, IfOk, IfSome, None, Ok, Some, length, take, true, false};
ghost use Rattle.sip_scan.specs.Field.{IsField};
ghost use Rattle.sip_scan.specs.Head.{in_room};
ghost use Rattle.sip_msg.specs.Places.{PartsLie, MessageLiesIn, IsComplete};
ghost use Rattle.sip_msg.specs.Start.{IsStartBetween};
ghost use Rattle.sip_msg.specs.StartGrammar.{IsStartAt};
ghost use Rattle.sip_msg.specs.Table.{fault_of, first_row, later_rows, is_above, end_behind, HasMessageParts, Reads};
ghost use Rattle.sip_msg.specs.declared.message.Message.{Message};

use crate::fields::Kinds;
use crate::start::start_at;
use crate::values::values_of;
use crate::{Span, Start};
use sip_fields::{CSeq, Host, NameAddr, Rport, Via};
use sip_scan::{Head, ScanFault, scan_behind, start_line};

/// The most bytes that a message may have.
pub(crate) const LONGEST: usize = 8192;

/// A request or a response, with each part as a span of its datagram.
///
/// ```
/// let mut room = Message::room(); // kept for the next datagram
/// Message::read_into(b"SIP/2.0 200 OK\r\nv: SIP/2.0/UDP h;branch=z9hG4bK1\r\nf: <sip:a@h>;tag=1\r\nt: <sip:b@h>;tag=2\r\ni: c\r\nCSeq: 1 INVITE\r\n\r\n", &mut room)?;
/// room.start; // Status { code: 200, reason: the span of `OK` }
/// room.via.branch; // the span of `z9hG4bK1`
/// room.cseq.number; // 1
/// ```
#[derive(Debug, Drop)]
pub struct Message {
    pub head: Head,
    pub start: Start,
    /// The first value of the first Via.
    pub via: Via,
    pub from: NameAddr,
    pub to: NameAddr,
    pub call_id: Span,
    pub cseq: CSeq,
    pub max_forwards: Option<u8>,
    /// Where the body ends: behind as many bytes as Content-Length says, or with the datagram. Bytes behind it are no
    /// part of the message.
    pub end: usize,
}

/// Why a datagram is no message.
#[derive(Clone, Copy, Debug, PartialEq, Eq)]
pub enum MsgFault {
    /// There is no first line of SIP.
    NotSip,
    /// The first line is no request line and no status line of SIP/2.0.
    BadStartLine,
    /// There is no empty line, or a line of the head isn't a header field.
    BadHeader,
    /// Via, From, To, Call-ID or CSeq is absent.
    Missing,
    /// From, To, Call-ID, CSeq, Max-Forwards or Content-Length stands twice.
    Repeated,
    /// A value doesn't read, or doesn't fit the start line.
    BadField,
    /// Fewer bytes follow the head than Content-Length says.
    ShortBody,
    /// There are 129 header fields or more.
    TooManyHeaders,
    /// The datagram has more than 8,192 bytes.
    TooLong,
}

/// Where the message ends. None where fewer bytes follow the head than Content-Length says.
fn end_of(b: &[u8], body: usize, announced: Option<usize>) -> Option<usize>
    requires { body ≤ length b.now }
    ensures none { IfNone result (is_above (length b.now - body) announced ≡ true) }
    ensures some { IfSome result (λ end. (is_above (length b.now - body) announced ≡ false) × (end ≡ end_behind b.now body announced)) }
    ensures bounds { IfSome result (λ end. (body ≤ end) × (end ≤ length b.now)) }
{
    match announced {
        Some(count) => {
            if b.len() - body < count {
                return None;
            }
            Some(body + count)
        }
        None => Some(b.len()),
    }
}

/// Fills in the message whose start line and head these are, or returns the first of the later faults.
#[tactic(auto, using(crate::proofs::Rows::missing, crate::proofs::Rows::repeated, crate::proofs::Rows::bad_field, crate::proofs::Rows::short_body, crate::proofs::Rows::no_later))]
fn parts_into(b: &[u8], start: Start, m: &mut Message) -> Result<(), MsgFault>
    requires start { IsStartBetween 0 (length b.now) start }
    requires fields { All (IsField b.now) m.old.head.fields.items }
    requires body { m.old.head.body ≤ length b.now }
    ensures fault { IfErr result (λ f. first_row (later_rows b.now start m.old.head) ≡ Some f) }
    ensures none { IfOk result (λ _. first_row (later_rows b.now start m.old.head) ≡ None) }
    ensures head { IfOk result (λ _. m.new.head ≡ m.old.head) }
    ensures start { IfOk result (λ _. m.new.start ≡ start) }
    ensures parts { IfOk result (λ _. HasMessageParts b.now m.new) }
    ensures lie { IfOk result (λ _. PartsLie b.now m.new) }
    ensures complete { IfOk result (λ _. IsComplete m.new.head.fields.items) }
{
    let kinds = Kinds::of(&m.head.fields);
    if kinds.is_missing() {
        return Err(MsgFault::Missing);
    }
    if kinds.is_repeated() {
        return Err(MsgFault::Repeated);
    }
    let Some(values) = values_of(b, start, &kinds) else {
        return Err(MsgFault::BadField);
    };
    let Some(end) = end_of(b, m.head.body, values.content_length) else {
        return Err(MsgFault::ShortBody);
    };
    m.start = start;
    m.via = values.via;
    m.from = values.from;
    m.to = values.to;
    m.call_id = values.call_id;
    m.cseq = values.cseq;
    m.max_forwards = values.max_forwards;
    m.end = end;
    Ok(())
}

/// Reads the message into a room, or returns the first fault.
#[tactic(auto, using(crate::proofs::Rows::too_long, crate::proofs::Rows::not_sip, crate::proofs::Rows::bad_start))]
fn message_into(b: &[u8], m: &mut Message) -> Result<(), MsgFault>
    ensures found { IfOk result (λ _. Reads b.now m.new) }
    ensures fault { IfErr result (λ f. fault_of b.now ≡ Some f) }
    ensures line { IfOk result (λ _. IsStartAt (take m.new.head.start.to b.now) m.new.head.start.from m.new.start) }
    ensures places { IfOk result (λ _. MessageLiesIn b.now m.new) }
    ensures complete { IfOk result (λ _. IsComplete m.new.head.fields.items) }
{
    if LONGEST < b.len() {
        return Err(MsgFault::TooLong);
    }
    let Some(line) = start_line(b) else {
        return Err(MsgFault::NotSip);
    };
    let Some(start) = start_at(b, line) else {
        return Err(MsgFault::BadStartLine);
    };
    match scan_behind(b, line, &mut m.head) {
        Ok(()) => parts_into(b, start, m),
        Err(ScanFault::NotSip) => Err(MsgFault::NotSip),
        Err(ScanFault::BadHeader) => Err(MsgFault::BadHeader),
        Err(ScanFault::TooManyHeaders) => Err(MsgFault::TooManyHeaders),
    }
}

impl Message {
    /// A room to read into, which is no message yet. It takes a while to make, and any number of datagrams can be read
    /// into it, one after the other.
    pub fn room() -> Message {
        let nothing = Span { from: 0, to: 0 };
        let name = NameAddr {
            uri: nothing,
            tag: None,
            whole: nothing,
            next: None,
        };
        Message {
            head: Head::new(),
            start: Start::Request {
                method: nothing,
                uri: nothing,
            },
            via: Via {
                host: Host::V4(0),
                host_at: nothing,
                port: None,
                branch: None,
                rport: Rport::Absent,
                received: None,
                whole: nothing,
                next: None,
            },
            from: name,
            to: name,
            call_id: nothing,
            cseq: CSeq {
                number: 0,
                method: nothing,
            },
            max_forwards: None,
            end: 0,
        }
    }

    /// Reads the request or response that the datagram is into a room, whatever it held before, or returns the first
    /// fault, in this order: TooLong, NotSip, BadStartLine, BadHeader, TooManyHeaders, Missing, Repeated, BadField,
    /// ShortBody. On a fault the room holds anything.
    pub fn read_into(b: &[u8], room: &mut Message) -> Result<(), MsgFault>
        // What is read is the message that the datagram is.
        ensures found { IfOk result (λ _. Reads b.now room.new) }
        // A message that the datagram is is read, and nothing else can be.
        ensures only { (m : Message) → Reads b.now m → in_room result room.new ≡ Ok m }
        // A fault is the first one that holds.
        ensures fault { IfErr result (λ f. fault_of b.now ≡ Some f) }
        // Its start line is spelled by the grammar, each span being the place of its part.
        ensures line { IfOk result (λ _. IsStartAt (take room.new.head.start.to b.now) room.new.head.start.from room.new.start) }
        // Each span lies in the value of its field, and the message ends behind its head and within the datagram.
        ensures places { IfOk result (λ _. MessageLiesIn b.now room.new) }
        // There is a Via, and From, To, Call-ID and CSeq stand once.
        ensures complete { IfOk result (λ _. IsComplete room.new.head.fields.items) }
    {
        message_into(b, room)
    }

    /// The request or response that the datagram is, or the first fault, as [`Message::read_into`] tells it, which
    /// moves no message.
    pub fn read(b: &[u8]) -> Result<Message, MsgFault>
        // What is read is the message that the datagram is.
        ensures found { IfOk result (Reads b.now) }
        // A message that the datagram is is read, and nothing else can be.
        ensures only { (m : Message) → Reads b.now m → result ≡ Ok m }
        // A fault is the first one that holds.
        ensures fault { IfErr result (λ f. fault_of b.now ≡ Some f) }
        // Its start line is spelled by the grammar, each span being the place of its part.
        ensures line { IfOk result (λ m. IsStartAt (take m.head.start.to b.now) m.head.start.from m.start) }
        // Each span lies in the value of its field, and the message ends behind its head and within the datagram.
        ensures places { IfOk result (MessageLiesIn b.now) }
        // There is a Via, and From, To, Call-ID and CSeq stand once.
        ensures complete { IfOk result (λ m. IsComplete m.head.fields.items) }
    {
        let mut room = Message::room();
        match Message::read_into(b, &mut room) {
            Ok(()) => Ok(room),
            Err(fault) => Err(fault),
        }
    }
}
