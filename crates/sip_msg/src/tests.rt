//! Datagrams worked out by hand.
ghost use Rattle.std.specs.Prelude.{◌≤◌, length};

use crate::fields::Kinds;
use crate::{Message, MsgFault, Start, read_basis};
use sip_fields::Host;
use sip_scan::{Kind, scan};
use std::process::Abort;

/// The datagram is a message that ends here.
fn reads(rt: &impl Abort, text: &'static [u8], end: usize) {
    match Message::read(text) {
        Ok(m) => assert_eq!(rt; m.end, end),
        Err(_) => assert!(rt; false),
    }
}

/// The datagram has this fault first.
fn refuses(rt: &impl Abort, text: &'static [u8], fault: MsgFault) {
    assert!(rt; Message::read(text).err() == Some(fault));
}

/// The status line is read as this code, and its reason is these bytes.
fn status(rt: &impl Abort, text: &'static [u8], code: u16, reason: &'static [u8]) {
    match Message::read(text) {
        Ok(m) => match m.start {
            Start::Status {
                code: found,
                reason: at,
            } => {
                assert_eq!(rt; found, code);
                assert!(rt; text.get(at.from..at.to) == Some(reason));
            }
            Start::Request { .. } => assert!(rt; false),
        },
        Err(_) => assert!(rt; false),
    }
}

/// The datagram has a basis, with this version and length.
fn has_basis(rt: &impl Abort, text: &'static [u8], version_ok: bool) {
    match read_basis(text) {
        Some(basis) => {
            assert_eq!(rt; basis.version_ok, version_ok);
            assert!(rt; !basis.too_long);
        }
        None => assert!(rt; false),
    }
}

fn has_no_basis(rt: &impl Abort, text: &'static [u8]) {
    assert!(rt; read_basis(text).is_none());
}

/// Compact names, a Via of two values over two lines.
#[test]
fn a_request_in_compact_form(rt: HostRuntime) {
    match Message::read(
        b"OPTIONS sip:a@127.0.0.1 SIP/2.0\r\nv: SIP/2.0/UDP 192.0.2.7:5070;branch=z9hG4bKx,\r\n SIP/2.0/UDP 10.0.0.1;branch=z9hG4bKy\r\nf: \"U\" <sip:u@h>;tag=2\r\nt: sip:a@127.0.0.1\r\ni: c3\r\nCSeq: 7 OPTIONS\r\n\r\n",
    ) {
        Ok(m) => {
            assert!(rt; m.via.port == Some(5070));
            assert!(rt; m.via.host == Host::V4(0xc000_0207));
            assert!(rt; m.via.next.is_some());
            assert!(rt; m.from.tag.is_some());
            assert!(rt; m.to.tag.is_none());
            assert!(rt; m.cseq.number == 7);
            assert!(rt; m.max_forwards.is_none());
            assert_eq!(rt; m.head.fields.len(), 5);
        }
        Err(_) => assert!(rt; false),
    }
}

/// Messages, and where each ends.
const MESSAGES: [(&[u8], usize); 12] = [
    (
        b"SIP/2.0 200 OK\r\nv:SIP/2.0/UDP h\r\nf:<sip:a@h>;tag=1\r\nt:sip:b@h\r\ni:m\r\nCSeq:1 OPTIONS\r\n\r\n",
        86,
    ),
    (
        b"OPTIONS sip:b@h SIP/2.0\r\nv:SIP/2.0/UDP h;branch=z9hG4bKm\r\nf:<sip:a@h>;tag=1\r\nt:sip:b@h\r\ni:m\r\nCSeq:1 OPTIONS\r\n\r\n",
        111,
    ),
    (
        b"\r\n\n\rOPTIONS sip:b@h SIP/2.0\r\nv:SIP/2.0/UDP h;branch=z9hG4bKm\r\nf:<sip:a@h>;tag=1\r\nt:sip:b@h\r\ni:m\r\nCSeq:1 OPTIONS\r\n\r\n",
        115,
    ),
    (
        b"OPTIONS sip:b@h sip/2.0\r\nv:SIP/2.0/UDP h;branch=z9hG4bKm\r\nf:<sip:a@h>;tag=1\r\nt:sip:b@h\r\ni:m\r\nCSeq:1 OPTIONS\r\n\r\n",
        111,
    ),
    (
        b"OPTIONS sip:b@h SIP/2.0\r\nv:SIP/2.0/UDP h;branch=z9hG4bKm\r\nf:<sip:a@h>;tag=1\r\nt:sip:b@h\r\ni:m\r\nCSeq:1 OPTIONS\r\n\r\nabcd",
        115,
    ),
    (
        b"OPTIONS sip:b@h SIP/2.0\r\nv:SIP/2.0/UDP h;branch=z9hG4bKm\r\nf:<sip:a@h>;tag=1\r\nt:sip:b@h\r\ni:m\r\nCSeq:1 OPTIONS\r\nl:4\r\n\r\nabcd",
        120,
    ),
    (
        b"OPTIONS sip:b@h SIP/2.0\r\nv:SIP/2.0/UDP h;branch=z9hG4bKm\r\nf:<sip:a@h>;tag=1\r\nt:sip:b@h\r\ni:m\r\nCSeq:1 OPTIONS\r\nl: 3 \r\n\r\nabcd",
        121,
    ),
    (
        b"OPTIONS sip:b@h SIP/2.0\r\nv:SIP/2.0/UDP h;branch=z9hG4bKm\r\nf:<sip:a@h>;tag=1\r\nt:sip:b@h\r\ni:m\r\nCSeq:1 OPTIONS\r\nContent-Length:0\r\n\r\nabcd",
        129,
    ),
    (
        b"OPTIONS sip:b@h SIP/2.0\r\nv:SIP/2.0/UDP h;branch=z9hG4bKm\r\nf:<sip:a@h>;tag=1\r\nt:sip:b@h\r\ni:m\r\nCSeq:1 OPTIONS\r\nMax-Forwards:255\r\n\r\n",
        129,
    ),
    (
        b"OPTIONS sip:b@h SIP/2.0\r\nv:SIP/2.0/UDP h;branch=z9hG4bKm\r\nf:<sip:a@h>;tag=1\r\nt:sip:b@h\r\ni:m\r\nCSeq:1 OPTIONS\r\nRoute: <sip:p;lr>, <sip:q>\r\nRoute:<sip:r>\r\n\r\n",
        154,
    ),
    (
        b"OPTIONS sip:b@h SIP/2.0\r\nv:SIP/2.0/UDP h;branch=z9hG4bKm\r\nf:<sip:a@h>;tag=1\r\nt:sip:b@h\r\ni:m\r\nCSeq:1 OPTIONS\r\nVia: SIP/2.0/UDP g\r\n\r\n",
        131,
    ),
    (
        b"OPTIONS sip:b@h SIP/2.0\r\nv:SIP/2.0/UDP h;branch=z9hG4bKm\r\nf:<sip:a@h>;tag=1\r\nt:sip:b@h\r\ni:m\r\nCSeq:1 OPTIONS\r\nContact:\r\nX: ,\r\n\r\n",
        127,
    ),
];

#[test]
fn messages(rt: HostRuntime) {
    for (text, end) in MESSAGES {
        reads(&rt, text, end);
    }
}

/// Messages with a status line, and its code and reason.
const STATUS_LINES: [(&[u8], u16, &[u8]); 5] = [
    (
        b"SIP/2.0 100 Trying\r\nv:SIP/2.0/UDP h;branch=z9hG4bKm\r\nf:<sip:a@h>;tag=1\r\nt:sip:b@h\r\ni:m\r\nCSeq:1 INVITE\r\n\r\n",
        100,
        b"Trying",
    ),
    (
        b"SIP/2.0 699 a b \r\nv:SIP/2.0/UDP h;branch=z9hG4bKm\r\nf:<sip:a@h>;tag=1\r\nt:sip:b@h\r\ni:m\r\nCSeq:1 INVITE\r\n\r\n",
        699,
        b"a b ",
    ),
    (
        b"SIP/2.0 200\r\nv:SIP/2.0/UDP h;branch=z9hG4bKm\r\nf:<sip:a@h>;tag=1\r\nt:sip:b@h\r\ni:m\r\nCSeq:1 INVITE\r\n\r\n",
        200,
        b"",
    ),
    (
        b"SIP/2.0 200 \r\nv:SIP/2.0/UDP h;branch=z9hG4bKm\r\nf:<sip:a@h>;tag=1\r\nt:sip:b@h\r\ni:m\r\nCSeq:1 INVITE\r\n\r\n",
        200,
        b"",
    ),
    (
        b"sip/2.0 200 OK\r\nv:SIP/2.0/UDP h;branch=z9hG4bKm\r\nf:<sip:a@h>;tag=1\r\nt:sip:b@h\r\ni:m\r\nCSeq:1 INVITE\r\n\r\n",
        200,
        b"OK",
    ),
];

/// Messages whose status line is malformed, and their fault.
const NO_STATUS_LINES: [(&[u8], MsgFault); 7] = [
    (
        b"SIP/2.0 99 x\r\nv:SIP/2.0/UDP h;branch=z9hG4bKm\r\nf:<sip:a@h>;tag=1\r\nt:sip:b@h\r\ni:m\r\nCSeq:1 INVITE\r\n\r\n",
        MsgFault::BadStartLine,
    ),
    (
        b"SIP/2.0 099 x\r\nv:SIP/2.0/UDP h;branch=z9hG4bKm\r\nf:<sip:a@h>;tag=1\r\nt:sip:b@h\r\ni:m\r\nCSeq:1 INVITE\r\n\r\n",
        MsgFault::BadStartLine,
    ),
    (
        b"SIP/2.0 700 x\r\nv:SIP/2.0/UDP h;branch=z9hG4bKm\r\nf:<sip:a@h>;tag=1\r\nt:sip:b@h\r\ni:m\r\nCSeq:1 INVITE\r\n\r\n",
        MsgFault::BadStartLine,
    ),
    (
        b"SIP/2.0 0200 x\r\nv:SIP/2.0/UDP h;branch=z9hG4bKm\r\nf:<sip:a@h>;tag=1\r\nt:sip:b@h\r\ni:m\r\nCSeq:1 INVITE\r\n\r\n",
        MsgFault::BadStartLine,
    ),
    (
        b"SIP/2.0  200 x\r\nv:SIP/2.0/UDP h;branch=z9hG4bKm\r\nf:<sip:a@h>;tag=1\r\nt:sip:b@h\r\ni:m\r\nCSeq:1 INVITE\r\n\r\n",
        MsgFault::BadStartLine,
    ),
    (
        b"SIP/2.0 200OK\r\nv:SIP/2.0/UDP h;branch=z9hG4bKm\r\nf:<sip:a@h>;tag=1\r\nt:sip:b@h\r\ni:m\r\nCSeq:1 INVITE\r\n\r\n",
        MsgFault::BadStartLine,
    ),
    (
        b"SIP/2.1 200 OK\r\nv:SIP/2.0/UDP h;branch=z9hG4bKm\r\nf:<sip:a@h>;tag=1\r\nt:sip:b@h\r\ni:m\r\nCSeq:1 INVITE\r\n\r\n",
        MsgFault::BadStartLine,
    ),
];

#[test]
fn status_lines(rt: HostRuntime) {
    for (text, code, reason) in STATUS_LINES {
        status(&rt, text, code, reason);
    }
    for (text, fault) in NO_STATUS_LINES {
        refuses(&rt, text, fault);
    }
}

/// Datagrams with one fault.
const FAULTS: [(&[u8], MsgFault); 48] = [
    (b"\r\n\r\n", MsgFault::NotSip),
    (b"GET / HTTP/1.1\r\n\r\n", MsgFault::NotSip),
    (b"OPTIONS sip:b@h SIP/2.0", MsgFault::NotSip),
    (
        b"OPTIONS  sip:b@h SIP/2.0\r\nv:SIP/2.0/UDP h;branch=z9hG4bKm\r\nf:<sip:a@h>;tag=1\r\nt:sip:b@h\r\ni:m\r\nCSeq:1 OPTIONS\r\n\r\n",
        MsgFault::BadStartLine,
    ),
    (
        b"OPTIONS sip:b@h  SIP/2.0\r\nv:SIP/2.0/UDP h;branch=z9hG4bKm\r\nf:<sip:a@h>;tag=1\r\nt:sip:b@h\r\ni:m\r\nCSeq:1 OPTIONS\r\n\r\n",
        MsgFault::BadStartLine,
    ),
    (
        b" OPTIONS sip:b@h SIP/2.0\r\nv:SIP/2.0/UDP h;branch=z9hG4bKm\r\nf:<sip:a@h>;tag=1\r\nt:sip:b@h\r\ni:m\r\nCSeq:1 OPTIONS\r\n\r\n",
        MsgFault::BadStartLine,
    ),
    (
        b"OPTIONS sip:b @h SIP/2.0\r\nv:SIP/2.0/UDP h;branch=z9hG4bKm\r\nf:<sip:a@h>;tag=1\r\nt:sip:b@h\r\ni:m\r\nCSeq:1 OPTIONS\r\n\r\n",
        MsgFault::BadStartLine,
    ),
    (
        b"OPTIONS sip:b@h SIP/3.0\r\nv:SIP/2.0/UDP h;branch=z9hG4bKm\r\nf:<sip:a@h>;tag=1\r\nt:sip:b@h\r\ni:m\r\nCSeq:1 OPTIONS\r\n\r\n",
        MsgFault::BadStartLine,
    ),
    (
        b"OPTIONS SIP/2.0\r\nv:SIP/2.0/UDP h;branch=z9hG4bKm\r\nf:<sip:a@h>;tag=1\r\nt:sip:b@h\r\ni:m\r\nCSeq:1 OPTIONS\r\n\r\n",
        MsgFault::BadStartLine,
    ),
    (
        b"OPTIONS sip:b@h SIP/2.0\r\nv:SIP/2.0/UDP h;branch=z9hG4bKm\r\nf:<sip:a@h>;tag=1\r\nt:sip:b@h\r\ni:m\r\nCSeq:1 OPTIONS\r\n",
        MsgFault::BadHeader,
    ),
    (
        b"OPTIONS sip:b@h SIP/2.0\r\n v:SIP/2.0/UDP h;branch=z9hG4bKm\r\nf:<sip:a@h>;tag=1\r\nt:sip:b@h\r\ni:m\r\nCSeq:1 OPTIONS\r\n\r\n",
        MsgFault::BadHeader,
    ),
    (
        b"OPTIONS sip:b@h SIP/2.0\r\nv:SIP/2.0/UDP h;branch=z9hG4bKm\r\nf:<sip:a@h>;tag=1\r\nt:sip:b@h\r\ni:m\r\nCSeq:1 OPTIONS\r\nX\r\n\r\n",
        MsgFault::BadHeader,
    ),
    (
        b"OPTIONS sip:b@h SIP/2.0\r\nf:<sip:a@h>;tag=1\r\nt:sip:b@h\r\ni:m\r\nCSeq:1 OPTIONS\r\n\r\n",
        MsgFault::Missing,
    ),
    (
        b"OPTIONS sip:b@h SIP/2.0\r\nv:SIP/2.0/UDP h;branch=z9hG4bKm\r\nt:sip:b@h\r\ni:m\r\nCSeq:1 OPTIONS\r\n\r\n",
        MsgFault::Missing,
    ),
    (
        b"OPTIONS sip:b@h SIP/2.0\r\nv:SIP/2.0/UDP h;branch=z9hG4bKm\r\nf:<sip:a@h>;tag=1\r\ni:m\r\nCSeq:1 OPTIONS\r\n\r\n",
        MsgFault::Missing,
    ),
    (
        b"OPTIONS sip:b@h SIP/2.0\r\nv:SIP/2.0/UDP h;branch=z9hG4bKm\r\nf:<sip:a@h>;tag=1\r\nt:sip:b@h\r\nCSeq:1 OPTIONS\r\n\r\n",
        MsgFault::Missing,
    ),
    (
        b"OPTIONS sip:b@h SIP/2.0\r\nv:SIP/2.0/UDP h;branch=z9hG4bKm\r\nf:<sip:a@h>;tag=1\r\nt:sip:b@h\r\ni:m\r\n\r\n",
        MsgFault::Missing,
    ),
    (
        b"OPTIONS sip:b@h SIP/2.0\r\nv:SIP/2.0/UDP h;branch=z9hG4bKm\r\nf:<sip:a@h>;tag=1\r\nt:sip:b@h\r\ni:m\r\nCSeq:1 OPTIONS\r\nf:<sip:a@h>;tag=1\r\n\r\n",
        MsgFault::Repeated,
    ),
    (
        b"OPTIONS sip:b@h SIP/2.0\r\nv:SIP/2.0/UDP h;branch=z9hG4bKm\r\nf:<sip:a@h>;tag=1\r\nt:sip:b@h\r\ni:m\r\nCSeq:1 OPTIONS\r\nt:sip:b@h\r\n\r\n",
        MsgFault::Repeated,
    ),
    (
        b"OPTIONS sip:b@h SIP/2.0\r\nv:SIP/2.0/UDP h;branch=z9hG4bKm\r\nf:<sip:a@h>;tag=1\r\nt:sip:b@h\r\ni:m\r\nCSeq:1 OPTIONS\r\ni:m\r\n\r\n",
        MsgFault::Repeated,
    ),
    (
        b"OPTIONS sip:b@h SIP/2.0\r\nv:SIP/2.0/UDP h;branch=z9hG4bKm\r\nf:<sip:a@h>;tag=1\r\nt:sip:b@h\r\ni:m\r\nCSeq:1 OPTIONS\r\nCSeq:1 OPTIONS\r\n\r\n",
        MsgFault::Repeated,
    ),
    (
        b"OPTIONS sip:b@h SIP/2.0\r\nv:SIP/2.0/UDP h;branch=z9hG4bKm\r\nf:<sip:a@h>;tag=1\r\nt:sip:b@h\r\ni:m\r\nCSeq:1 OPTIONS\r\nMax-Forwards:1\r\nMax-Forwards:1\r\n\r\n",
        MsgFault::Repeated,
    ),
    (
        b"OPTIONS sip:b@h SIP/2.0\r\nv:SIP/2.0/UDP h;branch=z9hG4bKm\r\nf:<sip:a@h>;tag=1\r\nt:sip:b@h\r\ni:m\r\nCSeq:1 OPTIONS\r\nl:0\r\nl:0\r\n\r\n",
        MsgFault::Repeated,
    ),
    (
        b"OPTIONS sip:b@h SIP/2.0\r\nv:SIP/2.0/UDP\r\nf:<sip:a@h>;tag=1\r\nt:sip:b@h\r\ni:m\r\nCSeq:1 OPTIONS\r\n\r\n",
        MsgFault::BadField,
    ),
    (
        b"OPTIONS sip:b@h SIP/2.0\r\nv:SIP/2.0/UDP h;branch=z9hG4bKm\r\nf:<sip:a@h>;tag=1\r\nt:sip:b@h\r\ni:m\r\nCSeq:1 OPTIONS\r\nv:SIP/2.0/UDP\r\n\r\n",
        MsgFault::BadField,
    ),
    (
        b"OPTIONS sip:b@h SIP/2.0\r\nv:SIP/2.0/UDP h;branch=z9hG4bKm,\r\nf:<sip:a@h>;tag=1\r\nt:sip:b@h\r\ni:m\r\nCSeq:1 OPTIONS\r\n\r\n",
        MsgFault::BadField,
    ),
    (
        b"OPTIONS sip:b@h SIP/2.0\r\nv:SIP/2.0/UDP h;branch=z9hG4bKm\r\nf:<sip:a@h>,<sip:c@h>\r\nt:sip:b@h\r\ni:m\r\nCSeq:1 OPTIONS\r\n\r\n",
        MsgFault::BadField,
    ),
    (
        b"OPTIONS sip:b@h SIP/2.0\r\nv:SIP/2.0/UDP h;branch=z9hG4bKm\r\nf:<sip\r\nt:sip:b@h\r\ni:m\r\nCSeq:1 OPTIONS\r\n\r\n",
        MsgFault::BadField,
    ),
    (
        b"OPTIONS sip:b@h SIP/2.0\r\nv:SIP/2.0/UDP h;branch=z9hG4bKm\r\nf:<sip:a@h>;tag=1\r\nt:b\r\ni:m\r\nCSeq:1 OPTIONS\r\n\r\n",
        MsgFault::BadField,
    ),
    (
        b"OPTIONS sip:b@h SIP/2.0\r\nv:SIP/2.0/UDP h;branch=z9hG4bKm\r\nf:<sip:a@h>;tag=1\r\nt:sip:b@h,sip:c@h\r\ni:m\r\nCSeq:1 OPTIONS\r\n\r\n",
        MsgFault::BadField,
    ),
    (
        b"OPTIONS sip:b@h SIP/2.0\r\nv:SIP/2.0/UDP h;branch=z9hG4bKm\r\nf:<sip:a@h>;tag=1\r\nt:sip:b@h\r\ni:a b\r\nCSeq:1 OPTIONS\r\n\r\n",
        MsgFault::BadField,
    ),
    (
        b"OPTIONS sip:b@h SIP/2.0\r\nv:SIP/2.0/UDP h;branch=z9hG4bKm\r\nf:<sip:a@h>;tag=1\r\nt:sip:b@h\r\ni: \r\nCSeq:1 OPTIONS\r\n\r\n",
        MsgFault::BadField,
    ),
    (
        b"OPTIONS sip:b@h SIP/2.0\r\nv:SIP/2.0/UDP h;branch=z9hG4bKm\r\nf:<sip:a@h>;tag=1\r\nt:sip:b@h\r\ni:m\r\nCSeq:2147483648 OPTIONS\r\n\r\n",
        MsgFault::BadField,
    ),
    (
        b"OPTIONS sip:b@h SIP/2.0\r\nv:SIP/2.0/UDP h;branch=z9hG4bKm\r\nf:<sip:a@h>;tag=1\r\nt:sip:b@h\r\ni:m\r\nCSeq:1 OPTIONS\r\nMax-Forwards:256\r\n\r\n",
        MsgFault::BadField,
    ),
    (
        b"OPTIONS sip:b@h SIP/2.0\r\nv:SIP/2.0/UDP h;branch=z9hG4bKm\r\nf:<sip:a@h>;tag=1\r\nt:sip:b@h\r\ni:m\r\nCSeq:1 OPTIONS\r\nMax-Forwards:0070\r\n\r\n",
        MsgFault::BadField,
    ),
    (
        b"OPTIONS sip:b@h SIP/2.0\r\nv:SIP/2.0/UDP h;branch=z9hG4bKm\r\nf:<sip:a@h>;tag=1\r\nt:sip:b@h\r\ni:m\r\nCSeq:1 OPTIONS\r\nMax-Forwards:\r\n\r\n",
        MsgFault::BadField,
    ),
    (
        b"OPTIONS sip:b@h SIP/2.0\r\nv:SIP/2.0/UDP h;branch=z9hG4bKm\r\nf:<sip:a@h>;tag=1\r\nt:sip:b@h\r\ni:m\r\nCSeq:1 OPTIONS\r\nl:12345678901\r\n\r\n",
        MsgFault::BadField,
    ),
    (
        b"OPTIONS sip:b@h SIP/2.0\r\nv:SIP/2.0/UDP h;branch=z9hG4bKm\r\nf:<sip:a@h>;tag=1\r\nt:sip:b@h\r\ni:m\r\nCSeq:1 OPTIONS\r\nl:-1\r\n\r\n",
        MsgFault::BadField,
    ),
    (
        b"OPTIONS sip:b@h SIP/2.0\r\nv:SIP/2.0/UDP h;branch=z9hG4bKm\r\nf:<sip:a@h>;tag=1\r\nt:sip:b@h\r\ni:m\r\nCSeq:1 OPTIONS\r\nRoute:sip:p\r\n\r\n",
        MsgFault::BadField,
    ),
    (
        b"OPTIONS sip:b@h SIP/2.0\r\nv:SIP/2.0/UDP h;branch=z9hG4bKm\r\nf:<sip:a@h>;tag=1\r\nt:sip:b@h\r\ni:m\r\nCSeq:1 OPTIONS\r\nRoute:<sip:p>,\r\n\r\n",
        MsgFault::BadField,
    ),
    (
        b"OPTIONS sip:b@h SIP/2.0\r\nv:SIP/2.0/UDP h;branch=z9hG4bKm\r\nf:<sip:a@h>;tag=1\r\nt:sip:b@h\r\ni:m\r\nCSeq:1 OPTIONS\r\nRoute:<sip:p>\r\nRoute:<sip:p>,sip:q\r\n\r\n",
        MsgFault::BadField,
    ),
    (
        b"OPTIONS sip:b@h SIP/2.0\r\nv:SIP/2.0/UDP h;branch=z9hG4bKm\r\nf:<sip:a@h>;tag=1\r\nt:sip:b@h\r\ni:m\r\nCSeq:1 BYE\r\n\r\n",
        MsgFault::BadField,
    ),
    (
        b"OPTIONS sip:b@h SIP/2.0\r\nv:SIP/2.0/UDP h;branch=z9hG4bKm\r\nf:<sip:a@h>;tag=1\r\nt:sip:b@h\r\ni:m\r\nCSeq:1 options\r\n\r\n",
        MsgFault::BadField,
    ),
    (
        b"OPTIONS sip:b@h SIP/2.0\r\nv:SIP/2.0/UDP h\r\nf:<sip:a@h>;tag=1\r\nt:sip:b@h\r\ni:m\r\nCSeq:1 OPTIONS\r\n\r\n",
        MsgFault::BadField,
    ),
    (
        b"OPTIONS sip:b@h SIP/2.0\r\nv:SIP/2.0/UDP h;branch=Z9hG4bKm\r\nf:<sip:a@h>;tag=1\r\nt:sip:b@h\r\ni:m\r\nCSeq:1 OPTIONS\r\n\r\n",
        MsgFault::BadField,
    ),
    (
        b"OPTIONS sip:b@h SIP/2.0\r\nv:SIP/2.0/UDP h;branch=\"z9hG4bKm\"\r\nf:<sip:a@h>;tag=1\r\nt:sip:b@h\r\ni:m\r\nCSeq:1 OPTIONS\r\n\r\n",
        MsgFault::BadField,
    ),
    (
        b"OPTIONS sip:b@h SIP/2.0\r\nv:SIP/2.0/UDP h;branch=z9hG4bKm\r\nf:<sip:a@h>;tag=1\r\nt:sip:b@h\r\ni:m\r\nCSeq:1 OPTIONS\r\nl:1\r\n\r\n",
        MsgFault::ShortBody,
    ),
    (
        b"OPTIONS sip:b@h SIP/2.0\r\nv:SIP/2.0/UDP h;branch=z9hG4bKm\r\nf:<sip:a@h>;tag=1\r\nt:sip:b@h\r\ni:m\r\nCSeq:1 OPTIONS\r\nl:5\r\n\r\nabcd",
        MsgFault::ShortBody,
    ),
];

#[test]
fn each_fault_alone(rt: HostRuntime) {
    for (text, fault) in FAULTS {
        refuses(&rt, text, fault);
    }
}

/// Datagrams with two faults that are neighbours, and the one that is told.
const NEIGHBOURS: [(&[u8], MsgFault); 5] = [
    (b"OPTIONS  sip:b@h HTTP/2.0\r\n\r\n", MsgFault::NotSip),
    (b"OPTIONS sip:b@h SIP/3.0\r\n bad", MsgFault::BadStartLine),
    (
        b"OPTIONS sip:b@h SIP/2.0\r\nv:SIP/2.0/UDP h;branch=z9hG4bKm\r\nf:<sip:a@h>;tag=1\r\nf:<sip:a@h>;tag=1\r\nt:sip:b@h\r\ni:m\r\n\r\n",
        MsgFault::Missing,
    ),
    (
        b"OPTIONS sip:b@h SIP/2.0\r\nv:SIP/2.0/UDP h;branch=z9hG4bKm\r\nf:<sip:a@h>;tag=1\r\nt:sip:b@h\r\ni:m\r\nCSeq:1 OPTIONS\r\nCSeq:x\r\n\r\n",
        MsgFault::Repeated,
    ),
    (
        b"OPTIONS sip:b@h SIP/2.0\r\nv:SIP/2.0/UDP h;branch=z9hG4bKm\r\nf:<sip:a@h>;tag=1\r\nt:sip:b@h\r\ni:m\r\nCSeq:1 BYE\r\nl:5\r\n\r\n",
        MsgFault::BadField,
    ),
];

/// Of two faults that are neighbours the earlier one is told. Others are in `limits`.
#[test]
fn the_earlier_fault_wins(rt: HostRuntime) {
    for (text, fault) in NEIGHBOURS {
        refuses(&rt, text, fault);
    }
}

/// The fault of this many fields `A:` behind a request line, and then `last`.
fn fault_of(count: usize, last: &[u8]) -> Option<MsgFault>
    requires few { count ≤ 130 }
    requires short { length last.now ≤ 128 }
{
    let mut text = [b'\n'; 800];
    text[..25].copy_from_slice(b"OPTIONS sip:b@h SIP/2.0\r\n");
    for field in 0..count {
        text[25 + 4 * field..29 + 4 * field].copy_from_slice(b"A:\r\n");
    }
    let end = 25 + 4 * count;
    text[end..end + last.len()].copy_from_slice(last);
    Message::read(&text[..end + last.len()]).err()
}

/// Route, Record-Route and Contact are kinds like the others, and all fields of other names are one kind.
#[test]
fn fields_are_found_by_their_kinds(rt: HostRuntime) {
    let text: &'static [u8] =
        b"SIP/2.0 200\r\nX:1\r\nContact:2\r\nRecord-Route:3\r\nRoute:4\r\nm:5\r\nY:6\r\nt:7\r\nRoute:8\r\n\r\n";
    let rows: [(Kind, usize, Option<&'static [u8]>); 6] = [
        (Kind::Route, 2, Some(b"Route:4\r\n")),
        (Kind::RecordRoute, 1, Some(b"Record-Route:3\r\n")),
        (Kind::Contact, 2, Some(b"Contact:2\r\n")),
        (Kind::To, 1, Some(b"t:7\r\n")),
        (Kind::Other, 2, Some(b"X:1\r\n")),
        (Kind::Via, 0, None),
    ];
    match scan(text) {
        Ok(head) => {
            let kinds = Kinds::of(&head.fields);
            for (kind, number, whole) in rows {
                assert_eq!(rt; kinds.count(kind), number);
                let found = kinds.first(text, kind);
                assert!(rt;
                    found.and_then(|field| text.get(field.whole.from..field.whole.to)) == whole
                );
            }
        }
        Err(_) => assert!(rt; false),
    }
}

/// Whatever a room held before: another message, or a part of one that doesn't read.
#[test]
fn a_room_is_used_again(rt: HostRuntime) {
    let mut room = Message::room();
    let rows: [(&'static [u8], Result<(), MsgFault>, usize, &'static [u8]); 4] = [
        (
            b"OPTIONS sip:b@h SIP/2.0\r\nv:SIP/2.0/UDP h;branch=z9hG4bKm\r\nf:<sip:a@h>;tag=1\r\nt:sip:b@h;tag=2\r\ni:m\r\nCSeq:1 OPTIONS\r\nMax-Forwards:9\r\n\r\n",
            Ok(()),
            6,
            b"m",
        ),
        (
            b"OPTIONS sip:b@h SIP/2.0\r\nv:SIP/2.0/UDP h;branch=z9hG4bKm\r\nf:<sip:a@h>;tag=1\r\ni:m\r\n\r\n",
            Err(MsgFault::Missing),
            0,
            b"",
        ),
        (
            b"SIP/2.0 200 OK\r\nv:SIP/2.0/UDP h;branch=z9hG4bKm\r\nf:<sip:a@h>;tag=1\r\nt:sip:b@h\r\ni:other\r\nCSeq:1 BYE\r\n\r\n",
            Ok(()),
            5,
            b"other",
        ),
        (b"\r\n\r\n", Err(MsgFault::NotSip), 0, b""),
    ];
    for (text, end, fields, call_id) in rows {
        let told = Message::read_into(text, &mut room);
        assert!(rt; told == end);
        if told.is_ok() {
            assert_eq!(rt; room.head.fields.len(), fields);
            assert!(rt; text.get(room.call_id.from..room.call_id.to) == Some(call_id));
            assert_eq!(rt; room.max_forwards.is_some(), fields == 6);
            assert_eq!(rt; room.to.tag.is_some(), fields == 6);
            assert_eq!(rt; room.end, text.len());
        }
    }
}

/// 128 fields are read, 129 are too many; a bad field goes before, and an absent one behind.
#[test]
fn limits(rt: HostRuntime) {
    let fields =
        b"v:SIP/2.0/UDP h;branch=z9hG4bKm\r\nf:<sip:a@h>;tag=1\r\nt:sip:b@h\r\ni:m\r\nCSeq:1 OPTIONS\r\n\r\n";
    assert!(rt; fault_of(123, fields) == None);
    assert!(rt; fault_of(124, fields) == Some(MsgFault::TooManyHeaders));
    assert!(rt; fault_of(129, b"A\r\n\r\n") == Some(MsgFault::BadHeader));
    assert!(rt; fault_of(129, b"\r\n") == Some(MsgFault::TooManyHeaders));
    let text = [0u8; 8193];
    assert!(rt; Message::read(&text).err() == Some(MsgFault::TooLong));
    assert!(rt; Message::read(&text[..8192]).err() == Some(MsgFault::NotSip));
}

/// Datagrams that have a basis, and whether their version is the one of SIP.
const BASES: [(&[u8], bool); 9] = [
    (
        b"OPTIONS sip:b@h SIP/2.0\r\nv:SIP/2.0/UDP h;branch=z9hG4bKm\r\nf:<sip:a@h>;tag=1\r\nt:sip:b@h\r\ni:m\r\nCSeq:1 OPTIONS\r\n\r\n",
        true,
    ),
    (
        b"OPTIONS sip:b@h SIP/2.0\r\nv:SIP/2.0/UDP h;branch=z9hG4bKm\r\n\r\n",
        true,
    ),
    (
        b"OPTIONS  sip:b@h SIP/2.0\r\nv:SIP/2.0/UDP h;branch=z9hG4bKm\r\n\r\n",
        true,
    ),
    (
        b"OPTIONS sip:b@h  SIP/2.0\r\nv:SIP/2.0/UDP h;branch=z9hG4bKm\r\n\r\n",
        true,
    ),
    (
        b"OPTIONS sip:b @h sip/2.0\r\nv:SIP/2.0/UDP h;branch=z9hG4bKm\r\n\r\n",
        true,
    ),
    (
        b"ack sip:b@h SIP/2.0\r\nv:SIP/2.0/UDP h;branch=z9hG4bKm\r\n\r\n",
        true,
    ),
    (
        b"OPTIONS sip:b@h SIP/3.0\r\nv:SIP/2.0/UDP h;branch=z9hG4bKm\r\n\r\n",
        false,
    ),
    (
        b"OPTIONS sip:b@h SIP/02.0\r\nv:SIP/2.0/UDP h;branch=z9hG4bKm\r\n\r\n",
        false,
    ),
    (
        b"OPTIONS sip:b@h SIP/2.0\r\nv:SIP/2.0/UDP h;branch=z9hG4bKm\r\nf:<sip:a@h>;tag=1\r\nt:sip:b@h\r\ni:m\r\nCSeq:1 OPTIONS\r\nl:9\r\n\r\n",
        true,
    ),
];

/// Datagrams that have none.
const NO_BASES: [&[u8]; 10] = [
    b"OPTIONS sip:b@h SIP/2\r\nv:SIP/2.0/UDP h;branch=z9hG4bKm\r\n\r\n",
    b"OPTIONS SIP/2.0\r\nv:SIP/2.0/UDP h;branch=z9hG4bKm\r\n\r\n",
    b"OPTIONS  SIP/2.0\r\nv:SIP/2.0/UDP h;branch=z9hG4bKm\r\n\r\n",
    b" OPTIONS sip:b@h SIP/2.0\r\nv:SIP/2.0/UDP h;branch=z9hG4bKm\r\n\r\n",
    b"ACK sip:b@h SIP/2.0\r\nv:SIP/2.0/UDP h;branch=z9hG4bKm\r\n\r\n",
    b"SIP/2.0 200 OK\r\nv:SIP/2.0/UDP h;branch=z9hG4bKm\r\n\r\n",
    b"OPTIONS sip:b@h SIP/2.0\r\nv:SIP/2.0/UDP h;branch=z9hG4bKm\r\n",
    b"OPTIONS sip:b@h SIP/2.0\r\nX\r\nv:SIP/2.0/UDP h;branch=z9hG4bKm\r\n\r\n",
    b"OPTIONS sip:b@h SIP/2.0\r\nf:<sip:a@h>;tag=1\r\n\r\n",
    b"OPTIONS sip:b@h SIP/2.0\r\nv:SIP/2.0/UDP\r\nv:SIP/2.0/UDP h;branch=z9hG4bKm\r\n\r\n",
];

#[test]
fn bases(rt: HostRuntime) {
    for (text, version_ok) in BASES {
        has_basis(&rt, text, version_ok);
    }
    for text in NO_BASES {
        has_no_basis(&rt, text);
    }
}

/// The first 8,192 bytes alone are looked at.
#[test]
fn a_basis_of_a_datagram_that_is_too_long(rt: HostRuntime) {
    let mut text = [b'x'; 8193];
    text[..60].copy_from_slice(
        b"OPTIONS sip:b@h SIP/2.0\r\nv:SIP/2.0/UDP h;branch=z9hG4bKm\r\n\r\n",
    );
    match read_basis(&text) {
        Some(basis) => {
            assert!(rt; basis.too_long);
            assert!(rt; basis.version_ok);
        }
        None => assert!(rt; false),
    }
}

/// The example of [`Message`].
#[test]
fn a_room_is_read_into(rt: HostRuntime) {
    let mut room = Message::room();
    let b =
        b"SIP/2.0 200 OK\r\nv: SIP/2.0/UDP h;branch=z9hG4bK1\r\nf: <sip:a@h>;tag=1\r\nt: <sip:b@h>;tag=2\r\ni: c\r\nCSeq: 1 INVITE\r\n\r\n";
    assert!(rt; Message::read_into(b, &mut room).is_ok());
    assert!(rt; matches!(room.start, Start::Status { code: 200, .. }));
    let branch = room.via.branch.and_then(|at| b.get(at.from..at.to));
    assert!(rt; branch == Some(b"z9hG4bK1".as_slice()));
    assert_eq!(rt; room.cseq.number, 1);
}
