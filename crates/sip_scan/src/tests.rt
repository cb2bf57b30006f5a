//! Heads worked out by hand.
ghost use Rattle.std.specs.Prelude.{◌≤◌, length};

use crate::{Head, Kind, ScanFault, Span, full_name, scan, scan_into, start_line};
use std::process::Abort;

/// The datagram has these fields, each told by kind, name and value, and this body.
fn reads(
    rt: &impl Abort,
    text: &'static [u8],
    fields: &[(Kind, &'static [u8], &'static [u8])],
    body: &'static [u8],
) {
    match scan(text) {
        Ok(head) => {
            assert_eq!(rt; head.fields.len(), fields.len());
            for (found, (kind, name, value)) in head.fields.as_slice().iter().zip(fields) {
                assert_eq!(rt; found.kind, *kind);
                assert!(rt; text.get(found.name.from..found.name.to) == Some(*name));
                assert!(rt; text.get(found.value.from..found.value.to) == Some(*value));
                assert!(rt; found.whole.from == found.name.from);
            }
            assert!(rt; text.get(head.body..text.len()) == Some(body));
        }
        Err(_) => assert!(rt; false),
    }
}

fn refuses(rt: &impl Abort, text: &'static [u8], fault: ScanFault) {
    assert!(rt; scan(text).err() == Some(fault));
}

#[test]
fn heads(rt: HostRuntime) {
    reads(&rt, b"SIP/2.0 200 OK\r\n\r\n", &[], b"");
    reads(
        &rt,
        b"OPTIONS sip:a@b SIP/2.0\r\nCSeq: 1 OPTIONS\r\n\r\nbody",
        &[(Kind::CSeq, b"CSeq", b" 1 OPTIONS")],
        b"body",
    );
    reads(
        &rt,
        b"\r\n\n\rsip/2.0 200 OK\r\nA:\r\n\r\n\r\n",
        &[(Kind::Other, b"A", b"")],
        b"\r\n",
    );
    reads(
        &rt,
        b"SIP/2.0 200\r\nVia \t: x\r\n\r\n",
        &[(Kind::Via, b"Via", b" x")],
        b"",
    );
    reads(
        &rt,
        b"SIP/2.0 200\r\nTo: a\r\n b\r\n\tc\r\nFrom: d\r\n\r\n",
        &[
            (Kind::To, b"To", b" a\r\n b\r\n\tc"),
            (Kind::From, b"From", b" d"),
        ],
        b"",
    );
    reads(
        &rt,
        b"SIP/2.0 200\r\nTo:\r\n \r\n\r\n",
        &[(Kind::To, b"To", b"\r\n ")],
        b"",
    );
}

/// Whatever a room held before: a longer head, or a part of one that doesn't read.
#[test]
fn a_room_is_used_again(rt: HostRuntime) {
    let mut head = Head::new();
    let rows: [(&[u8], Result<(), ScanFault>, usize, usize); 4] = [
        (b"SIP/2.0 200\r\nVia:\r\nTo:\r\n\r\n", Ok(()), 2, 26),
        (
            b"SIP/2.0 200\r\nVia:\r\nTo:\r\nFrom:\r\nX",
            Err(ScanFault::BadHeader),
            0,
            0,
        ),
        (b"SIP/2.0 200\r\nContact:\r\n\r\n", Ok(()), 1, 25),
        (b"\r\nSIP/2.0 200\r\n\r\n", Ok(()), 0, 17),
    ];
    for (text, end, fields, body) in rows {
        let told = scan_into(text, &mut head);
        assert!(rt; told == end);
        if told.is_ok() {
            assert_eq!(rt; head.fields.len(), fields);
            assert_eq!(rt; head.body, body);
        }
    }
}

#[test]
fn kinds(rt: HostRuntime) {
    reads(
        &rt,
        b"SIP/2.0 200\r\nv:\r\nV:\r\nf:\r\nF:\r\nt:\r\nT:\r\ni:\r\nI:\r\nm:\r\nM:\r\nl:\r\nL:\r\n\r\n",
        &[
            (Kind::Via, b"v", b""),
            (Kind::Via, b"V", b""),
            (Kind::From, b"f", b""),
            (Kind::From, b"F", b""),
            (Kind::To, b"t", b""),
            (Kind::To, b"T", b""),
            (Kind::CallId, b"i", b""),
            (Kind::CallId, b"I", b""),
            (Kind::Contact, b"m", b""),
            (Kind::Contact, b"M", b""),
            (Kind::ContentLength, b"l", b""),
            (Kind::ContentLength, b"L", b""),
        ],
        b"",
    );
    reads(
        &rt,
        b"SIP/2.0 200\r\nvia:\r\ncall-id:\r\ncseq:\r\nMAX-FORWARDS:\r\nroute:\r\nRecord-route:\r\ncontact:\r\ncontent-LENGTH:\r\nc:\r\nK:\r\ns:\r\nE:\r\n\r\n",
        &[
            (Kind::Via, b"via", b""),
            (Kind::CallId, b"call-id", b""),
            (Kind::CSeq, b"cseq", b""),
            (Kind::MaxForwards, b"MAX-FORWARDS", b""),
            (Kind::Route, b"route", b""),
            (Kind::RecordRoute, b"Record-route", b""),
            (Kind::Contact, b"contact", b""),
            (Kind::ContentLength, b"content-LENGTH", b""),
            (Kind::Other, b"c", b""),
            (Kind::Other, b"K", b""),
            (Kind::Other, b"s", b""),
            (Kind::Other, b"E", b""),
        ],
        b"",
    );
}

#[test]
fn faults(rt: HostRuntime) {
    refuses(&rt, b"", ScanFault::NotSip);
    refuses(&rt, b"\r\n\r\n", ScanFault::NotSip);
    refuses(&rt, b"OPTIONS sip:a@b SIP/2.0", ScanFault::NotSip);
    refuses(&rt, b"GET / HTTP/1.1\r\n\r\n", ScanFault::NotSip);
    refuses(&rt, b"OPTIONS sip:a@b SIP/2.0 x\r\n\r\n", ScanFault::NotSip);
    refuses(&rt, b"SIP/2.0 200 OK\r\n", ScanFault::BadHeader);
    refuses(&rt, b"SIP/2.0 200 OK\r\nA: b\r\n", ScanFault::BadHeader);
    refuses(
        &rt,
        b"SIP/2.0 200 OK\r\n A: b\r\n\r\n",
        ScanFault::BadHeader,
    );
    refuses(
        &rt,
        b"SIP/2.0 200 OK\r\n\tA: b\r\n\r\n",
        ScanFault::BadHeader,
    );
    refuses(
        &rt,
        b"SIP/2.0 200 OK\r\nA: b\rc\r\n\r\n",
        ScanFault::BadHeader,
    );
    refuses(
        &rt,
        b"SIP/2.0 200 OK\r\nA: b\r\r\n\r\n",
        ScanFault::BadHeader,
    );
    refuses(
        &rt,
        b"SIP/2.0 200 OK\r\nA: b\nc\r\n\r\n",
        ScanFault::BadHeader,
    );
    refuses(
        &rt,
        b"SIP/2.0 200 OK\r\nA: b\x00c\r\n\r\n",
        ScanFault::BadHeader,
    );
    refuses(&rt, b"SIP/2.0 200 O\nK\r\n\r\n", ScanFault::BadHeader);
    refuses(&rt, b"SIP/2.0 200 OK\r\nA\r\n\r\n", ScanFault::BadHeader);
    refuses(&rt, b"SIP/2.0 200 OK\r\n: b\r\n\r\n", ScanFault::BadHeader);
    refuses(
        &rt,
        b"SIP/2.0 200 OK\r\nA@: b\r\n\r\n",
        ScanFault::BadHeader,
    );
}

const START: &[u8; 13] = b"SIP/2.0 200\r\n";

const FIELD: &[u8; 4] = b"A:\r\n";

/// The fault of a head whose fields are this many lines `A:`, and then `last`.
fn fault_of(count: usize, last: &[u8]) -> Option<ScanFault>
    requires few { count ≤ 130 }
    requires short { length last.now ≤ 8 }
{
    let mut text = [b'\n'; 600];
    text[..13].copy_from_slice(START);
    for field in 0..count {
        text[13 + 4 * field..17 + 4 * field].copy_from_slice(FIELD);
    }
    let end = 13 + 4 * count;
    text[end..end + last.len()].copy_from_slice(last);
    scan(&text[..end + last.len()]).err()
}

/// 128 fields are read, 129 are too many, and a bad field goes before too many.
#[test]
fn limits(rt: HostRuntime) {
    assert!(rt; fault_of(128, b"\r\n") == None);
    assert!(rt; fault_of(129, b"\r\n") == Some(ScanFault::TooManyHeaders));
    assert!(rt; fault_of(129, b"A\r\n\r\n") == Some(ScanFault::BadHeader));
    assert!(rt; fault_of(130, b"") == Some(ScanFault::BadHeader));
}

#[test]
fn the_start_line_alone(rt: HostRuntime) {
    assert!(rt; start_line(b"\r\nACK sip:a SIP/2.0\r\n bad") == Some(Span { from: 2, to: 19 }));
    assert!(rt; start_line(b"SIP/2.0\r\n") == Some(Span { from: 0, to: 7 }));
    assert!(rt; start_line(b"SIP /2.0\r\n") == None);
}

#[test]
fn compact_names(rt: HostRuntime) {
    assert_eq!(rt; full_name(b"C"), b"Content-Type".as_slice());
    assert_eq!(rt; full_name(b"k"), b"Supported".as_slice());
    assert_eq!(rt; full_name(b"S"), b"Subject".as_slice());
    assert_eq!(rt; full_name(b"e"), b"Content-Encoding".as_slice());
    assert_eq!(rt; full_name(b"x"), b"x".as_slice());
}

/// The example of [`Head`].
#[test]
fn a_head_is_told_by_spans(rt: HostRuntime) {
    let mut room = Head::new();
    let b = b"OPTIONS sip:a@h SIP/2.0\r\nv: SIP/2.0/UDP h\r\n\r\n";
    assert!(rt; scan_into(b, &mut room).is_ok());
    assert_eq!(rt; room.start, Span { from: 0, to: 23 });
    for field in room.fields.as_slice() {
        assert_eq!(rt; field.kind, Kind::Via);
        assert_eq!(rt; field.value, Span { from: 27, to: 41 });
    }
    assert_eq!(rt; room.fields.len(), 1);
    assert_eq!(rt; room.body, 45);
}
