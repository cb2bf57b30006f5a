//! Each law at one message that was worked out by hand, and texts that don't read.
use msg_edits::{Edits, TooLong};
use outside_ports::Addr;
use sip_build::{ack, append_field, cancel, forwarded, relayed_reply, reply, stateless_ack};
use sip_msg::{Message, MsgFault, Span, Start};
use std::process::Abort;

/// 192.0.2.1:5060.
const CALLER: Addr = Addr {
    ip: 0xc000_0201,
    port: 5060,
};

/// 127.0.0.1:5060.
const PROXY: Addr = Addr {
    ip: 0x7f00_0001,
    port: 5060,
};

/// An INVITE that the proxy sent, with two Via values in one field, and folds.
const SENT: &[u8] =
    b"INVITE sip:b@192.0.2.9 SIP/2.0\r\nv:\r\n SIP/2.0/UDP 127.0.0.1:5060\r\n ;branch=z9hG4bKrs0, SIP/2.0/UDP i\r\nRoute: <sip:p1;lr>, <sip:p2>\r\nMax-Forwards: 69\r\nCSeq: 0017 INVITE\r\nf: <sip:u@h>;tag=f\r\nroute :\r\n <sip:p3>\r\nTo: <sip:b@h>\r\nCall-ID: 6\r\nContent-Length: 2\r\n\r\nab";

const BUSY: &[u8] =
    b"SIP/2.0 486 Busy Here\r\nVia: SIP/2.0/UDP 127.0.0.1:5060;branch=z9hG4bKrs0\r\nFrom: <sip:u@h>;tag=f\r\nVia: SIP/2.0/UDP i;branch=z9hG4bK1\r\nt: <sip:b@h>;tag=t\r\nCall-ID: 6\r\nCSeq: 17 INVITE\r\n\r\n";

/// A response whose top Via value has two others behind it in its field.
const LISTED: &[u8] =
    b"SIP/2.0 180 Ringing\r\nf: <sip:u@h>;tag=f\r\nv :\r\n SIP/2.0/UDP 127.0.0.1:5060;branch=z9hG4bKrs0 ,\r\n SIP/2.0/UDP i;branch=z9hG4bK2, SIP/2.0/UDP j\r\nt: <sip:b@h>;tag=t\r\nCall-ID: 6\r\nCSeq: 17 INVITE\r\n\r\n";

/// A response with one Via value.
const LAST: &[u8] =
    b"SIP/2.0 180 Ringing\r\nVia: SIP/2.0/UDP 127.0.0.1:5060;branch=z9hG4bKrs0\r\nf: <sip:u@h>;tag=f\r\nt: <sip:b@h>;tag=t\r\nCall-ID: 6\r\nCSeq: 17 INVITE\r\n\r\n";

/// An ACK without Max-Forwards.
const ACKED: &[u8] =
    b"ACK sip:b@h SIP/2.0\r\nv: SIP/2.0/UDP k;rport;branch=z9hG4bK9\r\nf: <sip:u@h>;tag=f\r\nt: <sip:b@h>;tag=t\r\nCall-ID: 6\r\nCSeq: 17 ACK\r\n\r\n";

const CHALLENGE: &[u8] = b"WWW-Authenticate:\r\n Digest realm=\"h\"\r\n";

/// What stands at a span.
fn stands(room: &[u8], at: Span, want: &[u8]) -> bool {
    room.get(at.from..at.to) == Some(want)
}

/// The text at the front of the room reads, with this top branch, CSeq number and CSeq method.
fn reads(
    rt: &impl Abort,
    shows: &str,
    room: &[u8; 1024],
    written: Result<usize, TooLong>,
    branch: &[u8],
    number: u32,
    method: &[u8],
) {
    let Some(text) = written.ok().and_then(|len| room.get(..len)) else {
        assert!(rt; false, "{shows}");
        return;
    };
    match Message::read(text) {
        Ok(w) => {
            assert!(rt; w.cseq.number == number, "{shows}");
            assert!(rt; stands(text, w.cseq.method, method), "{shows}");
            match w.via.branch {
                Some(at) => assert!(rt; stands(text, at, branch), "{shows}"),
                None => assert!(rt; false, "{shows}"),
            }
        }
        Err(_) => assert!(rt; false, "{shows}"),
    }
}

#[test]
fn what_is_sent_reads(rt: HostRuntime) {
    let (Ok(m), Ok(rm)) = (Message::read(SENT), Message::read(BUSY)) else {
        assert!(rt; false);
        return;
    };
    let mut room = [0; 1024];
    let result = ack(SENT, &m, BUSY, &rm, &mut room);
    reads(&rt, "an ACK", &room, result, b"z9hG4bKrs0", 17, b"ACK");
    let result = cancel(SENT, &m, &mut room);
    reads(&rt, "a CANCEL", &room, result, b"z9hG4bKrs0", 17, b"CANCEL");
    let result = reply(SENT, &m, CALLER, 486, b"Busy Here", &mut room);
    reads(
        &rt,
        "a response",
        &room,
        result,
        b"z9hG4bKrs0",
        17,
        b"INVITE",
    );
    let result = relayed_reply(BUSY, &rm, &[], &mut room);
    reads(
        &rt,
        "a relayed response",
        &room,
        result,
        b"z9hG4bK1",
        17,
        b"INVITE",
    );
    let written = reply(SENT, &m, CALLER, 401, b"Unauthorized", &mut room);
    let Ok(len) = written else {
        assert!(rt; false);
        return;
    };
    assert!(rt; len <= room.len());
    let result = append_field(
        &mut room,
        len,
        CHALLENGE,
        Span {
            from: 0,
            to: CHALLENGE.len(),
        },
    );
    reads(
        &rt,
        "a response with a challenge",
        &room,
        result,
        b"z9hG4bKrs0",
        17,
        b"INVITE",
    );
    let Ok(lm) = Message::read(LISTED) else {
        assert!(rt; false);
        return;
    };
    let result = relayed_reply(LISTED, &lm, &[], &mut room);
    reads(
        &rt,
        "a relayed response whose top Via value has others behind it",
        &room,
        result,
        b"z9hG4bK2",
        17,
        b"INVITE",
    );
}

/// The text at the front of the room reads, with this URI and Max-Forwards.
fn goes_to(
    rt: &impl Abort,
    shows: &str,
    room: &[u8; 1024],
    written: Result<usize, TooLong>,
    want: &[u8],
    hops: u8,
) {
    let Some(text) = written.ok().and_then(|len| room.get(..len)) else {
        assert!(rt; false, "{shows}");
        return;
    };
    match Message::read(text) {
        Ok(w) => {
            assert!(rt; w.max_forwards == Some(hops), "{shows}");
            match w.start {
                Start::Request { uri, .. } => assert!(rt; stands(text, uri, want), "{shows}"),
                Start::Status { .. } => assert!(rt; false, "{shows}"),
            }
        }
        Err(_) => assert!(rt; false, "{shows}"),
    }
}

#[test]
fn what_is_forwarded_reads(rt: HostRuntime) {
    let (Ok(m), Ok(am)) = (Message::read(SENT), Message::read(ACKED)) else {
        assert!(rt; false);
        return;
    };
    assert!(rt; m.max_forwards == Some(69));
    assert!(rt; am.max_forwards == None);
    let mut room = [0; 1024];
    let result = forwarded(
        SENT,
        &m,
        CALLER,
        &[],
        b"sip:c@h;x=1",
        PROXY,
        b"z9hG4bK2",
        70,
        &mut room,
    );
    goes_to(&rt, "a request", &room, result, b"sip:c@h;x=1", 68);
    reads(&rt, "a request", &room, result, b"z9hG4bK2", 17, b"INVITE");
    let mut edits = Edits::new();
    let routes = Span { from: 101, to: 131 };
    assert!(rt; stands(SENT, routes, b"Route: <sip:p1;lr>, <sip:p2>\r\n"));
    assert!(rt; edits.cut(routes).is_ok());
    let result = forwarded(
        SENT,
        &m,
        CALLER,
        edits.as_slice(),
        b"sip:c@h",
        PROXY,
        b"z9hG4bK3",
        70,
        &mut room,
    );
    goes_to(&rt, "an edited request", &room, result, b"sip:c@h", 68);
    reads(
        &rt,
        "an edited request",
        &room,
        result,
        b"z9hG4bK3",
        17,
        b"INVITE",
    );
    let result = stateless_ack(ACKED, &am, CALLER, &[], b"sip:c@h", PROXY, 70, &mut room);
    goes_to(&rt, "an ACK", &room, result, b"sip:c@h", 70);
    reads(&rt, "an ACK", &room, result, b"z9hG4bKsl.9", 17, b"ACK");
}

/// The text at the front of the room has this fault.
fn has_fault(
    rt: &impl Abort,
    shows: &str,
    room: &[u8; 1024],
    written: Result<usize, TooLong>,
    want: MsgFault,
) {
    match written.ok().and_then(|len| room.get(..len)) {
        Some(text) => match Message::read(text) {
            Ok(_) => assert!(rt; false, "{shows}"),
            Err(fault) => assert!(rt; fault == want, "{shows}"),
        },
        None => assert!(rt; false, "{shows}"),
    }
}

/// A request of 128 fields.
const FULL: &[u8] =
    b"OPTIONS sip:b@h SIP/2.0\r\nVia: SIP/2.0/UDP h;branch=z9hG4bK1\r\nMax-Forwards: 70\r\nFrom: <sip:u@h>\r\nTo: <sip:b@h>\r\nCall-ID: 6\r\nCSeq: 1 OPTIONS\r\nX:\r\nX:\r\nX:\r\nX:\r\nX:\r\nX:\r\nX:\r\nX:\r\nX:\r\nX:\r\nX:\r\nX:\r\nX:\r\nX:\r\nX:\r\nX:\r\nX:\r\nX:\r\nX:\r\nX:\r\nX:\r\nX:\r\nX:\r\nX:\r\nX:\r\nX:\r\nX:\r\nX:\r\nX:\r\nX:\r\nX:\r\nX:\r\nX:\r\nX:\r\nX:\r\nX:\r\nX:\r\nX:\r\nX:\r\nX:\r\nX:\r\nX:\r\nX:\r\nX:\r\nX:\r\nX:\r\nX:\r\nX:\r\nX:\r\nX:\r\nX:\r\nX:\r\nX:\r\nX:\r\nX:\r\nX:\r\nX:\r\nX:\r\nX:\r\nX:\r\nX:\r\nX:\r\nX:\r\nX:\r\nX:\r\nX:\r\nX:\r\nX:\r\nX:\r\nX:\r\nX:\r\nX:\r\nX:\r\nX:\r\nX:\r\nX:\r\nX:\r\nX:\r\nX:\r\nX:\r\nX:\r\nX:\r\nX:\r\nX:\r\nX:\r\nX:\r\nX:\r\nX:\r\nX:\r\nX:\r\nX:\r\nX:\r\nX:\r\nX:\r\nX:\r\nX:\r\nX:\r\nX:\r\nX:\r\nX:\r\nX:\r\nX:\r\nX:\r\nX:\r\nX:\r\nX:\r\nX:\r\nX:\r\nX:\r\nX:\r\nX:\r\nX:\r\nX:\r\nX:\r\nX:\r\nX:\r\nX:\r\nX:\r\nX:\r\nX:\r\nX:\r\nX:\r\n\r\n";

/// What `forwarded` wrote as it was asked; the text is no message.
#[test]
fn forwarded_texts_that_are_no_messages(rt: HostRuntime) {
    let Ok(m) = Message::read(FULL) else {
        assert!(rt; false);
        return;
    };
    assert!(rt; m.max_forwards == Some(70));
    let mut room = [0; 1024];
    let result = forwarded(
        FULL,
        &m,
        CALLER,
        &[],
        b"sip:b@h",
        PROXY,
        b"z9hG4bK2",
        70,
        &mut room,
    );
    has_fault(&rt, "129 fields", &room, result, MsgFault::TooManyHeaders);
    let result = forwarded(
        FULL,
        &m,
        CALLER,
        &[],
        b"sip:b@h x",
        PROXY,
        b"z9hG4bK2",
        70,
        &mut room,
    );
    has_fault(
        &rt,
        "a URI with a blank",
        &room,
        result,
        MsgFault::BadStartLine,
    );
}

/// What `reply` and `relayed_reply` wrote as they were asked; the text is no message.
#[test]
fn replies_that_are_no_messages(rt: HostRuntime) {
    let (Ok(m), Ok(lm)) = (Message::read(FULL), Message::read(LAST)) else {
        assert!(rt; false);
        return;
    };
    let mut room = [0; 1024];
    let result = reply(FULL, &m, CALLER, 200, b"OK\r\nno field", &mut room);
    has_fault(
        &rt,
        "a line end in a reason",
        &room,
        result,
        MsgFault::BadHeader,
    );
    let result = relayed_reply(LAST, &lm, &[], &mut room);
    has_fault(
        &rt,
        "a response without a second Via value",
        &room,
        result,
        MsgFault::Missing,
    );
}

/// What `append_field` wrote as it was asked; the text is no message.
#[test]
fn texts_with_a_field_more_that_are_no_messages(rt: HostRuntime) {
    let Ok(m) = Message::read(FULL) else {
        assert!(rt; false);
        return;
    };
    let mut full = [0; 1024];
    full[..FULL.len()].copy_from_slice(FULL);
    let whole = Span {
        from: 0,
        to: CHALLENGE.len(),
    };
    let result = append_field(&mut full, FULL.len(), CHALLENGE, whole);
    has_fault(
        &rt,
        "129 fields, a challenge among them",
        &full,
        result,
        MsgFault::TooManyHeaders,
    );
    let mut room = [0; 1024];
    let Ok(len) = reply(FULL, &m, CALLER, 200, b"OK", &mut room) else {
        assert!(rt; false);
        return;
    };
    assert!(rt; len <= room.len());
    let whole = Span { from: 0, to: 12 };
    let result = append_field(&mut room, len, b"Call-ID: 7\r\n", whole);
    has_fault(
        &rt,
        "a field given twice",
        &room,
        result,
        MsgFault::Repeated,
    );
}
