//! Texts worked out by hand from the RFCs.
use crate::fields::{field_text, first_field};
use crate::{
    TooLong, ack, append_field, basis_reply, basis_reply_to, cancel, forwarded, relayed_reply,
    reply, reply_to, stateless_ack,
};
use msg_edits::{Edit, Edits};
use outside_ports::Addr;
use sip_msg::{Message, Span, read_basis};
use sip_scan::Kind;
use std::process::Abort;

/// 192.0.2.1 with a port.
fn caller(port: u16) -> Addr {
    Addr {
        ip: 0xc000_0201,
        port,
    }
}

/// 127.0.0.1:5060.
const PROXY: Addr = Addr {
    ip: 0x7f00_0001,
    port: 5060,
};

/// The text stands at the front of the room.
fn wrote(
    rt: &impl Abort,
    shows: &str,
    room: &[u8],
    written: Result<usize, TooLong>,
    want: &'static [u8],
) {
    assert!(rt; written == Ok(want.len()), "{shows}");
    assert!(rt; room.get(..want.len()) == Some(want), "{shows}");
}

/// The reply to `request` from 192.0.2.1 with this source port.
fn responds(
    rt: &impl Abort,
    shows: &str,
    port: u16,
    request: &'static [u8],
    code: u16,
    reason: &'static [u8],
    want: &'static [u8],
) {
    match Message::read(request) {
        Ok(m) => {
            let mut room = [0; 512];
            let result = reply(request, &m, caller(port), code, reason, &mut room);
            wrote(rt, shows, &room, result, want);
        }
        Err(_) => assert!(rt; false, "{shows}"),
    }
}

#[test]
fn replies(rt: HostRuntime) {
    responds(
        &rt,
        "one OPTIONS is answered: rport without a value",
        5062,
        b"OPTIONS sip:a@127.0.0.1 SIP/2.0\r\nVia: SIP/2.0/UDP 192.0.2.1:5062;rport;branch=z9hG4bK1\r\nFrom: <sip:u@example.com>;tag=1\r\nTo: <sip:a@127.0.0.1>\r\nCall-ID: c1\r\nCSeq: 1 OPTIONS\r\nMax-Forwards: 70\r\nContent-Length: 0\r\n\r\n",
        200,
        b"OK",
        b"SIP/2.0 200 OK\r\nVia: SIP/2.0/UDP 192.0.2.1:5062;rport=5062;branch=z9hG4bK1;received=192.0.2.1\r\nFrom: <sip:u@example.com>;tag=1\r\nTo: <sip:a@127.0.0.1>;tag=rt1\r\nCall-ID: c1\r\nCSeq: 1 OPTIONS\r\nContent-Length: 0\r\n\r\n",
    );
    responds(
        &rt,
        "compact names, folds and a second value are kept",
        5070,
        b"OPTIONS sip:a@127.0.0.1 SIP/2.0\r\nv: SIP/2.0/UDP 192.0.2.1:5070;branch=z9hG4bKx,\r\n SIP/2.0/UDP 10.0.0.1;branch=z9hG4bKy\r\nf: \"U\" <sip:u@h>;tag=2\r\nt: sip:a@127.0.0.1\r\ni: c3\r\nCSeq: 7 OPTIONS\r\n\r\n",
        200,
        b"OK",
        b"SIP/2.0 200 OK\r\nv: SIP/2.0/UDP 192.0.2.1:5070;branch=z9hG4bKx,\r\n SIP/2.0/UDP 10.0.0.1;branch=z9hG4bKy\r\nf: \"U\" <sip:u@h>;tag=2\r\nt: sip:a@127.0.0.1;tag=rtx\r\ni: c3\r\nCSeq: 7 OPTIONS\r\nContent-Length: 0\r\n\r\n",
    );
    responds(
        &rt,
        "a stamp stands at the end of the first value, before its comma",
        5070,
        b"OPTIONS sip:a@h SIP/2.0\r\nVia: SIP/2.0/UDP h;rport;branch=z9hG4bKx , SIP/2.0/UDP i\r\nFrom: <sip:u@h>;tag=2\r\nTo: <sip:a@h>\r\nCall-ID: c\r\nCSeq: 7 OPTIONS\r\n\r\n",
        404,
        b"Not Found",
        b"SIP/2.0 404 Not Found\r\nVia: SIP/2.0/UDP h;rport=5070;branch=z9hG4bKx;received=192.0.2.1 , SIP/2.0/UDP i\r\nFrom: <sip:u@h>;tag=2\r\nTo: <sip:a@h>;tag=rtx\r\nCall-ID: c\r\nCSeq: 7 OPTIONS\r\nContent-Length: 0\r\n\r\n",
    );
    responds(
        &rt,
        "only the first Via field is stamped, and To keeps its tag",
        5060,
        b"OPTIONS sip:a@h SIP/2.0\r\nTo: <sip:a@h>;tag=9\r\nVia: SIP/2.0/UDP h;branch=z9hG4bKx\r\nX: y\r\nVia: SIP/2.0/UDP i;rport;received=1.2.3.4\r\nFrom: <sip:u@h>\r\nCall-ID: c\r\nCSeq: 7 OPTIONS\r\n\r\n",
        200,
        b"OK",
        b"SIP/2.0 200 OK\r\nVia: SIP/2.0/UDP h;branch=z9hG4bKx;received=192.0.2.1\r\nVia: SIP/2.0/UDP i;rport;received=1.2.3.4\r\nFrom: <sip:u@h>\r\nTo: <sip:a@h>;tag=9\r\nCall-ID: c\r\nCSeq: 7 OPTIONS\r\nContent-Length: 0\r\n\r\n",
    );
    responds(
        &rt,
        "an old received in the middle is cut",
        5080,
        b"OPTIONS sip:a@h SIP/2.0\r\nVia: SIP/2.0/UDP 192.0.2.1;rport ; received=10.0.0.1;branch=z9hG4bKx\r\nFrom: <sip:u@h>\r\nTo: <sip:a@h>\r\nCall-ID: c\r\nCSeq: 7 OPTIONS\r\n\r\n",
        100,
        b"Trying",
        b"SIP/2.0 100 Trying\r\nVia: SIP/2.0/UDP 192.0.2.1;rport=5080 ;branch=z9hG4bKx;received=192.0.2.1\r\nFrom: <sip:u@h>\r\nTo: <sip:a@h>\r\nCall-ID: c\r\nCSeq: 7 OPTIONS\r\nContent-Length: 0\r\n\r\n",
    );
    responds(
        &rt,
        "an rport with a value asks for nothing, and the host is the source",
        5080,
        b"OPTIONS sip:a@h SIP/2.0\r\nVia: SIP/2.0/UDP 192.0.2.1;rport=7;received=10.0.0.1;branch=z9hG4bKx\r\nFrom: <sip:u@h>\r\nTo: <sip:a@h>\r\nCall-ID: c\r\nCSeq: 7 OPTIONS\r\n\r\n",
        183,
        b"",
        b"SIP/2.0 183 \r\nVia: SIP/2.0/UDP 192.0.2.1;rport=7;branch=z9hG4bKx\r\nFrom: <sip:u@h>\r\nTo: <sip:a@h>;tag=rtx\r\nCall-ID: c\r\nCSeq: 7 OPTIONS\r\nContent-Length: 0\r\n\r\n",
    );
}

/// The reply to a malformed request from 192.0.2.1:5060.
fn responds_by_basis(
    rt: &impl Abort,
    shows: &str,
    request: &'static [u8],
    code: u16,
    reason: &'static [u8],
    want: &'static [u8],
) {
    match read_basis(request) {
        Some(basis) => {
            let mut room = [0; 512];
            let result = basis_reply(request, &basis, caller(5060), code, reason, &mut room);
            wrote(rt, shows, &room, result, want);
        }
        None => assert!(rt; false, "{shows}"),
    }
}

#[test]
fn replies_to_malformed_requests(rt: HostRuntime) {
    responds_by_basis(
        &rt,
        "no branch, and most fields are absent",
        b"INVITE sip:a@h SIP/3.0\r\nVia: SIP/2.0/UDP 192.0.2.1\r\nTo: <sip:a@h>\r\n\r\n",
        505,
        b"Version Not Supported",
        b"SIP/2.0 505 Version Not Supported\r\nVia: SIP/2.0/UDP 192.0.2.1\r\nTo: <sip:a@h>;tag=rt\r\nContent-Length: 0\r\n\r\n",
    );
    responds_by_basis(
        &rt,
        "a branch without the cookie, and the first of two From fields",
        b"INVITE sip:a@h SIP/2.0\r\nf: <sip:1@h>\r\nVia: SIP/2.0/UDP h;branch=abc\r\nFrom: <sip:2@h>\r\nt: <sip:a@h>\r\nCSeq: x\r\n\r\n",
        400,
        b"Bad Request",
        b"SIP/2.0 400 Bad Request\r\nVia: SIP/2.0/UDP h;branch=abc;received=192.0.2.1\r\nf: <sip:1@h>\r\nt: <sip:a@h>;tag=rtabc\r\nCSeq: x\r\nContent-Length: 0\r\n\r\n",
    );
    responds_by_basis(
        &rt,
        "a To with two values doesn't read",
        b"INVITE sip:a@h SIP/2.0\r\nVia: SIP/2.0/UDP 192.0.2.1;branch=z9hG4bK5\r\nTo: <sip:a@h>, <sip:b@h>\r\nCall-ID: 1 2\r\n\r\n",
        400,
        b"Bad Request",
        b"SIP/2.0 400 Bad Request\r\nVia: SIP/2.0/UDP 192.0.2.1;branch=z9hG4bK5\r\nTo: <sip:a@h>, <sip:b@h>\r\nCall-ID: 1 2\r\nContent-Length: 0\r\n\r\n",
    );
}

/// Where the reply to `request` from 192.0.2.1:6000 goes.
fn goes_to(rt: &impl Abort, shows: &str, request: &'static [u8], port: u16) {
    match Message::read(request) {
        Ok(m) => assert!(rt; reply_to(&m, caller(6000)) == caller(port), "{shows}"),
        Err(_) => assert!(rt; false, "{shows}"),
    }
}

#[test]
fn reply_addresses(rt: HostRuntime) {
    goes_to(
        &rt,
        "rport without a value",
        b"OPTIONS sip:a@h SIP/2.0\r\nVia: SIP/2.0/UDP h:7;rport;branch=z9hG4bKx\r\nFrom: <sip:u@h>\r\nTo: <sip:a@h>\r\nCall-ID: c\r\nCSeq: 7 OPTIONS\r\n\r\n",
        6000,
    );
    goes_to(
        &rt,
        "rport with a value",
        b"OPTIONS sip:a@h SIP/2.0\r\nVia: SIP/2.0/UDP h:7;rport=9;branch=z9hG4bKx\r\nFrom: <sip:u@h>\r\nTo: <sip:a@h>\r\nCall-ID: c\r\nCSeq: 7 OPTIONS\r\n\r\n",
        7,
    );
    goes_to(
        &rt,
        "no rport and no port",
        b"OPTIONS sip:a@h SIP/2.0\r\nVia: SIP/2.0/UDP h;branch=z9hG4bKx\r\nFrom: <sip:u@h>\r\nTo: <sip:a@h>\r\nCall-ID: c\r\nCSeq: 7 OPTIONS\r\n\r\n",
        5060,
    );
}

/// Where the response to the malformed `request` from 192.0.2.1:6000 goes.
fn basis_goes_to(rt: &impl Abort, shows: &str, request: &'static [u8], port: u16) {
    match read_basis(request) {
        Some(basis) => assert!(rt;
            basis_reply_to(&basis, caller(6000)) == caller(port),
            "{shows}"
        ),
        None => assert!(rt; false, "{shows}"),
    }
}

#[test]
fn basis_reply_addresses(rt: HostRuntime) {
    basis_goes_to(
        &rt,
        "rport without a value",
        b"OPTIONS sip:a@h SIP/3.0\r\nVia: SIP/2.0/UDP h:7;rport\r\n\r\n",
        6000,
    );
    basis_goes_to(
        &rt,
        "the port of the Via value",
        b"OPTIONS sip:a@h SIP/3.0\r\nVia: SIP/2.0/UDP h:7\r\n\r\n",
        7,
    );
    basis_goes_to(
        &rt,
        "no rport and no port",
        b"OPTIONS sip:a@h SIP/3.0\r\nVia: SIP/2.0/UDP h\r\n\r\n",
        5060,
    );
}

/// An ACK that goes on without a transaction.
#[test]
fn stateless_acks(rt: HostRuntime) {
    let request =
        b"ACK sip:b@192.0.2.9 SIP/2.0\r\nVia: SIP/2.0/UDP 192.0.2.1;branch=z9hG4bK6\r\nMax-Forwards: 70\r\nFrom: <sip:u@192.0.2.1>;tag=f\r\nTo: <sip:b@192.0.2.9>;tag=t\r\nCall-ID: 6\r\nCSeq: 1 ACK\r\nContent-Length: 0\r\n\r\n";
    match Message::read(request) {
        Ok(m) => {
            assert!(rt; m.max_forwards != Some(0));
            let mut room = [0; 512];
            let result = stateless_ack(
                request,
                &m,
                caller(5060),
                &[],
                b"sip:b@192.0.2.9",
                PROXY,
                70,
                &mut room,
            );
            wrote(
                &rt,
                "its branch is that of the request, under another mark",
                &room,
                result,
                b"ACK sip:b@192.0.2.9 SIP/2.0\r\nVia: SIP/2.0/UDP 127.0.0.1:5060;branch=z9hG4bKsl.6\r\nVia: SIP/2.0/UDP 192.0.2.1;branch=z9hG4bK6\r\nMax-Forwards: 69\r\nFrom: <sip:u@192.0.2.1>;tag=f\r\nTo: <sip:b@192.0.2.9>;tag=t\r\nCall-ID: 6\r\nCSeq: 1 ACK\r\nContent-Length: 0\r\n\r\n",
            );
        }
        Err(_) => assert!(rt; false),
    }
}

/// An INVITE of 192.0.2.1:5060.
const INVITE: &[u8] =
    b"INVITE sip:b@192.0.2.9 SIP/2.0\r\nVia: SIP/2.0/UDP 192.0.2.1;branch=z9hG4bK6\r\nMax-Forwards: 70\r\nFrom: <sip:u@192.0.2.1>;tag=f\r\nTo: <sip:b@192.0.2.9>\r\nCall-ID: 6\r\nCSeq: 1 INVITE\r\nContent-Length: 0\r\n\r\n";

/// The request `request` from 192.0.2.1:5060, forwarded with these edits.
fn forwards(
    rt: &impl Abort,
    shows: &str,
    request: &'static [u8],
    edits: &[Edit],
    uri: &'static [u8],
    want: &'static [u8],
) {
    match Message::read(request) {
        Ok(m) => {
            assert!(rt; m.max_forwards != Some(0), "{shows}");
            let mut room = [0; 512];
            let result = forwarded(
                request,
                &m,
                caller(5060),
                edits,
                uri,
                PROXY,
                b"z9hG4bKrs00000000.0.0.0",
                70,
                &mut room,
            );
            wrote(rt, shows, &room, result, want);
        }
        Err(_) => assert!(rt; false, "{shows}"),
    }
}

#[test]
fn forwarded_requests(rt: HostRuntime) {
    forwards(
        &rt,
        "one INVITE goes on",
        INVITE,
        &[],
        b"sip:b@192.0.2.9",
        b"INVITE sip:b@192.0.2.9 SIP/2.0\r\nVia: SIP/2.0/UDP 127.0.0.1:5060;branch=z9hG4bKrs00000000.0.0.0\r\nVia: SIP/2.0/UDP 192.0.2.1;branch=z9hG4bK6\r\nMax-Forwards: 69\r\nFrom: <sip:u@192.0.2.1>;tag=f\r\nTo: <sip:b@192.0.2.9>\r\nCall-ID: 6\r\nCSeq: 1 INVITE\r\nContent-Length: 0\r\n\r\n",
    );
    forwards(
        &rt,
        "Max-Forwards is absent, CR and LF stand in front, a stamp is due, and bytes behind the end are left out",
        b"\r\nMESSAGE sip:b@h SIP/2.0\r\nFrom: <sip:u@h>\r\nVia: SIP/2.0/UDP h;rport;branch=z9hG4bK6\r\nTo: <sip:b@h>\r\nCall-ID: 6\r\nCSeq: 1 MESSAGE\r\nContent-Length: 2\r\n\r\nabcd",
        &[],
        b"sip:c@192.0.2.10;x",
        b"\r\nMESSAGE sip:c@192.0.2.10;x SIP/2.0\r\nFrom: <sip:u@h>\r\nVia: SIP/2.0/UDP 127.0.0.1:5060;branch=z9hG4bKrs00000000.0.0.0\r\nVia: SIP/2.0/UDP h;rport=5060;branch=z9hG4bK6;received=192.0.2.1\r\nTo: <sip:b@h>\r\nCall-ID: 6\r\nCSeq: 1 MESSAGE\r\nContent-Length: 2\r\nMax-Forwards: 70\r\n\r\nab",
    );
    forwards(
        &rt,
        "the digits of Max-Forwards alone are replaced",
        b"MESSAGE sip:b@h SIP/2.0\r\nMax-Forwards :\r\n 010 \r\nVia: SIP/2.0/UDP 192.0.2.1;branch=z9hG4bK6\r\nFrom: <sip:u@h>\r\nTo: <sip:b@h>\r\nCall-ID: 6\r\nCSeq: 1 MESSAGE\r\n\r\n",
        &[],
        b"sip:b@h",
        b"MESSAGE sip:b@h SIP/2.0\r\nMax-Forwards :\r\n 9 \r\nVia: SIP/2.0/UDP 127.0.0.1:5060;branch=z9hG4bKrs00000000.0.0.0\r\nVia: SIP/2.0/UDP 192.0.2.1;branch=z9hG4bK6\r\nFrom: <sip:u@h>\r\nTo: <sip:b@h>\r\nCall-ID: 6\r\nCSeq: 1 MESSAGE\r\n\r\n",
    );
    let mut edits = Edits::new();
    assert!(rt; edits.insert(rt.alloc(), 32, b"A: 1\r\n").is_ok());
    assert!(rt; edits.insert(rt.alloc(), 32, b"B: 2\r\n").is_ok());
    forwards(
        &rt,
        "the edits of the script stand behind the line Via, in their order",
        INVITE,
        edits.as_slice(),
        b"sip:b@192.0.2.9",
        b"INVITE sip:b@192.0.2.9 SIP/2.0\r\nVia: SIP/2.0/UDP 127.0.0.1:5060;branch=z9hG4bKrs00000000.0.0.0\r\nA: 1\r\nB: 2\r\nVia: SIP/2.0/UDP 192.0.2.1;branch=z9hG4bK6\r\nMax-Forwards: 69\r\nFrom: <sip:u@192.0.2.1>;tag=f\r\nTo: <sip:b@192.0.2.9>\r\nCall-ID: 6\r\nCSeq: 1 INVITE\r\nContent-Length: 0\r\n\r\n",
    );
}

const LONG_FRONT: &[u8] =
    b"MESSAGE sip:b@192.0.2.9 SIP/2.0\r\nVia: SIP/2.0/UDP 192.0.2.1;branch=z9hG4bK5\r\nMax-Forwards: 70\r\nFrom: <sip:u@192.0.2.1>;tag=f\r\nTo: <sip:b@192.0.2.9>\r\nCall-ID: 5\r\nCSeq: 1 MESSAGE\r\nX: ";

/// A MESSAGE padded to `len` bytes is forwarded so.
fn long_one(rt: &impl Abort, len: usize, want: Result<usize, TooLong>) {
    let mut text = [b'x'; 8129];
    assert!(rt; LONG_FRONT.len() < 400);
    assert!(rt; len <= 8129 && 800 < len);
    text[..LONG_FRONT.len()].copy_from_slice(LONG_FRONT);
    text[len - 4..len].copy_from_slice(b"\r\n\r\n");
    let request = &text[..len];
    match Message::read(request) {
        Ok(m) => {
            assert!(rt; m.max_forwards != Some(0));
            let mut room = [7; 8192];
            let result = forwarded(
                request,
                &m,
                caller(5060),
                &[],
                b"sip:b@192.0.2.9",
                PROXY,
                b"z9hG4bKrs00000000.0.0.0",
                70,
                &mut room,
            );
            assert!(rt; result == want);
            assert!(rt; result.is_ok() || room.iter().all(|b| *b == 7));
        }
        Err(_) => assert!(rt; false),
    }
}

/// The line Via has 64 bytes, and a text has at most 8,192.
#[test]
fn long_requests(rt: HostRuntime) {
    long_one(&rt, 8128, Ok(8192));
    long_one(&rt, 8129, Err(TooLong { len: 8193 }));
}

/// The response `response`, relayed with these edits.
fn relays(
    rt: &impl Abort,
    shows: &str,
    response: &'static [u8],
    edits: &[Edit],
    want: &'static [u8],
) {
    match Message::read(response) {
        Ok(m) => {
            let mut room = [0; 512];
            let result = relayed_reply(response, &m, edits, &mut room);
            wrote(rt, shows, &room, result, want);
        }
        Err(_) => assert!(rt; false, "{shows}"),
    }
}

#[test]
fn relayed_replies(rt: HostRuntime) {
    relays(
        &rt,
        "the whole field of an only value",
        b"SIP/2.0 200 OK\r\nVia: SIP/2.0/UDP 127.0.0.1:5060;branch=z9hG4bKrs\r\nVia: SIP/2.0/UDP 192.0.2.1;branch=z9hG4bK6\r\nFrom: <sip:u@h>\r\nTo: <sip:b@h>;tag=t\r\nCall-ID: 6\r\nCSeq: 1 INVITE\r\n\r\nbody",
        &[],
        b"SIP/2.0 200 OK\r\nVia: SIP/2.0/UDP 192.0.2.1;branch=z9hG4bK6\r\nFrom: <sip:u@h>\r\nTo: <sip:b@h>;tag=t\r\nCall-ID: 6\r\nCSeq: 1 INVITE\r\n\r\nbody",
    );
    relays(
        &rt,
        "the first of two values, with its comma and the LWS after it",
        b"SIP/2.0 180\r\nv:  SIP/2.0/UDP 127.0.0.1:5060 ,\r\n SIP/2.0/UDP 192.0.2.1\r\nFrom: <sip:u@h>\r\nTo: <sip:b@h>;tag=t\r\nCall-ID: 6\r\nCSeq: 1 INVITE\r\nContent-Length: 0\r\n\r\nbody",
        &[],
        b"SIP/2.0 180\r\nv:  SIP/2.0/UDP 192.0.2.1\r\nFrom: <sip:u@h>\r\nTo: <sip:b@h>;tag=t\r\nCall-ID: 6\r\nCSeq: 1 INVITE\r\nContent-Length: 0\r\n\r\n",
    );
    let mut edits = Edits::new();
    assert!(rt; edits.cut(Span { from: 73, to: 90 }).is_ok());
    relays(
        &rt,
        "a lone Via, and an edit of the script",
        b"SIP/2.0 404 Not Found\r\nVia: SIP/2.0/UDP 127.0.0.1;branch=z9hG4bKrs0;x=1\r\n\
From: <sip:u@h>\r\n\
To: <sip:b@h>;tag=t\r\nCall-ID: 6\r\nCSeq: 1 INVITE\r\n\r\n",
        edits.as_slice(),
        b"SIP/2.0 404 Not Found\r\nTo: <sip:b@h>;tag=t\r\nCall-ID: 6\r\nCSeq: 1 INVITE\r\n\r\n",
    );
}

/// An INVITE that the proxy sent, with two Route fields and a CSeq with leading zeros.
const SENT: &[u8] =
    b"INVITE sip:b@192.0.2.9 SIP/2.0\r\nv: SIP/2.0/UDP 127.0.0.1:5060;branch=z9hG4bKrs0, SIP/2.0/UDP i\r\nVia: SIP/2.0/UDP 192.0.2.1;branch=z9hG4bK6\r\nRoute: <sip:p1;lr>, <sip:p2>\r\nMax-Forwards: 69\r\nCSeq: 0017 INVITE\r\nf: <sip:u@h>;tag=f\r\nroute :\r\n <sip:p3>\r\nTo: <sip:b@h>\r\nCall-ID: 6\r\nContent-Length: 2\r\n\r\nab";

const BUSY: &[u8] =
    b"SIP/2.0 486 Busy Here\r\nVia: SIP/2.0/UDP 127.0.0.1:5060;branch=z9hG4bKrs0\r\nFrom: <sip:u@h>;tag=f\r\nt: <sip:b@h>;tag=t\r\nCall-ID: 6\r\nCSeq: 18 INVITE\r\n\r\n";

#[test]
fn acks_and_cancels(rt: HostRuntime) {
    let (Ok(m), Ok(am)) = (Message::read(SENT), Message::read(BUSY)) else {
        assert!(rt; false);
        return;
    };
    let mut room = [0; 512];
    let result = ack(SENT, &m, BUSY, &am, &mut room);
    wrote(
        &rt,
        "To of the response",
        &room,
        result,
        b"ACK sip:b@192.0.2.9 SIP/2.0\r\nVia: SIP/2.0/UDP 127.0.0.1:5060;branch=z9hG4bKrs0\r\nMax-Forwards: 70\r\nRoute: <sip:p1;lr>, <sip:p2>\r\nroute :\r\n <sip:p3>\r\nf: <sip:u@h>;tag=f\r\nt: <sip:b@h>;tag=t\r\nCall-ID: 6\r\nCSeq: 17 ACK\r\nContent-Length: 0\r\n\r\n",
    );
    let result = cancel(SENT, &m, &mut room);
    wrote(
        &rt,
        "To of the request",
        &room,
        result,
        b"CANCEL sip:b@192.0.2.9 SIP/2.0\r\nVia: SIP/2.0/UDP 127.0.0.1:5060;branch=z9hG4bKrs0\r\nMax-Forwards: 70\r\nRoute: <sip:p1;lr>, <sip:p2>\r\nroute :\r\n <sip:p3>\r\nf: <sip:u@h>;tag=f\r\nTo: <sip:b@h>\r\nCall-ID: 6\r\nCSeq: 17 CANCEL\r\nContent-Length: 0\r\n\r\n",
    );
    let mut small = [7; 235];
    assert!(rt; cancel(SENT, &m, &mut small) == Err(TooLong { len: 236 }));
    assert!(rt; small == [7; 235]);
}

/// A field goes before the first empty line.
fn adds(rt: &impl Abort, shows: &str, text: &'static [u8], want: &'static [u8]) {
    let source = b"X: y\r\nContact: <sip:c>\r\nZ";
    let field = Span { from: 6, to: 24 };
    let mut room = [7; 64];
    assert!(rt; text.len() <= 40 && want.len() <= 64, "{shows}");
    room[..text.len()].copy_from_slice(text);
    let result = append_field(&mut room, text.len(), source, field);
    wrote(rt, shows, &room, result, want);
}

#[test]
fn added_fields(rt: HostRuntime) {
    adds(
        &rt,
        "before the empty line",
        b"A b\r\nC: d\r\n\r\nbody\r\n\r\n",
        b"A b\r\nC: d\r\nContact: <sip:c>\r\n\r\nbody\r\n\r\n",
    );
    adds(
        &rt,
        "CR and LF in front are no empty line",
        b"\r\n\r\nA b\r\n\r\n",
        b"\r\n\r\nA b\r\nContact: <sip:c>\r\n\r\n",
    );
    adds(
        &rt,
        "no empty line, so nothing is added",
        b"A b\r\nC: d\r\n",
        b"A b\r\nC: d\r\n",
    );
    let mut room = *b"A\r\n\r\n..";
    let field = b"B:\r\n";
    let whole = Span { from: 0, to: 4 };
    let result = append_field(&mut room, 5, field, whole);
    assert!(rt; result == Err(TooLong { len: 9 }));
    assert!(rt; &room == b"A\r\n\r\n..");
}

/// The first field of this kind in the message `text`, or no byte where it has none.
#[tactic(auto, using(crate::proofs::Readings::fields_lie))]
fn finds(rt: &impl Abort, text: &'static [u8], kind: Kind, want: &'static [u8]) {
    match Message::read(text) {
        Ok(m) => {
            assert!(rt; field_text(text, &m.head.fields, kind) == want);
            let found = first_field(text, &m.head.fields, kind);
            assert!(rt; found.is_none() == want.is_empty());
            assert!(rt; found.is_none_or(|field| field.kind == kind));
        }
        Err(_) => assert!(rt; false),
    }
}

const ALL_KINDS: &[u8] =
    b"INVITE sip:b@h SIP/2.0\r\nX: 1\r\nm: <sip:c1>\r\nVia: SIP/2.0/UDP h;branch=z9hG4bK1\r\nRecord-Route: <sip:r1;lr>\r\nroute: <sip:p1;lr>\r\nContact: <sip:c2>\r\nRoute: <sip:p2>\r\nMax-Forwards: 7\r\nf: <sip:u@h>;tag=f\r\nTo: <sip:b@h>\r\nCall-ID: k\r\nCSeq: 1 INVITE\r\nRecord-Route: <sip:r2>\r\nl: 0\r\n\r\n";

#[test]
fn fields_of_each_kind(rt: HostRuntime) {
    let rows: [(Kind, &'static [u8]); 11] = [
        (Kind::Via, b"Via: SIP/2.0/UDP h;branch=z9hG4bK1\r\n"),
        (Kind::From, b"f: <sip:u@h>;tag=f\r\n"),
        (Kind::To, b"To: <sip:b@h>\r\n"),
        (Kind::CallId, b"Call-ID: k\r\n"),
        (Kind::CSeq, b"CSeq: 1 INVITE\r\n"),
        (Kind::MaxForwards, b"Max-Forwards: 7\r\n"),
        (Kind::Route, b"route: <sip:p1;lr>\r\n"),
        (Kind::RecordRoute, b"Record-Route: <sip:r1;lr>\r\n"),
        (Kind::Contact, b"m: <sip:c1>\r\n"),
        (Kind::ContentLength, b"l: 0\r\n"),
        (Kind::Other, b"X: 1\r\n"),
    ];
    for (kind, want) in rows {
        finds(&rt, ALL_KINDS, kind, want);
    }
    finds(&rt, BUSY, Kind::Route, b"");
    finds(&rt, BUSY, Kind::Contact, b"");
}
