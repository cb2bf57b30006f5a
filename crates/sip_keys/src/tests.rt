//! Keys and branches worked out by hand.
use crate::{Branch, branch_of, branch_text, invite_key, key_of};
use sip_msg::Message;
use std::process::Abort;

/// The request's key, and that of its INVITE, are this branch, host, port and method.
fn has_key(
    rt: &impl Abort,
    request: &'static [u8],
    branch: &'static [u8],
    host: &'static [u8],
    port: u16,
    method: &'static [u8],
) {
    match Message::read(request) {
        Ok(m) => {
            let key = key_of(request, &m);
            assert!(rt; key.branch == branch);
            assert!(rt; key.host == host);
            assert_eq!(rt; key.port, port);
            assert!(rt; key.method == method);
            let invite = invite_key(request, &m);
            assert!(rt; invite.branch == branch);
            assert!(rt; invite.host == host);
            assert_eq!(rt; invite.port, port);
            assert!(rt; invite.method == b"INVITE".as_slice());
        }
        Err(_) => assert!(rt; false),
    }
}

#[test]
fn keys_are_of_the_top_via(rt: HostRuntime) {
    has_key(
        &rt,
        b"OPTIONS sip:b@h SIP/2.0\r\nVia: SIP/2.0/UDP 192.0.2.1:5062;rport;branch=z9hG4bK1\r\nFrom: <sip:a@h>;tag=1\r\nTo: <sip:b@h>\r\nCall-ID: m\r\nCSeq: 1 OPTIONS\r\n\r\n",
        b"z9hG4bK1",
        b"192.0.2.1",
        5062,
        b"OPTIONS",
    );
    // Without a port it is 5060. The host is as it is written, and the second value doesn't count.
    has_key(
        &rt,
        b"ACK sip:b@h SIP/2.0\r\nv: SIP/2.0/UDP Pc33.Atlanta.COM ; branch=z9hG4bKx ,SIP/2.0/UDP 10.0.0.1:7;branch=z9hG4bKy\r\nf: <sip:a@h>;tag=1\r\nt: <sip:b@h>\r\ni: m\r\nCSeq: 1 ACK\r\n\r\n",
        b"z9hG4bKx",
        b"Pc33.Atlanta.COM",
        5060,
        b"ACK",
    );
    has_key(
        &rt,
        b"CANCEL sip:b@h SIP/2.0\r\nVia: SIP/2.0/UDP h:1;branch=z9hG4bK\r\nVia: SIP/2.0/UDP i;branch=z9hG4bKz\r\nFrom: <sip:a@h>;tag=1\r\nTo: <sip:b@h>\r\nCall-ID: m\r\nCSeq: 1 CANCEL\r\n\r\n",
        b"z9hG4bK",
        b"h",
        1,
        b"CANCEL",
    );
}

#[test]
fn branches_have_texts(rt: HostRuntime) {
    let cases: [(u32, u32, u64, u8, &[u8]); 5] = [
        (0, 0, 0, 0, b"z9hG4bKrs00000000.0.0.0"),
        (0, 1, 2, 11, b"z9hG4bKrs00000000.1.2.11"),
        (0xab_cdef, 16_383, 10, 9, b"z9hG4bKrs00abcdef.16383.10.9"),
        (0x1020_3040, 7, 0, 10, b"z9hG4bKrs10203040.7.0.10"),
        (
            u32::MAX,
            u32::MAX,
            u64::MAX,
            11,
            b"z9hG4bKrsffffffff.4294967295.18446744073709551615.11",
        ),
    ];
    for (epoch, slot, generation, b, text) in cases {
        let branch = Branch {
            slot,
            generation,
            b,
        };
        let mut room = [b'x'; 66];
        let len = branch_text(epoch, branch, &mut room);
        assert_eq!(rt; len, text.len());
        assert!(rt; room.get(..len) == Some(text));
        assert!(rt; room.iter().skip(len).all(|byte| *byte == b'x'));
        assert!(rt; branch_of(epoch, text) == Some(branch));
        assert!(rt; branch_of(epoch ^ 1, text).is_none());
    }
}

#[test]
fn other_texts_are_of_no_branch(rt: HostRuntime) {
    let texts: [&[u8]; 16] = [
        b"",
        b"z9hG4bK",
        b"z9hG4bKrs00000000.0.0",
        b"z9hG4bKrs00000000.00.0.0",
        b"z9hG4bKrs00000000.0.01.0",
        b"z9hG4bKrs00000000.0.0.00",
        b"z9hG4bKrs00000000.0.0.12",
        b"z9hG4bKrs00000000.+1.0.0",
        b"z9hG4bKrs00000000.4294967296.0.0",
        b"z9hG4bKrs00000000.0.18446744073709551616.0",
        b"z9hG4bKrs00000000.0.0.0.",
        b"z9hG4bKrs00000000.0..0",
        b"Z9hG4bKrs00000000.0.0.0",
        b"z9hG4bKrs0000000.0.0.0",
        b"z9hG4bKrs00000000.0.0.0 ",
        b"z9hG4bKsl.6a",
    ];
    for text in texts {
        assert!(rt; branch_of(0, text).is_none());
    }
    assert!(rt; branch_of(0xa, b"z9hG4bKrs0000000A.0.0.0").is_none());
}
