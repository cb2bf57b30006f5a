//! Values of fields, worked out by hand.
ghost use Rattle.std.specs.Prelude.{◌≡◌, length};

use crate::{Host, Rport, Scheme, Span, read_cseq, read_name_addr, read_route, read_uri, read_via};

/// The bytes of a span, or a `?` where it lies outside.
fn part(text: &[u8], span: Span) -> &[u8] {
    text.get(span.from..span.to).unwrap_or(b"?")
}

fn part_if(text: &[u8], span: Option<Span>) -> Option<&[u8]> {
    Some(part(text, span?))
}

/// What stands from a place on.
fn rest_if(text: &[u8], place: Option<usize>) -> Option<&[u8]> {
    text.get(place?..)
}

fn whole(text: &[u8]) -> Span
    ensures { (result.from ≡ 0) × (result.to ≡ length text.now) }
{
    Span {
        from: 0,
        to: text.len(),
    }
}

fn rport_text(text: &[u8], rport: Rport) -> Option<&[u8]> {
    match rport {
        Rport::Absent => None,
        Rport::Empty(word) => Some(part(text, word)),
        Rport::Given(value) => Some(part(text, value)),
    }
}

/// A value of Via, and its parts.
#[derive(Clone, Copy)]
struct ViaRow<'a> {
    text: &'a [u8],
    host: Host,
    host_at: &'a [u8],
    port: Option<u16>,
    branch: Option<&'a [u8]>,
    rport: Option<&'a [u8]>,
    received: Option<&'a [u8]>,
    whole: &'a [u8],
    next: Option<&'a [u8]>,
}

#[test]
fn via_values_are_read(rt: HostRuntime) {
    let rows = [
        ViaRow {
            text: b"SIP/2.0/UDP 192.0.2.1:5062;rport;branch=z9hG4bK1",
            host: Host::V4(0xc000_0201),
            host_at: b"192.0.2.1",
            port: Some(5062),
            branch: Some(b"z9hG4bK1"),
            rport: Some(b"rport"),
            received: None,
            whole: b"SIP/2.0/UDP 192.0.2.1:5062;rport;branch=z9hG4bK1",
            next: None,
        },
        ViaRow {
            text: b" SIP/2.0/UDP 192.0.2.7:5070;branch=z9hG4bKx,\r\n SIP/2.0/UDP 10.0.0.1;branch=z9hG4bKy",
            host: Host::V4(0xc000_0207),
            host_at: b"192.0.2.7",
            port: Some(5070),
            branch: Some(b"z9hG4bKx"),
            rport: None,
            received: None,
            whole: b"SIP/2.0/UDP 192.0.2.7:5070;branch=z9hG4bKx",
            next: Some(b"SIP/2.0/UDP 10.0.0.1;branch=z9hG4bKy"),
        },
        ViaRow {
            text: b"sip / 2.0\t/ TLS\r\n pc_33.example.com : 00001 ;\r\n\treceived=1.2.3.4 ;RPORT=9 ; branch=a;branch=b \r\n ",
            host: Host::Name,
            host_at: b"pc_33.example.com",
            port: Some(1),
            branch: Some(b"a"),
            rport: Some(b"9"),
            received: Some(b";\r\n\treceived=1.2.3.4"),
            whole: b"sip / 2.0\t/ TLS\r\n pc_33.example.com : 00001 ;\r\n\treceived=1.2.3.4 ;RPORT=9 ; branch=a;branch=b",
            next: None,
        },
        ViaRow {
            text: b"SIP/2.0/UDP 1.2.3.256:65535;received;received=1.1.1.1;x=\"a,b;\\\"c\" , ",
            host: Host::Name,
            host_at: b"1.2.3.256",
            port: Some(65535),
            branch: None,
            rport: None,
            received: None,
            whole: b"SIP/2.0/UDP 1.2.3.256:65535;received;received=1.1.1.1;x=\"a,b;\\\"c\"",
            next: Some(b""),
        },
    ];
    for row in rows {
        let text = row.text;
        let Ok(via) = read_via(text, whole(text)) else {
            assert!(rt; false, "{text:?} is refused");
            return;
        };
        assert_eq!(rt; via.host, row.host);
        assert_eq!(rt; part(text, via.host_at), row.host_at);
        assert_eq!(rt; via.port, row.port);
        assert_eq!(rt; part_if(text, via.branch), row.branch);
        assert_eq!(rt; rport_text(text, via.rport), row.rport);
        assert_eq!(rt; part_if(text, via.received), row.received);
        assert_eq!(rt; part(text, via.whole), row.whole);
        assert_eq!(rt; rest_if(text, via.next), row.next);
    }
}

#[test]
fn via_values_are_refused(rt: HostRuntime) {
    let rows: [&[u8]; 16] = [
        b"",
        b" \r\n\t",
        b"SIP/3.0/UDP h",
        b"SIP/2.0/UDPh",
        b"SIP/2.0/UDP",
        b"SIP/2.0/UDP ;branch=a",
        b"SIP/2.0/UDP [::1]",
        b"SIP/2.0/UDP h x",
        b"SIP/2.0/UDP h:0",
        b"SIP/2.0/UDP h:65536",
        b"SIP/2.0/UDP h:000001",
        b"SIP/2.0/UDP h;branch",
        b"SIP/2.0/UDP h;branch=\"a\"",
        b"SIP/2.0/UDP h;rport=",
        b"SIP/2.0/UDP h;branch= a",
        b"SIP/2.0/UDP h;x=\"a",
    ];
    for text in rows {
        assert!(rt; read_via(text, whole(text)).is_err(), "{text:?} is read");
    }
}

/// A value of From, To or Route, and its parts.
#[derive(Clone, Copy)]
struct AddrRow<'a> {
    text: &'a [u8],
    uri: &'a [u8],
    tag: Option<&'a [u8]>,
    whole: &'a [u8],
    next: Option<&'a [u8]>,
}

fn addr<'a>(text: &'a [u8], uri: &'a [u8], tag: Option<&'a [u8]>) -> AddrRow<'a> {
    AddrRow {
        text,
        uri,
        tag,
        whole: text,
        next: None,
    }
}

#[test]
fn values_of_from_and_to_are_read(rt: HostRuntime) {
    let rows = [
        addr(
            b"<sip:u@example.com>;tag=1",
            b"sip:u@example.com",
            Some(b"1"),
        ),
        addr(b"\"U\" <sip:u@h>;tag=2", b"sip:u@h", Some(b"2")),
        addr(b"sip:a@127.0.0.1", b"sip:a@127.0.0.1", None),
        addr(b"<sip:a@127.0.0.1>", b"sip:a@127.0.0.1", None),
        addr(b"Bob Smith\r\n <sip:b@h> ; tag=3", b"sip:b@h", Some(b"3")),
        addr(b"Bob<sip:b@h>", b"sip:b@h", None),
        addr(b"sip:a@h;tag=1;TAG=2", b"sip:a@h", Some(b"1")),
        addr(b"sip:a@h;tag;tag=2", b"sip:a@h", None),
        addr(b"sip:h?x=y;Tag=4", b"sip:h?x=y", Some(b"4")),
        addr(b"<sip:@h;lr>", b"sip:@h;lr", None),
        addr(b"tel:+1", b"tel:+1", None),
        AddrRow {
            text: b"\t\"A, \\\"B\\\";<x>\" <sip:u@h;a=b>;tag=\"q;,\\\"\" ,\r\n z",
            uri: b"sip:u@h;a=b",
            tag: Some(b"\"q;,\\\"\""),
            whole: b"\"A, \\\"B\\\";<x>\" <sip:u@h;a=b>;tag=\"q;,\\\"\"",
            next: Some(b"z"),
        },
        AddrRow {
            text: b"sip:a@h , ",
            uri: b"sip:a@h",
            tag: None,
            whole: b"sip:a@h",
            next: Some(b""),
        },
    ];
    for row in rows {
        let text = row.text;
        let Ok(value) = read_name_addr(text, whole(text)) else {
            assert!(rt; false, "{text:?} is refused");
            return;
        };
        assert_eq!(rt; part(text, value.uri), row.uri);
        assert_eq!(rt; part_if(text, value.tag), row.tag);
        assert_eq!(rt; part(text, value.whole), row.whole);
        assert_eq!(rt; rest_if(text, value.next), row.next);
    }
}

#[test]
fn values_of_from_and_to_are_refused(rt: HostRuntime) {
    let rows: [&[u8]; 14] = [
        b"",
        b" ",
        b";tag=1",
        b"a@h",
        b"<a@h>",
        b"1sip:a@h",
        b"tel:",
        b"<tel:>",
        b"<sip:a@h",
        b"<sip:a@h> x",
        b"Bob sip:a@h",
        b"Bob, Smith <sip:a@h>",
        b"\"Bob <sip:a@h>",
        b"<sip:a@h>;tag=",
    ];
    for text in rows {
        assert!(rt;
            read_name_addr(text, whole(text)).is_err(),
            "{text:?} is read"
        );
    }
}

#[test]
fn values_of_route_are_read(rt: HostRuntime) {
    let rows = [
        addr(b"<sip:127.0.0.1:5060;lr>", b"sip:127.0.0.1:5060;lr", None),
        addr(
            b"<sip:u:p@h:5060;lr?x=y>;a=b",
            b"sip:u:p@h:5060;lr?x=y",
            None,
        ),
        addr(b"<tel:1>", b"tel:1", None),
        AddrRow {
            text: b" <sip:p1;lr>, \"X\" <sips:p2>",
            uri: b"sip:p1;lr",
            tag: None,
            whole: b"<sip:p1;lr>",
            next: Some(b"\"X\" <sips:p2>"),
        },
    ];
    for row in rows {
        let text = row.text;
        let Ok(value) = read_route(text, whole(text)) else {
            assert!(rt; false, "{text:?} is refused");
            return;
        };
        assert_eq!(rt; part(text, value.uri), row.uri);
        assert_eq!(rt; part_if(text, value.tag), row.tag);
        assert_eq!(rt; part(text, value.whole), row.whole);
        assert_eq!(rt; rest_if(text, value.next), row.next);
    }
    let refused: [&[u8]; 6] = [
        b" ",
        b"sip:p1;lr",
        b"<sip:@h>",
        b"<sip:h:0>",
        b"<sip:a b@h>",
        b"<sip:p1;lr>\r\n",
    ];
    for text in refused {
        assert!(rt; read_route(text, whole(text)).is_err(), "{text:?} is read");
    }
}

#[test]
fn values_of_cseq_are_read(rt: HostRuntime) {
    let rows: [(&[u8], u32, &[u8]); 5] = [
        (b"1 OPTIONS", 1, b"OPTIONS"),
        (b" 0007\r\n INVITE ", 7, b"INVITE"),
        (b"0 !", 0, b"!"),
        (b"2147483647 A", 2147483647, b"A"),
        (b"0000000001 A", 1, b"A"),
    ];
    for (text, number, method) in rows {
        let Ok(cseq) = read_cseq(text, whole(text)) else {
            assert!(rt; false, "{text:?} is refused");
            return;
        };
        assert_eq!(rt; cseq.number, number);
        assert_eq!(rt; part(text, cseq.method), method);
    }
    let refused: [&[u8]; 10] = [
        b"",
        b" ",
        b"1",
        b"OPTIONS",
        b"1OPTIONS",
        b"-1 A",
        b"1 A B",
        b"1 (A",
        b"2147483648 A",
        b"00000000001 A",
    ];
    for text in refused {
        assert!(rt; read_cseq(text, whole(text)).is_err(), "{text:?} is read");
    }
}

/// A URI, and its parts.
#[derive(Clone, Copy)]
struct UriRow<'a> {
    text: &'a [u8],
    scheme: Scheme,
    user: Option<&'a [u8]>,
    host: Host,
    host_at: &'a [u8],
    port: Option<u16>,
    lr: bool,
}

fn named<'a>(
    text: &'a [u8],
    scheme: Scheme,
    user: Option<&'a [u8]>,
    host_at: &'a [u8],
    port: Option<u16>,
    lr: bool,
) -> UriRow<'a> {
    UriRow {
        text,
        scheme,
        user,
        host: Host::Name,
        host_at,
        port,
        lr,
    }
}

#[test]
fn uris_are_read(rt: HostRuntime) {
    let rows = [
        UriRow {
            text: b"sip:b@192.0.2.9",
            scheme: Scheme::Sip,
            user: Some(b"b"),
            host: Host::V4(0xc000_0209),
            host_at: b"192.0.2.9",
            port: None,
            lr: false,
        },
        named(b"sip:h", Scheme::Sip, None, b"h", None, false),
        named(
            b"sip:u:p@h:5060;lr?x=y",
            Scheme::Sip,
            Some(b"u"),
            b"h",
            Some(5060),
            true,
        ),
        named(b"sip:u:@h", Scheme::Sip, Some(b"u"), b"h", None, false),
        named(
            b"SIPS:h_1.x-y:65535;a;LR=on",
            Scheme::Sips,
            None,
            b"h_1.x-y",
            Some(65535),
            true,
        ),
        named(b"sip:h;x=a?lr;lr", Scheme::Sip, None, b"h", None, false),
        named(b"sip:h;x=\"?;\";lr", Scheme::Sip, None, b"h", None, true),
        named(
            b"sip:h?a@b:1",
            Scheme::Sip,
            Some(b"h?a"),
            b"b",
            Some(1),
            false,
        ),
        named(b"tel:+1", Scheme::Other, None, b"", None, false),
        named(b"sipx:@", Scheme::Other, None, b"", None, false),
    ];
    for row in rows {
        let text = row.text;
        let Ok(uri) = read_uri(text, whole(text)) else {
            assert!(rt; false, "{text:?} is refused");
            return;
        };
        assert_eq!(rt; uri.scheme, row.scheme);
        assert_eq!(rt; part_if(text, uri.user), row.user);
        assert_eq!(rt; uri.host, row.host);
        assert_eq!(rt; part(text, uri.host_at), row.host_at);
        assert_eq!(rt; uri.port, row.port);
        assert_eq!(rt; uri.lr, row.lr);
    }
}

#[test]
fn uris_are_refused(rt: HostRuntime) {
    let rows: [&[u8]; 17] = [
        b"",
        b"h",
        b":h",
        b"1:h",
        b"tel:",
        b"sip:",
        b"sips:;lr",
        b"sip:@h",
        b"sip::p@h",
        b"sip:u@",
        b"sip:u@v@h",
        b"sip:a b@h",
        b"sip:h:0",
        b"sip:h:65536",
        b"sip:h :1",
        b"sip:h;",
        b"sip:h ;lr",
    ];
    for text in rows {
        assert!(rt; read_uri(text, whole(text)).is_err(), "{text:?} is read");
    }
}

#[test]
fn spans_are_places_in_the_datagram(rt: HostRuntime) {
    let datagram = b"CSeq: 3 ACK\r\nVia: SIP/2.0/UDP h\r\n\r\n";
    let via = read_via(datagram, Span { from: 17, to: 31 });
    assert_eq!(rt; via.map(|via| via.host_at), Ok(Span { from: 30, to: 31 }));
    let cseq = read_cseq(datagram, Span { from: 5, to: 11 });
    assert_eq!(rt; cseq.map(|cseq| cseq.method), Ok(Span { from: 8, to: 11 }));
}
