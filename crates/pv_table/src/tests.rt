//! What variables read and what assignments make, worked out by hand from the rules.

use crate::{Avps, BlockKind, Facts, FinalTimers, read_pv, write_pv};
use outside_ports::Addr;
use pv_values::{Key, PvUse, Text, Val};
use sip_msg::Message;
use std::alloc::{AllocError, Global};
use std::process::Abort;
use std::test::Fail;

/// A value by a word: `null`, a number, or a text behind a `'`.
fn value(alloc: Global, word: &str) -> Result<Val, AllocError> {
    if let Some(text) = word.strip_prefix('\'') {
        Ok(Val::Text(Text::from_slice(alloc, text.as_bytes())?))
    } else if let Ok(n) = word.parse::<i64>() {
        Ok(Val::Int(n))
    } else {
        Ok(Val::Null)
    }
}

fn is_value(a: &Val, b: &Val) -> bool {
    match (a, b) {
        (Val::Null, Val::Null) => true,
        (Val::Int(x), Val::Int(y)) => x == y,
        (Val::Text(s), Val::Text(t)) => s.is_same(t),
        _ => false,
    }
}

/// A variable by its name; `hdr` and `avp` with a name behind a blank.
fn variable(alloc: Global, word: &str) -> Result<PvUse, AllocError> {
    if let Some(name) = word.strip_prefix("hdr ") {
        return Ok(PvUse::Header(Text::from_slice(alloc, name.as_bytes())?));
    }
    if let Some(name) = word.strip_prefix("avp ") {
        return Ok(PvUse::Avp(Text::from_slice(alloc, name.as_bytes())?));
    }
    Ok(match word.as_bytes() {
        b"ru" => PvUse::RequestUri,
        b"rU" => PvUse::RequestUser,
        b"rd" => PvUse::RequestHost,
        b"rp" => PvUse::RequestPort,
        b"du" => PvUse::DestinationUri,
        b"fu" => PvUse::FromUri,
        b"fU" => PvUse::FromUser,
        b"fd" => PvUse::FromHost,
        b"ft" => PvUse::FromTag,
        b"tu" => PvUse::ToUri,
        b"tU" => PvUse::ToUser,
        b"td" => PvUse::ToHost,
        b"tt" => PvUse::ToTag,
        b"ci" => PvUse::CallId,
        b"cs" => PvUse::CseqNumber,
        b"rm" => PvUse::CseqMethod,
        b"si" => PvUse::SourceAddress,
        b"sp" => PvUse::SourcePort,
        b"rs" => PvUse::ReplyCode,
        b"rr" => PvUse::ReplyReason,
        b"ua" => PvUse::UserAgent,
        b"index" => PvUse::IdIndex,
        b"label" => PvUse::IdLabel,
        b"sht" => PvUse::Item(0, Key::of(Text::from_slice(alloc, b"k")?)),
        b"myself" => PvUse::Myself,
        _ => PvUse::Null,
    })
}

/// The facts of a run that has decided nothing, over a message from 192.0.2.9, port 5065.
fn facts(alloc: Global, kind: BlockKind, uri: &str) -> Result<Facts, AllocError> {
    let source = Addr {
        ip: 3_221_225_993,
        port: 5065,
    };
    let timers = FinalTimers {
        invite: 120_000,
        other: 30_000,
    };
    let uri = Text::from_slice(alloc, uri.as_bytes())?;
    Ok(Facts::new(alloc, kind, source, uri, timers))
}

/// The variable reads this value in the message with these facts.
fn reads(
    rt: &impl Abort,
    alloc: Global,
    b: &[u8],
    facts: &Facts,
    name: &str,
    wanted: &str,
) -> Result<(), AllocError> {
    match Message::read(b) {
        Ok(m) => {
            let found = read_pv(alloc, b, &m, facts, &variable(alloc, name)?)?;
            assert!(rt;
                is_value(&found, &value(alloc, wanted)?),
                "{name}: {found:?}"
            );
        }
        Err(fault) => assert!(rt; false, "{fault:?}"),
    }
    Ok(())
}

const REQUEST: &[u8] =
    b"INVITE sip:x@y SIP/2.0\r\nVia: SIP/2.0/UDP 192.0.2.1:5062;branch=z9hG4bK1\r\nFrom: \"A\" <sip:bob:pw@b.example:5070>;tag=f1\r\nTo: <sips:192.0.2.7>\r\nCall-ID: c1@b\r\nCSeq: 42 INVITE\r\ns:  one\r\n two \r\nSubject: second\r\nUser-Agent: ua/1\r\nUser-Agent: ua/2\r\n\r\n";

/// From has a URI of another scheme; there are compact names, and a User-Agent without a text.
const REPLY: &[u8] =
    b"SIP/2.0 486 Busy Here\r\nv: SIP/2.0/UDP h;branch=z9hG4bK2\r\nf: <tel:+1>;tag=f1\r\nt: <sip:carl@c.example>;tag=t1\r\ni: c2\r\nCSeq: 7 BYE\r\nuser-agent: \r\n\r\n";

const WITHOUT_REASON: &[u8] =
    b"SIP/2.0 200\r\nv: SIP/2.0/UDP h;branch=z9hG4bK2\r\nf: <sip:a>\r\nt: <sip:b>\r\ni: c2\r\nCSeq: 7 BYE\r\n\r\n";

const EMPTY_REASON: &[u8] =
    b"SIP/2.0 200 \r\nv: SIP/2.0/UDP h;branch=z9hG4bK2\r\nf: <sip:a>\r\nt: <sip:b>\r\ni: c2\r\nCSeq: 7 BYE\r\n\r\n";

const OF_REQUEST: [(&str, &str); 37] = [
    ("ru", "'sip:anna@example.com"),
    ("rU", "'anna"),
    ("rd", "'example.com"),
    ("rp", "5060"),
    ("du", "null"),
    ("fu", "'sip:bob:pw@b.example:5070"),
    ("fU", "'bob"),
    ("fd", "'b.example"),
    ("ft", "'f1"),
    ("tu", "'sips:192.0.2.7"),
    ("tU", "null"),
    ("td", "'192.0.2.7"),
    ("tt", "null"),
    ("ci", "'c1@b"),
    ("cs", "42"),
    ("rm", "'INVITE"),
    ("si", "'192.0.2.9"),
    ("sp", "5065"),
    ("rs", "null"),
    ("rr", "null"),
    ("ua", "'ua/1"),
    ("hdr Subject", "'one\r\n two"),
    ("hdr s", "'one\r\n two"),
    ("hdr SUBJECT", "'one\r\n two"),
    ("hdr i", "'c1@b"),
    ("hdr call-id", "'c1@b"),
    ("hdr CSeq", "'42 INVITE"),
    ("hdr To", "'<sips:192.0.2.7>"),
    ("hdr User-Agent", "'ua/1"),
    ("hdr User", "null"),
    ("hdr Route", "null"),
    ("avp a", "null"),
    ("index", "null"),
    ("label", "null"),
    ("sht", "null"),
    ("myself", "null"),
    ("null", "null"),
];

const OF_REPLY: [(&str, &str); 25] = [
    ("ru", "null"),
    ("rU", "null"),
    ("rd", "null"),
    ("rp", "null"),
    ("du", "null"),
    ("fu", "'tel:+1"),
    ("fU", "null"),
    ("fd", "null"),
    ("ft", "'f1"),
    ("tu", "'sip:carl@c.example"),
    ("tU", "'carl"),
    ("td", "'c.example"),
    ("tt", "'t1"),
    ("ci", "'c2"),
    ("cs", "7"),
    ("rm", "'BYE"),
    ("si", "'192.0.2.9"),
    ("sp", "5065"),
    ("rs", "486"),
    ("rr", "'Busy Here"),
    ("ua", "'"),
    ("hdr From", "'<tel:+1>;tag=f1"),
    ("hdr f", "'<tel:+1>;tag=f1"),
    ("hdr Subject", "null"),
    ("avp a", "null"),
];

/// A target URI with its user, host and port.
const TARGETS: [(&str, &str, &str, &str); 11] = [
    (
        "SIP:anna:pw@example.com:5071;lr?x=y",
        "'anna",
        "'example.com",
        "5071",
    ),
    ("sips:anna@example.com", "'anna", "'example.com", "5060"),
    ("sip:example.com", "null", "'example.com", "5060"),
    ("sip:192.0.2.5:5080", "null", "'192.0.2.5", "5080"),
    ("sip:anna@192.0.2.5;a=b", "'anna", "'192.0.2.5", "5060"),
    // The name of a parameter is a token, so it has no `@`.
    ("sip:anna@192.0.2.5;a@b", "null", "null", "null"),
    ("sip:@example.com", "null", "null", "null"),
    ("sip:anna@", "null", "null", "null"),
    ("sip:", "null", "null", "null"),
    ("tel:+15", "null", "null", "null"),
    ("anna", "null", "null", "null"),
];

const OF_TARGETS: [BlockKind; 3] = [BlockKind::Request, BlockKind::Branch, BlockKind::Failure];

#[test]
fn variables_read_the_message_and_the_facts(rt: HostRuntime) -> Result<(), Fail> {
    let alloc = rt.alloc();
    for kind in OF_TARGETS {
        let mut of_run = facts(alloc, kind, "sip:anna@example.com")?;
        for (name, wanted) in &OF_REQUEST {
            reads(&rt, alloc, REQUEST, &of_run, name, wanted)?;
        }
        of_run.destination = Some(Text::from_slice(alloc, b"sip:d")?);
        reads(&rt, alloc, REQUEST, &of_run, "du", "'sip:d")?;
        for (uri, user, host, port) in &TARGETS {
            of_run.uri = Text::from_slice(alloc, uri.as_bytes())?;
            reads(&rt, alloc, REQUEST, &of_run, "rU", user)?;
            reads(&rt, alloc, REQUEST, &of_run, "rd", host)?;
            reads(&rt, alloc, REQUEST, &of_run, "rp", port)?;
        }
    }
    let mut of_run = facts(alloc, BlockKind::Reply, "sip:anna@example.com")?;
    for (name, wanted) in &OF_REPLY {
        reads(&rt, alloc, REPLY, &of_run, name, wanted)?;
    }
    reads(&rt, alloc, WITHOUT_REASON, &of_run, "rs", "200")?;
    reads(&rt, alloc, WITHOUT_REASON, &of_run, "rr", "null")?;
    reads(&rt, alloc, WITHOUT_REASON, &of_run, "ft", "null")?;
    reads(&rt, alloc, EMPTY_REASON, &of_run, "rr", "'")?;
    of_run.destination = Some(Text::from_slice(alloc, b"sip:d")?);
    reads(&rt, alloc, REPLY, &of_run, "du", "'sip:d")?;
    of_run.slot = 9;
    of_run.label = Some(3);
    reads(&rt, alloc, REPLY, &of_run, "index", "9")?;
    reads(&rt, alloc, REPLY, &of_run, "label", "3")?;
    Ok(())
}

/// What an assignment makes of a target URI: the URI, the variable, the value, the URI afterwards.
const ASSIGNED: [(&str, &str, &str, &str); 20] = [
    ("sip:a@h", "ru", "'tel:5", "tel:5"),
    ("tel:5", "ru", "'sip:a@h;x", "sip:a@h;x"),
    ("sip:a:pw@h:1", "rU", "'bob", "sip:bob:pw@h:1"),
    ("sip:h;lr", "rU", "'bob", "sip:bob@h;lr"),
    ("sip:h", "rU", "5", "sip:5@h"),
    ("sip:a:pw@h:5070;lr?x=y", "rU", "null", "sip:h:5070;lr?x=y"),
    ("sip:h", "rU", "null", "sip:h"),
    (
        "SIP:a@h:5070;lr",
        "rd",
        "'o.example",
        "SIP:a@o.example:5070;lr",
    ),
    ("sip:h", "rd", "'192.0.2.5", "sip:192.0.2.5"),
    ("sip:a@h;lr", "rp", "5080", "sip:a@h:5080;lr"),
    ("sip:a@h:5070", "rp", "1", "sip:a@h:1"),
    ("sip:a@h?x=y", "rp", "65535", "sip:a@h:65535?x=y"),
    ("sip:h", "rp", "'05080", "sip:h:5080"),
    ("sip:a@h", "rU", "'%41", "sip:%41@h"),
    ("sip:a@h:5070", "rd", "'h", "sip:a@h:5070"),
    ("sip:a@h;x=1", "rU", "'b", "sip:b@h;x=1"),
    ("sip:a@h", "ru", "'x:y", "x:y"),
    ("sip:a:@h", "rU", "'b", "sip:b:@h"),
    ("sip:a:pw@h", "rd", "'i", "sip:a:pw@i"),
    ("sip:a:pw@h", "rp", "7", "sip:a:pw@h:7"),
];

/// Assignments that do nothing.
const NOTHING: [(&str, &str, &str); 26] = [
    ("sip:a@h", "ru", "null"),
    ("sip:a@h", "ru", "5"),
    ("sip:a@h", "ru", "'bob"),
    ("sip:a@h", "ru", "'sip:"),
    ("sip:a@h", "ru", "'1:x"),
    ("sip:a@h", "rU", "'b:c"),
    ("sip:a@h", "rU", "'b@c"),
    ("sip:a@h", "rU", "'b c"),
    ("sip:a@h", "rU", "'"),
    ("sips:a@h", "rU", "'b"),
    ("sips:a@h", "rU", "null"),
    ("tel:5", "rU", "'b"),
    ("sip:a@", "rU", "'b"),
    ("sip:a@h", "rd", "null"),
    ("sip:a@h", "rd", "'"),
    ("sip:a@h", "rd", "'i:5080"),
    ("sip:a@h", "rd", "'i;lr"),
    ("sip:a@h", "rd", "'b@i"),
    ("sips:a@h", "rd", "'i"),
    ("sip:a@h", "rp", "0"),
    ("sip:a@h", "rp", "65536"),
    ("sip:a@h", "rp", "-1"),
    ("sip:a@h", "rp", "'x"),
    ("sip:a@h", "rp", "null"),
    ("sips:a@h", "rp", "5080"),
    ("sip:a@h", "fu", "'sip:b"),
];

/// What the assignment makes of the target URI.
fn becomes(
    rt: &impl Abort,
    alloc: Global,
    kind: BlockKind,
    row: (&str, &str, &str, &str),
) -> Result<(), AllocError> {
    let (uri, name, word, wanted) = row;
    let mut of_run = facts(alloc, kind, uri)?;
    let variable = variable(alloc, name)?;
    write_pv(alloc, &mut of_run, &variable, value(alloc, word)?)?;
    assert!(rt;
        of_run.uri.bytes() == wanted.as_bytes(),
        "{uri} {name} {word}"
    );
    assert!(rt; of_run.destination.is_none());
    assert_eq!(rt; of_run.avps.len(), 0);
    Ok(())
}

/// The value goes to the variable.
fn assign(alloc: Global, facts: &mut Facts, name: &str, word: &str) -> Result<(), AllocError> {
    let variable = variable(alloc, name)?;
    write_pv(alloc, facts, &variable, value(alloc, word)?)
}

/// The rows of the tables in a block that assigns the target and the destination.
fn rows_hold(rt: &impl Abort, alloc: Global, kind: BlockKind) -> Result<(), AllocError> {
    for row in &ASSIGNED {
        becomes(rt, alloc, kind, *row)?;
    }
    for (uri, name, word) in &NOTHING {
        becomes(rt, alloc, kind, (*uri, *name, *word, *uri))?;
    }
    let mut of_run = facts(alloc, kind, "sip:a@h")?;
    for (word, wanted) in [("'sip:d", "'sip:d"), ("5", "'5"), ("null", "null")] {
        assign(alloc, &mut of_run, "du", word)?;
        reads(rt, alloc, REQUEST, &of_run, "du", wanted)?;
    }
    Ok(())
}

/// In a block of another kind they do nothing.
fn rows_do_nothing(rt: &impl Abort, alloc: Global, kind: BlockKind) -> Result<(), AllocError> {
    for (uri, name, word, _) in &ASSIGNED {
        becomes(rt, alloc, kind, (*uri, *name, *word, *uri))?;
    }
    becomes(rt, alloc, kind, ("sip:a@h", "du", "'sip:d", "sip:a@h"))
}

/// The value goes to the variable, which then reads the other word.
fn newest_is(
    rt: &impl Abort,
    alloc: Global,
    facts: &mut Facts,
    row: (&str, &str, &str),
) -> Result<(), AllocError> {
    let (name, word, wanted) = row;
    assign(alloc, facts, name, word)?;
    reads(rt, alloc, REPLY, facts, name, wanted)
}

/// An AVP, a value that goes to it, and what it reads then. The newest value of a name is read; Null takes it away, and
/// then the one before is the newest.
const VALUES: [(&str, &str, &str); 8] = [
    ("avp a", "1", "1"),
    ("avp b", "'x", "'x"),
    ("avp a", "2", "2"),
    ("avp A", "null", "null"),
    ("avp a", "null", "1"),
    ("avp a", "null", "null"),
    ("avp a", "null", "null"),
    ("avp b", "null", "null"),
];

/// With 256 AVPs a further value does nothing, whatever its name.
const FULL: [(&str, &str, &str); 4] = [
    ("avp a", "4", "3"),
    ("avp c", "4", "null"),
    ("avp a", "null", "3"),
    ("avp c", "4", "4"),
];

fn avps_hold(rt: &impl Abort, alloc: Global) -> Result<(), AllocError> {
    let mut of_run = facts(alloc, BlockKind::Reply, "sip:a@h")?;
    for row in &VALUES {
        newest_is(rt, alloc, &mut of_run, *row)?;
    }
    assert!(rt; of_run.avps.is_empty());
    for _ in 0..256 {
        assign(alloc, &mut of_run, "avp a", "3")?;
    }
    assert_eq!(rt; of_run.avps.len(), Avps::LIMIT);
    for row in &FULL {
        newest_is(rt, alloc, &mut of_run, *row)?;
    }
    Ok(())
}

#[test]
fn assignments_do_what_their_rows_say(rt: HostRuntime) -> Result<(), Fail> {
    let alloc = rt.alloc();
    for kind in OF_TARGETS {
        rows_hold(&rt, alloc, kind)?;
    }
    for kind in [BlockKind::Reply, BlockKind::Event] {
        rows_do_nothing(&rt, alloc, kind)?;
    }
    becomes(
        &rt,
        alloc,
        BlockKind::Event,
        ("sip:a@h", "avp a", "1", "sip:a@h"),
    )?;
    avps_hold(&rt, alloc)?;
    Ok(())
}

#[test]
fn a_call_goes_to_the_support_and_remembers_its_caller(rt: HostRuntime) -> Result<(), Fail> {
    let alloc = rt.alloc();
    let mut of_run = facts(alloc, BlockKind::Request, "sip:anna@example.com")?;
    assign(alloc, &mut of_run, "rU", "'support")?;
    assign(alloc, &mut of_run, "du", "'sip:192.0.2.8:5080")?;
    assign(alloc, &mut of_run, "avp caller", "'bob")?;
    reads(
        &rt,
        alloc,
        REQUEST,
        &of_run,
        "ru",
        "'sip:support@example.com",
    )?;
    reads(&rt, alloc, REQUEST, &of_run, "du", "'sip:192.0.2.8:5080")?;
    reads(&rt, alloc, REQUEST, &of_run, "avp caller", "'bob")?;
    Ok(())
}
