//! Scenarios that read, malformed lines, and each item of a trace. Expected texts are worked out by hand.

use crate::{
    Cause, Scenario, ScenarioFault, push_drop, push_end, push_fail, push_log, push_out,
    read_scenario,
};
use outside_ports::Addr;
use std::alloc::{AllocError, Global};
use std::test::Fail;

/// The address 192.0.2.1:5060.
const CALLER: Addr = Addr {
    ip: 0xc000_0201,
    port: 5060,
};

/// The address 203.0.113.7:65535.
const OTHER: Addr = Addr {
    ip: 0xcb00_7107,
    port: 65_535,
};

/// The example of the crate: each datagram of a scenario is dropped.
fn dropped(alloc: Global, text: &[u8]) -> Result<Vec<u8>, Fail> {
    let mut trace = Vec::new(alloc);
    if let Ok(scenario) = read_scenario(alloc, text) {
        for arrival in scenario.arrivals.iter() {
            push_drop(alloc, &mut trace, arrival.at, Cause::NotSip)?;
        }
        push_end(alloc, &mut trace, scenario.end, 0)?;
    }
    Ok(trace)
}

#[test]
fn a_scenario_is_read_and_its_trace_written(rt: HostRuntime) -> Result<(), Fail> {
    let text = b"in 5 192.0.2.1:5060\n|hello\n+0d0A\nend 7\n";
    let trace = dropped(rt.alloc(), text)?;
    assert!(rt; trace.as_slice() == b"drop 5 not_sip\nend 7 live 0\n".as_slice());
    Ok(())
}

/// A text, and what it says.
#[derive(Clone, Copy)]
struct Case<'a> {
    shows: &'a str,
    text: &'a [u8],
    hosts: &'a [(&'a [u8], Addr)],
    arrivals: &'a [(u64, Addr, &'a [u8])],
    end: u64,
}

fn has_hosts(scenario: &Scenario, hosts: &[(&[u8], Addr)]) -> bool {
    let found = scenario.hosts.as_slice();
    if found.len() != hosts.len() {
        return false;
    }
    for place in 0..hosts.len() {
        let (name, address) = hosts[place];
        if found[place].name.bytes() != name || found[place].address != address {
            return false;
        }
    }
    true
}

fn has_arrivals(scenario: &Scenario, arrivals: &[(u64, Addr, &[u8])]) -> bool {
    let found = scenario.arrivals.as_slice();
    if found.len() != arrivals.len() {
        return false;
    }
    for place in 0..arrivals.len() {
        let (at, from, bytes) = arrivals[place];
        let arrival = &found[place];
        if arrival.at != at || arrival.from != from || arrival.bytes.as_slice() != bytes {
            return false;
        }
    }
    true
}

/// Whether the text is read, and says this.
fn says(alloc: Global, case: &Case<'_>) -> bool {
    match read_scenario(alloc, case.text) {
        Ok(scenario) => {
            has_hosts(&scenario, case.hosts)
                && has_arrivals(&scenario, case.arrivals)
                && scenario.end == case.end
        }
        Err(_) => false,
    }
}

#[test]
fn scenarios_say_what_their_lines_say(rt: HostRuntime) {
    let cases = [
        Case {
            shows: "the end alone",
            text: b"end 0\n",
            hosts: &[],
            arrivals: &[],
            end: 0,
        },
        Case {
            shows: "lines that are skipped, anywhere",
            text: b"\n# first\n\nend 86400000\n#\n\n# last\n",
            hosts: &[],
            arrivals: &[],
            end: 86_400_000,
        },
        Case {
            shows: "datagrams at one moment, one of them empty",
            text: b"in 5 192.0.2.1:5060\n|a b\n\n|\nin 5 203.0.113.7:65535\nend 5\n",
            hosts: &[],
            arrivals: &[(5, CALLER, b"a b\r\n\r\n"), (5, OTHER, b"")],
            end: 5,
        },
        Case {
            shows: "hexadecimal in either case, none at all, and text between",
            text: b"in 0 192.0.2.1:5060\n+0aFf\n+\n|x\n+6B\nend 1\n",
            hosts: &[],
            arrivals: &[(0, CALLER, b"\x0a\xffx\r\nk")],
            end: 1,
        },
        Case {
            shows: "bytes of a text are any but LF",
            text: b"in 0 192.0.2.1:5060\n||+#\x00\r\xc3\nend 0\n",
            hosts: &[],
            arrivals: &[(0, CALLER, b"|+#\x00\r\xc3\r\n")],
            end: 0,
        },
        Case {
            shows: "hosts in order, one of them twice, one nearly four numbers",
            text: b"host pbx.example.com 192.0.2.1:5060\n#\nhost a-B_9. 203.0.113.7:65535\nhost pbx.example.com 203.0.113.7:65535\nhost 1.2.3.256 192.0.2.1:5060\nin 1 192.0.2.1:5060\nend 1\n",
            hosts: &[
                (b"pbx.example.com", CALLER),
                (b"a-B_9.", OTHER),
                (b"pbx.example.com", OTHER),
                (b"1.2.3.256", CALLER),
            ],
            arrivals: &[(1, CALLER, b"")],
            end: 1,
        },
    ];
    for case in &cases {
        assert!(rt; says(rt.alloc(), case), "{}", case.shows);
    }
}

/// Whether this line of the text is the first malformed one.
fn is_wrong_at(alloc: Global, text: &[u8], number: u64) -> bool {
    match read_scenario(alloc, text) {
        Ok(_) => false,
        Err(fault) => fault == ScenarioFault::Line(number),
    }
}

/// Texts of a scenario, each with the number of its first malformed line.
const WRONG: [(&str, &[u8], u64); 51] = [
    ("no line", b"", 1),
    ("no end", b"#\n\n", 3),
    ("no LF after the last line", b"end 0", 1),
    ("an unknown word", b"\ngo\nend 0\n", 2),
    ("a word in capitals", b"END 0\n", 1),
    ("a blank before the line", b" end 0\n", 1),
    ("CR before LF", b"end 0\r\n", 1),
    ("no moment of the end", b"end\n", 1),
    ("an empty moment of the end", b"end \n", 1),
    ("a word after the end", b"end 0 0\n", 1),
    ("a leading zero", b"end 00\n", 1),
    ("a sign", b"end +1\n", 1),
    (
        "no number of 64 bits",
        b"in 18446744073709551616 1.2.3.4:5\nend 0\n",
        1,
    ),
    ("an end after a day", b"end 86400001\n", 1),
    (
        "an arrival after a day",
        b"in 86400001 1.2.3.4:5\nend 86400001\n",
        2,
    ),
    (
        "an arrival at the last moment",
        b"in 18446744073709551615 1.2.3.4:5\nend 86400000\n",
        2,
    ),
    ("an end before an arrival", b"in 2 1.2.3.4:5\nend 1\n", 2),
    (
        "a moment that falls",
        b"in 2 1.2.3.4:5\nin 1 1.2.3.4:5\nend 2\n",
        2,
    ),
    ("two blanks", b"in  1 1.2.3.4:5\nend 1\n", 1),
    ("a blank after the address", b"in 1 1.2.3.4:5 \nend 1\n", 1),
    ("no address", b"in 1\nend 1\n", 1),
    ("port 0", b"in 0 1.2.3.4:0\nend 0\n", 1),
    ("port 65536", b"in 0 1.2.3.4:65536\nend 0\n", 1),
    ("no port", b"in 0 1.2.3.4\nend 0\n", 1),
    ("an octet of 256", b"in 0 1.2.3.256:5\nend 0\n", 1),
    (
        "an octet with a leading zero",
        b"in 0 1.2.03.4:5\nend 0\n",
        1,
    ),
    ("text before a datagram", b"|x\nend 0\n", 1),
    ("hexadecimal before a datagram", b"+00\nend 0\n", 1),
    ("no bytes before a datagram", b"+\nend 0\n", 1),
    ("text after the end", b"in 0 1.2.3.4:5\nend 0\n|x\n", 3),
    (
        "hexadecimal after the end",
        b"in 0 1.2.3.4:5\nend 0\n+\n",
        3,
    ),
    ("a datagram after the end", b"end 0\nin 0 1.2.3.4:5\n", 2),
    ("a second end", b"end 0\n\n#\nend 0\n", 4),
    ("an odd digit", b"in 0 1.2.3.4:5\n+0\nend 0\n", 2),
    ("three digits", b"in 0 1.2.3.4:5\n+0d0\nend 0\n", 2),
    ("no digit", b"in 0 1.2.3.4:5\n+0g\nend 0\n", 2),
    (
        "a blank among the digits",
        b"in 0 1.2.3.4:5\n+0d 0a\nend 0\n",
        2,
    ),
    (
        "a host after a datagram",
        b"in 0 1.2.3.4:5\nhost a 1.2.3.4:5\nend 0\n",
        2,
    ),
    ("a host after the end", b"end 0\nhost a 1.2.3.4:5\n", 2),
    ("a host without a name", b"host  1.2.3.4:5\nend 0\n", 1),
    ("a host without an address", b"host a\nend 0\n", 1),
    (
        "a host with a byte of no name",
        b"host a/b 1.2.3.4:5\nend 0\n",
        1,
    ),
    (
        "a host that is four numbers",
        b"host 10.0.0.1 1.2.3.4:5\nend 0\n",
        1,
    ),
    (
        "four numbers with leading zeros",
        b"host 010.0.0.001 1.2.3.4:5\nend 0\n",
        1,
    ),
    ("a host of two names", b"host a b 1.2.3.4:5\nend 0\n", 1),
    ("a host with port 0", b"host a 1.2.3.4:0\nend 0\n", 1),
    (
        "a word that begins as host does",
        b"hosts a 1.2.3.4:5\nend 0\n",
        1,
    ),
    ("the number of slots", b"slots 4\nend 0\n", 1),
    ("the number of blocks", b"blocks 4\nend 0\n", 1),
    ("a send that fails", b"failsend 1\nend 0\n", 1),
    ("a receive that fails", b"failrecv 1\nend 0\n", 1),
];

#[test]
fn the_first_malformed_line_is_told(rt: HostRuntime) {
    for (shows, text, number) in WRONG {
        assert!(rt; is_wrong_at(rt.alloc(), text, number), "{}", shows);
    }
}

/// A datagram of so many bytes, by its digits; then these lines, and the end.
fn long(alloc: Global, bytes: usize, lines: &[u8]) -> Result<Vec<u8>, AllocError> {
    let mut text = Vec::from_slice(alloc, b"in 0 192.0.2.1:5060\n+")?;
    for _ in 0..bytes {
        text.extend_from_slice(b"61")?;
    }
    text.push(b'\n')?;
    text.extend_from_slice(lines)?;
    text.extend_from_slice(b"end 0\n")?;
    Ok(text)
}

#[test]
fn datagrams_round_the_longest(rt: HostRuntime) -> Result<(), Fail> {
    let cases: [(&str, usize, &[u8], Option<u64>); 6] = [
        ("the longest", 65_507, b"", None),
        ("the longest, and no byte more", 65_507, b"+\n", None),
        ("the longest by a text", 65_504, b"|x\n", None),
        ("one byte more", 65_508, b"", Some(2)),
        (
            "one byte more in a line of its own",
            65_507,
            b"+00\n",
            Some(3),
        ),
        ("one byte more by a text", 65_505, b"|x\n", Some(3)),
    ];
    for (shows, bytes, lines, wrong) in cases {
        let text = long(rt.alloc(), bytes, lines)?;
        let holds = match (read_scenario(rt.alloc(), text.as_slice()), wrong) {
            (Ok(_), None) => true,
            (Err(fault), Some(number)) => fault == ScenarioFault::Line(number),
            _ => false,
        };
        assert!(rt; holds, "{}", shows);
    }
    Ok(())
}

#[test]
fn datagrams_that_are_sent_are_shown_piece_by_piece(rt: HostRuntime) -> Result<(), Fail> {
    let cases: [(&[u8], &str); 10] = [
        (b"", "out 7 192.0.2.1:5060\n"),
        (b"\r\n", "out 7 192.0.2.1:5060\n|\n"),
        (b"a b\r\n~ \r\n", "out 7 192.0.2.1:5060\n|a b\n|~ \n"),
        (b"a\r\nbc", "out 7 192.0.2.1:5060\n|a\n+6263\n"),
        (b"\xc3\xa9\r\n", "out 7 192.0.2.1:5060\n+c3a90d0a\n"),
        (b"\x7f\r\n", "out 7 192.0.2.1:5060\n+7f0d0a\n"),
        (b"\x1f\r\n", "out 7 192.0.2.1:5060\n+1f0d0a\n"),
        (b"\t\r\nx\r\n", "out 7 192.0.2.1:5060\n+090d0a\n|x\n"),
        (b"\r", "out 7 192.0.2.1:5060\n+0d\n"),
        (b"a\n\r\r\nb", "out 7 192.0.2.1:5060\n+610a0d0d0a\n+62\n"),
    ];
    for (datagram, shown) in cases {
        let mut trace = Vec::new(rt.alloc());
        push_out(rt.alloc(), &mut trace, 7, CALLER, datagram)?;
        assert!(rt; trace.as_slice() == shown.as_bytes(), "{}", shown);
    }
    Ok(())
}

#[test]
fn each_cause_has_its_name(rt: HostRuntime) -> Result<(), Fail> {
    let cases = [
        (Cause::Keepalive, "drop 0 keepalive\n"),
        (Cause::NotSip, "drop 0 not_sip\n"),
        (Cause::BadReply, "drop 0 bad_reply\n"),
        (Cause::StrayReply, "drop 0 stray_reply\n"),
        (Cause::Ended, "drop 0 ended\n"),
        (Cause::ScriptDrop, "drop 0 script_drop\n"),
        (Cause::ScriptSilent, "drop 0 script_silent\n"),
        (Cause::AckUnroutable, "drop 0 ack_unroutable\n"),
        (Cause::TooLong, "drop 0 too_long\n"),
    ];
    for (cause, shown) in cases {
        let mut trace = Vec::new(rt.alloc());
        push_drop(rt.alloc(), &mut trace, 0, cause)?;
        assert!(rt; trace.as_slice() == shown.as_bytes(), "{}", shown);
    }
    Ok(())
}

#[test]
fn logs_show_a_question_mark_for_other_bytes(rt: HostRuntime) -> Result<(), Fail> {
    let cases: [(&[u8], &str); 4] = [
        (b"", "log 20000 \n"),
        (b"-1 <null>", "log 20000 -1 <null>\n"),
        (b" \x1f~\x7f", "log 20000  ?~?\n"),
        (b"a\r\nb\tc\xc3\xa9\x00", "log 20000 a??b?c???\n"),
    ];
    for (text, shown) in cases {
        let mut trace = Vec::new(rt.alloc());
        push_log(rt.alloc(), &mut trace, 20_000, text)?;
        assert!(rt; trace.as_slice() == shown.as_bytes(), "{}", shown);
    }
    Ok(())
}

#[test]
fn items_stand_one_after_the_other(rt: HostRuntime) -> Result<(), Fail> {
    let alloc = rt.alloc();
    let mut trace = Vec::new(alloc);
    push_out(alloc, &mut trace, 1, CALLER, b"hi\r\n")?;
    push_fail(alloc, &mut trace, 1, OTHER)?;
    push_log(alloc, &mut trace, 2, b"bye")?;
    push_drop(alloc, &mut trace, 2, Cause::NotSip)?;
    push_end(alloc, &mut trace, u64::MAX, 16_384)?;
    let whole = "out 1 192.0.2.1:5060
|hi
fail 1 203.0.113.7:65535
log 2 bye
drop 2 not_sip
end 18446744073709551615 live 16384
";
    assert!(rt; trace.as_slice() == whole.as_bytes());
    Ok(())
}
