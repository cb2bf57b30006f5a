//! The commands over files and a console in memory. Expected texts are worked out by hand.

mod blocks;
mod checks;
mod handed_on;
mod runs;
mod syntax;
mod traces;

use crate::simulate;
use outside_ports::{MemConsole, MemFiles};
use std::alloc::Global;
use std::process::Abort;
use std::test::Fail;

const SCRIPT: &str = "request_route { sl_send_reply(\"200\", \"OK\"); }";

const OPTIONS: &str = "in 0 192.0.2.1:5062
|OPTIONS sip:a@127.0.0.1 SIP/2.0
|Via: SIP/2.0/UDP 192.0.2.1:5062;rport;branch=z9hG4bK1
|From: <sip:u@example.com>;tag=1
|To: <sip:a@127.0.0.1>
|Call-ID: c1
|CSeq: 1 OPTIONS
|Max-Forwards: 70
|Content-Length: 0
|
end 0
";

const ANSWER: &str = "out 0 192.0.2.1:5062
|SIP/2.0 200 OK
|Via: SIP/2.0/UDP 192.0.2.1:5062;rport=5062;branch=z9hG4bK1;received=192.0.2.1
|From: <sip:u@example.com>;tag=1
|To: <sip:a@127.0.0.1>;tag=rt1
|Call-ID: c1
|CSeq: 1 OPTIONS
|Content-Length: 0
|
end 0 live 0
";

/// From another port than the one in the Via, with a Call-ID that isn't printable.
const BEHIND_NAT: &str = "# a phone behind a NAT
in 5 203.0.113.7:40000
|OPTIONS sip:b@h SIP/2.0
|Via: SIP/2.0/UDP 10.0.0.1:5060;rport;branch=z9hG4bKx.1
|From: <sip:u@h>;tag=2
|To: <sip:b@h>
|Call-ID: é
|CSeq: 7 OPTIONS
|Max-Forwards: 0
|Content-Length: 0
|
in 5 192.0.2.3:5060
|hello

end 86400000
";

const NAT_ANSWER: &str = "out 5 203.0.113.7:40000
|SIP/2.0 404 Not here
|Via: SIP/2.0/UDP 10.0.0.1:5060;rport=40000;branch=z9hG4bKx.1;received=203.0.113.7
|From: <sip:u@h>;tag=2
|To: <sip:b@h>;tag=rtx.1
+43616c6c2d49443a20c3a90d0a
|CSeq: 7 OPTIONS
|Content-Length: 0
|
drop 5 not_sip
end 86400000 live 0
";

/// A registration carries on the messages that are held.
const HOLDING: &str = r#"modparam("htable","htable","w=>size=8;autoexpire=120")
request_route {
  if (is_method("REGISTER")) {
    t_continue("$sht(w=>i$ci)", "$sht(w=>l$ci)", "BACK");
    sl_send_reply("200", "$rc");
    exit;
  }
  t_suspend();
  $sht(w=>i$ci) = $T(id_index);
  $sht(w=>l$ci) = $T(id_label);
}
route[BACK] { t_reply("200", "OK"); }
"#;

/// A usual script of a proxy.
const USUAL: &str = r#"#!KAMAILIO
listen=udp:127.0.0.1:5060
loadmodule "tm.so"
loadmodule "rr.so"
request_route {
  if (!mf_process_maxfwd_header("10")) { sl_send_reply("483", "Too Many Hops"); exit; }
  if (is_method("CANCEL")) { if (t_check_trans()) t_relay(); exit; }
  if (has_totag()) {
    if (loose_route()) { t_relay(); exit; }
    if (is_method("ACK")) { if (t_check_trans()) t_relay(); exit; }
    sl_send_reply("404", "Not here"); exit;
  }
  if (is_method("INVITE")) { record_route(); t_on_failure("VM"); }
  if (!t_relay()) sl_send_reply("500", "Relay error");
}
failure_route[VM] {
  if (t_is_canceled()) exit;
  if (t_check_status("486|408")) { $du = "sip:192.0.2.8"; t_relay(); }
}
"#;

const USAGE: &str =
    "usage: sipscript check FILE, sim FILE SCENARIO, load N, serve FILE [options]\n";

/// What a case runs: the words, the script, the scenario, and the calls of `print` that fail.
#[derive(Clone, Copy)]
struct Case<'a> {
    shows: &'a str,
    words: &'a [&'a str],
    script: &'a str,
    scenario: &'a str,
    fail_print: &'a [u64],
    status: u8,
    printed: &'a str,
}

const SIM: [&str; 3] = ["sim", "a", "s"];

fn sim_case<'a>(
    shows: &'a str,
    script: &'a str,
    scenario: &'a str,
    status: u8,
    printed: &'a str,
) -> Case<'a> {
    Case {
        shows,
        words: &SIM,
        script,
        scenario,
        fail_print: &[],
        status,
        printed,
    }
}

const CHECK: [&str; 2] = ["check", "a"];

fn check_case<'a>(shows: &'a str, script: &'a str, status: u8, printed: &'a str) -> Case<'a> {
    Case {
        words: &CHECK,
        ..sim_case(shows, script, "", status, printed)
    }
}

/// Whether the case ends as it says.
fn holds(alloc: Global, case: &Case<'_>) -> Result<bool, Fail> {
    holds_with(alloc, case, case.script.as_bytes())
}

/// Whether the case ends as it says, with these bytes as its script.
fn holds_with(alloc: Global, case: &Case<'_>, script: &[u8]) -> Result<bool, Fail> {
    let mut words = Vec::new(alloc);
    for word in case.words {
        words.push(String::from_str(alloc, word)?)?;
    }
    let mut list = Vec::new(alloc);
    let script = Vec::from_slice(alloc, script)?;
    list.push((String::from_str(alloc, "a")?, script))?;
    let scenario = Vec::from_slice(alloc, case.scenario.as_bytes())?;
    list.push((String::from_str(alloc, "s")?, scenario))?;
    let mut files = MemFiles::new(list, Vec::new(alloc));
    let mut console = MemConsole::new(Vec::from_slice(alloc, case.fail_print)?);
    let status = simulate(alloc, words.as_slice(), &mut files, &mut console);
    Ok(status == case.status && console.printed() == case.printed.as_bytes())
}

/// What a row shows, its script, its scenario, and what is printed.
type Row = (&'static str, &'static str, &'static str, &'static str);

/// Each row of `sim` ends with this status.
fn rows_hold(rt: &impl Abort, alloc: Global, rows: &[Row], status: u8) -> Result<(), Fail> {
    for (shows, script, scenario, printed) in rows {
        let case = sim_case(shows, script, scenario, status, printed);
        assert!(rt; holds(alloc, &case)?, "{shows}");
    }
    Ok(())
}

const TRACES: [Row; 5] = [
    ("one options is answered", SCRIPT, OPTIONS, ANSWER),
    (
        "the source decides",
        "request_route { sl_send_reply(\"404\", \"Not here\"); }\n",
        BEHIND_NAT,
        NAT_ANSWER,
    ),
    ("no datagram", SCRIPT, "end 7\n", "end 7 live 0\n"),
    (
        "an empty datagram",
        SCRIPT,
        "in 3 1.2.3.4:5\nend 3\n",
        "drop 3 keepalive\nend 3 live 0\n",
    ),
    (
        "hosts, which are not used, and bytes",
        SCRIPT,
        "host a.example 1.2.3.4:5\nin 3 1.2.3.4:5\n+0d0A\n+\nend 4\n",
        "drop 3 keepalive\nend 4 live 0\n",
    ),
];

#[test]
fn scenarios_print_their_trace(rt: HostRuntime) -> Result<(), Fail> {
    rows_hold(&rt, rt.alloc(), &TRACES, 0)
}

const REFUSED: [Row; 3] = [
    ("an empty script", "", OPTIONS, "refused 14 at 0..0\n"),
    (
        "a script that isn't closed",
        "request_route { sl_send_reply(\"200\", \"OK\");",
        OPTIONS,
        "refused 3 at 43..43\n",
    ),
    (
        "an unknown function",
        "request_route { send(\"200\"); }",
        "go",
        "refused 6 at 16..20\n",
    ),
];

/// What a row shows, a scenario, and the number of its first line in no form.
const WRONG_LINES: [(&str, &str, u32); 13] = [
    ("the second line is go", "\ngo\nend 0\n", 2),
    ("no end", "#\n", 2),
    ("no LF at the end", "end 0", 1),
    ("a leading zero", "in 00 1.2.3.4:5\nend 0\n", 1),
    ("port 0", "in 0 1.2.3.4:0\nend 0\n", 1),
    ("an octet of 256", "in 0 1.2.3.256:5\nend 0\n", 1),
    (
        "a moment that falls",
        "in 2 1.2.3.4:5\nin 1 1.2.3.4:5\nend 2\n",
        2,
    ),
    ("an odd digit", "in 1 1.2.3.4:5\n+0d0\nend 1\n", 2),
    (
        "a host behind a datagram",
        "in 1 1.2.3.4:5\nhost a 1.2.3.4:5\nend 1\n",
        2,
    ),
    ("text before a datagram", "|x\nend 0\n", 1),
    ("an end before an arrival", "in 2 1.2.3.4:5\nend 1\n", 2),
    ("an end after a day", "end 86400001\n", 1),
    ("a line behind the end", "end 0\n\n#\nend 0\n", 4),
];

#[test]
fn scripts_and_scenarios_in_no_form(rt: HostRuntime) -> Result<(), Fail> {
    let alloc = rt.alloc();
    rows_hold(&rt, alloc, &REFUSED, 2)?;
    for (shows, scenario, number) in &WRONG_LINES {
        let printed = format!(in alloc; "scenario line {number}\n")?;
        let case = sim_case(shows, SCRIPT, scenario, 3, printed.as_str());
        assert!(rt; holds(alloc, &case)?, "{shows}");
    }
    Ok(())
}

#[test]
fn words_files_and_consoles_that_fail(rt: HostRuntime) -> Result<(), Fail> {
    let words = |words| Case {
        words,
        ..sim_case("words in no form", SCRIPT, OPTIONS, 1, USAGE)
    };
    let unread = |words, printed| Case {
        words,
        ..sim_case("an unknown file", SCRIPT, OPTIONS, 4, printed)
    };
    let cases = [
        words(&[]),
        words(&["sim", "a"]),
        words(&["serve", "x"]),
        words(&["sim", "a", "s", "t"]),
        unread(&["sim", "b", "s"], "cannot read b\n"),
        unread(&["sim", "a", "c d"], "cannot read c d\n"),
        words(&["check"]),
        words(&["check", "a", "s"]),
        words(&["sim", "check", "a", "s"]),
        unread(&["check", "c d"], "cannot read c d\n"),
        Case {
            fail_print: &[1],
            ..check_case("the refusal isn't printed", "", 5, "")
        },
        Case {
            fail_print: &[1],
            ..sim_case("the first print fails", SCRIPT, OPTIONS, 5, "")
        },
        Case {
            words: &["x"],
            fail_print: &[1],
            ..sim_case("usage isn't printed", SCRIPT, OPTIONS, 5, "")
        },
    ];
    for case in &cases {
        assert!(rt; holds(rt.alloc(), case)?, "{}", case.shows);
    }
    Ok(())
}

/// What a row shows, a script, the status of its check, and what is printed.
const CHECKS: [(&str, &str, u8, &str); 12] = [
    (
        "a stray byte",
        "request_route { @ }",
        2,
        "refused 1 at 16..17\n",
    ),
    (
        "an open string",
        "request_route { xlog(\"a",
        2,
        "refused 2 at 21..23\n",
    ),
    ("no block", "request_route }", 2, "refused 3 at 14..15\n"),
    (
        "an open block",
        "request_route {",
        2,
        "refused 3 at 15..15\n",
    ),
    ("the usual script", USUAL, 0, "accepted\n"),
    ("held messages", HOLDING, 0, "accepted\n"),
    ("the shortest", "request_route{}", 0, "accepted\n"),
    (
        "a route twice",
        "route[A]{}\nroute[A]{}\nrequest_route{}",
        2,
        "refused 5 at 17..18\n",
    ),
    (
        "a function in a wrong block",
        "event_route[x]{t_relay();}\nrequest_route{}",
        2,
        "refused 7 at 15..22\n",
    ),
    (
        "a string that is no pattern",
        "request_route{if($ru=~\"(\"){}}",
        2,
        "refused 12 at 22..25\n",
    ),
    ("no request route", "", 2, "refused 14 at 0..0\n"),
    (
        "an unknown module",
        "loadmodule \"usrloc.so\"\nrequest_route{}",
        2,
        "refused 15 at 11..22\n",
    ),
];

#[test]
fn scripts_that_are_checked(rt: HostRuntime) -> Result<(), Fail> {
    for (shows, script, status, printed) in &CHECKS {
        let case = check_case(shows, script, *status, printed);
        assert!(rt; holds(rt.alloc(), &case)?, "{shows}");
    }
    Ok(())
}

/// A text of so many bytes with which no token begins is refused so by `check`, or by `sim`.
fn refuses_long(alloc: Global, words: &[&str], bytes: usize, printed: &str) -> Result<bool, Fail> {
    let text = vec![in alloc; b'@'; bytes]?;
    let case = Case {
        words,
        ..sim_case("a long text", "", OPTIONS, 2, printed)
    };
    holds_with(alloc, &case, text.as_slice())
}

#[test]
fn scripts_round_the_longest(rt: HostRuntime) -> Result<(), Fail> {
    let alloc = rt.alloc();
    let too_long = "refused 13 at 1048576..1048577\n";
    assert!(rt; refuses_long(alloc, &CHECK, 1_048_576, "refused 1 at 0..1\n")?);
    assert!(rt; refuses_long(alloc, &CHECK, 1_048_577, too_long)?);
    assert!(rt; refuses_long(alloc, &SIM, 1_048_577, too_long)?);
    Ok(())
}
