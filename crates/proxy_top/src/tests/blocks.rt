//! What a block does to its message, by whole scripts in `sim`: the codes of its functions, which it logs, and what is sent.

use super::{Row, holds, rows_hold, sim_case};
use std::alloc::{AllocError, Global};
use std::process::Abort;
use std::test::Fail;

/// The ACK of a call that was set up through the proxy: it comes by the route that the proxy has recorded.
const ACK: &str = "in 250 192.0.2.1:5060
|ACK sip:b@192.0.2.9 SIP/2.0
|Via: SIP/2.0/UDP 192.0.2.1;branch=z9hG4bK6a
|Max-Forwards: 70
|From: <sip:u@192.0.2.1>;tag=f
|To: <sip:b@192.0.2.9>;tag=t
|Call-ID: 6
|CSeq: 1 ACK
|Content-Length: 0
|Route: <sip:127.0.0.1:5060;lr>
|
end 250
";

/// The cut of the Route field, the Record-Route field and 62 others are 64 edits, and there is no 65th.
const GOES_BY_ITS_ROUTE: &str = r#"request_route {
  if (!has_totag() || !loose_route()) drop;
  xlog("$rc $ru $du");
  record_route(); xlog("$rc");
  record_route(); xlog("$rc");
  loose_route(); xlog("$rc $ru $du");
  sl_send_reply("200", "OK"); xlog("$rc");
  while ($var(i) < 62) { append_hf("X: 1\r\n"); $var(i) = $var(i) + 1; }
  xlog("$rc");
  append_hf("X: 1\r\n"); xlog("$rc");
}
"#;

const WENT_BY_ITS_ROUTE: &str = "log 250 1 sip:b@192.0.2.9 <null>
log 250 1
log 250 -1
log 250 1 sip:b@192.0.2.9 <null>
log 250 -1
log 250 1
log 250 -2
drop 250 script_silent
end 250 live 0
";

/// Two fields of one name, a fold, no Route field.
const OPTIONS: &str = "in 1 192.0.2.1:5060
|OPTIONS sip:b@192.0.2.9 SIP/2.0
|Via: SIP/2.0/UDP 192.0.2.1;branch=z9hG4bK4
|Max-Forwards: 70
|X-A: 1
|Subject: one
| two
|x-a: 2
|From: <sip:u@192.0.2.1>;tag=f
|To: <sip:b@192.0.2.9>;tag=t
|Call-ID: 4
|CSeq: 1 OPTIONS
|
end 1
";

/// Every function that has started, with each of its codes that this request can have.
const CODES: &str = r#"modparam("htable", "htable", "t=>")
request_route {
  is_method("INVITE|OPTIONS"); xlog("is_method $rc"); is_method("INVITE"); xlog("is_method $rc");
  has_totag(); xlog("has_totag $rc");
  is_present_hf("x-A"); xlog("is_present_hf $rc"); is_present_hf("X"); xlog("is_present_hf $rc");
  remove_hf("X-A"); xlog("remove_hf $rc"); remove_hf("X-A"); xlog("remove_hf $rc");
  append_hf("X: 1\r\n"); xlog("append_hf $rc"); append_hf("X: 1"); xlog("append_hf $rc");
  mf_process_maxfwd_header("10"); xlog("mf_process_maxfwd_header $rc");
  record_route(); xlog("record_route $rc"); record_route(); xlog("record_route $rc");
  loose_route(); xlog("loose_route $rc");
  $sht(t=>a1) = 7; $sht(t=>b) = 8;
  sht_rm_name_re("t=>^a"); xlog("sht_rm_name_re $rc $sht(t=>a1) $sht(t=>b)");
  sht_reset("t"); xlog("sht_reset $rc $sht(t=>b)");
  xlog("L_INFO", "x"); xlog("xlog $rc");
  sl_send_reply("404", "$rm $ci"); xlog("sl_send_reply $rc"); sl_send_reply("200", "OK"); xlog("sl_send_reply $rc");
}
"#;

const CODES_TOLD: &str = "log 1 is_method 1
log 1 is_method -1
log 1 has_totag 1
log 1 is_present_hf 1
log 1 is_present_hf -1
log 1 remove_hf 1
log 1 remove_hf -1
log 1 append_hf 1
log 1 append_hf -1
log 1 mf_process_maxfwd_header 1
log 1 record_route 1
log 1 record_route -1
log 1 loose_route -1
log 1 sht_rm_name_re 1 <null> 8
log 1 sht_reset 1 <null>
log 1 x
log 1 xlog 1
log 1 sl_send_reply 1
log 1 sl_send_reply -1
out 1 192.0.2.1:5060
|SIP/2.0 404 OPTIONS 4
|Via: SIP/2.0/UDP 192.0.2.1;branch=z9hG4bK4
|From: <sip:u@192.0.2.1>;tag=f
|To: <sip:b@192.0.2.9>;tag=t
|Call-ID: 4
|CSeq: 1 OPTIONS
|Content-Length: 0
|
end 1 live 0
";

/// No hops are left, the number of hops isn't given, and no tag.
const HOPS: &str = "in 1 192.0.2.1:5060
|INFO sip:b@192.0.2.9 SIP/2.0
|Via: SIP/2.0/UDP 192.0.2.1;branch=z9hG4bK4
|Max-Forwards: 0
|From: <sip:u@192.0.2.1>;tag=f
|To: <sip:b@192.0.2.9>
|Call-ID: 4
|CSeq: 1 INFO
|
in 2 192.0.2.1:5060
|INFO sip:b@192.0.2.9 SIP/2.0
|Via: SIP/2.0/UDP 192.0.2.1;branch=z9hG4bK5
|From: <sip:u@192.0.2.1>;tag=f
|To: <sip:b@192.0.2.9>;tag=t
|Call-ID: 5
|CSeq: 1 INFO
|
end 2
";

const LOOKS_AT_HOPS: &str = r#"request_route {
  mf_process_maxfwd_header("10"); xlog("$rc"); has_totag(); xlog("$rc"); drop;
}
"#;

const HOPS_TOLD: &str = "log 1 -1
log 1 -1
drop 1 script_drop
log 2 2
log 2 1
drop 2 script_drop
end 2 live 0
";

/// The 64th edit is made, and the 65th isn't.
const MAKES_65_EDITS: &str = r#"request_route {
  while ($var(i) < 63) { append_hf("X: 1\r\n"); $var(i) = $var(i) + 1; }
  xlog("$rc");
  record_route(); xlog("$rc"); append_hf("X: 1\r\n"); xlog("$rc"); append_hf("X"); xlog("$rc");
  remove_hf("Subject"); xlog("$rc"); remove_hf("Y"); xlog("$rc"); record_route(); xlog("$rc");
}
"#;

const EDITS_TOLD: &str = "log 1 1
log 1 1
log 1 -2
log 1 -1
log 1 -2
log 1 -1
log 1 -1
drop 1 script_silent
end 1 live 0
";

/// Two fields of one name are cut where both cuts find room, and else none is.
const CUTS_TWO: &str = r#"request_route {
  while ($var(i) < 63) { append_hf("X: 1\r\n"); $var(i) = $var(i) + 1; }
  remove_hf("X-A"); xlog("$rc"); append_hf("X: 1\r\n"); xlog("$rc"); record_route(); xlog("$rc");
}
"#;

const TWO_TOLD: &str = "log 1 -2
log 1 1
log 1 -2
drop 1 script_silent
end 1 live 0
";

/// A reason is one line: it is no text with a line end in it, and no folded field.
const HAS_REASONS: &str = r#"request_route {
  sl_send_reply("200", "$hdr(Subject)"); xlog("$rc");
  sl_send_reply("200", "a\r\nX: y"); xlog("$rc");
  sl_send_reply("200", "a\nb"); xlog("$rc");
  sl_send_reply("200", "a\rb"); xlog("$rc");
}
"#;

const REASONS_TOLD: &str = "log 1 -3
log 1 -3
log 1 -3
log 1 -3
drop 1 script_silent
end 1 live 0
";

/// Which URIs are ours: by the address that is listened on, and by an alias on each port.
const LOOKS_WHOSE: &str = r#"alias="Example.com" request_route {
  $ru = "sip:127.0.0.1"; route(A); $ru = "sips:u@127.0.0.1:5060;x=y"; route(A); $ru = "sip:127.0.0.1:5061"; route(A);
  $ru = "sip:u@EXAMPLE.COM:9"; route(A); $ru = "sip:u@www.example.com"; route(A); $ru = "tel:127.0.0.1"; route(A);
}
route[A] { if (uri == myself) xlog("ours"); if (uri != myself) xlog("another's"); }
"#;

const WHOSE_TOLD: &str = "log 1 ours
log 1 ours
log 1 another's
log 1 ours
log 1 another's
log 1 another's
drop 1 script_silent
end 1 live 0
";

const RUNS: [Row; 7] = [
    (
        "the ACK of a call",
        GOES_BY_ITS_ROUTE,
        ACK,
        WENT_BY_ITS_ROUTE,
    ),
    ("codes", CODES, OPTIONS, CODES_TOLD),
    ("hops and tags", LOOKS_AT_HOPS, HOPS, HOPS_TOLD),
    ("65 edits", MAKES_65_EDITS, OPTIONS, EDITS_TOLD),
    ("two cuts", CUTS_TWO, OPTIONS, TWO_TOLD),
    ("reasons", HAS_REASONS, OPTIONS, REASONS_TOLD),
    ("whose URI", LOOKS_WHOSE, OPTIONS, WHOSE_TOLD),
];

#[test]
fn blocks_change_their_messages(rt: HostRuntime) -> Result<(), Fail> {
    rows_hold(&rt, rt.alloc(), &RUNS, 0)
}

/// A request to a target with Route fields: the target, the fields, and the code of `loose_route`, the target and the
/// destination then.
type Way = (&'static str, &'static str, &'static str);

const WAYS: [Way; 8] = [
    ("sip:b@192.0.2.9", "", "-1 sip:b@192.0.2.9 <null>"),
    // one value, whose field is cut whole
    (
        "sip:b@192.0.2.9",
        "|Route: <sip:127.0.0.1:5060;lr>\n",
        "1 sip:b@192.0.2.9 <null>",
    ),
    // two values in one field
    (
        "sip:b@192.0.2.9",
        "|Route: <sip:Proxy.example:5090;lr>, <sip:192.0.2.50;lr>\n",
        "1 sip:b@192.0.2.9 sip:192.0.2.50;lr",
    ),
    // the top value is another's
    (
        "sip:b@192.0.2.9",
        "|Route: <sip:127.0.0.1:5061;lr>\n",
        "1 sip:b@192.0.2.9 sip:127.0.0.1:5061;lr",
    ),
    // a strict router after us
    (
        "sip:b@192.0.2.9",
        "|Route: <sip:127.0.0.1;lr>\n|Route: <sip:192.0.2.50>\n",
        "1 sip:192.0.2.50 <null>",
    ),
    // a strict router before us
    (
        "sip:127.0.0.1;lr",
        "|Route: <sip:192.0.2.50;lr>, <sip:b@192.0.2.9>\n",
        "1 sip:b@192.0.2.9 sip:192.0.2.50;lr",
    ),
    (
        "sip:127.0.0.1;lr",
        "|Route: <sip:b@192.0.2.9>\n",
        "1 sip:b@192.0.2.9 <null>",
    ),
    // strict routers before and after us
    (
        "sip:127.0.0.1;lr",
        "|Route: <sip:192.0.2.50>\n|Route: <sip:b@192.0.2.9>\n",
        "1 sip:192.0.2.50 <null>",
    ),
];

/// Where 63 edits are made: one more finds room, and two don't.
const WAYS_AT_63: [Way; 2] = [
    (
        "sip:b@192.0.2.9",
        "|Route: <sip:127.0.0.1;lr>, <sip:192.0.2.50;lr>\n",
        "1 sip:b@192.0.2.9 sip:192.0.2.50;lr",
    ),
    (
        "sip:b@192.0.2.9",
        "|Route: <sip:127.0.0.1;lr>, <sip:192.0.2.50>\n",
        "-2 sip:b@192.0.2.9 <null>",
    ),
];

/// Where 64 are made: a value that is another's stays.
const WAYS_AT_64: [Way; 2] = [
    (
        "sip:b@192.0.2.9",
        "|Route: <sip:127.0.0.1;lr>\n",
        "-2 sip:b@192.0.2.9 <null>",
    ),
    (
        "sip:b@192.0.2.9",
        "|Route: <sip:192.0.2.50;lr>\n",
        "1 sip:b@192.0.2.9 sip:192.0.2.50;lr",
    ),
];

/// A scenario of these requests, each at a millisecond of its own, and its trace, where `loose_route` is called twice.
fn routed(alloc: Global, ways: &[Way]) -> Result<(String, String), AllocError> {
    let mut scenario = String::new(alloc);
    let mut trace = String::new(alloc);
    for (at, (uri, routes, way)) in ways.iter().enumerate() {
        write!(
            scenario,
            "in {at} 192.0.2.1:5060\n|BYE {uri} SIP/2.0\n|Via: SIP/2.0/UDP 192.0.2.1;branch=z9hG4bK6a\n|From: <sip:u@192.0.2.1>;tag=f\n|To: <sip:b@192.0.2.9>;tag=t\n|Call-ID: 6\n|CSeq: 2 BYE\n{routes}|\n"
        )?;
        write!(
            trace,
            "log {at} {way}\nlog {at} {way}\ndrop {at} script_silent\n"
        )?;
    }
    scenario.push_str("end 9\n")?;
    trace.push_str("end 9 live 0\n")?;
    Ok((scenario, trace))
}

/// The requests are routed so where so many edits are made before.
fn routes_so(rt: &impl Abort, alloc: Global, edits: usize, ways: &[Way]) -> Result<(), Fail> {
    let script = format!(in alloc;
        "alias='proxy.example' request_route {{ while ($var(i) < {edits}) {{ append_hf('X: 1\\r\\n'); $var(i) = $var(i) + 1; }} loose_route(); xlog('$rc $ru $du'); loose_route(); xlog('$rc $ru $du'); }}"
    )?;
    let (scenario, trace) = routed(alloc, ways)?;
    let case = sim_case(
        "loose routing",
        script.as_str(),
        scenario.as_str(),
        0,
        trace.as_str(),
    );
    assert!(rt; holds(alloc, &case)?, "{edits} edits");
    Ok(())
}

#[test]
fn requests_are_routed_by_their_route_fields(rt: HostRuntime) -> Result<(), Fail> {
    let alloc = rt.alloc();
    routes_so(&rt, alloc, 0, &WAYS)?;
    routes_so(&rt, alloc, 63, &WAYS_AT_63)?;
    routes_so(&rt, alloc, 64, &WAYS_AT_64)
}

/// An OPTIONS with so many Via fields, and the fields of a response to it behind its first line.
fn with_vias(alloc: Global, vias: usize) -> Result<(String, String), AllocError> {
    let vias = "|Via: SIP/2.0/UDP 192.0.2.1;branch=z9hG4bK4\n".repeat(alloc, vias)?;
    let scenario = format!(in alloc;
        "in 1 192.0.2.1:5060\n|OPTIONS sip:b@192.0.2.9 SIP/2.0\n{}|From: <sip:u@192.0.2.1>;tag=f\n|To: <sip:b@192.0.2.9>\n|Call-ID: 4\n|CSeq: 1 OPTIONS\n|\nend 1\n",
        vias.as_str()
    )?;
    let response = format!(in alloc;
        "{}|From: <sip:u@192.0.2.1>;tag=f\n|To: <sip:b@192.0.2.9>;tag=rt4\n|Call-ID: 4\n|CSeq: 1 OPTIONS\n|Content-Length: 0\n|\n",
        vias.as_str()
    )?;
    Ok((scenario, response))
}

/// Whether `sl_send_reply` with a reason of so many bytes, over an OPTIONS with so many Via fields, is answered by this code,
/// and the response is sent where the code is 1.
fn responds(alloc: Global, vias: usize, reason_bytes: usize, code: i64) -> Result<bool, Fail> {
    let (scenario, fields) = with_vias(alloc, vias)?;
    let reason = "x".repeat(alloc, reason_bytes)?;
    let script = format!(in alloc;
        "request_route {{ sl_send_reply('200', '{}'); xlog('$rc'); }}",
        reason.as_str()
    )?;
    let trace = if code == 1 {
        format!(in alloc;
            "log 1 1\nout 1 192.0.2.1:5060\n|SIP/2.0 200 {}\n{}end 1 live 0\n",
            reason.as_str(),
            fields.as_str()
        )?
    } else {
        format!(in alloc; "log 1 {code}\ndrop 1 script_silent\nend 1 live 0\n")?
    };
    let case = sim_case(
        "a response",
        script.as_str(),
        scenario.as_str(),
        0,
        trace.as_str(),
    );
    holds(alloc, &case)
}

/// How many Via fields and bytes of a reason, and the code. With one Via field a response has 170 bytes beside its reason:
/// the longest has 8,192. A response has five fields beside Via: 128 at most.
const RESPONSES: [(usize, usize, i64); 4] = [
    (1, 8_022, 1),
    (1, 8_023, -3),
    (123, 2, 1),
    (124, 2, -3),
];

#[test]
fn a_response_has_at_most_8192_bytes_and_128_fields(rt: HostRuntime) -> Result<(), Fail> {
    for (vias, bytes, code) in &RESPONSES {
        assert!(rt;
            responds(rt.alloc(), *vias, *bytes, *code)?,
            "{vias} Via fields, {bytes} bytes"
        );
    }
    Ok(())
}
