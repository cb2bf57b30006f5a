//! The command `sim` over whole scripts: what is logged, sent and dropped, and why.

use super::{Row, holds, rows_hold, sim_case};
use std::alloc::{AllocError, Global};
use std::test::Fail;

const LOGS: &str = r#"request_route {
  xlog("$rm of $rU\n");
  if (!is_method("OPTIONS")) drop;
  sl_send_reply("200", "OK");
  xlog("sent");
}
"#;

/// Two requests at one moment.
const TWO_REQUESTS: &str = "in 1 192.0.2.1:5060
|OPTIONS sip:a@127.0.0.1 SIP/2.0
|Via: SIP/2.0/UDP 192.0.2.1;branch=z9hG4bKx
|From: <sip:u@example.com>;tag=1
|To: <sip:a@127.0.0.1>
|Call-ID: c1
|CSeq: 1 OPTIONS
|
in 1 192.0.2.2:5060
|MESSAGE sip:b@127.0.0.1 SIP/2.0
|Via: SIP/2.0/UDP 192.0.2.2;branch=z9hG4bKy
|From: <sip:v@example.com>;tag=2
|To: <sip:b@127.0.0.1>
|Call-ID: c2
|CSeq: 2 MESSAGE
|
end 2
";

/// A log goes before what is sent at the end of its run.
const LOGGED: &str = "log 1 OPTIONS of a?
log 1 sent
out 1 192.0.2.1:5060
|SIP/2.0 200 OK
|Via: SIP/2.0/UDP 192.0.2.1;branch=z9hG4bKx
|From: <sip:u@example.com>;tag=1
|To: <sip:a@127.0.0.1>;tag=rtx
|Call-ID: c1
|CSeq: 1 OPTIONS
|Content-Length: 0
|
log 1 MESSAGE of b?
drop 1 script_drop
end 2 live 0
";

const SILENT: &str = r#"request_route { if ($rm == "INFO") drop; }"#;

/// Datagrams each of which is dropped, or is malformed and answered.
const DROPS: &str = "in 0 192.0.2.1:5060
|
+0d0a0a
in 1 192.0.2.1:5060
|hello
in 2 192.0.2.1:5060
|
|sip/2.0 200 OK
in 3 192.0.2.1:5060
|SIP/2.0 200 OK
|Via: SIP/2.0/UDP 127.0.0.1:5060;branch=z9hG4bKrs00000000.0.0.0, SIP/2.0/UDP 192.0.2.9;branch=z9hG4bKz
|From: <sip:u@example.com>;tag=1
|To: <sip:a@127.0.0.1>;tag=2
|Call-ID: c1
|CSeq: 1 OPTIONS
|
in 4 192.0.2.1:5060
|INFO sip:a@127.0.0.1 SIP/2.0
|Via: SIP/2.0/UDP 192.0.2.1;branch=z9hG4bKx
|From: <sip:u@example.com>;tag=1
|To: <sip:a@127.0.0.1>
|Call-ID: c1
|CSeq: 1 INFO
|
in 5 192.0.2.1:5060
|ACK sip:a@127.0.0.1 SIP/2.0
|Via: SIP/2.0/UDP 192.0.2.1;branch=z9hG4bKx
|From: <sip:u@example.com>;tag=1
|To: <sip:a@127.0.0.1>;tag=2
|Call-ID: c1
|CSeq: 1 ACK
|
in 6 192.0.2.1:5060
|OPTIONS sip:a@127.0.0.1 SIP/2.0
|Via: SIP/2.0/UDP 192.0.2.1;branch=z9hG4bKx
|Call-ID: c1
|
in 7 192.0.2.1:5060
|OPTIONS sip:a@127.0.0.1 SIP/3.0
|Via: SIP/2.0/UDP 192.0.2.1:5080;branch=z9hG4bKx
|
end 8
";

const DROPPED: &str = "drop 0 keepalive
drop 1 not_sip
drop 2 bad_reply
drop 3 stray_reply
drop 4 script_drop
drop 5 script_silent
out 6 192.0.2.1:5060
|SIP/2.0 400 Bad Request
|Via: SIP/2.0/UDP 192.0.2.1;branch=z9hG4bKx
|Call-ID: c1
|Content-Length: 0
|
out 7 192.0.2.1:5080
|SIP/2.0 505 Version Not Supported
|Via: SIP/2.0/UDP 192.0.2.1:5080;branch=z9hG4bKx
|Content-Length: 0
|
end 8 live 0
";

/// Counts the requests of each user, and forgets one a second after the last.
const COUNTS: &str = r#"modparam("htable", "htable", "c=>size=4;autoexpire=1")
request_route { xlog("$shtinc(c=>$fU)"); exit; }
"#;

const COUNTED_REQUESTS: &str = "in 0 192.0.2.1:5060
|INFO sip:a@127.0.0.1 SIP/2.0
|Via: SIP/2.0/UDP 192.0.2.1;branch=z9hG4bKx
|From: <sip:u@example.com>;tag=1
|To: <sip:a@127.0.0.1>
|Call-ID: c1
|CSeq: 1 INFO
|
in 999 192.0.2.1:5060
|INFO sip:a@127.0.0.1 SIP/2.0
|Via: SIP/2.0/UDP 192.0.2.1;branch=z9hG4bKx
|From: <sip:u@example.com>;tag=1
|To: <sip:a@127.0.0.1>
|Call-ID: c1
|CSeq: 1 INFO
|
in 999 192.0.2.1:5060
|INFO sip:a@127.0.0.1 SIP/2.0
|Via: SIP/2.0/UDP 192.0.2.1;branch=z9hG4bKx
|From: <sip:v@example.com>;tag=1
|To: <sip:a@127.0.0.1>
|Call-ID: c1
|CSeq: 1 INFO
|
in 1999 192.0.2.1:5060
|INFO sip:a@127.0.0.1 SIP/2.0
|Via: SIP/2.0/UDP 192.0.2.1;branch=z9hG4bKx
|From: <sip:u@example.com>;tag=1
|To: <sip:a@127.0.0.1>
|Call-ID: c1
|CSeq: 1 INFO
|
end 1999
";

const COUNTED: &str = "log 0 1
drop 0 script_silent
log 999 2
drop 999 script_silent
log 999 1
drop 999 script_silent
log 1999 1
drop 1999 script_silent
end 1999 live 0
";

const TRACES: [Row; 3] = [
    ("logs, and a response", LOGS, TWO_REQUESTS, LOGGED),
    ("each cause of a drop", SILENT, DROPS, DROPPED),
    ("tables and moments", COUNTS, COUNTED_REQUESTS, COUNTED),
];

#[test]
fn whole_scripts_print_their_trace(rt: HostRuntime) -> Result<(), Fail> {
    rows_hold(&rt, rt.alloc(), &TRACES, 0)
}

/// A malformed request with a Via field of this many bytes behind `p=`, and what is printed of it.
fn with_long_via(alloc: Global, bytes: usize) -> Result<(String, String), AllocError> {
    let long = "x".repeat(alloc, bytes)?;
    let via = format!(in alloc;
        "|Via: SIP/2.0/UDP 192.0.2.1;branch=z9hG4bKx;p={}\n",
        long.as_str()
    )?;
    let scenario = format!(in alloc;
        "in 1 192.0.2.1:5060\n|OPTIONS sip:a SIP/2.0\n{}|\nend 1\n",
        via.as_str()
    )?;
    let response = format!(in alloc;
        "out 1 192.0.2.1:5060\n|SIP/2.0 400 Bad Request\n{}|Content-Length: 0\n|\nend 1 live 0\n",
        via.as_str()
    )?;
    Ok((scenario, response))
}

#[test]
fn a_response_has_at_most_8192_bytes(rt: HostRuntime) -> Result<(), Fail> {
    let alloc = rt.alloc();
    // The line Via has 8,146 bytes, and the response 46 besides.
    let (scenario, response) = with_long_via(alloc, 8_099)?;
    let case = sim_case(
        "8,192 bytes",
        SILENT,
        scenario.as_str(),
        0,
        response.as_str(),
    );
    assert!(rt; holds(alloc, &case)?, "{}", case.shows);
    let (scenario, _) = with_long_via(alloc, 8_100)?;
    let case = sim_case(
        "8,193 bytes",
        SILENT,
        scenario.as_str(),
        0,
        "drop 1 too_long\nend 1 live 0\n",
    );
    assert!(rt; holds(alloc, &case)?, "{}", case.shows);
    Ok(())
}
