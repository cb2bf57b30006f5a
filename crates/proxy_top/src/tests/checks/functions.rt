//! Calls: of functions that aren't there, in blocks where they may not stand, and with arguments that they don't take.

use super::{BEGINNINGS, END, ROUTE, judge, judge_all, judge_where};
use std::alloc::Global;
use std::process::Abort;
use std::test::Fail;

const NO_FUNCTIONS: &str =
    "foo T_relay t_rela t_relay_ t_relay_to_udp send_reply force_rport xlogl _ \
    request_route reply_route";

/// Where calls stand, in a `route[NAME]`.
const UNKNOWN: [&str; 12] = [
    "`foo` (1, 'a', $ru);",
    "`foo`('$foo', $foo);",
    "t_relay(); `foo`(); bar();",
    "if(`foo`()) exit;",
    "if(1); else `foo`();",
    "while(!`foo`()) { }",
    "while(0) { { `foo`(); } }",
    "switch(`foo`()) { }",
    "switch(1) { case 'foo': `foo`(); }",
    "switch(1) { case 1: default: { `foo`(); } }",
    "return 2 * (1 + -`foo`());",
    "$var(a) = uri == myself && `foo`();",
];

/// Calls of each function, by the letters of the blocks in which it may stand.
const CALLS: [(&str, &str); 7] = [
    (
        "R",
        "sl_send_reply(200,'OK') t_newtran() t_check_trans() t_suspend() mf_process_maxfwd_header(10) \
         record_route() loose_route()",
    ),
    (
        "RF",
        "t_reply('486','Busy') t_relay() append_branch() append_branch('sip:a@192.0.2.1') \
         t_on_branch('B') t_on_failure('F') t_on_reply('O') t_set_fr(5000,1000)",
    ),
    ("RFO", "t_is_canceled()"),
    ("FO", "t_check_status('4..')"),
    ("RFOE", "t_continue(1,2,'A')"),
    (
        "RBFO",
        "has_totag() is_present_hf('Subject') remove_hf('Subject') append_hf('X:y\\r\\n')",
    ),
    (
        "RBFOE",
        "is_method('INVITE|ACK') xlog('a') xlog('L_INFO','a') sht_rm_name_re('t=>a') sht_reset('t')",
    ),
];

/// Calls inside other statements.
const INNER_CALLS: [(&str, &str); 6] = [
    ("RBFO", "if(!`has_totag`()) exit;"),
    ("RF", "if(1) { } else { ; `t_relay`(); }"),
    ("R", "while($rc < 2 || `t_suspend`()) exit;"),
    ("R", "switch(1) { case 1: `t_newtran`(); break; }"),
    ("R", "switch(`t_check_trans`()) { default: exit; }"),
    ("R", "return 1 + `loose_route`();"),
];

/// The row is accepted in the blocks of these letters and in a `route[NAME]`, and refused in the others.
fn stands_in(rt: &impl Abort, alloc: Global, letters: &str, row: &str) -> Result<(), Fail> {
    for (letter, before) in &BEGINNINGS {
        judge_where(rt, alloc, letters.contains(*letter), 7, before, row)?;
    }
    judge_where(rt, alloc, true, 7, ROUTE, row)
}

#[test]
fn a_function_is_there_and_stands_where_it_works(rt: HostRuntime) -> Result<(), Fail> {
    let alloc = rt.alloc();
    judge_all(&rt, alloc, 6, ROUTE, &UNKNOWN, END)?;
    for name in NO_FUNCTIONS.split_whitespace() {
        let row = format!(in alloc; "`{name}`();")?;
        judge(&rt, alloc, 6, ROUTE, row.as_str(), END)?;
    }
    for (letters, calls) in &CALLS {
        for call in calls.split_whitespace() {
            let (name, arguments) = call.split_once('(').ok_or("no call")?;
            let row = format!(in alloc; "`{name}`({arguments};")?;
            stands_in(&rt, alloc, letters, row.as_str())?;
        }
    }
    for (letters, row) in &INNER_CALLS {
        stands_in(&rt, alloc, letters, row)?;
    }
    Ok(())
}

/// Arguments that a function takes.
const TAKEN: [(&str, &str); 15] = [
    (
        "sl_send_reply",
        "(100,'a') (699,'a') ('100','a') ('699',$rr) (0200,5)",
    ),
    (
        "t_reply",
        "(100,'') (699,'$$') ('100',-5) ('699','$(fu{uri.user})')",
    ),
    (
        "append_branch",
        "() ($ru) (5) (-5) ('sip:$rU@$(fu{uri.host})')",
    ),
    ("t_set_fr", "(1,2) ('$var(a)',$var(b)) (-1,'x') ($rc,'')"),
    ("t_check_status", "('4..') ('') (\"486|408\")"),
    (
        "t_continue",
        "('$sht(t=>i$ci)',$sht(t=>l),'A') (-1,'x','A')",
    ),
    ("is_method", "('INVITE') ('INVITE|ACK') ('$foo')"),
    ("is_present_hf", "('Subject') ('$foo')"),
    (
        "remove_hf",
        "('X') ('m') ('c') ('k') ('s') ('e') ('u') ('Contact') ('Content-Type') ('Viaduct') ('Routes') \
         ('Record') ('$foo')",
    ),
    ("append_hf", "('X:$ci\\r\\n') ($ua) (5) ('')"),
    (
        "mf_process_maxfwd_header",
        "(1) ('1') (9) ('10') (255) ('255')",
    ),
    ("record_route", "()"),
    (
        "xlog",
        "('a') ($ru) (5) (-5) ('L_INFO',$ru) ('L_INFO',-5) ('','') ('$foo','a')",
    ),
    ("sht_rm_name_re", "('t=>') ('t=>^a=>b$') (\"t=>(a|b)\")"),
    ("sht_reset", "('t') (\"t\")"),
];

/// Another count or form than it takes.
const NOT_TAKEN: [(&str, &str); 25] = [
    (
        "sl_send_reply",
        "() (200) (200,'a','b') ('OK',200) ($rs,'a') ('$rs','a')",
    ),
    ("t_newtran", "(1)"),
    (
        "t_reply",
        "() ('200') (200,'a',1) ($var(a),'a') ('$var(a)','a')",
    ),
    ("t_relay", "('0x02') ($du,1)"),
    ("append_branch", "('sip:a@b','0.5') (1,2,3)"),
    ("t_on_branch", "() (1) ($var(a)) ('B','B')"),
    ("t_on_failure", "() (-1) ($ru) ('F',1)"),
    ("t_on_reply", "() (0) ($ru) ('O',$ru)"),
    ("t_set_fr", "() (1) (1,2,3)"),
    ("t_check_trans", "('a')"),
    ("t_is_canceled", "($ru)"),
    ("t_check_status", "() (4) ($rs) ('4','5')"),
    ("t_suspend", "(0)"),
    (
        "t_continue",
        "() (1) (1,2) (1,2,3) (1,2,$ru) ('A',1,2) (1,2,'A','A')",
    ),
    ("is_method", "() (1) ($rm) ('INVITE','ACK')"),
    ("has_totag", "('a')"),
    ("is_present_hf", "() (1) ($ua) ('A','B')"),
    ("remove_hf", "() (1) ($ua) ('A','B')"),
    ("append_hf", "() ('X:y\\r\\n','Subject')"),
    (
        "mf_process_maxfwd_header",
        "() (0) ('0') (256) ('256') (266) (65546) ('4294967306') (-1) ('-1') ('+1') ('010') ('') ('ten') \
         ($var(a)) ('$var(a)') (10,10)",
    ),
    ("record_route", "('a')"),
    ("loose_route", "(1)"),
    ("xlog", "() (1,'a') ($var(a),'a') ('a','b','c') (1,2,3)"),
    (
        "sht_rm_name_re",
        "() (1) ($var(a)) ('') ('t') ('t=a>') ('t=>a','t=>b')",
    ),
    ("sht_reset", "() (1) ($sht(t=>k)) ('t','t')"),
];

#[test]
fn a_function_takes_arguments_of_its_form(rt: HostRuntime) -> Result<(), Fail> {
    let alloc = rt.alloc();
    for (name, forms) in &TAKEN {
        for arguments in forms.split_whitespace() {
            let row = format!(in alloc; "{name}{arguments};")?;
            judge(&rt, alloc, 8, ROUTE, row.as_str(), END)?;
        }
    }
    for (name, forms) in &NOT_TAKEN {
        for arguments in forms.split_whitespace() {
            let row = format!(in alloc; "`{name}`{arguments};")?;
            judge(&rt, alloc, 8, ROUTE, row.as_str(), END)?;
        }
    }
    Ok(())
}

/// No codes of replies.
const NO_CODES: &str =
    "0 99 700 -1 -200 65736 4294967496 9223372036854775807 '' '0' '99' '099' '0200' '700' '-1' \
    '+200' '2xx' '65736' '4294967496' '18446744073709551816'";

/// Fields that a message needs.
const NEEDED: &str =
    "Via From To Call-ID CSeq Max-Forwards Content-Length Route Record-Route VIA from tO call-id \
    CSEQ max-forwards content-LENGTH rOUTE record-route v f t i l V F T I L";

/// Numbers with blanks.
const BLANKS: [&str; 3] = [
    "`sl_send_reply`(' 200', 'a');",
    "`t_reply`('200 ', 'a');",
    "`mf_process_maxfwd_header`(' 10');",
];

#[test]
fn codes_and_needed_fields_are_looked_at(rt: HostRuntime) -> Result<(), Fail> {
    let alloc = rt.alloc();
    judge_all(&rt, alloc, 8, ROUTE, &BLANKS, END)?;
    for code in NO_CODES.split_whitespace() {
        let local = format!(in alloc; "`sl_send_reply`({code}, 'a');")?;
        let reply = format!(in alloc; "`t_reply`({code}, 'a');")?;
        judge_all(&rt, alloc, 8, ROUTE, &[local.as_str(), reply.as_str()], END)?;
    }
    for name in NEEDED.split_whitespace() {
        let row = format!(in alloc; "`remove_hf`('{name}');")?;
        judge(&rt, alloc, 8, ROUTE, row.as_str(), END)?;
    }
    Ok(())
}
