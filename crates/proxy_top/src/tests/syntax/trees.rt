//! The trees of scripts.

use super::read;
use super::shown::{tree, tree_with_places};
use crate::tests::{HOLDING, USUAL};
use std::test::Fail;

/// What stands behind `return`.
const EXPRESSIONS: [(&str, &str); 71] = [
    ("5", "5"),
    ("'a'", "'a'"),
    ("\"a\"", "'a'"),
    ("$ru", "$ru"),
    ("$var(x)", "$var(x)"),
    ("$(ru{uri.user})", "$(ru{uri.user})"),
    ("$(var(x){s.len})", "$(var(x){s.len})"),
    // calls and their arguments
    ("f()", "(call f)"),
    ("f('a')", "(call f 'a')"),
    ("f('a', 7, -7, $ru)", "(call f 'a' 7 -7 $ru)"),
    ("f(- 9223372036854775807)", "(call f -9223372036854775807)"),
    ("route(A)", "(go A)"),
    ("route ( a-b:c.d_0 )", "(go a-b:c.d_0)"),
    ("route(if)", "(go if)"),
    ("route(-5)", "(go -5)"),
    ("route('A b')", "(go A b)"),
    // prefix operators and brackets
    ("!5", "(! 5)"),
    ("not 5", "(! 5)"),
    ("-5", "(neg 5)"),
    ("--5", "(neg (neg 5))"),
    ("!not-$ru", "(! (! (neg $ru)))"),
    ("(5)", "5"),
    ("((f()))", "(call f)"),
    ("-(5)", "(neg 5)"),
    // sums and products: one list for each level
    ("1 + 2", "(1 + 2)"),
    ("1 + 2 - 3", "(1 + 2 - 3)"),
    ("1 - 2 - 3 + 4", "(1 - 2 - 3 + 4)"),
    ("1 - (2 - 3)", "(1 - (2 - 3))"),
    ("(1 - 2) - 3", "((1 - 2) - 3)"),
    ("1 * 2 mod 3 / 4", "(1 * 2 mod 3 / 4)"),
    ("1 / (2 / 3)", "(1 / (2 / 3))"),
    ("1 + 2 * 3", "(1 + (2 * 3))"),
    ("1 * 2 + 3", "((1 * 2) + 3)"),
    ("1 - 2 mod 3 - 4", "(1 - (2 mod 3) - 4)"),
    ("(1 + 2) * 3", "((1 + 2) * 3)"),
    ("'a' + $ru + f()", "('a' + $ru + (call f))"),
    // prefix operators bind closest
    ("-1 * 2", "((neg 1) * 2)"),
    ("1 * -2", "(1 * (neg 2))"),
    ("1 - -2", "(1 - (neg 2))"),
    ("!1 == 2", "((! 1) == 2)"),
    ("not 1 + 2", "((! 1) + 2)"),
    ("!(1 == 2)", "(! (1 == 2))"),
    // comparisons
    ("1 == 2", "(1 == 2)"),
    ("1 != 2", "(1 != 2)"),
    ("1 < 2", "(1 < 2)"),
    ("1 > 2", "(1 > 2)"),
    ("1 <= 2", "(1 <= 2)"),
    ("1 >= 2", "(1 >= 2)"),
    ("1 + 2 == 3 * 4", "((1 + 2) == (3 * 4))"),
    ("(1 == 2) == 3", "((1 == 2) == 3)"),
    ("1 == (2 == 3)", "(1 == (2 == 3))"),
    ("$ru =~ '^sip'", "($ru =~ '^sip')"),
    ("$ru + 'x' =~ 'a|b'", "(($ru + 'x') =~ 'a|b')"),
    ("uri == myself", "(uri == myself)"),
    ("uri != myself", "(uri != myself)"),
    ("(uri == myself) == 0", "((uri == myself) == 0)"),
    // and, or
    ("1 && 2", "(&& 1 2)"),
    ("1 and 2", "(&& 1 2)"),
    ("1 || 2", "(|| 1 2)"),
    ("1 or 2", "(|| 1 2)"),
    ("1 and 2 && 3", "(&& 1 2 3)"),
    ("1 || 2 or 3 || 4", "(|| 1 2 3 4)"),
    ("1 || 2 && 3 || 4", "(|| 1 (&& 2 3) 4)"),
    ("1 and 2 or 3 and 4", "(|| (&& 1 2) (&& 3 4))"),
    ("(1 || 2) && 3", "(&& (|| 1 2) 3)"),
    ("1 && (2 && 3)", "(&& 1 (&& 2 3))"),
    ("(1 || 2) || 3", "(|| (|| 1 2) 3)"),
    ("1 == 2 && 3", "(&& (1 == 2) 3)"),
    ("!f() and not route(A)", "(&& (! (call f)) (! (go A)))"),
    (
        "1 < 2 && !3 || uri == myself && $ru =~ 'x'",
        "(|| (&& (1 < 2) (! 3)) (&& (uri == myself) ($ru =~ 'x')))",
    ),
    // blanks and comments between tokens
    ("1/* x */+ # y\n\t2 // z\r\n", "(1 + 2)"),
];

/// What stands in a block.
const STATEMENTS: [(&str, &str); 40] = [
    (";", "(;)"),
    (";;", "(;) (;)"),
    ("exit;", "(exit)"),
    ("drop;", "(drop)"),
    ("return;", "(return)"),
    ("return 1;", "(return 1)"),
    ("return -1;", "(return (neg 1))"),
    ("return(f());", "(return (call f))"),
    ("f();", "(do (call f))"),
    ("f(-1, 'a');", "(do (call f -1 'a'))"),
    ("route(A);", "(do (go A))"),
    ("route('A');", "(do (go A))"),
    ("$ru = 'sip:b';", "(set $ru 'sip:b')"),
    ("$var(x) = $var(x) + 1;", "(set $var(x) ($var(x) + 1))"),
    ("$sht(t=>$ci) = $null;", "(set $sht(t=>$ci) $null)"),
    ("{}", "(group)"),
    ("{ exit; {;} drop; }", "(group (exit) (group (;)) (drop))"),
    ("exit; f(); drop;", "(exit) (do (call f)) (drop)"),
    // if, and whose the else is
    ("if (1) exit;", "(if 1 (exit))"),
    ("if (1) exit; drop;", "(if 1 (exit)) (drop)"),
    ("if (1) exit; else drop;", "(if 1 (exit) else (drop))"),
    ("if (1); else;", "(if 1 (;) else (;))"),
    (
        "if ((1) == 2) {} else {}",
        "(if (1 == 2) (group) else (group))",
    ),
    (
        "if (1) if (2) exit; else drop;",
        "(if 1 (if 2 (exit) else (drop)))",
    ),
    (
        "if (1) { if (2) exit; } else drop;",
        "(if 1 (group (if 2 (exit))) else (drop))",
    ),
    (
        "if (1) if (2) exit; else drop; else return;",
        "(if 1 (if 2 (exit) else (drop)) else (return))",
    ),
    (
        "if (1) exit; else if (2) drop; else return;",
        "(if 1 (exit) else (if 2 (drop) else (return)))",
    ),
    (
        "if (1) while (2) if (3) exit; else drop;",
        "(if 1 (while 2 (if 3 (exit) else (drop))))",
    ),
    (
        "if (1) while (2) {} else drop;",
        "(if 1 (while 2 (group)) else (drop))",
    ),
    // while
    ("while (1) break;", "(while 1 (break))"),
    ("while (1) while (2);", "(while 1 (while 2 (;)))"),
    (
        "while (1) { if (2) break; else { break; } }",
        "(while 1 (group (if 2 (break) else (group (break)))))",
    ),
    // switch
    ("switch (1) {}", "(switch 1 (default))"),
    (
        "switch ($rc) { case 1: }",
        "(switch $rc (case 1) (default))",
    ),
    ("switch (1) { default: }", "(switch 1 (default))"),
    (
        "switch (1) { default: break; }",
        "(switch 1 (default (break)))",
    ),
    (
        "switch (1) { case 1: f(); case 2: case 'a': exit; break; default: drop; }",
        "(switch 1 (case 1 (do (call f))) (case 2) (case 'a' (exit) (break)) (default (drop)))",
    ),
    (
        "switch (1) { case 1: if (2) break; case 0: ; }",
        "(switch 1 (case 1 (if 2 (break))) (case 0 (;)) (default))",
    ),
    (
        "switch (1) { case 1: switch (2) { case 3: break; } break; }",
        "(switch 1 (case 1 (switch 2 (case 3 (break)) (default)) (break)) (default))",
    ),
    (
        "switch (1) { default: if (2) while (3) break; else break; } exit;",
        "(switch 1 (default (if 2 (while 3 (break)) else (break)))) (exit)",
    ),
];

/// What stands at the top.
const ITEMS: [(&str, &str); 32] = [
    ("", ""),
    (" # nothing\n", ""),
    ("debug=3", "(param debug 3)"),
    ("debug = 3 ;", "(param debug 3)"),
    ("alias='a.b'", "(param alias 'a.b')"),
    ("fork=no;", "(param fork no)"),
    (
        "debug=3 fork=no; log_facility='L';",
        "(param debug 3) (param fork no) (param log_facility 'L')",
    ),
    ("request_route=1", "(param request_route 1)"),
    ("listen=udp", "(param listen udp)"),
    (
        "listen=udp:127.0.0.1:5060",
        "(param listen udp:127.0.0.1:5060)",
    ),
    (
        "listen = udp:10.0.0.255:65535; debug=0",
        "(param listen udp:10.0.0.255:65535) (param debug 0)",
    ),
    ("loadmodule 'tm.so'", "(load 'tm.so')"),
    ("loadmodule 'tm'; loadmodule'rr'", "(load 'tm') (load 'rr')"),
    (
        "modparam('tm', 'fr_timer', 3000)",
        "(modparam 'tm' 'fr_timer' 3000)",
    ),
    (
        "modparam('htable', 'htable', 't=>size=4;');",
        "(modparam 'htable' 'htable' 't=>size=4;')",
    ),
    ("route {}", "(request)"),
    ("request_route {}", "(request)"),
    ("reply_route {}", "(reply)"),
    ("onreply_route {}", "(reply)"),
    ("route[A] {}", "(route [A])"),
    ("branch_route[A] {}", "(branch [A])"),
    ("failure_route[A] {}", "(failure [A])"),
    ("onreply_route[A] {}", "(reply [A])"),
    (
        "event_route[tm:local-request] {}",
        "(event [tm:local-request])",
    ),
    ("route[a-b:c.d_0]{}", "(route [a-b:c.d_0])"),
    ("route [ if /* a name */ ] {}", "(route [if])"),
    ("route[5]{}", "(route [5])"),
    ("route { exit; }", "(request (exit))"),
    ("route[A] {;}", "(route [A] (;))"),
    (
        "route{} debug=3 route[A]{exit;} loadmodule 'x' route{}",
        "(request) (param debug 3) (route [A] (exit)) (load 'x') (request)",
    ),
    (
        "#!KAMAILIO\ndebug=1\nroute { route(A); }",
        "(param debug 1) (request (do (go A)))",
    ),
    (
        "branch_route[B]{drop;}failure_route[F]{f();}",
        "(branch [B] (drop)) (failure [F] (do (call f)))",
    ),
];

#[test]
fn each_production_gives_its_node(rt: HostRuntime) -> Result<(), Fail> {
    let alloc = rt.alloc();
    for (text, wanted) in &ITEMS {
        let found = tree(alloc, text)?;
        assert_eq!(rt; found.as_str(), *wanted, "{text}");
    }
    for (text, wanted) in &STATEMENTS {
        let script = format!(in alloc; "route{{{text}}}")?;
        let wanted = format!(in alloc; "(request {wanted})")?;
        let found = tree(alloc, script.as_str())?;
        assert_eq!(rt; found.as_str(), wanted.as_str(), "{text}");
    }
    for (text, wanted) in &EXPRESSIONS {
        let script = format!(in alloc; "route{{return {text};}}")?;
        let wanted = format!(in alloc; "(request (return {wanted}))")?;
        let found = tree(alloc, script.as_str())?;
        assert_eq!(rt; found.as_str(), wanted.as_str(), "{text}");
    }
    Ok(())
}

const PLACES: [(&str, &str); 5] = [
    (
        "route[A] { f('x', $ru); }",
        "(route@0-25 word@0-5 [A@6-7] (do@11-23 (call f@11-12 'x'@13-16 $ru@18-21)))",
    ),
    (
        "route{if (1) exit; else { drop; }}",
        "(request@0-34 word@0-5 (if@6-33 1 (exit@13-18) else (group@24-33 (drop@26-31))))",
    ),
    (
        "route{ while(1)break; switch('a'){case 1:;default:return 2;} $ru='s'; } # x",
        "(request@0-71 word@0-5 (while@7-21 1 (break@15-21)) (switch@22-60 'a'@29-32 (case 1 (;@41-42)) (default (return@50-59 2))) (set@61-69 $ru@61-64 's'@65-68))",
    ),
    (
        "  debug = 3 ; loadmodule 'a' modparam ( 'b','c',4 ) ;",
        "(param debug@2-7 3) (load 'a'@25-28) (modparam 'b'@40-43 'c'@44-47 4)",
    ),
    (
        "route{if($ru=~'x')route(A);else route('B');}",
        "(request@0-44 word@0-5 (if@6-43 ($ru@9-12 =~ 'x'@14-17) (do@18-27 (go A@24-25)) else (do@32-43 (go B@38-41))))",
    ),
];

/// The tree of `HOLDING`.
const HOLDING_TREE: &str =
    "(modparam 'htable' 'htable' 'w=>size=8;autoexpire=120') (request (if (call is_method 'REGISTER') (group (do (call t_continue '$sht(w=>i$ci)' '$sht(w=>l$ci)' 'BACK')) (do (call sl_send_reply '200' '$rc')) (exit))) (do (call t_suspend)) (set $sht(w=>i$ci) $T(id_index)) (set $sht(w=>l$ci) $T(id_label))) (route [BACK] (do (call t_reply '200' 'OK')))";

/// The tree of `USUAL`.
const USUAL_TREE: &str =
    "(param listen udp:127.0.0.1:5060) (load 'tm.so') (load 'rr.so') (request (if (! (call mf_process_maxfwd_header '10')) (group (do (call sl_send_reply '483' 'Too Many Hops')) (exit))) (if (call is_method 'CANCEL') (group (if (call t_check_trans) (do (call t_relay))) (exit))) (if (call has_totag) (group (if (call loose_route) (group (do (call t_relay)) (exit))) (if (call is_method 'ACK') (group (if (call t_check_trans) (do (call t_relay))) (exit))) (do (call sl_send_reply '404' 'Not here')) (exit))) (if (call is_method 'INVITE') (group (do (call record_route)) (do (call t_on_failure 'VM')))) (if (! (call t_relay)) (do (call sl_send_reply '500' 'Relay error')))) (failure [VM] (if (call t_is_canceled) (exit)) (if (call t_check_status '486|408') (group (set $du 'sip:192.0.2.8') (do (call t_relay)))))";

#[test]
fn whole_scripts_and_the_places_in_them(rt: HostRuntime) -> Result<(), Fail> {
    let alloc = rt.alloc();
    for (text, wanted) in &PLACES {
        let found = tree_with_places(alloc, text)?;
        assert_eq!(rt; found.as_str(), *wanted);
    }
    for (text, wanted) in &[(HOLDING, HOLDING_TREE), (USUAL, USUAL_TREE)] {
        let found = tree(alloc, text)?;
        assert_eq!(rt; found.as_str(), *wanted);
    }
    assert_eq!(rt; read(alloc, USUAL.as_bytes())?.end, USUAL.len());
    Ok(())
}
