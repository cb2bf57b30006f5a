//! Two refusals in one text: the one that begins first is given, and of those at one byte the one of the lower kind.

use super::{END, judge};
use std::test::Fail;

/// In an event block.
const PAIRS: [(u8, &str); 30] = [
    // the one that begins first
    (6, "`foo`(); t_relay();"),
    (7, "`t_relay`(); foo();"),
    (9, "xlog(`'$foo'`); xlog(1, 2);"),
    (8, "`xlog`(1, 2); xlog('$foo');"),
    (9, "return `$foo` =~ '(';"),
    (12, "return $ru =~ `'('` && $foo;"),
    (10, "`$ru` = $foo;"),
    (9, "`$foo` = foo();"),
    (4, "route(`X`); $ru = 1;"),
    (10, "`$ru` = 1; route(X);"),
    (9, "t_continue(`'$foo'`, 1, 'X');"),
    (4, "t_continue(1, 1, `'X'`); xlog('$foo');"),
    (9, "t_continue(`$foo`, '$foo', 'X');"),
    (9, "t_continue(1, `'$foo'`, 'X');"),
    (9, "`$sht(x=>$foo)` = '$foo' + foo();"),
    (7, "$sht(t=>$ru) = `t_relay`() + foo();"),
    (7, "`t_on_branch`('X');"),
    (7, "`t_set_fr`('$foo', $foo);"),
    (8, "`t_continue`('$foo', 1, 2);"),
    // the lower kind at one byte
    (6, "`foo`($foo, 'a', 5);"),
    (7, "`t_relay`(1);"),
    (7, "`sl_send_reply`(99, 'a');"),
    (7, "`remove_hf`('Via');"),
    (9, "`$foo` = 1;"),
    (9, "`$sht(x=>k)` = 1;"),
    (9, "`$shtinc(t=>$foo)` = 1;"),
    (9, "`$(foo{s.len})` = 1;"),
    (9, "`$(ru{foo})` = 1;"),
    (9, "sht_rm_name_re(`'x=>('`);"),
    (12, "sht_rm_name_re(`'t=>('`);"),
];

/// Whole texts.
const WHOLE: [(u8, &str); 22] = [
    (6, "route{`foo`();} loadmodule 'x'"),
    (15, "loadmodule `'x'` route{foo();}"),
    (11, "`x`=1 loadmodule 'x' route{}"),
    (15, "loadmodule `'x'` x=1 route{}"),
    (
        11,
        "modparam('tm', `'x'`, 1) modparam('tm', 'y', 1) route{}",
    ),
    (11, "route{} `listen`=1 modparam('tm', 'x', 1)"),
    (11, "modparam('tm', `'x'`, 1) listen=1"),
    (5, "route{} `route`{foo();}"),
    (6, "route{`foo`();} route{}"),
    (5, "route{} route[A]{} route[`A`]{foo();}"),
    (4, "route{route(`B`);} route[A]{} route[A]{}"),
    // before the end, where a `request_route` is missed
    (15, "loadmodule `'x'`"),
    (11, "`x`=1"),
    (5, "route[A]{} route[`A`]{}"),
    (9, "route[A]{xlog(`'$'`);}"),
    // a refused table isn't there
    (
        9,
        "route{$var(a) = `$sht(t=>k)`;} modparam('htable', 'htable', 't=>size=1')",
    ),
    (
        11,
        "modparam('htable', `'htable'`, 't=>size=1') route{$var(a) = $sht(t=>k);}",
    ),
    (
        9,
        "route{sht_reset(`'t'`);} modparam('htable', 'htable', 't')",
    ),
    // tokens and the grammar go before all checks
    (3, "route{foo();} `}`"),
    (3, "x=1 route{``"),
    (1, "route{foo();} `~`"),
    (1, "loadmodule 'x' } `~`"),
];

#[test]
fn the_first_refusal_is_given(rt: HostRuntime) -> Result<(), Fail> {
    let alloc = rt.alloc();
    for (kind, row) in &PAIRS {
        judge(&rt, alloc, *kind, "route{} event_route[X]{", row, END)?;
    }
    for (kind, row) in &WHOLE {
        judge(&rt, alloc, *kind, "", row, "")?;
    }
    Ok(())
}
