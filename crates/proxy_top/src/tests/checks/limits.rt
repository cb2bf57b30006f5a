//! As many blocks, statements, patterns and tables as there may be, and one more.

use super::{END, ROUTE, judge};
use std::alloc::{AllocError, Global};
use std::test::Fail;

/// A `request_route` and so many others, `route[0]` and on.
fn blocks(alloc: Global, others: u32) -> Result<String, AllocError> {
    let mut text = String::new(alloc);
    text.push_str("route{}")?;
    for n in 0..others {
        write!(text, " route[{n}]{{}}")?;
    }
    Ok(text)
}

/// Behind a thousand blocks.
const BLOCKS: [(u8, &str); 7] = [
    (13, "`route[A]{}`"),
    (13, "debug=1 `branch_route[A]{ exit; }` failure_route[A]{}"),
    (13, "`reply_route\n{}`"),
    (13, "`route[5]{ foo(); }`"),
    (5, "`route`{}"),
    (5, "`request_route`{} route[A]{}"),
    (11, "`x`=1 route[A]{}"),
];

#[test]
fn a_script_has_a_thousand_blocks(rt: HostRuntime) -> Result<(), Fail> {
    let alloc = rt.alloc();
    let thousand = blocks(alloc, 999)?;
    judge(&rt, alloc, 13, "", thousand.as_str(), " debug=1")?;
    for (kind, row) in &BLOCKS {
        judge(&rt, alloc, *kind, thousand.as_str(), row, "")?;
    }
    let other = blocks(alloc, 998)?;
    judge(
        &rt,
        alloc,
        13,
        "event_route[A]{} ",
        other.as_str(),
        " `route[A]{}` route[0]{}",
    )
}

/// In a `request_route`, behind 49,999 statements.
const STATEMENTS: [(u8, &str); 12] = [
    (13, "{}"),
    (13, "switch(1) { case 1: case 2: default: }"),
    (13, ";`;`;"),
    (13, "{ `{ ; }` }"),
    (13, "; `drop ;` drop;"),
    (13, ";`if(1) exit; else exit;`"),
    (13, "while(1) `break;`"),
    (13, "switch(1) { case 1: `exit;` default: exit; }"),
    (13, ";`route( A );` /* the last */"),
    (13, "} reply_route{ ; `$var(a) = 1 ;` } route[Z]{ "),
    (6, ";`foo`();"),
    (9, ";`$foo` = 1;"),
];

#[test]
fn a_script_has_fifty_thousand_statements(rt: HostRuntime) -> Result<(), Fail> {
    let alloc = rt.alloc();
    let many = ";".repeat(alloc, 49_999)?;
    let before = format!(in alloc; "route{{{many}")?;
    for (kind, row) in &STATEMENTS {
        judge(&rt, alloc, *kind, before.as_str(), row, END)?;
    }
    Ok(())
}

/// In a `route[NAME]`, behind 63 patterns.
const PATTERNS: [(u8, &str); 12] = [
    (13, "return $ru =~ 'b';"),
    (13, "t_check_status('a');"),
    (13, "sht_rm_name_re('t=>a');"),
    (13, "return $ru =~ 'a' && $ru =~ `'a'`;"),
    (13, "if($ru =~ 'b') return $ru =~ `\"c\"`;"),
    (13, "t_check_status('a'); t_check_status(`'a'`);"),
    (13, "sht_rm_name_re('t=>a'); sht_rm_name_re(`'t=>a'`);"),
    (
        13,
        "t_check_status('b'); } route[Y]{ t_check_status(`'c'`);",
    ),
    (12, "t_check_status(`'('`); t_check_status('a');"),
    (12, "return $ru =~ 'b' && $du =~ `'('`;"),
    (9, "t_check_status('b'); sht_rm_name_re(`'x=>a'`);"),
    (8, "t_check_status('b'); `t_check_status`('a', 'a');"),
];

/// Behind 32 tables.
const TABLES: [(u8, &str); 6] = [
    (13, "route[A]{ sht_reset('t31'); }"),
    (13, "modparam('htable', `'htable'`, 'a=>')"),
    (
        13,
        "modparam('htable', `\"htable\"`, 't=>') modparam('htable', 'htable', 'b=>')",
    ),
    (13, "modparam('htable', `'htable'`, 'a=>') loadmodule 'x'"),
    (11, "modparam('htable', `'htable'`, 't0=>')"),
    (
        11,
        "modparam('htable', `'htable'`, 'a=>size=1') modparam('htable', 'htable', 'b=>')",
    ),
];

/// So many tables, `t0` and on.
fn tables(alloc: Global, count: u32) -> Result<String, AllocError> {
    let mut text = String::new(alloc);
    for n in 0..count {
        write!(text, "modparam('htable', 'htable', 't{n}=>');\n")?;
    }
    Ok(text)
}

#[test]
fn a_script_has_64_patterns_and_32_tables(rt: HostRuntime) -> Result<(), Fail> {
    let alloc = rt.alloc();
    let patterns = "if($ru =~ 'a');".repeat(alloc, 63)?;
    let before = format!(in alloc; "{ROUTE}{patterns}")?;
    for (kind, row) in &PATTERNS {
        judge(&rt, alloc, *kind, before.as_str(), row, END)?;
    }
    let before = tables(alloc, 32)?;
    for (kind, row) in &TABLES {
        judge(&rt, alloc, *kind, before.as_str(), row, " route{}")?;
    }
    Ok(())
}
