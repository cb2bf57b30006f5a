//! Variables that aren't known, or are assigned where they may not be.

use super::{BEGINNINGS, END, ROUTE, judge, judge_all, judge_where, unmarked};
use std::alloc::{AllocError, Global};
use std::process::Abort;
use std::test::Fail;

/// Variables, by the letters of the blocks that may assign them.
const VARIABLES: [(&str, &str); 5] = [
    ("RBF", "$ru $rU $rd $rp $du"),
    (
        "",
        "$fu $fU $fd $ft $tu $tU $td $tt $ci $cs $rm $si $sp $rs $rr $ua $hdr(X) $shtinc(t=>k) $shtdec(t=>k) \
         $T(id_index) $T(id_label) $rc $retcode $null",
    ),
    (
        "",
        "$(ru{s.len}) $(du{s.int}) $(fu{s.len}) $(rc{s.int}) $(avp(a){uri.user}) $(var(a){uri.host}) \
         $(sht(t=>k){s.len}) $(shtex(t=>$(ru{s.len})){s.int})",
    ),
    ("RBFO", "$avp(a) $avp(s:a) $avp(s)"),
    (
        "RBFOE",
        "$var(a) $var($foo) $sht(t=>k) $sht(t=>) $sht(t=>$sht(t=>$$-$ci)=>) $shtex(t=>k)",
    ),
];

/// It may be read: alone, in an expanded text, and in a key.
fn is_read(rt: &impl Abort, alloc: Global, before: &str, variable: &str) -> Result<(), Fail> {
    let row = format!(in alloc;
        "if({variable}) xlog('{variable}-{variable}'); return $sht(t=>{variable}.);"
    )?;
    judge(rt, alloc, 9, before, row.as_str(), END)
}

/// It is read in each block, and assigned in those of these letters. In a `route[NAME]` it is assigned where some
/// block may.
fn is_variable(rt: &impl Abort, alloc: Global, letters: &str, variable: &str) -> Result<(), Fail> {
    let row = format!(in alloc; "`{variable}` = 1;")?;
    for (letter, before) in &BEGINNINGS {
        is_read(rt, alloc, before, variable)?;
        judge_where(
            rt,
            alloc,
            letters.contains(*letter),
            10,
            before,
            row.as_str(),
        )?;
    }
    is_read(rt, alloc, ROUTE, variable)?;
    judge_where(rt, alloc, !letters.is_empty(), 10, ROUTE, row.as_str())
}

/// Assignments inside other statements, in an event block.
const INNER_ASSIGNMENTS: [&str; 7] = [
    "if(1) `$ru` = 'a';",
    "if(1); else { ; `$avp(a)` = 1; }",
    "while(0) { $var(a) = 1; `$du` = 2; }",
    "switch(1) { case 1: `$rU` = 1; }",
    "switch(1) { default: `$rc` = 1; }",
    "{ { `$rd`=$ru; } }",
    "$sht(t=>$ru) = $avp(a); `$shtinc(t=>k)` = $ru;",
];

#[test]
fn variables_are_read_in_each_block_and_assigned_in_some(rt: HostRuntime) -> Result<(), Fail> {
    let alloc = rt.alloc();
    for (letters, variables) in &VARIABLES {
        for variable in variables.split_whitespace() {
            is_variable(&rt, alloc, letters, variable)?;
        }
    }
    judge_all(
        &rt,
        alloc,
        10,
        "route{} event_route[X]{",
        &INNER_ASSIGNMENTS,
        END,
    )
}

/// No variables.
const UNKNOWN: &str =
    "$foo $_ $RU $Ru $r $ruu $ru_ $ru5 $NULL $return $var $avp $hdr $T $sht $shtex \
    $foo(a) $ru() $ru(a) $rc(a) $null() $var() $Var(a) $avp() $avp(s:) $hdr() $T() $T(id) $T(ID_INDEX) \
    $sht() $sht(t) $sht(t=) $sht(t=a>b) $sht(x=>a) $sht(T=>a) $sht(=>a) $sht(tt=>a) $shtex(x=>a) $shtex(t) \
    $shtinc(x=>a) $shtdec(t) $shtadd(t=>a) \
    $sht(t=>$foo) $sht(t=>a-$foo-$ru) $sht(t=>$) $sht(t=>a$) $sht(t=>$1) $sht(t=>$$$) $sht(t=>$(ru)) \
    $sht(t=>$(ru{s.len}{s.int})) $sht(t=>$sht(t=>$sht(t=>$foo))) $sht(t=>$shtex(x=>a)) \
    $(foo{s.len}) $(ru{foo}) $(ru{}) $(ru{S.LEN}) $(var(){s.len}) $(sht(x=>a){s.int})";

/// What is no variable in an expanded text, beside those.
const NO_TEXTS: &str =
    "$ 5$ $1 $- $$$ $$ru$ $(ru) $(ru $(ru{s.len} $(ru{s.len) $(ru{s.len}{s.int}) $() $ru( \
    $var(a $sht(t=>$var(a)";

/// Where a variable stands for the question mark.
const VARIABLE_PLACES: [&str; 16] = [
    "`?` = 1;",
    "$var(a) = `?`;",
    "if(`?`) exit;",
    "if(1); else if(`?`) exit;",
    "while(!`?`) exit;",
    "switch(`?`) { case 1: exit; }",
    "switch(1) { case 1: `?` = $ru; }",
    "switch(1) { default: return `?`; }",
    "return 1 + 2 * -(`?`);",
    "return `?` =~ 'a';",
    "return $ru == 1 && `?` || 2;",
    "xlog(`?`);",
    "xlog('a', `?`);",
    "t_set_fr(1, `?`);",
    "t_continue(`?`, 1, 'A');",
    "sl_send_reply(200, `?`);",
];

/// Where an expanded text does.
const TEXT_PLACES: [&str; 10] = [
    "xlog(`'?'`);",
    "xlog(`\"?\"`);",
    "xlog('L_INFO', `'a ? b'`);",
    "sl_send_reply(200, `'?.'`);",
    "t_set_fr(`'?'`, 1);",
    "t_set_fr(1, `'?'`);",
    "t_continue(1, `'?'`, 'A');",
    "append_branch(`'sip:?@192.0.2.1'`);",
    "append_hf(`'X: ?\\r\\n'`);",
    "if(1 + t_reply(200, `'$ru ?'`)) exit;",
];

/// Others, in a `route[NAME]`.
const TEXTS: [&str; 27] = [
    "return `$T( id_index)`;",
    "return `$T(id_label )`;",
    "return `$sht(t =>a)`;",
    "xlog(`'$ ru'`);",
    "xlog('');",
    "xlog('$$');",
    "xlog('$$foo');",
    "xlog('$$$ru$$');",
    "xlog('$ru$rU');",
    "xlog('$ru (a)');",
    "xlog('$ru-$rU.$rd:$rp');",
    "xlog('$var( )');",
    "xlog('$avp(s:a b)');",
    "xlog('$sht(t=>)');",
    "xlog('$sht(t=>$sht(t=>$(ru{s.len})))');",
    "xlog('$(ru{uri.user})@$(sht(t=>$ci){s.len})');",
    "return $hdr($foo);",
    "return $(hdr(Contact){uri.user});",
    "return $(null{s.len}) + $(retcode{s.int});",
    "return $(T(id_index){s.len});",
    "return $(si{uri.host}) == $(sp{uri.user});",
    // what isn't expanded
    "$var(a) = '$';",
    "return '$foo';",
    "if('$(ru)' == $ru) exit;",
    "switch($ru) { case '$foo': exit; case \"$\": }",
    "return $ru =~ '^$';",
    "return $ru =~ '$foo';",
];

/// How many variables stand one in the key of another, the key of the innermost, and whether they may.
const NESTED: [(usize, &str, bool); 13] = [
    (31, "k", true),
    (31, "$ru", true),
    (31, "a$var(a)$(ru{s.len})b", true),
    (31, "$foo", false),
    (32, "k", true),
    (32, "", true),
    (32, "$$", true),
    (32, "$ru", false),
    (32, "a$var(a)", false),
    (32, "$(ru{s.len})", false),
    (33, "k", false),
    (33, "", false),
    (500, "k", false),
];

/// A variable with others in its key, so many in all.
fn nested(alloc: Global, count: usize, key: &str) -> Result<String, AllocError> {
    let open = "$sht(t=>".repeat(alloc, count)?;
    let close = ")".repeat(alloc, count)?;
    format!(in alloc; "{open}{key}{close}")
}

/// The row without its marks where it is accepted, with a text in place of the question mark.
fn judge_nested(
    rt: &impl Abort,
    alloc: Global,
    may: bool,
    row: &str,
    text: &str,
) -> Result<(), Fail> {
    let plain = unmarked(alloc, row)?;
    let row = if may { plain.as_str() } else { row };
    judge_with(rt, alloc, &[row], text)
}

#[test]
fn variables_stand_32_deep(rt: HostRuntime) -> Result<(), Fail> {
    let alloc = rt.alloc();
    for (count, key, may) in &NESTED {
        let variable = nested(alloc, *count, key)?;
        for row in VARIABLE_PLACES.iter().chain(&TEXT_PLACES) {
            judge_nested(&rt, alloc, *may, row, variable.as_str())?;
        }
    }
    Ok(())
}

#[test]
fn a_mebibyte_of_nested_variables_is_refused(rt: HostRuntime) -> Result<(), Fail> {
    let alloc = rt.alloc();
    let variable = nested(alloc, 116_000, "k")?;
    judge_with(
        &rt,
        alloc,
        &["return `?`;", "xlog(`'?'`);"],
        variable.as_str(),
    )
}

/// With a text in place of the question mark.
fn judge_with(rt: &impl Abort, alloc: Global, rows: &[&str], text: &str) -> Result<(), Fail> {
    for row in rows {
        let (front, back) = row.split_once('?').ok_or("nothing to put in")?;
        let whole = format!(in alloc; "{front}{text}{back}")?;
        judge(rt, alloc, 9, ROUTE, whole.as_str(), END)?;
    }
    Ok(())
}

#[test]
fn a_variable_is_known(rt: HostRuntime) -> Result<(), Fail> {
    let alloc = rt.alloc();
    judge_all(&rt, alloc, 9, ROUTE, &TEXTS, END)?;
    for variable in UNKNOWN.split_whitespace() {
        judge_with(&rt, alloc, &VARIABLE_PLACES, variable)?;
        judge_with(&rt, alloc, &TEXT_PLACES, variable)?;
    }
    for text in NO_TEXTS.split_whitespace() {
        judge_with(&rt, alloc, &TEXT_PLACES, text)?;
    }
    Ok(())
}
