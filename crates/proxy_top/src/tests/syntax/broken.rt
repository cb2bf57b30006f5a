//! Broken scripts, and where the fault stands in them: the first token with which the tokens up to it begin no list
//! that the grammar derives, or else the text's end. In each row it stands between two backquotes, which are no part
//! of the text.

use super::read;
use pv_values::{Place, ScriptFault};
use std::alloc::{AllocError, Global};
use std::process::Abort;
use std::test::Fail;

/// At the top.
const ITEMS: [&str; 91] = [
    "`}`",
    "`;` route{}",
    "`'a'`",
    "`exit`;",
    "`$ru`='a';",
    "`if`=1",
    "`uri`=1",
    "`default`=1",
    "route{}`;`",
    "route{}`}`",
    // parameters
    "debug `3`",
    "debug`==`3",
    "debug`;`",
    "debug=`-`3",
    "debug=`$ru`",
    "debug=`default`",
    "debug=`;`",
    "debug=`(`3)",
    "debug=3 `4`",
    "debug=3;`;`",
    "debug=yes`=`3",
    "listen=`;`",
    "listen=udp`:`5060",
    "alias=udp`:`5060",
    // modules
    "loadmodule `tm`",
    "loadmodule `;`",
    "loadmodule`(`'tm')",
    "loadmodule 'tm' `'rr'`",
    "loadmodule 'tm'`,` 'rr'",
    "modparam `'tm'`,'fr_timer',1",
    "modparam(`tm`,'fr_timer',1)",
    "modparam(`)`",
    "modparam('tm'`)`",
    "modparam('tm' `'fr_timer'`,1)",
    "modparam('tm',`5`,1)",
    "modparam('tm',`,`1)",
    "modparam('tm','fr_timer'`)`",
    "modparam('tm','fr_timer',`)`",
    "modparam('tm','fr_timer',`-`1)",
    "modparam('tm','fr_timer',`$ru`)",
    "modparam('tm','fr_timer',`yes`)",
    "modparam('tm','fr_timer',1`,`2)",
    "modparam('tm','fr_timer',1`;`",
    // heads of blocks
    "foo`{`}",
    "foo`[`x]{}",
    "foo`(`);",
    "foo `bar`=1",
    "route`(`A){}",
    "route`=`1",
    "route`;`",
    "route `A`{}",
    "route `route`{}",
    "route[`]`{}",
    "route[`'A'`]{}",
    "route[A `B`]{}",
    "route[A`{`}",
    "route[A]`;`",
    "route[A]`[`B]{}",
    "route[A]`exit`;",
    "request_route`[`x]{}",
    "reply_route`[`x]{}",
    "branch_route`{`}",
    "failure_route`{`}",
    "event_route`{`}",
    "request_route`(`)",
    // texts that end too early
    "debug``",
    "debug=``",
    "listen=``",
    "listen = # nothing\n``",
    "loadmodule``",
    "modparam``",
    "modparam(``",
    "modparam('tm'``",
    "modparam('tm',``",
    "modparam('tm','fr_timer'``",
    "modparam('tm','fr_timer',``",
    "modparam('tm','fr_timer',1``",
    "route``",
    "request_route``",
    "branch_route``",
    "foo``",
    "route[``",
    "route[A``",
    "route[A]``",
    "route{``",
    "route{ \n\t``",
    "route{;``",
    "route{{}``",
    "route{} route{``",
    "route{} /* x */ debug= // y``",
    "route{exit;} foo``",
];

/// In a block.
const STATEMENTS: [&str; 122] = [
    // calls
    "f()`}`",
    "f() `drop`;",
    "f`;`",
    "f`=`1;",
    "f(`;`",
    "f(`,`);",
    "f('a',`)`;",
    "f('a',`,`'b');",
    "f('a' `'b'`);",
    "f('a'`;`",
    "f(`g`());",
    "f(`(`1));",
    "f(1`+`2);",
    "f(-`$ru`);",
    "f(-`'a'`);",
    "f(-`-`1);",
    "f(`!`1);",
    "f(`[`x]);",
    "f(`uri`);",
    "f()`(`);",
    "f()`=`1;",
    "f()`,` g();",
    "route(`)`;",
    "route(A`,`B);",
    "route(A `B`);",
    "route(`$ru`);",
    "route `'A'`;",
    "route`[`A];",
    "route`{`}",
    "route`;`",
    "route(A)`}`",
    // what begins no statement
    "`mod`();",
    "`uri`='a';",
    "`myself`();",
    "`not` f();",
    "`and`;",
    "`modparam`('a','b',1);",
    "`loadmodule` 'a';",
    "`5`;",
    "`'s'`=1;",
    "`-`1;",
    "`(`f());",
    "`!`f();",
    "`]`",
    "`)`;",
    "`,`",
    "`:`",
    "`=`1;",
    "{`)`}",
    "{exit;}}`}`",
    // assignments
    "$ru`;`",
    "$ru`==`'a';",
    "$ru `(`);",
    "$ru `$du`;",
    "$ru`=~`'a';",
    "$ru=`;`",
    "$ru='a'`}`",
    "$ru='a'`=`'b';",
    "$ru='a'`,`'b';",
    // else
    "`else` exit;",
    "exit;`else` exit;",
    "if(1)exit;exit;`else` exit;",
    "if(1){exit;};`else` exit;",
    "if(1){}else{}`else`{}",
    "if(1)`else` exit;",
    "if(1)exit;else`}`",
    "while(1)exit;`else` exit;",
    // conditions
    "if `1`;",
    "if `exit`;",
    "if(`)`exit;",
    "if(1`;`",
    "if(1)`}`",
    "if(1)`)`exit;",
    "while `1`;",
    "while(`)`;",
    "while(1)`}`",
    "while(1)while`;`",
    // break
    "`break`;",
    "if(1)`break`;",
    "if(1){`break`;}",
    "if(1);else `break`;",
    "while(1);`break`;",
    "while(1){}`break`;",
    "switch(1){}`break`;",
    "switch(1){case 1:break;}`break`;",
    "while(1)break`}`",
    "while(1)break `1`;",
    // switch
    "switch `1`{}",
    "switch `{`}",
    "switch(1)`;`",
    "switch(1)`case` 2:;",
    "switch(1){`exit`;}",
    "switch(1){case`:`;}",
    "switch(1){case `$ru`:;}",
    "switch(1){case `-`1:;}",
    "switch(1){case `x`:;}",
    "switch(1){case `(`1):;}",
    "switch(1){case 1 `exit`;}",
    "switch(1){case 1`,`2:;}",
    "switch(1){case 1`;`}",
    "switch(1){default`;`}",
    "switch(1){default `1`:;}",
    "switch(1){default:;`case` 1:;}",
    "switch(1){default:;`default`:;}",
    "switch(1){case 1:if(2)`case` 2:;}",
    "switch(1){case 1:{`case` 2:;}}",
    "switch(1){case 1:exit`}`}",
    "switch(1){case 1:exit;`:`}",
    "`case` 1:exit;",
    "`default`:exit;",
    "while(1){`case` 1:;}",
    // return, exit, drop
    "return`}`",
    "return 1 `2`;",
    "return 1`,`2;",
    "return(`)`;",
    "return `exit`;",
    "return `=`1;",
    "exit`}`",
    "exit`(`);",
    "exit `1`;",
    "drop`(`);",
    "drop`}`",
];

/// Behind `return`.
const EXPRESSIONS: [&str; 103] = [
    // comparisons
    "1==2`==`3",
    "1<2`>`3",
    "1==2`=~`'3'",
    "1==2 and 3!=4`<=`5",
    "$ru=~`5`",
    "$ru=~`$du`",
    "$ru=~`(`'a')",
    "$ru=~`f`()",
    "$ru=~`-`1",
    "$ru=~'a'`==`1",
    "$ru=~'a'`+`'b'",
    "$ru=~'a'`=~`'b'",
    // operators without an operand
    "1+`;`",
    "1-`;`",
    "1*`;`",
    "1/`;`",
    "1 mod`;`",
    "1==`;`",
    "1>=`;`",
    "$ru=~`;`",
    "1&&`;`",
    "1 and`;`",
    "1||`;`",
    "1 or`;`",
    "!`;`",
    "not`;`",
    "-`;`",
    "`+`1",
    "`*`1",
    "`/` 1",
    "`mod` 1",
    "`==`1",
    "`<`1",
    "`=~`'a'",
    "`&&`1",
    "`and` 1",
    "`||`1",
    "`or` 1",
    "1+`+`1",
    "1*`*`2",
    "1+`*`2",
    "1 mod `mod` 2",
    "1<`>`2",
    "1> `=`2",
    "1==`!=`2",
    "1&&`||`2",
    "1 and `or` 2",
    "1 `!`2",
    "1 `not` 2",
    // operands without an operator
    "1 `2`",
    "'a' `'b'`",
    "$ru `$du`",
    "f() `g`()",
    "1`(`2)",
    "(1)`(`2)",
    "$ru `(`1)",
    // brackets
    "(`)`",
    "(1`;`",
    "((1)`;`",
    "(1)`)`",
    "(1`,`2)",
    "(1`]`",
    "(1`}`",
    "`[`1]",
    "`{`1}",
    // names and calls
    "f`;`",
    "f`==`1",
    "f`+`1",
    "f(1`;`",
    "f(`f`())",
    "f(1`+`1)",
    "f(`(`1))",
    "route`;`",
    "route`+`1",
    "route(A`;`",
    "`if`",
    "`else`",
    "`exit`",
    "`case` 1",
    "`default`()",
    "`return` 1",
    "`loadmodule` 'a'",
    // uri and myself
    "uri`;`",
    "uri`<`myself",
    "uri`=~`'a'",
    "uri`+`1",
    "uri`=`myself",
    "uri==`'a'`",
    "uri==`uri`",
    "uri!=`(`myself)",
    "uri==myself`==`1",
    "uri==myself`+`1",
    "`myself`",
    "`myself`==uri",
    "!`uri`==myself",
    "-`uri`==myself",
    "1==`uri`",
    "1+`uri`",
    "1 and not `uri`!=myself",
    // what belongs elsewhere
    "1`=`2",
    "$ru`=`2",
    "1`:`2",
    "1`,`2",
];

/// In a block, and the text ends there: so does each list that goes on.
const UNFINISHED: [&str; 66] = [
    "exit",
    "drop",
    "while(1)break",
    "return",
    "return 1",
    "return 1+",
    "return 1 mod",
    "return 1==",
    "return $ru=~",
    "return 1 and",
    "return 1||",
    "return !",
    "return not",
    "return -",
    "return (",
    "return (1",
    "return (1)",
    "return uri",
    "return uri==",
    "return uri==myself",
    "return f",
    "return f(",
    "return f()",
    "return route",
    "return route(",
    "return route(A",
    "if",
    "if(",
    "if(1",
    "if(1)",
    "if(1)exit;",
    "if(1)exit;else",
    "if(1)exit;else drop;",
    "while",
    "while(",
    "while(1",
    "while(1)",
    "switch",
    "switch(",
    "switch(1",
    "switch(1)",
    "switch(1){",
    "switch(1){case",
    "switch(1){case 1",
    "switch(1){case 1:",
    "switch(1){case 1:break;",
    "switch(1){default",
    "switch(1){default:",
    "switch(1){}",
    "$ru",
    "$ru=",
    "$ru='a'",
    "$ru='a';",
    "f",
    "f(",
    "f(-",
    "f(1",
    "f(1,",
    "f()",
    "f(); # done",
    "route",
    "route(",
    "route(A",
    "route(A)",
    "{",
    "{exit; \n",
];

/// A text, and the place between the two backquotes in it, which are no part of the text.
fn marked(alloc: Global, row: &str) -> Result<(Vec<u8>, Place), AllocError> {
    let mut text = Vec::new(alloc);
    let mut from = None;
    let mut to = 0;
    for byte in row.as_bytes() {
        if *byte != b'`' {
            text.push(*byte)?;
        } else if from.is_none() {
            from = Some(text.len());
        } else {
            to = text.len();
        }
    }
    let from = from.unwrap_or(0);
    Ok((text, Place { from, to }))
}

/// The text between the others is refused at its marked place.
fn is_refused_at_its_mark(
    rt: &impl Abort,
    alloc: Global,
    before: &str,
    row: &str,
    behind: &str,
) -> Result<(), Fail> {
    let script = format!(in alloc; "{before}{row}{behind}")?;
    let (text, at) = marked(alloc, script.as_str())?;
    let found = read(alloc, text.as_slice()).err();
    assert_eq!(rt; found, Some(ScriptFault::Refused { kind: 3, at }), "{row}");
    Ok(())
}

#[test]
fn a_fault_spans_the_first_token_that_no_list_goes_on_with(rt: HostRuntime) -> Result<(), Fail> {
    let alloc = rt.alloc();
    for row in &ITEMS {
        is_refused_at_its_mark(&rt, alloc, "", row, "")?;
    }
    for row in &STATEMENTS {
        is_refused_at_its_mark(&rt, alloc, "route{", row, "}")?;
    }
    for row in &EXPRESSIONS {
        is_refused_at_its_mark(&rt, alloc, "route{return ", row, ";}")?;
    }
    Ok(())
}

#[test]
fn a_text_that_ends_too_early_is_refused_at_its_end(rt: HostRuntime) -> Result<(), Fail> {
    let alloc = rt.alloc();
    for row in &UNFINISHED {
        is_refused_at_its_mark(&rt, alloc, "route{", row, "``")?;
    }
    Ok(())
}
