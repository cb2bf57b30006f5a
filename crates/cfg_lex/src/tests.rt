//! What texts are read into, worked out by hand from the language's rules.

use crate::{Piece, lex, pieces};
use cfg_tree::{Lexeme, Token, Variable};
use pv_values::{Place, ScriptFault, Text};
use std::alloc::{AllocError, Global};
use std::test::Fail;

fn shown_bytes(text: &Text) -> &str {
    str::from_utf8(text.bytes()).unwrap_or("not UTF-8")
}

fn shown_variable(alloc: Global, variable: &Variable) -> Result<String, AllocError> {
    let mut shown = String::new(alloc);
    shown.push_str(shown_bytes(&variable.name))?;
    if let Some(inner) = &variable.inner {
        shown.push_str("(")?;
        shown.push_str(shown_bytes(inner))?;
        shown.push_str(")")?;
    }
    if let Some(transformation) = &variable.transformation {
        shown.push_str("{")?;
        shown.push_str(shown_bytes(transformation))?;
        shown.push_str("}")?;
    }
    Ok(shown)
}

fn shown_lexeme(alloc: Global, lexeme: &Lexeme) -> Result<String, AllocError> {
    match lexeme {
        Lexeme::Name(name) => format!(in alloc; "name {}", shown_bytes(name)),
        Lexeme::Keyword(keyword) => format!(in alloc; "word {keyword:?}"),
        Lexeme::Mark(mark) => format!(in alloc; "mark {mark:?}"),
        Lexeme::Number(number) => format!(in alloc; "number {number}"),
        Lexeme::String(text) => format!(in alloc; "string {}", shown_bytes(text)),
        Lexeme::Variable(variable) => {
            format!(in alloc; "variable {}", shown_variable(alloc, variable)?)
        }
        Lexeme::Listen(listen) => format!(in alloc; "listen {} {}", listen.ip, listen.port),
        Lexeme::BlockName(name) => format!(in alloc; "block {}", shown_bytes(name)),
    }
}

fn shown_token(alloc: Global, token: &Token) -> Result<String, AllocError> {
    let lexeme = shown_lexeme(alloc, &token.lexeme)?;
    format!(in alloc; "{lexeme} {}-{}", token.at.from, token.at.to)
}

fn shown_tokens(alloc: Global, tokens: &[Token]) -> Result<String, AllocError> {
    let mut shown = String::new(alloc);
    for (i, token) in tokens.iter().enumerate() {
        if i > 0 {
            shown.push_str(" | ")?;
        }
        shown.push_str(shown_token(alloc, token)?.as_str())?;
    }
    Ok(shown)
}

/// The tokens of a text with their places, or its fault.
fn shown(alloc: Global, text: &[u8]) -> Result<String, AllocError> {
    match lex(alloc, text) {
        Ok(tokens) => shown_tokens(alloc, tokens.as_slice()),
        Err(ScriptFault::Refused { kind, at }) => {
            format!(in alloc; "refused {kind} {}-{}", at.from, at.to)
        }
        Err(ScriptFault::NoMemory) => Err(AllocError),
    }
}

/// An example of the call: three tokens, each with its place, and a string that isn't closed.
#[test]
fn a_parameter_is_three_tokens(rt: HostRuntime) -> Result<(), Fail> {
    let alloc = rt.alloc();
    let found = shown(alloc, b"debug = 3".as_slice())?;
    assert_eq!(rt;
        found.as_str(),
        "name debug 0-5 | mark Assign 6-7 | number 3 8-9"
    );
    let refused = lex(alloc, b"debug = 'x".as_slice()).err();
    let at = Place { from: 8, to: 10 };
    assert_eq!(rt; refused, Some(ScriptFault::Refused { kind: 2, at }));
    Ok(())
}

const WORDS: [(&str, &str); 14] = [
    ("", ""),
    (" \t\r\n", ""),
    ("a", "name a 0-1"),
    ("_x9 Z", "name _x9 0-3 | name Z 4-5"),
    ("if iff If", "word If 0-2 | name iff 3-6 | name If 7-9"),
    (
        "and break case default drop else exit if loadmodule mod",
        "word And 0-3 | word Break 4-9 | word Case 10-14 | word Default 15-22 | word Drop 23-27 | word Else 28-32 | word Exit 33-37 | word If 38-40 | word Loadmodule 41-51 | word Mod 52-55",
    ),
    (
        "modparam myself not or return route switch uri while",
        "word Modparam 0-8 | word Myself 9-15 | word Not 16-19 | word Or 20-22 | word Return 23-29 | word Route 30-35 | word Switch 36-42 | word Uri 43-46 | word While 47-52",
    ),
    ("request_route", "name request_route 0-13"),
    (
        "0 007 9223372036854775807",
        "number 0 0-1 | number 7 2-5 | number 9223372036854775807 6-25",
    ),
    ("a 9223372036854775808", "refused 1 2-21"),
    ("12ab", "number 12 0-2 | name ab 2-4"),
    ("a.b", "refused 1 1-2"),
    ("a @", "refused 1 2-3"),
    ("\u{e9}", "refused 1 0-1"),
];

const MARKS: [(&str, &str); 9] = [
    (
        "()[]{},;:",
        "mark OpenRound 0-1 | mark CloseRound 1-2 | mark OpenSquare 2-3 | mark CloseSquare 3-4 | mark OpenCurly 4-5 | mark CloseCurly 5-6 | mark Comma 6-7 | mark Semicolon 7-8 | mark Colon 8-9",
    ),
    (
        "= == != < > <= >= =~",
        "mark Assign 0-1 | mark Equal 2-4 | mark NotEqual 5-7 | mark Less 8-9 | mark Greater 10-11 | mark LessOrEqual 12-14 | mark GreaterOrEqual 15-17 | mark Matches 18-20",
    ),
    (
        "|| && ! + - * /",
        "mark Or 0-2 | mark And 3-5 | mark Not 6-7 | mark Plus 8-9 | mark Minus 10-11 | mark Times 12-13 | mark Divide 14-15",
    ),
    ("===", "mark Equal 0-2 | mark Assign 2-3"),
    ("!==", "mark NotEqual 0-2 | mark Assign 2-3"),
    ("a-1", "name a 0-1 | mark Minus 1-2 | number 1 2-3"),
    ("==~", "refused 1 2-3"),
    ("& &", "refused 1 0-1"),
    ("a|", "refused 1 1-2"),
];

const COMMENTS: [(&str, &str); 18] = [
    ("a#b\nc", "name a 0-1 | name c 4-5"),
    ("a//b\nc", "name a 0-1 | name c 5-6"),
    ("a#b\rc", "name a 0-1"),
    ("a/*b\n**/c", "name a 0-1 | name c 8-9"),
    ("/**/a", "name a 4-5"),
    ("a#", "name a 0-1"),
    ("/*/", "refused 2 0-3"),
    ("a /* b *", "refused 2 2-8"),
    ("#!KAMAILIO\na", "name a 11-12"),
    ("#!SER x y\na", "name a 10-11"),
    ("#!OPENSER", ""),
    ("#!MAXCOMPAT\n#!ALL", ""),
    ("#!SERX\na", "refused 1 0-1"),
    ("#!SER_", "refused 1 0-1"),
    ("#!ser", "refused 1 0-1"),
    ("a\n#!define", "refused 1 2-3"),
    (" #!define\na", "name a 10-11"),
    ("a #!x", "name a 0-1"),
];

const STRINGS: [(&str, &str); 14] = [
    ("\"\"", "string  0-2"),
    ("\"a'b\"", "string a'b 0-5"),
    ("'a\"b'", "string a\"b 0-5"),
    ("\"\\\\\\\"\\'\\n\\r\\t\"", "string \\\"'\n\r\t 0-14"),
    ("\"a\nb#\"", "string a\nb# 0-6"),
    ("'a''b'", "string a 0-3 | string b 3-6"),
    ("\"a\\b\"", "refused 1 2-4"),
    ("\"\\n\\x\\y\"", "refused 1 3-5"),
    ("\"a\\b", "refused 2 0-4"),
    ("\"a\\\"", "refused 2 0-4"),
    ("'\\", "refused 2 0-2"),
    ("'a\"", "refused 2 0-3"),
    ("\"a @", "refused 2 0-4"),
    ("@ \"a", "refused 1 0-1"),
];

const VARIABLES: [(&str, &str); 19] = [
    ("$ru", "variable ru 0-3"),
    ("$ru.", "refused 1 3-4"),
    ("$var(a)", "variable var(a) 0-7"),
    ("$var()", "variable var() 0-6"),
    ("$hdr(a(b)c)x", "variable hdr(a(b)c) 0-11 | name x 11-12"),
    ("$(ru{s.len})", "variable ru{s.len} 0-12"),
    ("$(hdr(X){s.int})", "variable hdr(X){s.int} 0-16"),
    ("$avp(s:n)", "variable avp(s:n) 0-9"),
    ("$sht(t=>$ci)", "variable sht(t=>$ci) 0-12"),
    ("$1", "refused 1 0-1"),
    ("a $", "refused 1 2-3"),
    ("$(ru)", "refused 1 0-1"),
    ("$(1)", "refused 1 0-1"),
    ("$(ru{a}{b})", "refused 1 0-1"),
    ("$hdr(a(b)", "refused 2 0-9"),
    ("$(", "refused 2 0-2"),
    ("$(ru", "refused 2 0-4"),
    ("$(ru{a)", "refused 2 0-7"),
    ("a $(hdr(x){a}", "refused 2 2-13"),
];

const CONTEXTS: [(&str, &str); 19] = [
    (
        "listen=udp:1.2.3.4:5060",
        "name listen 0-6 | mark Assign 6-7 | listen 16909060 5060 7-23",
    ),
    (
        "listen = # x\n udp:127.0.0.1:1;",
        "name listen 0-6 | mark Assign 7-8 | listen 2130706433 1 14-29 | mark Semicolon 29-30",
    ),
    (
        "listen=udp:255.0.0.001:65535a",
        "name listen 0-6 | mark Assign 6-7 | listen 4278190081 65535 7-28 | name a 28-29",
    ),
    ("listen=udp:1.2.3.4:65536", "refused 1 12-13"),
    ("listen=udp:1.2.3.4:0", "refused 1 12-13"),
    ("listen=udp:1.2.3.4:005060", "refused 1 12-13"),
    ("listen=udp:1.2.3.256:5060", "refused 1 12-13"),
    ("listen=udp:1.2.3.0004:5060", "refused 1 12-13"),
    ("listen=udp:1.2.3.4", "refused 1 12-13"),
    (
        "listen=tcp:x",
        "name listen 0-6 | mark Assign 6-7 | name tcp 7-10 | mark Colon 10-11 | name x 11-12",
    ),
    (
        "listen=udp:1",
        "name listen 0-6 | mark Assign 6-7 | name udp 7-10 | mark Colon 10-11 | number 1 11-12",
    ),
    ("alias=udp:1.2.3.4:5060", "refused 1 11-12"),
    ("listen udp:1.2.3.4:5060", "refused 1 12-13"),
    (
        "route[A-b:c.1]{}",
        "word Route 0-5 | mark OpenSquare 5-6 | block A-b:c.1 6-13 | mark CloseSquare 13-14 | mark OpenCurly 14-15 | mark CloseCurly 15-16",
    ),
    (
        "route ( /* */ 9x )",
        "word Route 0-5 | mark OpenRound 6-7 | block 9x 14-16 | mark CloseRound 17-18",
    ),
    (
        "route(\"A\")",
        "word Route 0-5 | mark OpenRound 5-6 | string A 6-9 | mark CloseRound 9-10",
    ),
    (
        "f(if-1)",
        "name f 0-1 | mark OpenRound 1-2 | word If 2-4 | mark Minus 4-5 | number 1 5-6 | mark CloseRound 6-7",
    ),
    (
        "[9223372036854775808]-",
        "mark OpenSquare 0-1 | block 9223372036854775808 1-20 | mark CloseSquare 20-21 | mark Minus 21-22",
    ),
    ("route x(a.b", "refused 1 9-10"),
];

#[test]
fn texts_have_these_tokens(rt: HostRuntime) -> Result<(), Fail> {
    let alloc = rt.alloc();
    for rows in [
        WORDS.as_slice(),
        MARKS.as_slice(),
        COMMENTS.as_slice(),
        STRINGS.as_slice(),
        VARIABLES.as_slice(),
        CONTEXTS.as_slice(),
    ] {
        for (text, wanted) in rows {
            let found = shown(alloc, text.as_bytes())?;
            assert!(rt; found.as_str() == *wanted, "{text}: {found}");
        }
    }
    Ok(())
}

/// A text of so many blanks.
fn blanks(alloc: Global, len: usize) -> Result<Vec<u8>, AllocError> {
    vec![in alloc; b' '; len]
}

#[test]
fn a_text_has_1_mib_at_most(rt: HostRuntime) -> Result<(), Fail> {
    let alloc = rt.alloc();
    let long = blanks(alloc, 1_048_576)?;
    assert!(rt; shown(alloc, long.as_slice())?.as_str() == "");
    let too_long = blanks(alloc, 1_048_577)?;
    assert!(rt; shown(alloc, too_long.as_slice())?.as_str() == "refused 13 1048576-1048577");
    Ok(())
}

const LOAD: &str = "modparam(\"htable\",\"htable\",\"w=>size=8;autoexpire=120\")
request_route {
  if (is_method(\"REGISTER\")) {
    t_continue(\"$sht(w=>i$ci)\", \"$sht(w=>l$ci)\", \"BACK\");
    sl_send_reply(\"200\", \"$rc\");
    exit;
  }
  t_suspend();
  $sht(w=>i$ci) = $T(id_index);
  $sht(w=>l$ci) = $T(id_label);
}
route[BACK] { t_reply(\"200\", \"OK\"); }
";

const USUAL: &str = "#!KAMAILIO
listen=udp:127.0.0.1:5060
loadmodule \"tm.so\"
loadmodule \"rr.so\"
request_route {
  if (!mf_process_maxfwd_header(\"10\")) { sl_send_reply(\"483\", \"Too Many Hops\"); exit; }
  if (is_method(\"CANCEL\")) { if (t_check_trans()) t_relay(); exit; }
  if (has_totag()) {
    if (loose_route()) { t_relay(); exit; }
    if (is_method(\"ACK\")) { if (t_check_trans()) t_relay(); exit; }
    sl_send_reply(\"404\", \"Not here\"); exit;
  }
  if (is_method(\"INVITE\")) { record_route(); t_on_failure(\"VM\"); }
  if (!t_relay()) sl_send_reply(\"500\", \"Relay error\");
}
failure_route[VM] {
  if (t_is_canceled()) exit;
  if (t_check_status(\"486|408\")) { $du = \"sip:192.0.2.8\"; t_relay(); }
}
";

/// How many tokens a text has.
fn count(alloc: Global, text: &str) -> Result<Option<usize>, AllocError> {
    match lex(alloc, text.as_bytes()) {
        Ok(tokens) => Ok(Some(tokens.len())),
        Err(ScriptFault::Refused { .. }) => Ok(None),
        Err(ScriptFault::NoMemory) => Err(AllocError),
    }
}

#[test]
fn whole_scripts_have_tokens(rt: HostRuntime) -> Result<(), Fail> {
    let alloc = rt.alloc();
    assert!(rt; count(alloc, LOAD)? == Some(63));
    assert!(rt; count(alloc, USUAL)? == Some(165));
    Ok(())
}

fn shown_pieces(alloc: Global, text: &[u8]) -> Result<String, AllocError> {
    let Some(list) = pieces(alloc, text)? else {
        return format!(in alloc; "none");
    };
    let mut shown = String::new(alloc);
    for piece in list.as_slice() {
        shown.push_str("|")?;
        match piece {
            Piece::Plain(text) => shown.push_str(shown_bytes(text))?,
            Piece::Of(variable) => {
                shown.push_str("$")?;
                shown.push_str(shown_variable(alloc, variable)?.as_str())?;
            }
        }
    }
    Ok(shown)
}

const PIECES: [(&str, &str); 9] = [
    ("", ""),
    ("a b", "|a b"),
    ("a$$b", "|a|$|b"),
    ("<$ru;$(ru{s.len})$$", "|<|$ru|;|$ru{s.len}|$"),
    ("$sht(w=>i$ci)", "|$sht(w=>i$ci)"),
    ("$ru.x", "|$ru|.x"),
    ("a$", "none"),
    ("$1", "none"),
    ("$ru$(ru)", "none"),
];

#[test]
fn texts_have_these_pieces(rt: HostRuntime) -> Result<(), Fail> {
    let alloc = rt.alloc();
    for (text, wanted) in &PIECES {
        let found = shown_pieces(alloc, text.as_bytes())?;
        assert!(rt; found.as_str() == *wanted, "{text}: {found}");
    }
    Ok(())
}
