//! Scripts as code, and runs of them, from their texts to how they end, worked out by hand.

use super::{HOLDING, USUAL};
use crate::accept::accepted;
use cfg_code::{Instr, Loaded};
use cfg_compile::compile;
use cfg_tree::TableUse;
use pv_values::{Env, Func, HostAnswer, HostAsk, How, ScriptFault, Text, Val, Vals};
use script_vm::{AskView, Played, Run, VariableView, Went, play};
use std::alloc::{AllocError, Global};
use std::test::Fail;

/// A script as code, where its text is accepted.
pub(super) fn loaded(alloc: Global, text: &str) -> Result<Option<Loaded>, AllocError> {
    match accepted(alloc, text.as_bytes()) {
        Ok(script) => Ok(Some(compile(alloc, script)?)),
        Err(ScriptFault::NoMemory) => Err(AllocError),
        Err(ScriptFault::Refused { .. }) => Ok(None),
    }
}

/// An instruction as a line, with a text in quotes.
fn line(alloc: Global, instr: &Instr) -> Result<String, AllocError> {
    match instr {
        Instr::Push(Val::Text(text)) => {
            let text = str::from_utf8(text.bytes()).unwrap_or("?");
            format!(in alloc; "Push('{text}')")
        }
        Instr::CallFunction(Func::IsMethod(list)) => {
            let list = str::from_utf8(list.bytes()).unwrap_or("?");
            format!(in alloc; "CallFunction(IsMethod '{list}')")
        }
        other => format!(in alloc; "{other:?}"),
    }
}

/// The text is a script whose code has exactly these instructions.
fn reads(alloc: Global, text: &str, lines: &[&str]) -> Result<bool, AllocError> {
    let Some(loaded) = loaded(alloc, text)? else {
        return Ok(false);
    };
    let instrs = loaded.code.instrs();
    if instrs.len() != lines.len() {
        return Ok(false);
    }
    for place in 0..lines.len() {
        if line(alloc, &instrs[place])?.as_str() != lines[place] {
            return Ok(false);
        }
    }
    Ok(true)
}

const COUNTS: &str =
    "request_route { $var(i) = 0; while ($var(i) < 100) { $var(i) = $var(i) + 1; } }";

/// The code of it.
const LOOP: [&str; 19] = [
    "EndBlock",
    "CountStatement",
    "Push(Int(0))",
    "Store(0)",
    "CountStatement",
    "BeginLoop(12)",
    "Load(0)",
    "Push(Int(100))",
    "Binary(Lt)",
    "JumpIfFalse(7)",
    "BeginRound",
    "CountStatement",
    "Load(0)",
    "Push(Int(1))",
    "Binary(Add)",
    "Store(0)",
    "LoopBack",
    "EndLoop",
    "EndBlock",
];

const CALLS: &str = "request_route { route(Z); $var(a) = 1; } route[Z] { return 0; }";

/// The code of it.
const ROUTE: [&str; 14] = [
    "EndBlock",
    "CountStatement",
    "CallBlock(1)",
    "ExitOnZero",
    "LoadCode",
    "Pop",
    "CountStatement",
    "Push(Int(1))",
    "Store(0)",
    "EndBlock",
    "CountStatement",
    "Push(Int(0))",
    "Return",
    "EndBlock",
];

const SUMS: &str =
    "request_route { if (9223372036854775807 + 1 == $null) $var(a) = 1; $var(a) = -7 mod 2; }";

/// The code of it.
const OPERANDS: [&str; 19] = [
    "EndBlock",
    "CountStatement",
    "Push(Int(9223372036854775807))",
    "Push(Int(1))",
    "Binary(Add)",
    "Read(Null)",
    "Binary(Eq)",
    "JumpIfFalse(4)",
    "CountStatement",
    "Push(Int(1))",
    "Store(0)",
    "Jump(0)",
    "CountStatement",
    "Push(Int(7))",
    "Negate",
    "Push(Int(2))",
    "Binary(Rem)",
    "Store(0)",
    "EndBlock",
];

const SWITCHES: &str =
    "request_route { switch ($var(a)) { case 1: case 2: break; default: drop; } $var(a) = $var(a) && 2 || 3; }";

/// The code of it.
const CASES: [&str; 29] = [
    "EndBlock",
    "CountStatement",
    "BeginLoop(10)",
    "Load(0)",
    "Case(Int(1), 1)",
    "Jump(1)",
    "Case(Int(2), 2)",
    "Break",
    "Jump(1)",
    "Pop",
    "CountStatement",
    "Drop",
    "EndLoop",
    "CountStatement",
    "Push(Int(0))",
    "JumpIfTrueOrPop(8)",
    "Push(Int(1))",
    "JumpIfFalseOrPop(2)",
    "Load(0)",
    "ToBool",
    "JumpIfFalseOrPop(2)",
    "Push(Int(2))",
    "ToBool",
    "ToBool",
    "JumpIfTrueOrPop(2)",
    "Push(Int(3))",
    "ToBool",
    "Store(0)",
    "EndBlock",
];

/// The code of `HOLDING`.
const WAITING: [&str; 74] = [
    "EndBlock",
    "CountStatement",
    "CountStatement",
    "CallFunction(IsMethod 'REGISTER')",
    "ExitOnZero",
    "LoadSuccess",
    "JumpIfFalse(35)",
    "CountStatement",
    "Push('')",
    "Push('')",
    "Push('i')",
    "Concat",
    "Read(CallId)",
    "Concat",
    "ReadItem(Item, 0)",
    "Concat",
    "PushArgument",
    "Push('')",
    "Push('')",
    "Push('l')",
    "Concat",
    "Read(CallId)",
    "Concat",
    "ReadItem(Item, 0)",
    "Concat",
    "PushArgument",
    "CallFunction(TContinue(1))",
    "ExitOnZero",
    "LoadCode",
    "Pop",
    "CountStatement",
    "Push('')",
    "LoadCode",
    "Concat",
    "PushArgument",
    "CallFunction(SlSendReply(200))",
    "ExitOnZero",
    "LoadCode",
    "Pop",
    "CountStatement",
    "Exit",
    "Jump(0)",
    "CountStatement",
    "CallFunction(TSuspend)",
    "ExitOnZero",
    "LoadCode",
    "Pop",
    "CountStatement",
    "Push('')",
    "Push('i')",
    "Concat",
    "Read(CallId)",
    "Concat",
    "Read(IdIndex)",
    "WriteItem(Item, 0)",
    "CountStatement",
    "Push('')",
    "Push('l')",
    "Concat",
    "Read(CallId)",
    "Concat",
    "Read(IdLabel)",
    "WriteItem(Item, 0)",
    "EndBlock",
    "CountStatement",
    "Push('')",
    "Push('OK')",
    "Concat",
    "PushArgument",
    "CallFunction(TReply(200))",
    "ExitOnZero",
    "LoadCode",
    "Pop",
    "EndBlock",
];

#[test]
fn each_script_has_its_code(rt: HostRuntime) -> Result<(), Fail> {
    let alloc = rt.alloc();
    assert!(rt; reads(alloc, COUNTS, &LOOP)?);
    assert!(rt; reads(alloc, CALLS, &ROUTE)?);
    assert!(rt; reads(alloc, SUMS, &OPERANDS)?);
    assert!(rt; reads(alloc, SWITCHES, &CASES)?);
    assert!(rt; reads(alloc, HOLDING, &WAITING)?);
    Ok(())
}

#[test]
fn the_usual_script_has_its_blocks(rt: HostRuntime) -> Result<(), Fail> {
    let alloc = rt.alloc();
    let Some(loaded) = loaded(alloc, USUAL)? else {
        return Err("refused".into());
    };
    assert_eq!(rt; loaded.code.entry(loaded.request), 1);
    assert_eq!(rt; loaded.code.entry(1), 129);
    assert_eq!(rt; loaded.code.entry(7), 0);
    let instrs = loaded.code.instrs();
    assert_eq!(rt; instrs.len(), 154);
    assert!(rt; matches!(instrs[128], Instr::EndBlock));
    assert!(rt; matches!(instrs[153], Instr::EndBlock));
    assert_eq!(rt; loaded.patterns.as_slice().len(), 1);
    Ok(())
}

/// One variable that is 0.
fn start(alloc: Global) -> Result<Env, AllocError> {
    let mut vars = Vals::new(alloc);
    vars.push(Val::Int(0))?;
    Ok(Env { vars, rc: 0 })
}

/// What a run of the text's first block comes to, with one variable that is 0; nothing where it is refused.
fn played(alloc: Global, text: &str, answers: &[HostAnswer]) -> Result<Played, AllocError> {
    match loaded(alloc, text)? {
        Some(loaded) => Ok(play(alloc, &loaded, 0, start(alloc)?, answers)),
        None => Ok(Played::NoMemory),
    }
}

/// It ended so after so many answers, with this variable.
fn ended(played: Played, wanted: How, count: usize, n: i64) -> bool {
    match played {
        Played::Ended(env, how, taken) => {
            how == wanted
                && taken == count
                && matches!(env.vars.as_slice(), [Val::Int(m)] if *m == n)
        }
        _ => false,
    }
}

const COUNTS_ONE_MORE: &str =
    "request_route { $var(i) = 0; while ($var(i) < 101) { $var(i) = $var(i) + 1; } }";

const NESTS: &str = "request_route { route(D); }
    route[D] { $var(d) = $var(d) + 1; if ($var(d) < 256) route(D); }";

const NESTS_DEEPER: &str = "request_route { route(D); }
    route[D] { $var(d) = $var(d) + 1; if ($var(d) < 257) route(D); }";

const RELAYS: &str = "request_route { if (!t_relay()) $var(a) = 5; }";

/// Each script with the code that answers its one ask, if it has one; how it ends, and its variable then.
const RUNS: [(&str, Option<i64>, How, i64); 8] = [
    (COUNTS, None, How::Normal, 100),
    (COUNTS_ONE_MORE, None, How::LoopLimit, 100),
    (CALLS, None, How::Exit, 0),
    (NESTS, None, How::Normal, 256),
    (NESTS_DEEPER, None, How::DepthLimit, 256),
    (RELAYS, Some(1), How::Normal, 0),
    (RELAYS, Some(-2), How::Normal, 5),
    (RELAYS, Some(0), How::Exit, 0),
];

/// A run of this row ends as it says.
fn ends_so(
    alloc: Global,
    text: &str,
    code: Option<i64>,
    how: How,
    n: i64,
) -> Result<bool, AllocError> {
    match code {
        Some(code) => {
            let answers = [HostAnswer::Code(code)];
            Ok(ended(played(alloc, text, &answers)?, how, 1, n))
        }
        None => Ok(ended(played(alloc, text, &[])?, how, 0, n)),
    }
}

#[test]
fn each_run_ends_as_its_script_means(rt: HostRuntime) -> Result<(), Fail> {
    let alloc = rt.alloc();
    for (text, code, how, n) in RUNS {
        assert!(rt; ends_so(alloc, text, code, how, n)?, "{text}");
    }
    let null = [HostAnswer::Value(Val::Null)];
    assert!(rt; ended(played(alloc, SUMS, &null)?, How::Normal, 1, -1));
    Ok(())
}

/// `$var(i) = 0; while ($var(i) < 1000) { .. }`, where a round has 98 statements, and then so many more.
fn long_text(alloc: Global, last: u32) -> Result<String, AllocError> {
    let mut text = String::new(alloc);
    text.push_str("max_while_loops=1000 request_route { $var(i) = 0; while ($var(i) < 1000) {")?;
    for _ in 0..97 {
        text.push_str(" $var(i) = $var(i);")?;
    }
    text.push_str(" $var(i) = $var(i) + 1; }")?;
    for _ in 0..last {
        text.push_str(" $var(i) = $var(i);")?;
    }
    text.push_str(" }")?;
    Ok(text)
}

/// 1 + 1,001 + 98,000 + 998 statements are 100,000, and one more is too many.
#[test]
fn a_run_begins_100000_statements(rt: HostRuntime) -> Result<(), Fail> {
    let alloc = rt.alloc();
    let whole = long_text(alloc, 998)?;
    assert!(rt; ended(played(alloc, whole.as_str(), &[])?, How::Normal, 0, 1000));
    let more = long_text(alloc, 999)?;
    assert!(rt;
        ended(
            played(alloc, more.as_str(), &[])?,
            How::ActionLimit,
            0,
            1000
        )
    );
    Ok(())
}

/// The length of a value that is a text, or nothing of one that is `$null`.
fn length(value: &Val) -> Option<usize> {
    match value {
        Val::Text(text) => Some(text.bytes().len()),
        _ => None,
    }
}

/// The variable, or the reason of a reply that is asked for, where the first ask is answered by a text of so many bytes.
fn told_length(alloc: Global, text: &str, count: usize) -> Result<Option<usize>, AllocError> {
    let answers = [HostAnswer::Value(Val::Text(Text::of(vec![in alloc; b'x'; count]?)))];
    match played(alloc, text, &answers)? {
        Played::Ended(env, How::Normal, 1) => match env.vars.as_slice() {
            [value] => Ok(length(value)),
            _ => Ok(Some(1)),
        },
        Played::Needs(HostAsk::Call(Func::SlSendReply(200), values)) => match values.as_slice() {
            [value] => Ok(length(value)),
            _ => Ok(Some(1)),
        },
        _ => Ok(Some(1)),
    }
}

#[test]
fn a_text_above_8192_bytes_is_null(rt: HostRuntime) -> Result<(), Fail> {
    let alloc = rt.alloc();
    let reads = "request_route { $var(a) = $ru; }";
    assert_eq!(rt; told_length(alloc, reads, 8192)?, Some(8192));
    assert_eq!(rt; told_length(alloc, reads, 8193)?, None);
    let answers = "request_route { $var(a) = $ru; sl_send_reply(\"200\", \"$var(a)$var(a)\"); }";
    assert_eq!(rt; told_length(alloc, answers, 0)?, Some(0));
    assert_eq!(rt; told_length(alloc, answers, 4096)?, Some(8192));
    assert_eq!(rt; told_length(alloc, answers, 4097)?, None);
    Ok(())
}

/// The run asks for `t_relay()`, and ends with this variable where it is answered so.
fn relays(
    alloc: Global,
    run: &mut Run,
    loaded: &Loaded,
    code: i64,
    wanted: i64,
) -> Result<bool, AllocError> {
    let mut matchers = loaded.patterns.matchers(alloc)?;
    let asks = run.advance(alloc, loaded, HostAnswer::Start, &mut matchers);
    let is_relay = matches!(run.asked(loaded), AskView::Call(Func::TRelay, []));
    let ends = run.advance(alloc, loaded, HostAnswer::Code(code), &mut matchers);
    let again = run.advance(alloc, loaded, HostAnswer::Start, &mut matchers);
    let (env, how) = run.close(alloc);
    Ok(
        asks == Went::Asks
            && is_relay
            && ends == Went::Ended
            && again == Went::Ended
            && how == How::Normal
            && matches!(env.vars.as_slice(), [Val::Int(n)] if *n == wanted),
    )
}

#[test]
fn a_run_is_used_again(rt: HostRuntime) -> Result<(), Fail> {
    let alloc = rt.alloc();
    let Some(loaded) = loaded(alloc, RELAYS)? else {
        return Err("refused".into());
    };
    let mut run = Run::begin(alloc, &loaded, 0, start(alloc)?)?;
    assert!(rt; relays(alloc, &mut run, &loaded, 1, 0)?);
    run.restart(&loaded, 0, start(alloc)?);
    assert!(rt; relays(alloc, &mut run, &loaded, -2, 5)?);
    Ok(())
}

const COPIES: &str = r#"
modparam("htable", "htable", "s=>") modparam("htable", "htable", "t=>")
request_route { $sht(t=>k$rc) = $shtex(s=>k$rc); }
"#;

#[test]
fn an_item_is_asked_under_its_key(rt: HostRuntime) -> Result<(), Fail> {
    let alloc = rt.alloc();
    let Some(loaded) = loaded(alloc, COPIES)? else {
        return Err("refused".into());
    };
    let mut matchers = loaded.patterns.matchers(alloc)?;
    let mut run = Run::begin(alloc, &loaded, 0, start(alloc)?)?;
    assert!(rt; run.advance(alloc, &loaded, HostAnswer::Start, &mut matchers) == Went::Asks);
    assert!(rt;
        matches!(
            run.asked(&loaded),
            AskView::Read(VariableView::Item(TableUse::Seconds, 0, b"k0"))
        )
    );
    let answer = HostAnswer::Value(Val::Int(7));
    assert!(rt; run.advance(alloc, &loaded, answer, &mut matchers) == Went::Asks);
    assert!(rt;
        matches!(
            run.asked(&loaded),
            AskView::Write(VariableView::Item(TableUse::Item, 1, b"k0"), Val::Int(7))
        )
    );
    assert!(rt; run.advance(alloc, &loaded, HostAnswer::Written, &mut matchers) == Went::Ended);
    Ok(())
}
