//! What is made of values.

ghost use Rattle.std.specs.Prelude.{◌≡◌, IfOk, slice_get};
ghost use Rattle.pv_values.specs.Values.{negated, code_of, value_read, told_value, told_code};
ghost use Rattle.cfg_tree.specs.Meaning.{matched, end_of};

use pv_values::{BinOp, HostAnswer, How, Matchers, Val, as_int, as_text, operate, text_value};
use std::alloc::{AllocError as NoMemory, Global};

/// 0 without a number.
pub fn negative(alloc: Global, v: Val) -> Result<Val, NoMemory>
    ensures { IfOk result (λ w. w ≡ negated v) }
{
    operate(alloc, BinOp::Sub, Val::Int(0), v)
}

/// The pattern of this number matches in a value.
#[tactic(auto, using(crate::proofs::Matches::null_matched, crate::proofs::Matches::number_matched, crate::proofs::Matches::text_matched))]
pub fn matches(
    alloc: Global,
    matchers: &mut Matchers,
    number: u32,
    v: &Val,
) -> Result<bool, NoMemory>
    ensures found { IfOk result (λ found. found ≡ matched (slice_get matchers.old number) v.now) }
    ensures same { matchers.new ≡ matchers.old }
{
    let found = match v {
        Val::Null => None,
        Val::Int(_) => matchers.is_match(number, as_text(alloc, v)?.bytes()),
        Val::Text(text) => matchers.is_match(number, text.bytes()),
    };
    Ok(found.unwrap_or(false))
}

/// What a `return` with this value returns.
pub fn returned_code(v: &Val) -> i64
    ensures { result ≡ code_of v.now }
{
    match as_int(v) {
        Some(n) => n,
        None => 1,
    }
}

/// How a run ends whose first block gives back this code.
pub fn ending(code: i64) -> How
    ensures { result ≡ end_of code }
{
    if code == 0 {
        How::Exit
    } else {
        How::Return(code)
    }
}

/// An answer as a value.
pub fn answered_value(answer: HostAnswer) -> Val
    ensures { result ≡ told_value answer }
{
    match answer {
        HostAnswer::Value(v) => read_value(v),
        _ => Val::Null,
    }
}

/// A value that is read: a text above 8,192 bytes is `$null`.
fn read_value(v: Val) -> Val
    ensures { result ≡ value_read v }
{
    match v {
        Val::Text(text) => text_value(text),
        other => other,
    }
}

/// An answer as a code.
pub fn answered_code(answer: HostAnswer) -> i64
    ensures { result ≡ told_code answer }
{
    match answer {
        HostAnswer::Code(n) => n,
        _ => 0,
    }
}
