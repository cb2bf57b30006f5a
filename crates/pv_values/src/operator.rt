//! The binary operators of the language on values (Kamailio core cookbook, "Operators").

ghost use Rattle.std.specs.Prelude.{◌≡◌, false, int_lt, int_le, IfOk, ◌++◌};
ghost use Rattle.std.specs.Option.{option_map_or};
ghost use Rattle.pv_values.specs.Values.{binary_value, sum_of, same, bit, of_both, number_of, limited, is_number as is_the_number};

use crate::text::Text;
use crate::value::{Val, as_int, into_text};
use std::alloc::{AllocError as NoMemory, Global};

/// The binary operators, but for `=~`, `&&` and `||`.
#[derive(Clone, Copy, Debug, PartialEq, Eq)]
pub enum BinOp {
    /// `+`
    Add,
    /// `-`
    Sub,
    /// `*`
    Mul,
    /// `/`
    Div,
    /// `mod`
    Rem,
    /// `==`
    Eq,
    /// `!=`
    Ne,
    /// `<`
    Lt,
    /// `>`
    Gt,
    /// `<=`
    Le,
    /// `>=`
    Ge,
}

/// The longest text of a value, in bytes.
pub const LONGEST_TEXT: usize = 8192;

/// What the operator gives for these values, which are looked at. Each is copied first: `operate` takes them as they are.
pub fn binary(alloc: Global, op: BinOp, a: &Val, b: &Val) -> Result<Val, NoMemory>
    ensures { IfOk result (λ v. v ≡ binary_value op a.now b.now) }
{
    operate(alloc, op, a.copy(alloc)?, b.copy(alloc)?)
}

/// What the operator gives for these values. Only `+` on a text may take memory.
pub fn operate(alloc: Global, op: BinOp, a: Val, b: Val) -> Result<Val, NoMemory>
    ensures { IfOk result (λ v. v ≡ binary_value op a b) }
{
    match op {
        BinOp::Add => sum(alloc, a, b),
        BinOp::Sub => Ok(difference(&a, &b)),
        BinOp::Mul => Ok(product(&a, &b)),
        BinOp::Div => Ok(quotient(&a, &b)),
        BinOp::Rem => Ok(remainder(&a, &b)),
        BinOp::Eq => Ok(bit_value(is_same(&a, &b))),
        BinOp::Ne => Ok(bit_value(!is_same(&a, &b))),
        BinOp::Lt => Ok(bit_value(is_less(&a, &b))),
        BinOp::Gt => Ok(bit_value(is_less(&b, &a))),
        BinOp::Le => Ok(bit_value(is_at_most(&a, &b))),
        BinOp::Ge => Ok(bit_value(is_at_most(&b, &a))),
    }
}

/// 1 or 0.
pub fn bit_value(b: bool) -> Val
    ensures { result ≡ bit b }
{
    if b { Val::Int(1) } else { Val::Int(0) }
}

/// A text as a value: one above 8,192 bytes is `$null`.
pub fn text_value(text: Text) -> Val
    ensures { result ≡ limited text }
{
    if text.bytes().len() <= LONGEST_TEXT {
        Val::Text(text)
    } else {
        Val::Null
    }
}

/// A number as a value: one that passed 64 bits is `$null`.
fn number_value(n: Option<i64>) -> Val
    ensures { result ≡ option_map_or Val.Int n Val.Null }
{
    match n {
        Some(n) => Val::Int(n),
        None => Val::Null,
    }
}

/// What `+` gives. A text is extended where it lies, and never past 8,192 bytes.
pub fn sum(alloc: Global, a: Val, b: Val) -> Result<Val, NoMemory>
    ensures { IfOk result (λ v. v ≡ sum_of a b) }
{
    match a {
        Val::Null => Ok(Val::Null),
        Val::Int(x) => Ok(total(x, &b)),
        Val::Text(front) => joined(front, into_text(alloc, b)?),
    }
}

/// A number, and the number of a value, added.
fn total(x: i64, b: &Val) -> Val
    ensures { result ≡ sum_of (Val.Int x) b.now }
{
    match as_int(b) {
        Some(y) => number_value(x.checked_add(y)),
        None => Val::Null,
    }
}

/// The two texts, one after the other, or `$null` where they have more than 8,192 bytes.
fn joined(front: Text, back: Text) -> Result<Val, NoMemory>
    ensures { IfOk result (λ v. v ≡ limited (front ++ back)) }
{
    if front.bytes().is_empty() {
        return Ok(text_value(back));
    }
    if front.bytes().len() + back.bytes().len() > LONGEST_TEXT {
        return Ok(Val::Null);
    }
    let mut whole = front;
    whole.append(back.bytes())?;
    Ok(Val::Text(whole))
}

fn difference(a: &Val, b: &Val) -> Val
    ensures { result ≡ binary_value BinOp.Sub a.now b.now }
{
    match (as_int(a), as_int(b)) {
        (Some(x), Some(y)) => number_value(x.checked_sub(y)),
        _ => Val::Null,
    }
}

fn product(a: &Val, b: &Val) -> Val
    ensures { result ≡ binary_value BinOp.Mul a.now b.now }
{
    match (as_int(a), as_int(b)) {
        (Some(x), Some(y)) => number_value(x.checked_mul(y)),
        _ => Val::Null,
    }
}

fn quotient(a: &Val, b: &Val) -> Val
    ensures { result ≡ binary_value BinOp.Div a.now b.now }
{
    match (as_int(a), as_int(b)) {
        (Some(x), Some(y)) => number_value(x.checked_div(y)),
        _ => Val::Null,
    }
}

fn remainder(a: &Val, b: &Val) -> Val
    ensures { result ≡ binary_value BinOp.Rem a.now b.now }
{
    match (as_int(a), as_int(b)) {
        // The greatest number below 0 by -1 leaves nothing, though its quotient passes 64 bits.
        (Some(_), Some(-1)) => Val::Int(0),
        (Some(x), Some(y)) => number_value(x.checked_rem(y)),
        _ => Val::Null,
    }
}

/// `==`: numbers, texts byte by byte, `$null` with itself, and a number with a text's number.
pub fn is_same(a: &Val, b: &Val) -> bool
    ensures { result ≡ same a.now b.now }
{
    match (a, b) {
        (Val::Null, Val::Null) => true,
        (Val::Int(x), Val::Int(y)) => x == y,
        (Val::Int(x), Val::Text(_)) => is_number(*x, as_int(b)),
        (Val::Text(_), Val::Int(y)) => is_number(*y, as_int(a)),
        (Val::Text(s), Val::Text(t)) => s.is_same(t),
        _ => false,
    }
}

fn is_number(x: i64, number: Option<i64>) -> bool
    ensures { result ≡ is_the_number x number }
{
    match number {
        Some(y) => x == y,
        None => false,
    }
}

fn is_less(a: &Val, b: &Val) -> bool
    ensures { result ≡ of_both int_lt false (number_of a.now) (number_of b.now) }
{
    match (as_int(a), as_int(b)) {
        (Some(x), Some(y)) => x < y,
        _ => false,
    }
}

fn is_at_most(a: &Val, b: &Val) -> bool
    ensures { result ≡ of_both int_le false (number_of a.now) (number_of b.now) }
{
    match (as_int(a), as_int(b)) {
        (Some(x), Some(y)) => x <= y,
        _ => false,
    }
}
