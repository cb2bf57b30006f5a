//! Expressions.

ghost use Rattle.std.specs.Prelude.{◌≡◌, IfOk};
ghost use Rattle.cfg_tree.specs.Meaning.{AsTruth};
ghost use Rattle.cfg_code.specs.Code.{expr_code, ands_code, ors_code};
ghost use Rattle.cfg_compile.specs.Wanted.{as_meant};

use crate::part::{arguments_text, part_text};
use crate::text::{and_operand, begun, both, called, ended, linked, one, or_operand};
use cfg_code::Instr;
use cfg_tree::Expr;
use pv_values::{Val, bit_value, text_value};
use sqlite_items::Items;
use std::alloc::{AllocError as NoMemory, Global};

/// What an expression is read for: they differ for a call.
#[derive(Clone, Copy, Debug, PartialEq, Eq)]
pub enum Wanted {
    Value,
    Truth,
}

#[cycle(exprs)]
pub fn expr_text(alloc: Global, e: &Expr, wanted: Wanted) -> Result<Items<Instr>, NoMemory>
    ensures { IfOk result (λ text. text ≡ expr_code e.now (as_meant wanted)) }
{
    match e {
        Expr::Int(n) => one(alloc, Instr::Push(Val::Int(*n))),
        Expr::Text(text) => one(alloc, Instr::Push(text_value(text.copy(alloc)?))),
        Expr::Read(part) => part_text(alloc, part),
        Expr::Call(function, arguments) => {
            let arguments = arguments_text(alloc, arguments.as_slice())?;
            let call = ended(arguments, Instr::CallFunction(function.copy(alloc)?))?;
            called(alloc, call, wanted)
        }
        Expr::Route(block) => {
            let call = one(alloc, Instr::CallBlock(*block))?;
            called(alloc, call, wanted)
        }
        Expr::Not(a) => {
            let text = expr_text(alloc, a.get(), Wanted::Truth)?;
            ended(text, Instr::Not)
        }
        Expr::Negative(a) => {
            let text = expr_text(alloc, a.get(), Wanted::Value)?;
            ended(text, Instr::Negate)
        }
        Expr::Chain(a, links) => {
            let first = expr_text(alloc, a.get(), Wanted::Value)?;
            let mut tail = Items::new(alloc);
            for link in links.as_slice() {
                let operand = expr_text(alloc, &link.1, Wanted::Value)?;
                tail = linked(tail, link.0, operand)?;
            }
            both(first, tail)
        }
        Expr::Matches(a, pattern) => {
            let text = expr_text(alloc, a.get(), Wanted::Value)?;
            ended(text, Instr::Match(*pattern))
        }
        Expr::All(operands) => {
            let operands = ands_text(alloc, operands.as_slice())?;
            begun(alloc, Instr::Push(bit_value(true)), operands)
        }
        Expr::Any(operands) => {
            let operands = ors_text(alloc, operands.as_slice())?;
            begun(alloc, Instr::Push(bit_value(false)), operands)
        }
    }
}

/// The operands of `&&`.
#[cycle(exprs)]
fn ands_text(alloc: Global, operands: &[Expr]) -> Result<Items<Instr>, NoMemory>
    ensures { IfOk result (λ text. text ≡ ands_code operands.now) }
{
    let mut text = Items::new(alloc);
    for operand in operands {
        let operand = expr_text(alloc, operand, Wanted::Truth)?;
        text.append(and_operand(alloc, operand)?)?;
    }
    Ok(text)
}

/// The operands of `||`.
#[cycle(exprs)]
fn ors_text(alloc: Global, operands: &[Expr]) -> Result<Items<Instr>, NoMemory>
    ensures { IfOk result (λ text. text ≡ ors_code operands.now) }
{
    let mut text = Items::new(alloc);
    for operand in operands {
        let operand = expr_text(alloc, operand, Wanted::Truth)?;
        text.append(or_operand(alloc, operand)?)?;
    }
    Ok(text)
}
