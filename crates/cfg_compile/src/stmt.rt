//! Statements.

ghost use Rattle.std.specs.Prelude.{◌≡◌, IfOk};
ghost use Rattle.cfg_code.specs.Code.{stmt_code, list_code, set_text, if_text, while_text, case_text, switch_text};

use crate::expr::{Wanted, expr_text};
use crate::part::expansion_text;
use crate::text::{begun, between, both, ended, offset, one, two};
use cfg_code::Instr;
use cfg_tree::{Stmt, Target};
use pv_values::Val;
use sqlite_items::Items;
use std::alloc::{AllocError as NoMemory, Global};

#[cycle(stmts)]
fn stmt_text(alloc: Global, s: &Stmt) -> Result<Items<Instr>, NoMemory>
    ensures { IfOk result (λ text. text ≡ stmt_code s.now) }
{
    match s {
        Stmt::Set(target, e) => {
            let value = expr_text(alloc, e, Wanted::Value)?;
            assignment(alloc, target, value)
        }
        Stmt::Do(e) => {
            let call = expr_text(alloc, e, Wanted::Value)?;
            ended(call, Instr::Pop)
        }
        Stmt::If(e, first, other) => {
            let test = expr_text(alloc, e, Wanted::Truth)?;
            let first = list_text(alloc, first.as_slice())?;
            let other = list_text(alloc, other.as_slice())?;
            choice(alloc, test, first, other)
        }
        Stmt::While(e, body) => {
            let test = expr_text(alloc, e, Wanted::Truth)?;
            let body = list_text(alloc, body.as_slice())?;
            repeated(alloc, test, body)
        }
        Stmt::Switch(e, cases, default) => {
            let value = expr_text(alloc, e, Wanted::Value)?;
            let mut texts = Items::new(alloc);
            for case in cases.as_slice() {
                let body = list_text(alloc, case.1.as_slice())?;
                texts.append(one_case(alloc, &case.0, body)?)?;
            }
            let default = list_text(alloc, default.as_slice())?;
            chosen(alloc, value, texts, default)
        }
        Stmt::Break => one(alloc, Instr::Break),
        Stmt::Return(None) => {
            let value = one(alloc, Instr::Push(Val::Int(1)))?;
            between(alloc, Instr::CountStatement, value, Instr::Return)
        }
        Stmt::Return(Some(e)) => {
            let value = expr_text(alloc, e, Wanted::Value)?;
            between(alloc, Instr::CountStatement, value, Instr::Return)
        }
        Stmt::Exit => two(alloc, Instr::CountStatement, Instr::Exit),
        Stmt::Drop => two(alloc, Instr::CountStatement, Instr::Drop),
    }
}

/// The statements of a list.
#[cycle(stmts)]
pub fn list_text(alloc: Global, block: &[Stmt]) -> Result<Items<Instr>, NoMemory>
    ensures { IfOk result (λ text. text ≡ list_code block.now) }
{
    let mut text = Items::new(alloc);
    for s in block {
        text.append(stmt_text(alloc, s)?)?;
    }
    Ok(text)
}

/// An assignment of a value: a key comes before it.
fn assignment(alloc: Global, target: &Target, value: Items<Instr>) -> Result<Items<Instr>, NoMemory>
    ensures { IfOk result (λ text. text ≡ set_text target.now value) }
{
    match target {
        Target::Var(x) => between(alloc, Instr::CountStatement, value, Instr::Store(*x)),
        Target::Host(variable) => {
            let last = Instr::Write(variable.copy(alloc)?);
            between(alloc, Instr::CountStatement, value, last)
        }
        Target::Item(way, table, key) => {
            let key = expansion_text(alloc, key.as_slice())?;
            let value = ended(value, Instr::WriteItem(*way, *table))?;
            begun(alloc, Instr::CountStatement, both(key, value)?)
        }
    }
}

fn choice(
    alloc: Global,
    test: Items<Instr>,
    first: Items<Instr>,
    other: Items<Instr>,
) -> Result<Items<Instr>, NoMemory>
    ensures { IfOk result (λ text. text ≡ if_text test first other) }
{
    let skip = offset(first.len(), 1)?;
    let pass = offset(other.len(), 0)?;
    let mut text = one(alloc, Instr::CountStatement)?;
    text.append(test)?;
    text.push(Instr::JumpIfFalse(skip))?;
    text.append(first)?;
    text.push(Instr::Jump(pass))?;
    text.append(other)?;
    Ok(text)
}

fn repeated(alloc: Global, test: Items<Instr>, body: Items<Instr>) -> Result<Items<Instr>, NoMemory>
    ensures { IfOk result (λ text. text ≡ while_text test body) }
{
    let skip = offset(body.len(), 2)?;
    let inside = offset(body.len(), 4)?;
    let end = offset(test.len(), inside)?;
    let mut text = two(alloc, Instr::CountStatement, Instr::BeginLoop(end))?;
    text.append(test)?;
    text.push(Instr::JumpIfFalse(skip))?;
    text.push(Instr::BeginRound)?;
    text.append(body)?;
    text.push(Instr::LoopBack)?;
    text.push(Instr::EndLoop)?;
    Ok(text)
}

fn one_case(alloc: Global, label: &Val, body: Items<Instr>) -> Result<Items<Instr>, NoMemory>
    ensures { IfOk result (λ text. text ≡ case_text label.now body) }
{
    let skip = offset(body.len(), 1)?;
    let test = Instr::Case(label.copy(alloc)?, skip);
    between(alloc, test, body, Instr::Jump(1))
}

fn chosen(
    alloc: Global,
    value: Items<Instr>,
    cases: Items<Instr>,
    default: Items<Instr>,
) -> Result<Items<Instr>, NoMemory>
    ensures { IfOk result (λ text. text ≡ switch_text value cases default) }
{
    let first = offset(value.len(), 0)?;
    let second = offset(cases.len(), first)?;
    let third = offset(default.len(), second)?;
    let end = offset(third as usize, 2)?;
    let mut text = two(alloc, Instr::CountStatement, Instr::BeginLoop(end))?;
    text.append(value)?;
    text.append(cases)?;
    text.push(Instr::Pop)?;
    text.append(default)?;
    text.push(Instr::EndLoop)?;
    Ok(text)
}
