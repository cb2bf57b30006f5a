//! Texts of instructions, made of the texts of parts.

ghost use Rattle.std.specs.Prelude.{◌≡◌, ◌+◌, ◌^◌, ◌≤◌, ◌++◌, ◌∷◌, [], IfOk, IfErr};
ghost use Rattle.cfg_code.specs.Code.{argument_text, called_text, link_text, and_text, or_text};
ghost use Rattle.cfg_compile.specs.Wanted.{as_meant};

use crate::expr::Wanted;
use cfg_code::Instr;
use pv_values::BinOp;
use sqlite_items::Items;
use std::alloc::{AllocError as NoMemory, Global};

pub fn one(alloc: Global, instr: Instr) -> Result<Items<Instr>, NoMemory>
    ensures { IfOk result (λ text. text ≡ instr ∷ []) }
{
    let mut text = Items::new(alloc);
    text.push(instr)?;
    Ok(text)
}

pub fn two(alloc: Global, first: Instr, second: Instr) -> Result<Items<Instr>, NoMemory>
    ensures { IfOk result (λ text. text ≡ first ∷ second ∷ []) }
{
    let mut text = Items::new(alloc);
    text.push(first)?;
    text.push(second)?;
    Ok(text)
}

/// A text, and one instruction after it.
pub fn ended(text: Items<Instr>, last: Instr) -> Result<Items<Instr>, NoMemory>
    ensures { IfOk result (λ whole. whole ≡ text ++ last ∷ []) }
{
    let mut whole = text;
    whole.push(last)?;
    Ok(whole)
}

/// Two texts, one after the other.
pub fn both(first: Items<Instr>, second: Items<Instr>) -> Result<Items<Instr>, NoMemory>
    ensures { IfOk result (λ text. text ≡ first ++ second) }
{
    let mut text = first;
    text.append(second)?;
    Ok(text)
}

/// One instruction, and a text after it.
pub fn begun(alloc: Global, first: Instr, text: Items<Instr>) -> Result<Items<Instr>, NoMemory>
    ensures { IfOk result (λ whole. whole ≡ first ∷ text) }
{
    both(one(alloc, first)?, text)
}

/// A text between two instructions.
pub fn between(
    alloc: Global,
    first: Instr,
    text: Items<Instr>,
    last: Instr,
) -> Result<Items<Instr>, NoMemory>
    ensures { IfOk result (λ whole. whole ≡ first ∷ (text ++ last ∷ [])) }
{
    begun(alloc, first, ended(text, last)?)
}

/// A call, which is counted, and then its code.
pub fn called(alloc: Global, call: Items<Instr>, wanted: Wanted) -> Result<Items<Instr>, NoMemory>
    ensures { IfOk result (λ text. text ≡ called_text call (as_meant wanted)) }
{
    let code = match wanted {
        Wanted::Value => Instr::LoadCode,
        Wanted::Truth => Instr::LoadSuccess,
    };
    let last = two(alloc, Instr::ExitOnZero, code)?;
    begun(alloc, Instr::CountStatement, both(call, last)?)
}

/// A text, and an operand that is linked to its value.
pub fn linked(
    first: Items<Instr>,
    op: BinOp,
    operand: Items<Instr>,
) -> Result<Items<Instr>, NoMemory>
    ensures { IfOk result (λ text. text ≡ first ++ link_text op operand) }
{
    let link = ended(operand, Instr::Binary(op))?;
    both(first, link)
}

/// An operand of `&&`, after the ones before it.
pub fn and_operand(alloc: Global, operand: Items<Instr>) -> Result<Items<Instr>, NoMemory>
    ensures { IfOk result (λ text. text ≡ and_text operand) }
{
    let skip = offset(operand.len(), 1)?;
    between(alloc, Instr::JumpIfFalseOrPop(skip), operand, Instr::ToBool)
}

/// An operand of `||`, after the ones before it.
pub fn or_operand(alloc: Global, operand: Items<Instr>) -> Result<Items<Instr>, NoMemory>
    ensures { IfOk result (λ text. text ≡ or_text operand) }
{
    let skip = offset(operand.len(), 1)?;
    between(alloc, Instr::JumpIfTrueOrPop(skip), operand, Instr::ToBool)
}

/// A length and some more, as a jump has it. Where that is 2 ^ 31 or more, and nowhere else, it counts as out of
/// memory: the code would have as many instructions.
pub fn offset(length: usize, more: u32) -> Result<u32, NoMemory>
    ensures sum { IfOk result (λ n. n ≡ length + more) }
    ensures long { IfErr result (λ _. 2 ^ 31 ≤ length + more) }
{
    if length >= 0x8000_0000 || more >= 0x8000_0000 {
        return Err(NoMemory);
    }
    Ok(length as u32 + more)
}
