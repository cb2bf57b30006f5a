//! Parts of expanded texts, and what is made of them.

ghost use Rattle.std.specs.Prelude.{◌≡◌, ◌∷◌, [], IfOk};
ghost use Rattle.cfg_code.specs.Code.{part_code, concats_code, expansion_code, arguments_code};

use crate::text::{begun, ended, one};
use cfg_code::Instr;
use cfg_tree::Part;
use pv_values::{Text, Val};
use sqlite_items::Items;
use std::alloc::{AllocError as NoMemory, Global};

#[cycle(parts)]
pub fn part_text(alloc: Global, part: &Part) -> Result<Items<Instr>, NoMemory>
    ensures { IfOk result (λ text. text ≡ part_code part.now) }
{
    match part {
        Part::Text(text) => one(alloc, Instr::Push(Val::Text(text.copy(alloc)?))),
        Part::Var(x) => one(alloc, Instr::Load(*x)),
        Part::Code => one(alloc, Instr::LoadCode),
        Part::Host(variable) => one(alloc, Instr::Read(variable.copy(alloc)?)),
        Part::Item(way, table, key) => {
            let parts = concats_text(alloc, key.as_slice())?;
            let key = expansion(alloc, parts)?;
            ended(key, Instr::ReadItem(*way, *table))
        }
        Part::Transformed(transformation, part) => {
            let text = part_text(alloc, part.get())?;
            ended(text, Instr::Transform(*transformation))
        }
    }
}

/// The parts, each put after the text on the stack.
#[cycle(parts)]
fn concats_text(alloc: Global, parts: &[Part]) -> Result<Items<Instr>, NoMemory>
    ensures { IfOk result (λ text. text ≡ concats_code parts.now) }
{
    let mut text = Items::new(alloc);
    for part in parts {
        let part = part_text(alloc, part)?;
        text.append(ended(part, Instr::Concat)?)?;
    }
    Ok(text)
}

/// An expanded text of these parts.
fn expansion(alloc: Global, parts: Items<Instr>) -> Result<Items<Instr>, NoMemory>
    ensures { IfOk result (λ text. text ≡ Instr.Push (Val.Text []) ∷ parts) }
{
    let nothing = Val::Text(Text::of(Vec::new(alloc)));
    begun(alloc, Instr::Push(nothing), parts)
}

pub fn expansion_text(alloc: Global, parts: &[Part]) -> Result<Items<Instr>, NoMemory>
    ensures { IfOk result (λ text. text ≡ expansion_code parts.now) }
{
    let parts = concats_text(alloc, parts)?;
    expansion(alloc, parts)
}

/// The arguments of a call, from left to right.
pub fn arguments_text(alloc: Global, arguments: &[Items<Part>]) -> Result<Items<Instr>, NoMemory>
    ensures { IfOk result (λ text. text ≡ arguments_code arguments.now) }
{
    let mut text = Items::new(alloc);
    for argument in arguments {
        let argument = expansion_text(alloc, argument.as_slice())?;
        text.append(ended(argument, Instr::PushArgument)?)?;
    }
    Ok(text)
}
