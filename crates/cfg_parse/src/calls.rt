//! Words, variables, arguments and calls.

ghost use Rattle.std.specs.Prelude.{◌≡◌, pos, ◌≤ℤ◌, IfOk};
ghost use Rattle.cfg_tree.specs.declared.token.Mark.TheVariants.{Comma};
ghost use Rattle.cfg_parse.specs.Reader.{Reads, behind_mark};
ghost use Rattle.cfg_parse.specs.Calls as spec;

use crate::fault::Fault;
use crate::repeat::many;
use crate::tokens::Tokens;
use cfg_tree::{Keyword, Lexeme, Mark, RawArg, RawCall, RawVariable, Variable, Word};
use pv_values::{Place, Text};
use sqlite_items::Items;
use std::alloc::{AllocError, Global};

/// A copy of a text, where it stands.
pub fn word(alloc: Global, text: &Text, at: Place) -> Result<Word, AllocError>
    ensures { IfOk result (λ w. w ≡ record { text = text.now; at = at }) }
{
    Ok(Word {
        text: text.copy(alloc)?,
        at,
    })
}

fn part(alloc: Global, part: &Option<Text>) -> Result<Option<Text>, AllocError>
    ensures { IfOk result (λ copy. copy ≡ part.now) }
{
    match part {
        Some(text) => Ok(Some(text.copy(alloc)?)),
        None => Ok(None),
    }
}

fn variable_at(alloc: Global, variable: &Variable, at: Place) -> Result<RawVariable, AllocError>
    ensures { IfOk result (λ v. v ≡ record { variable = variable.now; at = at }) }
{
    Ok(RawVariable {
        variable: Variable {
            name: variable.name.copy(alloc)?,
            inner: part(alloc, &variable.inner)?,
            transformation: part(alloc, &variable.transformation)?,
        },
        at,
    })
}

/// NUMBER
#[tactic(auto, unfolding(crate::specs::Calls::number, crate::specs::Reader::one, crate::specs::Reader::first, crate::specs::Reader::next, crate::specs::Reader::passed))]
pub fn number(tokens: &mut Tokens<'_>) -> Result<i64, Fault>
    ensures value { Reads (spec.number tokens.old) result tokens.new }
    ensures not_negative { IfOk result (λ n. pos 0 ≤ℤ n) }
{
    match tokens.first() {
        Some(Lexeme::Number(n)) if *n >= 0 => {
            tokens.pass();
            Ok(*n)
        }
        _ => Err(tokens.refuse()),
    }
}

/// STRING
#[tactic(auto, unfolding(crate::specs::Calls::string, crate::specs::Reader::one, crate::specs::Reader::first, crate::specs::Reader::next, crate::specs::Reader::passed))]
pub fn string(alloc: Global, tokens: &mut Tokens<'_>) -> Result<Word, Fault>
    ensures { Reads (spec.string tokens.old) result tokens.new }
{
    let Some(Lexeme::String(text)) = tokens.first() else {
        return Err(tokens.refuse());
    };
    Ok(word(alloc, text, tokens.pass())?)
}

/// NAME
#[tactic(auto, unfolding(crate::specs::Calls::name, crate::specs::Reader::one, crate::specs::Reader::first, crate::specs::Reader::next, crate::specs::Reader::passed))]
pub fn name(alloc: Global, tokens: &mut Tokens<'_>) -> Result<Word, Fault>
    ensures { Reads (spec.name tokens.old) result tokens.new }
{
    let Some(Lexeme::Name(text)) = tokens.first() else {
        return Err(tokens.refuse());
    };
    Ok(word(alloc, text, tokens.pass())?)
}

/// BNAME
#[tactic(auto, unfolding(crate::specs::Calls::read_block_name, crate::specs::Reader::one, crate::specs::Reader::first, crate::specs::Reader::next, crate::specs::Reader::passed))]
pub fn block_name(alloc: Global, tokens: &mut Tokens<'_>) -> Result<Word, Fault>
    ensures { Reads (spec.read_block_name tokens.old) result tokens.new }
{
    let Some(Lexeme::BlockName(text)) = tokens.first() else {
        return Err(tokens.refuse());
    };
    Ok(word(alloc, text, tokens.pass())?)
}

/// `BNAME | STRING`
#[tactic(auto, unfolding(crate::specs::Calls::target, crate::specs::Reader::one, crate::specs::Reader::first, crate::specs::Reader::next, crate::specs::Reader::passed))]
fn target(alloc: Global, tokens: &mut Tokens<'_>) -> Result<Word, Fault>
    ensures { Reads (spec.target tokens.old) result tokens.new }
{
    let Some(Lexeme::BlockName(text) | Lexeme::String(text)) = tokens.first() else {
        return Err(tokens.refuse());
    };
    Ok(word(alloc, text, tokens.pass())?)
}

/// VAR
#[tactic(auto, unfolding(crate::specs::Calls::variable, crate::specs::Reader::one, crate::specs::Reader::first, crate::specs::Reader::next, crate::specs::Reader::passed))]
pub fn variable(alloc: Global, tokens: &mut Tokens<'_>) -> Result<RawVariable, Fault>
    ensures { Reads (spec.variable tokens.old) result tokens.new }
{
    let Some(Lexeme::Variable(v)) = tokens.first() else {
        return Err(tokens.refuse());
    };
    Ok(variable_at(alloc, v, tokens.pass())?)
}

/// `STRING | ["-"] NUMBER | VAR`
#[tactic(auto, unfolding(crate::specs::Calls::argument))]
fn argument(alloc: Global, tokens: &mut Tokens<'_>) -> Result<RawArg, Fault>
    ensures { Reads (spec.argument tokens.old) result tokens.new }
{
    match tokens.first() {
        Some(Lexeme::String(_)) => Ok(RawArg::String(string(alloc, tokens)?)),
        Some(Lexeme::Number(_)) => Ok(RawArg::Number(number(tokens)?)),
        Some(Lexeme::Mark(Mark::Minus)) => {
            tokens.pass();
            Ok(RawArg::Number(-number(tokens)?))
        }
        _ => Ok(RawArg::Variable(variable(alloc, tokens)?)),
    }
}

/// The argument after a comma, if one comes.
fn next_argument(alloc: Global, tokens: &mut Tokens<'_>) -> Result<Option<RawArg>, Fault>
    ensures { Reads (behind_mark Comma spec.argument tokens.old) result tokens.new }
{
    if tokens.eat_mark(Mark::Comma) {
        Ok(Some(argument(alloc, tokens)?))
    } else {
        Ok(None)
    }
}

/// `[ arg { "," arg } ] ")"`
#[tactic(auto, unfolding(crate::specs::Calls::arguments, crate::specs::Calls::more_arguments))]
fn arguments(alloc: Global, tokens: &mut Tokens<'_>) -> Result<Items<RawArg>, Fault>
    ensures { Reads (spec.arguments tokens.old) result tokens.new }
{
    let mut found = Items::new(alloc);
    if tokens.eat_mark(Mark::CloseRound) {
        return Ok(found);
    }
    found.push(argument(alloc, tokens)?)?;
    let found = many(tokens, found, |tokens| next_argument(alloc, tokens))?;
    tokens.mark(Mark::CloseRound)?;
    Ok(found)
}

/// `NAME "(" [ arg { "," arg } ] ")"`
#[tactic(auto, unfolding(crate::specs::Calls::read_function_call))]
fn function_call(alloc: Global, tokens: &mut Tokens<'_>) -> Result<RawCall, Fault>
    ensures { Reads (spec.read_function_call tokens.old) result tokens.new }
{
    let name = name(alloc, tokens)?;
    tokens.mark(Mark::OpenRound)?;
    Ok(RawCall::Function(name, arguments(alloc, tokens)?))
}

/// `"route" "(" ( BNAME | STRING ) ")"`
#[tactic(auto, unfolding(crate::specs::Calls::route_call))]
fn route_call(alloc: Global, tokens: &mut Tokens<'_>) -> Result<RawCall, Fault>
    ensures { Reads (spec.route_call tokens.old) result tokens.new }
{
    tokens.keyword(Keyword::Route)?;
    tokens.mark(Mark::OpenRound)?;
    let target = target(alloc, tokens)?;
    tokens.mark(Mark::CloseRound)?;
    Ok(RawCall::Route(target))
}

/// A call of a function or a route.
#[tactic(auto, unfolding(crate::specs::Calls::call_of))]
pub fn call(alloc: Global, tokens: &mut Tokens<'_>) -> Result<RawCall, Fault>
    ensures { Reads (spec.call_of tokens.old) result tokens.new }
{
    match tokens.first() {
        Some(Lexeme::Keyword(Keyword::Route)) => route_call(alloc, tokens),
        _ => function_call(alloc, tokens),
    }
}
