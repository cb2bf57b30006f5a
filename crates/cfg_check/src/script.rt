//! A script: the check of a whole tree.

ghost use Rattle.std.specs.Prelude.{◌≡◌, ◌++◌, [], None, IfSome, IfNone, IfOk, OnOk, position};
ghost use Rattle.cfg_tree.specs.declared.raw.RawScript.{RawScript};
ghost use Rattle.cfg_tree.specs.Checks.{no_request, script_of};
ghost use Rattle.cfg_tree.specs.Refusals.{IsFirst};
ghost use Rattle.cfg_tree.specs.declared.raw.RouteKind.TheVariants.{Begins};
ghost use Rattle.cfg_tree.specs.Functions.{is_same_block};
ghost use Rattle.cfg_check.specs.Reading.{IsRead, IsJudged};

use crate::block::{blocks_in, bodies};
use cfg_calls::{Checker, Known, number};
use cfg_settings::{Refusal, Settings, settings_in};
use cfg_tree::laws::an_accepted_script_is_closed;
use cfg_tree::{ClosedScript, RawScript, RefusalKind, RouteKind, Script, Stmt};
use pv_values::{BlockKind, PatternText, Patterns, Place};
use sqlite_items::Items;
use std::alloc::{AllocError as NoMemory, Global};

/// What was read of a tree.
#[derive(Drop)]
struct Read {
    refusals: Items<Refusal>,
    settings: Settings,
    /// The statements of each block.
    blocks: Option<Items<Items<Stmt>>>,
    /// The number of `request_route`.
    request: Option<u32>,
    /// The number of `reply_route`.
    reply: Option<u32>,
    /// How many names of `$var` there are.
    vars: u32,
    patterns: Vec<PatternText>,
}

/// The first of the refusals: it begins first, and of those that begin at one byte it has the least kind.
fn first_refusal(refusals: &[Refusal]) -> Option<&Refusal>
    ensures found { IfSome result (λ r. IsFirst refusals.now r.now) }
    ensures none { IfNone result (refusals.now ≡ []) }
{
    let (first, rest) = refusals.split_first()?;
    let mut least = first;
    for refusal in rest {
        if !least.goes_before(refusal) {
            least = refusal;
        }
    }
    Some(least)
}

/// The number of the block of this kind without a name.
fn unnamed(known: &Known, kind: BlockKind) -> Result<Option<u32>, NoMemory>
    ensures { IfOk result (λ n. n ≡ position (is_same_block (Begins kind, None)) known.now.blocks) }
{
    match known.unnamed(RouteKind::Begins(kind)) {
        Some(place) => Ok(Some(number(place)?)),
        None => Ok(None),
    }
}

/// Refuses a tree that has no `request_route`, at its end.
fn refuse_without_request(
    checker: &mut Checker,
    raw: &RawScript,
    request: Option<u32>,
) -> Result<(), NoMemory>
    ensures seen { OnOk result (checker.new.seen ≡ checker.old.seen) }
    ensures refusals { OnOk result (checker.new.refusals ≡ checker.old.refusals ++ no_request raw.now request) }
{
    if request.is_none() {
        checker.note(RefusalKind::NoRequestRoute, end_of(raw))?;
    }
    Ok(())
}

/// What is read of a tree, and what is refused of it.
fn read_tree(alloc: Global, raw: &RawScript) -> Result<Read, NoMemory>
    ensures { IfOk result (IsRead raw.now) }
{
    let items = raw.items.as_slice();
    let mut refusals = Items::new(alloc);
    let settings = settings_in(alloc, items, &mut refusals)?;
    let blocks = blocks_in(alloc, items, &mut refusals)?;
    let known = Known::new(blocks, settings.table_names(alloc)?);
    let mut checker = Checker::new(alloc, refusals);
    let blocks = bodies(&mut checker, &known, items)?;
    let request = unnamed(&known, BlockKind::Request)?;
    refuse_without_request(&mut checker, raw, request)?;
    let reply = unnamed(&known, BlockKind::Reply)?;
    let (refusals, vars, patterns) = checker.into_parts()?;
    Ok(Read {
        refusals,
        settings,
        blocks,
        request,
        reply,
        vars,
        patterns,
    })
}

/// The end of the text, which is empty.
fn end_of(raw: &RawScript) -> Place
    ensures { result ≡ record { from = raw.now.end; to = raw.now.end } }
{
    Place {
        from: raw.end,
        to: raw.end,
    }
}

/// The patterns of these texts.
fn built(alloc: Global, texts: &[PatternText]) -> Result<Patterns, NoMemory>
    ensures { IfOk result (λ patterns. patterns ≡ texts.now) }
{
    let mut patterns = Vec::new(alloc);
    for text in texts {
        patterns.push(text.build(alloc)?)?;
    }
    Ok(Patterns::of(patterns))
}

/// The script that was read, with its patterns built, where its blocks were and it has a `request_route`.
fn script_of(alloc: Global, read: Read, patterns: Patterns) -> Result<Option<Script>, NoMemory>
    ensures { (raw : RawScript) → IsRead raw read → patterns ≡ read.patterns.items → IfOk result (λ script. script ≡ script_of raw) }
{
    let (parameters, tables) = read.settings.into_parts(alloc)?;
    match (read.blocks, read.request) {
        (Some(blocks), Some(request)) => Ok(Some(Script {
            blocks,
            request,
            reply: read.reply,
            vars: read.vars,
            patterns,
            tables,
            parameters,
        })),
        _ => Ok(None),
    }
}

/// The script that was read, for which its patterns are built now.
fn built_script(alloc: Global, read: Read) -> Result<Option<Script>, NoMemory>
    ensures { (raw : RawScript) → IsRead raw read → IfOk result (λ script. script ≡ script_of raw) }
{
    let patterns = built(alloc, &read.patterns)?;
    script_of(alloc, read, patterns)
}

/// The script that a tree stands for, which is closed, or its first refusal.
pub fn judged(alloc: Global, raw: &RawScript) -> Result<Result<ClosedScript, Refusal>, NoMemory>
    ensures { IfOk result (IsJudged raw.now) }
{
    an_accepted_script_is_closed();
    let read = read_tree(alloc, raw)?;
    if let Some(first) = first_refusal(read.refusals.as_slice()) {
        return Ok(Err(first.copy()));
    }
    match built_script(alloc, read)? {
        Some(script) => Ok(Ok(ClosedScript::new(script))),
        // A tree of which nothing is refused stands for a script.
        None => unreachable!(),
    }
}
