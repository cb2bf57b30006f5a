//! What assignments write.

ghost use Rattle.std.specs.Prelude.{◌≡◌, [], IfOk};
ghost use Rattle.cfg_tree.specs.Checks as checks;
ghost use Rattle.cfg_tree.specs.declared.raw.RouteKind.TheVariants.{Route};
ghost use Rattle.cfg_tree.specs.declared.script.Part.TheViews.{out-Part};
ghost use Rattle.cfg_tree.specs.Meaning.{item_of};
ghost use Rattle.cfg_calls.specs.Following.{Follows};

use cfg_calls::{Checker, Known};
use cfg_tree::{Part, RawVariable, RefusalKind, RouteKind, TableUse, Target};
use pv_values::{BlockKind, Key, PvUse, Text};
use std::alloc::{AllocError as NoMemory, Global};

/// Some kind of block may assign the variable.
fn is_ever_written(variable: &PvUse) -> bool
    ensures { result ≡ checks.may_write Route variable.now }
{
    variable.is_written_in(BlockKind::Request)
        || variable.is_written_in(BlockKind::Branch)
        || variable.is_written_in(BlockKind::Failure)
        || variable.is_written_in(BlockKind::Reply)
        || variable.is_written_in(BlockKind::Event)
}

/// A block of this kind may assign the variable. In `route[NAME]` it is enough that some kind may.
fn may_write(kind: RouteKind, variable: &PvUse) -> bool
    ensures { result ≡ checks.may_write kind variable.now }
{
    match kind {
        RouteKind::Route => is_ever_written(variable),
        RouteKind::Begins(kind) => variable.is_written_in(kind),
    }
}

/// An item of a table as a variable.
fn item(alloc: Global, way: TableUse, table: u32) -> PvUse
    ensures { result ≡ item_of way table [] }
{
    let key = Key::of(Text::of(Vec::new(alloc)));
    match way {
        TableUse::Item => PvUse::Item(table, key),
        TableUse::Seconds => PvUse::ItemSeconds(table, key),
        TableUse::Increment => PvUse::ItemIncrement(table, key),
        TableUse::Decrement => PvUse::ItemDecrement(table, key),
    }
}

/// What an assignment to this variable writes, where the block may write it.
fn target(alloc: Global, kind: RouteKind, part: Part) -> Option<Target>
    ensures { result ≡ checks.target_in kind (out-Part part) }
{
    match part {
        Part::Var(n) => Some(Target::Var(n)),
        Part::Host(variable) => {
            if may_write(kind, &variable) {
                Some(Target::Host(variable))
            } else {
                None
            }
        }
        Part::Item(way, table, key) => {
            if may_write(kind, &item(alloc, way, table)) {
                Some(Target::Item(way, table, key))
            } else {
                None
            }
        }
        Part::Text(_text) => None,
        Part::Code => None,
        Part::Transformed(_transformation, _part) => None,
    }
}

/// What an assignment to a variable writes, in a block of this kind.
pub fn target_of(
    checker: &mut Checker,
    known: &Known,
    kind: RouteKind,
    v: &RawVariable,
) -> Result<Option<Target>, NoMemory>
    ensures { IfOk result (λ t. Follows (checks.target_of known.now kind v.now) checker.old t checker.new) }
{
    let Some(part) = checker.variable(known, v)? else {
        return Ok(None);
    };
    match target(checker.alloc(), kind, part) {
        Some(target) => Ok(Some(target)),
        None => checker.refuse(RefusalKind::NotWritable, v.at),
    }
}
