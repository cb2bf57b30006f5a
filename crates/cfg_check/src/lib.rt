//! The accepted script of a tree, or the first refusal of it.
//!
//! [`check`] is the one call. What is refused of a tree, and which script it stands for, is said by the definitions of
//! `cfg_tree`: `refusals_of` and `script_of`.
#![tactic(auto)]

ghost use Rattle.std.specs.Prelude.{◌≡◌, ℕ, [], IfOk, IfErr};
ghost use Rattle.pv_values.specs.declared.refusal.Place.{Place};
ghost use Rattle.cfg_tree.specs.declared.script.Script.{Script};
ghost use Rattle.cfg_tree.specs.Checks.{refusals_of, IsAccepted, IsRefused};
ghost use Rattle.cfg_check.specs.Answer.{IsRefusalOf, GivesScript, GivesSome, GivesRefusal};

mod block;
mod expr;
pub mod laws;
mod script;
mod stmt;
mod target;

use cfg_tree::{ClosedScript, RawScript};
use pv_values::ScriptFault;
use std::alloc::Global;

/// The script that a tree stands for, or its first refusal: the one that begins first, and of those that begin at one
/// byte the one of the least kind, `UnknownRoute` to `UnknownModule`.
///
/// Every number in a script that is given names something that is there. A script is given exactly where no check
/// refuses; else the refusal is given, or it is out of memory.
///
/// ```
/// let text = b"request_route { route(NOWHERE); }";
/// let tokens = lex(alloc, text)?;
/// let tree = parse(alloc, text, &tokens)?;
/// check(alloc, tree); // refused: UnknownRoute, from 22 to 29
/// ```
pub fn check(alloc: Global, raw: RawScript) -> Result<ClosedScript, ScriptFault>
    ensures accepted { IfOk result (IsAccepted raw) }
    ensures refused { IfErr result (IsRefusalOf raw) }
    ensures whole { (script : Script) → IsAccepted raw script → GivesScript script result }
    ensures unrefused { refusals_of raw ≡ [] → GivesSome result }
    ensures first { (kind : ℕ) (at : Place) → IsRefused raw kind at → GivesRefusal kind at result }
{
    match script::judged(alloc, &raw) {
        Ok(Ok(script)) => Ok(script),
        Ok(Err(refusal)) => Err(refusal.fault()),
        Err(_) => Err(ScriptFault::NoMemory),
    }
}
