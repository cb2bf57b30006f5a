//! From the text of a script to the accepted script.

ghost use Rattle.std.specs.Prelude.{◌≡◌, ◌≢◌, ℕ, List, IfOk, IfErr};
ghost use Rattle.pv_values.specs.declared.refusal.Place.{Place};
ghost use Rattle.cfg_tree.specs.declared.script.Script.{Script};
ghost use Rattle.cfg_check.specs.Answer.{GivesScript};
ghost use Rattle.proxy_top.specs.Accept.{AcceptsText, RefusesText, IsTextRefusal, GivesTextRefusal};

use cfg_check::check;
use cfg_lex::laws::{
    a_text_has_one_first_fault, a_text_has_one_list_of_tokens, a_text_with_a_fault_has_no_tokens,
};
use cfg_lex::lex;
use cfg_parse::laws::one_tree_at_most;
use cfg_parse::parse;
use cfg_tree::ClosedScript;
use pv_values::ScriptFault;
use std::alloc::Global;

/// The script as which the text is accepted, or its first refusal.
///
/// A script is given exactly where the text is accepted, and a refusal exactly where it is refused; either may be want
/// of memory in its place. A refusal has the kind of the text's first, and, but for kind 3 (`Syntax`), begins at the
/// byte where that begins. The place of a `Syntax` is the one that `parse` gives.
pub fn accepted(alloc: Global, text: &[u8]) -> Result<ClosedScript, ScriptFault>
    ensures accepted { IfOk result (AcceptsText text.now) }
    ensures refused { IfErr result (IsTextRefusal text.now) }
    ensures whole { (script : Script) → AcceptsText text.now script → GivesScript script result }
    ensures first { (kind : ℕ) (at : Place) → RefusesText text.now kind at → GivesTextRefusal kind at result }
{
    let tokens = lex(alloc, text)?;
    let raw = parse(alloc, text, tokens.as_slice())?;
    check(alloc, raw)
}

/// No text is both accepted and refused.
pub fn no_text_is_accepted_and_refused()
    ensures { (text : List ℕ) (script : Script) (kind : ℕ) (at : Place)
        → AcceptsText text script → RefusesText text kind at → ⊥ }
{
    a_text_has_one_list_of_tokens();
    a_text_with_a_fault_has_no_tokens();
    one_tree_at_most();
}

/// The first refusal of a text has one kind, and, but for kind 3, begins at one byte.
pub fn a_text_is_refused_in_one_way()
    ensures { (text : List ℕ) (kind : ℕ) (at : Place) (other : ℕ) (there : Place)
        → RefusesText text kind at → RefusesText text other there
        → (other ≡ kind) × (kind ≢ 3 → there.from ≡ at.from) }
{
    a_text_has_one_list_of_tokens();
    a_text_has_one_first_fault();
    a_text_with_a_fault_has_no_tokens();
    one_tree_at_most();
}
