//! What the definitions of the check say together, proved from them alone.

ghost use Rattle.std.specs.Prelude.{◌≡◌, [], Some};
ghost use Rattle.cfg_tree.specs.declared.raw.RawScript.{RawScript};
ghost use Rattle.cfg_tree.specs.declared.script.Script.{Script};
ghost use Rattle.cfg_tree.specs.Checks.{refusals_of, script_of};

/// A tree of which nothing is refused stands for a script.
pub fn an_unrefused_tree_is_a_script()
    ensures { (raw : RawScript) → refusals_of raw ≡ [] → (script : Script) × (script_of raw ≡ Some script) }
{}
