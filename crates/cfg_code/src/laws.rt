//! What code has to do with the script that it stands for.

ghost use Rattle.std.specs.Prelude.{◌≢◌, ℕ, List, IsTrue};
ghost use Rattle.pv_values.specs.declared.run.Env.{Env};
ghost use Rattle.cfg_tree.specs.declared.script.Stmt.{Stmt};
ghost use Rattle.cfg_tree.specs.declared.script.Script.{Script};
ghost use Rattle.cfg_tree.specs.Meaning.{dialogue};
ghost use Rattle.cfg_code.specs.Flat.{FlatScript};
ghost use Rattle.cfg_code.specs.Code.{text_of_block};
ghost use Rattle.cfg_code.specs.declared.machine.Event.TheVariants.{Stuck};
ghost use Rattle.cfg_code.specs.Machine.{Configuration, begun, step_of, asked_of};
ghost use Rattle.cfg_code.specs.Follows.{Stands, Behaves};
ghost use Rattle.cfg_code.specs.Sound.{Shape, nothing, Shaped, AllSound};
ghost use Rattle.cfg_tree.specs.Closed.{Names, closed_block, closed_ask};
ghost use Rattle.cfg_code.specs.Safe.{Reaches};
ghost use Rattle.cfg_code.specs.Closed.{closed_code, names_of, IsClosedCode};

/// Code that stands for a script means what the script means: a run of a block asks and ends exactly
/// as the block does, whatever it is answered.
pub fn the_code_means_the_script()
    ensures { (loaded : FlatScript) (script : Script) → Stands loaded script → (block : ℕ) (env : Env)
        → Behaves loaded (begun loaded block env) (dialogue script block env) }
{}

/// The code of a block is sound, wherever it stands: its jumps stay in it, and its instructions find
/// what they take.
pub fn the_code_of_a_block_is_sound()
    ensures { (block : List Stmt) (behind : List Shape) → Shaped (text_of_block block) nothing behind }
{}

/// Sound code never gets stuck, whatever a run of it is answered: each place that it comes to is in the
/// code, and each instruction there finds the values and the loop that it takes.
pub fn sound_code_is_never_stuck()
    ensures { (loaded : FlatScript) → AllSound loaded.code.instrs loaded.code.entries → (block : ℕ) (env : Env) (r : Configuration)
        → Reaches loaded (begun loaded block env) r → (step_of loaded r).event ≢ Stuck }
{}

/// The code of a closed block is closed: each number in it is one of the block.
pub fn the_code_of_a_closed_block_is_closed()
    ensures { (names : Names) (block : List Stmt) → IsTrue (closed_block names block) → IsTrue (closed_code names (text_of_block block)) }
{}

/// Whatever a run of closed code asks, each number in the ask names something that is there.
pub fn the_asks_of_closed_code_are_closed()
    ensures { (loaded : FlatScript) → IsClosedCode loaded → (r : Configuration) → IsTrue (closed_ask (names_of loaded) (asked_of loaded r)) }
{}
