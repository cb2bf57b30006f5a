//! Closed scripts.

use crate::script::Script;
use std::marker::Model;

/// An accepted script in which every number names something that is there: a block, a pattern, a table or
/// a name of `$var`. Contracts see the script.
#[derive(Drop)]
pub struct ClosedScript {
    script: Script,
}

impl Model for ClosedScript {
    ghost use Rattle.cfg_tree.specs.declared.script.Script.{Script};
    ghost use Rattle.cfg_tree.specs.Closed.{IsClosed};
    ghost use Rattle.cfg_tree.specs.contracts.script.Stmt as stmt;
    ghost use Rattle.std.specs.Coded.{codes};

    ghost Value = { Script };

    ghost coded = { Prim.hlevel (codes, stmt.the_row.coded) };

    ghost view = { λ c. c.script };

    ghost invariant = { λ c. IsClosed c.script };
}

impl ClosedScript {
    ghost use Rattle.std.specs.Prelude.{◌≡◌};
    ghost use Rattle.cfg_tree.specs.Closed.{IsClosed};

    /// A script that is closed, as each accepted one is.
    pub fn new(script: Script) -> ClosedScript
        requires { IsClosed script }
        ensures { result ≡ script }
    {
        ClosedScript { script }
    }

    /// The script.
    pub fn script(&self) -> &Script
        ensures is { result.now ≡ self.now }
        ensures closed { IsClosed self.now }
    {
        &self.script
    }

    /// The script, taken out.
    pub fn into_script(self) -> Script
        ensures is { result ≡ self }
        ensures closed { IsClosed self }
    {
        self.script
    }
}
