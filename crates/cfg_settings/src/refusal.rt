//! Why a part of a script is refused, and where.

ghost use Rattle.std.specs.Prelude.{◌≡◌, ◌↔◌, IsTrue};
ghost use Rattle.pv_values.specs.declared.refusal.ScriptFault.TheVariants.{Refused};
ghost use Rattle.cfg_tree.specs.Refusals.{GoesBefore, refusal};

use cfg_tree::RefusalKind;
use pv_values::{Place, ScriptFault};
use std::marker::Model;

/// A refusal, and where it stands. Contracts see the kind as its number.
#[derive(Debug, Drop)]
pub struct Refusal {
    kind: RefusalKind,
    at: Place,
}

impl Model for Refusal {
    ghost use Rattle.cfg_tree.specs.Refusals.{Refusal as Meant, refusal};

    ghost Value = { Meant };

    ghost view = { λ r. refusal r.kind r.at };
}

impl Refusal {
    /// A refusal of this kind at this place.
    pub fn new(kind: RefusalKind, at: Place) -> Refusal
        ensures { result ≡ refusal kind at }
    {
        Refusal { kind, at }
    }

    /// The refusal begins earlier, or at the same byte with a kind that isn't greater.
    pub fn goes_before(&self, other: &Refusal) -> bool
        ensures { IsTrue result ↔ GoesBefore self.now other.now }
    {
        self.at.from < other.at.from
            || self.at.from == other.at.from && self.kind.number() <= other.kind.number()
    }

    pub fn copy(&self) -> Refusal
        ensures { result ≡ self.now }
    {
        Refusal::new(self.kind, self.at)
    }

    /// The fault that tells the refusal.
    pub fn fault(&self) -> ScriptFault
        ensures { result ≡ Refused self.now.kind self.now.at }
    {
        ScriptFault::Refused {
            kind: self.kind.number(),
            at: self.at,
        }
    }
}
