//! Why the tokens give no tree.

use pv_values::Place;
use std::alloc::AllocError;

/// Why no value is read.
#[derive(Clone, Copy)]
pub enum Fault {
    /// No list of tokens that the grammar derives begins with the tokens up to the one that stands here.
    Syntax(Place),
    NoMemory,
}

impl From<AllocError> for Fault {
    ghost use Rattle.std.specs.Prelude.{◌≡◌};
    ghost use Rattle.cfg_parse.specs.declared.fault.Fault.TheVariants.{NoMemory};

    ghost from_gives = { λ _ f. f ≡ NoMemory };

    fn from(_: AllocError) -> Fault {
        Fault::NoMemory
    }
}
