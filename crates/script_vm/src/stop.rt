//! Why a run stops after an instruction.

use std::alloc::AllocError;

/// Where an instruction isn't followed by the next one.
#[derive(Clone, Copy, Debug, PartialEq, Eq)]
pub enum Stop {
    /// The run asks.
    Asked,
    /// The run has ended.
    Over,
    /// There is no instruction, or it lacks a value or a loop. It never comes in code that stands for
    /// a script.
    Stuck,
    NoMemory,
}

impl From<AllocError> for Stop {
    ghost use Rattle.std.specs.Prelude.{◌≡◌};
    ghost use Rattle.script_vm.specs.declared.stop.Stop.TheVariants.{NoMemory};

    ghost from_gives = { λ _ s. s ≡ NoMemory };

    fn from(_: AllocError) -> Stop {
        Stop::NoMemory
    }
}
