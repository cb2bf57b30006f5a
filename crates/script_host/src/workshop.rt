//! What a worker has for its runs, and lends to each of them.
ghost use Rattle.std.specs.Prelude.{◌≡◌, IfOk};

use cfg_code::Loaded;
use message_functions::TextRoom;
use pv_values::Matchers;
use script_vm::Run;
use std::alloc::{AllocError as NoMemory, Global};
use std::marker::Model;

/// What a worker makes once and lends to its runs, one after another: the matchers of a script's patterns, room for a text
/// that is only looked at, and a run whose memory is used again. Contracts see the patterns that it matches, which no call
/// changes; nothing else in it outlives a call.
#[derive(Drop)]
pub struct Workshop<'p> {
    pub(crate) matchers: Matchers<'p>,
    pub(crate) room: TextRoom,
    /// A run that is over.
    pub(crate) spare: Option<Run>,
}

impl<'p> Model for Workshop<'p> {
    ghost use Rattle.std.specs.Prelude.{List, ℕ};

    ghost Value = { List (List ℕ) };

    ghost view = { λ w. w.matchers };
}

impl<'p> Workshop<'p> {
    /// A workshop for runs of this script.
    pub fn new(alloc: Global, loaded: &'p Loaded) -> Result<Workshop<'p>, NoMemory>
        ensures { IfOk result (λ w. w ≡ loaded.now.patterns) }
    {
        Ok(Workshop {
            matchers: loaded.patterns.matchers(alloc)?,
            room: TextRoom::new(alloc)?,
            spare: None,
        })
    }
}
