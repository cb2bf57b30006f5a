//! What a run of a block has, what it asks and is answered, and how it ends.

use crate::function::Func;
use crate::value::{Val, Vals};
use crate::variable::PvUse;

/// What a run keeps by itself.
#[derive(Debug, Drop)]
pub struct Env {
    /// The value of each name of `$var`.
    pub vars: Vals,
    /// `$rc`: the last code of a function or a route.
    pub rc: i64,
}

/// How a run of a block ends.
#[derive(Clone, Copy, Debug, PartialEq, Eq)]
pub enum How {
    /// After its last statement.
    Normal,
    /// By `return` in the block that the run began with, with this number, which isn't 0.
    Return(i64),
    /// By `exit`, or by a code 0.
    Exit,
    Drop,
    /// A loop would have made a round too many.
    LoopLimit,
    /// A call of a route would have been nested too deep.
    DepthLimit,
    /// The run would have made a statement too many.
    ActionLimit,
}

/// What a run asks of its host.
#[derive(Debug, Drop)]
pub enum HostAsk {
    Read(PvUse),
    Write(PvUse, Val),
    /// A function with its literal arguments, and the values of its expanded ones.
    Call(Func, Vals),
}

/// What a run is told: first `Start`, then what fits its last ask.
#[derive(Debug, Drop)]
pub enum HostAnswer {
    Start,
    /// To a `Read`.
    Value(Val),
    /// To a `Write`.
    Written,
    /// To a `Call`.
    Code(i64),
}
