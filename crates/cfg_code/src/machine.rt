//! What a run of the code has, beside its values.

use pv_values::How;

/// A loop or `switch` that is open, or a block that waits for one that it called.
#[derive(Clone, Copy, Debug, PartialEq, Eq)]
pub enum Frame {
    /// How many rounds it may begin, the place where each begins, and that after its end.
    Loop {
        rounds_left: u32,
        start: usize,
        exit: usize,
    },
    /// The place where the block goes on, and how many calls may be nested there.
    Back {
        pc: usize,
        calls_left: u32,
    },
}

/// What a run waits for. What it asked about stays on the operand stack, or among the arguments, until
/// the answer takes it.
#[derive(Clone, Copy, Debug, PartialEq, Eq)]
pub enum Wait {
    /// That it may start, or go on.
    Start,
    /// The value of a variable.
    Value,
    /// The value of an item, whose key lies on the stack.
    ItemValue,
    /// That the value on the stack was written.
    Written,
    /// That the value on the stack was written to the item whose key lies below it.
    ItemWritten,
    /// The code of a function, whose arguments are the run's.
    Code,
    /// For nothing more: it has ended so.
    Over(How),
}

/// What an instruction came to.
#[derive(Clone, Copy, Debug, PartialEq, Eq)]
pub enum Event {
    /// The next instruction stands at the run's place.
    Moved,
    /// An ask, after whose answer it does. The run shows what is asked.
    Asked,
    /// The run's end, which the run shows.
    Over,
    /// There is no instruction, or it lacks a value or a loop. It never comes in code that stands for
    /// a script.
    Stuck,
}
