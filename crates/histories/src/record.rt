//! What is recorded, and what is logged.
ghost use Rattle.std.specs.Prelude.{◌≡◌};

/// A record in the history of an object: the number of the worker who made the operation, and the record.
pub struct Recorded<R> {
    pub by: u32,
    pub what: R,
}

/// An item of a worker's log: a record that was given to the object of this number, or a note, which is of no object.
pub enum LogItem<R, N> {
    Given(u32, R),
    Noted(N),
}

/// A way to tell a record of which only the proof knows: by a value that can be shown, as it was before and after.
pub trait Telling<X, R> {
    // What is shown tells this record.
    ghost told: { X → R → Type 0 };
}

/// The way to tell a record that can be shown itself.
pub struct Same;

impl<R> Telling<R, R> for Same {
    ghost told = { λ shown r. r ≡ shown };
}
