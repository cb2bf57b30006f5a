//! What a cell's value stands for.
ghost use Rattle.std.specs.Prelude.{ℕ, List};

/// A value that workers take turns at, one at a time. Its three types are for contracts: no value of them need be made,
/// but for the fixed part, which `Turns::new` is lent.
pub trait TurnCell: Send {
    /// What a give appends to a cell's history.
    type Record;
    /// What a note appends to a pass's own list.
    type Note;
    /// What is fixed when the table is made, and all passes show.
    type Fixed;

    // The value stands for the records of the cell of this number, under the fixed part.
    ghost stands: { Self.Fixed → ℕ → Self → List Self.Record → Type 0 };
}
