//! A transaction slot in its cell.
ghost use Rattle.std.specs.Prelude.{ℕ, List};

use turn_table::TurnCell;

/// What a slot's value means, beside what opens the slot's suspensions.
pub trait SlotValue<O> {
    /// What a give appends to the history of a slot.
    type Record;
    /// What a note appends to a pass's own list.
    type Note;
    /// What is fixed of all slots.
    type Fixed;

    // The value and what lies beside it stand for the records of the slot of this number, under the fixed part.
    ghost stands: { Self.Fixed → ℕ → Self → O → List Self.Record → Type 0 };
}

/// A transaction slot that workers take turns at: its value, and what opens its suspensions.
#[derive(Drop)]
pub struct SlotCell<V, O> {
    pub value: V,
    pub opener: O,
}

impl<O: Send, V: SlotValue<O> + Send> TurnCell for SlotCell<V, O> {
    type Record = V::Record;

    type Note = V::Note;

    type Fixed = V::Fixed;

    ghost stands = { λ f k c rs. V.stands f k c.value c.opener rs };
}
