//! A turn: a cell's value, while a pass holds the cell.
ghost use Rattle.std.specs.Prelude.{◌≡◌};

/// A cell's value, while a pass holds the cell. It goes back by `give` or `give_told`. A turn that is dropped leaves its
/// cell held for good.
#[derive(Drop)]
pub struct Turn<C> {
    /// The value. It may be moved out, and another put in its place.
    pub value: C,
    /// The number of the cell.
    pub cell: u32,
}

impl<C> Turn<C> {
    ghost use Rattle.std.specs.Borrow.{sem};
    ghost use Rattle.turn_table.specs.Lending.{LendsValue};

    /// The value. What is written through it stays in the turn.
    pub fn value(&mut self) -> &mut C
        ensures* writes_back { sem 𝓛 (LendsValue C.row self.entry result) }
        ensures value { result.now ≡ self.old.value }
    {
        &mut self.value
    }
}
