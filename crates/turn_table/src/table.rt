//! The table of cells, and its passes.
ghost use Rattle.std.specs.Prelude.{◌≡◌, ◌+◌};

use crate::cell::TurnCell;
use crate::law::Law;
use crate::room::Room;
use crate::view::PassView;
use atomic_table::{Seat, Shared, Table};
use std::alloc::Global;

/// A worker's pass: a seat at the table, which has no bytes. It holds one cell at most.
pub type Pass<C> = Seat<
    Option<C>,
    PassView<<C as TurnCell>::Fixed, <C as TurnCell>::Record, <C as TurnCell>::Note>,
>;

/// What the threads share of a table.
pub(crate) type CellSteps<C> = Shared<
    Option<C>,
    PassView<<C as TurnCell>::Fixed, <C as TurnCell>::Record, <C as TurnCell>::Note>,
    <C as TurnCell>::Fixed,
    Law,
>;

/// Cells that workers take turns at. `open` and `close` make it and end it; the calls between them take it by `&`, so
/// threads may share it.
#[derive(Drop)]
pub struct Turns<C: TurnCell> {
    pub(crate) table: Table<
        Option<C>,
        PassView<C::Fixed, C::Record, C::Note>,
        C::Fixed,
        Law,
        Global,
    >,
    // The room for the values at the end.
    pub(crate) room: Room<Option<C>>,
    ghost wide: { table.shared.table_id.words ≡ table.shared.table_id.slots + 1 },
    ghost fits: { room.size ≡ table.shared.table_id.slots },
}
