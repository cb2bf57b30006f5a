//! Room for values, kept in what threads share. None of them reaches it before the end.
ghost use Rattle.std.specs.Prelude.{◌≡◌, ◌+◌, ◌<◌, ◌≤◌, [], IfOk, vec_len};
ghost use Rattle.std.specs.Vec.{vec_capacity};
ghost use Rattle.turn_table.specs.Room.{HasRoom};

use atomic_table::{Table, TableRule};
use std::alloc::{AllocError, Global};

/// The rule of a room: its one slot has an empty `Vec` with room.
pub struct Bounds;

impl<T> TableRule<Vec<T>, (), u64> for Bounds {
    ghost holds = { HasRoom };

    ghost first = { λ _. tt };
}

/// An empty `Vec` with room for a number of values, in a value that threads may share. A field of type `Vec<T>` would ask
/// that `T` is `Sync`, which a seat isn't.
#[derive(Drop)]
pub struct Room<T> {
    table: Table<Vec<T>, (), u64, Bounds, Global>,
    /// How many values there is room for.
    pub size: u64,
    ghost keeps: { (table.shared.key ≡ size) × (table.shared.table_id.slots ≡ 1) },
}

impl<T: Drop> Room<T> {
    /// Room for `size` values.
    pub fn new(alloc: Global, size: usize) -> Result<Room<T>, AllocError>
        ensures { IfOk result (λ r. r.size ≡ size) }
    {
        let mut slots = Vec::with_capacity(alloc, 1)?;
        slots.push_reserved(Vec::with_capacity(alloc, size)?);
        let size = size as u64;
        let Ok((table, _seat)) = Table::new(alloc, &[0], slots, &size) else {
            return Err(AllocError);
        };
        Ok(Room { table, size })
    }
}

impl<T> Room<T> {
    /// The empty `Vec`. It takes no memory.
    pub fn open(self) -> Vec<T>
        ensures { (result.items ≡ []) × (self.size ≤ vec_capacity result) }
    {
        let Room { table, size: _ } = self;
        let mut closed = table.close();
        let room = closed.take(0);
        closed.free();
        room
    }
}
