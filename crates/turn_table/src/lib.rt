//! Turn cells: values that threads take turns at. A pass takes a cell's turn, changes its value, and gives it back with
//! one record. Each cell has one history of these records, and what a taker finds is what the history makes.
//!
//! `Turns::new` makes a table of cells and a pass for each worker. With its pass a worker calls `take` (or `try_take`),
//! changes what `Turn::value` lends, and calls `give` or `give_told`. `note` and `note_told` put into the pass's own list
//! what is no record of a cell. At the end `close` takes all passes and gives back all values. After `new` nothing takes
//! memory.
//!
//! What a value stands for is said by its type, which implements `TurnCell`. Passes, histories and records have no bytes
//! at run time: contracts alone see them. `specs/Passes.antt` has the words of these contracts.
#![tactic(auto)]

mod cell;
mod close;
mod law;
mod open;
mod room;
mod table;
mod turn;
mod turns;
mod view;

pub use cell::TurnCell;
pub use close::Closed;
pub use room::Room;
pub use table::{Pass, Turns};
pub use turn::Turn;
pub use view::PassView;

#[cfg(test)]
mod tests;
