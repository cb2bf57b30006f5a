//! The tables of a script (`$sht(t=>key)`), which workers share. Each table is a cell, and an operation on it is one turn of
//! that cell: no operation waits for one on another table.
//!
//! `Tables::new` makes the tables, and a pass for each worker. With its pass a worker calls `Tables::apply`. At the end
//! `close` takes all passes, and gives back all tables. Each table has one history of operations, each with its time and its
//! reply; the reply is the one that a table gives which did the operations before it, one after another
//! (`specs/Shared.antt`).
#![tactic(auto)]

mod cell;
mod tables;

pub use cell::{TableCell, TablesFixed};
pub use ht_core::{Key, Patterns, TabOp, TabRecord, TabReply, Table, TableSpec};
pub use key_hash::HashState;
pub use tables::Tables;
pub use turn_table::{Closed, Pass};

#[cfg(test)]
mod tests;
