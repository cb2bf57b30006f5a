//! One table of a script (`$sht(t=>key)`): items by their keys, each with a value and the moment when it is due, or no
//! limit. `Table::apply` does one operation at a moment, and answers.
//!
//! Moments are milliseconds, and a table knows no clock: `now` is handed in, and the greatest one so far counts. What each
//! operation answers and leaves is `specs/Tables.antt`.
#![tactic(auto)]

mod dues;
mod expiry;
mod held;
mod item;
pub mod laws;
mod name;
mod operation;
mod table;

pub use item::Item;
pub use operation::{TabOp, TabRecord, TabReply};
pub use pv_values::{Key, Patterns, TableSpec};
pub use table::Table;

#[cfg(test)]
mod tests;
