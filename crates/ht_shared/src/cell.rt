//! A table in its cell.
ghost use Rattle.std.specs.Prelude.{◌≡◌};
ghost use Rattle.ht_shared.specs.Stands.{TableStands};
ghost use Rattle.ht_shared.specs.Told.{operation};

use histories::Telling;
use ht_core::{TabOp, TabRecord, TabReply, Table};
use pv_values::{Patterns, TableSpec};
use std::alloc::AllocError as NoMemory;
use std::snapshot::Snapshot;
use turn_table::TurnCell;

/// A table that workers take turns at. A turn moves a pointer to it.
#[derive(Drop)]
pub struct TableCell {
    pub table: Box<Table>,
}

/// What is fixed of all tables.
#[derive(Drop)]
pub struct TablesFixed {
    /// What the script says of each table, by its number.
    pub specs: Vec<TableSpec>,
    /// The patterns of the script.
    pub patterns: Snapshot<Patterns>,
}

impl TurnCell for TableCell {
    type Record = TabRecord;

    type Note = ();

    type Fixed = TablesFixed;

    ghost stands = { TableStands };
}

/// An operation, its time and its reply, as contracts see them.
#[derive(Drop)]
pub(crate) struct Shown {
    pub(crate) op: Snapshot<TabOp>,
    pub(crate) now: u64,
    pub(crate) reply: Snapshot<Result<TabReply, NoMemory>>,
}

/// The record is this operation.
pub(crate) struct IsShown;

impl Telling<Shown, TabRecord> for IsShown {
    ghost told = { λ shown r. r ≡ operation shown };
}
