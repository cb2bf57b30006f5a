//! What a pass knows.
use histories::{LogItem, Recorded};
use std::collections::LinkedList;

/// What a pass knows of its table. It is for contracts alone: no value of it is made.
pub struct PassView<F, R, N> {
    /// The table's fixed part. None for a pass that `close` took in.
    pub fixed: Option<F>,
    /// Its number, under which it records.
    pub number: u32,
    /// How many passes the table has, for the first one; 0 for the others.
    pub made: u32,
    /// The number of the cell that it holds.
    pub holds: Option<u32>,
    /// Of each cell, by its number, a beginning of its history.
    pub seen: LinkedList<LinkedList<Recorded<R>>>,
    /// Its own list: its records with the numbers of their cells, and its notes, in order.
    pub mine: LinkedList<LogItem<R, N>>,
    /// The cells that could not be taken, each with the word that was found there.
    pub looks: LinkedList<(u32, u64)>,
    /// The own lists of the passes that it took in, those of number 1 and on.
    pub got: LinkedList<LinkedList<LogItem<R, N>>>,
}
