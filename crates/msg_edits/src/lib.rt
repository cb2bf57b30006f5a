//! Edits of a message: cuts and inserts that are collected first and applied when a text is written.
//!
//! A place of an edit is always a place in the text as it was received, so edits don't shift each other. What a
//! text becomes is the definition `edited` of `specs/Edited.antt`: the bytes that no cut holds, in order, and
//! before the byte at a place the texts that are inserted there, in the order of making, also where that byte is
//! cut.
//!
//! - [`Edits`] is the list that a routing script fills: at most 64 edits, of which no two cuts share a byte.
//! - [`apply`] writes a text after edits, which are put in order once and made in one pass. [`apply_after`] does the
//!   same with some more [`Change`]s before them, whose inserted texts are borrowed, so that a caller adds its own
//!   without memory.
#![tactic(auto)]

mod bytewise;
mod changes;
mod laws;
mod list;
mod parts;
mod sweep;
#[cfg(test)]
mod tests;
mod writing;

pub use laws::{
    a_cut_takes_its_bytes_away, a_span_is_replaced, a_text_is_its_parts,
    an_edit_elsewhere_changes_nothing, an_insert_stands_at_its_place, no_edits_leave_the_text,
    the_lengths_add_up,
};
pub use list::{EditFault, Edits, LIMIT};
pub use parts::{Change, Edit};
pub use sip_words::Span;
pub use writing::{TooLong, apply, apply_after};
