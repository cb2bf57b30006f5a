//! The variables of a script (the Kamailio core cookbook's pseudo-variables): what each of them reads in a message and in
//! the data of a run, and what an assignment makes of these data.
//!
//! [`RunData`] is what a run of a block has: its [`Facts`], which are plain data, and the blocks that it holds.
//! [`read_pv`] reads one variable and [`write_pv`] assigns one. The message isn't in the data: its bytes and their reading
//! are lent to each call, and a clause says that the one is the reading of the other. The items of tables and
//! `uri == myself` are answered by who runs the block.
#![tactic(auto)]

mod avps;
mod copies;
mod facts;
mod fields;
mod reading;
#[cfg(test)]
mod tests;
mod uri_parts;
mod writing;

pub use avps::{Avp, Avps};
pub use copies::{edits_copy, targets_copy, text_copy};
pub use facts::{
    ArmedBlocks, BLOCKS, Facts, FinalTimers, Outcome, Relay, Response, RunData, Standing, Target,
};
pub use fields::is_field_named;
pub use pv_values::BlockKind;
pub use reading::read_pv;
pub use uri_parts::bytes_at;
pub use writing::write_pv;
