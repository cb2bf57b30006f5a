//! The words of histories: what is recorded of an object by whom, what a log has in it, and how a record is told. Runs of
//! an object, lists that grow and counts that rise are defined in `specs/`.
//!
//! A history is for contracts alone: no value of these types need be made. A list of records of one object is a run of
//! it where each record takes the object from one state to the next (`specs/Runs.antt`). What a list of operations is
//! for one object is a `flat_map` of it, one case of which gives a record and the others none.
//!
//! `laws` states that lists that grow, counts that rise and records go on from one another. That runs do, whatever the
//! object, is in `proofs/Lists.antt` (`runs_append`, `runs_more`, `runs_parts`), which other crates may cite.
#![tactic(auto)]

pub mod laws;
mod record;

pub use record::{LogItem, Recorded, Same, Telling};
