//! The functions of a script over its message: each does what its row says, and answers the code that the script is told.
//!
//! One function a row of `host_meaning`'s definitions ([`is_method`], [`has_totag`], [`is_present_hf`], [`remove_hf`],
//! [`append_hf`], [`mf_process_maxfwd_header`], [`record_route`], [`loose_route`], [`sl_send_reply`]), and [`is_myself`] for
//! `uri == myself`. What other functions of a script share with them is public too: [`can_reply`], [`uri_in`], the tests of a
//! message and of an outcome, and the room for texts that are only looked at. The message's bytes and their reading are lent to each call, the facts of the run to those that change
//! them. A function that takes memory and finds none leaves the facts as they were.
#![tactic(auto)]

mod edits;
mod headers;
mod kinds;
mod ours;
mod record_routing;
mod responses;
mod room;
mod routing;
#[cfg(test)]
mod tests;

pub use headers::{
    append_hf, has_totag, is_method, is_present_hf, mf_process_maxfwd_header, remove_hf,
};
pub use ours::{DEFAULT_PORT, is_myself, uri_in};
pub use record_routing::record_route;
pub use responses::{can_reply, is_ack, is_undecided, sl_send_reply};
pub use room::TextRoom;
pub use routing::loose_route;
