//! The functions of a script that make a transaction, respond in it and send its request on (RFC 3261, sections 16.6 and
//! 17.2): each does what its row says, and answers the code that the script is told.
//!
//! [`t_newtran`], [`t_reply`] and [`t_set_fr`] decide by themselves. [`relay_ack`] does for an ACK, and
//! [`relay_request`] for any other request: it answers a code, or how many blocks it wants, and [`relayed`] is what they
//! are taken for. [`address_of`] says where a URI is sent. The message's bytes and their reading are lent to each call,
//! the facts of the run to those that change them. A function that takes memory and finds none leaves the facts as they
//! were.
#![tactic(auto)]

mod destinations;
mod methods;
mod relaying;
mod responses;
#[cfg(test)]
mod tests;
mod timers;

pub use destinations::{address_of, target_address};
pub use methods::{has_no_transaction, is_cancel, is_invite};
pub use relaying::{Relaying, relay_ack, relay_request, relayed};
pub use responses::{t_newtran, t_reply};
pub use timers::t_set_fr;
