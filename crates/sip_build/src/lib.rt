//! Every text that the proxy writes by itself, and where a reply goes (RFC 3261, sections 8.2.6, 9.1, 16.6, 16.7,
//! 17.1.1.3 and 18.2; RFC 3581).
//!
//! Each text is a joining of parts of messages as they were received, and is defined in `specs/` as a whole list of
//! bytes. A call writes it to the front of the caller's room, and says how long it is. Where it doesn't fit, the
//! room stays as it was, and [`TooLong`] tells how long the text would be. Nothing here takes memory.
//!
//! - [`reply`] and [`basis_reply`] write the responses that the proxy makes; [`reply_to`] and [`basis_reply_to`] say where
//!   they go.
//! - [`forwarded`] writes the request that goes on, [`stateless_ack`] an ACK that goes on without a transaction, and
//!   [`relayed_reply`] the response that goes back.
//! - [`append_field`] puts a field into a written text.
//! - [`ack`] and [`cancel`] write the requests that the proxy makes for a request that it sent.
//! - The laws are what the layers above use: where a reply goes ([`a_reply_goes_back`]), that a request reads under the
//!   proxy's line Via ([`a_message_reads_under_the_line`]), and what a relayed reply leaves away
//!   ([`the_top_via_is_taken_away`]).
#![tactic(auto)]

mod adding;
mod addresses;
mod fields;
mod forwarding;
mod hop;
mod joined;
mod laws;
mod relaying;
mod responses;
mod stamp;
#[cfg(test)]
mod tests;

pub use adding::append_field;
pub use addresses::{basis_reply_to, reply_to};
pub use forwarding::{forwarded, stateless_ack};
pub use hop::{ack, cancel};
pub use laws::{
    a_message_reads_under_the_line, a_reply_goes_back, own_via_reads, the_fields_below_stand,
    the_line_via_is_put_in, the_top_via_is_taken_away, the_value_below_reads,
    what_is_forwarded_reads,
};
pub use msg_edits::TooLong;
pub use relaying::relayed_reply;
pub use responses::{basis_reply, reply};
