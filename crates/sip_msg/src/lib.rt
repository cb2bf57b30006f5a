//! SIP messages: what a datagram is (RFC 3261, sections 7, 18.3 and 25).
//!
//! - [`Message::read`] tells the request or the response that a datagram is, each part as a span of the datagram, or
//!   the first of nine faults.
//! - [`read_basis`] tells what a response to a malformed request rests on, where there is one.
//! - [`a_message_lies_in_its_datagram`] and [`a_basis_lies_in_its_datagram`] are laws of any message and basis that a
//!   datagram has.
//!
//! Nothing here takes memory.
#![tactic(auto)]

mod basis;
mod fields;
mod laws;
mod message;
mod start;
#[cfg(test)]
mod tests;
mod values;

pub use basis::{Basis, read_basis};
pub use laws::{a_basis_lies_in_its_datagram, a_message_lies_in_its_datagram};
pub use message::{Message, MsgFault};
pub use sip_words::Span;
pub use start::Start;
