//! Client transactions (RFC 3261, section 17.1; RFC 6026, section 7.2), as steps on a value.
//!
//! A [`Client`] sends one request to one place over UDP, sends it again until a response comes, and tells which responses are
//! passed up. It knows no socket, no bytes and no clock: [`client_step`] takes an event and the moment, changes the value,
//! and returns what is to be done. The caller keeps the request, and calls again with a timer's event when it is due.
#![tactic(auto)]

mod laws;
mod machine;
mod step;
#[cfg(test)]
mod tests;

pub use laws::{
    an_answered_client_ends, each_client_event_makes_one_step, invite_is_sent_only_in_calling,
    nothing_after_terminated, settled_once, timers_of_each_client_state,
};
pub use machine::{Client, ClientActs, ClientEvent, ClientState, ClientTimer};
pub use step::client_step;
