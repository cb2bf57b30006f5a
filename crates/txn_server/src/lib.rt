//! Server transactions (RFC 3261, section 17.2; RFC 6026, section 7.1), as steps on a value.
//!
//! A [`Server`] stands for one request that came over UDP: it tells which responses are sent, and which are sent again where the
//! request or its ACK is missed. It knows no socket, no bytes and no clock: [`server_step`] takes an event and the moment,
//! changes the value, and returns what is to be done. The caller keeps the response that is repeated, which is the last one
//! that was sent, but for a 2xx that follows another final response; it calls again with a timer's event when it is due.
#![tactic(auto)]

mod laws;
mod machine;
mod step;
#[cfg(test)]
mod tests;

pub use laws::{
    an_answered_server_ends, each_server_event_makes_one_step, nothing_but_2xx_after_terminated,
    nothing_is_repeated_in_accepted, one_final_response, the_last_response_is_repeated,
    timers_of_each_server_state,
};
pub use machine::{Server, ServerActs, ServerEvent, ServerState, ServerTimer};
pub use step::server_step;
