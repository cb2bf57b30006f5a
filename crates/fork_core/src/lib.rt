//! The response context of a forked request (RFC 3261, section 16.7): which response of which branch goes where.
//!
//! A request is forwarded in rounds, each with branches of its own, twelve in all. [`Context`] takes what the branches respond and
//! says what becomes of it; what it has seen is a history of the definitions, and each choice is a function of that history.
//! No call takes memory.
#![tactic(auto)]

mod context;
mod laws;
mod preference;
#[cfg(test)]
mod tests;

pub use context::{Context, Forwarding};
pub use laws::{
    best_of_is_the_best, challenges_are_all, forwarding_is_decided, has_failed_is_failed,
    one_best_response, preference_is_a_strict_order, to_cancel_are_all,
};
