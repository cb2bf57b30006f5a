//! The texts that a step of a transaction sends.
//!
//! What a step decides to send is a [`OutText`]: which text it is, and not the text itself. It is written when it is sent, by
//! [`Sources::write`], into the room of who sends it, which takes no memory; [`Desk::is_sendable`] tells, when it is
//! decided, whether it reads as a message: what doesn't isn't sent.
//!
//! What the texts are is said in `specs/Texts.antt`.
#![tactic(auto)]

mod desk;
mod out_text;
mod outbox;
mod sources;

pub use desk::Desk;
pub use out_text::{OutText, Reason};
pub use outbox::{Addressed, Outbox, Sent};
pub use sources::{Came, Readings, Sources};
