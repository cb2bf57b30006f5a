//! Claims on suspended transactions: who may end a suspension, and what comes of trying to.
//!
//! A suspension is ended once: by a continuation, by its timer, or by a CANCEL. Whoever claims it first has won, and each
//! later one is told who did.
//!
//! [`Claims`] are for many threads: one word a slot decides, and nobody waits. Each slot has an [`Opener`], which alone opens
//! its suspensions, and each worker a [`ClaimPass`], with which it claims. A [`ClaimNote`] says by its type that a claim was
//! won by a continuation; it may travel to another thread. [`PlainClaims`] are the same object on one thread.
//!
//! Both return what `specs/Suspensions.antt` says, which knows of no word.
#![tactic(auto)]

mod calls;
mod claims;
mod ends;
mod laws;
mod plain;
mod steps;
mod view;
mod word;

pub use claims::{ClaimNote, ClaimPass, Claims, Opener};
pub use ends::ClosedClaims;
pub use laws::won_once;
pub use plain::PlainClaims;
pub use view::{Clerk, SeatKind};

/// Who ends a suspension.
#[derive(Clone, Copy, Debug, PartialEq, Eq)]
pub enum By {
    /// `t_continue`
    Continued,
    /// Its timer.
    TimedOut,
    /// A CANCEL.
    Cancelled,
}

/// What a claim comes to.
#[derive(Clone, Copy, Debug, PartialEq, Eq)]
pub enum ClaimEnd {
    /// The suspension was open, and has ended by this claim: the place of the claim among those of its slot.
    Won(u64),
    /// It had ended already, by this.
    Lost(By),
    /// The slot has a later suspension: its serial.
    Past(u64),
    /// The slot has no suspension of this serial yet.
    Unknown,
}

/// A record in the history of a slot's claims.
pub enum ClaimRecord {
    /// A suspension was opened: its serial.
    Opened(u64),
    /// A suspension was claimed: its serial, by whom, and what the claim came to.
    Claimed(u64, By, ClaimEnd),
}

#[cfg(test)]
mod tests;
