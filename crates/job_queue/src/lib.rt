//! The queue of jobs that workers post to one another: continuations that were claimed, and cancellations.
//!
//! It has 1,024 places. Each worker has a [`JobPass`], with which it posts and takes. What is taken was posted, as often as it
//! was posted, and names a slot and a route that are there. Who takes a continuation has the note of its won claim.
//!
//! ```
//! let (jobs, mut pass) = Jobs::new(alloc, &claims, routes)?;
//! let mut other = jobs.split(&mut pass);
//! jobs.post_as(rt, &mut pass, Job::Cancel { slot: 0, generation: 1 }); // Ok(())
//! jobs.next_as(rt, &mut other); // Some(Job::Cancel { slot: 0, generation: 1 })
//! jobs.next_as(rt, &mut other); // None
//! ```
#![tactic(auto)]

mod calls;
mod hand;
mod jobs;

use claim_words::ClaimNote;
pub use hand::{JobHand, JobHome};
pub use jobs::{JobPass, Jobs};

/// What a worker asks of another.
#[derive(Drop)]
pub enum Job {
    /// A suspended transaction is to go on by a route. The note has the won claim of its suspension.
    Continue { note: ClaimNote, route: u32 },
    /// A transaction is to be cancelled.
    Cancel { slot: u32, generation: u64 },
}

#[cfg(test)]
mod tests;
