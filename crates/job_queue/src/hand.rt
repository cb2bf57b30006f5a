//! What the proofs know of a pass: of which claims its jobs are, and what it has posted and taken. No value of it is made.
use crate::Job;
use claim_words::Claims;
use std::collections::LinkedList;

/// Of which claims the jobs are, and how many routes there are. No value of it is made.
pub struct JobHome {
    pub claims: Claims,
    pub routes: u32,
}

/// What a pass knows. No value of it is made.
pub struct JobHand {
    pub home: Option<JobHome>,
    // Its parts of the right to know the whole; a pass with none was taken in.
    pub parts: u64,
    pub posted: LinkedList<Job>,
    pub taken: LinkedList<Job>,
}
