//! The calls on the queue, and what each of them tells its pass.
ghost use Rattle.std.specs.Prelude.{◌≡◌, ◌<◌, [], ℕ, Option, None, IfOk, IfErr, IfSome, IfNone, OnOk};
ghost use Rattle.crossbeam_queue.specs.Fifo.{Held};
ghost use Rattle.crossbeam_queue.specs.Passes.{view, IsPassOf, IsSamePass};
ghost use Rattle.job_queue.specs.declared.Job.{Job as Order};
ghost use Rattle.job_queue.specs.declared.hand.JobHome.{JobHome as House};
ghost use Rattle.job_queue.specs.Jobs.{IsJobOf, Rest, TakesJob, all_parts, home_of, hand, newcomer, hand_of_home, halved, half, joined_hands, spent_hand, posted, weigh};
ghost use Rattle.job_queue.specs.Owned.{IsJobPassOf, home_in};

use crate::jobs::{JobPass, Jobs, Queue};
use crate::{Job, JobHand};
use claim_words::Claims;
use crossbeam_queue::protocol::{Join, Lesson, Outcome, Split};
use std::alloc::{AllocError, Global};
use std::marker::{Brand, PhantomData};
use std::sync::Wait;

const PLACES: usize = 1024;

/// Which claims a queue is for. A call picks them.
pub(crate) trait Homes {
    ghost home: { Option House };
}

impl Homes for Brand {
    ghost home = { None };
}

// The first pass is told of which claims the jobs are.
pub(crate) struct Naming<W>(PhantomData<W>);

impl<W: Homes> Split<JobHand> for Naming<W> {
    ghost left = { λ _. spent_hand };

    ghost right = { hand_of_home W.home };
}

pub(crate) struct Halves;

impl Split<JobHand> for Halves {
    ghost left = { halved };

    ghost right = { half };
}

impl Join<JobHand> for Halves {
    ghost both = { joined_hands };

    ghost spent = { spent_hand };
}

pub(crate) struct Posts;

impl Outcome<Job, JobHand> for Posts {
    ghost then = { λ v x w. w ≡ posted v x };
}

impl Lesson<Job, JobHand> for Posts {
    ghost fact = { Rest };
}

pub(crate) struct Takes;

impl Outcome<Job, JobHand> for Takes {
    ghost then = { TakesJob };
}

impl Lesson<Job, JobHand> for Takes {
    ghost fact = { Rest };
}

fn named_about<W: Homes>(queue: &Queue, mut pass: JobPass, claims: &Claims, routes: u32) -> JobPass
    requires pass { IsPassOf queue.now pass × (view pass ≡ newcomer) }
    requires home { W.home ≡ home_of claims.now routes }
    ensures { IsPassOf queue.now result × (view result ≡ hand (home_of claims.now routes) all_parts [] []) }
{
    let _ = claims;
    let _ = routes;
    queue.another::<Naming<W>>(&mut pass)
}

impl Jobs {
    /// An empty queue for jobs of these claims and so many routes. Its pass has every part of the right to know the whole.
    pub fn new(alloc: Global, claims: &Claims, routes: u32) -> Result<(Jobs, JobPass), AllocError>
        ensures own { IfOk result (λ r. IsJobPassOf r.0 r.1) }
        ensures empty { IfOk result (λ r. view r.1 ≡ hand (home_of claims.now routes) all_parts [] []) }
    {
        let (queue, first) = Queue::ruled(alloc, PLACES)?;
        let pass = named_about::<Brand>(&queue, first, claims, routes);
        Ok((Jobs { queue }, pass))
    }

    /// A new pass, with one part of this one's. Takes no memory.
    pub fn split(&self, pass: &mut JobPass) -> JobPass
        requires own { IsJobPassOf self.now pass.old × (1 < (view pass.old).parts) }
        ensures own { IsJobPassOf self.now pass.new × IsSamePass pass.old pass.new }
        ensures left { view pass.new ≡ halved (view pass.old) }
        ensures right { IsJobPassOf self.now result × (view result ≡ half (view pass.old)) }
    {
        self.queue.another::<Halves>(pass)
    }

    /// Takes another pass in, with its parts and with what it has posted and taken.
    pub fn join(&self, pass: &mut JobPass, other: JobPass)
        requires own { IsJobPassOf self.now pass.old }
        requires other { IsJobPassOf self.now other }
        ensures own { IsJobPassOf self.now pass.new × IsSamePass pass.old pass.new }
        ensures both { view pass.new ≡ joined_hands (view pass.old) (view other) }
    {
        self.queue.absorb::<Halves>(pass, other);
    }

    /// Posts a job. It comes back only where all 1,024 places were full at one step of this call.
    pub fn post_as<R: Wait>(&self, rt: &R, pass: &mut JobPass, job: Job) -> Result<(), Job>
        requires own { IsJobPassOf self.now pass.old }
        requires job { IsJobOf (home_in pass.old) job }
        ensures own { IsJobPassOf self.now pass.new × IsSamePass pass.old pass.new × (home_in pass.new ≡ home_in pass.old) }
        ensures posted { OnOk result (view pass.new ≡ posted (view pass.old) job) }
        ensures back { IfErr result (λ x. (x ≡ job) × (view pass.new ≡ view pass.old) × Held 1024 (Rest (view pass.old))) }
    {
        self.queue.push_as::<Posts, R>(rt, pass, job)
    }

    /// Takes the next job. None comes only where the queue was empty at one step of this call.
    pub fn next_as<R: Wait>(&self, rt: &R, pass: &mut JobPass) -> Option<Job>
        requires own { IsJobPassOf self.now pass.old }
        ensures own { IsJobPassOf self.now pass.new × IsSamePass pass.old pass.new × (home_in pass.new ≡ home_in pass.old) }
        ensures taken { IfSome result (λ x. TakesJob (view pass.old) x (view pass.new)) }
        ensures none { IfNone result ((view pass.new ≡ view pass.old) × Held 0 (Rest (view pass.old))) }
        ensures over { IfNone result ((view pass.old).parts ≡ all_parts → (h : Order → ℕ) → weigh h (view pass.old).posted ≡ weigh h (view pass.old).taken) }
    {
        self.queue.pop_as::<Takes, R>(rt, pass)
    }
}
