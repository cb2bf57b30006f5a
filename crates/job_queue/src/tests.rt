//! A queue that is full, one that two threads empty, and a won claim that goes from one thread to another.
ghost use Rattle.std.specs.Prelude.{◌≡◌, ◌<◌, ℕ, IfOk};
ghost use Rattle.claim_words.specs.Owned.{slots_of, IsOpenerOf, IsClaimPassOf, IsNewOpener, IsNewPass};
ghost use Rattle.job_queue.specs.declared.Job.TheVariants.{Cancel};
ghost use Rattle.job_queue.specs.Jobs.{IsJobOf, home_of};
ghost use Rattle.job_queue.specs.Owned.{IsJobPassOf, home_in};

use crate::{Job, JobPass, Jobs};
use claim_words::{By, ClaimEnd, ClaimPass, Claims, Opener};
use std::alloc::{AllocError, Global};
use std::sync::Wait;
use std::test::Fail;
use std::thread::{Threads, join, yield_now};

// How many jobs a thread posts.
const EACH: u64 = 32;

fn post<R: Wait>(rt: &R, jobs: &Jobs, pass: &mut JobPass, generation: u64) -> bool
    requires own { IsJobPassOf jobs.now pass.old }
    requires job { (g : ℕ) → IsJobOf (home_in pass.old) (Cancel 0 g) }
    ensures own { IsJobPassOf jobs.now pass.new }
    ensures home { home_in pass.new ≡ home_in pass.old }
{
    jobs.post_as(
        rt,
        pass,
        Job::Cancel {
            slot: 0,
            generation,
        },
    )
    .is_ok()
}

fn take<R: Wait>(rt: &R, jobs: &Jobs, pass: &mut JobPass) -> Option<u64>
    requires own { IsJobPassOf jobs.now pass.old }
    ensures own { IsJobPassOf jobs.now pass.new }
{
    match jobs.next_as(rt, pass)? {
        Job::Cancel {
            slot: _,
            generation,
        } => Some(generation),
        Job::Continue { note: _, route: _ } => None,
    }
}

// How many of 1,025 jobs were posted, and how many were taken then.
fn fill<R: Wait>(rt: &R, alloc: Global) -> Result<(u64, u64), AllocError> {
    let (claims, _openers, _passes) = Claims::new(alloc, 1, 1)?;
    let (jobs, mut pass) = Jobs::new(alloc, &claims, 1)?;
    let other = jobs.split(&mut pass);
    let mut posted = 0;
    for generation in 0..1025u64 {
        if post(rt, &jobs, &mut pass, generation) {
            posted = generation + 1;
        }
    }
    jobs.join(&mut pass, other);
    let mut taken = 0;
    for number in 0..1025u64 {
        if take(rt, &jobs, &mut pass) == Some(number) {
            taken = number + 1;
        }
    }
    Ok((posted, taken))
}

#[test]
fn the_1025th_job_comes_back(rt: HostRuntime) -> Result<(), Fail> {
    assert!(rt; fill(&rt, rt.alloc())? == (1024, 1024));
    Ok(())
}

fn post_some<R: Wait>(rt: &R, jobs: &Jobs, mut pass: JobPass, from: u32) -> bool
    requires own { IsJobPassOf jobs.now pass }
    requires job { (g : ℕ) → IsJobOf (home_in pass) (Cancel 0 g) }
{
    let mut all = true;
    for number in 0..EACH {
        if !post(rt, jobs, &mut pass, u64::from(from) + number) {
            all = false;
        }
    }
    all
}

// The generations of the jobs that were taken, below 64, as bits.
fn take_all<R: Wait>(rt: &R, jobs: &Jobs, mut pass: JobPass) -> u64
    requires { IsJobPassOf jobs.now pass }
{
    let mut seen = 0;
    for tries in 0..2 * EACH {
        let _ = tries;
        if let Some(generation) = take(rt, jobs, &mut pass) {
            seen |= 1 << (generation % 64);
        }
    }
    seen
}

// Two threads post 32 jobs each, and then two take what is there.
fn exchange<R: Threads + Wait + Sync>(
    rt: &R,
    alloc: Global,
) -> Result<(bool, u64, u64), AllocError> {
    let (claims, _openers, _passes) = Claims::new(alloc, 1, 1)?;
    let (jobs, mut four) = Jobs::new(alloc, &claims, 1)?;
    let one = jobs.split(&mut four);
    let two = jobs.split(&mut four);
    let three = jobs.split(&mut four);
    let (a, b) = join(
        rt,
        || -> bool
            requires { IsJobPassOf jobs one × ((g : ℕ) → IsJobOf (home_in one) (Cancel 0 g)) }
        { post_some(rt, &jobs, one, 0) },
        || -> bool
            requires { IsJobPassOf jobs two × ((g : ℕ) → IsJobOf (home_in two) (Cancel 0 g)) }
        { post_some(rt, &jobs, two, 32) },
    );
    let (c, d) = join(
        rt,
        || -> u64
            requires { IsJobPassOf jobs three }
        { take_all(rt, &jobs, three) },
        || -> u64
            requires { IsJobPassOf jobs four }
        { take_all(rt, &jobs, four) },
    );
    Ok((a && b, c, d))
}

#[test]
fn two_threads_take_each_job_once(rt: HostRuntime) -> Result<(), Fail> {
    for _ in 0..20u32 {
        let (all, a, b) = exchange(&rt, rt.alloc())?;
        assert!(rt; all);
        assert!(rt; a & b == 0 && a | b == u64::MAX);
    }
    Ok(())
}

// Claims the slot's first suspension, and posts a continuation with the note of it.
fn post_won<R: Wait>(
    rt: &R,
    claims: &Claims,
    jobs: &Jobs,
    mut pass: JobPass,
    mut claimer: ClaimPass,
) -> bool
    requires own { IsJobPassOf jobs.now pass × (home_in pass ≡ home_of claims.now 1) }
    requires claimer { IsClaimPassOf claims.now claimer × (0 < slots_of claims.now) }
{
    let ClaimEnd::Won(_) = claims.claim(&mut claimer, 0, 1, By::Continued) else {
        return false;
    };
    let note = claims.note(&mut claimer, 0, 1);
    jobs.post_as(rt, &mut pass, Job::Continue { note, route: 0 })
        .is_ok()
}

// Takes a continuation, and gives its note to the Opener: the claim's serial, the route, and the Opener's latest serial.
fn meet_next<R: Wait>(
    rt: &R,
    claims: &Claims,
    jobs: &Jobs,
    mut pass: JobPass,
    mut opener: Opener,
) -> (u64, u32, u64)
    requires own { IsJobPassOf jobs.now pass × (home_in pass ≡ home_of claims.now 1) }
    requires opener { IsOpenerOf claims.now opener }
{
    for _ in rt.forever() {
        if let Some(Job::Continue { note, route }) = jobs.next_as(rt, &mut pass) {
            let serial = note.serial();
            claims.meet(&mut opener, note);
            return (serial, route, opener.last());
        }
        yield_now();
    }
    unreachable!()
}

// Claims of one slot for one worker.
fn made(alloc: Global) -> Result<(Claims, Opener, ClaimPass), AllocError>
    ensures slots { IfOk result (λ r. slots_of r.0 ≡ 1) }
    ensures opener { IfOk result (λ r. IsNewOpener r.0 0 r.1) }
    ensures pass { IfOk result (λ r. IsNewPass r.0 0 r.2) }
{
    let (claims, mut openers, mut passes) = Claims::new(alloc, 1, 1)?;
    let opener = openers.remove(0);
    let pass = passes.remove(0);
    Ok((claims, opener, pass))
}

// One thread posts a continuation of a claim that it won, and another takes it.
fn hand_over<R: Threads + Wait + Sync>(
    rt: &R,
    alloc: Global,
) -> Result<(bool, (u64, u32, u64)), AllocError> {
    let (claims, mut opener, claimer) = made(alloc)?;
    claims.open(&mut opener, 0);
    let (jobs, mut one) = Jobs::new(alloc, &claims, 1)?;
    let two = jobs.split(&mut one);
    Ok(join(
        rt,
        || -> bool
            requires { IsJobPassOf jobs one × (home_in one ≡ home_of claims 1) × IsClaimPassOf claims claimer × (0 < slots_of claims) }
        { post_won(rt, &claims, &jobs, one, claimer) },
        || -> (u64, u32, u64)
            requires { IsJobPassOf jobs two × (home_in two ≡ home_of claims 1) × IsOpenerOf claims opener }
        { meet_next(rt, &claims, &jobs, two, opener) },
    ))
}

#[test]
fn a_won_claim_goes_to_another_thread(rt: HostRuntime) -> Result<(), Fail> {
    assert!(rt; hand_over(&rt, rt.alloc())? == (true, (1, 0, 1)));
    Ok(())
}

fn shares<T: Sync>(_x: &T) {}

fn sends<T: Send>(x: T) -> T {
    x
}

// A queue may be shared, and passes and jobs may cross threads.
fn crosses(jobs: &Jobs, pass: JobPass, job: Job) -> (JobPass, Job) {
    shares(jobs);
    (sends(pass), sends(job))
}
