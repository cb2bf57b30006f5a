//! Claims call by call on one thread, and on several at once.
ghost use Rattle.std.specs.Prelude.{◌≡◌, ◌<◌, [], IfOk, length};
ghost use Rattle.claim_words.specs.Owned.{slots_of, workers_of, pass_clerk, IsOpenerOf, IsClaimPassOf, IsNewOpener, IsNewPass};

use crate::By::{Cancelled, Continued, TimedOut};
use crate::ClaimEnd::{Lost, Past, Unknown, Won};
use crate::{By, ClaimEnd, ClaimPass, Claims, ClosedClaims, Opener, PlainClaims};
use std::alloc::{AllocError, Global};
use std::process::Abort;
use std::sync::Wait;
use std::test::Fail;
use std::thread::{Threads, join};

// A call on slot 0, with what it answers.
#[derive(Clone, Copy)]
enum Call {
    Open(u64),
    Claim(u64, By, ClaimEnd),
}

const CALLS: [Call; 14] = [
    Call::Claim(1, Continued, Unknown),
    Call::Open(1),
    Call::Claim(0, Continued, Unknown),
    Call::Claim(2, Continued, Unknown),
    Call::Claim((1 << 60) + 1, Continued, Unknown),
    Call::Claim(u64::MAX, Continued, Unknown),
    Call::Claim(1, Continued, Won(0)),
    Call::Claim(1, TimedOut, Lost(Continued)),
    Call::Claim(1, Continued, Lost(Continued)),
    Call::Open(2),
    Call::Claim(1, Continued, Past(2)),
    Call::Claim(2, Cancelled, Won(1)),
    Call::Claim(2, TimedOut, Lost(Cancelled)),
    Call::Open(3),
];

fn play_alone(rt: &impl Abort, claims: &mut PlainClaims, call: Call)
    requires { length claims.old ≡ 2 }
    ensures { length claims.new ≡ 2 }
{
    match call {
        Call::Open(serial) => assert_eq!(rt; claims.open(0), serial),
        Call::Claim(serial, by, end) => {
            assert_eq!(rt; claims.claim(0, serial, by), end, "{serial} {by:?}")
        }
    }
}

#[test]
fn one_thread_opens_and_claims(rt: HostRuntime) -> Result<(), Fail> {
    let mut claims = PlainClaims::new(rt.alloc(), 2)?;
    for call in CALLS {
        play_alone(&rt, &mut claims, call);
    }
    // The other slot is as it was.
    assert_eq!(rt; claims.claim(1, 1, Continued), Unknown);
    assert_eq!(rt; claims.open(1), 1);
    Ok(())
}

// Claims of one slot for two workers.
fn made(alloc: Global) -> Result<(Claims, Opener, ClaimPass, ClaimPass), AllocError>
    ensures counts { IfOk result (λ r. (slots_of r.0 ≡ 1) × (workers_of r.0 ≡ 2)) }
    ensures opener { IfOk result (λ r. IsNewOpener r.0 0 r.1) }
    ensures passes { IfOk result (λ r. IsNewPass r.0 0 r.2 × IsNewPass r.0 1 r.3) }
{
    let (claims, mut openers, mut passes) = Claims::new(alloc, 1, 2)?;
    let opener = openers.remove(0);
    let one = passes.remove(0);
    let two = passes.remove(0);
    Ok((claims, opener, one, two))
}

fn play(rt: &impl Abort, claims: &Claims, opener: &mut Opener, pass: &mut ClaimPass, call: Call)
    requires opener { IsOpenerOf claims.now opener.old }
    requires pass { IsClaimPassOf claims.now pass.old }
    requires slot { 0 < slots_of claims.now }
    ensures opener { IsOpenerOf claims.now opener.new }
    ensures pass { IsClaimPassOf claims.now pass.new }
{
    match call {
        Call::Open(serial) => {
            assert!(rt; opener.last() < 1 << 60);
            assert_eq!(rt; claims.open(opener, 7), serial);
            assert_eq!(rt; opener.last(), serial);
        }
        Call::Claim(serial, by, end) => {
            assert_eq!(rt; claims.claim(pass, 0, serial, by), end, "{serial} {by:?}")
        }
    }
}

#[test]
fn threads_open_and_claim(rt: HostRuntime) -> Result<(), Fail> {
    let (claims, mut opener, mut pass, _other) = made(rt.alloc())?;
    for call in CALLS {
        play(&rt, &claims, &mut opener, &mut pass, call);
    }
    Ok(())
}

fn claim_first(claims: &Claims, mut pass: ClaimPass, by: By) -> ClaimEnd
    requires { IsClaimPassOf claims.now pass × (0 < slots_of claims.now) }
{
    claims.claim(&mut pass, 0, 1, by)
}

// Two threads claim one suspension.
fn race<R: Threads + Wait + Sync>(
    rt: &R,
    alloc: Global,
) -> Result<(ClaimEnd, ClaimEnd), AllocError> {
    let (claims, mut opener, one, two) = made(alloc)?;
    claims.open(&mut opener, 0);
    Ok(join(
        rt,
        || -> ClaimEnd
            requires { IsClaimPassOf claims one × (0 < slots_of claims) }
        { claim_first(&claims, one, Continued) },
        || -> ClaimEnd
            requires { IsClaimPassOf claims two × (0 < slots_of claims) }
        { claim_first(&claims, two, TimedOut) },
    ))
}

#[test]
fn one_of_two_threads_wins(rt: HostRuntime) -> Result<(), Fail> {
    for _ in 0..100u32 {
        let (a, b) = race(&rt, rt.alloc())?;
        let first = a == Won(0) && b == Lost(Continued);
        let second = a == Lost(TimedOut) && b == Won(0);
        assert!(rt; first != second);
    }
    Ok(())
}

// Ends the claims of one slot for two workers.
fn end(
    alloc: Global,
    claims: Claims,
    opener: Opener,
    one: ClaimPass,
    two: ClaimPass,
) -> Result<(), AllocError>
    requires counts { (slots_of claims ≡ 1) × (workers_of claims ≡ 2) }
    requires opener { IsOpenerOf claims opener × (opener.slot ≡ 0) }
    requires one { IsClaimPassOf claims one × (one.number ≡ 0) × ((pass_clerk one).got ≡ []) }
    requires two { IsClaimPassOf claims two × (two.number ≡ 1) }
{
    let mut passes = Vec::with_capacity(alloc, 2)?;
    passes.push_reserved(one);
    passes.push_reserved(two);
    let mut openers = Vec::with_capacity(alloc, 1)?;
    openers.push_reserved(opener);
    let ClosedClaims { last: _ } = claims.close(passes, openers);
    Ok(())
}

// What a note of a claim that was won tells, and the Opener's latest serial once it took the note in.
fn noted(alloc: Global) -> Result<Option<(u32, u64, u64)>, AllocError> {
    let (claims, mut opener, mut one, two) = made(alloc)?;
    let serial = claims.open(&mut opener, 0);
    let Won(_) = claims.claim(&mut one, 0, serial, Continued) else {
        return Ok(None);
    };
    let note = claims.note(&mut one, 0, serial);
    let told = (note.slot(), note.serial());
    claims.meet(&mut opener, note);
    let last = opener.last();
    let slot = opener.slot();
    end(alloc, claims, opener, one, two)?;
    Ok((slot == told.0).then_some((told.0, told.1, last)))
}

#[test]
fn a_note_of_a_won_claim_is_met(rt: HostRuntime) -> Result<(), Fail> {
    assert_eq!(rt; noted(rt.alloc())?, Some((0, 1, 1)));
    Ok(())
}
