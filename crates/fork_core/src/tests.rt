//! The choices on tables of cases, and a request forwarded in three rounds.

use super::*;
use std::process::Abort;

/// A context with this many branches in its first round.
fn forked(rt: &impl Abort, invite: bool, branches: u8) -> Context {
    let mut c = Context::new(invite);
    for b in 0..branches {
        assert_eq!(rt; c.add(), Some(b));
    }
    c
}

fn reply(rt: &impl Abort, c: &mut Context, b: u8, code: u16, answered: bool) -> Forwarding {
    assert!(rt; usize::from(b) < c.branches());
    c.on_reply(b, code, answered)
}

/// What joins a chosen response.
fn joined(rt: &impl Abort, c: &Context, chosen: u8, wanted: &[u8]) {
    assert!(rt; usize::from(chosen) < c.branches());
    assert_eq!(rt;
        c.challenges(chosen).as_slice(),
        wanted,
        "that join {chosen}"
    );
}

/// How the context is used: an INVITE to three branches, of which one asks for credentials.
#[test]
fn a_forked_invite_ends_with_a_challenge(rt: HostRuntime) {
    let mut c = Context::new(true);
    for b in 0..3 {
        assert_eq!(rt; c.add(), Some(b));
    }
    assert_eq!(rt; reply(&rt, &mut c, 1, 180, false), Forwarding::Now);
    assert_eq!(rt; reply(&rt, &mut c, 0, 404, false), Forwarding::Kept);
    assert_eq!(rt; c.to_cancel().as_slice(), [1, 2].as_slice());
    assert_eq!(rt; reply(&rt, &mut c, 2, 503, false), Forwarding::Kept);
    assert!(rt; !c.has_failed());
    assert_eq!(rt; reply(&rt, &mut c, 1, 401, false), Forwarding::Kept);
    assert!(rt; c.has_failed());
    assert_eq!(rt; c.best(), Some(1));
    joined(&rt, &c, 1, &[]);
}

#[test]
fn the_best_of_two_or_three(rt: HostRuntime) {
    let table: [(&[u16], Option<u8>); 18] = [
        (&[404, 401, 503], Some(1)),
        (&[404, 603], Some(1)),
        (&[604, 603], Some(1)),
        (&[603, 603], Some(0)),
        (&[603, 302], Some(0)),
        (&[503, 404], Some(1)),
        (&[500, 503], Some(0)),
        (&[404, 407], Some(1)),
        (&[407, 401], Some(1)),
        (&[403, 415], Some(1)),
        (&[403, 420], Some(1)),
        (&[403, 484], Some(1)),
        (&[486, 404], Some(1)),
        (&[302, 401], Some(0)),
        (&[404, 404], Some(0)),
        (&[200, 404], Some(1)),
        (&[200], None),
        (&[], None),
    ];
    for (codes, best) in table {
        let mut c = forked(&rt, true, codes.len().min(12) as u8);
        for (b, code) in codes.iter().take(12).enumerate() {
            let _ = reply(&rt, &mut c, b as u8, *code, false);
        }
        assert_eq!(rt; c.best(), best, "of {codes:?}");
    }
}

#[test]
fn where_responses_to_an_invite_go(rt: HostRuntime) {
    use Forwarding::{Kept, Nothing, Now};
    let mut c = forked(&rt, true, 4);
    for (b, code, answered, wanted) in [
        (0, 100, false, Nothing),
        (0, 101, false, Now),
        (0, 180, true, Nothing),
        (0, 404, false, Kept),
        (0, 180, false, Now),
        (0, 486, false, Nothing),
        (0, 200, true, Now),
        (1, 603, false, Kept),
        (1, 604, false, Nothing),
        (2, 200, true, Now),
        (2, 299, true, Now),
        (2, 401, true, Nothing),
        (3, 99, false, Nothing),
        (3, 700, false, Nothing),
        (3, 699, true, Kept),
    ] {
        assert_eq!(rt;
            reply(&rt, &mut c, b, code, answered),
            wanted,
            "{code} on {b}"
        );
    }
}

#[test]
fn where_responses_to_another_request_go(rt: HostRuntime) {
    use Forwarding::{Kept, Nothing, Now};
    let mut c = forked(&rt, false, 3);
    for (b, code, answered, wanted) in [
        (0, 180, false, Now),
        (0, 200, false, Now),
        (1, 200, true, Nothing),
        (1, 404, true, Nothing),
        (2, 408, true, Kept),
    ] {
        assert_eq!(rt;
            reply(&rt, &mut c, b, code, answered),
            wanted,
            "{code} on {b}"
        );
    }
    assert_eq!(rt; c.to_cancel().as_slice(), [].as_slice());
}

#[test]
fn branches_to_cancel(rt: HostRuntime) {
    let mut c = forked(&rt, true, 3);
    assert_eq!(rt; c.to_cancel().as_slice(), [0, 1, 2].as_slice());
    let _ = reply(&rt, &mut c, 0, 180, false);
    let _ = reply(&rt, &mut c, 1, 486, false);
    assert_eq!(rt; c.to_cancel().as_slice(), [0, 2].as_slice());
    let _ = reply(&rt, &mut c, 2, 200, false);
    assert_eq!(rt; c.to_cancel().as_slice(), [0].as_slice());
}

#[test]
fn challenges_that_join(rt: HostRuntime) {
    let mut c = forked(&rt, true, 5);
    for (b, code) in [(0, 401), (1, 404), (2, 407), (3, 200), (4, 401)] {
        let _ = reply(&rt, &mut c, b, code, false);
    }
    assert_eq!(rt; c.best(), Some(0));
    joined(&rt, &c, 0, &[2, 4]);
    joined(&rt, &c, 2, &[0, 4]);
    joined(&rt, &c, 1, &[]);
}

#[test]
fn a_second_round(rt: HostRuntime) {
    let mut c = forked(&rt, true, 2);
    assert_eq!(rt; reply(&rt, &mut c, 0, 404, false), Forwarding::Kept);
    c.new_round();
    assert_eq!(rt; c.best(), None, "a round without a branch");
    assert_eq!(rt; c.add(), Some(2));
    assert_eq!(rt; reply(&rt, &mut c, 1, 401, false), Forwarding::Kept);
    assert_eq!(rt; c.best(), None, "an earlier branch isn't of this round");
    assert_eq!(rt; reply(&rt, &mut c, 2, 503, false), Forwarding::Kept);
    assert_eq!(rt; c.best(), Some(2));
    joined(&rt, &c, 2, &[]);
    joined(&rt, &c, 1, &[]);
}

#[test]
fn twelve_branches(rt: HostRuntime) {
    let mut c = forked(&rt, true, 7);
    c.new_round();
    for b in 7..12 {
        assert_eq!(rt; c.add(), Some(b));
    }
    assert_eq!(rt; c.add(), None);
    c.new_round();
    assert_eq!(rt; c.add(), None);
    assert_eq!(rt; c.branches(), 12);
}

#[test]
fn a_round_that_has_failed(rt: HostRuntime) {
    let table: [(&[(u8, u16)], bool); 9] = [
        (&[], false),
        (&[(0, 404)], false),
        (&[(0, 404), (1, 180)], false),
        (&[(0, 404), (1, 486)], true),
        (&[(1, 699), (0, 300)], true),
        (&[(0, 404), (1, 200)], false),
        (&[(0, 299), (1, 603)], false),
        (&[(0, 200), (0, 404), (1, 404)], false),
        (&[(0, 404), (0, 200), (1, 404)], true),
    ];
    for (responses, wanted) in table {
        let mut c = forked(&rt, true, 2);
        for (b, code) in responses {
            let _ = reply(&rt, &mut c, *b, *code, false);
        }
        assert_eq!(rt; c.has_failed(), wanted, "after {responses:?}");
    }
}

#[test]
fn only_the_last_round_fails(rt: HostRuntime) {
    let mut c = forked(&rt, true, 2);
    let _ = reply(&rt, &mut c, 0, 200, false);
    c.new_round();
    assert!(rt; c.has_failed(), "a round without a branch");
    assert_eq!(rt; c.add(), Some(2));
    assert!(rt; !c.has_failed(), "no final response yet");
    let _ = reply(&rt, &mut c, 2, 503, true);
    assert!(rt; c.has_failed(), "earlier branches take no part");
}
