//! The timers of a transaction with one branch, and when it is over.

use crate::{Branch, BranchState, Progress, ScriptState, TextBlock, Txn};
use buf_pool::Pool;
use fork_core::Context;
use msg_edits::Edits;
use outside_ports::Addr;
use pv_table::{ArmedBlocks, Avps, FinalTimers};
use pv_values::Text;
use sqlite_items::Items;
use std::alloc::{AllocError, Global};
use std::test::Fail;
use txn_client::{Client, ClientState, ClientTimer};
use txn_dialogue::{BranchTimer, SlotTimer};
use txn_server::{Server, ServerState, ServerTimer};

/// 192.0.2.9:5060
const CALLEE: Addr = Addr {
    ip: 3_221_225_993,
    port: 5060,
};

fn block(pool: &mut Pool) -> Result<TextBlock, AllocError> {
    match pool.take() {
        Some(block) => Ok(TextBlock::new(block)),
        None => Err(AllocError),
    }
}

fn script(alloc: Global) -> Result<ScriptState, AllocError> {
    Ok(ScriptState {
        edits: Edits::new(),
        uri: Text::from_slice(alloc, b"")?,
        destination: None,
        targets: Items::new(alloc),
        avps: Avps::new(alloc),
        armed: ArmedBlocks {
            branch: None,
            failure: None,
            reply: None,
        },
        final_timers: FinalTimers {
            invite: 120_000,
            other: 30_000,
        },
        has_record_route: false,
        loose_route: None,
        absent_hops: None,
        label: None,
        suspensions: 0,
    })
}

fn branch(pool: &mut Pool, state: BranchState) -> Result<Branch, AllocError> {
    let request = block(pool)?;
    let response = block(pool)?;
    Ok(Branch {
        to: CALLEE,
        request,
        response,
        state,
    })
}

/// An INVITE with one branch.
fn invite(
    alloc: Global,
    pool: &mut Pool,
    server: Server,
    suspension_due: Option<u64>,
    state: BranchState,
) -> Result<Txn, AllocError> {
    let request = block(pool)?;
    let response = block(pool)?;
    let mut branches = Vec::new(alloc);
    branches.push(branch(pool, state)?)?;
    Ok(Txn {
        generation: 0,
        source: CALLEE,
        request,
        response,
        script: script(alloc)?,
        progress: Progress {
            server,
            has_response: false,
            removed: 0,
            suspension: None,
            suspension_due,
            is_cancelled: false,
            is_owed: false,
        },
        context: Context::new(true),
        branches,
    })
}

/// The server with timer G at this time, and a branch with the others: X, A, `fr`.
fn timers(
    retry: Option<u64>,
    unsent: Option<u64>,
    again: Option<u64>,
    last: Option<u64>,
) -> (Server, BranchState) {
    let server = Server {
        retry,
        state: ServerState::Completed,
        ..Server::new(true)
    };
    let client = Client {
        retry: again,
        ..Client::new(true)
    };
    let state = BranchState {
        client,
        cancel: None,
        has_response: false,
        is_cancelled: false,
        unsent_due: unsent,
        final_due: last,
        quit_due: None,
    };
    (server, state)
}

/// S goes before G, and these before those of a branch, of which X goes first and `fr` behind the client's; and none that isn't
/// due is handled.
#[test]
fn timers_that_are_due_at_one_time(rt: HostRuntime) -> Result<(), Fail> {
    let of = |timer: BranchTimer| SlotTimer::Branch(0, timer);
    let at = Some(500);
    for (s, retry, unsent, again, last, timer) in [
        (at, at, at, at, at, Some(SlotTimer::Suspension)),
        (
            None,
            at,
            at,
            at,
            at,
            Some(SlotTimer::Server(ServerTimer::Retry)),
        ),
        (None, None, at, at, at, Some(of(BranchTimer::Unsent))),
        (
            None,
            None,
            None,
            at,
            at,
            Some(of(BranchTimer::Client(ClientTimer::Retry))),
        ),
        (None, None, None, None, at, Some(of(BranchTimer::Final))),
        (
            at,
            Some(499),
            at,
            at,
            Some(499),
            Some(SlotTimer::Server(ServerTimer::Retry)),
        ),
        (Some(501), Some(501), None, None, None, None),
    ] {
        let mut pool = Pool::new(rt.alloc(), 4)?;
        let (server, state) = timers(retry, unsent, again, last);
        let txn = invite(rt.alloc(), &mut pool, server, s, state)?;
        assert_eq!(rt; txn.timer_at(500), timer);
    }
    Ok(())
}

/// The first due time of all, and the first one behind a time; a transaction is over once its server and its clients are. A request
/// that couldn't be sent is due at once.
#[test]
fn what_is_due_next(rt: HostRuntime) -> Result<(), Fail> {
    let mut pool = Pool::new(rt.alloc(), 4)?;
    let (server, state) = timers(Some(500), Some(700), None, Some(30_000));
    let mut txn = invite(rt.alloc(), &mut pool, server, None, state)?;
    assert_eq!(rt; txn.due(), Some(500));
    assert_eq!(rt; txn.due_above(500), Some(700));
    assert_eq!(rt; txn.due_above(30_000), None);
    assert_eq!(rt; txn.is_over(), false);
    txn.progress.server.state = ServerState::Terminated;
    assert_eq!(rt; txn.is_over(), false);
    if let Some(branch) = txn.branches.get_mut(0) {
        branch.state.client.state = ClientState::Terminated;
    }
    assert_eq!(rt; txn.is_over(), true);
    txn.mark_unsent(0, 40);
    txn.mark_unsent(1, 30);
    assert_eq!(rt;
        txn.timer_at(40),
        Some(SlotTimer::Branch(0, BranchTimer::Unsent))
    );
    txn.request.write(b"ACK");
    assert_eq!(rt; txn.request.text(), b"ACK".as_slice());
    Ok(())
}
