//! The timers of a transaction: those of its server, of its clients, and the proxy's own.
ghost use Rattle.std.specs.Prelude.{◌≡◌, ◌≤◌, ℕ, option_map, length, true};
ghost use Rattle.fork_core.specs.Responses.{History};
ghost use Rattle.host_meaning.specs.Run.{Received};
ghost use Rattle.txn_dialogue.specs.Timers.{armed, timers_of, branch_timers, branches_timers, client_timers, cancel_timers, least_due, least_due_above, first_timer, if_due, timer_at};
ghost use Rattle.txn_state.specs.Kept.{branch_shown, branches_shown, state_shown};
ghost use Rattle.txn_state.specs.Due.{Adds, above, is_above, client_timer_of};

use crate::branch::Branch;
use crate::txn::Txn;
use txn_client::{Client, ClientTimer};
use txn_dialogue::{ArmedTimer, BranchTimer, SlotTimer};
use txn_server::ServerTimer;

/// The first of the timers so far, of those that are due above a moment, where there is one.
#[derive(Clone, Copy)]
struct First {
    above: Option<u64>,
    first: Option<ArmedTimer>,
}

impl First {
    /// Looks at this timer too.
    fn armed(self, timer: SlotTimer, due: Option<u64>) -> First
        ensures adds { Adds self.above self.first (armed timer due) result.first }
        ensures same { result.above ≡ self.above }
    {
        let Some(due) = due else {
            return self;
        };
        if !self.is_above(due) {
            return self;
        }
        let first = match self.first {
            Some(first) if first.due <= due => first,
            _ => ArmedTimer { timer, due },
        };
        First {
            first: Some(first),
            ..self
        }
    }

    fn is_above(self, due: u64) -> bool
        ensures { result ≡ is_above self.above due }
    {
        match self.above {
            Some(now) => now < due,
            None => true,
        }
    }

    /// Looks at the timers of a client too: that of the branch of this number, or that of its CANCEL.
    fn client(self, n: u8, is_cancel: bool, client: &Client) -> First
        ensures adds { Adds self.above self.first (client_timers (client_timer_of n is_cancel) client.now) result.first }
        ensures same { result.above ≡ self.above }
    {
        self.armed(client_timer(n, is_cancel, ClientTimer::Retry), client.retry)
            .armed(client_timer(n, is_cancel, ClientTimer::Limit), client.limit)
            .armed(
                client_timer(n, is_cancel, ClientTimer::Linger),
                client.linger,
            )
    }

    /// Looks at those of the client of a CANCEL, where there is one.
    fn cancel(self, n: u8, client: &Option<Client>) -> First
        ensures adds { Adds self.above self.first (cancel_timers (client_timer_of n true) client.now) result.first }
        ensures same { result.above ≡ self.above }
    {
        match client {
            Some(client) => self.client(n, true, client),
            None => self,
        }
    }

    /// Looks at those of the branch of this number too.
    fn branch(self, n: u8, branch: &Branch) -> First
        ensures adds { (request : Received) → Adds self.above self.first (branch_timers n (branch_shown request branch.now)) result.first }
        ensures same { result.above ≡ self.above }
    {
        let state = &branch.state;
        self.armed(SlotTimer::Branch(n, BranchTimer::Unsent), state.unsent_due)
            .client(n, false, &state.client)
            .armed(SlotTimer::Branch(n, BranchTimer::Final), state.final_due)
            .armed(SlotTimer::Branch(n, BranchTimer::Quit), state.quit_due)
            .cancel(n, &state.cancel)
    }

    /// Looks at those of all branches too.
    fn branches(self, branches: &[Branch]) -> First
        requires few { length branches.now ≤ 12 }
        ensures adds { (request : Received) → Adds self.above self.first (branches_timers 0 (branches_shown request branches.now)) result.first }
        ensures same { result.above ≡ self.above }
    {
        let mut first = self;
        for (n, branch) in branches.iter().enumerate() {
            first = first.branch(n as u8, branch);
        }
        first
    }
}

fn client_timer(n: u8, is_cancel: bool, timer: ClientTimer) -> SlotTimer
    ensures { result ≡ client_timer_of n is_cancel timer }
{
    let timer = if is_cancel {
        BranchTimer::Cancel(timer)
    } else {
        BranchTimer::Client(timer)
    };
    SlotTimer::Branch(n, timer)
}

impl Txn {
    /// The first timer, of those that are due above a moment: S, then the server's, then the branches' by number. Of timers
    /// that are due at one time the first one in this order goes before the others.
    fn first_timer(&self, moment: Option<u64>) -> Option<ArmedTimer>
        ensures { (request : Received) (h : History) → result ≡ first_timer (above moment (timers_of (state_shown request h self.now))) }
    {
        let server = &self.progress.server;
        let none = First {
            above: moment,
            first: None,
        };
        none.armed(SlotTimer::Suspension, self.progress.suspension_due)
            .armed(SlotTimer::Server(ServerTimer::Retry), server.retry)
            .armed(SlotTimer::Server(ServerTimer::End), server.end)
            .branches(self.branches.as_slice())
            .first
    }

    /// When the first of all timers is due, in milliseconds.
    pub fn due(&self) -> Option<u64>
        ensures { (request : Received) (h : History) → result ≡ least_due (state_shown request h self.now) }
    {
        due_of(self.first_timer(None))
    }

    /// When the first of the timers is due that are due after `now`.
    pub fn due_above(&self, now: u64) -> Option<u64>
        ensures { (request : Received) (h : History) → result ≡ least_due_above now (state_shown request h self.now) }
    {
        due_of(self.first_timer(Some(now)))
    }

    /// The timer that a step at `now` handles: the first one, where it is due by now.
    pub fn timer_at(&self, now: u64) -> Option<SlotTimer>
        ensures { (request : Received) (h : History) → result ≡ timer_at now (state_shown request h self.now) }
    {
        due_by(now, self.first_timer(None))
    }
}

fn due_by(now: u64, first: Option<ArmedTimer>) -> Option<SlotTimer>
    ensures { result ≡ if_due now first }
{
    match first {
        Some(first) if first.due <= now => Some(first.timer),
        _ => None,
    }
}

fn due_of(first: Option<ArmedTimer>) -> Option<u64>
    ensures { result ≡ option_map (λ t. t.due) first }
{
    match first {
        Some(first) => Some(first.due),
        None => None,
    }
}
