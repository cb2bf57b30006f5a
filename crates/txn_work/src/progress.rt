//! How far a transaction has come: its suspension, its cancellation, its armed blocks, and the timers of its branches.
ghost use Rattle.std.specs.Prelude.{◌≡◌, ℕ, Some, None};
ghost use Rattle.txn_moments.specs.Moments.{moment_after};
ghost use Rattle.host_meaning.specs.Transactions.{is_invite};
ghost use Rattle.txn_dialogue.specs.Sends.{at_branch};
ghost use Rattle.txn_dialogue.specs.Rounds.{disarmed, suspending};
ghost use Rattle.txn_dialogue.specs.Replies.{final_due_after};
ghost use Rattle.txn_dialogue.specs.Events.{cancelled, undue, unsuspended};

use crate::work::Work;
use txn_moments::after;
use txn_state::Txn;
use txn_texts::Readings;

impl Work {
    ghost use Rattle.buf_pool.specs.Ledgers.{LedgerName};
    ghost use Rattle.txn_dialogue.specs.Sends.{Work as Decided};
    ghost use Rattle.txn_work.specs.Works.{Shows};

    /// The transaction waits until it is continued; timer S ends that.
    pub fn suspend(&self, txn: &mut Txn)
        ensures suspends { (pool : LedgerName) (r : Readings) (d : Decided) → Shows pool txn.old r self.now d → Shows pool txn.new r self.now (suspending d) }
        ensures same { txn.new ≡ record txn.old { progress = txn.new.progress } }
    {
        txn.progress.suspension = txn.script.label;
        txn.progress.suspension_due = Some(after(self.time, txn.script.final_timers.other));
    }

    /// The suspension is over.
    pub fn resume(&self, txn: &mut Txn)
        ensures resumes { (pool : LedgerName) (r : Readings) (d : Decided) → Shows pool txn.old r self.now d → Shows pool txn.new r self.now (unsuspended d) }
        ensures same { txn.new ≡ record txn.old { progress = txn.new.progress } }
    {
        txn.progress.suspension = None;
        txn.progress.suspension_due = None;
        txn.progress.is_owed = false;
    }

    /// Timer S is disarmed.
    pub fn disarm_suspension(&self, txn: &mut Txn)
        ensures disarms { (pool : LedgerName) (r : Readings) (d : Decided) → Shows pool txn.old r self.now d → Shows pool txn.new r self.now (undue d) }
        ensures same { txn.new ≡ record txn.old { progress = txn.new.progress } }
    {
        txn.progress.suspension_due = None;
    }

    /// A CANCEL came; `owed` says whether a continuation is still to run after it.
    pub fn mark_transaction_cancelled(&self, txn: &mut Txn, owed: bool)
        ensures marks { (pool : LedgerName) (r : Readings) (d : Decided) → Shows pool txn.old r self.now d → Shows pool txn.new r self.now (cancelled owed d) }
        ensures same { txn.new ≡ record txn.old { progress = txn.new.progress } }
    {
        txn.progress.is_cancelled = true;
        txn.progress.is_owed = owed;
    }

    /// The block that is armed for a failure is disarmed.
    pub fn disarm_failure(&self, txn: &mut Txn)
        ensures disarms { (pool : LedgerName) (r : Readings) (d : Decided) → Shows pool txn.old r self.now d → Shows pool txn.new r self.now (disarmed d) }
        ensures same { txn.new ≡ record txn.old { script = txn.new.script } }
    {
        txn.script.armed.failure = None;
    }

    /// Timer X of the branch of this number is disarmed.
    pub fn disarm_unsent(&self, txn: &mut Txn, n: u8)
        ensures disarms { (pool : LedgerName) (r : Readings) (d : Decided) → Shows pool txn.old r self.now d
            → Shows pool txn.new r self.now (at_branch n (λ b. record b { unsent_due = None }) d) }
        ensures same { txn.new ≡ record txn.old { branches = txn.new.branches; few = txn.new.few } }
    {
        if let Some(mut state) = txn.branch_state(n) {
            state.unsent_due = None;
            txn.set_branch_state(n, state);
        }
    }

    /// Timer `fr` of the branch of this number is disarmed.
    pub fn disarm_final(&self, txn: &mut Txn, n: u8)
        ensures disarms { (pool : LedgerName) (r : Readings) (d : Decided) → Shows pool txn.old r self.now d
            → Shows pool txn.new r self.now (at_branch n (λ b. record b { final_due = None }) d) }
        ensures same { txn.new ≡ record txn.old { branches = txn.new.branches; few = txn.new.few } }
    {
        if let Some(mut state) = txn.branch_state(n) {
            state.final_due = None;
            txn.set_branch_state(n, state);
        }
    }

    /// Timer Q of the branch of this number is disarmed.
    pub fn disarm_quit(&self, txn: &mut Txn, n: u8)
        ensures disarms { (pool : LedgerName) (r : Readings) (d : Decided) → Shows pool txn.old r self.now d
            → Shows pool txn.new r self.now (at_branch n (λ b. record b { quit_due = None }) d) }
        ensures same { txn.new ≡ record txn.old { branches = txn.new.branches; few = txn.new.few } }
    {
        if let Some(mut state) = txn.branch_state(n) {
            state.quit_due = None;
            txn.set_branch_state(n, state);
        }
    }

    /// A response with this code came: `fr` of the branch of this number runs anew at each provisional response to an INVITE, and
    /// stops at a final one.
    pub fn time_final(&self, txn: &mut Txn, n: u8, invite: bool, code: u16)
        ensures times { (pool : LedgerName) (r : Readings) (d : Decided) → Shows pool txn.old r self.now d
            → Shows pool txn.new r self.now (at_branch n (λ b. record b { final_due = final_due_after invite code (moment_after d.now d.state.final_timers.invite) b.final_due }) d) }
        ensures same { txn.new ≡ record txn.old { branches = txn.new.branches; few = txn.new.few } }
    {
        let due = after(self.time, txn.script.final_timers.invite);
        if let Some(mut state) = txn.branch_state(n) {
            state.final_due = final_due(invite, code, due, state.final_due);
            txn.set_branch_state(n, state);
        }
    }
}

/// When `fr` is due after a response with this code.
fn final_due(invite: bool, code: u16, due: u64, old: Option<u64>) -> Option<u64>
    ensures { result ≡ final_due_after invite code due old }
{
    old?;
    if code >= 200 {
        None
    } else if invite {
        Some(due)
    } else {
        old
    }
}
