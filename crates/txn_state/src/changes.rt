//! What steps change in the branches of a transaction.
ghost use Rattle.std.specs.Prelude.{◌≡◌, ◌≤◌, ℕ, List, Some, None, IfSome, true, length, slice_get, option_copied, option_map};
ghost use Rattle.buf_pool.specs.Ledgers.{LedgerName};
ghost use Rattle.fork_core.specs.Responses.{History};
ghost use Rattle.host_meaning.specs.Run.{Received};
ghost use Rattle.txn_dialogue.specs.Slots.{TxnBranch, change_at};
ghost use Rattle.txn_state.specs.Texts.{pool_of};
ghost use Rattle.txn_state.specs.Kept.{branch_shown, branches_shown, requests_of, state_shown, AreOfPool};

use crate::branch::{Branch, BranchState};
use crate::txn::Txn;

impl Txn {
    /// The branch of this number; none where there is no such branch.
    pub fn branch(&self, n: u8) -> Option<&Branch>
        ensures { option_copied result ≡ slice_get self.now.branches.items n }
    {
        self.branches.get(usize::from(n))
    }

    /// What steps change in the branch of this number; none where there is no such branch.
    pub fn branch_state(&self, n: u8) -> Option<BranchState>
        ensures { result ≡ option_map (λ b. b.state) (slice_get self.now.branches.items n) }
    {
        match self.branches.get(usize::from(n)) {
            Some(branch) => Some(branch.state),
            None => None,
        }
    }

    /// Changes the branch of this number so; nothing where there is no such branch.
    pub fn set_branch_state(&mut self, n: u8, state: BranchState)
        ensures changes { (request : Received) (f : TxnBranch → TxnBranch)
            → ((b : Branch) → slice_get self.old.branches.items n ≡ Some b → branch_shown request (record b { state = state }) ≡ f (branch_shown request b))
            → branches_shown request self.new.branches.items ≡ change_at n f (branches_shown request self.old.branches.items) }
        ensures requests { requests_of self.new.branches.items ≡ requests_of self.old.branches.items }
        ensures pools { (pool : LedgerName) → AreOfPool pool self.old.branches.items → AreOfPool pool self.new.branches.items }
        ensures count { length self.new.branches.items ≡ length self.old.branches.items }
        ensures same { self.new ≡ record self.old { branches = self.new.branches; few = self.new.few } }
    {
        set_state(self.branches.as_mut_slice(), n, state);
    }

    /// Keeps this response for the branch of this number, without one none; nothing where there is no such branch.
    pub fn keep_response(&mut self, n: u8, text: Option<&[u8]>)
        requires { IfSome text (λ t. length t.now ≤ 8192) }
        ensures keeps { (request : Received) → branches_shown request self.new.branches.items
            ≡ change_at n (λ b. record b { kept = option_map (λ t. t.now) text.entry }) (branches_shown request self.old.branches.items) }
        ensures requests { requests_of self.new.branches.items ≡ requests_of self.old.branches.items }
        ensures pools { (pool : LedgerName) → AreOfPool pool self.old.branches.items → AreOfPool pool self.new.branches.items }
        ensures count { length self.new.branches.items ≡ length self.old.branches.items }
        ensures same { self.new ≡ record self.old { branches = self.new.branches; few = self.new.few } }
    {
        keep(self.branches.as_mut_slice(), n, text);
    }

    /// The request of the branch of this number couldn't be sent: its timer X is due at once. Nothing where there is no such
    /// branch.
    pub fn mark_unsent(&mut self, n: u8, now: u64)
        ensures { (request : Received) (h : History) → state_shown request h self.new
            ≡ record (state_shown request h self.old) { branches = change_at n (λ b. record b { unsent_due = Some now }) (state_shown request h self.old).branches } }
    {
        set_unsent(self.branches.as_mut_slice(), n, now);
    }
}

impl Branch {
    /// Keeps this response; without one none.
    fn keep(&mut self, text: Option<&[u8]>)
        requires { IfSome text (λ t. length t.now ≤ 8192) }
        ensures keeps { (request : Received) → branch_shown request self.new ≡ record (branch_shown request self.old) { kept = option_map (λ t. t.now) text.entry } }
        ensures request { self.new.request ≡ self.old.request }
        ensures pool { pool_of self.new.response ≡ pool_of self.old.response }
    {
        self.state.has_response = text.is_some();
        if let Some(text) = text {
            self.response.write(text);
        }
    }
}

fn set_state(branches: &mut [Branch], n: u8, state: BranchState)
    ensures changes { (request : Received) (f : TxnBranch → TxnBranch)
        → ((b : Branch) → slice_get branches.old n ≡ Some b → branch_shown request (record b { state = state }) ≡ f (branch_shown request b))
        → branches_shown request branches.new ≡ change_at n f (branches_shown request branches.old) }
    ensures requests { requests_of branches.new ≡ requests_of branches.old }
    ensures pools { (pool : LedgerName) → AreOfPool pool branches.old → AreOfPool pool branches.new }
    ensures count { length branches.new ≡ length branches.old }
{
    let n = usize::from(n);
    if n < branches.len() {
        branches[n].state = state;
    }
}

fn keep(branches: &mut [Branch], n: u8, text: Option<&[u8]>)
    requires { IfSome text (λ t. length t.now ≤ 8192) }
    ensures keeps { (request : Received) → branches_shown request branches.new
        ≡ change_at n (λ b. record b { kept = option_map (λ t. t.now) text.entry }) (branches_shown request branches.old) }
    ensures requests { requests_of branches.new ≡ requests_of branches.old }
    ensures pools { (pool : LedgerName) → AreOfPool pool branches.old → AreOfPool pool branches.new }
    ensures count { length branches.new ≡ length branches.old }
{
    let n = usize::from(n);
    if n < branches.len() {
        branches[n].keep(text);
    }
}

fn set_unsent(branches: &mut [Branch], n: u8, now: u64)
    ensures { (request : Received) → branches_shown request branches.new ≡ change_at n (λ b. record b { unsent_due = Some now }) (branches_shown request branches.old) }
{
    let n = usize::from(n);
    if n < branches.len() {
        branches[n].state.unsent_due = Some(now);
    }
}
