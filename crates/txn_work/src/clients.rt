//! Clients: the requests of the branches, their ACKs and their CANCELs.
ghost use Rattle.std.specs.Prelude.{◌≡◌, ◌<◌, ◌≤◌, ◌+◌, ℕ, List, Option, Some, None, true, length, slice_get};
ghost use Rattle.txn_client.specs.Rows.{client_over};
ghost use Rattle.txn_client.specs.After.{client_after};
ghost use Rattle.txn_dialogue.specs.Slots.{TxnBranch};
ghost use Rattle.txn_dialogue.specs.Sends.{all_cancelling, at_branch, begun_client, cancel_ripe, cancelling, cancelling_pending, client_step};
ghost use Rattle.txn_dialogue.specs.Replies.{over_client, to_cancel_client};
ghost use Rattle.txn_texts.specs.Texts.{IsRead, seen_of};
ghost use Rattle.txn_texts.specs.Desks.{last_on, passed_on};
ghost use Rattle.txn_texts.specs.Outboxes.{room_in};

use crate::work::Work;
use txn_client::{Client, ClientActs, ClientEvent, ClientState, client_step};
use txn_moments::after;
use txn_state::Txn;
use txn_texts::{OutText, Readings};

/// How long a cancelled branch may take to its final response, in milliseconds: 64 * T1 (RFC 3261, section 9.1).
const TO_QUIT: u64 = 32_000;

impl Work {
    ghost use Rattle.buf_pool.specs.Ledgers.{LedgerName};
    ghost use Rattle.txn_dialogue.specs.Sends.{Work as Decided};
    ghost use Rattle.txn_work.specs.Works.{Shows, ack_for, cancel_stepped, parts_in};

    /// An event happens to the client of the branch of this number: its request is sent again, and the response that came is
    /// acknowledged, where the client's table says so (RFC 3261, section 17.1.1.3). Nothing where there is no such branch.
    pub fn step_client(
        &mut self,
        txn: &mut Txn,
        readings: &Readings<'_>,
        n: u8,
        event: ClientEvent,
    ) -> ClientActs
        requires read { IsRead txn.old readings.now }
        requires room { 1 < room_in self.old.outbox }
        ensures steps { (pool : LedgerName) (d : Decided) (b : TxnBranch) → Shows pool txn.old readings.now self.old d → slice_get d.state.branches n ≡ Some b
            → Shows pool txn.new readings.now self.new (client_step n b event (ack_for b (seen_of readings.now.came)) d) }
        ensures acts { (pool : LedgerName) (d : Decided) (b : TxnBranch) → Shows pool txn.old readings.now self.old d → slice_get d.state.branches n ≡ Some b
            → result ≡ (client_after b.client event d.now).1 }
        ensures passed { passed_on self.new.desk ≡ passed_on self.old.desk }
        ensures room { room_in self.old.outbox ≤ room_in self.new.outbox + 2 }
        ensures same { txn.new ≡ record txn.old { branches = txn.new.branches; few = txn.new.few } }
    {
        let Some(branch) = txn.branch(n) else {
            return ClientActs::default();
        };
        let to = branch.to;
        let mut state = branch.state;
        let acts = client_step(&mut state.client, event, self.time);
        txn.set_branch_state(n, state);
        self.send_if(acts.send, txn, readings, to, OutText::Request(n), Some(n));
        self.send_if(acts.ack, txn, readings, to, OutText::Ack(n), None);
        acts
    }

    /// The client of the branch of this number is over, and its `fr` stops.
    pub fn end_client(&self, txn: &mut Txn, n: u8)
        ensures ends { (pool : LedgerName) (r : Readings) (d : Decided) → Shows pool txn.old r self.now d → Shows pool txn.new r self.now (over_client n d) }
        ensures same { txn.new ≡ record txn.old { branches = txn.new.branches; few = txn.new.few } }
    {
        if let Some(mut state) = txn.branch_state(n) {
            state.client = over(state.client);
            state.final_due = None;
            txn.set_branch_state(n, state);
        }
    }

    /// The CANCEL of the branch of this number is sent where it is to be, and has 64 * T1 to have an effect (RFC 3261, section
    /// 9.1).
    pub fn cancel_ripe(&mut self, txn: &mut Txn, readings: &Readings<'_>, n: u8)
        requires read { IsRead txn.old readings.now }
        requires room { 0 < room_in self.old.outbox }
        ensures cancels { (pool : LedgerName) (d : Decided) → Shows pool txn.old readings.now self.old d → Shows pool txn.new readings.now self.new (cancel_ripe n d) }
        ensures passed { passed_on self.new.desk ≡ passed_on self.old.desk }
        ensures room { room_in self.old.outbox ≤ room_in self.new.outbox + 1 }
        ensures same { txn.new ≡ record txn.old { branches = txn.new.branches; few = txn.new.few } }
    {
        let Some(branch) = txn.branch(n) else {
            return;
        };
        if !branch.is_ripe() {
            return;
        }
        let to = branch.to;
        let mut state = branch.state;
        state.cancel = Some(begun(false, self.time));
        state.quit_due = Some(after(self.time, TO_QUIT));
        txn.set_branch_state(n, state);
        self.send(txn, readings, to, OutText::Cancel(n), None);
    }

    /// The branch of this number is to be cancelled.
    pub fn cancel(&mut self, txn: &mut Txn, readings: &Readings<'_>, n: u8)
        requires read { IsRead txn.old readings.now }
        requires room { 0 < room_in self.old.outbox }
        ensures cancels { (pool : LedgerName) (d : Decided) → Shows pool txn.old readings.now self.old d → Shows pool txn.new readings.now self.new (cancelling n d) }
        ensures passed { passed_on self.new.desk ≡ passed_on self.old.desk }
        ensures room { room_in self.old.outbox ≤ room_in self.new.outbox + 1 }
        ensures same { txn.new ≡ record txn.old { branches = txn.new.branches; few = txn.new.few } }
    {
        self.mark_cancelled(txn, n);
        self.cancel_ripe(txn, readings, n);
    }

    /// All branches of an INVITE that have no final response are to be cancelled (RFC 3261, section 16.7, step 10).
    pub fn cancel_pending(&mut self, txn: &mut Txn, readings: &Readings<'_>)
        requires read { IsRead txn.old readings.now }
        requires room { 12 ≤ room_in self.old.outbox }
        ensures cancels { (pool : LedgerName) (d : Decided) → Shows pool txn.old readings.now self.old d → Shows pool txn.new readings.now self.new (cancelling_pending d) }
        ensures passed { passed_on self.new.desk ≡ passed_on self.old.desk }
        ensures room { room_in self.old.outbox ≤ room_in self.new.outbox + 12 }
        ensures same { txn.new ≡ record txn.old { branches = txn.new.branches; few = txn.new.few } }
    {
        let pending = txn.context.to_cancel();
        self.cancel_each(txn, readings, pending.as_slice());
    }

    fn cancel_each(&mut self, txn: &mut Txn, readings: &Readings<'_>, numbers: &[u8])
        requires read { IsRead txn.old readings.now }
        requires room { length numbers.now ≤ room_in self.old.outbox }
        ensures cancels { (pool : LedgerName) (d : Decided) → Shows pool txn.old readings.now self.old d → Shows pool txn.new readings.now self.new (all_cancelling numbers.now d) }
        ensures passed { passed_on self.new.desk ≡ passed_on self.old.desk }
        ensures room { room_in self.old.outbox ≤ room_in self.new.outbox + length numbers.now }
        ensures same { txn.new ≡ record txn.old { branches = txn.new.branches; few = txn.new.few } }
    {
        let Some(n) = numbers.first() else {
            return;
        };
        self.cancel(txn, readings, *n);
        self.cancel_each(txn, readings, &numbers[1..]);
    }

    /// A response to the CANCEL of the branch of this number steps its client alone.
    pub fn step_cancel(&self, txn: &mut Txn, n: u8, event: ClientEvent)
        ensures steps { (pool : LedgerName) (r : Readings) (d : Decided) (b : TxnBranch) (c : Client) → Shows pool txn.old r self.now d → slice_get d.state.branches n ≡ Some b
            → b.cancel ≡ Some c → Shows pool txn.new r self.now (to_cancel_client n c event d) }
        ensures same { txn.new ≡ record txn.old { branches = txn.new.branches; few = txn.new.few } }
    {
        let Some(mut state) = txn.branch_state(n) else {
            return;
        };
        let Some(mut client) = state.cancel else {
            return;
        };
        client_step(&mut client, event, self.time);
        state.cancel = Some(client);
        txn.set_branch_state(n, state);
    }

    /// A timer of the client of the CANCEL of the branch of this number fires: the CANCEL is sent again, where the client's table
    /// says so.
    pub fn fire_cancel(&mut self, txn: &mut Txn, readings: &Readings<'_>, n: u8, event: ClientEvent)
        requires read { IsRead txn.old readings.now }
        requires room { 0 < room_in self.old.outbox }
        ensures fires { (pool : LedgerName) (d : Decided) (b : TxnBranch) (c : Client) → Shows pool txn.old readings.now self.old d → slice_get d.state.branches n ≡ Some b
            → b.cancel ≡ Some c → Shows pool txn.new readings.now self.new (cancel_stepped n b c event d) }
        ensures passed { passed_on self.new.desk ≡ passed_on self.old.desk }
        ensures room { room_in self.old.outbox ≤ room_in self.new.outbox + 1 }
        ensures same { txn.new ≡ record txn.old { branches = txn.new.branches; few = txn.new.few } }
    {
        let Some(branch) = txn.branch(n) else {
            return;
        };
        let to = branch.to;
        let mut state = branch.state;
        let Some(mut client) = state.cancel else {
            return;
        };
        let acts = client_step(&mut client, event, self.time);
        state.cancel = Some(client);
        txn.set_branch_state(n, state);
        self.send_if(acts.send, txn, readings, to, OutText::Cancel(n), None);
    }

    fn mark_cancelled(&self, txn: &mut Txn, n: u8)
        ensures marks { (pool : LedgerName) (r : Readings) (d : Decided) → Shows pool txn.old r self.now d
            → Shows pool txn.new r self.now (at_branch n (λ b. record b { is_cancelled = true }) d) }
        ensures same { txn.new ≡ record txn.old { branches = txn.new.branches; few = txn.new.few } }
    {
        if let Some(mut state) = txn.branch_state(n) {
            state.is_cancelled = true;
            txn.set_branch_state(n, state);
        }
    }
}

/// The client once it is over: no timer of it is armed.
fn over(client: Client) -> Client
    ensures { result ≡ client_over client }
{
    Client {
        invite: client.invite,
        state: ClientState::Terminated,
        retry: None,
        interval: client.interval,
        limit: None,
        linger: None,
    }
}

/// The client of a request that is sent now (RFC 3261, section 17.1).
pub fn begun(invite: bool, now: u64) -> Client
    ensures { result ≡ begun_client invite now }
{
    let mut client = Client::new(invite);
    client_step(&mut client, ClientEvent::Start, now);
    client
}
