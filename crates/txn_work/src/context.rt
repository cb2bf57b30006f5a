//! The responses of a transaction's branches (RFC 3261, section 16.7).
ghost use Rattle.std.specs.Prelude.{◌≡◌, ◌<◌, ◌≤◌, ◌+◌, ℕ, List, Option, Some, None, length};
ghost use Rattle.txn_dialogue.specs.Replies.{forwarding_at, kept_for, noted};
ghost use Rattle.txn_dialogue.specs.Rounds.{in_next_round};
ghost use Rattle.txn_texts.specs.Desks.{passed_on};

use crate::work::Work;
use fork_core::Forwarding;
use txn_state::Txn;
use txn_texts::Readings;

impl Work {
    ghost use Rattle.buf_pool.specs.Ledgers.{LedgerName};
    ghost use Rattle.txn_dialogue.specs.Sends.{Work as Decided};
    ghost use Rattle.txn_work.specs.Works.{Shows};

    /// Notes a response with this code on the branch of this number, which was received or is counted for it, and tells what
    /// becomes of it by those before it. Nothing where there is no such branch.
    pub fn note(&self, txn: &mut Txn, n: u8, code: u16) -> Forwarding
        ensures notes { (pool : LedgerName) (r : Readings) (d : Decided) → Shows pool txn.old r self.now d → n < length d.state.branches
            → Shows pool txn.new r self.now (noted n code d) }
        ensures forwards { (pool : LedgerName) (r : Readings) (d : Decided) → Shows pool txn.old r self.now d → n < length d.state.branches
            → result ≡ forwarding_at d.state n code }
        ensures same { txn.new ≡ record txn.old { context = txn.new.context } }
    {
        let has_final = txn.has_final();
        if usize::from(n) >= txn.context.branches() {
            return Forwarding::Nothing;
        }
        txn.context.on_reply(n, code, has_final)
    }

    /// The text that goes on is kept for the branch of this number.
    pub fn keep_passed(&self, txn: &mut Txn, n: u8)
        ensures keeps { (pool : LedgerName) (r : Readings) (d : Decided) → Shows pool txn.old r self.now d
            → Shows pool txn.new r self.now (kept_for n (Some (passed_on self.now.desk)) d) }
        ensures same { txn.new ≡ record txn.old { branches = txn.new.branches; few = txn.new.few } }
    {
        txn.keep_response(n, Some(self.desk.passed()));
    }

    /// No response is kept for the branch of this number: one is counted for it that wasn't received.
    pub fn keep_none(&self, txn: &mut Txn, n: u8)
        ensures keeps { (pool : LedgerName) (r : Readings) (d : Decided) → Shows pool txn.old r self.now d
            → Shows pool txn.new r self.now (kept_for n None d) }
        ensures same { txn.new ≡ record txn.old { branches = txn.new.branches; few = txn.new.few } }
    {
        txn.keep_response(n, None);
    }

    /// The next round begins: the branches so far take no part in it.
    pub fn begin_round(&self, txn: &mut Txn)
        ensures begins { (pool : LedgerName) (r : Readings) (d : Decided) → Shows pool txn.old r self.now d → Shows pool txn.new r self.now (in_next_round d) }
        ensures same { txn.new ≡ record txn.old { context = txn.new.context } }
    {
        txn.context.new_round();
    }
}
