//! Laws of the rows. Each function states a law, and does nothing when it is called.
ghost use Rattle.std.specs.Prelude.{◌≡◌, ◌∷◌, [], codes, ℕ, pos, List, Some, false};
ghost use Rattle.dialogue.specs.Course.{Ends, Asks};
ghost use Rattle.claim_words.specs.declared.ClaimEnd.TheVariants.{Won};
ghost use Rattle.host_meaning.specs.declared.ask.Asked.TheVariants as ask;
ghost use Rattle.host_meaning.specs.declared.ask.Heard.TheVariants as heard;
ghost use Rattle.host_meaning.specs.declared.ask.JobOrder.TheVariants as order;
ghost use Rattle.host_meaning.specs.Suspending.{claimed, continued};
ghost use Rattle.host_meaning.specs.Transactions.{has_no_transaction};
ghost use Rattle.host_meaning.specs.Funds.{EndsAlways, IsFunded, IsFundedRow, IsFundedEnd, AreProvisional, RowRespondsProvisionally, RespondsProvisionally};
ghost use Rattle.cfg_tree.specs.declared.script.Script.{Script};
ghost use Rattle.pv_values.specs.declared.function.Func.{Func};
ghost use Rattle.pv_values.specs.declared.value.Val.{Val};
ghost use Rattle.pv_table.specs.declared.facts.Facts.{Facts};
ghost use Rattle.pv_table.specs.declared.facts.Outcome.TheVariants.{Undecided};
ghost use Rattle.pv_values.specs.declared.run.HostAnswer.{HostAnswer as Answered};
ghost use Rattle.pv_values.specs.declared.run.HostAsk.{HostAsk as Wanted};
ghost use Rattle.host_meaning.specs.Run.{Received, Around, RunState, Tells, code, kept};
ghost use Rattle.host_meaning.specs.Rows.{row, called};
ghost use Rattle.host_meaning.specs.Host.{run_of};
ghost use Rattle.host_meaning.specs.Headers.{between_bars};

/// A row that asks nothing outside leaves the blocks that the run holds and the suspension that it opened last as they
/// were. So it is one thing, in a stretch without an ask, where in it a run finds no memory.
pub fn a_row_that_asks_nothing_keeps()
    ensures { (a : Around) (ask : Wanted) (s t : RunState) (answer : Answered) → row a ask s ≡ Ends (Tells answer t) → kept t ≡ kept s }
{}

/// The methods of a list are the texts between its bars.
pub fn a_list_of_methods()
    ensures two { between_bars (codes "INVITE|ACK") ≡ codes "INVITE" ∷ codes "ACK" ∷ [] }
    ensures one { between_bars (codes "BYE") ≡ codes "BYE" ∷ [] }
    ensures empty { between_bars [] ≡ [] ∷ [] }
{}

/// A claim that t_continue has won is ordered at once: nothing is asked and no memory is taken in between.
pub fn a_won_claim_is_ordered_at_once()
    ensures { (slot serial route place : ℕ) (s : RunState) → claimed slot serial route s (heard.Claim (Won place))
        ≡ Asks (ask.Post (order.Continue slot serial route)) (λ h. code (pos 1) (continued s)) }
{}

/// A run over a request that isn't an ACK or a CANCEL, which begins with nothing decided and no block, ends, where it
/// relays the request, with at least two blocks for each of its targets, and its targets with the branches that there were
/// before are at most twelve (RFC 3261, section 16.6). So it is whatever is answered, for every script (`run`), and each
/// function keeps it as its row is written, whether or not it has started (`row`).
pub fn a_run_that_relays_holds_two_blocks_for_each_target()
    ensures row { (before : ℕ) (a : Around) (r : Received) (f : Func) (values : List Val) (s : RunState) → has_no_transaction r ≡ false → IsFunded before s
        → EndsAlways (IsFundedRow before) (called a (Some r) f values s) }
    ensures run { (script : Script) (block : ℕ) (a : Around) (r : Received) (f : Facts) → a.received ≡ Some r → has_no_transaction r ≡ false
        → f.outcome ≡ Undecided → EndsAlways (IsFundedEnd f.branches) (run_of script block a (record { facts = f; blocks = 0 })) }
{}

/// Where a run over such a request begins with no response, every response that it decides and that isn't its outcome is
/// provisional, since a final one is the outcome (RFC 3261, section 16.7). So it is whatever is answered, for every script
/// (`run`), and each function keeps it as its row is written, whether or not it has started (`row`).
pub fn a_run_responds_provisionally_beside_its_outcome()
    ensures row { (a : Around) (r : Received) (f : Func) (values : List Val) (s : RunState) → has_no_transaction r ≡ false
        → AreProvisional s.facts.responses → EndsAlways RowRespondsProvisionally (called a (Some r) f values s) }
    ensures run { (script : Script) (block : ℕ) (a : Around) (r : Received) (s : RunState) → a.received ≡ Some r → has_no_transaction r ≡ false
        → s.facts.responses ≡ [] → EndsAlways RespondsProvisionally (run_of script block a s) }
{}
