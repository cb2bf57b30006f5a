//! What the table says of each step and of each run: facts that hold of it, for whoever reads it beside the RFC.

ghost use Rattle.std.specs.Prelude.{◌≡◌, ◌≢◌, ◌↔◌, ◌⊎◌, ℕ, Bool, true, false, List, [], ◌∷◌, ◌++◌};
ghost use Rattle.std.specs.List.{AllByRecursion};
ghost use Rattle.txn_server.specs.declared.machine.Server.{Server};
ghost use Rattle.txn_server.specs.declared.machine.ServerActs.{ServerActs};
ghost use Rattle.txn_server.specs.declared.machine.ServerEvent.{ServerEvent};
ghost use Rattle.txn_server.specs.declared.machine.ServerState.TheVariants.{Accepted, Proceeding, Completed, Terminated};
ghost use Rattle.txn_server.specs.Rows.{ServerRow, ServerStep, IsProvisional, IsFailure, server_silent, server_sends};
ghost use Rattle.txn_server.specs.After.{server_after};
ghost use Rattle.txn_server.specs.Runs.{MadeServerStep, ServerRun, codes_sent, HasSent, IsLast, HasServerTimers, ServerWaitsToEnd};

/// For every server, event and moment the table has one row or none, so that there is one step, which `server_after` gives.
pub fn each_server_event_makes_one_step()
    ensures one_row { (old : Server) (now : ℕ) (event : ServerEvent) (new new' : Server) (acts acts' : ServerActs) →
        ServerRow old now event new acts → ServerRow old now event new' acts' → (new ≡ new') × (acts ≡ acts') }
    ensures one_step { (old : Server) (now : ℕ) (event : ServerEvent) (new : Server) (acts : ServerActs) →
        ServerStep old event now new acts ↔ (server_after old event now ≡ (new, acts)) }
{}

/// Once a run has come to Terminated nothing changes, and nothing is done but that a late 2xx to an INVITE is sent.
pub fn nothing_but_2xx_after_terminated()
    ensures { (invite : Bool) (later : List MadeServerStep) (end : MadeServerStep) (before : List MadeServerStep) (s : Server) →
        ServerRun invite (later ++ end ∷ before) s → end.new.state ≡ Terminated →
        AllByRecursion (λ t. (t.new ≡ t.old) × ((t.acts ≡ server_silent) ⊎ ((invite ≡ true) × (t.acts ≡ server_sends)))) later }
{}

/// A request gets provisional responses, then one final response, and after it nothing, but 2xx to an INVITE; `answered` says
/// whether it got any.
pub fn one_final_response()
    ensures sent { (invite : Bool) (steps : List MadeServerStep) (s : Server) → ServerRun invite steps s →
        HasSent invite s.state (codes_sent steps) }
    ensures answered { (invite : Bool) (steps : List MadeServerStep) (s : Server) → ServerRun invite steps s →
        (s.answered ≡ true) ↔ (codes_sent steps ≢ []) }
{}

/// The response that is repeated is the last that was sent, but for a 2xx that was sent after another final response: in Proceeding
/// a provisional one, in Completed the final one.
pub fn the_last_response_is_repeated()
    ensures proceeding { (invite : Bool) (before : List MadeServerStep) (t : MadeServerStep) (s : Server) → ServerRun invite (t ∷ before) s →
        t.acts.repeat ≡ true → t.old.state ≡ Proceeding →
        (code : ℕ) × (early : List ℕ) × (codes_sent before ≡ code ∷ early) × AllByRecursion IsProvisional (code ∷ early) }
    ensures completed { (invite : Bool) (before : List MadeServerStep) (t : MadeServerStep) (s : Server) → ServerRun invite (t ∷ before) s →
        t.acts.repeat ≡ true → t.old.state ≢ Proceeding →
        (t.old.state ≡ Completed) × ((code : ℕ) × (invite ≡ true → IsFailure code) × IsLast (codes_sent before) code) }
{}

/// After a 2xx to an INVITE the INVITE that comes again gets no response: in Accepted nothing is repeated.
pub fn nothing_is_repeated_in_accepted()
    ensures { (old : Server) (event : ServerEvent) (now : ℕ) (new : Server) (acts : ServerActs) →
        ServerStep old event now new acts → old.state ≡ Accepted → acts.repeat ≡ false }
{}

/// In every state only the timers of that state are armed, and in Terminated none is.
pub fn timers_of_each_server_state()
    ensures { (invite : Bool) (steps : List MadeServerStep) (s : Server) → ServerRun invite steps s → HasServerTimers s.state s }
{}

/// Where a final response was sent, the timer is armed that ends the transaction.
pub fn an_answered_server_ends()
    ensures { (invite : Bool) (steps : List MadeServerStep) (s : Server) → ServerRun invite steps s → ServerWaitsToEnd s.state s }
{}
