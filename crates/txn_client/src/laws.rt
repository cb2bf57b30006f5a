//! What the table says of each step and of each run: facts that hold of it, for whoever reads it beside the RFC.

ghost use Rattle.std.specs.Prelude.{◌≡◌, ◌↔◌, ℕ, Bool, true, List, ◌∷◌, ◌++◌};
ghost use Rattle.std.specs.List.{AllByRecursion};
ghost use Rattle.txn_client.specs.declared.machine.Client.{Client};
ghost use Rattle.txn_client.specs.declared.machine.ClientActs.{ClientActs};
ghost use Rattle.txn_client.specs.declared.machine.ClientEvent.{ClientEvent};
ghost use Rattle.txn_client.specs.declared.machine.ClientState.TheVariants.{Calling, Terminated};
ghost use Rattle.txn_client.specs.Rows.{ClientRow, ClientStep, client_silent};
ghost use Rattle.txn_client.specs.After.{client_after};
ghost use Rattle.txn_client.specs.Runs.{MadeClientStep, ClientRun, Settles, HasClientTimers, ClientWaitsToEnd};

/// For every client, event and moment the table has one row or none, so that there is one step, which `client_after` gives.
pub fn each_client_event_makes_one_step()
    ensures one_row { (old : Client) (now : ℕ) (event : ClientEvent) (new new' : Client) (acts acts' : ClientActs) →
        ClientRow old now event new acts → ClientRow old now event new' acts' → (new ≡ new') × (acts ≡ acts') }
    ensures one_step { (old : Client) (now : ℕ) (event : ClientEvent) (new : Client) (acts : ClientActs) →
        ClientStep old event now new acts ↔ (client_after old event now ≡ (new, acts)) }
{}

/// Once a run has come to Terminated, each later step does nothing and changes nothing.
pub fn nothing_after_terminated()
    ensures { (invite : Bool) (later : List MadeClientStep) (end : MadeClientStep) (before : List MadeClientStep) (c : Client) →
        ClientRun invite (later ++ end ∷ before) c → end.new.state ≡ Terminated →
        AllByRecursion (λ s. (s.new ≡ s.old) × (s.acts ≡ client_silent)) later }
{}

/// An INVITE is sent in Calling alone: once any response came it isn't sent again.
pub fn invite_is_sent_only_in_calling()
    ensures { (steps : List MadeClientStep) (c : Client) → ClientRun true steps c →
        AllByRecursion (λ s. s.acts.send ≡ true → s.old.state ≡ Calling) steps }
{}

/// A request is settled once at most: where a final response was passed up, or a timeout was reported, neither comes again, but
/// for further 2xx to an INVITE.
pub fn settled_once()
    ensures { (invite : Bool) (later : List MadeClientStep) (s : MadeClientStep) (before : List MadeClientStep) (c : Client) →
        ClientRun invite (later ++ s ∷ before) c → Settles s → AllByRecursion (λ t. ¬ Settles t) (later ++ before) }
{}

/// In every state only the timers of that state are armed, and in Terminated none is.
pub fn timers_of_each_client_state()
    ensures { (invite : Bool) (steps : List MadeClientStep) (c : Client) → ClientRun invite steps c → HasClientTimers invite c.state c }
{}

/// Where a final response came, the timer is armed that ends the transaction.
pub fn an_answered_client_ends()
    ensures { (invite : Bool) (steps : List MadeClientStep) (c : Client) → ClientRun invite steps c → ClientWaitsToEnd c.state c }
{}
