//! When a transaction is answered, and when it is over.
ghost use Rattle.std.specs.Prelude.{◌≡◌, ◌==◌, ◌&&◌, not, length};
ghost use Rattle.std.specs.List.{list_all};
ghost use Rattle.fork_core.specs.Responses.{History};
ghost use Rattle.fork_core.specs.Decisions.{to_cancel};
ghost use Rattle.fork_core.specs.Histories.{HasHistory};
ghost use Rattle.host_meaning.specs.Run.{Received};
ghost use Rattle.txn_dialogue.specs.Sends.{has_final, is_final_state, is_proceeding, is_ripe, owes_487};
ghost use Rattle.txn_dialogue.specs.Ending.{is_over, is_over_branch, is_over_client, is_over_maybe, is_over_server};
ghost use Rattle.txn_state.specs.Kept.{branch_shown, branches_shown, state_shown};

use crate::branch::Branch;
use crate::txn::Txn;
use txn_client::{Client, ClientState};
use txn_server::ServerState;

impl Txn {
    /// Whether a final response was sent.
    pub fn has_final(&self) -> bool
        ensures { (request : Received) (h : History) → result ≡ has_final (state_shown request h self.now) }
    {
        match self.progress.server.state {
            ServerState::Trying | ServerState::Proceeding => false,
            ServerState::Accepted
            | ServerState::Completed
            | ServerState::Confirmed
            | ServerState::Terminated => true,
        }
    }

    /// Whether 487 is to be sent: the transaction is cancelled and has no final response, no branch is pending and no
    /// continuation is owed (RFC 3261, sections 9.2 and 16.10).
    pub fn owes_487(&self) -> bool
        ensures { (request : Received) (h : History) → HasHistory self.now.context h → result ≡ owes_487 (state_shown request h self.now) }
    {
        is_487_owed(
            self.progress.is_cancelled,
            self.has_final(),
            self.is_none_pending(),
            self.progress.is_owed,
        )
    }

    /// Whether each branch of an INVITE has a final response.
    fn is_none_pending(&self) -> bool
        ensures { (h : History) → HasHistory self.now.context h → result ≡ (length (to_cancel h) == 0) }
    {
        self.context.to_cancel().is_empty()
    }

    /// Whether the server and all clients are over.
    pub fn is_over(&self) -> bool
        ensures { (request : Received) (h : History) → result ≡ is_over (state_shown request h self.now) }
    {
        is_over_server(self.progress.server.state) && are_over(self.branches.as_slice())
    }
}

impl Branch {
    /// Whether the client of the branch and that of its CANCEL are over.
    pub fn is_over(&self) -> bool
        ensures { (request : Received) → result ≡ is_over_branch (branch_shown request self.now) }
    {
        is_over_client(self.state.client.state) && is_over_maybe(&self.state.cancel)
    }

    /// Whether the CANCEL of the branch is to be sent now: it waits for a provisional response (RFC 3261, section 9.1).
    pub fn is_ripe(&self) -> bool
        ensures { (request : Received) → result ≡ is_ripe (branch_shown request self.now) }
    {
        self.state.is_cancelled
            && self.state.cancel.is_none()
            && is_proceeding(self.state.client.state)
    }
}

fn is_proceeding(state: ClientState) -> bool
    ensures { result ≡ is_proceeding state }
{
    matches!(state, ClientState::Proceeding)
}

fn is_over_client(state: ClientState) -> bool
    ensures { result ≡ is_over_client state }
{
    matches!(state, ClientState::Terminated)
}

fn is_over_maybe(client: &Option<Client>) -> bool
    ensures { result ≡ is_over_maybe client.now }
{
    match client {
        Some(client) => is_over_client(client.state),
        None => true,
    }
}

fn is_over_server(state: ServerState) -> bool
    ensures { result ≡ is_over_server state }
{
    matches!(state, ServerState::Terminated)
}

fn are_over(branches: &[Branch]) -> bool
    ensures { (request : Received) → result ≡ list_all is_over_branch (branches_shown request branches.now) }
{
    match branches {
        [] => true,
        [branch, rest @ ..] => branch.is_over() && are_over(rest),
    }
}

fn is_487_owed(is_cancelled: bool, has_final: bool, is_none_pending: bool, is_owed: bool) -> bool
    ensures { result ≡ (is_cancelled && not has_final && is_none_pending && not is_owed) }
{
    is_cancelled && !has_final && is_none_pending && !is_owed
}
