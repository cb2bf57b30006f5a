//! A client transaction, the events that happen to it, and what it does.

ghost use Rattle.std.specs.Prelude.{◌≡◌};

/// The states of a client transaction (RFC 3261, section 17.1, figures 5 and 6; RFC 6026, section 7.2).
#[derive(Clone, Copy, Debug, PartialEq, Eq)]
pub enum ClientState {
    /// An INVITE was sent, or is about to be, and no response came.
    Calling,
    /// Another request was sent, or is about to be, and no response came.
    Trying,
    /// A provisional response came.
    Proceeding,
    /// A 2xx to the INVITE came; others may follow.
    Accepted,
    /// A final response came, for an INVITE one of 300 to 699; it may come again.
    Completed,
    /// The transaction is over.
    Terminated,
}

/// A client transaction. Each timer is the moment, in milliseconds, at which it is due, or `None` while it is not armed.
#[derive(Clone, Copy, Debug, PartialEq, Eq)]
pub struct Client {
    /// Whether the request is an INVITE.
    pub invite: bool,
    /// Where the transaction stands.
    pub state: ClientState,
    /// Timer A of an INVITE, E of another request: the request is sent again.
    pub retry: Option<u64>,
    /// The interval, in milliseconds, with which `retry` was armed last; 0 where it never was.
    pub interval: u64,
    /// Timer B of an INVITE, F of another request: no response came in time.
    pub limit: Option<u64>,
    /// Timer D or M of an INVITE, K of another request: the transaction is over.
    pub linger: Option<u64>,
}

/// The timers of a client transaction.
#[derive(Clone, Copy, Debug, PartialEq, Eq)]
pub enum ClientTimer {
    /// A or E.
    Retry,
    /// B or F.
    Limit,
    /// D, K or M.
    Linger,
}

/// What happens to a client transaction.
#[derive(Clone, Copy, Debug, PartialEq, Eq)]
pub enum ClientEvent {
    /// The request is handed to the transaction.
    Start,
    /// A response of 100 to 199 came.
    Provisional,
    /// A response of 200 to 299 came.
    Success,
    /// A response of 300 to 699 came.
    Failure,
    /// A timer is due. Where it is not armed, nothing happens.
    Timer(ClientTimer),
}

/// What the caller is to do after a step.
#[derive(Clone, Copy, Debug, Default, PartialEq, Eq)]
pub struct ClientActs {
    /// Send the request, for the first time or again.
    pub send: bool,
    /// Send an ACK for the response that came.
    pub ack: bool,
    /// Pass up the response that came.
    pub up: bool,
    /// Report that no response came in time.
    pub timeout: bool,
}

impl Client {
    ghost use Rattle.txn_client.specs.Rows.{new_client};

    /// The transaction of a request that is still to be sent, with no timer armed: Calling for an INVITE, else Trying.
    pub fn new(invite: bool) -> Self
        ensures { result ≡ new_client invite }
    {
        Client {
            invite,
            state: if invite {
                ClientState::Calling
            } else {
                ClientState::Trying
            },
            retry: None,
            interval: 0,
            limit: None,
            linger: None,
        }
    }
}
