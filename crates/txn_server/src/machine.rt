//! A server transaction, the events that happen to it, and what it does.

ghost use Rattle.std.specs.Prelude.{◌≡◌};

/// The states of a server transaction (RFC 3261, section 17.2, figures 7 and 8; RFC 6026, section 7.1).
#[derive(Clone, Copy, Debug, PartialEq, Eq)]
pub enum ServerState {
    /// A request other than an INVITE came, and no response was sent.
    Trying,
    /// No final response was sent; for a request other than an INVITE a provisional one was.
    Proceeding,
    /// A 2xx to the INVITE was sent; others may follow.
    Accepted,
    /// A final response was sent, for an INVITE one of 300 to 699.
    Completed,
    /// The ACK for the final response came.
    Confirmed,
    /// The transaction is over.
    Terminated,
}

/// A server transaction. Each timer is the moment, in milliseconds, at which it is due, or `None` while it is not armed.
#[derive(Clone, Copy, Debug, PartialEq, Eq)]
pub struct Server {
    /// Whether the request is an INVITE.
    pub invite: bool,
    /// Where the transaction stands.
    pub state: ServerState,
    /// Whether any response was sent, be it a provisional one.
    pub answered: bool,
    /// Timer G of an INVITE: the response is sent again.
    pub retry: Option<u64>,
    /// The interval, in milliseconds, with which `retry` was armed last; 0 where it never was.
    pub interval: u64,
    /// Timer H, I or L of an INVITE, J of another request: the transaction is over.
    pub end: Option<u64>,
}

/// The timers of a server transaction.
#[derive(Clone, Copy, Debug, PartialEq, Eq)]
pub enum ServerTimer {
    /// G.
    Retry,
    /// H, I, J or L.
    End,
}

/// What happens to a server transaction.
#[derive(Clone, Copy, Debug, PartialEq, Eq)]
pub enum ServerEvent {
    /// The request came again.
    Copy,
    /// An ACK came for the INVITE.
    Ack,
    /// A response with this status code is to be sent.
    Send(u16),
    /// A timer is due. Where it is not armed, nothing happens.
    Timer(ServerTimer),
}

/// What the caller is to do after a step.
#[derive(Clone, Copy, Debug, Default, PartialEq, Eq)]
pub struct ServerActs {
    /// Send the response that was handed in.
    pub send: bool,
    /// Send the kept response again.
    pub repeat: bool,
    /// Hand the ACK on, as one that belongs to no transaction.
    pub loose_ack: bool,
}

impl Server {
    ghost use Rattle.txn_server.specs.Rows.{new_server};

    /// The transaction of a request that has just come, with no timer armed: Proceeding for an INVITE, else Trying.
    pub fn new(invite: bool) -> Self
        ensures { result ≡ new_server invite }
    {
        Server {
            invite,
            state: if invite {
                ServerState::Proceeding
            } else {
                ServerState::Trying
            },
            answered: false,
            retry: None,
            interval: 0,
            end: None,
        }
    }
}

/// The responses, as the rows tell them apart.
#[derive(Clone, Copy)]
pub(crate) enum ResponseClass {
    /// 100 to 199.
    Provisional,
    /// 200 to 299.
    Success,
    /// 300 to 699.
    Failure,
    /// No status code of SIP.
    Neither,
}
