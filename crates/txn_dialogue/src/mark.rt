//! What a step came to.

/// Why a datagram had no effect.
#[derive(Clone, Copy, Debug, PartialEq, Eq)]
pub enum Cause {
    /// It is empty, or holds only CR and LF.
    Keepalive,
    /// It is no message of SIP, and can't be answered.
    NotSip,
    /// It is a malformed response.
    BadReply,
    /// It is a response that belongs to no branch.
    StrayReply,
    /// The slot was asked for under a generation that isn't its own: that one, and its own.
    Ended { asked: u64, found: u64 },
    /// A block ended by `drop`.
    ScriptDrop,
    /// A request's block decided nothing.
    ScriptSilent,
    /// An ACK whose block called `t_relay` found no way.
    AckUnroutable,
    /// The response is longer than a message can be.
    TooLong,
    /// Memory was short.
    NoMemory,
}

/// How a step ended that wasn't aborted.
#[derive(Clone, Copy, Debug, PartialEq, Eq)]
pub enum Mark {
    Handled,
    Dropped(Cause),
}
