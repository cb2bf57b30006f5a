//! What a trace shows, item by item.

ghost use Rattle.std.specs.Prelude.{◌≡◌};
ghost use Rattle.sim_text.specs.Trace.{cause_name};

use outside_ports::{Addr, Bytes};

/// Why a datagram was dropped.
#[derive(Clone, Copy, Debug, PartialEq, Eq)]
pub enum Cause {
    /// It is empty, or holds only CR and LF.
    Keepalive,
    /// It is malformed, doesn't begin as a response does, and no response can be made to it.
    NotSip,
    /// It is malformed, begins as a response does, and no response can be made to it.
    BadReply,
    /// It is a response that belongs to no branch of a transaction.
    StrayReply,
    /// It is a response to a transaction that has ended.
    Ended,
    /// The script's block ended by `drop`, and nothing was sent.
    ScriptDrop,
    /// The script's block ended otherwise, and nothing was sent.
    ScriptSilent,
    /// It is an ACK without a transaction, and `t_relay()` didn't send it on.
    AckUnroutable,
    /// The response that the proxy makes by itself would have more than 8,192 bytes.
    TooLong,
}

impl Cause {
    /// The cause as a trace prints it.
    pub fn name(self) -> &'static str
        ensures { result.now ≡ cause_name self }
    {
        match self {
            Cause::Keepalive => "keepalive",
            Cause::NotSip => "not_sip",
            Cause::BadReply => "bad_reply",
            Cause::StrayReply => "stray_reply",
            Cause::Ended => "ended",
            Cause::ScriptDrop => "script_drop",
            Cause::ScriptSilent => "script_silent",
            Cause::AckUnroutable => "ack_unroutable",
            Cause::TooLong => "too_long",
        }
    }
}

/// What a trace shows of a run, each at its moment in milliseconds. Contracts speak of the list of them, and no value
/// need be made.
#[derive(Debug, Drop)]
pub enum TraceItem {
    /// The datagram was sent to this address.
    Out { at: u64, to: Addr, bytes: Bytes },
    /// A datagram was dropped.
    Drop { at: u64, cause: Cause },
    /// The script logged this text.
    Log { at: u64, text: Bytes },
    /// A datagram was to be sent to this address, and the send failed.
    Fail { at: u64, to: Addr },
}
