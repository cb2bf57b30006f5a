//! What is asked outside a run or a step, and what is heard, as records and contracts have it.

use claim_words::{By, ClaimEnd};
use ht_core::{TabOp, TabReply};
use outside_ports::Addr;
use pv_values::Text;

/// What is asked, as plain data: a datagram to be sent with its bytes, and a block that is given back without them.
#[derive(Debug, Drop)]
pub enum Asked {
    /// A datagram is to be sent.
    Send { to: Addr, text: Text },
    /// An operation on a table.
    Table { table: u32, op: TabOp },
    /// The next suspension of the slot is to be opened.
    Open,
    /// A suspension is claimed.
    Claim { slot: u32, serial: u64, by: By },
    /// The transaction of the INVITE that an ACK or a CANCEL belongs to.
    Find,
    /// A block of the pool.
    Block,
    /// A block goes back to the pool.
    GiveBack,
    /// The slot's timer is to be due at this time, in milliseconds, or never.
    Due { at: Option<u64> },
    /// The slot is free again.
    Free,
    /// A text for the log.
    Log { text: Text },
    /// A job for later.
    Post { job: JobOrder },
}

/// A job that a step orders.
#[derive(Clone, Copy, Debug, PartialEq, Eq)]
pub enum JobOrder {
    /// A suspended transaction is to be continued by a route.
    Continue { slot: u32, serial: u64, route: u32 },
    /// A transaction is to be cancelled.
    Cancel { slot: u32, generation: u64 },
}

/// What is answered, as plain data: a block without its bytes.
#[derive(Debug, Drop)]
pub enum Heard {
    /// To no ask: a run may begin.
    Start,
    Sent,
    Failed,
    Table(TabReply),
    /// The serial of the suspension that was opened.
    Opened(u64),
    Claim(ClaimEnd),
    /// The slot of the transaction and its generation.
    Found(Option<(u32, u64)>),
    /// Whether there was a block.
    Block(bool),
    Noted,
    NoMemory,
}
