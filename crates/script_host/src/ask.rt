//! What a run or a step asks outside, and what it is answered.

use buf_pool::Block;
use claim_words::{By, ClaimEnd};
use host_meaning::JobOrder;
use ht_core::{TabOp, TabReply};
use outside_ports::Addr;
use pv_values::Text;

/// What is asked. The text of a datagram is lent by who asks.
#[derive(Drop)]
pub enum Ask {
    /// A datagram is to be sent. Answered `Sent` or `Failed`.
    Send { to: Addr },
    /// An operation on the table of this number. Answered `Table`.
    Table { table: u32, op: TabOp },
    /// The next suspension of the slot is to be opened. Answered `Opened`.
    Open,
    /// A suspension is claimed. Answered `Claim`.
    Claim { slot: u32, serial: u64, by: By },
    /// The transaction of the INVITE that an ACK or a CANCEL belongs to. Answered `Found`.
    Find,
    /// A block of the pool. Answered `Block`.
    Block,
    /// This block goes back to the pool. Answered `Noted`, as all asks below.
    GiveBack(Block),
    /// The slot's timer is to be due at this time, in milliseconds, or never.
    Due { at: Option<u64> },
    /// The slot is free again.
    Free,
    /// A text for the log.
    Log { text: Text },
    /// A job for later.
    Post { job: JobOrder },
}

/// What is answered. An answer that doesn't fit the ask counts as `NoMemory`.
#[derive(Drop)]
pub enum Answer {
    /// To no ask: a run may begin.
    Start,
    Sent,
    Failed,
    Table(TabReply),
    /// The serial of the suspension that was opened.
    Opened(u64),
    Claim(ClaimEnd),
    /// The slot of the transaction and its generation.
    Found(Option<(u32, u64)>),
    /// None where no block is free.
    Block(Option<Block>),
    Noted,
    NoMemory,
}
