//! A branch of a transaction.

use crate::text_block::TextBlock;
use outside_ports::Addr;
use txn_client::Client;

/// A branch: its request as it was sent, to where, and how far it has come.
#[derive(Drop)]
pub struct Branch {
    pub to: Addr,
    pub request: TextBlock,
    /// The response of 300 to 699 that is kept for it, as it goes on.
    pub response: TextBlock,
    pub state: BranchState,
}

/// What steps change in a branch. A moment is in milliseconds.
#[derive(Clone, Copy, Debug, PartialEq, Eq)]
pub struct BranchState {
    pub client: Client,
    /// The client of its CANCEL.
    pub cancel: Option<Client>,
    /// A response is kept for it.
    pub has_response: bool,
    /// It is to be cancelled.
    pub is_cancelled: bool,
    /// When timer X is due: the request couldn't be sent.
    pub unsent_due: Option<u64>,
    /// When `fr` is due: no final response came.
    pub final_due: Option<u64>,
    /// When timer Q is due: no final response came after the CANCEL.
    pub quit_due: Option<u64>,
}
