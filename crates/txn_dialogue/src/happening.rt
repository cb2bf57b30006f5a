//! What happens to a slot, and its timers.

use outside_ports::Addr;
use pv_values::Text;
use txn_client::ClientTimer;
use txn_server::ServerTimer;

/// What happens to a slot, as plain data.
#[derive(Debug, Drop)]
pub enum Happening {
    /// A request came that is no ACK and no CANCEL.
    Request { text: Text, from: Addr },
    /// The request of the transaction came again.
    Copy,
    /// An ACK came.
    Ack { text: Text, from: Addr },
    /// A response came on the branch of this number.
    Reply { branch: u8, text: Text, from: Addr },
    /// A timer of the slot is due.
    Timer,
    /// A suspension was claimed by a continuation, which runs this route.
    Continue { serial: u64, route: u32 },
    /// A CANCEL came for the transaction.
    Cancel,
}

/// The timers of a slot.
#[derive(Clone, Copy, Debug, PartialEq, Eq)]
pub enum SlotTimer {
    /// S: a suspension has lasted too long.
    Suspension,
    /// A timer of the server transaction.
    Server(ServerTimer),
    /// A timer of the branch of this number.
    Branch(u8, BranchTimer),
}

/// The timers of a branch.
#[derive(Clone, Copy, Debug, PartialEq, Eq)]
pub enum BranchTimer {
    /// X: its request couldn't be sent.
    Unsent,
    /// A timer of its client transaction.
    Client(ClientTimer),
    /// `fr`: no final response came in time.
    Final,
    /// Q: no final response came after its CANCEL.
    Quit,
    /// A timer of the client transaction of its CANCEL.
    Cancel(ClientTimer),
}

/// A timer that is armed, and when it is due, in milliseconds.
#[derive(Clone, Copy, Debug, PartialEq, Eq)]
pub struct ArmedTimer {
    pub timer: SlotTimer,
    pub due: u64,
}
