//! What the proofs know of the holder of a seat: what it is for, and what it has seen and done. No value of it is made.
use crate::ClaimRecord;
use histories::Recorded;
use std::collections::LinkedList;

/// What a seat is for.
pub enum SeatKind {
    /// It was taken in by another.
    Spent,
    /// It makes the others.
    Maker,
    /// A pass or an Opener.
    Desk,
    /// A note.
    Note,
}

/// What the holder of a seat knows. No value of it is made.
pub struct Clerk {
    pub kind: SeatKind,
    // Its number: a pass's, or an Opener's after them. The maker's is how many were made.
    pub number: u32,
    // An Opener's last serial, and the highest one of its slot of which notes told it.
    pub last: u64,
    pub floor: u64,
    // An Opener's slot. The maker's is how many passes there are.
    pub slot: u32,
    // Of each slot's history, as much as was seen.
    pub seen: LinkedList<LinkedList<Recorded<ClaimRecord>>>,
    // The own list: each record that it made, with the slot.
    pub mine: LinkedList<(u32, Recorded<ClaimRecord>)>,
    // The own lists of the seats taken in, which follow number 0.
    pub got: LinkedList<LinkedList<(u32, Recorded<ClaimRecord>)>>,
}
