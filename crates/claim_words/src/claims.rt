//! The claims for many threads, and what opens, claims and says that a claim was won.
ghost use Rattle.std.specs.Prelude.{◌≡◌, ◌<◌, [], Some};
ghost use Rattle.claim_words.specs.Lists.{nth_list};
ghost use Rattle.claim_words.specs.Suspensions.{suspension, suspensions};
ghost use Rattle.claim_words.specs.declared.view.SeatKind.TheVariants.{Desk, Note};
ghost use Rattle.claim_words.specs.declared.By.TheVariants.{Continued};

use crate::Clerk;
use crate::steps::{ClaimRule, ClaimSeat};
use atomic_table::Table;
use std::alloc::Global;

/// The suspensions of each slot, for many threads: one word for each slot.
///
/// ```
/// let (claims, mut openers, mut passes) = Claims::new(alloc, 1, 2)?;
/// let serial = claims.open(&mut openers[0], 0); // 1
/// claims.claim(&mut passes[0], 0, serial, By::Continued); // Won(0)
/// claims.claim(&mut passes[1], 0, serial, By::TimedOut); // Lost(Continued)
/// let note = claims.note(&mut passes[0], 0, serial);
/// claims.meet(&mut openers[0], note); // openers[0].last() is 1 at least
/// ```
#[derive(Drop)]
pub struct Claims {
    pub(crate) table: Table<(), Clerk, (u32, u32), ClaimRule, Global>,
    pub ghost no_slots: { table.shared.table_id.slots ≡ 0 },
    pub ghost count: { table.shared.table_id.words ≡ table.shared.key.0 },
    pub ghost some_slot: { 0 < table.shared.key.0 },
}

/// What opens the suspensions of its slot. There is one for each slot, and nothing else opens them.
#[derive(Drop)]
pub struct Opener {
    pub(crate) seat: ClaimSeat,
    pub(crate) slot: u32,
    pub(crate) last: u64,
    ghost free: { seat.me.1 ≡ [] },
    ghost kind: { seat.me.0.kind ≡ Desk },
    ghost knows: { (seat.me.0.last ≡ last) × (seat.me.0.slot ≡ slot) },
}

/// What a worker claims with.
#[derive(Drop)]
pub struct ClaimPass {
    pub(crate) seat: ClaimSeat,
    pub(crate) number: u32,
    ghost free: { seat.me.1 ≡ [] },
    ghost kind: { seat.me.0.kind ≡ Desk },
    ghost same: { seat.me.0.number ≡ number },
}

/// Who holds it has seen that this claim was won by `Continued`. It may go to another thread, where the slot's Opener takes it
/// in by `meet`.
#[derive(Drop)]
pub struct ClaimNote {
    pub(crate) seat: ClaimSeat,
    pub(crate) slot: u32,
    pub(crate) serial: u64,
    ghost free: { seat.me.1 ≡ [] },
    ghost kind: { seat.me.0.kind ≡ Note },
    pub ghost won: { suspension (suspensions (nth_list seat.me.0.seen slot)) serial ≡ Some Continued },
}

impl Opener {
    /// The slot whose suspensions it opens.
    pub fn slot(&self) -> u32
        ensures { result ≡ self.now.slot }
    {
        self.slot
    }

    /// The serial that was opened last, or 0.
    pub fn last(&self) -> u64
        ensures { result ≡ self.now.last }
    {
        self.last
    }
}

impl ClaimNote {
    /// The slot of the claim.
    pub fn slot(&self) -> u32
        ensures { result ≡ self.now.slot }
    {
        self.slot
    }

    /// The serial of the suspension that was claimed.
    pub fn serial(&self) -> u64
        ensures { result ≡ self.now.serial }
    {
        self.serial
    }
}
