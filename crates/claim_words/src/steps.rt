//! The rule of the words, and what each atomic step and each seat that is made or taken in tells.
ghost use Rattle.std.specs.Prelude.{ℕ};
ghost use Rattle.claim_words.specs.declared.By.{By as Way};
ghost use Rattle.claim_words.specs.declared.By.TheVariants.{Continued};
ghost use Rattle.claim_words.specs.Suspensions.{most};
ghost use Rattle.claim_words.specs.Claims.{ClaimsKept, TellsOpened, TellsClaimed, TellsMissed, TellsNewest, maker, dealt, fresh_desk, note_of, joined_desks, met, spent_clerk};

use crate::Clerk;
use atomic_table::{Join, Play, Seat, Shared, Split, TableRule};
use std::marker::{Brand, PhantomData};

pub struct ClaimRule;

impl TableRule<(), Clerk, (u32, u32)> for ClaimRule {
    ghost holds = { ClaimsKept most };

    ghost first = { λ key. maker key.1 0 };
}

/// What a step is about. A call picks it.
pub(crate) trait About {
    ghost serial: { ℕ };

    ghost number: { ℕ };

    ghost way: { Way };
}

impl About for Brand {
    ghost serial = { 0 };

    ghost number = { 0 };

    ghost way = { Continued };
}

pub(crate) struct Open<W>(PhantomData<W>);

impl<W: About> Play<(), Clerk> for Open<W> {
    ghost then = { TellsOpened W.serial W.number };
}

pub(crate) struct Claim<W>(PhantomData<W>);

impl<W: About> Play<(), Clerk> for Claim<W> {
    ghost then = { TellsClaimed W.number W.serial W.way };
}

pub(crate) struct Miss<W>(PhantomData<W>);

impl<W: About> Play<(), Clerk> for Miss<W> {
    ghost then = { TellsMissed W.number W.serial W.way };
}

pub(crate) struct Learn;

impl Play<(), Clerk> for Learn {
    ghost then = { TellsNewest };
}

pub(crate) struct DealClaimSeat;

impl Split<Clerk> for DealClaimSeat {
    ghost left = { dealt };

    ghost right = { fresh_desk };
}

pub(crate) struct Noting;

impl Split<Clerk> for Noting {
    ghost left = { λ v. v };

    ghost right = { note_of };
}

pub(crate) struct GatherClaimSeat;

impl Join<Clerk> for GatherClaimSeat {
    ghost both = { joined_desks };

    ghost spent = { spent_clerk };
}

pub(crate) struct Meet;

impl Join<Clerk> for Meet {
    ghost both = { met };

    ghost spent = { spent_clerk };
}

pub(crate) type ClaimSeat = Seat<(), Clerk>;

pub(crate) type Words = Shared<(), Clerk, (u32, u32), ClaimRule>;
