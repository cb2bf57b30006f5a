//! The rule of a table of cells, and the atomic steps that are made on it: a take, a give, a note, and the making and
//! taking in of passes.
ghost use Rattle.std.specs.Prelude.{List};
ghost use Rattle.turn_table.specs.Cells.{IsTurnTable, most_turns};
ghost use Rattle.turn_table.specs.Steps.{TakeTells, GiveTells, NoteTells};
ghost use Rattle.turn_table.specs.Views.{first_view, view_after_deal, dealt_view, view_after_gather, spent_view};

use crate::cell::TurnCell;
use crate::view::PassView;
use atomic_table::{Join, Play, Split, TableRule};
use std::marker::{Brand, PhantomData};

/// What holds between any two atomic steps.
pub struct Law;

impl<C: TurnCell> TableRule<Option<C>, PassView<C::Fixed, C::Record, C::Note>, C::Fixed> for Law {
    ghost holds = { IsTurnTable _ most_turns C.stands };

    ghost first = { λ f. first_view f 0 1 };
}

/// The step of a take.
pub(crate) struct Take;

impl<C: TurnCell> Play<Option<C>, PassView<C::Fixed, C::Record, C::Note>> for Take {
    ghost then = { TakeTells _ most_turns C.stands };
}

/// What is known of a record or a note. A call picks it.
pub(crate) trait Tells<X> {
    ghost told: { X → Type 0 };
}

impl<X> Tells<X> for Brand {
    ghost told = { λ _. Unit {0} };
}

/// The step of a give.
pub(crate) struct Give<W> {
    of: PhantomData<W>,
}

impl<C, F, R, N, W: Tells<R>> Play<Option<C>, PassView<F, R, N>> for Give<W> {
    ghost then = { GiveTells W.told };
}

/// The step of a note.
pub(crate) struct Note<W> {
    of: PhantomData<W>,
}

impl<C, F, R, N, W: Tells<N>> Play<Option<C>, PassView<F, R, N>> for Note<W> {
    ghost then = { NoteTells W.told };
}

/// The making of a pass.
pub(crate) struct Deal;

impl<F, R, N> Split<PassView<F, R, N>> for Deal {
    ghost left = { view_after_deal };

    ghost right = { dealt_view };
}

/// The taking in of a pass.
pub(crate) struct Gather;

impl<F, R, N> Join<PassView<F, R, N>> for Gather {
    ghost both = { view_after_gather };

    ghost spent = { spent_view };
}
