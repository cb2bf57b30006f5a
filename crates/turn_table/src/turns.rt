//! The calls that a worker makes: take, give and note.
ghost use Rattle.std.specs.Prelude.{◌≡◌, ◌<◌, ◌++◌, [], ◌∷◌, IfSome, IfNone};
ghost use Rattle.histories.specs.Records.{records};
ghost use Rattle.turn_table.specs.Tables.{IsPassOf, cells_of, fixed_of};
ghost use Rattle.turn_table.specs.Passes.{HoldsNone, HoldsCell, IsSameSeat, history_of, TakesTurn, FindsNoTurn, GivesBack, GivesTold, Notes, NotesTold};

use crate::cell::TurnCell;
use crate::law::{Give, Note, Take, Tells};
use crate::table::{Pass, Turns};
use crate::turn::Turn;
use histories::Telling;
use std::marker::Brand;
use std::sync::Wait;
use std::thread;

/// The words from this one on tell that a cell had 2^60 turns.
const END: u64 = 1 << 61;

impl<C: TurnCell> Turns<C> {
    /// Takes the turn of cell `k`, where it is free. None comes only where the cell's own word showed that the cell is
    /// held or had 2^60 turns; the pass then has that look, and the turns and records that it had. Doesn't wait.
    pub fn try_take(&self, pass: &mut Pass<C>, k: u32) -> Option<Turn<C>>
        requires own { IsPassOf self.now pass.old }
        requires free { HoldsNone pass.old }
        requires cell { k < cells_of self.now }
        ensures same { IsSameSeat pass.old pass.new }
        ensures took { IfSome result (λ t. TakesTurn C.stands (fixed_of self.now) k pass.old pass.new t) }
        ensures none { IfNone result (FindsNoTurn k pass.old pass.new) }
    {
        let found = self.table.shared.fetch_or::<Take>(pass, k as usize, 1);
        if found % 2 == 1 || found >= END {
            return None;
        }
        match self.table.shared.exchange(pass, k as usize, None) {
            Some(value) => Some(Turn { value, cell: k }),
            None => unreachable!(),
        }
    }

    /// Takes the turn of cell `k`, and waits until it is free. After 2^60 turns of the cell it never returns.
    pub fn take<R: Wait>(&self, rt: &R, pass: &mut Pass<C>, k: u32) -> Turn<C>
        requires own { IsPassOf self.now pass.old }
        requires free { HoldsNone pass.old }
        requires cell { k < cells_of self.now }
        ensures same { IsSameSeat pass.old pass.new }
        ensures took { TakesTurn C.stands (fixed_of self.now) k pass.old pass.new result }
    {
        for _ in rt.forever() {
            if let Some(turn) = self.try_take(pass, k) {
                return turn;
            }
            thread::yield_now();
        }
        unreachable!()
    }

    /// Gives the turn back, and appends `what` to the cell's history. The value has to stand for that longer history.
    /// Doesn't wait.
    pub fn give(&self, pass: &mut Pass<C>, turn: Turn<C>)
        ghost what: { C.Record }
        requires own { IsPassOf self.now pass.old }
        requires holds { HoldsCell turn.cell pass.old }
        requires cell { turn.cell < cells_of self.now }
        requires stands { C.stands (fixed_of self.now) turn.cell turn.value (records (history_of pass.old turn.cell) ++ what ∷ []) }
        ensures same { IsSameSeat pass.old pass.new }
        ensures gave { GivesBack turn.cell what pass.old pass.new }
    {
        self.give_telling::<Brand>(pass, turn)
    }

    /// Gives the turn back, and appends a record that `about` tells: one of which only the proof knows. The value has to
    /// stand for the longer history. Doesn't wait.
    pub fn give_told<Q: Telling<X, C::Record>, X>(
        &self,
        pass: &mut Pass<C>,
        turn: Turn<C>,
        about: &X,
    )
        requires own { IsPassOf self.now pass.old }
        requires holds { HoldsCell turn.cell pass.old }
        requires cell { turn.cell < cells_of self.now }
        requires stands { (x : C.Record) × Q.told about.now x × C.stands (fixed_of self.now) turn.cell turn.value (records (history_of pass.old turn.cell) ++ x ∷ []) }
        ensures same { IsSameSeat pass.old pass.new }
        ensures gave { GivesTold (Q.told about.now) turn.cell pass.old pass.new }
    {
        self.give_about::<Q, Brand, X>(pass, turn, about)
    }

    /// Appends `what` to the pass's own list, and to no history. Doesn't wait.
    pub fn note(&self, pass: &mut Pass<C>)
        ghost what: { C.Note }
        requires own { IsPassOf self.now pass.old }
        ensures same { IsSameSeat pass.old pass.new }
        ensures noted { Notes what pass.old pass.new }
    {
        self.note_telling::<Brand>(pass)
    }

    /// Appends a note that `about` tells to the pass's own list, and to no history. Doesn't wait.
    pub fn note_told<Q: Telling<X, C::Note>, X>(&self, pass: &mut Pass<C>, about: &X)
        requires own { IsPassOf self.now pass.old }
        requires some { (x : C.Note) × Q.told about.now x }
        ensures same { IsSameSeat pass.old pass.new }
        ensures noted { NotesTold (Q.told about.now) pass.old pass.new }
    {
        self.note_about::<Q, Brand, X>(pass, about)
    }

    // The value goes back into its slot, and then one step frees the cell and appends the record.
    fn give_telling<W: Tells<C::Record>>(&self, pass: &mut Pass<C>, turn: Turn<C>)
        requires own { IsPassOf self.now pass.old }
        requires holds { HoldsCell turn.cell pass.old }
        requires cell { turn.cell < cells_of self.now }
        requires stands { (x : C.Record) × W.told x × C.stands (fixed_of self.now) turn.cell turn.value (records (history_of pass.old turn.cell) ++ x ∷ []) }
        ensures same { IsSameSeat pass.old pass.new }
        ensures gave { GivesTold W.told turn.cell pass.old pass.new }
    {
        let Turn { value, cell } = turn;
        let k = cell as usize;
        let old = self.table.shared.exchange(pass, k, Some(value));
        let None = old else { unreachable!() };
        self.table.shared.fetch_add::<Give<W>>(pass, k, 1);
    }

    fn give_about<Q: Telling<X, C::Record>, W: Tells<C::Record>, X>(
        &self,
        pass: &mut Pass<C>,
        turn: Turn<C>,
        about: &X,
    )
        requires own { IsPassOf self.now pass.old }
        requires holds { HoldsCell turn.cell pass.old }
        requires cell { turn.cell < cells_of self.now }
        requires told { (x : C.Record) → Q.told about.now x → W.told x }
        requires tells { (x : C.Record) → W.told x → Q.told about.now x }
        requires stands { (x : C.Record) × Q.told about.now x × C.stands (fixed_of self.now) turn.cell turn.value (records (history_of pass.old turn.cell) ++ x ∷ []) }
        ensures same { IsSameSeat pass.old pass.new }
        ensures gave { GivesTold (Q.told about.now) turn.cell pass.old pass.new }
    {
        let _ = about;
        self.give_telling::<W>(pass, turn)
    }

    // A load of the word behind those of the cells, which changes no word.
    fn note_telling<W: Tells<C::Note>>(&self, pass: &mut Pass<C>)
        requires own { IsPassOf self.now pass.old }
        requires some { (x : C.Note) × W.told x }
        ensures same { IsSameSeat pass.old pass.new }
        ensures noted { NotesTold W.told pass.old pass.new }
    {
        self.table
            .shared
            .load::<Note<W>>(pass, self.table.slot_count());
    }

    fn note_about<Q: Telling<X, C::Note>, W: Tells<C::Note>, X>(
        &self,
        pass: &mut Pass<C>,
        about: &X,
    )
        requires own { IsPassOf self.now pass.old }
        requires told { (x : C.Note) → Q.told about.now x → W.told x }
        requires tells { (x : C.Note) → W.told x → Q.told about.now x }
        requires some { (x : C.Note) × Q.told about.now x }
        ensures same { IsSameSeat pass.old pass.new }
        ensures noted { NotesTold (Q.told about.now) pass.old pass.new }
    {
        let _ = about;
        self.note_telling::<W>(pass)
    }
}
