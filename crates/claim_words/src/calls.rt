//! The calls on claims. To open is one `fetch_max` on the slot's word and to claim one `compare_exchange`, so both try once
//! and nobody waits.
ghost use Rattle.std.specs.Prelude.{◌≡◌, ◌+◌, ◌^◌, ◌<◌, ◌≤◌, ℕ, Some, length};
ghost use Rattle.claim_words.specs.Lists.{nth_list};
ghost use Rattle.claim_words.specs.Suspensions.{suspension, suspensions};
ghost use Rattle.claim_words.specs.Words.{end_by_word};
ghost use Rattle.claim_words.specs.Claims.{HasClaimed, HasOpened, met};
ghost use Rattle.claim_words.specs.Owned.{id_of, slots_of, workers_of, opener_clerk, pass_clerk, note_clerk, IsOpenerOf, IsClaimPassOf, IsNoteOf};
ghost use Rattle.claim_words.specs.declared.view.SeatKind.TheVariants.{Desk};
ghost use Rattle.claim_words.specs.declared.By.TheVariants.{Continued};
ghost use Rattle.claim_words.specs.declared.ClaimEnd.TheVariants.{Won, Unknown};

use crate::claims::{ClaimNote, ClaimPass, Claims, Opener};
use crate::steps::{About, Claim, ClaimSeat, Learn, Meet, Miss, Noting, Open};
use crate::word::{MOST, WAYS, code_of, end_of};
use crate::{By, ClaimEnd};
use std::marker::Brand;

impl Claims {
    fn open_about<W: About>(&self, seat: &mut ClaimSeat, slot: u32, last: u64, worker: u32)
        requires own { (seat.old.table_id ≡ id_of self.now) × (slot < slots_of self.now) }
        requires desk { (seat.old.me.0.kind ≡ Desk) × (seat.old.me.0.number ≡ workers_of self.now + slot) × (seat.old.me.0.last ≡ last) }
        requires about { (W.serial ≡ last) × (W.number ≡ worker) }
        requires room { last < 2 ^ 60 }
        ensures same { (seat.new.table_id ≡ seat.old.table_id) × (seat.new.me.1 ≡ seat.old.me.1) }
        ensures opened { HasOpened slot worker last seat.old.me.0 seat.new.me.0 }
    {
        let _ = worker;
        self.table
            .shared
            .fetch_max::<Open<W>>(seat, slot as usize, WAYS * (last + 1));
    }

    /// Opens the next suspension of the Opener's slot, for this worker, and answers its serial: 1 at first.
    pub fn open(&self, opener: &mut Opener, worker: u32) -> u64
        requires own { IsOpenerOf self.now opener.old }
        requires room { opener.old.last < 2 ^ 60 }
        ensures own { IsOpenerOf self.now opener.new }
        ensures same { (opener.new.seat.table_id ≡ opener.old.seat.table_id) × (opener.new.slot ≡ opener.old.slot) }
        ensures serial { (result ≡ opener.old.last + 1) × (opener.new.last ≡ result) }
        ensures opened { HasOpened opener.old.slot worker opener.old.last (opener_clerk opener.old) (opener_clerk opener.new) }
    {
        let next = opener.last + 1;
        self.open_about::<Brand>(&mut opener.seat, opener.slot, opener.last, worker);
        opener.last = next;
        next
    }

    fn claim_about<W: About>(
        &self,
        seat: &mut ClaimSeat,
        slot: u32,
        serial: u64,
        by: By,
        number: u32,
    ) -> u64
        requires own { (seat.old.table_id ≡ id_of self.now) × (slot < slots_of self.now) }
        requires desk { (seat.old.me.0.kind ≡ Desk) × (seat.old.me.0.number ≡ number) }
        requires about { (W.number ≡ number) × (W.serial ≡ serial) × (W.way ≡ by) }
        requires serial { (0 < serial) × (serial ≤ 2 ^ 60) }
        ensures same { (seat.new.table_id ≡ seat.old.table_id) × (seat.new.me.1 ≡ seat.old.me.1) }
        ensures claimed { HasClaimed slot number serial by seat.old.me.0 (end_by_word result serial) seat.new.me.0 }
    {
        let _ = number;
        self.table.shared.compare_exchange::<Claim<W>>(
            seat,
            slot as usize,
            WAYS * serial,
            WAYS * serial + code_of(by),
        )
    }

    fn miss_about<W: About>(
        &self,
        seat: &mut ClaimSeat,
        slot: u32,
        serial: u64,
        by: By,
        number: u32,
    )
        requires own { (seat.old.table_id ≡ id_of self.now) × (slot < slots_of self.now) }
        requires desk { (seat.old.me.0.kind ≡ Desk) × (seat.old.me.0.number ≡ number) }
        requires about { (W.number ≡ number) × (W.serial ≡ serial) × (W.way ≡ by) }
        requires serial { serial ≤ 2 ^ 60 → serial ≡ 0 }
        ensures same { (seat.new.table_id ≡ seat.old.table_id) × (seat.new.me.1 ≡ seat.old.me.1) }
        ensures claimed { HasClaimed slot number serial by seat.old.me.0 Unknown seat.new.me.0 }
    {
        let _ = number;
        let _ = serial;
        let _ = by;
        self.table.shared.load::<Miss<W>>(seat, slot as usize);
    }

    /// Claims the suspension of this serial. Of all claims of one suspension just one is Won; a later one is Lost, or Past
    /// once the slot has a later suspension. Unknown comes for serial 0 and for one that was never opened.
    pub fn claim(&self, pass: &mut ClaimPass, slot: u32, serial: u64, by: By) -> ClaimEnd
        requires own { IsClaimPassOf self.now pass.old }
        requires slot { slot < slots_of self.now }
        ensures own { IsClaimPassOf self.now pass.new }
        ensures same { (pass.new.seat.table_id ≡ pass.old.seat.table_id) × (pass.new.number ≡ pass.old.number) }
        ensures claimed { HasClaimed slot pass.old.number serial by (pass_clerk pass.old) result (pass_clerk pass.new) }
        ensures won { (place : ℕ) → result ≡ Won place → suspension (suspensions (nth_list (pass_clerk pass.new).seen slot)) serial ≡ Some by }
    {
        if serial == 0 || serial > MOST {
            self.miss_about::<Brand>(&mut pass.seat, slot, serial, by, pass.number);
            return ClaimEnd::Unknown;
        }
        let found = self.claim_about::<Brand>(&mut pass.seat, slot, serial, by, pass.number);
        end_of(found, serial)
    }

    /// A note of a claim that this pass has seen won by `Continued`.
    pub fn note(&self, pass: &mut ClaimPass, slot: u32, serial: u64) -> ClaimNote
        requires own { IsClaimPassOf self.now pass.old }
        requires won { suspension (suspensions (nth_list (pass_clerk pass.old).seen slot)) serial ≡ Some Continued }
        ensures own { IsClaimPassOf self.now pass.new }
        ensures same { (pass.new.seat.table_id ≡ pass.old.seat.table_id) × (pass.new.number ≡ pass.old.number) × (pass_clerk pass.new ≡ pass_clerk pass.old) }
        ensures note { IsNoteOf self.now result × (result.slot ≡ slot) × (result.serial ≡ serial) × ((note_clerk result).seen ≡ (pass_clerk pass.old).seen) }
    {
        let seat = self.table.shared.split_seat::<Noting>(&mut pass.seat);
        ClaimNote { seat, slot, serial }
    }

    /// Gives a note up to an Opener. All suspensions of its slot that the note had seen were opened by then, and so was that of
    /// the note's own claim.
    pub fn meet(&self, opener: &mut Opener, note: ClaimNote)
        requires own { IsOpenerOf self.now opener.old }
        requires note { IsNoteOf self.now note }
        ensures own { IsOpenerOf self.now opener.new }
        ensures same { (opener.new.seat.table_id ≡ opener.old.seat.table_id) × (opener.new.slot ≡ opener.old.slot) × (opener.new.last ≡ opener.old.last) }
        ensures met { opener_clerk opener.new ≡ met (opener_clerk opener.old) (note_clerk note) }
        ensures known { length (suspensions (nth_list (note_clerk note).seen opener.old.slot)) ≤ opener.old.last }
        ensures serial { note.slot ≡ opener.old.slot → note.serial ≤ opener.old.last }
    {
        let ClaimNote {
            seat,
            slot: _,
            serial: _,
        } = note;
        self.table.shared.join_seat::<Meet>(&mut opener.seat, seat);
        self.table
            .shared
            .load::<Learn>(&mut opener.seat, opener.slot as usize);
    }
}
