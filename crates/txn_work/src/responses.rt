//! Responses of a transaction's server.
ghost use Rattle.std.specs.Prelude.{◌≡◌, ◌<◌, ◌≤◌, ◌+◌, ℕ, List, Option};
ghost use Rattle.txn_dialogue.specs.Sends.{responding, responded, settled};
ghost use Rattle.txn_dialogue.specs.Sends as decided;
ghost use Rattle.txn_texts.specs.Texts.{IsRead, text_of};
ghost use Rattle.txn_texts.specs.Reasons.{reason_text};
ghost use Rattle.txn_texts.specs.Desks.{last_on, passed_on};
ghost use Rattle.txn_texts.specs.Outboxes.{room_in};

use crate::work::Work;
use sip_build::reply_to;
use txn_server::{ServerEvent, server_step};
use txn_state::Txn;
use txn_texts::{OutText, Readings, Reason};

impl Work {
    ghost use Rattle.txn_dialogue.specs.Sends.{Work as Decided};
    ghost use Rattle.buf_pool.specs.Ledgers.{LedgerName};
    ghost use Rattle.txn_work.specs.Works.{Shows, parts_in};

    /// Hands a response with this code and text to the server: it is sent where the server's table says so (RFC 3261, section
    /// 17.2; RFC 6026), and repeated from then on, up to the first final one.
    pub fn respond(&mut self, txn: &mut Txn, readings: &Readings<'_>, code: u16, text: OutText)
        requires read { IsRead txn.old readings.now }
        requires room { 0 < room_in self.old.outbox }
        ensures responds { (pool : LedgerName) (d : Decided) → Shows pool txn.old readings.now self.old d
            → Shows pool txn.new readings.now self.new (responding code (text_of (parts_in txn.old readings.now self.old) text) d) }
        ensures passed { passed_on self.new.desk ≡ passed_on self.old.desk }
        ensures room { room_in self.old.outbox ≤ room_in self.new.outbox + 1 }
        ensures same { txn.new ≡ record txn.old { progress = record txn.old.progress { server = txn.new.progress.server } } }
    {
        let had_final = txn.has_final();
        let acts = server_step(&mut txn.progress.server, ServerEvent::Send(code), self.time);
        if !acts.send {
            return;
        }
        let to = reply_to(readings.request, txn.source);
        self.send(txn, readings, to, text, None);
        if had_final {
            return;
        }
        self.desk.keep_last();
    }

    /// Hands the response to the server that the proxy makes with this code and reason phrase.
    pub fn respond_with(
        &mut self,
        txn: &mut Txn,
        readings: &Readings<'_>,
        code: u16,
        reason: Reason,
    )
        requires read { IsRead txn.old readings.now }
        requires room { 0 < room_in self.old.outbox }
        ensures responds { (pool : LedgerName) (d : Decided) → Shows pool txn.old readings.now self.old d
            → Shows pool txn.new readings.now self.new (responded code (reason_text reason) d) }
        ensures passed { passed_on self.new.desk ≡ passed_on self.old.desk }
        ensures room { room_in self.old.outbox ≤ room_in self.new.outbox + 1 }
        ensures same { txn.new ≡ record txn.old { progress = record txn.old.progress { server = txn.new.progress.server } } }
    {
        self.respond(txn, readings, code, OutText::Made { code, reason });
    }

    /// Sends 487, where a cancelled transaction owes it (RFC 3261, sections 9.2 and 16.10).
    pub fn settle(&mut self, txn: &mut Txn, readings: &Readings<'_>)
        requires read { IsRead txn.old readings.now }
        requires room { 0 < room_in self.old.outbox }
        ensures settles { (pool : LedgerName) (d : Decided) → Shows pool txn.old readings.now self.old d → Shows pool txn.new readings.now self.new (settled d) }
        ensures passed { passed_on self.new.desk ≡ passed_on self.old.desk }
        ensures room { room_in self.old.outbox ≤ room_in self.new.outbox + 1 }
        ensures same { txn.new ≡ record txn.old { progress = record txn.old.progress { server = txn.new.progress.server } } }
    {
        if txn.owes_487() {
            self.respond_with(txn, readings, 487, Reason::Own(b"Request Terminated"));
        }
    }

    /// An event happens to the server that hands in no response: what it repeats is sent, where its table says so. It is what it
    /// was at the beginning of the step.
    pub fn serve(&mut self, txn: &mut Txn, readings: &Readings<'_>, event: ServerEvent)
        requires read { IsRead txn.old readings.now }
        requires room { 0 < room_in self.old.outbox }
        requires begins { (old : Option (List ℕ)) → last_on self.old.desk old ≡ old }
        ensures serves { (pool : LedgerName) (d : Decided) → Shows pool txn.old readings.now self.old d → Shows pool txn.new readings.now self.new (decided.server_step event d) }
        ensures passed { passed_on self.new.desk ≡ passed_on self.old.desk }
        ensures room { room_in self.old.outbox ≤ room_in self.new.outbox + 1 }
        ensures same { txn.new ≡ record txn.old { progress = record txn.old.progress { server = txn.new.progress.server } } }
    {
        let acts = server_step(&mut txn.progress.server, event, self.time);
        if !acts.repeat {
            return;
        }
        let to = reply_to(readings.request, txn.source);
        self.send(txn, readings, to, OutText::Repeated, None);
    }
}
