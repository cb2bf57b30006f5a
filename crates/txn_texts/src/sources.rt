//! What the texts of a step are made of, and how they are written.
ghost use Rattle.std.specs.Prelude.{◌≡◌, ◌≤◌, ℕ, List, Some, None, length, slice_get, IfSome, IsTrue, vec_len};
ghost use Rattle.sip_msg.specs.Table.{Reads};
ghost use Rattle.msg_edits.specs.Writing.{IsWritten};
ghost use Rattle.host_meaning.specs.Run.{is_readable};
ghost use Rattle.txn_dialogue.specs.Slots.{reading};
ghost use Rattle.txn_dialogue.specs.Sends.{repeated_text};
ghost use Rattle.txn_state.specs.Kept.{requests_of, text_if};
ghost use Rattle.txn_texts.specs.Texts.{AreRead, IsSeen, ack_between, cancel_for, parts_from, request_at, seen_of, stateless_for, text_of};
ghost use Rattle.txn_texts.specs.Reasons.{reason_text};

use crate::out_text::{OutText, Reason};
use outside_ports::Addr;
use sip_build::{TooLong, ack, cancel, reply};
use sip_msg::Message;
use txn_dialogue::laws::a_reading_is_the_message;
use txn_state::Txn;

/// A message that came: its bytes, their reading, and where it came from.
#[derive(Clone, Copy)]
pub struct Came<'a> {
    pub bytes: &'a [u8],
    pub message: &'a Message,
    pub source: Addr,
}

/// The readings of a step's messages: that of the transaction's request, and the message that came, where it is another one.
#[derive(Clone, Copy)]
pub struct Readings<'a> {
    pub request: &'a Message,
    pub came: Option<Came<'a>>,
}

/// What the texts of a step are made of, but for the one that goes on: the transaction, and the readings.
#[derive(Clone, Copy)]
pub struct Sources<'a> {
    pub txn: &'a Txn,
    pub readings: Readings<'a>,
}

impl<'a> Sources<'a> {
    /// Writes the text at the beginning of `out`, and tells its length. `passed` is the text that goes on, `other` room for a
    /// reading. Where a branch or a message that it is of isn't there it is empty.
    pub fn write(
        &self,
        text: &OutText,
        passed: &[u8],
        other: &mut Message,
        out: &mut [u8],
    ) -> Result<usize, TooLong>
        requires { AreRead self.now }
        ensures { IsWritten (text_of (parts_from self.now passed.now) text.now) out.old out.new result }
    {
        let readings = self.readings;
        match text {
            OutText::Made { code, reason } => {
                let (b, m) = (self.txn.request.text(), readings.request);
                reply(b, m, self.txn.source, *code, reason.bytes(), out)
            }
            OutText::Stateless { code, reason } => {
                write_stateless(readings.came, *code, reason, out)
            }
            OutText::Passed => copy(passed, out),
            OutText::Repeated => copy(self.repeated(), out),
            OutText::Request(n) => copy(self.branch_request(*n), out),
            OutText::Ack(n) => write_ack(self.branch_request(*n), readings.came, other, out),
            OutText::Cancel(n) => write_cancel(self.branch_request(*n), other, out),
        }
    }

    fn repeated(&self) -> &[u8]
        ensures { result.now ≡ repeated_text (text_if self.now.txn.now.progress.has_response self.now.txn.now.response) }
    {
        if self.txn.progress.has_response {
            self.txn.response.text()
        } else {
            &[]
        }
    }

    /// The request of the branch of this number; nothing where there is none.
    fn branch_request(&self, n: u8) -> &[u8]
        ensures { result.now ≡ request_at (requests_of self.now.txn.now.branches.items) n }
    {
        match self.txn.branches.get(usize::from(n)) {
            Some(branch) => branch.request.text(),
            None => &[],
        }
    }
}

/// Copies the text to the beginning of `out`.
fn copy(text: &[u8], out: &mut [u8]) -> Result<usize, TooLong>
    ensures { IsWritten text.now out.old out.new result }
{
    if text.len() > out.len() {
        return Err(TooLong { len: text.len() });
    }
    out[..text.len()].copy_from_slice(text);
    Ok(text.len())
}

/// Writes a response to the message that came; nothing where none came.
fn write_stateless(
    came: Option<Came<'_>>,
    code: u16,
    reason: &Reason,
    out: &mut [u8],
) -> Result<usize, TooLong>
    requires { IsSeen came }
    ensures { IsWritten (stateless_for (seen_of came.entry) code (reason_text reason.now)) out.old out.new result }
{
    match came {
        Some(came) => reply(
            came.bytes,
            came.message,
            came.source,
            code,
            reason.bytes(),
            out,
        ),
        None => copy(&[], out),
    }
}

/// Writes the CANCEL of this request; nothing where it doesn't read.
fn write_cancel(request: &[u8], other: &mut Message, out: &mut [u8]) -> Result<usize, TooLong>
    ensures { IsWritten (cancel_for (reading request.now)) out.old out.new result }
{
    a_reading_is_the_message();
    match Message::read_into(request, other) {
        Ok(()) => cancel(request, other, out),
        Err(_) => copy(&[], out),
    }
}

/// Writes the ACK for the response that came to this request; nothing where one of them isn't there.
fn write_ack(
    request: &[u8],
    came: Option<Came<'_>>,
    other: &mut Message,
    out: &mut [u8],
) -> Result<usize, TooLong>
    requires { IsSeen came }
    ensures { IsWritten (ack_between (reading request.now) (seen_of came.entry)) out.old out.new result }
{
    a_reading_is_the_message();
    let Some(came) = came else {
        return copy(&[], out);
    };
    match Message::read_into(request, other) {
        Ok(()) => ack(request, other, came.bytes, came.message, out),
        Err(_) => copy(&[], out),
    }
}
