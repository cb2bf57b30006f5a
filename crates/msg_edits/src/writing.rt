//! Writing a text after edits into a room.
ghost use Rattle.std.specs.Prelude.{map, ◌++◌, ◌≤◌, length};
ghost use Rattle.msg_edits.specs.Edited.{edited};
ghost use Rattle.msg_edits.specs.Change.{edit_of};
ghost use Rattle.sip_words.specs.Room.{IsWrittenSoFar};
ghost use Rattle.msg_edits.specs.Writing.{edits_of, IsWritten};

use crate::changes::{Changes, ORDERED};
use crate::parts::{Change, Edit};

/// The whole text is longer than the room.
#[derive(Clone, Copy, Debug, PartialEq, Eq)]
pub struct TooLong {
    /// The length of the whole text, or the greatest `usize` where the text is longer.
    pub len: usize,
}

/// Writes `b` after `edits` to the front of `out`, and says how long it is. Where it doesn't fit, `out` stays as it
/// was. Edits past the end of `b` do nothing.
pub fn apply(b: &[u8], edits: &[Edit], out: &mut [u8]) -> Result<usize, TooLong>
    ensures { IsWritten (edited b.now edits.now) out.old out.new result }
{
    apply_after(b, &[], edits, out)
}

/// The same with the changes `first` made before the edits. Up to 80 of both are put in order once, and the text is
/// then written in one pass.
pub fn apply_after(
    b: &[u8],
    first: &[Change<'_>],
    edits: &[Edit],
    out: &mut [u8],
) -> Result<usize, TooLong>
    ensures { IsWritten (edited b.now (map edit_of first.now ++ edits.now)) out.old out.new result }
{
    let all = Changes {
        first,
        then_edits: edits,
    };
    if all.len() <= ORDERED {
        all.fit_swept(b, out)
    } else {
        all.fit_each_byte(b, out)
    }
}

impl Changes<'_> {
    /// Puts the edits in order, and writes the text in one pass where it fits.
    fn fit_swept(&self, b: &[u8], out: &mut [u8]) -> Result<usize, TooLong>
        requires { length (edits_of self.now) ≤ 80 }
        ensures { IsWritten (edited b.now (edits_of self.now)) out.old out.new result }
    {
        let order = self.in_order();
        let len = self.sweep(order.as_slice(), b, &mut []);
        if len > out.len() {
            return Err(TooLong { len });
        }
        Ok(self.sweep(order.as_slice(), b, out))
    }

    /// Writes the text byte by byte where it fits.
    fn fit_each_byte(&self, b: &[u8], out: &mut [u8]) -> Result<usize, TooLong>
        ensures { IsWritten (edited b.now (edits_of self.now)) out.old out.new result }
    {
        let len = self.write_each_byte(b, &mut []);
        if len > out.len() {
            return Err(TooLong { len });
        }
        Ok(self.write_each_byte(b, out))
    }
}
