//! Writing a text piece by piece into a room, which may be too short for it.
ghost use Rattle.std.specs.Prelude.{◌++◌, ℕ, List};
ghost use Rattle.sip_words.specs.Room.{IsWrittenSoFar};

/// Writes `piece` behind the first `len` bytes where it fits, and answers the length with it, held at the greatest
/// `usize`. So a text is written in pieces, and its length is known also where it doesn't fit.
pub fn put(out: &mut [u8], len: usize, piece: &[u8]) -> usize
    ensures { (room text : List ℕ) → IsWrittenSoFar room out.old len text → IsWrittenSoFar room out.new result (text ++ piece.now) }
{
    let end = len.saturating_add(piece.len());
    if end <= out.len() {
        out[len..end].copy_from_slice(piece);
    }
    end
}
