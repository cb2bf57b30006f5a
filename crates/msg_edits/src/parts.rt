//! One edit, with a text of its own or with a borrowed one.
ghost use Rattle.std.specs.Prelude.{◌≡◌};

use outside_ports::Bytes;
use sip_words::Span;

/// One edit of a text. Places count the bytes of the text as it was before any edit.
#[derive(Drop)]
pub enum Edit {
    /// Takes the bytes of this span away.
    Cut(Span),
    /// Puts a text before the byte at this place, or at the end where the place is the text's length.
    Insert { place: usize, text: Bytes },
}

impl Edit {
    ghost use Rattle.msg_edits.specs.Change.{edit_of};

    /// The same edit, with its text borrowed.
    pub fn as_change(&self) -> Change<'_>
        ensures { edit_of result ≡ self.now }
    {
        match self {
            Edit::Cut(at) => Change::Cut(*at),
            Edit::Insert { place, text } => Change::Insert {
                place: *place,
                text: text.as_slice(),
            },
        }
    }
}

impl Default for Edit {
    ghost use Rattle.std.specs.Prelude.{⊤};

    ghost is_default = { λ _. ⊤ };

    /// A cut of no byte.
    fn default() -> Self {
        Edit::Cut(Span::default())
    }
}

/// One edit whose inserted text is borrowed.
#[derive(Clone, Copy)]
pub enum Change<'a> {
    /// Takes the bytes of this span away.
    Cut(Span),
    /// Puts a text before the byte at this place, or at the end where the place is the text's length.
    Insert { place: usize, text: &'a [u8] },
}
