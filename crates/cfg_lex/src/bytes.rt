//! Classes of bytes.

ghost use Rattle.std.specs.Prelude.{◌≡◌, ◌≤◌, ◌<◌, length, drop, IsTrue};
ghost use Rattle.std.specs.List.{prefix_len};
ghost use Rattle.cfg_tree.specs.Variables.{begins_name, name_len, begins_with};
ghost use Rattle.cfg_lex.specs.Bytes.{is_blank, is_quote, class_has};

/// A class of bytes of which the language has runs.
#[derive(Clone, Copy, Debug, PartialEq, Eq)]
pub enum RunClass {
    /// A letter, a digit or `_`: the bytes of a name after its first one.
    NameByte,
    Digit,
    /// A letter, a digit, or one of `_-:.`: the bytes of a block's name.
    BlockName,
    /// All bytes but this one.
    Other(u8),
}

impl RunClass {
    /// Whether the byte is of this class.
    pub fn has(self, b: u8) -> bool
        ensures { result ≡ class_has self b }
    {
        match self {
            RunClass::NameByte => b.is_ascii_alphanumeric() || b == b'_',
            RunClass::Digit => b.is_ascii_digit(),
            RunClass::BlockName => b.is_ascii_alphanumeric() || b"_-:.".contains(&b),
            RunClass::Other(other) => b != other,
        }
    }
}

/// SP, HTAB, CR or LF.
pub fn is_blank(b: u8) -> bool
    ensures { result ≡ is_blank b }
{
    b" \t\r\n".contains(&b)
}

/// `"` or `'`.
pub fn is_quote(b: u8) -> bool
    ensures { result ≡ is_quote b }
{
    b == b'"' || b == b'\''
}

/// A letter or `_`.
pub fn begins_name(b: u8) -> bool
    ensures { result ≡ begins_name b }
{
    b.is_ascii_alphabetic() || b == b'_'
}

/// Whether this byte stands at `at`.
#[tactic(auto, using(crate::proofs::Runs::stands_in, crate::proofs::Runs::stands_past))]
pub fn begins_at(text: &[u8], at: usize, byte: u8) -> bool
    ensures value { result ≡ begins_with byte (drop at text.now) }
    ensures within { IsTrue result → at < length text.now }
{
    at < text.len() && text[at] == byte
}

/// How many bytes of a class stand at the beginning.
#[tactic(auto, using(crate::proofs::Runs::run_stops, crate::proofs::Runs::run_goes, crate::proofs::Runs::run_all))]
pub fn run_len(text: &[u8], class: RunClass) -> usize
    ensures value { result ≡ prefix_len (class_has class) text.now }
    ensures within { result ≤ length text.now }
{
    for at in 0..text.len() {
        if !class.has(text[at]) {
            return at;
        }
    }
    text.len()
}

/// The length of the name at the beginning, or 0 where none stands there.
pub fn name_len(text: &[u8]) -> usize
    ensures value { result ≡ name_len text.now }
    ensures within { result ≤ length text.now }
{
    match text {
        [first, rest @ ..] if begins_name(*first) => 1 + run_len(rest, RunClass::NameByte),
        _ => 0,
    }
}
