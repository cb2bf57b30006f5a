//! Names, and what stands after them.

ghost use Rattle.std.specs.Prelude.{◌≡◌, option_map};
ghost use Rattle.std.specs.List.{list_all};
ghost use Rattle.cfg_tree.specs.Names.{table_and_key};
ghost use Rattle.cfg_tree.specs.Variables.{begins_name, goes_on, is_name};

use crate::bytes::stands_at;

/// Whether a name may begin with the byte: a letter or `_`.
fn begins_name(byte: u8) -> bool
    ensures { result ≡ begins_name byte }
{
    byte.is_ascii_alphabetic() || byte == b'_'
}

/// Whether a name may go on with the byte: a letter, a digit or `_`.
fn goes_on(byte: u8) -> bool
    ensures { result ≡ goes_on byte }
{
    byte.is_ascii_alphanumeric() || byte == b'_'
}

/// Whether a name may go on with each byte of the text.
fn goes_on_with(text: &[u8]) -> bool
    ensures { result ≡ list_all goes_on text.now }
{
    text.iter().all(|byte| goes_on(*byte))
}

/// Whether the text is a name: a letter or `_`, and then letters, digits and `_`.
pub fn is_name(text: &[u8]) -> bool
    ensures { result ≡ is_name text.now }
{
    match text {
        [first, rest @ ..] => begins_name(*first) && goes_on_with(rest),
        [] => false,
    }
}

/// A text of the form `TABLE=>KEY`, cut at the first `=>`.
#[tactic(auto, using(crate::proofs::Names::cut_later, crate::proofs::Names::cut_nowhere))]
pub fn table_and_key(text: &[u8]) -> Option<(&[u8], &[u8])>
    ensures { option_map (λ cut. (cut.0.now, cut.1.now)) result ≡ table_and_key text.now }
{
    for at in 0..text.len() {
        if stands_at(text, at, b'=') && stands_at(text, at + 1, b'>') {
            return Some((&text[..at], &text[at + 2..]));
        }
    }
    None
}
