//! Separators: bytes that part two words (RFC 3261, section 25.1: SLASH, EQUAL, SEMI, COLON and their like).
ghost use Rattle.std.specs.Prelude.{◌≡◌, ◌≤◌, ◌<◌, length, IfSome};
ghost use Rattle.sip_words.specs.Separators.{skip, separator_at};

use crate::words::{lws_end, stands};

/// Where words stand.
#[derive(Clone, Copy, Debug, PartialEq, Eq)]
pub enum Surroundings {
    /// In a field's value, where LWS may stand round a separator.
    Field,
    /// In a URI, where none may.
    Uri,
}

/// A byte that parts two words, as `;` or `:`: its place, and the end of it and of the LWS behind it.
#[derive(Clone, Copy, Debug, PartialEq, Eq)]
pub struct Separator {
    pub place: usize,
    pub end: usize,
}

/// The end of the LWS that may stand at `from` here.
fn skip(text: &[u8], from: usize, surroundings: Surroundings) -> usize
    requires { from ≤ length text.now }
    ensures value { result ≡ skip surroundings text.now from }
    ensures low { from ≤ result }
    ensures high { result ≤ length text.now }
{
    match surroundings {
        Surroundings::Field => lws_end(text, from),
        Surroundings::Uri => from,
    }
}

/// The separator that stands at `from`, with the LWS round it that may stand here.
#[tactic(auto, unfolding(crate::specs::Separators::separator_at))]
pub fn separator_at(
    text: &[u8],
    from: usize,
    byte: u8,
    surroundings: Surroundings,
) -> Option<Separator>
    requires { from ≤ length text.now }
    ensures value { result ≡ separator_at surroundings byte text.now from }
    ensures bounds { IfSome result (λ m. (from ≤ m.place) × (m.place < m.end) × (m.end ≤ length text.now)) }
{
    let place = skip(text, from, surroundings);
    if !stands(text, place, byte) {
        return None;
    }
    Some(Separator {
        place,
        end: skip(text, place + 1, surroundings),
    })
}
