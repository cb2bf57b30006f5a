//! What stands behind a value: the end of its field, or a comma and the next one.
ghost use Rattle.std.specs.Prelude.{◌≡◌, ◌≤◌, ◌<◌, length, IfSome};
ghost use Rattle.sip_fields.specs.Tail.{next_at};

use sip_words::{Surroundings, lws_end, separator_at};

/// No value of the field stands there.
#[derive(Clone, Copy, Debug, PartialEq, Eq)]
pub struct Bad;

/// What stands behind a value: LWS up to the end of the field; or a comma, and then the place behind it and its LWS.
#[tactic(auto, unfolding(crate::specs::Tail::next_at))]
pub fn next_at(text: &[u8], from: usize) -> Option<Option<usize>>
    requires { from ≤ length text.now }
    ensures value { result ≡ next_at text.now from }
    ensures bounds { IfSome result (λ next. IfSome next (λ n. (from < n) × (n ≤ length text.now))) }
{
    if let Some(comma) = separator_at(text, from, b',', Surroundings::Field) {
        return Some(Some(comma.end));
    }
    if lws_end(text, from) == text.len() {
        Some(None)
    } else {
        None
    }
}
