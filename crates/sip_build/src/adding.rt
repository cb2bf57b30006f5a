//! One field more in a written text.
ghost use Rattle.std.specs.Prelude.{◌≡◌, ◌≤◌, ◌<◌, ◌+◌, ◌++◌, drop, length, take, IfSome, IsTrue};
ghost use Rattle.sip_words.specs.Spans.{IsWithin};
ghost use Rattle.sip_msg.specs.Basis.{first_from};
ghost use Rattle.msg_edits.specs.Writing.{IsWritten};
ghost use Rattle.sip_build.specs.Parts.{part};
ghost use Rattle.sip_build.specs.WithField.{ends_before_empty, empty_line, with_field};

use msg_edits::TooLong;
use sip_msg::Span;
use sip_scan::{is_crlf, skipped};

/// Puts the bytes of `b` at `field` before the first empty line of the first `len` bytes of `out`, behind their
/// leading CR and LF, and says how long the text is then. A text without an empty line stays as it is. Where the text
/// doesn't fit, `out` stays as it was.
#[tactic(auto, unfolding(crate::specs::WithField::with_field))]
pub fn append_field(out: &mut [u8], len: usize, b: &[u8], field: Span) -> Result<usize, TooLong>
    requires room { len ≤ length out.old }
    requires field { IsWithin b.now field }
    ensures { IsWritten (with_field (take len out.old) (part b.now field)) out.old out.new result }
{
    let bytes = &b[field.from..field.to];
    let Some(place) = empty_line(&out[..len]) else {
        return Ok(len);
    };
    let end = len.saturating_add(bytes.len());
    if end > out.len() {
        return Err(TooLong { len: end });
    }
    out.copy_within(place..len, place + bytes.len());
    out[place..place + bytes.len()].copy_from_slice(bytes);
    Ok(end)
}

/// Whether the CRLF at `at` ends a line, and the line behind it is empty.
#[tactic(auto, unfolding(crate::specs::WithField::ends_before_empty))]
fn ends_before_empty(text: &[u8], at: usize) -> bool
    requires { at < length text.now }
    ensures value { result ≡ ends_before_empty text.now at }
    ensures within { IsTrue result → at + 4 ≤ length text.now }
{
    is_crlf(text, at) && is_crlf(text, at + 2)
}

/// The first CRLF from `from` on behind which an empty line stands.
#[tactic(auto, using(sip_msg::proofs::Places::here, sip_msg::proofs::Places::goes, sip_msg::proofs::Places::none))]
fn last_crlf(text: &[u8], from: usize) -> Option<usize>
    requires { from ≤ length text.now }
    ensures value { result ≡ first_from (ends_before_empty text.now) text.now from }
    ensures within { IfSome result (λ at. at + 4 ≤ length text.now) }
{
    for at in from..text.len() {
        if ends_before_empty(text, at) {
            return Some(at);
        }
    }
    None
}

/// Where the first empty line behind the CR and LF in front begins.
#[tactic(auto, unfolding(crate::specs::WithField::empty_line))]
fn empty_line(text: &[u8]) -> Option<usize>
    ensures value { result ≡ empty_line text.now }
    ensures within { IfSome result (λ place. place + 2 ≤ length text.now) }
{
    let at = last_crlf(text, skipped(text))?;
    Some(at + 2)
}
