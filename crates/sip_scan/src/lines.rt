//! Lines of a head.
ghost use Rattle.std.specs.Prelude.{◌≡◌, ◌==◌, ◌≤◌, ◌<◌, ◌+◌, ◌-◌, length, drop, IfSome, IsTrue, option_map};
ghost use Rattle.std.specs.List.{after_last};
ghost use Rattle.sip_words.specs.Spans.{IsWithin};
ghost use Rattle.sip_scan.specs.Lines.{is_break, plain_end, wsp_end, skipped, is_crlf, line_end, continues, lines_at, folded_end, first_crlf, begins_sip, speaks_sip, start_line};

use sip_words::{Class, Span, run_end, same_word, stands};

/// CR or LF.
fn is_break(b: u8) -> bool
    ensures { result ≡ is_break b }
{
    matches!(b, b'\r' | b'\n')
}

/// Where the longest run of bytes of a line from `from` on ends: of bytes other than NUL, CR and LF.
#[tactic(auto, using(crate::proofs::Runs::plain_run))]
fn plain_end(text: &[u8], from: usize) -> usize
    requires { from ≤ length text.now }
    ensures value { result ≡ plain_end text.now from }
    ensures bounds { (from ≤ result) × (result ≤ length text.now) }
{
    run_end(text, from, Class::InLine)
}

/// The end of SP and HTAB.
#[tactic(auto, using(crate::proofs::Runs::wsp_run))]
pub fn wsp_end(text: &[u8], from: usize) -> usize
    requires { from ≤ length text.now }
    ensures value { result ≡ wsp_end text.now from }
    ensures bounds { (from ≤ result) × (result ≤ length text.now) }
{
    run_end(text, from, Class::Wsp)
}

/// How many bytes of CR and LF stand in front.
#[tactic(auto, using(crate::proofs::Runs::skip_stops, crate::proofs::Runs::skip_goes, crate::proofs::Runs::skip_all, crate::proofs::Runs::skip_starts))]
pub fn skipped(text: &[u8]) -> usize
    ensures value { result ≡ skipped text.now }
    ensures within { result ≤ length text.now }
{
    for at in 0..text.len() {
        if !is_break(text[at]) {
            return at;
        }
    }
    text.len()
}

/// Whether a CRLF stands at `at`.
#[tactic(auto, unfolding(crate::specs::Lines::is_crlf))]
pub fn is_crlf(text: &[u8], at: usize) -> bool
    requires { at ≤ length text.now }
    ensures value { result ≡ is_crlf text.now at }
    ensures within { IsTrue result → at + 2 ≤ length text.now }
{
    stands(text, at, b'\r') && stands(text, at + 1, b'\n')
}

/// Where the line of plain bytes at `from` ends, with a CRLF behind it.
#[tactic(auto, unfolding(crate::specs::Lines::line_end))]
pub fn line_end(text: &[u8], from: usize) -> Option<usize>
    requires { from ≤ length text.now }
    ensures value { result ≡ line_end text.now from }
    ensures bounds { IfSome result (λ end. (from ≤ end) × (end + 2 ≤ length text.now)) }
{
    let end = plain_end(text, from);
    is_crlf(text, end).then_some(end)
}

/// Whether the line at `from` continues the one before it.
#[tactic(auto, unfolding(crate::specs::Lines::continues))]
fn continues(text: &[u8], from: usize) -> bool
    ensures { result ≡ continues text.now from }
{
    stands(text, from, b' ') || stands(text, from, b'\t')
}

/// The place behind the continuation lines at `from`.
fn lines_at(text: &[u8], from: usize) -> Option<usize>
    requires { from ≤ length text.now }
    ensures value { result ≡ option_map (λ lines. lines.1) (lines_at text.now from) }
    ensures bounds { IfSome result (λ end. (from ≤ end) × (end ≤ length text.now)) }
{
    let mut at = from;
    while continues(text, at) {
        at = line_end(text, at)? + 2;
    }
    Some(at)
}

/// The place behind the line at `from` and its continuation lines.
#[tactic(auto, unfolding(crate::specs::Lines::folded_end))]
pub fn folded_end(text: &[u8], from: usize) -> Option<usize>
    requires { from ≤ length text.now }
    ensures value { result ≡ folded_end text.now from }
    ensures bounds { IfSome result (λ end. (from + 2 ≤ end) × (end ≤ length text.now)) }
{
    let end = line_end(text, from)?;
    lines_at(text, end + 2)
}

/// The place of the first CRLF from `from` on.
#[tactic(auto, using(crate::proofs::Runs::crlf_here, crate::proofs::Runs::crlf_later, crate::proofs::Runs::crlf_none))]
fn first_crlf(text: &[u8], from: usize) -> Option<usize>
    requires { from ≤ length text.now }
    ensures value { result ≡ first_crlf text.now from }
    ensures bounds { IfSome result (λ end. (from ≤ end) × (end + 2 ≤ length text.now)) }
{
    for at in from..text.len() {
        if is_crlf(text, at) {
            return Some(at);
        }
    }
    None
}

/// Whether the bytes begin with `SIP/`, in any case.
#[tactic(auto, unfolding(crate::specs::Lines::begins_sip))]
fn begins_sip(bytes: &[u8]) -> bool
    ensures { result ≡ begins_sip bytes.now }
{
    let front = &bytes[..bytes.len().min(4)];
    same_word(front, b"SIP/")
}

/// What stands behind the last SP, or all where there is none.
fn last_part(line: &[u8]) -> &[u8]
    ensures { result.now ≡ after_last (λ b. b == 32) line.now }
{
    for at in (0..line.len()).rev() {
        if line[at] == b' ' {
            return &line[at + 1..];
        }
    }
    line
}

/// Whether this is a first line of SIP.
#[tactic(auto, unfolding(crate::specs::Lines::speaks_sip))]
fn speaks_sip(line: &[u8]) -> bool
    ensures { result ≡ speaks_sip line.now }
{
    begins_sip(line) || begins_sip(last_part(line))
}

/// The start line, without its CRLF: the first line behind the CR and LF in front. None where there is no CRLF, or
/// neither the line nor what stands behind its last SP begins with `SIP/`, in any case.
#[tactic(auto, unfolding(crate::specs::Lines::start_line))]
pub fn start_line(b: &[u8]) -> Option<Span>
    ensures value { result ≡ start_line b.now }
    ensures within { IfSome result (λ s. IsWithin b.now s) }
{
    let from = skipped(b);
    let to = first_crlf(b, from)?;
    if !speaks_sip(&b[from..to]) {
        return None;
    }
    Some(Span { from, to })
}
