//! Words: where what stands at a place ends.
ghost use Rattle.std.specs.Prelude.{◌≡◌, ◌≤◌, length, IfSome, IsTrue, ◌<◌, ◌+◌};
ghost use Rattle.std.specs.List.{list_all};
ghost use Rattle.std.specs.Str.{str_eq_ignore_ascii_case};
ghost use Rattle.sip_words.specs.Bytes.{has};
ghost use Rattle.sip_words.specs.Words.{run_end, word_end, blank_len, lws_end, gap_end, quoted_end, stands, byte_end, word_at};

use crate::bytes::Class;

/// Where the longest run of bytes of a class from `from` on ends.
#[tactic(auto, using(crate::proofs::Runs::run_stops, crate::proofs::Runs::run_goes, crate::proofs::Runs::run_all))]
pub fn run_end(text: &[u8], from: usize, class: Class) -> usize
    requires { from ≤ length text.now }
    ensures value { result ≡ run_end class text.now from }
    ensures low { from ≤ result }
    ensures high { result ≤ length text.now }
{
    for at in from..text.len() {
        if !class.has(text[at]) {
            return at;
        }
    }
    text.len()
}

/// The end of one or more bytes of a class.
pub fn word_end(text: &[u8], from: usize, class: Class) -> Option<usize>
    requires { from ≤ length text.now }
    ensures value { result ≡ word_end class text.now from }
    ensures bounds { IfSome result (λ end. (from < end) × (end ≤ length text.now)) }
{
    let end = run_end(text, from, class);
    (from < end).then_some(end)
}

/// Whether all of these bytes are of the class.
pub fn is_all(bytes: &[u8], class: Class) -> bool
    ensures { result ≡ list_all (has class) bytes.now }
{
    bytes.iter().all(|b| class.has(*b))
}

/// The length of the SP, HTAB or fold at the front, or 0.
#[tactic(auto, unfolding(crate::specs::Words::blank_len))]
fn blank_len(rest: &[u8]) -> usize
    ensures value { result ≡ blank_len rest.now }
    ensures high { result ≤ length rest.now }
{
    match rest {
        [b' ' | b'\t', ..] => 1,
        [b'\r', b'\n', b' ' | b'\t', ..] => 3,
        _ => 0,
    }
}

/// The end of the LWS at `from`, which may be none. LWS is SP, HTAB, and CRLF with one of these behind it.
#[tactic(auto, using(crate::proofs::Runs::lws_goes, crate::proofs::Runs::lws_stops))]
pub fn lws_end(text: &[u8], from: usize) -> usize
    requires { from ≤ length text.now }
    ensures value { result ≡ lws_end text.now from }
    ensures low { from ≤ result }
    ensures high { result ≤ length text.now }
{
    let mut end = from;
    loop {
        let blank = blank_len(&text[end..]);
        if blank == 0 {
            return end;
        }
        end += blank;
    }
}

/// The end of the LWS at `from`, where there is some.
#[tactic(auto, unfolding(crate::specs::Words::gap_end))]
pub fn gap_end(text: &[u8], from: usize) -> Option<usize>
    requires { from ≤ length text.now }
    ensures value { result ≡ gap_end text.now from }
    ensures bounds { IfSome result (λ end. (from < end) × (end ≤ length text.now)) }
{
    let end = lws_end(text, from);
    (from < end).then_some(end)
}

/// The end of a quoted string whose opening quote ends at `from`. A backslash stands for the byte behind it.
#[tactic(auto, using(crate::proofs::Runs::quote_closes, crate::proofs::Runs::quote_escapes, crate::proofs::Runs::quote_goes, crate::proofs::Runs::quote_none))]
pub fn quoted_end(text: &[u8], from: usize) -> Option<usize>
    requires { from ≤ length text.now }
    ensures value { result ≡ quoted_end text.now from }
    ensures bounds { IfSome result (λ end. (from < end) × (end ≤ length text.now)) }
{
    let mut at = from;
    while at < text.len() {
        if text[at] == b'"' {
            return Some(at + 1);
        }
        at += if text[at] == b'\\' { 2 } else { 1 };
    }
    None
}

/// Whether this byte stands at `at`.
#[tactic(auto, unfolding(crate::specs::Words::stands))]
pub fn stands(text: &[u8], at: usize, byte: u8) -> bool
    ensures value { result ≡ stands byte text.now at }
    ensures within { IsTrue result → at < length text.now }
{
    match text.get(at) {
        Some(found) => *found == byte,
        None => false,
    }
}

/// The place behind this byte, where it stands at `at`.
#[tactic(auto, unfolding(crate::specs::Words::byte_end))]
pub fn byte_end(text: &[u8], at: usize, byte: u8) -> Option<usize>
    ensures value { result ≡ byte_end byte text.now at }
    ensures bounds { IfSome result (λ end. (at < end) × (end ≤ length text.now)) }
{
    if stands(text, at, byte) {
        Some(at + 1)
    } else {
        None
    }
}

/// Whether these are one word, where case is ignored.
pub fn same_word(a: &[u8], b: &[u8]) -> bool
    ensures { result ≡ str_eq_ignore_ascii_case a.now b.now }
{
    a.eq_ignore_ascii_case(b)
}

/// The end of this word, whose case is ignored.
#[tactic(auto, unfolding(crate::specs::Words::word_at))]
pub fn word_at(text: &[u8], from: usize, word: &[u8]) -> Option<usize>
    requires place { from ≤ length text.now }
    ensures value { result ≡ word_at word.now text.now from }
    ensures bounds { IfSome result (λ end. (from ≤ end) × (end ≤ length text.now)) }
{
    let front = text[from..].get(..word.len())?;
    same_word(front, word).then_some(from + word.len())
}
