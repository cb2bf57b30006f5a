//! A line of a scenario by itself.

ghost use Rattle.std.specs.Prelude.{◌≡◌, ◌≢◌, ℕ, List, true, false, IfSome, IfNone};
ghost use Rattle.outside_ports.specs.declared.port.Addr.{Addr as Address};
ghost use Rattle.sim_text.specs.declared.line.Line.{Line as LineForm};
ghost use Rattle.sip_fields.specs.declared.host.Host.TheVariants as kind;
ghost use Rattle.sip_fields.specs.Host.{host_of};
ghost use Rattle.sip_fields.specs.Parts.{IsName};
ghost use Rattle.sim_text.specs.Scenario.{IsHostLine, IsLine};

use numerals::{address, number};
use outside_ports::Addr;
use sip_words::{Class, split_once, v4_at, word_end};

/// A line by itself. The lines `slots N`, `blocks N`, `failsend N` and `failrecv N` are malformed so far.
#[derive(Clone, Copy)]
pub enum Line<'a> {
    /// `host NAME IP:PORT`
    Host { name: &'a [u8], address: Addr },
    /// `in MS IP:PORT`
    In { at: u64, from: Addr },
    /// `|text`
    Text(&'a [u8]),
    /// `+hex`
    Hex(&'a [u8]),
    /// `end MS`
    End { at: u64 },
    /// An empty line, or one that begins with `#`.
    Skipped,
}

/// The line that these bytes are, without LF; none where they are malformed. What the digits of a line `+` say is
/// looked at where it is taken.
pub fn read_line(line: &[u8]) -> Option<Line<'_>>
    ensures found { IfSome result (IsLine line.now) }
    ensures none { IfNone result ((l : LineForm) → IsLine line.now l → ⊥) }
{
    match line {
        [] | [b'#', ..] => Some(Line::Skipped),
        [b'|', text @ ..] => Some(Line::Text(text)),
        [b'+', digits @ ..] => Some(Line::Hex(digits)),
        [b'h', ..] => read_host(line),
        [b'e', ..] => read_end(line),
        _ => read_in(line),
    }
}

/// The line `host NAME IP:PORT`.
fn read_host(line: &[u8]) -> Option<Line<'_>>
    ensures found { IfSome result (IsLine line.now) }
    ensures none { IfNone result ((name : List ℕ) (address : Address) → IsHostLine line.now name address → ⊥) }
{
    let (name, word) = split_once(line.strip_prefix(b"host ")?, b' ')?;
    if !is_host_name(name) {
        return None;
    }
    let address = address(word)?;
    Some(Line::Host { name, address })
}

/// Whether the bytes are the name of a host: letters, digits, `-`, `.` and `_`, and no four numbers with dots.
fn is_host_name(bytes: &[u8]) -> bool
    ensures yes { result ≡ true → IsName bytes.now }
    ensures no { result ≡ false → IsName bytes.now → ⊥ }
{
    match word_end(bytes, 0, Class::Name) {
        Some(end) => end == bytes.len() && !is_four_numbers(bytes),
        None => false,
    }
}

/// Whether the bytes are four numbers 0 to 255 with dots.
#[tactic(auto, unfolding(sip_fields::specs::Host::host_of))]
fn is_four_numbers(bytes: &[u8]) -> bool
    ensures yes { result ≡ true → host_of bytes.now ≢ kind.Name }
    ensures no { result ≡ false → host_of bytes.now ≡ kind.Name }
{
    match v4_at(bytes, 0) {
        Some((_, end)) => end == bytes.len(),
        None => false,
    }
}

/// The line `end MS`.
fn read_end(line: &[u8]) -> Option<Line<'_>>
    ensures found { IfSome result (IsLine line.now) }
    ensures none { IfNone result ((at : ℕ) → IsLine line.now (Line.End at) → ⊥) }
{
    let at = number(line.strip_prefix(b"end ")?)?;
    Some(Line::End { at })
}

/// The line `in MS IP:PORT`.
fn read_in(line: &[u8]) -> Option<Line<'_>>
    ensures found { IfSome result (IsLine line.now) }
    ensures none { IfNone result ((at : ℕ) (from : Address) → IsLine line.now (Line.In at from) → ⊥) }
{
    let (at, from) = split_once(line.strip_prefix(b"in ")?, b' ')?;
    Some(Line::In {
        at: number(at)?,
        from: address(from)?,
    })
}
