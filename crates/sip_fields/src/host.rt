//! Hosts and ports (RFC 3261, section 25.1; this profile has no IPv6).
ghost use Rattle.std.specs.Prelude.{◌≡◌, ◌≤◌, ◌<◌, length, IfSome};
ghost use Rattle.sip_fields.specs.Host.{host_of, host_at, port_at};

use sip_words::{Class, Surroundings, port_number_at, separator_at, v4_at, word_end};

/// What a host is: an IPv4 address, or a name, which isn't looked up.
#[derive(Clone, Copy, Debug, PartialEq, Eq)]
pub enum Host {
    /// Four numbers 0 to 255 of one to three digits, with dots; the first is the highest byte.
    V4(u32),
    Name,
}

/// What the bytes of a host are.
#[tactic(auto, unfolding(crate::specs::Host::host_of))]
fn host_of(name: &[u8]) -> Host
    ensures { result ≡ host_of name.now }
{
    match v4_at(name, 0) {
        Some((address, end)) if end == name.len() => Host::V4(address),
        _ => Host::Name,
    }
}

/// A host, and its end.
#[tactic(auto, unfolding(crate::specs::Host::host_at))]
pub fn host_at(text: &[u8], from: usize) -> Option<(Host, usize)>
    requires { from ≤ length text.now }
    ensures value { result ≡ host_at text.now from }
    ensures bounds { IfSome result (λ h. (from < h.1) × (h.1 ≤ length text.now)) }
{
    let end = word_end(text, from, Class::Name)?;
    Some((host_of(&text[from..end]), end))
}

/// The port behind a colon, 1 to 65535, where a colon stands; and the end. None where something else follows it.
#[tactic(auto, unfolding(crate::specs::Host::port_at))]
pub fn port_at(text: &[u8], from: usize, surroundings: Surroundings) -> Option<(Option<u16>, usize)>
    requires { from ≤ length text.now }
    ensures value { result ≡ port_at surroundings text.now from }
    ensures bounds { IfSome result (λ p. (from ≤ p.1) × (p.1 ≤ length text.now)) }
{
    let Some(colon) = separator_at(text, from, b':', surroundings) else {
        return Some((None, from));
    };
    let (port, end) = port_number_at(text, colon.end)?;
    Some((Some(port), end))
}
