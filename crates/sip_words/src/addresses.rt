//! IPv4 addresses and ports in decimal, at a place of a text (RFC 3261, section 25.1: IPv4address, port).
ghost use Rattle.std.specs.Prelude.{◌≡◌, ◌≤◌, ◌<◌, length, IfSome};
ghost use Rattle.sip_words.specs.Addresses.{octet_at, dot_end, v4_at, port_number_at};

use crate::numbers::number_at;
use crate::words::byte_end;

/// A number 0 to 255 of one to three digits, and its end.
#[tactic(auto, unfolding(crate::specs::Addresses::octet_at))]
fn octet_at(text: &[u8], from: usize) -> Option<(u8, usize)>
    requires { from ≤ length text.now }
    ensures value { result ≡ octet_at text.now from }
    ensures bounds { IfSome result (λ n. (from < n.1) × (n.1 ≤ length text.now)) }
{
    let (number, end) = number_at(text, from, 3)?;
    if number < 256 {
        Some((number as u8, end))
    } else {
        None
    }
}

/// The place behind a dot.
#[tactic(auto, unfolding(crate::specs::Addresses::dot_end, crate::specs::Words::byte_end))]
fn dot_end(text: &[u8], from: usize) -> Option<usize>
    ensures value { result ≡ dot_end text.now from }
    ensures bounds { IfSome result (λ end. (from < end) × (end ≤ length text.now)) }
{
    byte_end(text, from, b'.')
}

/// The address that four numbers with dots write, and its end.
#[tactic(auto, unfolding(crate::specs::Addresses::v4_at))]
pub fn v4_at(text: &[u8], from: usize) -> Option<(u32, usize)>
    requires { from ≤ length text.now }
    ensures value { result ≡ v4_at text.now from }
    ensures bounds { IfSome result (λ n. (from < n.1) × (n.1 ≤ length text.now)) }
{
    let (a, end) = octet_at(text, from)?;
    let (b, end) = octet_at(text, dot_end(text, end)?)?;
    let (c, end) = octet_at(text, dot_end(text, end)?)?;
    let (d, end) = octet_at(text, dot_end(text, end)?)?;
    Some((u32::from_be_bytes([a, b, c, d]), end))
}

/// The port, 1 to 65535, that one to five digits write, and its end.
#[tactic(auto, unfolding(crate::specs::Addresses::port_number_at))]
pub fn port_number_at(text: &[u8], from: usize) -> Option<(u16, usize)>
    requires { from ≤ length text.now }
    ensures value { result ≡ port_number_at text.now from }
    ensures bounds { IfSome result (λ n. (from < n.1) × (n.1 ≤ length text.now)) }
{
    let (number, end) = number_at(text, from, 5)?;
    if 0 < number && number < 65536 {
        Some((number as u16, end))
    } else {
        None
    }
}
