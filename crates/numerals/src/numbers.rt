//! Numbers and addresses in decimal, as scenarios, traces and messages write them.
ghost use Rattle.std.specs.Prelude.{◌≡◌, ◌^◌, ◌<◌, ◌++◌, ℕ, IfSome, IfNone, OnOk};
ghost use Rattle.std.specs.Fmt.{decimal};
ghost use Rattle.outside_ports.specs.declared.port.Addr.{Addr as Address};
ghost use Rattle.numerals.specs.Numerals.{begins_number, IsNumber, IsSocket, dotted, socket};

use outside_ports::Addr;
use sip_words::split_once;
use std::alloc::{AllocError as NoMemory, Global};
use std::net::Ipv4Addr;

/// Whether the word is `0`, or begins with a byte above `0`.
fn begins_number(word: &[u8]) -> bool
    ensures { result ≡ begins_number word.now }
{
    word == b"0".as_slice() || word.first().is_some_and(|b| *b > b'0')
}

/// The number that these digits write, without a sign or a leading zero.
pub fn number(word: &[u8]) -> Option<u64>
    ensures found { IfSome result (λ n. IsNumber word.now n) }
    ensures none { IfNone result ((n : ℕ) → IsNumber word.now n → ⊥) }
{
    if !begins_number(word) {
        return None;
    }
    let Ok(digits) = str::from_utf8(word) else {
        return None;
    };
    digits.parse::<u64>().ok()
}

/// Four numbers 0 to 255 with dots, the first one highest.
fn ip(word: &[u8]) -> Option<u32>
    ensures found { IfSome result (λ ip. word.now ≡ dotted ip) }
    ensures none { IfNone result ((ip : ℕ) → ip < 2 ^ 32 → word.now ≡ dotted ip → ⊥) }
{
    match Ipv4Addr::parse_ascii(word) {
        Ok(address) => Some(address.to_bits()),
        Err(_) => None,
    }
}

#[tactic(auto, using(crate::proofs::Digits::same_number))]
fn port(word: &[u8]) -> Option<u16>
    ensures found { IfSome result (λ port. (0 < port) × (word.now ≡ decimal port)) }
    ensures none { IfNone result ((port : ℕ) → 0 < port → port < 2 ^ 16 → word.now ≡ decimal port → ⊥) }
{
    match number(word) {
        Some(n) if 0 < n && n < 0x1_0000 => Some(n as u16),
        _ => None,
    }
}

/// An address `IP:PORT`, with a port from 1 on.
///
/// ```
/// address(b"192.0.2.1:5060"); // Some(Addr { ip: 0xc000_0201, port: 5060 })
/// address(b"192.0.2.01:5060"); // None, since a zero leads
/// address(b"192.0.2.1:0"); // None
/// ```
pub fn address(word: &[u8]) -> Option<Addr>
    ensures found { IfSome result (IsSocket word.now) }
    ensures none { IfNone result ((address : Address) → IsSocket word.now address → ⊥) }
{
    let (front, back) = split_once(word, b':')?;
    Some(Addr {
        ip: ip(front)?,
        port: port(back)?,
    })
}

/// Writes a number behind the text.
pub fn push_number(alloc: Global, text: &mut Vec<u8>, number: u64) -> Result<(), NoMemory>
    ensures { OnOk result (text.new.items ≡ text.old.items ++ decimal number) }
{
    text.extend_from_slice(format!(in alloc; "{number}")?.as_bytes())
}

/// Writes four numbers with dots behind the text.
pub fn push_ip(alloc: Global, text: &mut Vec<u8>, ip: u32) -> Result<(), NoMemory>
    ensures { OnOk result (text.new.items ≡ text.old.items ++ dotted ip) }
{
    let [a, b, c, d] = ip.to_be_bytes();
    text.extend_from_slice(format!(in alloc; "{a}.{b}.{c}.{d}")?.as_bytes())
}

/// Writes `IP:PORT` behind the text.
pub fn push_address(alloc: Global, text: &mut Vec<u8>, address: Addr) -> Result<(), NoMemory>
    ensures { OnOk result (text.new.items ≡ text.old.items ++ socket address) }
{
    push_ip(alloc, text, address.ip)?;
    text.push(b':')?;
    push_number(alloc, text, u64::from(address.port))
}
