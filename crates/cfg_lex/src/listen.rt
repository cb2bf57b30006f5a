//! LISTEN: `udp:IP:PORT` after `listen=` (Kamailio core cookbook, "listen").

ghost use Rattle.std.specs.Prelude.{◌≡◌, ◌≤◌, ◌<◌, length, IfSome, IsTrue};
ghost use Rattle.cfg_lex.specs.Listens.{begins_udp, listen_address_at, listen_at};

use cfg_tree::Listen;
use sip_words::{byte_end, port_number_at, v4_at};

/// IP:PORT at `from`, and its end.
#[tactic(auto, unfolding(crate::specs::Listens::listen_address_at))]
fn listen_address_at(text: &[u8], from: usize) -> Option<(Listen, usize)>
    requires { from ≤ length text.now }
    ensures value { result ≡ listen_address_at text.now from }
    ensures bounds { IfSome result (λ n. (from < n.1) × (n.1 ≤ length text.now)) }
{
    let (ip, end) = v4_at(text, from)?;
    let (port, end) = port_number_at(text, byte_end(text, end, b':')?)?;
    Some((Listen { ip, port }, end))
}

/// Whether `udp:` stands at the beginning.
#[tactic(auto, unfolding(crate::specs::Listens::begins_udp))]
fn begins_udp(text: &[u8]) -> bool
    ensures value { result ≡ begins_udp text.now }
    ensures within { IsTrue result → 4 ≤ length text.now }
{
    text.len() >= 4 && &text[..4] == b"udp:".as_slice()
}

/// LISTEN at the beginning, `udp:IP:PORT`, and its length.
#[tactic(auto, unfolding(crate::specs::Listens::listen_at))]
pub fn listen_at(text: &[u8]) -> Option<(Listen, usize)>
    ensures value { result ≡ listen_at text.now }
    ensures bounds { IfSome result (λ n. (0 < n.1) × (n.1 ≤ length text.now)) }
{
    if !begins_udp(text) {
        return None;
    }
    listen_address_at(text, 4)
}
