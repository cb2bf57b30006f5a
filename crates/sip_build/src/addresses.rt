//! Addresses in decimal, and where a reply goes.
ghost use Rattle.std.specs.Prelude.{◌≡◌, ◌≤◌, ◌+◌, ◌++◌, ℕ, length};
ghost use Rattle.std.specs.Fmt.{decimal};
ghost use Rattle.arrayvec.specs.ArrayString.{array_string_len};
ghost use Rattle.numerals.specs.Numerals.{dotted};
ghost use Rattle.sip_build.specs.Addresses.{reply_address};

use arrayvec::ArrayString;
use itoa::Buffer;
use outside_ports::Addr;
use sip_fields::{Rport, Via};
use sip_msg::{Basis, Message};

/// The port of SIP, where a Via names none (RFC 3261, section 18.2.2).
const SIP_PORT: u16 = 5060;

/// Where a reply to the request `m` goes, which came from `from`: the source address, with the source port where
/// the top Via's rport stood without a value (RFC 3581, section 4), and else with the Via's port or 5060 (RFC 3261,
/// section 18.2.2).
pub fn reply_to(m: &Message, from: Addr) -> Addr
    ensures { result ≡ reply_address m.now.via from }
{
    address_behind(&m.via, from)
}

/// Where a response to the malformed request goes that has this basis and came from `from`: by its top Via value, as for
/// any other request.
pub fn basis_reply_to(basis: &Basis, from: Addr) -> Addr
    ensures { result ≡ reply_address basis.now.via from }
{
    address_behind(&basis.via, from)
}

/// Where a response goes by this Via value, to a request that came from `from`.
#[tactic(auto, unfolding(crate::specs::Addresses::reply_address))]
fn address_behind(via: &Via, from: Addr) -> Addr
    ensures { result ≡ reply_address via.now from }
{
    let port = match via.rport {
        Rport::Empty(_) => from.port,
        Rport::Given(_) | Rport::Absent => via.port.unwrap_or(SIP_PORT),
    };
    Addr { ip: from.ip, port }
}

/// Adds a number up to 65535 to a short text.
pub fn add_number<const N: usize>(text: &mut ArrayString<N>, number: u16)
    requires { array_string_len text.old + 5 ≤ N }
    ensures bytes { text.new.bytes ≡ text.old.bytes ++ decimal number }
    ensures len { array_string_len text.new ≤ array_string_len text.old + 5 }
{
    text.push_str(Buffer::new().format(number));
}

/// Adds a number up to 255 to a short text.
pub fn add_octet<const N: usize>(text: &mut ArrayString<N>, number: u8)
    requires { array_string_len text.old + 3 ≤ N }
    ensures bytes { text.new.bytes ≡ text.old.bytes ++ decimal number }
    ensures len { array_string_len text.new ≤ array_string_len text.old + 3 }
{
    text.push_str(Buffer::new().format(number));
}

/// Adds four numbers with dots between them to a short text.
pub fn add_ip<const N: usize>(text: &mut ArrayString<N>, ip: u32)
    requires { array_string_len text.old + 15 ≤ N }
    ensures bytes { text.new.bytes ≡ text.old.bytes ++ dotted ip }
    ensures len { array_string_len text.new ≤ array_string_len text.old + 15 }
{
    let [a, b, c, d] = ip.to_be_bytes();
    add_octet(text, a);
    text.push_str(".");
    add_octet(text, b);
    text.push_str(".");
    add_octet(text, c);
    text.push_str(".");
    add_octet(text, d);
}
