//! What the proxy notes in the top Via value of a request that it got (RFC 3261, section 18.2.1; RFC 3581, section 4).
ghost use Rattle.std.specs.Prelude.{◌≡◌, map, [], ◌∷◌};
ghost use Rattle.msg_edits.specs.declared.parts.Edit.TheVariants as edit;
ghost use Rattle.msg_edits.specs.Change.{edit_of};
ghost use Rattle.sip_build.specs.Stamp.{without_received, with_port, is_source, wants_received, with_received, stamp};
ghost use Rattle.msg_edits.specs.Writing.{SameEdits};
ghost use Rattle.sip_build.specs.Writing.{edits_of_stamp};

use crate::addresses::{add_ip, add_number};
use arrayvec::ArrayString;
use msg_edits::Change;
use outside_ports::Addr;
use sip_fields::{Host, Rport, Via};
use sip_msg::Span;

/// The changes of a stamped request. What isn't needed is empty, and changes nothing.
#[derive(Clone, Copy)]
pub struct Stamp {
    /// The old parameter `received`, which is cut.
    received: Span,
    /// Behind the word `rport`: `=` and the source port.
    rport_end: usize,
    port: ArrayString<6>,
    /// At the end of the value: `;received=` and the source address.
    value_end: usize,
    address: ArrayString<25>,
}

impl Stamp {
    /// The stamp of a request that came from `from`, with this top Via value.
    #[tactic(auto, unfolding(crate::specs::Stamp::stamp))]
    pub fn of(via: &Via, from: Addr) -> Stamp
        ensures { SameEdits (edits_of_stamp result) (stamp via.now from) }
    {
        let (rport_end, port) = port_of(via.rport, from.port);
        Stamp {
            received: old_received(via.received),
            rport_end,
            port,
            value_end: via.whole.to,
            address: address_of(via, from.ip),
        }
    }

    /// The cut of the old parameter `received`.
    pub fn received(&self) -> Change<'_>
        ensures { edit_of result ≡ edit.Cut self.now.received }
    {
        Change::Cut(self.received)
    }

    /// The source port behind `rport`.
    pub fn port(&self) -> Change<'_>
        ensures { edit_of result ≡ edit.Insert self.now.rport_end self.now.port.bytes }
    {
        Change::Insert {
            place: self.rport_end,
            text: self.port.as_str().as_bytes(),
        }
    }

    /// The source address at the end of the value.
    pub fn address(&self) -> Change<'_>
        ensures { edit_of result ≡ edit.Insert self.now.value_end self.now.address.bytes }
    {
        Change::Insert {
            place: self.value_end,
            text: self.address.as_str().as_bytes(),
        }
    }

    /// All changes, in their order.
    pub fn changes(&self) -> [Change<'_>; 3]
        ensures { map edit_of result ≡ edits_of_stamp self.now }
    {
        [self.received(), self.port(), self.address()]
    }
}

/// The old parameter `received`, or an empty span.
fn old_received(received: Option<Span>) -> Span
    ensures { SameEdits (edit.Cut result ∷ []) (without_received received) }
{
    received.unwrap_or_default()
}

/// `=` and the source port, and where they go; nothing where rport has a value or is absent.
fn port_of(rport: Rport, port: u16) -> (usize, ArrayString<6>)
    ensures { SameEdits (edit.Insert result.0 result.1.bytes ∷ []) (with_port rport port) }
{
    let mut text = ArrayString::new();
    let Rport::Empty(word) = rport else {
        return (0, text);
    };
    text.push_str("=");
    add_number(&mut text, port);
    (word.to, text)
}

/// Whether the host is this address in numbers.
fn is_source(host: Host, ip: u32) -> bool
    ensures { result ≡ is_source host ip }
{
    match host {
        Host::V4(address) => address == ip,
        Host::Name => false,
    }
}

/// Whether rport stands without a value, or the host isn't the source address.
fn wants_received(via: &Via, ip: u32) -> bool
    ensures { result ≡ wants_received via.now ip }
{
    matches!(via.rport, Rport::Empty(_)) || !is_source(via.host, ip)
}

/// `;received=` and the source address, where it is wanted.
fn address_of(via: &Via, ip: u32) -> ArrayString<25>
    ensures { SameEdits (edit.Insert via.now.whole.to result.bytes ∷ []) (with_received via.now ip) }
{
    let mut text = ArrayString::new();
    if wants_received(via, ip) {
        text.push_str(";received=");
        add_ip(&mut text, ip);
    }
    text
}
