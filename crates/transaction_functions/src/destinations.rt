//! Where a request is sent.
ghost use Rattle.std.specs.List.{find, list_any};
ghost use Rattle.std.specs.Prelude.{◌≡◌, ℕ, List, Option};
ghost use Rattle.std.specs.Option.{option_copied};
ghost use Rattle.host_meaning.specs.Run.{Received, Around, around};
ghost use Rattle.host_meaning.specs.Relaying.{is_unfit, is_host_named, host_address, address_of, target_address};

use host_meaning::{HostAddress, Hosts, Settings};
use message_functions::{DEFAULT_PORT, uri_in};
use outside_ports::Addr;
use pv_table::bytes_at;
use pv_values::Text;
use sip_fields::{Host, Scheme};
use sip_words::same_word;

/// Whether the uri of a start line can't have this byte: SP, DEL, or one below SP.
fn is_unfit(byte: u8) -> bool
    ensures { result ≡ is_unfit byte }
{
    byte <= b' ' || byte == 127
}

/// Whether the uri of a start line can't have one of these bytes.
fn has_unfit(text: &[u8]) -> bool
    ensures { result ≡ list_any is_unfit text.now }
{
    for byte in text {
        if is_unfit(*byte) {
            return true;
        }
    }
    false
}

/// The first host of this name, without regard to case.
fn host_named<'a>(hosts: &'a [HostAddress], name: &[u8]) -> Option<&'a HostAddress>
    ensures { option_copied result ≡ find (is_host_named name.now) hosts.now }
{
    for host in hosts {
        if same_word(name, host.name.bytes()) {
            return Some(host);
        }
    }
    None
}

/// The address of a host: in numbers, or by its name. The port is the URI's, else that of the name, else 5060.
fn host_address(hosts: &Hosts, name: &[u8], host: Host, port: Option<u16>) -> Option<Addr>
    ensures { result ≡ host_address hosts.now name.now host port }
{
    match host {
        Host::V4(ip) => Some(Addr {
            ip,
            port: port.unwrap_or(DEFAULT_PORT),
        }),
        Host::Name => {
            let known = host_named(hosts.as_slice(), name)?;
            Some(Addr {
                ip: known.address.ip,
                port: port.unwrap_or(known.address.port),
            })
        }
    }
}

/// Where a request with this URI is sent: to its host, which stands in numbers or among `hosts`, of which the first of a
/// name counts, without regard to case; at its port, else that of the name, else 5060. None where the text has SP, DEL or a
/// byte below SP, or is no URI, or its scheme isn't `sip`, or its host isn't known.
pub fn address_of(hosts: &Hosts, text: &[u8]) -> Option<Addr>
    ensures { result ≡ address_of hosts.now text.now }
{
    if has_unfit(text) {
        return None;
    }
    let uri = uri_in(text)?;
    match uri.scheme {
        Scheme::Sip => host_address(hosts, bytes_at(text, uri.host_at), uri.host, uri.port),
        Scheme::Sips | Scheme::Other => None,
    }
}

/// Where a target is sent: by its destination where it has one, else by its URI.
pub fn target_address(settings: &Settings, uri: &[u8], destination: &Option<Text>) -> Option<Addr>
    ensures { (a : Around) → a.settings ≡ settings.now → result ≡ target_address a (record { uri = uri.now; destination = destination.now }) }
{
    let settings = settings;
    match destination {
        Some(destination) => address_of(&settings.hosts, destination.bytes()),
        None => address_of(&settings.hosts, uri),
    }
}
