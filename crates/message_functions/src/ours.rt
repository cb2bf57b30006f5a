//! Which URIs are this proxy's, and which are a loose router's.
ghost use Rattle.std.specs.Prelude.{◌≡◌, ℕ, List, IfSome, Option, length, ◌++◌, ◌||◌};
ghost use Rattle.std.specs.List.{list_any};
ghost use Rattle.std.specs.Str.{str_eq_ignore_ascii_case};
ghost use Rattle.sip_fields.specs.Uri.{uri_at, IsUriBetween};
ghost use Rattle.host_meaning.specs.Run.{Received, RunState, around};
ghost use Rattle.host_meaning.specs.Ours.{is_listening, is_alias, is_ours, is_loose, is_myself, is_own_host};

use cfg_tree::Parameters;
use host_meaning::Settings;
use outside_ports::Addr;
use pv_table::{BlockKind, Facts, bytes_at};
use pv_values::Text;
use sip_fields::{Host, Scheme, Uri, read_uri};
use sip_words::{Span, same_word};

/// The port of a URI without one.
pub const DEFAULT_PORT: u16 = 5060;

/// The URI that this text is.
pub fn uri_in(text: &[u8]) -> Option<Uri>
    ensures value { result ≡ uri_at text.now 0 }
    ensures between { IfSome result (IsUriBetween 0 (length text.now)) }
{
    let whole = Span {
        from: 0,
        to: text.len(),
    };
    match read_uri(text, whole) {
        Ok(uri) => Some(uri),
        Err(_) => None,
    }
}

/// Whether this is the address on which the proxy listens.
fn is_listening(listen: Addr, host: Host, port: u16) -> bool
    ensures { result ≡ is_listening listen host port }
{
    match host {
        Host::V4(ip) => ip == listen.ip && port == listen.port,
        Host::Name => false,
    }
}

/// Whether the host is an alias, without regard to case.
fn is_alias(aliases: &[Text], host: &[u8]) -> bool
    ensures { result ≡ is_alias aliases.now host.now }
{
    for alias in aliases {
        if same_word(host, alias.bytes()) {
            return true;
        }
    }
    false
}

/// Whether the text is a URI of this proxy.
pub fn is_ours(text: &[u8], settings: &Settings, parameters: &Parameters) -> bool
    ensures { (patterns : List (List ℕ)) (received : Option Received) → result ≡ is_ours (around parameters.now patterns settings.now received) text.now }
{
    let Some(uri) = uri_in(text) else {
        return false;
    };
    match uri.scheme {
        Scheme::Sip | Scheme::Sips => {
            is_listening(settings.listen, uri.host, uri.port.unwrap_or(DEFAULT_PORT))
                || is_alias(parameters.aliases.as_slice(), bytes_at(text, uri.host_at))
        }
        Scheme::Other => false,
    }
}

/// Whether the text is a URI with the parameter `lr`.
pub fn is_loose(text: &[u8]) -> bool
    ensures { result ≡ is_loose text.now }
{
    match uri_in(text) {
        Some(uri) => uri.lr,
        None => false,
    }
}

/// `uri == myself`: the target is a URI of this proxy. A reply block and an event block have no target.
pub fn is_myself(facts: &Facts, settings: &Settings, parameters: &Parameters) -> bool
    ensures { (patterns : List (List ℕ)) (received : Option Received) (blocks : ℕ) → result ≡ is_myself (around parameters.now patterns settings.now received) (record { facts = facts.now; blocks = blocks }) }
{
    match facts.kind {
        BlockKind::Request | BlockKind::Branch | BlockKind::Failure => {
            is_ours(facts.uri.bytes(), settings, parameters)
        }
        BlockKind::Reply | BlockKind::Event => false,
    }
}
