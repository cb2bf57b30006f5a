//! A `sip` URI as its parts (RFC 3261, section 19.1.1), and the URI in which one of them is replaced.
ghost use Rattle.std.specs.Prelude.{◌≡◌, ◌≤◌, ◌++◌, length, IfOk, OnOk, Some, option_map};
ghost use Rattle.std.specs.Option.{option_copied};
ghost use Rattle.sip_words.specs.Spans.{IsWithin};
ghost use Rattle.sip_fields.specs.Uri.{uri_at, IsUriBetween};
ghost use Rattle.pv_table.specs.UriParts.{bytes_at, port_end, parts_of, password_of, sip_parts, uri_text, uri_of, is_same, is_same_user, login_text, with_user, with_host, with_port};
ghost use Rattle.pv_table.specs.Slices.{parts_shown};

use numerals::push_number;
use pv_values::Text;
use sip_fields::{Scheme, Uri, read_uri};
use sip_words::{Class, Span, run_end, stands};
use std::alloc::{AllocError as NoMemory, Global};

/// The parts of a URI, as slices of its text.
#[derive(Clone, Copy)]
pub struct UriSlices<'a> {
    /// With its colon.
    pub scheme: &'a [u8],
    pub user: Option<&'a [u8]>,
    /// With its colon; empty where there is none.
    pub password: &'a [u8],
    pub host: &'a [u8],
    /// With its colon; empty where there is none.
    pub port: &'a [u8],
    /// Parameters and headers.
    pub rest: &'a [u8],
}

/// A span's bytes.
pub fn bytes_at(text: &[u8], at: Span) -> &[u8]
    requires { IsWithin text.now at }
    ensures { result.now ≡ bytes_at text.now at }
{
    &text[at.from..at.to]
}

/// Where the port ends that stands behind a host.
fn port_end(text: &[u8], from: usize) -> usize
    requires { from ≤ length text.now }
    ensures end { result ≡ port_end text.now from }
    ensures bounds { (from ≤ result) × (result ≤ length text.now) }
{
    if stands(text, from, b':') {
        run_end(text, from + 1, Class::Digit)
    } else {
        from
    }
}

/// Whether these are one user, or both are none.
fn is_same_user(a: Option<&[u8]>, b: Option<&[u8]>) -> bool
    ensures { result ≡ is_same_user (option_copied a.entry) (option_copied b.entry) }
{
    match (a, b) {
        (Some(a), Some(b)) => a == b,
        (None, None) => true,
        _ => false,
    }
}

impl<'a> UriSlices<'a> {
    /// The parts of a text that reads as this URI.
    #[tactic(auto, using(crate::proofs::UriPlaces::host_within, crate::proofs::UriPlaces::user_within, crate::proofs::UriPlaces::host_late, crate::proofs::UriPlaces::password_within))]
    fn of(text: &'a [u8], uri: &Uri) -> UriSlices<'a>
        requires reads { uri_at text.now 0 ≡ Some uri.now }
        requires between { IsUriBetween 0 (length text.now) uri.now }
        ensures { parts_shown result ≡ parts_of text.now uri.now }
    {
        let host_at = uri.host_at;
        let host = bytes_at(text, host_at);
        let end = port_end(text, host_at.to);
        let port = &text[host_at.to..end];
        let rest = &text[end..];
        match uri.user {
            Some(user) => {
                let behind = Span {
                    from: user.to,
                    to: host_at.from - 1,
                };
                UriSlices {
                    scheme: &text[..user.from],
                    user: Some(bytes_at(text, user)),
                    password: bytes_at(text, behind),
                    host,
                    port,
                    rest,
                }
            }
            None => UriSlices {
                scheme: &text[..host_at.from],
                user: None,
                password: b"",
                host,
                port,
                rest,
            },
        }
    }

    /// The parts of a text, where it reads as a `sip` URI.
    fn read(text: &'a [u8]) -> Option<UriSlices<'a>>
        ensures { option_map parts_shown result ≡ sip_parts text.now }
    {
        let whole = Span {
            from: 0,
            to: text.len(),
        };
        let Ok(uri) = read_uri(text, whole) else {
            return None;
        };
        match uri.scheme {
            Scheme::Sip => Some(UriSlices::of(text, &uri)),
            Scheme::Sips | Scheme::Other => None,
        }
    }

    /// Whether all parts are the same.
    fn is_same(&self, other: &UriSlices<'_>) -> bool
        ensures { result ≡ is_same (parts_shown self.now) (parts_shown other.now) }
    {
        self.scheme == other.scheme
            && is_same_user(self.user, other.user)
            && self.password == other.password
            && self.host == other.host
            && self.port == other.port
            && self.rest == other.rest
    }

    /// Writes the user, the password and the `@`, where there is a user.
    fn write_login(&self, text: &mut Vec<u8>) -> Result<(), NoMemory>
        ensures { OnOk result (text.new.items ≡ text.old.items ++ login_text (option_copied self.now.user) self.now.password.now) }
    {
        if let Some(user) = self.user {
            text.extend_from_slice(user)?;
            text.extend_from_slice(self.password)?;
            text.push(b'@')?;
        }
        Ok(())
    }

    /// The URI of these parts.
    fn to_text(&self, alloc: Global) -> Result<Vec<u8>, NoMemory>
        ensures { IfOk result (λ t. t.items ≡ uri_text (parts_shown self.now)) }
    {
        let mut text = Vec::from_slice(alloc, self.scheme)?;
        self.write_login(&mut text)?;
        text.extend_from_slice(self.host)?;
        text.extend_from_slice(self.port)?;
        text.extend_from_slice(self.rest)?;
        Ok(text)
    }

    /// The URI of these parts, where it reads as a `sip` URI of these parts.
    fn to_uri(&self, alloc: Global) -> Result<Option<Text>, NoMemory>
        ensures { IfOk result (λ t. t ≡ uri_of (parts_shown self.now)) }
    {
        let text = self.to_text(alloc)?;
        let is_read = match UriSlices::read(text.as_slice()) {
            Some(found) => self.is_same(&found),
            None => false,
        };
        if is_read {
            Ok(Some(Text::of(text)))
        } else {
            Ok(None)
        }
    }
}

/// A `sip` URI with another user, or without one and its password. None where the text isn't a `sip` URI, or where the
/// new one doesn't read as a URI of these parts.
pub fn with_user(alloc: Global, uri: &[u8], user: Option<&[u8]>) -> Result<Option<Text>, NoMemory>
    ensures { IfOk result (λ t. t ≡ with_user uri.now (option_copied user.entry)) }
{
    let Some(parts) = UriSlices::read(uri) else {
        return Ok(None);
    };
    match user {
        Some(_) => UriSlices { user, ..parts }.to_uri(alloc),
        None => UriSlices {
            user: None,
            password: b"",
            ..parts
        }
        .to_uri(alloc),
    }
}

/// The same with another host.
pub fn with_host(alloc: Global, uri: &[u8], host: &[u8]) -> Result<Option<Text>, NoMemory>
    ensures { IfOk result (λ t. t ≡ with_host uri.now host.now) }
{
    let Some(parts) = UriSlices::read(uri) else {
        return Ok(None);
    };
    UriSlices { host, ..parts }.to_uri(alloc)
}

/// The same with another port.
pub fn with_port(alloc: Global, uri: &[u8], port: u16) -> Result<Option<Text>, NoMemory>
    ensures { IfOk result (λ t. t ≡ with_port uri.now port) }
{
    let Some(parts) = UriSlices::read(uri) else {
        return Ok(None);
    };
    let mut text = vec![in alloc; b':']?;
    push_number(alloc, &mut text, u64::from(port))?;
    UriSlices {
        port: text.as_slice(),
        ..parts
    }
    .to_uri(alloc)
}
