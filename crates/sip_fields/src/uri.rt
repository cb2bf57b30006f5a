//! URIs (RFC 3261, sections 19.1.1 and 25.1).
ghost use Rattle.std.specs.Prelude.{◌≡◌, ◌≤◌, ◌<◌, ◌≢◌, length, take, IfSome, IfOk, Ok, IsTrue};
ghost use Rattle.sip_words.specs.Spans.{IsBetween};
ghost use Rattle.sip_fields.specs.Tail.{or_bad};
ghost use Rattle.sip_fields.specs.Uri.{scheme_end, is_absolute, scheme_of, other_at, password_end, user_at, login_at, sip_at, uri_at, IsUriBetween};
ghost use Rattle.sip_fields.specs.declared.uri.Scheme.TheVariants.{Other};
ghost use Rattle.sip_fields.specs.UriGrammar.{IsUriAt};

use crate::host::{Host, host_at, port_at};
use crate::tail::Bad;
use sip_words::{
    Class, Span, Surroundings, params_at, run_end, same_word, separator_at, stands, word_end,
};

/// The scheme of a URI, whose case is ignored.
#[derive(Clone, Copy, Debug, PartialEq, Eq)]
pub enum Scheme {
    Sip,
    Sips,
    Other,
}

/// A URI. Of one with another scheme than `sip` and `sips` nothing else is read: it has no user, port or `lr`, and
/// its host is a name without a byte behind the scheme's colon.
#[derive(Clone, Copy, Debug, PartialEq, Eq)]
pub struct Uri {
    pub scheme: Scheme,
    /// The bytes before the first `@`, up to a colon, where an `@` stands.
    pub user: Option<Span>,
    pub host: Host,
    pub host_at: Span,
    pub port: Option<u16>,
    /// Whether there is a parameter `lr`.
    pub lr: bool,
}

/// The place of the colon behind a scheme: a letter, then letters, digits, `+`, `-` and `.`.
#[tactic(auto, unfolding(crate::specs::Uri::scheme_end))]
fn scheme_end(text: &[u8], from: usize) -> Option<usize>
    requires { from ≤ length text.now }
    ensures value { result ≡ scheme_end text.now from }
    ensures bounds { IfSome result (λ colon. (from ≤ colon) × (colon < length text.now)) }
{
    word_end(text, from, Class::Letter)?;
    let colon = run_end(text, from, Class::Scheme);
    stands(text, colon, b':').then_some(colon)
}

/// Whether these bytes are a scheme, a colon and one more byte at least.
#[tactic(auto, unfolding(crate::specs::Uri::is_absolute))]
pub fn is_absolute(uri: &[u8]) -> bool
    ensures { result ≡ is_absolute uri.now }
{
    match scheme_end(uri, 0) {
        Some(colon) => colon + 1 < uri.len(),
        None => false,
    }
}

fn scheme_of(word: &[u8]) -> Scheme
    ensures { result ≡ scheme_of word.now }
{
    if same_word(word, b"sip") {
        Scheme::Sip
    } else if same_word(word, b"sips") {
        Scheme::Sips
    } else {
        Scheme::Other
    }
}

/// The end of the password, where a colon stands.
#[tactic(auto, unfolding(crate::specs::Uri::password_end))]
fn password_end(text: &[u8], from: usize) -> usize
    requires { from ≤ length text.now }
    ensures value { result ≡ password_end text.now from }
    ensures bounds { (from ≤ result) × (result ≤ length text.now) }
{
    if stands(text, from, b':') {
        run_end(text, from + 1, Class::Password)
    } else {
        from
    }
}

/// The user, and the place behind the `@`.
#[tactic(auto, unfolding(crate::specs::Uri::user_at))]
fn user_at(text: &[u8], from: usize) -> Option<(Option<Span>, usize)>
    requires { from ≤ length text.now }
    ensures value { result ≡ user_at text.now from }
    ensures bounds { IfSome result (λ u. (from ≤ u.1) × (u.1 ≤ length text.now)) }
    ensures between { IfSome result (λ u. IfSome u.0 (IsBetween from (length text.now))) }
{
    let end = word_end(text, from, Class::User)?;
    let at = password_end(text, end);
    if stands(text, at, b'@') {
        Some((Some(Span { from, to: end }), at + 1))
    } else {
        None
    }
}

/// The user, where an `@` comes, and the place of the host.
#[tactic(auto, unfolding(crate::specs::Uri::login_at))]
fn login_at(text: &[u8], from: usize) -> Option<(Option<Span>, usize)>
    requires { from ≤ length text.now }
    ensures value { result ≡ login_at text.now from }
    ensures bounds { IfSome result (λ u. (from ≤ u.1) × (u.1 ≤ length text.now)) }
    ensures between { IfSome result (λ u. IfSome u.0 (IsBetween from (length text.now))) }
{
    if stands(text, run_end(text, from, Class::BeforeAt), b'@') {
        user_at(text, from)
    } else {
        Some((None, from))
    }
}

/// What stands behind the colon of `sip:` or `sips:`.
#[tactic(auto, unfolding(crate::specs::Uri::sip_at))]
fn sip_at(text: &[u8], from: usize, scheme: Scheme) -> Option<Uri>
    requires { from ≤ length text.now }
    ensures value { result ≡ sip_at scheme text.now from }
    ensures between { IfSome result (IsUriBetween from (length text.now)) }
{
    let (user, host_from) = login_at(text, from)?;
    let (host, host_end) = host_at(text, host_from)?;
    let (port, port_end) = port_at(text, host_end, Surroundings::Uri)?;
    let params = params_at(text, port_end, Surroundings::Uri)?;
    if params.end != text.len() && !stands(text, params.end, b'?') {
        return None;
    }
    Some(Uri {
        scheme,
        user,
        host,
        host_at: Span {
            from: host_from,
            to: host_end,
        },
        port,
        lr: params.lr.is_some(),
    })
}

/// What stands behind the colon of another scheme.
#[tactic(auto, unfolding(crate::specs::Uri::other_at))]
fn other_at(text: &[u8], from: usize) -> Option<Uri>
    requires { from ≤ length text.now }
    ensures value { result ≡ other_at text.now from }
    ensures between { IfSome result (IsUriBetween from (length text.now)) }
{
    if from == text.len() {
        return None;
    }
    Some(Uri {
        scheme: Scheme::Other,
        user: None,
        host: Host::Name,
        host_at: Span { from, to: from },
        port: None,
        lr: false,
    })
}

/// The URI from `from` to the end of the text.
#[tactic(auto, unfolding(crate::specs::Uri::uri_at))]
pub fn uri_at(text: &[u8], from: usize) -> Option<Uri>
    requires { from ≤ length text.now }
    ensures value { result ≡ uri_at text.now from }
    ensures between { IfSome result (IsUriBetween from (length text.now)) }
{
    let colon = scheme_end(text, from)?;
    match scheme_of(&text[from..colon]) {
        Scheme::Other => other_at(text, colon + 1),
        scheme => sip_at(text, colon + 1, scheme),
    }
}

/// The URI that these bytes are.
pub fn read_uri(b: &[u8], at: Span) -> Result<Uri, Bad>
    requires order { at.from ≤ at.to }
    requires within { at.to ≤ length b.now }
    // What is read is spelled by the grammar, each span being the place of its part.
    ensures found { IfOk result (IsUriAt (take at.to b.now) at.from) }
    // What the grammar spells is read, and nothing else can be.
    ensures only { (v : Uri) → IsUriAt (take at.to b.now) at.from v → result ≡ Ok v }
    // The same as a function.
    ensures exact { result ≡ or_bad (uri_at (take at.to b.now) at.from) }
    // Each span lies in this part of the bytes.
    ensures between { IfOk result (IsUriBetween at.from at.to) }
{
    uri_at(&b[..at.to], at.from).ok_or(Bad)
}
