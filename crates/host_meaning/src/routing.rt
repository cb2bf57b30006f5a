//! A value of a Route field, as loose routing sees it.

use sip_words::Span;

/// A value of a Route field, by places in the message.
#[derive(Clone, Copy, Debug, PartialEq, Eq)]
pub struct RouteValue {
    /// Its URI.
    pub uri: Span,
    /// Where it begins.
    pub from: usize,
    /// What is cut with it where its field stays.
    pub alone: Span,
}
