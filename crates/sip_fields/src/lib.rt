//! The readers of SIP field values: URIs, and the values of Via, From, To, Route and CSeq.
//!
//! A reader takes the bytes of a datagram and the span of a field's value in them. It answers the first value
//! that stands there, each of its parts as a span of the datagram, or [`Bad`] where none does. It takes no memory.
//! What a value is, is the grammar of `specs/` (RFC 3261, section 25.1, in the profile of docs/FORMATS.md).
#![tactic(auto)]

mod cseq;
mod host;
mod name_addr;
mod tail;
#[cfg(test)]
mod tests;
mod uri;
mod via;

pub use cseq::{CSeq, read_cseq};
pub use host::Host;
pub use name_addr::{NameAddr, read_name_addr, read_route};
pub use sip_words::Span;
pub use tail::Bad;
pub use uri::{Scheme, Uri, is_absolute, read_uri};
pub use via::{Rport, Via, read_via};
