//! What the proxy sends reads (RFC 3261, sections 8.2.6, 9.1, 16.6, 16.7 and 17.1.1.3): laws of the texts of `sip_build`.
//!
//! - [`laws`] says of each of them that it reads, and as what.
//!
//! `proofs/Reading.antt` has the lemma from which they follow: a text that is a start line, fields and a body reads, where
//! its fields read. There is no code.
#![tactic(auto)]

pub mod laws;
#[cfg(test)]
mod tests;
