//! The key by which a request finds its server transaction (RFC 3261, section 17.2.3): the branch, host and port of its
//! top Via, and its method.
//!
//! A `KeyView` shows a key in a message's own bytes. A `Key` keeps one, with the host in lower case. Two keys are one
//! where their hosts are equal without regard to case and their other parts byte by byte.
#![tactic(auto)]

mod key;

pub use key::{Key, KeyView};

#[cfg(test)]
mod tests;
