//! Numbers and addresses in decimal, without a sign or a leading zero: read where they are written so, and written.
//!
//! [`number`] and [`address`] read a whole word; [`push_number`], [`push_ip`] and [`push_address`] write behind a text.
//! What a message has of addresses may have leading zeros; `sip_words` reads that.
#![tactic(auto)]

mod numbers;
#[cfg(test)]
mod tests;

pub use numbers::{address, number, push_address, push_ip, push_number};
