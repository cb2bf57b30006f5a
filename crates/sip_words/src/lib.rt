//! The words of SIP: what every reader of a message is made of (RFC 3261, section 25.1).
//!
//! A reader goes over a text, which is all the bytes up to the end of what is read, and a place in it. So each
//! span is a span of the datagram, and nothing is ever shifted. A reader of a word answers the end of the word,
//! or `None` where no such word stands at the place.
//!
//! - [`Class`] is a class of bytes; [`run_end`], [`word_end`] and [`is_all`] read runs of one.
//! - [`stands`] and [`byte_end`] look for one byte, [`word_at`] and [`same_word`] for a word in any case.
//! - [`lws_end`], [`gap_end`] and [`quoted_end`] go over white space and quoted strings.
//! - [`number_at`], [`v4_at`] and [`port_number_at`] read numbers, addresses and ports in decimal.
//! - [`separator_at`] reads a byte that parts two words, [`params_at`] the parameters behind semicolons.
//! - [`split_once`] cuts bytes at the first of a kind, and [`put`] writes a text piece by piece.
//!
//! Nothing here takes memory.
#![tactic(auto)]

mod addresses;
mod bytes;
mod numbers;
mod params;
mod room;
mod separators;
mod splits;
#[cfg(test)]
mod tests;
mod words;

pub use addresses::{port_number_at, v4_at};
pub use bytes::Class;
pub use numbers::number_at;
pub use params::{Param, Params, param_at, params_at};
pub use room::put;
pub use separators::{Separator, Surroundings, separator_at};
pub use splits::split_once;
pub use words::{
    byte_end, gap_end, is_all, lws_end, quoted_end, run_end, same_word, stands, word_at, word_end,
};

/// A part of some bytes: from the place of its first byte up to, and without, the place `to`.
#[derive(Clone, Copy, Debug, Default, PartialEq, Eq)]
pub struct Span {
    pub from: usize,
    pub to: usize,
}
