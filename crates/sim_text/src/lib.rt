//! The texts of the command `sim`: the scenario that it reads, and the trace that it prints.
//!
//! A scenario has lines, each with its LF: addresses of hosts (`host`), then the datagrams that arrive (`in`, `|text`,
//! `+hex`), then the moment of the end (`end`). [`read_scenario`] reads it, or tells the first line that is malformed.
//!
//! A trace has one item after another, [`TraceItem`], and a last line. [`push_out`], [`push_drop`], [`push_log`] and
//! [`push_fail`] each append the text of one item, [`push_end`] that of the last line; so whoever watches a run writes
//! its trace as it goes.
//!
//! ```
//! let scenario = read_scenario(alloc, b"in 5 192.0.2.1:5060\n|hello\n+0d0A\nend 7\n")?; // one datagram, `hello\r\n\r\n`
//! let mut trace = Vec::new(alloc);
//! for arrival in scenario.arrivals.iter() {
//!     push_drop(alloc, &mut trace, arrival.at, Cause::NotSip)?;
//! }
//! push_end(alloc, &mut trace, scenario.end, 0)?; // "drop 5 not_sip\nend 7 live 0\n"
//! ```
#![tactic(auto)]

mod datagram;
mod draft;
mod item;
mod line;
mod scenario;
#[cfg(test)]
mod tests;
mod trace;

pub use item::{Cause, TraceItem};
pub use scenario::{Scenario, ScenarioFault, read_scenario};
pub use trace::{push_drop, push_end, push_fail, push_log, push_out};
