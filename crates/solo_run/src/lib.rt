//! The solo run of a script over a scenario: one worker handles the datagrams in their order, each at the moment at which it
//! arrives, and keeps no transaction.
//!
//! Each request runs `request_route`, and each response is a stray one. The script's tables, its log and the way out always
//! answer. [`solo_trace`] writes what is seen of the run as it goes.
//!
//! ```
//! let scenario = read_scenario(alloc, b"in 5 192.0.2.1:5060\n|\nend 7\n")?;
//! solo_trace(alloc, &loaded, scenario)?; // "drop 5 keepalive\nend 7 live 0\n"
//! ```
#![tactic(auto)]

mod datagram;
mod objects;
mod request;
mod rooms;
mod run;

pub use run::solo_trace;
