//! The top of the proxy: the commands of the program, over files and a console that are handed in.
//!
//! So far there are two. `check FILE` reads a routing script, and prints that it is accepted or where it is first
//! refused. `sim FILE SCENARIO` reads a routing script and a scenario of datagrams, and prints what the proxy does, which
//! keeps no transaction yet.
#![tactic(auto)]

mod accept;
mod command;
mod top;

pub use top::{report_no_memory, simulate};

#[cfg(test)]
mod tests;
