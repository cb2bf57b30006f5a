//! The outside of the proxy, as traits: a port for datagrams, files by name, a console.
//!
//! Nothing below the engine knows a socket, a clock or a file. Whoever needs the outside takes one of
//! these traits, whose ghost members are the meanings that contracts speak of: what was got and sent,
//! what a name holds, what was printed, and how often each kind of fault came. Beside each trait stands
//! the object in memory that is exact: `MemPort`, `MemFiles` and `MemConsole`.
#![tactic(auto)]

mod bytes;
mod calls;
mod console;
mod feed;
mod files;
mod laws;
mod mem_console;
mod mem_files;
mod mem_port;
mod port;
#[cfg(test)]
mod tests;

pub use bytes::Bytes;
pub use console::{Console, PrintEnd};
pub use files::{FileFault, Files};
pub use laws::{
    a_call_of_recv_grows_the_lists, a_call_of_send_grows_the_lists, arrivals_are_got_in_order,
    closed_comes_when_all_were_got, each_call_has_one_end, the_clock_never_falls,
};
pub use mem_console::MemConsole;
pub use mem_files::MemFiles;
pub use mem_port::MemPort;
pub use port::{Addr, Arrival, Datagram, Port, PortCall, Recv, RecvCall, RecvEnd, SendEnd};
