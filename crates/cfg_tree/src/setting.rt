//! What a script sets for the whole proxy.

use pv_values::Text;
use sqlite_items::Items;

/// An address and a port to listen on.
#[derive(Clone, Copy, Debug, PartialEq, Eq)]
pub struct Listen {
    pub ip: u32,
    pub port: u16,
}

/// The parameters of a script.
#[derive(Debug, Drop)]
pub struct Parameters {
    /// `listen=udp:IP:PORT`
    pub listen: Option<Listen>,
    /// `alias="HOST"`: hosts that are this proxy's.
    pub aliases: Items<Text>,
    /// How many rounds a `while` may make, 1 to 1,000.
    pub max_while_loops: u32,
    /// How deep calls of routes may be nested, 1 to 1,000.
    pub max_recursive_level: u32,
    /// How long a request waits for a final answer, in milliseconds.
    pub fr_timer: u32,
    /// How long an INVITE does after a provisional one, in milliseconds.
    pub fr_inv_timer: u32,
}
