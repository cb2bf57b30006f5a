//! What a proxy is started with.

use outside_ports::Addr;
use pv_values::Text;
use std::marker::Model;

/// The address of a host by its name.
#[derive(Debug, Drop)]
pub struct HostAddress {
    pub name: Text,
    pub address: Addr,
}

/// The addresses of hosts that aren't numeric, of each name the first. Contracts see them as that list.
#[derive(Debug, Drop)]
pub struct Hosts {
    list: Vec<HostAddress>,
}

impl Model for Hosts {
    ghost use Rattle.std.specs.Prelude.{List};
    ghost use Rattle.host_meaning.specs.declared.settings.HostAddress.{HostAddress};

    ghost Value = { List HostAddress };

    ghost view = { λ h. h.list.items };
}

impl Hosts {
    ghost use Rattle.std.specs.Prelude.{◌≡◌};

    /// The addresses of these hosts.
    pub fn of(list: Vec<HostAddress>) -> Hosts
        ensures { result ≡ list.items }
    {
        Hosts { list }
    }

    pub fn as_slice(&self) -> &[HostAddress]
        ensures { result.now ≡ self.now }
    {
        self.list.as_slice()
    }
}

/// What a proxy is started with.
#[derive(Debug, Drop)]
pub struct Settings {
    /// The address on which it listens.
    pub listen: Addr,
    /// A number of this start, which its branches carry.
    pub epoch: u32,
    /// How many transactions it can have at once.
    pub slots: u32,
    /// How many blocks its pool has.
    pub blocks: u32,
    pub hosts: Hosts,
    /// How long it runs, in milliseconds; without it, until it is ended.
    pub run_for: Option<u64>,
}
