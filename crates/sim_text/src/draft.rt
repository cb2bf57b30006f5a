//! What was read of a scenario so far, line by line.

ghost use Rattle.std.specs.Prelude.{◌≡◌, ◌++◌, ◌∷◌, [], None, OnOk, Err};
ghost use Rattle.sim_text.specs.Scenario.{State, GoesOn, Takes, last_moment, nothing_read};
ghost use Rattle.sim_text.specs.Draft.{IsDraft, so_far};

use crate::line::Line;
use hex::FromHexError;
use host_meaning::HostAddress;
use outside_ports::{Addr, Arrival, Bytes};
use pv_values::Text;
use std::alloc::{AllocError as NoMemory, Global};

/// The longest datagram, in bytes: what UDP over IPv4 carries.
const LONGEST_DATAGRAM: usize = 65_507;

/// The last moment at which a scenario may end, in milliseconds.
const LAST_END: u64 = 86_400_000;

/// A datagram whose lines are still read.
#[derive(Drop)]
pub struct Pending {
    pub at: u64,
    pub from: Addr,
    pub bytes: Vec<u8>,
}

/// What was read so far. Once there is an arrival and no end, one datagram is pending. After an error the draft is
/// given up.
#[derive(Drop)]
pub struct Draft {
    pub hosts: Vec<HostAddress>,
    pub arrivals: Vec<Arrival>,
    pub pending: Option<Pending>,
    pub end: Option<u64>,
}

/// Why a line is not taken.
pub enum LineFault {
    Malformed,
    NoMemory,
}

impl From<NoMemory> for LineFault {
    ghost use Rattle.std.specs.Prelude.{◌≡◌};
    ghost use Rattle.sim_text.specs.declared.draft.LineFault.{LineFault};

    ghost from_gives = { λ _ e. e ≡ LineFault.NoMemory };

    fn from(_: NoMemory) -> LineFault {
        LineFault::NoMemory
    }
}

impl Draft {
    pub fn new(alloc: Global) -> Draft
        ensures state { so_far result ≡ nothing_read }
        ensures draft { IsDraft result }
    {
        Draft {
            hosts: Vec::new(alloc),
            arrivals: Vec::new(alloc),
            pending: None,
            end: None,
        }
    }

    /// Takes one more line.
    pub fn take(&mut self, alloc: Global, line: Line<'_>) -> Result<(), LineFault>
        requires draft { IsDraft self.old }
        ensures taken { OnOk result (Takes (so_far self.old) line.entry (so_far self.new)) }
        ensures draft { OnOk result (IsDraft self.new) }
        ensures malformed { result ≡ Err LineFault.Malformed → (new : State) → Takes (so_far self.old) line.entry new → ⊥ }
    {
        match line {
            Line::Skipped => Ok(()),
            Line::Host { name, address } => self.name_host(alloc, name, address),
            Line::In { at, from } => self.begin(alloc, at, from),
            Line::Text(text) => self.extend(text, b"\r\n"),
            Line::Hex(digits) => self.extend_by_hex(alloc, digits),
            Line::End { at } => self.finish(at),
        }
    }

    /// Adds the address of a host, before the first datagram.
    fn name_host(&mut self, alloc: Global, name: &[u8], address: Addr) -> Result<(), LineFault>
        requires draft { IsDraft self.old }
        ensures taken { OnOk result (Takes (so_far self.old) (Line.Host name.entry address) (so_far self.new)) }
        ensures draft { OnOk result (IsDraft self.new) }
        ensures malformed { result ≡ Err LineFault.Malformed → (new : State) → Takes (so_far self.old) (Line.Host name.entry address) new → ⊥ }
    {
        if self.pending.is_some() || self.end.is_some() {
            return Err(LineFault::Malformed);
        }
        self.add_host(alloc, name, address)?;
        Ok(())
    }

    fn add_host(&mut self, alloc: Global, name: &[u8], address: Addr) -> Result<(), NoMemory>
        ensures hosts { OnOk result (self.new.hosts.items ≡ self.old.hosts.items ++ record { name = name.now; address = address } ∷ []) }
        ensures same { self.new ≡ record self.old { hosts = self.new.hosts } }
    {
        let name = Text::from_slice(alloc, name)?;
        self.hosts.push(HostAddress { name, address })?;
        Ok(())
    }

    /// The moment of the last arrival, 0 without one.
    #[tactic(auto, using(crate::proofs::Drafts::last_moment_push))]
    fn last_moment(&self) -> u64
        requires { IsDraft self.now }
        ensures { self.now.end ≡ None → result ≡ last_moment (so_far self.now).arrivals }
    {
        match &self.pending {
            Some(pending) => pending.at,
            None => 0,
        }
    }

    /// Ends the pending datagram.
    fn close(&mut self) -> Result<(), NoMemory>
        ensures hosts { OnOk result (self.new.hosts ≡ self.old.hosts) }
        ensures arrivals { OnOk result (self.new.arrivals.items ≡ (so_far self.old).arrivals) }
        ensures pending { OnOk result (self.new.pending ≡ None) }
        ensures end { OnOk result (self.new.end ≡ self.old.end) }
    {
        if let Some(pending) = self.pending.take() {
            let arrival = Arrival {
                at: pending.at,
                from: pending.from,
                bytes: Bytes::of(pending.bytes),
            };
            self.arrivals.push(arrival)?;
        }
        Ok(())
    }

    /// Begins a datagram, not before the one before it.
    fn begin(&mut self, alloc: Global, at: u64, from: Addr) -> Result<(), LineFault>
        requires draft { IsDraft self.old }
        ensures taken { OnOk result (Takes (so_far self.old) (Line.In at from) (so_far self.new)) }
        ensures draft { OnOk result (IsDraft self.new) }
        ensures malformed { result ≡ Err LineFault.Malformed → (new : State) → Takes (so_far self.old) (Line.In at from) new → ⊥ }
    {
        if self.end.is_some() || at < self.last_moment() {
            return Err(LineFault::Malformed);
        }
        self.close()?;
        let bytes = Vec::new(alloc);
        self.pending = Some(Pending { at, from, bytes });
        Ok(())
    }

    /// Adds these bytes, one part after the other, to the pending datagram.
    fn extend(&mut self, front: &[u8], back: &[u8]) -> Result<(), LineFault>
        requires draft { IsDraft self.old }
        ensures taken { OnOk result (GoesOn (so_far self.old) (front.now ++ back.now) (so_far self.new)) }
        ensures draft { OnOk result (IsDraft self.new) }
        ensures malformed { result ≡ Err LineFault.Malformed → (new : State) → GoesOn (so_far self.old) (front.now ++ back.now) new → ⊥ }
    {
        let Some(mut pending) = self.pending.take() else {
            return Err(LineFault::Malformed);
        };
        let len = pending.bytes.len().saturating_add(front.len());
        if LONGEST_DATAGRAM < len.saturating_add(back.len()) {
            return Err(LineFault::Malformed);
        }
        pending.bytes.extend_from_slice(front)?;
        pending.bytes.extend_from_slice(back)?;
        self.pending = Some(pending);
        Ok(())
    }

    /// Adds the bytes that pairs of hexadecimal digits write to the pending datagram.
    fn extend_by_hex(&mut self, alloc: Global, digits: &[u8]) -> Result<(), LineFault>
        requires draft { IsDraft self.old }
        ensures taken { OnOk result (Takes (so_far self.old) (Line.Hex digits.entry) (so_far self.new)) }
        ensures draft { OnOk result (IsDraft self.new) }
        ensures malformed { result ≡ Err LineFault.Malformed → (new : State) → Takes (so_far self.old) (Line.Hex digits.entry) new → ⊥ }
    {
        match hex::decode(alloc, digits) {
            Ok(bytes) => self.extend(bytes.as_slice(), &[]),
            Err(FromHexError::OutOfMemory) => Err(LineFault::NoMemory),
            Err(_) => Err(LineFault::Malformed),
        }
    }

    /// Ends the scenario, not before its last datagram.
    fn finish(&mut self, at: u64) -> Result<(), LineFault>
        requires draft { IsDraft self.old }
        ensures taken { OnOk result (Takes (so_far self.old) (Line.End at) (so_far self.new)) }
        ensures draft { OnOk result (IsDraft self.new) }
        ensures malformed { result ≡ Err LineFault.Malformed → (new : State) → Takes (so_far self.old) (Line.End at) new → ⊥ }
    {
        if self.end.is_some() || at < self.last_moment() || LAST_END < at {
            return Err(LineFault::Malformed);
        }
        self.close()?;
        self.end = Some(at);
        Ok(())
    }
}
