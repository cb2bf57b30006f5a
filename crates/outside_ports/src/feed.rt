//! The workings of a port in memory: its arrivals and its calls, one call after another.
ghost use Rattle.std.specs.Prelude.{◌≡◌, ◌≤◌, length, All, IsTrue, IsNone, ◌↔◌};

use crate::bytes::Bytes;
use crate::calls::Calls;
use crate::port::{Addr, Arrival, Datagram, Recv, SendEnd};
use std::marker::Model;

/// How a call of `recv` ended, as the port keeps it: the place of the arrival that was got.
#[derive(Clone, Copy, Debug)]
pub(crate) enum KeptEnd {
    Got(usize),
    Idle,
    Closed,
    Failed,
}

/// A call, as the port keeps it.
#[derive(Debug, Drop)]
pub(crate) enum KeptCall {
    Send(Datagram, SendEnd),
    Recv {
        until: u64,
        end: KeptEnd,
        clock: u64,
    },
}

/// The arrivals, those of them that are left, and all that a port in memory counts and keeps.
#[derive(Debug, Drop)]
pub(crate) struct Feed {
    arrivals: Vec<Arrival>,
    next: usize,
    end: u64,
    clock: u64,
    recvs: Calls,
    sends: Calls,
    receive_faults: u64,
    send_faults: u64,
    idle_turns: u64,
    ends: u64,
    calls: Vec<KeptCall>,
    out_of_memory: bool,
}

impl Model for Feed {
    ghost use Rattle.std.specs.Prelude.{◌≤◌, drop, length, All};
    ghost use Rattle.outside_ports.specs.MemPort.{PortState, told_calls, IsShort};

    ghost Value = { PortState };

    ghost view = { λ p. record {
      plan = record { arrivals = p.arrivals.items; end = p.end; fail_recv = p.recvs.fail; fail_send = p.sends.fail };
      left = drop p.next p.arrivals.items;
      end = p.end;
      clock = p.clock;
      recvs = p.recvs;
      sends = p.sends;
      counts = record {
        receive_faults = p.receive_faults;
        send_faults = p.send_faults;
        idle_turns = p.idle_turns;
        ends = p.ends;
      };
      calls = told_calls p.out_of_memory p.arrivals.items p.calls.items;
    } };

    ghost invariant = { λ p. (p.next ≤ length p.arrivals.items) × All IsShort p.arrivals.items };
}

impl Feed {
    ghost use Rattle.std.specs.Prelude.{IsSome};
    ghost use Rattle.std.specs.Bool.{OnTrue, OnFalse};
    ghost use Rattle.outside_ports.specs.Port.{NeverFall, send_call};
    ghost use Rattle.outside_ports.specs.MemPort.{new_port, IsShort, next_moment, recorded, told_end, with_call, unrecorded_recv, unrecorded_send, TakesNext, EndsAt, ReceivesBy, SendsBy};

    pub(crate) fn new(
        arrivals: Vec<Arrival>,
        end: u64,
        fail_recv: Vec<u64>,
        fail_send: Vec<u64>,
    ) -> Feed
        requires short { All IsShort arrivals.items }
        ensures { result ≡ new_port arrivals.items end fail_recv.items fail_send.items }
    {
        let alloc = *fail_recv.allocator();
        Feed {
            arrivals,
            next: 0,
            end,
            clock: 0,
            recvs: Calls::new(fail_recv),
            sends: Calls::new(fail_send),
            receive_faults: 0,
            send_faults: 0,
            idle_turns: 0,
            ends: 0,
            calls: Vec::new(alloc),
            out_of_memory: false,
        }
    }

    pub(crate) fn out_of_memory(&self) -> bool
        ensures { IsTrue result ↔ IsNone self.now.calls }
    {
        self.out_of_memory
    }

    pub(crate) fn clock(&self) -> u64
        ensures { result ≡ self.now.clock }
    {
        self.clock
    }

    /// The moment of the next arrival, or the end where none is left.
    fn next_moment(&self) -> u64
        ensures { result ≡ next_moment self.now.left self.now.end }
    {
        match self.arrivals.get(self.next) {
            Some(arrival) => arrival.at,
            None => self.end,
        }
    }

    /// Records a call of `recv` and moves the clock. False says that the record found no memory.
    fn record(&mut self, until: u64, end: KeptEnd, clock: u64) -> bool
        ensures found { OnTrue result (self.new ≡ recorded self.old until (told_end self.old.plan.arrivals end) clock) }
        ensures untold { OnFalse result (IsSome self.old.calls) }
        ensures unrecorded { OnFalse result (self.new ≡ unrecorded_recv self.old) }
    {
        if !self.out_of_memory {
            let call = KeptCall::Recv { until, end, clock };
            if self.calls.push(call).is_err() {
                self.out_of_memory = true;
                self.receive_faults = self.receive_faults.saturating_add(1);
                return false;
            }
        }
        self.clock = clock;
        true
    }

    /// Records a call of `send`. False says that the record found no memory.
    fn record_send(&mut self, to: Addr, bytes: &[u8], end: SendEnd) -> bool
        ensures found { OnTrue result (self.new ≡ with_call self.old (send_call to bytes.now end)) }
        ensures untold { OnFalse result (IsSome self.old.calls) }
        ensures unrecorded { OnFalse result (self.new ≡ unrecorded_send self.old) }
    {
        if self.out_of_memory {
            return true;
        }
        let alloc = *self.calls.allocator();
        if let Ok(copy) = Vec::from_slice(alloc, bytes) {
            let datagram = Datagram {
                addr: to,
                bytes: Bytes::of(copy),
            };
            if self.calls.push(KeptCall::Send(datagram, end)).is_ok() {
                return true;
            }
        }
        self.out_of_memory = true;
        self.send_faults = self.send_faults.saturating_add(1);
        false
    }

    /// Takes the next arrival, whose bytes go to the front of the buffer.
    fn take_arrival(&mut self, buf: &mut [u8]) -> Option<(usize, Addr)>
        requires { 65536 ≤ length buf.old }
        ensures { TakesNext self.old buf.old result buf.new self.new }
    {
        let Some(arrival) = self.arrivals.get(self.next) else {
            return None;
        };
        let bytes = arrival.bytes.as_slice();
        let len = bytes.len();
        buf[..len].copy_from_slice(bytes);
        let from = arrival.from;
        self.next += 1;
        Some((len, from))
    }

    /// How a call of `recv` ends that waits up to this moment and isn't listed, where the next arrival or the end is at `next`.
    fn end_at(&self, moment: u64, next: u64) -> KeptEnd
        requires { next ≡ next_moment self.now.left self.now.end }
        ensures { EndsAt self.now moment (told_end self.now.plan.arrivals result) }
    {
        if moment < next {
            KeptEnd::Idle
        } else if self.next < self.arrivals.len() {
            KeptEnd::Got(self.next)
        } else {
            KeptEnd::Closed
        }
    }

    pub(crate) fn recv(&mut self, buf: &mut [u8], until: u64) -> Recv
        requires { 65536 ≤ length buf.old }
        ensures exact { ReceivesBy self.old until buf.old result buf.new self.new }
        ensures never_fall { NeverFall self.old.counts self.new.counts }
    {
        let fails = self.recvs.next_fails();
        let moment = self.clock.max(until);
        let next = self.next_moment();
        if fails {
            if self.record(until, KeptEnd::Failed, self.clock) {
                self.receive_faults = self.receive_faults.saturating_add(1);
            }
            return Recv::Failed;
        }
        let end = self.end_at(moment, next);
        if !self.record(until, end, moment.min(next)) {
            return Recv::Failed;
        }
        if moment < next {
            self.idle_turns = self.idle_turns.saturating_add(1);
            return Recv::Idle;
        }
        match self.take_arrival(buf) {
            Some((len, from)) => Recv::Got { len, from },
            None => {
                self.ends = self.ends.saturating_add(1);
                Recv::Closed
            }
        }
    }

    pub(crate) fn send(&mut self, to: Addr, bytes: &[u8]) -> SendEnd
        ensures exact { SendsBy self.old to bytes.now result self.new }
        ensures never_fall { NeverFall self.old.counts self.new.counts }
    {
        if self.sends.next_fails() {
            if self.record_send(to, bytes, SendEnd::Failed) {
                self.send_faults = self.send_faults.saturating_add(1);
            }
            return SendEnd::Failed;
        }
        if self.record_send(to, bytes, SendEnd::Sent) {
            SendEnd::Sent
        } else {
            SendEnd::Failed
        }
    }
}
