//! A room for texts that are only looked at.
ghost use Rattle.std.specs.Prelude.{◌≡◌, ◌≤◌, ◌<◌, IfSome, take, vec_len};
ghost use Rattle.sip_build.specs.Forwarded.{forwarded_text};
ghost use Rattle.sip_build.specs.Relayed.{relayed_text};
ghost use Rattle.sip_build.specs.Reply.{reply_text};
ghost use Rattle.sip_build.specs.Stateless.{stateless_ack_text};
ghost use Rattle.sip_msg.specs.Table.{Reads};
ghost use Rattle.host_meaning.specs.Run.{is_readable};

use msg_edits::{Edit, Edits};
use outside_ports::Addr;
use sip_build::{forwarded, relayed_reply, reply, stateless_ack};
use sip_msg::Message;
use std::alloc::{AllocError as NoMemory, Global};

/// The most bytes that a message may have.
const LONGEST: usize = 8192;

/// The room of 8,192 bytes for a text that is only looked at, and a message to read it into. No clause names what is in it.
#[derive(Drop)]
pub struct TextRoom {
    bytes: Vec<u8>,
    message: Message,
    ghost has_all: { vec_len bytes ≡ 8192 },
}

impl TextRoom {
    pub fn new(alloc: Global) -> Result<TextRoom, NoMemory> {
        Ok(TextRoom {
            bytes: vec![in alloc; 0; LONGEST]?,
            message: Message::room(),
        })
    }

    /// Whether the response reads that this code and reason make of the request.
    pub fn reply_reads(
        &mut self,
        b: &[u8],
        m: &Message,
        source: Addr,
        code: u16,
        reason: &[u8],
    ) -> bool
        requires { Reads b.now m.now }
        ensures { result ≡ is_readable (reply_text b.now m.now source code reason.now) }
    {
        match reply(b, m, source, code, reason, self.bytes.as_mut_slice()) {
            Ok(len) => self.front_reads(len),
            Err(_) => false,
        }
    }

    /// Whether the response with these edits reads, as it is relayed.
    pub fn relayed_reads(&mut self, b: &[u8], m: &Message, edits: &[Edit]) -> bool
        requires { Reads b.now m.now }
        ensures { result ≡ is_readable (relayed_text b.now m.now edits.now) }
    {
        match relayed_reply(b, m, edits, self.bytes.as_mut_slice()) {
            Ok(len) => self.front_reads(len),
            Err(_) => false,
        }
    }

    /// Whether the request reads, as it goes on to this URI on this branch.
    pub fn request_reads(
        &mut self,
        b: &[u8],
        m: &Message,
        source: Addr,
        edits: &[Edit],
        uri: &[u8],
        listen: Addr,
        branch: &[u8],
        absent_hops: u8,
    ) -> bool
        requires reading { Reads b.now m.now }
        requires hops { IfSome m.now.max_forwards (λ hops. 0 < hops) }
        ensures { result ≡ is_readable (forwarded_text b.now m.now source edits.now uri.now listen branch.now absent_hops) }
    {
        let room = self.bytes.as_mut_slice();
        match forwarded(b, m, source, edits, uri, listen, branch, absent_hops, room) {
            Ok(len) => self.front_reads(len),
            Err(_) => false,
        }
    }

    /// Whether the ACK reads, as it goes on to this URI without a transaction.
    pub fn ack_reads(
        &mut self,
        b: &[u8],
        m: &Message,
        source: Addr,
        edits: &[Edit],
        uri: &[u8],
        listen: Addr,
        absent_hops: u8,
    ) -> bool
        requires reading { Reads b.now m.now }
        requires hops { IfSome m.now.max_forwards (λ hops. 0 < hops) }
        ensures { result ≡ is_readable (stateless_ack_text b.now m.now source edits.now uri.now listen absent_hops) }
    {
        let room = self.bytes.as_mut_slice();
        match stateless_ack(b, m, source, edits, uri, listen, absent_hops, room) {
            Ok(len) => self.front_reads(len),
            Err(_) => false,
        }
    }

    /// Whether the first bytes of the room read.
    fn front_reads(&mut self, len: usize) -> bool
        requires { len ≤ vec_len self.old.bytes }
        ensures { result ≡ is_readable (take len self.old.bytes.items) }
    {
        match Message::read_into(&self.bytes[..len], &mut self.message) {
            Ok(()) => true,
            Err(_) => false,
        }
    }
}
