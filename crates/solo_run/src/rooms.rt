//! Room for one datagram that comes in and one that goes out.
ghost use Rattle.std.specs.Prelude.{◌≡◌, ◌≤◌, vec_len};

use sip_msg::Message;
use std::alloc::{AllocError as NoMemory, Global};

/// The most bytes that a message may have.
const LONGEST: usize = 8192;

/// The room of 8,192 bytes for a text that is sent, and a message to read it into. No clause names what is in it.
#[derive(Drop)]
pub(crate) struct Outgoing {
    pub(crate) bytes: Vec<u8>,
    pub(crate) reading: Message,
    ghost has_all: { vec_len bytes ≡ 8192 },
}

impl Outgoing {
    pub(crate) fn new(alloc: Global) -> Result<Outgoing, NoMemory> {
        Ok(Outgoing {
            bytes: vec![in alloc; 0; LONGEST]?,
            reading: Message::room(),
        })
    }
}
