//! What functions of a script answer and do, worked out by hand from the rules.

mod headers;
mod replies;
mod routing;

ghost use Rattle.sip_msg.specs.Table.{Reads};

use cfg_tree::Parameters;
use host_meaning::{Hosts, Settings};
use msg_edits::apply;
use outside_ports::Addr;
use pv_table::{BlockKind, Facts, FinalTimers};
use pv_values::Text;
use sip_msg::Message;
use sqlite_items::Items;
use std::alloc::{AllocError, Global};
use std::process::Abort;
use std::test::Fail;

/// 127.0.0.1:5060
const LISTEN: Addr = Addr {
    ip: 2_130_706_433,
    port: 5060,
};

fn settings(alloc: Global) -> Settings {
    Settings {
        listen: LISTEN,
        epoch: 1,
        slots: 1,
        blocks: 1,
        hosts: Hosts::of(Vec::new(alloc)),
        run_for: None,
    }
}

/// With the alias `proxy.example`.
fn parameters(alloc: Global) -> Result<Parameters, AllocError> {
    let mut aliases = Items::new(alloc);
    aliases.push(Text::from_slice(alloc, b"proxy.example")?)?;
    Ok(Parameters {
        listen: None,
        aliases,
        max_while_loops: 100,
        max_recursive_level: 256,
        fr_timer: 30_000,
        fr_inv_timer: 120_000,
    })
}

/// The facts of a run that has decided nothing, over a message from 192.0.2.9, port 5065.
fn facts(alloc: Global, kind: BlockKind, uri: &str) -> Result<Facts, AllocError> {
    let source = Addr {
        ip: 3_221_225_993,
        port: 5065,
    };
    let timers = FinalTimers {
        invite: 120_000,
        other: 30_000,
    };
    let uri = Text::from_slice(alloc, uri.as_bytes())?;
    Ok(Facts::new(alloc, kind, source, uri, timers))
}

/// The same with so many edits that change nothing.
fn facts_with_edits(
    rt: &impl Abort,
    alloc: Global,
    uri: &str,
    made: usize,
) -> Result<Facts, AllocError> {
    let mut facts = facts(alloc, BlockKind::Request, uri)?;
    for _ in 0..made {
        assert!(rt; facts.edits.insert(alloc, 0, b"").is_ok());
    }
    Ok(facts)
}

/// The message after the edits of the facts.
fn edited(rt: &impl Abort, alloc: Global, b: &[u8], facts: &Facts) -> Result<Vec<u8>, AllocError> {
    let mut room = vec![in alloc; 0; 8192]?;
    match apply(b, facts.edits.as_slice(), room.as_mut_slice()) {
        Ok(len) => room.truncate(len),
        Err(_) => assert!(rt; false, "too long"),
    }
    Ok(room)
}

/// The message that these bytes are.
fn message(rt: &impl Abort, b: &[u8]) -> Message
    ensures { Reads b.now result }
{
    match Message::read(b) {
        Ok(m) => m,
        Err(fault) => panic!(rt; "{fault:?}"),
    }
}

/// A request's start, without its end.
const FRONT: &str =
    "ACK sip:b@192.0.2.9 SIP/2.0\r\nVia: SIP/2.0/UDP 192.0.2.1:5060;branch=z9hG4bK6a\r\nFrom: <sip:a@192.0.2.1>;tag=a\r\nTo: <sip:b@192.0.2.9>;tag=t\r\nCall-ID: 6\r\nCSeq: 1 ACK\r\n";

/// A request with these further fields.
fn request(alloc: Global, fields: &str) -> Result<Vec<u8>, AllocError> {
    let mut text = Vec::from_slice(alloc, FRONT.as_bytes())?;
    text.extend_from_slice(fields.as_bytes())?;
    text.extend_from_slice(b"\r\n")?;
    Ok(text)
}
