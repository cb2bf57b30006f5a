//! What the functions of a transaction answer and do, worked out by hand from the rules.

mod destinations;
mod relaying;
mod responses;

ghost use Rattle.sip_msg.specs.Table.{Reads};

use host_meaning::{HostAddress, Hosts, Settings};
use outside_ports::Addr;
use pv_table::{BlockKind, Facts, FinalTimers, Outcome};
use pv_values::Text;
use sip_msg::Message;
use std::alloc::{AllocError, Global};
use std::process::Abort;

/// 192.0.2.1:5060, from where each message came.
const SOURCE: Addr = Addr {
    ip: 3_221_225_985,
    port: 5060,
};

/// It listens on 127.0.0.1:5060, and knows `Proxy.Example` at 192.0.2.7:5070, of which a second address doesn't count.
fn settings(alloc: Global) -> Result<Settings, AllocError> {
    let mut hosts = Vec::new(alloc);
    for last in [7, 8] {
        hosts.push(HostAddress {
            name: Text::from_slice(alloc, b"Proxy.Example")?,
            address: Addr {
                ip: 3_221_225_984 + last,
                port: 5070,
            },
        })?;
    }
    Ok(Settings {
        listen: Addr {
            ip: 2_130_706_433,
            port: 5060,
        },
        epoch: 1,
        slots: 1,
        blocks: 1,
        hosts: Hosts::of(hosts),
        run_for: None,
    })
}

/// How a transaction stands.
#[derive(Clone, Copy, Debug, PartialEq, Eq)]
enum Before {
    Nothing,
    Exists,
    Responded,
    Outcome,
    Answered,
    Cancelled,
    Suspended,
}

/// The facts of a run over a request to this URI whose transaction stands so.
fn facts(alloc: Global, uri: &str, before: Before) -> Result<Facts, AllocError> {
    let timers = FinalTimers {
        invite: 120_000,
        other: 30_000,
    };
    let uri = Text::from_slice(alloc, uri.as_bytes())?;
    let mut of_run = Facts::new(alloc, BlockKind::Request, SOURCE, uri, timers);
    match before {
        Before::Nothing => {}
        Before::Exists => of_run.standing.exists = true,
        Before::Responded => of_run.standing.has_responded = true,
        Before::Outcome => of_run.outcome = Outcome::Suspended,
        Before::Answered => of_run.standing.is_answered = true,
        Before::Cancelled => of_run.standing.is_cancelled = true,
        Before::Suspended => of_run.standing.is_suspended = true,
    }
    Ok(of_run)
}

/// The message that these bytes are.
fn message(rt: &impl Abort, b: &[u8]) -> Message
    ensures { Reads b.now result }
{
    match Message::read(b) {
        Ok(m) => m,
        Err(fault) => panic!(rt; "{fault:?}"),
    }
}

/// A request of this method from 192.0.2.1 with these further fields.
fn request(alloc: Global, method: &str, fields: &[u8]) -> Result<Vec<u8>, AllocError> {
    let mut text = Vec::from_slice(alloc, method.as_bytes())?;
    text.extend_from_slice(
        b" sip:b@192.0.2.9 SIP/2.0\r\nVia: SIP/2.0/UDP 192.0.2.1:5060;branch=z9hG4bK6a\r\nFrom: <sip:a@192.0.2.1>;tag=a\r\nTo: <sip:b@192.0.2.9>\r\nCall-ID: 6\r\nCSeq: 1 ",
    )?;
    text.extend_from_slice(method.as_bytes())?;
    text.extend_from_slice(b"\r\n")?;
    text.extend_from_slice(fields)?;
    text.extend_from_slice(b"\r\n")?;
    Ok(text)
}
