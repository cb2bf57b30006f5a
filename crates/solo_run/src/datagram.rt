//! Datagrams that run no block.
ghost use Rattle.std.specs.Prelude.{◌≡◌, OnOk, Some, ◌++◌};
ghost use Rattle.sip_msg.specs.Basis.{basis_of};
ghost use Rattle.txn_dialogue.specs.Loose.{is_line_end, is_keepalive, begins_as_response, answers_fault, fault_code, fault_reason, malformed};
ghost use Rattle.sim_text.specs.Trace.{items_text};
ghost use Rattle.solo_run.specs.Running.{shown_handling};

use crate::rooms::Outgoing;
use outside_ports::Addr;
use sim_text::{Cause, push_drop, push_out};
use sip_build::{basis_reply, basis_reply_to};
use sip_msg::{Basis, read_basis};
use sip_scan::skipped;
use sip_words::same_word;
use std::alloc::{AllocError as NoMemory, Global};

/// Whether the datagram is empty, or holds only CR and LF.
pub(crate) fn is_keepalive(b: &[u8]) -> bool
    ensures { result ≡ is_keepalive b.now }
{
    b.iter().all(|byte| is_line_end(*byte))
}

fn is_line_end(byte: u8) -> bool
    ensures { result ≡ is_line_end byte }
{
    matches!(byte, b'\r' | b'\n')
}

/// Whether the datagram, after CR and LF in front, begins with `SIP/` in any case.
fn begins_as_response(b: &[u8]) -> bool
    ensures { result ≡ begins_as_response b.now }
{
    let rest = &b[skipped(b)..];
    same_word(&rest[..rest.len().min(4)], b"SIP/")
}

/// Shows what becomes of a malformed datagram: a request is responded to where it can be.
pub(crate) fn refuse(
    alloc: Global,
    b: &[u8],
    source: Addr,
    at: u64,
    room: &mut Outgoing,
    trace: &mut Vec<u8>,
) -> Result<(), NoMemory>
    ensures { OnOk result (trace.new.items ≡ trace.old.items ++ items_text (shown_handling at (malformed b.now source (basis_of b.now)))) }
{
    match read_basis(b) {
        Some(basis) => respond_to_fault(alloc, b, source, at, &basis, room, trace),
        None if begins_as_response(b) => push_drop(alloc, trace, at, Cause::BadReply),
        None => push_drop(alloc, trace, at, Cause::NotSip),
    }
}

/// Responds to a malformed request, unless the response is too long.
fn respond_to_fault(
    alloc: Global,
    b: &[u8],
    source: Addr,
    at: u64,
    basis: &Basis,
    room: &mut Outgoing,
    trace: &mut Vec<u8>,
) -> Result<(), NoMemory>
    requires { basis_of b.now ≡ Some basis.now }
    ensures { OnOk result (trace.new.items ≡ trace.old.items ++ items_text (shown_handling at (answers_fault b.now source basis.now))) }
{
    let (code, reason) = fault_of(basis);
    match basis_reply(b, basis, source, code, reason, room.bytes.as_mut_slice()) {
        Ok(len) => push_out(
            alloc,
            trace,
            at,
            basis_reply_to(basis, source),
            &room.bytes[..len],
        ),
        Err(_) => push_drop(alloc, trace, at, Cause::TooLong),
    }
}

/// The code and the reason of the response to a malformed request.
fn fault_of(basis: &Basis) -> (u16, &'static [u8])
    ensures code { result.0 ≡ fault_code basis.now }
    ensures reason { result.1.now ≡ fault_reason basis.now }
{
    if !basis.version_ok {
        (505, b"Version Not Supported")
    } else if basis.too_long {
        (513, b"Message Too Large")
    } else {
        (400, b"Bad Request")
    }
}
