//! The text that `sim` prints, item by item.
//!
//! Each call appends to the text, and leaves what stands there. Without memory the text may end within an item.

ghost use Rattle.std.specs.Prelude.{◌≡◌, ◌++◌, OnOk};
ghost use Rattle.sim_text.specs.declared.item.TraceItem.{TraceItem};
ghost use Rattle.sim_text.specs.Trace.{shown_byte, headed, item_text, end_text};

use crate::datagram::{is_printable, push_datagram};
use crate::item::Cause;
use numerals::{push_address, push_number};
use outside_ports::Addr;
use std::alloc::{AllocError as NoMemory, Global};

/// Writes `out MS IP:PORT` and the datagram.
pub fn push_out(
    alloc: Global,
    trace: &mut Vec<u8>,
    at: u64,
    to: Addr,
    datagram: &[u8],
) -> Result<(), NoMemory>
    ensures { OnOk result (trace.new.items ≡ trace.old.items ++ item_text (TraceItem.Out at to datagram.now)) }
{
    push_head(alloc, trace, b"out", at)?;
    push_address(alloc, trace, to)?;
    trace.push(b'\n')?;
    push_datagram(alloc, trace, datagram)
}

/// Writes `drop MS CAUSE`.
pub fn push_drop(alloc: Global, trace: &mut Vec<u8>, at: u64, cause: Cause) -> Result<(), NoMemory>
    ensures { OnOk result (trace.new.items ≡ trace.old.items ++ item_text (TraceItem.Drop at cause)) }
{
    push_head(alloc, trace, b"drop", at)?;
    trace.extend_from_slice(cause.name().as_bytes())?;
    trace.push(b'\n')?;
    Ok(())
}

/// Writes `log MS TEXT`, in which bytes that aren't printable stand as `?`.
pub fn push_log(alloc: Global, trace: &mut Vec<u8>, at: u64, text: &[u8]) -> Result<(), NoMemory>
    ensures { OnOk result (trace.new.items ≡ trace.old.items ++ item_text (TraceItem.Log at text.now)) }
{
    push_head(alloc, trace, b"log", at)?;
    let shown = text
        .iter()
        .map(|b| shown_byte(*b))
        .collect::<Vec<u8>>(alloc)?;
    trace.extend_from_slice(shown.as_slice())?;
    trace.push(b'\n')?;
    Ok(())
}

/// Writes `fail MS IP:PORT`.
pub fn push_fail(alloc: Global, trace: &mut Vec<u8>, at: u64, to: Addr) -> Result<(), NoMemory>
    ensures { OnOk result (trace.new.items ≡ trace.old.items ++ item_text (TraceItem.Fail at to)) }
{
    push_head(alloc, trace, b"fail", at)?;
    push_address(alloc, trace, to)?;
    trace.push(b'\n')?;
    Ok(())
}

/// Writes the last line, `end MS live N`, where N transactions live on.
pub fn push_end(alloc: Global, trace: &mut Vec<u8>, at: u64, live: u64) -> Result<(), NoMemory>
    ensures { OnOk result (trace.new.items ≡ trace.old.items ++ end_text at live) }
{
    push_head(alloc, trace, b"end", at)?;
    trace.extend_from_slice(b"live ")?;
    push_number(alloc, trace, live)?;
    trace.push(b'\n')?;
    Ok(())
}

/// Writes the word, the moment, and a SP after each.
fn push_head(alloc: Global, trace: &mut Vec<u8>, word: &[u8], at: u64) -> Result<(), NoMemory>
    ensures { OnOk result (trace.new.items ≡ trace.old.items ++ headed word.now at) }
{
    trace.extend_from_slice(word)?;
    trace.push(b' ')?;
    push_number(alloc, trace, at)?;
    trace.push(b' ')?;
    Ok(())
}

/// The byte, or `?` where it isn't printable.
fn shown_byte(b: u8) -> u8
    ensures { result ≡ shown_byte b }
{
    if is_printable(b) { b } else { b'?' }
}
