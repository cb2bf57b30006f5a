//! A datagram as a trace shows it: cut after each CRLF, each piece as text or in hexadecimal.

ghost use Rattle.std.specs.Prelude.{◌≡◌, ◌<◌, ◌≤◌, ◌++◌, length, OnOk};
ghost use Rattle.std.specs.List.{list_all};
ghost use Rattle.sim_text.specs.Trace.{is_printable, is_text_line, shown_piece, shown_datagram};
ghost use Rattle.sim_text.specs.Pieces.{first_len, crlf_at};

use std::alloc::{AllocError as NoMemory, Global};

/// Writes a datagram, cut after each CRLF.
pub fn push_datagram(alloc: Global, trace: &mut Vec<u8>, datagram: &[u8]) -> Result<(), NoMemory>
    ensures { OnOk result (trace.new.items ≡ trace.old.items ++ shown_datagram datagram.now) }
{
    let mut rest = datagram;
    while !rest.is_empty() {
        let (piece, more) = rest.split_at(first_len(rest));
        push_piece(alloc, trace, piece)?;
        rest = more;
    }
    Ok(())
}

/// Whether a CRLF stands at this place.
fn has_crlf(bytes: &[u8], at: usize) -> bool
    requires { at < length bytes.now }
    ensures value { result ≡ crlf_at bytes.now at }
{
    matches!(&bytes[at..], [b'\r', b'\n', ..])
}

/// The length of the first piece, which ends after a CRLF or with the datagram.
#[tactic(auto, using(crate::proofs::Pieces::goes, crate::proofs::Pieces::stops, crate::proofs::Pieces::ends))]
fn first_len(datagram: &[u8]) -> usize
    ensures value { result ≡ first_len datagram.now }
    ensures within { result ≤ length datagram.now }
    ensures some { 0 < length datagram.now → 0 < result }
{
    for at in 0..datagram.len() {
        if has_crlf(datagram, at) {
            return at + 2;
        }
    }
    datagram.len()
}

/// Whether the byte is one of 0x20 to 0x7E.
pub fn is_printable(b: u8) -> bool
    ensures { result ≡ is_printable b }
{
    0x20 <= b && b <= 0x7e
}

fn is_all_printable(text: &[u8]) -> bool
    ensures { result ≡ list_all is_printable text.now }
{
    text.iter().all(|b| is_printable(*b))
}

/// Whether the piece ends with CRLF, and its other bytes are printable.
fn is_text_line(piece: &[u8]) -> bool
    ensures { result ≡ is_text_line piece.now }
{
    if piece.len() < 2 {
        return false;
    }
    let (text, end) = piece.split_at(piece.len() - 2);
    end == b"\r\n".as_slice() && is_all_printable(text)
}

/// Writes one piece: as text where it is printable and ends with CRLF, else in hexadecimal.
fn push_piece(alloc: Global, trace: &mut Vec<u8>, piece: &[u8]) -> Result<(), NoMemory>
    ensures { OnOk result (trace.new.items ≡ trace.old.items ++ shown_piece piece.now) }
{
    if is_text_line(piece) {
        trace.push(b'|')?;
        trace.extend_from_slice(&piece[..piece.len() - 2])?;
    } else {
        trace.push(b'+')?;
        trace.extend_from_slice(hex::encode(alloc, piece)?.as_bytes())?;
    }
    trace.push(b'\n')?;
    Ok(())
}
