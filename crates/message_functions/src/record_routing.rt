//! Record-Route (RFC 3261, section 16.6, step 4).
ghost use Rattle.std.specs.Prelude.{◌≡◌, ℕ, List, IfOk, OnErr};
ghost use Rattle.host_meaning.specs.Run.{Around, received, ComesTo};
ghost use Rattle.host_meaning.specs.Headers.{record_route, record_route_line, record_route_place};

use crate::edits::insert;
use crate::kinds::is_of;
use numerals::push_address;
use outside_ports::Addr;
use pv_table::Facts;
use sip_msg::Message;
use sip_scan::{HeaderSpan, Kind};
use std::alloc::{AllocError as NoMemory, Global};

/// Where the field goes: before the first Record-Route field, else behind the last Via field.
fn place(fields: &[HeaderSpan]) -> usize
    ensures { result ≡ record_route_place fields.now }
{
    let mut behind_vias = 0;
    for field in fields {
        if is_of(Kind::RecordRoute, field) {
            return field.whole.from;
        }
        if is_of(Kind::Via, field) {
            behind_vias = field.whole.to;
        }
    }
    behind_vias
}

/// `Record-Route: <sip:IP:PORT;lr>`
fn line(alloc: Global, listen: Addr) -> Result<Vec<u8>, NoMemory>
    ensures { IfOk result (λ text. text.items ≡ record_route_line listen) }
{
    let mut text = Vec::from_slice(alloc, b"Record-Route: <sip:")?;
    push_address(alloc, &mut text, listen)?;
    text.extend_from_slice(b";lr>\r\n")?;
    Ok(text)
}

/// Puts the proxy on the route of the dialog. 1; -1 but for the first time; -2 at 64 edits.
pub fn record_route(
    alloc: Global,
    m: &Message,
    facts: &mut Facts,
    listen: Addr,
) -> Result<i64, NoMemory>
    ensures ok { IfOk result (λ n. (a : Around) (bytes : List ℕ) → a.settings.listen ≡ listen → ComesTo (record_route a (received bytes m.now)) facts.old n facts.new) }
    ensures err { OnErr result (facts.new ≡ facts.old) }
{
    if facts.has_record_route {
        return Ok(-1);
    }
    let place = place(m.head.fields.as_slice());
    let line = line(alloc, listen)?;
    let made = insert(alloc, &mut facts.edits, place, line.as_slice())?;
    facts.has_record_route = true;
    if made { Ok(1) } else { Ok(-2) }
}
