//! The requests that the proxy makes for a request that it sent.
ghost use Rattle.std.specs.Prelude.{◌≡◌, ◌≤◌, ◌+◌, ◌++◌, codes, length};
ghost use Rattle.std.specs.Fmt.{decimal};
ghost use Rattle.sip_msg.specs.Table.{Reads};
ghost use Rattle.sip_build.specs.Hop.{hop_request, ack_text, cancel_text};
ghost use Rattle.msg_edits.specs.Writing.{IsWritten};

use crate::fields::{field_text, uri_of};
use crate::joined::{Joined, Taken};
use arrayvec::ArrayString;
use itoa::Buffer;
use msg_edits::{Change, TooLong};
use sip_msg::{Message, Span};
use sip_scan::Kind;

/// No change.
const UNCHANGED: Change<'static> = Change::Cut(Span { from: 0, to: 0 });

/// Writes the ACK for the response `am` to the request `m`, which the proxy sent (RFC 3261, section 17.1.1.3): its URI,
/// its top Via value, its Route fields, its From and Call-ID, the number of its CSeq, and To of the response.
#[tactic(auto, unfolding(crate::specs::Hop::ack_text), using(crate::proofs::Readings::fields_lie))]
pub fn ack(
    b: &[u8],
    m: &Message,
    response: &[u8],
    am: &Message,
    out: &mut [u8],
) -> Result<usize, TooLong>
    requires request { Reads b.now m.now }
    requires response { Reads response.now am.now }
    ensures { IsWritten (ack_text b.now m.now response.now am.now) out.old out.new result }
{
    let to = field_text(response, &am.head.fields, Kind::To);
    hop_request("ACK", b, m, to, out)
}

/// Writes the CANCEL of the request `m`, which the proxy sent (RFC 3261, section 9.1): the same, with To of the
/// request.
#[tactic(auto, unfolding(crate::specs::Hop::cancel_text), using(crate::proofs::Readings::fields_lie))]
pub fn cancel(b: &[u8], m: &Message, out: &mut [u8]) -> Result<usize, TooLong>
    requires { Reads b.now m.now }
    ensures { IsWritten (cancel_text b.now m.now) out.old out.new result }
{
    let to = field_text(b, &m.head.fields, Kind::To);
    hop_request("CANCEL", b, m, to, out)
}

/// Writes the request with this method that goes the way of the sent request `m`.
#[tactic(auto, using(crate::proofs::Readings::fields_lie, crate::proofs::Readings::via_within, crate::proofs::Readings::uri_within))]
fn hop_request(
    method: &str,
    b: &[u8],
    m: &Message,
    to: &[u8],
    out: &mut [u8],
) -> Result<usize, TooLong>
    requires reading { Reads b.now m.now }
    requires short { length method.now ≤ 6 }
    ensures { IsWritten (hop_request method.now b.now m.now to.now) out.old out.new result }
{
    let uri = uri_of(m.start);
    let fields = m.head.fields.as_slice();
    let cseq = cseq_text(m.cseq.number, method);
    let joined = Joined {
        front: &[
            method.as_bytes(),
            b" ",
            &b[uri.from..uri.to],
            b" SIP/2.0\r\nVia: ",
            &b[m.via.whole.from..m.via.whole.to],
            b"\r\nMax-Forwards: 70\r\n",
        ],
        b,
        fields,
        taken: Taken::Routes,
        changes: [UNCHANGED, UNCHANGED, UNCHANGED],
        back: &[
            field_text(b, fields, Kind::From),
            to,
            field_text(b, fields, Kind::CallId),
            cseq.as_str().as_bytes(),
            b"Content-Length: 0\r\n\r\n",
        ],
    };
    joined.fit(out)
}

/// The line CSeq.
fn cseq_text(number: u32, method: &str) -> ArrayString<25>
    requires { length method.now ≤ 6 }
    ensures { result.bytes ≡ codes "CSeq: " ++ (decimal number ++ (codes " " ++ (method.now ++ codes "\r\n"))) }
{
    let mut text = ArrayString::new();
    text.push_str("CSeq: ");
    text.push_str(Buffer::new().format(number));
    text.push_str(" ");
    text.push_str(method);
    text.push_str("\r\n");
    text
}
