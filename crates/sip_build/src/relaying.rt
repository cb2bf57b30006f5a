//! The reply that goes back (RFC 3261, section 16.7).
ghost use Rattle.std.specs.Prelude.{◌≡◌, ◌≤◌, ◌<◌, [], ◌∷◌, ◌++◌, length};
ghost use Rattle.msg_edits.specs.declared.parts.Edit.TheVariants as edit;
ghost use Rattle.sip_msg.specs.Table.{Reads};
ghost use Rattle.sip_build.specs.Relayed.{without_top_via, relayed_text};
ghost use Rattle.msg_edits.specs.Writing.{IsWritten, SameEdits};
ghost use Rattle.sip_build.specs.Writing.{FieldsLie};

use crate::fields::first_field;
use msg_edits::{Change, Edit, TooLong, apply_after};
use sip_msg::{Message, Span};
use sip_scan::Kind;

/// Writes the response `m` without its top Via value, and with the edits: the whole field is removed where it is its
/// only value, else the value, its comma and the LWS after it. Bytes behind the end of the message are left out.
#[tactic(auto, using(crate::proofs::Readings::fields_lie, crate::proofs::Readings::end_within))]
pub fn relayed_reply(
    b: &[u8],
    m: &Message,
    edits: &[Edit],
    out: &mut [u8],
) -> Result<usize, TooLong>
    requires { Reads b.now m.now }
    ensures { IsWritten (relayed_text b.now m.now edits.now) out.old out.new result }
{
    let top_via = Change::Cut(top_via(b, m));
    apply_after(&b[..m.end], &[top_via], edits, out)
}

/// What is removed with the top Via value.
#[tactic(auto, unfolding(crate::specs::Relayed::without_top_via))]
fn top_via(b: &[u8], m: &Message) -> Span
    requires { FieldsLie b.now m.now.head.fields.items }
    ensures { SameEdits (edit.Cut result ∷ []) (without_top_via m.now) }
{
    if let Some(next) = m.via.next {
        return Span {
            from: m.via.whole.from,
            to: next,
        };
    }
    match first_field(b, &m.head.fields, Kind::Via) {
        Some(field) => field.whole,
        None => Span::default(),
    }
}
