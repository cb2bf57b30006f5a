//! Header fields by their kinds.
ghost use Rattle.std.specs.Prelude.{◌≡◌};
ghost use Rattle.sip_msg.specs.Fields.{is_of};

use sip_scan::{HeaderSpan, Kind};

/// Whether the field is of this kind.
#[tactic(auto, unfolding(sip_msg::specs::Fields::is_of))]
pub fn is_of(kind: Kind, field: &HeaderSpan) -> bool
    ensures { result ≡ is_of kind field.now }
{
    kind.is_same(field.kind)
}
