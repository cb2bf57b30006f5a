//! Laws of what a datagram reads as, for the layers above. Each function states a law, and does nothing when it is
//! called.
ghost use Rattle.std.specs.Prelude.{◌≡◌, ℕ, List, Some, take};
ghost use Rattle.sip_msg.specs.Basis.{basis_of};
ghost use Rattle.sip_msg.specs.Places.{BasisLiesIn, IsComplete, MessageLiesIn};
ghost use Rattle.sip_msg.specs.Table.{Reads};
ghost use Rattle.sip_msg.specs.declared.basis.Basis.{Basis};
ghost use Rattle.sip_msg.specs.declared.message.Message.{Message};

/// A message that a datagram reads as has its parts within the datagram, each where it belongs. There is a Via, and
/// From, To, Call-ID and CSeq stand once.
pub fn a_message_lies_in_its_datagram()
    ensures lies { (b : List ℕ) (m : Message) → Reads b m → MessageLiesIn b m }
    ensures complete { (b : List ℕ) (m : Message) → Reads b m → IsComplete m.head.fields.items }
{}

/// The basis that a datagram has lies in its first 8,192 bytes.
pub fn a_basis_lies_in_its_datagram()
    ensures { (b : List ℕ) (basis : Basis) → basis_of b ≡ Some basis → BasisLiesIn (take 8192 b) basis }
{}
