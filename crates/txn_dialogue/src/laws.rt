//! Laws of steps. Each function states a law, and does nothing when it is called.
ghost use Rattle.std.specs.Prelude.{◌≡◌, ℕ, ◌+◌, List, Some, None, true, false};
ghost use Rattle.dialogue.specs.Items.{Comes};
ghost use Rattle.sip_msg.specs.Table.{Reads};
ghost use Rattle.sip_msg.specs.declared.message.Message.{Message};
ghost use Rattle.host_meaning.specs.Run.{Received, received};
ghost use Rattle.outside_ports.specs.declared.port.Addr.{Addr};
ghost use Rattle.txn_dialogue.specs.declared.entry.Entry.{Entry as Recorded};
ghost use Rattle.txn_dialogue.specs.declared.entry.IndexHeard.{IndexHeard as Found};
ghost use Rattle.txn_dialogue.specs.declared.happening.Happening.{Happening as Event};
ghost use Rattle.txn_dialogue.specs.declared.happening.Happening.TheVariants.{Copy, Ack, Reply, Timer, Cancel};
ghost use Rattle.txn_dialogue.specs.Slots.{Proxy, Live, Seen, SeenLive, reading};
ghost use Rattle.txn_server.specs.declared.machine.ServerEvent.TheVariants.{Send};
ghost use Rattle.txn_server.specs.After.{server_after};
ghost use Rattle.txn_dialogue.specs.Sends.{Work, sent_if, back_to, responding};
ghost use Rattle.txn_dialogue.specs.Dialogue.{dialogue};
ghost use Rattle.txn_dialogue.specs.Ending.{StepEnd, Aborted};
ghost use Rattle.txn_dialogue.specs.Loose.{Handling, Handles, LooseAborted, loose_dialogue};
ghost use Rattle.txn_dialogue.specs.Entries.{StepItem, Replays};
ghost use Rattle.txn_dialogue.specs.Blocks.{Balanced, blocks_in, blocks_at, no_blocks, blocks_taken, blocks_given};
ghost use Rattle.txn_dialogue.specs.Order.{SendsRead, SendsLast, IsInOrder, OrdersAtOnce};
ghost use Rattle.txn_dialogue.specs.Shortage.{AbortsShort, is_aborted, is_loosely_aborted, was_short};
ghost use Rattle.txn_dialogue.specs.Serving.{ServesOn, HasServed};
ghost use Rattle.txn_dialogue.specs.Steady.{TakesNothing, Steady, IsHeldAck, HasNoReplyBlock, HasNoFailureBlock};

/// A step that runs no block takes no memory of its own, and whatever fitting answers it gets it isn't aborted: a retransmission, a
/// cancellation, an ACK that isn't handed on, a timer without a failure block to run, and a response without a block to run. So is every
/// other step that takes no memory of its own.
pub fn a_step_without_a_run_is_never_aborted()
    ensures copy { (p : Proxy) (seen : Seen) (generation now : ℕ) → Steady (dialogue p seen generation Copy now) }
    ensures cancel { (p : Proxy) (seen : Seen) (generation now : ℕ) → Steady (dialogue p seen generation Cancel now) }
    ensures ack { (p : Proxy) (live : Live) (generation : ℕ) (text : List ℕ) (source : Addr) (now : ℕ) → IsHeldAck live now
        → Steady (dialogue p (SeenLive live) generation (Ack text source) now) }
    ensures timer { (p : Proxy) (live : Live) (generation now : ℕ) → HasNoFailureBlock live
        → Steady (dialogue p (SeenLive live) generation Timer now) }
    ensures reply { (p : Proxy) (live : Live) (generation branch : ℕ) (text : List ℕ) (source : Addr) (now : ℕ)
        → HasNoReplyBlock p live → HasNoFailureBlock live
        → Steady (dialogue p (SeenLive live) generation (Reply branch text source) now) }
    ensures runless { (p : Proxy) (seen : Seen) (generation : ℕ) (what : Event) (now : ℕ) → TakesNothing (dialogue p seen generation what now)
        → Steady (dialogue p seen generation what now) }
{}

/// What a text reads as, as a function, is the message that it is.
pub fn a_reading_is_the_message()
    ensures { (b : List ℕ) (m : Message) → Reads b m → reading b ≡ Some (received b m) }
{}

/// Blocks are conserved: a step gives back no block that isn't there, and its slot has then what it had and what was answered, less what
/// went back. A datagram without a slot takes no block.
pub fn blocks_are_conserved()
    ensures step { (p : Proxy) (seen : Seen) (generation : ℕ) (what : Event) (now : ℕ)
        → Balanced blocks_at (dialogue p seen generation what now) (blocks_in seen) }
    ensures sums { (p : Proxy) (seen : Seen) (generation : ℕ) (what : Event) (now : ℕ) (items : List StepItem) (end : StepEnd)
        → Comes (dialogue p seen generation what now) items end → blocks_at end + blocks_given items ≡ blocks_in seen + blocks_taken items }
    ensures loose { (p : Proxy) (b : List ℕ) (source : Addr) (index : Found) (handling : Handling) → Handles p b source index handling
        → Balanced no_blocks (loose_dialogue p source handling) 0 }
{}

/// A step is aborted only where memory was short: in a run, or in an object whose answer so doesn't fit. So is the handling of a datagram
/// without a slot.
pub fn only_shortage_of_memory_aborts()
    ensures step { (p : Proxy) (seen : Seen) (generation : ℕ) (what : Event) (now : ℕ) → AbortsShort is_aborted (dialogue p seen generation what now) false }
    ensures items { (p : Proxy) (seen : Seen) (generation : ℕ) (what : Event) (now : ℕ) (items : List StepItem) (slot : Seen)
        → Comes (dialogue p seen generation what now) items (Aborted slot) → was_short items ≡ true }
    ensures loose { (p : Proxy) (source : Addr) (handling : Handling) → AbortsShort is_loosely_aborted (loose_dialogue p source handling) false }
    ensures loose_items { (p : Proxy) (source : Addr) (handling : Handling) (items : List StepItem)
        → Comes (loose_dialogue p source handling) items LooseAborted → was_short items ≡ true }
{}

/// Every datagram that a step sends reads as a message; so does every one that is sent without a slot, but for the response to a
/// datagram that doesn't read.
pub fn what_is_sent_reads()
    ensures step { (p : Proxy) (seen : Seen) (generation : ℕ) (what : Event) (now : ℕ) → SendsRead (dialogue p seen generation what now) }
    ensures loose { (p : Proxy) (b : List ℕ) (source : Addr) (index : Found) (handling : Handling) (r : Received) → reading b ≡ Some r
        → Handles p b source index handling → SendsRead (loose_dialogue p source handling) }
{}

/// Once a datagram was sent no memory is taken, and only datagrams, blocks that go back, the slot's place and its freeing are asked.
pub fn datagrams_come_last()
    ensures step { (p : Proxy) (seen : Seen) (generation : ℕ) (what : Event) (now : ℕ) → SendsLast (dialogue p seen generation what now) false }
    ensures loose { (p : Proxy) (source : Addr) (handling : Handling) → SendsLast (loose_dialogue p source handling) false }
{}

/// A step ends at once with its slot as it was; or it decides, and then it sends, gives blocks back, tells the slot's place, and frees
/// the slot where it goes vacant.
pub fn the_end_of_a_step_is_in_order()
    ensures { (p : Proxy) (seen : Seen) (generation : ℕ) (what : Event) (now : ℕ) → IsInOrder seen (dialogue p seen generation what now) }
{}

/// A continuation is ordered right behind the claim that it won, by that slot and serial, and every one that is won is ordered.
pub fn a_continuation_is_ordered_at_once()
    ensures step { (p : Proxy) (seen : Seen) (generation : ℕ) (what : Event) (now : ℕ) → OrdersAtOnce (dialogue p seen generation what now) None }
    ensures loose { (p : Proxy) (source : Addr) (handling : Handling) → OrdersAtOnce (loose_dialogue p source handling) None }
{}

/// A transaction's server decides at most one final response, and after it 2xx to an INVITE alone: a response is decided by a step of its
/// table; in each step of the slot the server goes on by its table, and the response that is repeated stays the same one once a final one
/// was decided; so the server of a slot is one that its table leads to from a new one.
pub fn a_server_decides_one_final_response()
    ensures response { (code : ℕ) (text : List ℕ) (w : Work) → (responding code text w).sends
        ≡ sent_if (server_after w.state.server (Send code) w.now).1.send (back_to w.origin) text None w.sends }
    ensures step { (p : Proxy) (seen : Seen) (generation : ℕ) (what : Event) (now : ℕ) → ServesOn seen (dialogue p seen generation what now) }
    ensures history { (p : Proxy) (entries : List Recorded) (seen : Seen) (latest : ℕ) → Replays p entries seen latest → HasServed seen }
{}
