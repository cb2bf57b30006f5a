//! Laws of the written texts, for the layers above. Each function states a law, and does nothing when it is called.
ghost use Rattle.std.specs.Prelude.{◌≡◌, ◌≤◌, ◌+◌, ◌-◌, ◌++◌, ℕ, List, length, drop, take, slice_range, nat_eq, codes, true, false, Some, None, Ok, []};
ghost use Rattle.std.specs.List.{starts_with};
ghost use Rattle.outside_ports.specs.declared.port.Addr.{Addr as Address};
ghost use Rattle.sip_words.specs.declared.Span.{Span as Place};
ghost use Rattle.sip_fields.specs.declared.via.Via.{Via as ViaValue};
ghost use Rattle.sip_fields.specs.declared.via.Rport.TheVariants as rport;
ghost use Rattle.sip_fields.specs.Via.{via_at};
ghost use Rattle.sip_fields.specs.ViaGrammar.{ViaTree, via_place};
ghost use Rattle.sip_build.specs.Addresses.{reply_address};
ghost use Rattle.sip_build.specs.Stamp.{asks_for_port};
ghost use Rattle.sip_scan.specs.declared.Head.{Head as HeadParts};
ghost use Rattle.sip_scan.specs.Head.{scanned};
ghost use Rattle.sip_scan.specs.declared.field.HeaderSpan.{HeaderSpan as Field};
ghost use Rattle.sip_scan.specs.declared.field.Kind.TheVariants as kind;
ghost use Rattle.msg_edits.specs.declared.parts.Edit.{Edit};
ghost use Rattle.msg_edits.specs.Edited.{edited};
ghost use Rattle.sip_msg.specs.declared.message.Message.{Message as Incoming};
ghost use Rattle.sip_msg.specs.Fields.{first};
ghost use Rattle.sip_msg.specs.Table.{Reads};
ghost use Rattle.sip_build.specs.Parts.{place_of};
ghost use Rattle.sip_build.specs.Forwarded.{via_line, forwarded_text};
ghost use Rattle.sip_build.specs.Relayed.{relayed_text};
ghost use Rattle.sip_build.specs.Laws.{IsOwn, own_value, own_via, other_edits, before_place, from_place, ReadsUnder, HasAllBut};

/// A response goes to the address that its request came from. Its port is the source port where rport stands without a
/// value (RFC 3581, section 4), and else that of the top Via value, or 5060 where it names none (RFC 3261,
/// section 18.2.2).
pub fn a_reply_goes_back()
    ensures ip { (via : ViaValue) (source : Address) → (reply_address via source).ip ≡ source.ip }
    ensures rport { (via : ViaValue) (source : Address) (word : Place) → via.rport ≡ rport.Empty word
        → (reply_address via source).port ≡ source.port }
    ensures port { (via : ViaValue) (source : Address) (port : ℕ) → asks_for_port via.rport ≡ false → via.port ≡ Some port
        → (reply_address via source).port ≡ port }
    ensures no_port { (via : ViaValue) (source : Address) → asks_for_port via.rport ≡ false → via.port ≡ None
        → (reply_address via source).port ≡ 5060 }
{}

/// The value of the line Via that the proxy puts into a request reads, with the proxy's address and the branch.
pub fn own_via_reads()
    ensures { (text : List ℕ) (i : ℕ) (listen : Address) (branch : List ℕ) → IsOwn listen branch → i ≤ length text
        → drop i text ≡ own_value listen branch → via_at text i ≡ Some (own_via i listen branch) }
{}

/// A forwarded request is the text with the other edits, and the line Via put in before what the first Via field
/// becomes there.
pub fn the_line_via_is_put_in()
    ensures { (b : List ℕ) (m : Incoming) (source : Address) (edits : List Edit) (uri : List ℕ) (listen : Address) (branch : List ℕ) (absent : ℕ) → Reads b m
        → let text = take m.end b in
        let others = other_edits b m source edits uri absent in
        let place = place_of (first kind.Via m.head.fields.items) (m.head.start.to + 2) in
        (forwarded_text b m source edits uri listen branch absent ≡ before_place text others place ++ (via_line listen branch ++ from_place text others place))
        × (edited text others ≡ before_place text others place ++ from_place text others place) }
{}

/// Without edits of the script a relayed response is the response with the bytes of its top Via value taken away: what
/// stands before them, and what stands behind the whole field, or from the second value on.
pub fn the_top_via_is_taken_away()
    ensures only { (b : List ℕ) (m : Incoming) (field : Field) → Reads b m → m.via.next ≡ None → first kind.Via m.head.fields.items ≡ Some field
        → relayed_text b m [] ≡ take field.whole.from b ++ slice_range b field.whole.to m.end }
    ensures more { (b : List ℕ) (m : Incoming) (next : ℕ) → Reads b m → m.via.next ≡ Some next
        → relayed_text b m [] ≡ take m.via.whole.from b ++ slice_range b next m.end }
{}

/// A message reads also with the proxy's line Via put in before its first Via field, where it has less than 128 fields
/// and there is room for the line: its top Via is then the proxy's, and all else is as it was.
pub fn a_message_reads_under_the_line()
    ensures { (b : List ℕ) (m : Incoming) (listen : Address) (branch : List ℕ) → Reads b m → IsOwn listen branch
        → starts_with nat_eq branch (codes "z9hG4bK") ≡ true → length m.head.fields.items ≤ 127
        → length b + length (via_line listen branch) ≤ 8192
        → let place = place_of (first kind.Via m.head.fields.items) (m.head.start.to + 2) in
        (under : Incoming) × ReadsUnder b m (take place b ++ (via_line listen branch ++ drop place b)) place listen branch under }
{}

/// What is forwarded reads, wherever the text with the other edits reads and its first Via field begins where the line is
/// put in (edits of the script may break both). Its top Via is then the proxy's, with the branch, and all else is as it is in
/// that text.
pub fn what_is_forwarded_reads()
    ensures { (b : List ℕ) (m : Incoming) (source : Address) (edits : List Edit) (uri : List ℕ) (listen : Address) (branch : List ℕ) (absent : ℕ) (t : Incoming)
        → Reads b m → IsOwn listen branch → starts_with nat_eq branch (codes "z9hG4bK") ≡ true
        → let text = take m.end b in
        let others = other_edits b m source edits uri absent in
        let front = before_place text others (place_of (first kind.Via m.head.fields.items) (m.head.start.to + 2)) in
        Reads (edited text others) t → place_of (first kind.Via t.head.fields.items) (t.head.start.to + 2) ≡ length front
        → length t.head.fields.items ≤ 127 → length (edited text others) + length (via_line listen branch) ≤ 8192
        → (under : Incoming) × ReadsUnder (edited text others) t (forwarded_text b m source edits uri listen branch absent) (length front) listen branch under }
{}

/// A relayed response, without edits of the script, has the Via below: where the top value has another behind it in its field,
/// that one reads in its place, as the same value, each part at its place there.
pub fn the_value_below_reads()
    ensures { (b : List ℕ) (m : Incoming) (field : Field) (next : ℕ) (via : ViaValue) → Reads b m → first kind.Via m.head.fields.items ≡ Some field
        → m.via.next ≡ Some next → via_at (take field.value.to b) next ≡ Some via
        → (t : ViaTree) × (via ≡ via_place next t)
        × (via_at (take (m.via.whole.from + (field.value.to - next)) (relayed_text b m [])) m.via.whole.from ≡ Some (via_place m.via.whole.from t)) }
{}

/// A relayed response, without edits of the script, has the Via below: where the top value is alone in its field, the reply's
/// head reads, and its fields are those of the response without that field, with the same bytes, in order. So its first Via
/// field is the response's second one.
pub fn the_fields_below_stand()
    ensures { (b : List ℕ) (m : Incoming) (field : Field) → Reads b m → m.via.next ≡ None → first kind.Via m.head.fields.items ≡ Some field
        → (h : HeadParts) × (scanned (relayed_text b m []) ≡ Ok h) × HasAllBut b m.head.fields.items field (relayed_text b m []) h.fields.items }
{}
