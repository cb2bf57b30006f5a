//! Laws of what the proxy sends (RFC 3261, sections 8.2.6, 9.1, 16.6, 16.7 and 17.1.1.3). Each function states a law over
//! every message that reads, and does nothing when it is called.
ghost use Rattle.std.specs.Prelude.{◌≡◌, ◌≤◌, ◌<◌, ◌+◌, ◌^◌, List, Some, [], codes, length, nat_eq, take, true, ℕ};
ghost use Rattle.std.specs.List.{Contains, starts_with};
ghost use Rattle.sip_words.specs.declared.bytes.Class.TheVariants.{Visible};
ghost use Rattle.sip_words.specs.Grammar.{IsWord};
ghost use Rattle.outside_ports.specs.declared.port.Addr.{Addr as Address};
ghost use Rattle.sip_scan.specs.Grammar.{IsLine};
ghost use Rattle.sip_build.specs.Reply.{reply_text};
ghost use Rattle.sip_fields.specs.declared.via.Via.{Via as ViaValue};
ghost use Rattle.sip_scan.specs.declared.field.HeaderSpan.{HeaderSpan as Field};
ghost use Rattle.sip_scan.specs.declared.field.Kind.TheVariants as kind;
ghost use Rattle.msg_edits.specs.declared.parts.Edit.{Edit};
ghost use Rattle.msg_edits.specs.Edited.{edited};
ghost use Rattle.sip_msg.specs.Fields.{count, first};
ghost use Rattle.sip_msg.specs.Table.{Reads};
ghost use Rattle.sip_msg.specs.declared.message.Message.{Message as Incoming};
ghost use Rattle.sip_build.specs.Hop.{ack_text, cancel_text};
ghost use Rattle.sip_build.specs.Relayed.{relayed_text};
ghost use Rattle.sip_build.specs.Forwarded.{forwarded_text};
ghost use Rattle.sip_build.specs.Stateless.{stateless_branch, stateless_ack_text};
ghost use Rattle.sip_build.specs.Laws.{IsOwn, before_place, other_edits};
ghost use Rattle.sip_build.specs.Parts.{part, place_of};
ghost use Rattle.sip_build.specs.WithField.{with_field};
ghost use Rattle.sip_laws.specs.Sent.{HasField, IsForwarded, IsOnItsWay, IsRelayed, IsReply, IsRequest, IsResponse, IsUnderVia, most_fields, second_via, the_field};

/// The ACK for a response to a request that was sent reads, where the request has at most 121 Route fields and the ACK at
/// most 8,192 bytes: as an ACK on the way of that request, with To of the response.
pub fn an_ack_reads()
    ensures { (b : List ℕ) (m : Incoming) (response : List ℕ) (rm : Incoming) → Reads b m → IsRequest m.start → Reads response rm
        → count kind.Route m.head.fields.items ≤ 121 → length (ack_text b m response rm) ≤ 8192
        → (w : Incoming) × IsOnItsWay (codes "ACK") b m (the_field kind.To response rm) (ack_text b m response rm) w }
{}

/// The CANCEL of a request that was sent reads, where the request has at most 121 Route fields and the CANCEL at most
/// 8,192 bytes: as a CANCEL on the way of that request, with To of the request.
pub fn a_cancel_reads()
    ensures { (b : List ℕ) (m : Incoming) → Reads b m → IsRequest m.start
        → count kind.Route m.head.fields.items ≤ 121 → length (cancel_text b m) ≤ 8192
        → (w : Incoming) × IsOnItsWay (codes "CANCEL") b m (the_field kind.To b m) (cancel_text b m) w }
{}

/// The proxy's response to a request reads, where its code is 100 to 699, its reason one line (without NUL, CR and LF), the
/// request has at most 123 Via fields and the response at most 8,192 bytes: as a response with this code and reason, the Via
/// fields of the request in order with the top value stamped, its From, Call-ID and CSeq, and its To, which has a tag unless
/// the code is 100. That the tag is read has the premise that To of the request has no parameter `tag` without a value.
pub fn a_response_reads()
    ensures { (b : List ℕ) (m : Incoming) (source : Address) (code : ℕ) (reason : List ℕ) → Reads b m → source.port < 2 ^ 16
        → 100 ≤ code → code ≤ 699 → IsLine reason → count kind.Via m.head.fields.items ≤ 123
        → length (reply_text b m source code reason) ≤ 8192
        → (w : Incoming) × IsReply b m source code reason (reply_text b m source code reason) w }
{}

/// A response that is relayed without edits of a script reads, where it has a second Via value: with that value on top, and
/// all else as received.
pub fn a_relayed_response_reads()
    ensures { (b : List ℕ) (m : Incoming) (v : ViaValue) → Reads b m → IsResponse m.start → second_via b m ≡ Some v
        → (w : Incoming) × IsRelayed b m v (relayed_text b m []) w }
{}

/// The request that the proxy forwards without edits of a script reads, where it has at most 127 fields (126 where it has
/// no Max-Forwards), its new URI isn't empty and has no SP, no DEL and no control byte, the proxy's port isn't 0, the branch
/// is a token that begins with `z9hG4bK`, the Max-Forwards for a request without one is at most 255, and the text has at most
/// 8,192 bytes: with the proxy's Via on top, the Via fields of the request in order below it, the top value stamped, its
/// method, the new URI and one hop less, and all else as received.
pub fn a_forwarded_request_reads()
    ensures { (b : List ℕ) (m : Incoming) (source : Address) (uri : List ℕ) (listen : Address) (branch : List ℕ) (absent : ℕ) → Reads b m
        → IsRequest m.start → source.port < 2 ^ 16 → IsWord Visible uri → IsOwn listen branch
        → starts_with nat_eq branch (codes "z9hG4bK") ≡ true → absent < 256
        → length m.head.fields.items ≤ most_fields m.max_forwards
        → length (forwarded_text b m source [] uri listen branch absent) ≤ 8192
        → (w : Incoming) × IsForwarded b m source uri listen branch absent (forwarded_text b m source [] uri listen branch absent) w }
{}

/// The request that the proxy forwards with edits of a script reads, where the text with all edits but the line Via reads as a
/// request with at most 127 fields, the first Via field of that request begins where the line is put in (edits of a script
/// may break these), and the whole has at most 8,192 bytes: with the proxy's Via on top, and all else as it is in that text.
pub fn a_forwarded_request_with_edits_reads()
    ensures { (b : List ℕ) (m : Incoming) (source : Address) (edits : List Edit) (uri : List ℕ) (listen : Address) (branch : List ℕ) (absent : ℕ) (t : Incoming)
        → Reads b m → IsOwn listen branch → starts_with nat_eq branch (codes "z9hG4bK") ≡ true
        → let text = take m.end b in
        let others = other_edits b m source edits uri absent in
        let front = before_place text others (place_of (first kind.Via m.head.fields.items) (m.head.start.to + 2)) in
        Reads (edited text others) t → IsRequest t.start → place_of (first kind.Via t.head.fields.items) (t.head.start.to + 2) ≡ length front
        → length t.head.fields.items ≤ 127 → length (forwarded_text b m source edits uri listen branch absent) ≤ 8192
        → (w : Incoming) × IsUnderVia (edited text others) t listen branch (forwarded_text b m source edits uri listen branch absent) w }
{}

/// The ACK that the proxy forwards without a transaction and without edits of a script reads, under the same premises: as
/// a forwarded request whose branch is `z9hG4bKsl.` and the branch of the top Via value without its cookie.
pub fn a_stateless_ack_reads()
    ensures { (b : List ℕ) (m : Incoming) (source : Address) (uri : List ℕ) (listen : Address) (absent : ℕ) → Reads b m
        → IsRequest m.start → source.port < 2 ^ 16 → IsWord Visible uri → listen.ip < 2 ^ 32 → 0 < listen.port → listen.port < 2 ^ 16
        → absent < 256 → length m.head.fields.items ≤ most_fields m.max_forwards
        → length (stateless_ack_text b m source [] uri listen absent) ≤ 8192
        → (w : Incoming) × IsForwarded b m source uri listen (stateless_branch b m.via.branch) absent (stateless_ack_text b m source [] uri listen absent) w }
{}

/// A response reads also with a field more before its empty line, as a challenge that the proxy adds (RFC 3261, section
/// 16.7, item 7), where it has at most 127 fields, the text then at most 8,192 bytes, and the field is one of a message that
/// reads, of a name that is read nowhere: with this field behind its others, and all else as it was.
pub fn a_response_with_a_field_more_reads()
    ensures { (b : List ℕ) (m : Incoming) (other : List ℕ) (om : Incoming) (f : Field) → Reads b m → IsResponse m.start → Reads other om
        → Contains om.head.fields.items f → f.kind ≡ kind.Other → length m.head.fields.items ≤ 127
        → length (with_field b (part other f.whole)) ≤ 8192
        → (w : Incoming) × HasField b m (part other f.whole) (with_field b (part other f.whole)) w }
{}
