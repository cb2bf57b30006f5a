//! Laws of edited texts, for the layers above. Each function states a law, and does nothing when it is called.
ghost use Rattle.std.specs.Prelude.{◌≡◌, ◌≤◌, ◌+◌, ◌-◌, ℕ, List, [], ◌∷◌, ◌++◌, length, take, drop, slice_range, All};
ghost use Rattle.std.specs.List.{sum_by};
ghost use Rattle.sip_words.specs.declared.Span.{Span};
ghost use Rattle.msg_edits.specs.declared.parts.Edit.{Edit};
ghost use Rattle.msg_edits.specs.declared.parts.Edit.TheVariants.{Cut, Insert};
ghost use Rattle.msg_edits.specs.Edited.{inserted_at, edited_from, edited};
ghost use Rattle.msg_edits.specs.Causes.{MeetsCut};
ghost use Rattle.msg_edits.specs.Laws.{LiesWithin, IsCutOnce, cut_length, insert_length, left_by_cut, IsElsewhere};

/// No edits leave the text as it is.
pub fn no_edits_leave_the_text()
    ensures { (text : List ℕ) → edited text [] ≡ text }
{}

/// One insert more puts its text behind what the text before its place became, inserts at the place included.
pub fn an_insert_stands_at_its_place()
    ensures { (text : List ℕ) (edits : List Edit) (place : ℕ) (new : List ℕ) → place ≤ length text
        → let old = edited text edits in
        let n = length (edited (take place text) edits) in
        edited text (edits ++ Insert place new ∷ []) ≡ take n old ++ new ++ drop n old }
{}

/// One cut more takes the bytes of its span away, and leaves what is inserted before them, and all else.
pub fn a_cut_takes_its_bytes_away()
    ensures { (text : List ℕ) (edits : List Edit) (at : Span) → LiesWithin text (Cut at)
        → let front = edited_from edits 0 (take at.from text) in
        let bytes = slice_range text at.from at.to in
        let back = edited_from edits at.to (drop at.to text) ++ inserted_at edits (length text) in
        (edited text edits ≡ front ++ edited_from edits at.from bytes ++ back)
        × (edited text (edits ++ Cut at ∷ []) ≡ front ++ left_by_cut edits at.from bytes ++ back) }
{}

/// A span that is cut, with a text put in its place.
pub fn a_span_is_replaced()
    ensures { (text : List ℕ) (at : Span) (new : List ℕ) → LiesWithin text (Cut at)
        → edited text (Cut at ∷ Insert at.from new ∷ []) ≡ take at.from text ++ new ++ drop at.to text }
{}

/// The length of the edited text, where every edit lies within the text and no byte is cut twice.
pub fn the_lengths_add_up()
    ensures { (text : List ℕ) (edits : List Edit) → All (LiesWithin text) edits → IsCutOnce edits
        → length (edited text edits) + sum_by cut_length edits ≡ length text + sum_by insert_length edits }
{}

/// What two parts of a text become stands side by side.
pub fn a_text_is_its_parts()
    ensures { (text : List ℕ) (edits : List Edit) (i : ℕ) → i ≤ length text
        → edited text edits ≡ edited_from edits 0 (take i text) ++ edited_from edits i (drop i text) ++ inserted_at edits (length text) }
{}

/// One edit more changes nothing in a part where it has no byte and no place.
pub fn an_edit_elsewhere_changes_nothing()
    ensures { (edits : List Edit) (edit : Edit) (i : ℕ) (bytes : List ℕ) → IsElsewhere i (i + length bytes) edit
        → edited_from (edits ++ edit ∷ []) i bytes ≡ edited_from edits i bytes }
{}
