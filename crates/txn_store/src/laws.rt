//! Laws of an index over every list of its calls. Each function states a law, and does nothing when it is called.
ghost use Rattle.std.specs.Prelude.{◌≡◌, ◌↔◌, ℕ, Option, Ok, List, length};
ghost use Rattle.histories.specs.Runs.{Runs, folded, EachAnswers};
ghost use Rattle.server_key.specs.declared.key.Key.{Key as TransactionKey};
ghost use Rattle.txn_store.specs.Places.{Places, EachKeyIsOnce, vacant_places};
ghost use Rattle.txn_store.specs.Records.{IndexStep, IndexAnswers, places_after};
ghost use Rattle.txn_store.specs.declared.index.IndexEnd.{IndexEnd as End};
ghost use Rattle.txn_store.specs.declared.record.IndexRecord.{IndexRecord as Recorded};
ghost use Rattle.txn_store.specs.declared.record.IndexRecord.TheVariants as recorded;

/// For every list of calls: it is a run of the index exactly where each answer is one that the places give which the calls
/// before it left, and the index ends with the places that all of them left. No slot is added or lost.
pub fn a_history_is_a_fold()
    ensures fold { (places after : Places) (rs : List Recorded) → Runs IndexStep places rs after
        ↔ (EachAnswers IndexAnswers places_after places rs × (after ≡ folded places_after places rs)) }
    ensures slots { (places after : Places) (rs : List Recorded) → Runs IndexStep places rs after → length after ≡ length places }
{}

/// From an index in which no key is held twice no call makes one held twice; a new index is such a one.
pub fn no_key_is_held_twice()
    ensures first { (slots : ℕ) → EachKeyIsOnce (vacant_places slots) }
    ensures stays { (places after : Places) (rs : List Recorded) → EachKeyIsOnce places → Runs IndexStep places rs after → EachKeyIsOnce after }
{}

/// A claim that finds memory, and a look-up, have one answer, and leave one index.
pub fn each_call_has_one_answer()
    ensures claim { (places new new' : Places) (key : TransactionKey) (end end' : End) → EachKeyIsOnce places
        → IndexStep places (recorded.Claim key (Ok end)) new → IndexStep places (recorded.Claim key (Ok end')) new' → (end ≡ end') × (new ≡ new') }
    ensures find { (places new new' : Places) (key : TransactionKey) (at at' : Option (ℕ × ℕ)) → EachKeyIsOnce places
        → IndexStep places (recorded.Find key at) new → IndexStep places (recorded.Find key at') new' → (at ≡ at') × (new ≡ new') }
{}
