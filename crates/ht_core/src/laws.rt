//! Laws of tables, for operators and for the layers above. Each function states a law over all tables, and does nothing when
//! it is called.

ghost use Rattle.std.specs.Prelude.{◌≡◌, ◌≢◌, ◌⊎◌, ℕ, ◌+◌, ◌*◌, ◌^◌, ◌<◌, ◌≤◌, max, ℤ, pos, ◌+ℤ◌, Bool, true, false, List, Some, None, IsSome, Ok, Result};
ghost use Rattle.std.specs.declared.alloc.AllocError.{AllocError};
ghost use Rattle.std.specs.FinMap as map;
ghost use Rattle.pv_values.specs.declared.value.Val.{Val};
ghost use Rattle.pv_values.specs.declared.value.Val.TheVariants as val;
ghost use Rattle.pv_values.specs.Numbers.{in_range};
ghost use Rattle.ht_core.specs.declared.operation.TabOp.{TabOp};
ghost use Rattle.ht_core.specs.declared.operation.TabOp.TheVariants as op;
ghost use Rattle.ht_core.specs.declared.operation.TabReply.{TabReply};
ghost use Rattle.ht_core.specs.declared.operation.TabReply.TheVariants as reply;
ghost use Rattle.ht_core.specs.declared.operation.TabRecord.{TabRecord};
ghost use Rattle.ht_core.specs.Tables.{TableState, IsStep, at, key_of, is_refusal, initial_reply};

/// Reset leaves nothing.
pub fn reset_leaves_nothing()
    ensures { (patterns : List (List ℕ)) (t u : TableState) (now : ℕ) (a : TabReply) (key : List ℕ) → IsStep patterns t (record { op = op.Reset; now = now; reply = Ok a }) u
        → map.get u.items key ≡ None }
{}

/// An operation on one key leaves the item of every other key as it is at that moment.
pub fn an_operation_on_one_key_leaves_every_other()
    ensures { (patterns : List (List ℕ)) (t u : TableState) (r : TabRecord) (other : List ℕ) → IsStep patterns t r u
        → IsSome (key_of r.op) → key_of r.op ≢ Some other → map.get u.items other ≡ map.get (at r.now t).items other }
{}

/// After any answer other than Value, Done or Count, and out of memory, only the clock has risen.
pub fn a_refusal_changes_nothing()
    ensures { (patterns : List (List ℕ)) (t u : TableState) (r : TabRecord) → IsStep patterns t r u → is_refusal r.reply ≡ true → u ≡ at r.now t }
{}

/// An item that was set is read at each moment before its life has passed.
pub fn an_item_is_read_until_its_life_has_passed()
    ensures { (patterns : List (List ℕ)) (t u w : TableState) (key : List ℕ) (n : ℤ) (now later : ℕ) (a : TabReply)
        → IsStep patterns t (record { op = op.Set key (val.Int n); now = now; reply = Ok reply.Done }) u
        → IsStep patterns u (record { op = op.Get key; now = later; reply = Ok a }) w
        → max u.clock later < u.clock + 1000 * u.spec.autoexpire → a ≡ reply.Value (val.Int n) }
{}

/// It is not read once its life has passed, nor at that moment.
pub fn an_item_is_absent_once_its_life_has_passed()
    ensures { (patterns : List (List ℕ)) (t u w : TableState) (key : List ℕ) (n : ℤ) (now later : ℕ) (a : TabReply)
        → IsStep patterns t (record { op = op.Set key (val.Int n); now = now; reply = Ok reply.Done }) u
        → IsStep patterns u (record { op = op.Get key; now = later; reply = Ok a }) w
        → 0 < u.spec.autoexpire → u.clock + 1000 * u.spec.autoexpire ≤ later → later < 2 ^ 64 → a ≡ initial_reply u.spec.initval }
{}

/// A key that was counted to n is counted to n + 1 next, at each moment before its life has passed.
pub fn two_counts_count_two()
    ensures { (patterns : List (List ℕ)) (t u w : TableState) (key : List ℕ) (n m : ℤ) (now later : ℕ)
        → IsStep patterns t (record { op = op.Inc key; now = now; reply = Ok (reply.Value (val.Int n)) }) u
        → IsStep patterns u (record { op = op.Inc key; now = later; reply = Ok (reply.Value (val.Int m)) }) w
        → max u.clock later < u.clock + 1000 * u.spec.autoexpire → m ≡ n +ℤ pos 1 }
{}
