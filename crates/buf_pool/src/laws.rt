//! Laws of a pool over every list of its calls. Each function states a law, and does nothing when it is called.
ghost use Rattle.std.specs.Prelude.{◌≡◌, ◌↔◌, ℕ, ◌+◌, Bool, List};
ghost use Rattle.histories.specs.Runs.{Runs, folded, EachAnswers};
ghost use Rattle.buf_pool.specs.Pools.{PoolState, size_of};
ghost use Rattle.buf_pool.specs.Records.{PoolStep, PoolAnswers, pool_after, takes, gives};
ghost use Rattle.buf_pool.specs.declared.record.PoolRecord.{PoolRecord as Recorded};
ghost use Rattle.buf_pool.specs.declared.record.PoolRecord.TheVariants as recorded;

/// For every list of calls: it is a run of the pool exactly where each answer is the one that the numbers give which the
/// calls before it left, and the pool ends with the numbers that all of them left.
pub fn a_pool_history_is_a_fold()
    ensures fold { (pool after : PoolState) (rs : List Recorded) → Runs PoolStep pool rs after
        ↔ (EachAnswers PoolAnswers pool_after pool rs × (after ≡ folded pool_after pool rs)) }
{}

/// A call of a pool has one answer, and leaves one pool.
pub fn each_pool_call_has_one_answer()
    ensures take { (pool new new' : PoolState) (taken taken' : Bool) → PoolStep pool (recorded.Take taken) new
        → PoolStep pool (recorded.Take taken') new' → (taken ≡ taken') × (new ≡ new') }
{}

/// No block is lost or made: after every list of calls the blocks that are free and those that were taken are the blocks
/// that were free and those that were given back; so it is with those that are out; and the pool's size stays.
pub fn blocks_are_conserved()
    ensures free { (pool after : PoolState) (rs : List Recorded) → Runs PoolStep pool rs after → after.free + takes rs ≡ pool.free + gives rs }
    ensures out { (pool after : PoolState) (rs : List Recorded) → Runs PoolStep pool rs after → after.out + gives rs ≡ pool.out + takes rs }
    ensures size { (pool after : PoolState) (rs : List Recorded) → Runs PoolStep pool rs after → size_of after ≡ size_of pool }
{}
