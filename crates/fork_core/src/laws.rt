//! What holds of the choices: the preference is an order, so that there is one best response, and the choices as functions of the
//! history are those that the relations name.

ghost use Rattle.std.specs.Prelude.{◌≡◌, ◌≢◌, ◌⊎◌, ◌↔◌, ℕ, Bool, Some, IsNone, IsTrue, List};
ghost use Rattle.fork_core.specs.declared.context.Forwarding.TheVariants.{Now, Kept};
ghost use Rattle.fork_core.specs.Responses.{BranchResponse, History, IsKeptNow};
ghost use Rattle.fork_core.specs.Preference.{Preferred};
ghost use Rattle.fork_core.specs.Choices.{AreAllNumbers, AreOfItsBranches, GoesOnNow, HasFailed, IsBest, IsToCancel, IsToKeep, Joins};
ghost use Rattle.fork_core.specs.Decisions.{best_of, challenges, forwarding_of, has_failed, to_cancel};

/// The preference is a strict total order on the responses of different branches.
pub fn preference_is_a_strict_order()
    ensures irreflexive { (c b : ℕ) → ¬ Preferred c b c b }
    ensures transitive { (c b d e f g : ℕ) → Preferred c b d e → Preferred d e f g → Preferred c b f g }
    ensures total { (c b d e : ℕ) → b ≢ e → Preferred c b d e ⊎ Preferred d e c b }
{}

/// A round has one best response at most.
pub fn one_best_response()
    ensures { (h : History) (a b : BranchResponse) → IsBest h a → IsBest h b → a ≡ b }
{}

/// The best response as a function is the one that the relation names, and there is none exactly where none of the round is kept.
pub fn best_of_is_the_best()
    ensures some { (h : History) (r : BranchResponse) → (best_of h ≡ Some r) ↔ IsBest h r }
    ensures none { (h : History) → IsNone (best_of h) ↔ ((r : BranchResponse) → ¬ IsKeptNow h r) }
{}

/// The branches to cancel as a function are all those that the relation names, in order, and no other list is.
pub fn to_cancel_are_all()
    ensures { (h : History) (branches : List ℕ) → (branches ≡ to_cancel h) ↔ AreAllNumbers (IsToCancel h) branches }
{}

/// The branches whose challenge joins the chosen one as a function are all those that the relation names, in order, and no other
/// list is.
pub fn challenges_are_all()
    ensures { (h : History) (chosen : ℕ) (branches : List ℕ) → AreOfItsBranches h →
        (branches ≡ challenges h chosen) ↔ AreAllNumbers (Joins h chosen) branches }
{}

/// That a round has failed as a function is what the relation says.
pub fn has_failed_is_failed()
    ensures { (h : History) → IsTrue (has_failed h) ↔ HasFailed h }
{}

/// What becomes of a response as a function is what the relations say.
pub fn forwarding_is_decided()
    ensures now { (h : History) (branch code : ℕ) (answered : Bool) →
        (forwarding_of h branch code answered ≡ Now) ↔ GoesOnNow h code answered }
    ensures kept { (h : History) (branch code : ℕ) (answered : Bool) →
        (forwarding_of h branch code answered ≡ Kept) ↔ IsToKeep h branch code }
{}
