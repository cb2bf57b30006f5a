//! Laws of a wheel over every list of its calls. Each function states a law, and does nothing when it is called.
ghost use Rattle.std.specs.Prelude.{◌≡◌, ◌↔◌, ℕ, Option, List, length};
ghost use Rattle.histories.specs.Runs.{Runs, folded, EachAnswers};
ghost use Rattle.timer_wheel.specs.Timers.{Timers};
ghost use Rattle.timer_wheel.specs.Records.{WheelStep, WheelAnswers, timers_after};
ghost use Rattle.timer_wheel.specs.declared.record.WheelRecord.{WheelRecord as Recorded};
ghost use Rattle.timer_wheel.specs.declared.record.WheelRecord.TheVariants as recorded;

/// For every list of calls: it is a run of the wheel exactly where each answer is the one that the timers give which the
/// calls before it left, and the wheel ends with the timers that all of them left. No slot is added or lost.
pub fn a_history_is_a_fold()
    ensures fold { (timers after : Timers) (rs : List Recorded) → Runs WheelStep timers rs after
        ↔ (EachAnswers WheelAnswers timers_after timers rs × (after ≡ folded timers_after timers rs)) }
    ensures slots { (timers after : Timers) (rs : List Recorded) → Runs WheelStep timers rs after → length after ≡ length timers }
{}

/// A pop and a look have one answer, and leave one wheel.
pub fn each_call_has_one_answer()
    ensures pop { (timers new new' : Timers) (now : ℕ) (popped popped' : Option (ℕ × ℕ × ℕ)) → WheelStep timers (recorded.Pop now popped) new
        → WheelStep timers (recorded.Pop now popped') new' → (popped ≡ popped') × (new ≡ new') }
    ensures next { (timers new new' : Timers) (due due' : Option ℕ) → WheelStep timers (recorded.Next due) new
        → WheelStep timers (recorded.Next due') new' → (due ≡ due') × (new ≡ new') }
{}
