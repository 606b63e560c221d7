//! What the windows of a time are to a reader. Each function does nothing: its contract is the law.

ghost use Rattle.std.specs.Prelude.{ℤ, ◌<ℤ◌, length, All, Contains};
ghost use Rattle.std.specs.List.{AllAdjacentBelow};
ghost use Rattle.beam_values.specs.Intervals.{Interval};
ghost use Rattle.beam_values.specs.Times.{IsTime};
ghost use Rattle.beam_values.specs.Windows.{HoldsTime, IsWindow, windows_of};
ghost use Rattle.beam_values.specs.declared.plan.Strategy.{Strategy};
ghost use Rattle.beam_values.specs.Strategies.{IsAllowed};

/// Each window that a time is given is a span of the strategy's kind, and holds the time.
pub fn windows_hold_their_time()
    ensures of_the_kind { (s : Strategy) (time : ℤ) → IsAllowed s
        → All (IsWindow s time) (windows_of s time) }
    ensures hold { (s : Strategy) (time : ℤ) → IsAllowed s → IsTime time
        → All (λ span. HoldsTime span time) (windows_of s time) }
{}

/// Each span of the strategy's kind for a time is among the windows that the time is given.
pub fn every_window_is_given()
    ensures { (s : Strategy) (time : ℤ) → IsAllowed s → (span : Interval)
        → IsWindow s time span → Contains (windows_of s time) span }
{}

/// The windows of a time come by their starts, and no two of them start at one time.
pub fn windows_ascend()
    ensures { (s : Strategy) (time : ℤ) → IsAllowed s
        → AllAdjacentBelow (λ a b. a.start <ℤ b.start)
        (windows_of s time) (length (windows_of s time)) }
{}
