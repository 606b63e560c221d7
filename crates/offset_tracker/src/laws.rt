//! What the rules of a tracker mean to a reader. Each function does nothing: its contract is the law.

ghost use Rattle.std.specs.Prelude.{◌≡◌, ◌+◌, ◌≤◌, ℕ, Some, IfSome, Option};
ghost use Rattle.beam_values.specs.Intervals.{Offsets, times_in};
ghost use Rattle.beam_values.specs.Tracking.{Tracked, IsLater, split_point_of, residual, primary};

/// The primary and the residual of a split partition the restriction: each of its offsets lies in
/// exactly one of the two, and neither has another offset.
pub fn a_split_partitions_the_restriction()
    ensures { (t : Tracked) (num den p : ℕ) (part : Offsets)
        → IfSome t.attempted (λ last. t.range.from ≤ last)
        → residual (split_point_of t num den) t.range.to ≡ Some part
        → times_in t.range p
        ≡ times_in (primary t (split_point_of t num den)).range p + times_in part p }
{}

/// A split gives no attempted position away: its residual begins above the last one.
pub fn a_split_keeps_what_was_attempted()
    ensures { (t : Tracked) (num den : ℕ) (part : Offsets)
        → residual (split_point_of t num den) t.range.to ≡ Some part
        → IsLater t.attempted part.from }
{}
