//! What the definitions mean to a reader. Each function does nothing: its contract is the law.

ghost use Rattle.std.specs.Prelude.{◌≡◌, ℕ, List};
ghost use Rattle.beam_command.specs.Drilling.{IsDrillText};

use beam_model::plain_grouping_at_a_barrier_is_one_bag;

/// What a drill prints is a function of its two numbers: there is one such text.
pub fn a_drill_prints_one_text()
    ensures { (count number : ℕ) (text other : List ℕ)
        → IsDrillText count number text → IsDrillText count number other → text ≡ other }
{
    plain_grouping_at_a_barrier_is_one_bag();
}
