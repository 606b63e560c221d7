//! What normal forms mean to a reader. The function does nothing: its contract is the law.

ghost use Rattle.std.specs.Prelude.{◌≡◌, ◌≤◌, ℕ, ℤ, List, true};
ghost use Rattle.beam_values.specs.Checked.{are_bars_allowed};
ghost use Rattle.beam_values.specs.Firing.{met};
ghost use Rattle.beam_values.specs.declared.plan.Bar.{Bar};

/// Staircases of which a bar is met alike, wherever something is unseen, are the same. So trees that
/// hold alike have one normal form, whatever their own form is.
pub fn staircases_met_alike_are_the_same()
    ensures { (bars others : List Bar) (least most : ℤ)
        → are_bars_allowed least most bars ≡ true → are_bars_allowed least most others ≡ true
        → ((unseen : ℕ) (past : ℤ) → 1 ≤ unseen → met bars unseen past ≡ met others unseen past)
        → bars ≡ others }
{}
