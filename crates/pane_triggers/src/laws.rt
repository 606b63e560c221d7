//! What the firing table means to a layer that keeps cells by their next marks. Each function does
//! nothing: its contract is the law.

ghost use Rattle.std.specs.Prelude.{◌≡◌, ◌↔◌, ℕ, ℤ, ◌≤ℤ◌, Bool, true, false, Some, IsSome};
ghost use Rattle.std.specs.Prelude.{[], IsSomeAnd, MatchOption, None};
ghost use Rattle.beam_values.specs.Firing.{firing, is_expired};
ghost use Rattle.beam_values.specs.Times.{least_time, final_mark};
ghost use Rattle.beam_values.specs.declared.element.Timing.TheVariants.{OnTime, Late};
ghost use Rattle.beam_values.specs.declared.plan.Trigger.{Trigger};
ghost use Rattle.pane_triggers.specs.NextMarks.{IsNextMark, IsNeverDue, next_mark};

/// A pane that is due at a mark is due at each later one, and so is what comes too late. Only an early
/// pane may give way, to the one on time.
pub fn what_is_due_stays_due()
    ensures fires { (t : Trigger) (end mark later : ℤ) (on_time : Bool) (unseen : ℕ) → mark ≤ℤ later
        → IsSome (firing t end mark on_time unseen) → IsSome (firing t end later on_time unseen) }
    ensures on_time { (t : Trigger) (end mark later : ℤ) (unseen : ℕ) → mark ≤ℤ later
        → firing t end mark false unseen ≡ Some OnTime
        → firing t end later false unseen ≡ Some OnTime }
    ensures late { (t : Trigger) (end mark later : ℤ) (unseen : ℕ) → mark ≤ℤ later
        → firing t end mark true unseen ≡ Some Late → firing t end later true unseen ≡ Some Late }
    ensures expired { (t : Trigger) (end mark later : ℤ) → mark ≤ℤ later
        → is_expired t end mark ≡ true → is_expired t end later ≡ true }
{}

/// A cell fires a pane at a mark exactly where its next mark is that or a lower one.
pub fn cells_are_due_from_their_next_mark_on()
    ensures { (t : Trigger) (end mark : ℤ) (on_time : Bool) (unseen : ℕ)
        → least_time ≤ℤ mark → mark ≤ℤ final_mark
        → (IsSome (firing t end mark on_time unseen)
        ↔ IsSomeAnd (next_mark t end on_time unseen) (λ least. least ≤ℤ mark)) }
{}

/// The next mark is the least at which the table fires a pane, and there is none where it never does.
pub fn the_next_mark_is_the_least()
    ensures { (t : Trigger) (end : ℤ) (on_time : Bool) (unseen : ℕ)
        → MatchOption (next_mark t end on_time unseen)
        (IsNeverDue t end on_time unseen) (IsNextMark t end on_time unseen) }
{}

/// Where a trigger has no early count and no early bar, the next mark of a cell whose on-time pane is yet to
/// fire is one, however many entries are unseen.
pub fn unseen_entries_move_no_next_mark_without_an_early_count()
    ensures { (t : Trigger) (end : ℤ) (few more : ℕ) → t.early ≡ None → t.early_bars ≡ []
        → next_mark t end false few ≡ next_mark t end false more }
{}
