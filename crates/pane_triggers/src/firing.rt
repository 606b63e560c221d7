ghost use Rattle.std.specs.Prelude.{◌≡◌, ◌+ℤ◌, ◌-ℤ◌};
ghost use Rattle.beam_values.specs.Firing.{firing, is_early_due, is_enough, is_expired};
ghost use Rattle.beam_values.specs.Firing.{is_late_due, is_late_enough};
ghost use Rattle.pane_triggers.specs.Fires.{timing_of};

use crate::answer::Fire;
use beam_values::{Mark, Trigger, met_after};

/// Which pane a cell fires at a mark (The Dataflow Model, triggers). `end` is that of its window,
/// `on_time` says whether an earlier commit fired its on-time pane, and `unseen` counts the entries that
/// no pane has shown. Takes no memory.
pub fn fire(t: &Trigger, end: i64, m: Mark, on_time: bool, unseen: u64) -> Fire
    ensures { timing_of result ≡ firing t.now end m on_time unseen }
{
    if on_time {
        if is_late_due(t, end, m, unseen) {
            Fire::Late
        } else {
            Fire::Nothing
        }
    } else if end <= m.ms() {
        Fire::OnTime
    } else if is_early_due(t, end, m, unseen) {
        Fire::Early
    } else {
        Fire::Nothing
    }
}

/// Whether an element whose own window ends at `end` comes too late for a mark (Beam Programming Guide,
/// Handling late data). Takes no memory.
pub fn is_dropped(t: &Trigger, end: i64, before: Mark) -> bool
    ensures { result ≡ is_expired t.now end before }
{
    expiry(t, end) <= i128::from(before.ms())
}

/// Whether as many entries are unseen as `count` asks for. Without a count it never is enough.
pub fn is_enough(count: Option<u32>, unseen: u64) -> bool
    ensures { result ≡ is_enough count unseen }
{
    match count {
        Some(count) => u64::from(count) <= unseen,
        None => false,
    }
}

/// The end and the lateness, which 64 bits may not hold.
pub fn expiry(t: &Trigger, end: i64) -> i128
    ensures { result ≡ end +ℤ t.now.lateness }
{
    i128::from(end) + i128::from(t.lateness)
}

fn is_early_due(t: &Trigger, end: i64, m: Mark, unseen: u64) -> bool
    ensures { result ≡ is_early_due t.now end m unseen }
{
    is_enough(t.early, unseen) || (1 <= unseen && met_after(&t.early_bars, unseen, past(end, m)))
}

fn is_late_due(t: &Trigger, end: i64, m: Mark, unseen: u64) -> bool
    ensures { result ≡ is_late_due t.now end m unseen }
{
    1 <= unseen && (is_late_enough(t, end, m, unseen) || is_dropped(t, end, m))
}

fn is_late_enough(t: &Trigger, end: i64, m: Mark, unseen: u64) -> bool
    ensures { result ≡ is_late_enough t.now (m -ℤ end) unseen }
{
    if t.late_bars.is_empty() {
        u64::from(t.late) <= unseen
    } else {
        met_after(&t.late_bars, unseen, past(end, m))
    }
}

/// How far a mark is past the window's end, which 64 bits may not hold.
fn past(end: i64, m: Mark) -> i128
    ensures { result ≡ m -ℤ end }
{
    i128::from(m.ms()) - i128::from(end)
}
