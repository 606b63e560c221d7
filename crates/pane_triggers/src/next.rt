ghost use Rattle.std.specs.Prelude.{◌≡◌, ◌↔◌, ℤ, ◌≤ℤ◌, IsSome, IsSomeAnd, MatchOption};
ghost use Rattle.beam_values.specs.Firing.{firing};
ghost use Rattle.beam_values.specs.Times.{least_time, final_mark};
ghost use Rattle.pane_triggers.specs.NextMarks.{IsNextMark, IsNeverDue, bar_from, earlier_by};
ghost use Rattle.pane_triggers.specs.NextMarks.{earliest, mark_from, next_mark};

use crate::firing::{expiry, is_enough};
use beam_values::{Bar, List, Time, Trigger};

/// The least mark, in milliseconds, at which a cell fires a pane, as long as nothing else changes.
/// Takes no memory.
pub fn next_mark(t: &Trigger, end: i64, on_time: bool, unseen: u64) -> Option<i64>
    ensures least { MatchOption result (IsNeverDue t.now end on_time unseen)
        (IsNextMark t.now end on_time unseen) }
    ensures due { (mark : ℤ) → least_time ≤ℤ mark → mark ≤ℤ final_mark
        → (IsSome (firing t.now end mark on_time unseen)
        ↔ IsSomeAnd result (λ least. least ≤ℤ mark)) }
    ensures value { result ≡ next_mark t.now end on_time unseen }
{
    if !on_time {
        if is_enough(t.early, unseen) {
            Some(Time::LEAST_MS)
        } else {
            mark_from(earliest(&t.early_bars, end, unseen, i128::from(end)))
        }
    } else if unseen == 0 {
        None
    } else if t.late_bars.is_empty() && u64::from(t.late) <= unseen {
        Some(Time::LEAST_MS)
    } else {
        mark_from(earliest(&t.late_bars, end, unseen, expiry(t, end)))
    }
}

/// The earliest of a time and those from which on the bars are met.
fn earliest(bars: &List<Bar>, end: i64, unseen: u64, time: i128) -> i128
    ensures { result ≡ earliest bars.now end unseen time }
{
    let mut earliest = time;
    for bar in bars.as_slice() {
        earliest = earlier_by(bar, end, unseen, earliest);
    }
    earliest
}

fn earlier_by(bar: &Bar, end: i64, unseen: u64, time: i128) -> i128
    ensures { result ≡ earlier_by end unseen time bar.now }
{
    if 1 <= unseen && u64::from(bar.count) <= unseen {
        time.min(bar_from(end, bar.delay))
    } else {
        time
    }
}

/// From which time on the mark is so far past the window's end. Without a delay any mark is.
fn bar_from(end: i64, delay: Option<i64>) -> i128
    ensures { result ≡ bar_from end delay }
{
    match delay {
        None => i128::from(Time::LEAST_MS),
        Some(delay) => i128::from(end) + i128::from(delay),
    }
}

/// The least mark from a time on.
fn mark_from(time: i128) -> Option<i64>
    ensures { result ≡ mark_from time }
{
    i64::try_from(time.max(i128::from(Time::LEAST_MS))).ok()
}
