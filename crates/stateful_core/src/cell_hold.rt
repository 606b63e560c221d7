ghost use Rattle.std.specs.Prelude.{◌≡◌, ◌<◌, ℕ, fold, length};
ghost use Rattle.beam_model.specs.Holds.{least_hold};
ghost use Rattle.stateful_core.specs.Cells.{cell_holds};
ghost use Rattle.stateful_core.specs.Least.{holds_from};
ghost use Rattle.stateful_core.specs.Minima.{lowered};
ghost use Rattle.stateful_core.specs.Opening.{done_of};
ghost use Rattle.stateful_core.specs.Placing.{with_done};
ghost use Rattle.stateful_core.specs.Seen.{cell_of};

use crate::minima::lowered;
use crate::putting::mark_out;
use crate::{KeyDone, Queue, Slot, TimerHolds};
use beam_values::{Mark, StageMarks};

/// The least mark at which a cell holds its node back, or FINAL.
pub fn cell_hold(slot: &Slot) -> Mark
    ensures { result ≡ least_hold (cell_holds (cell_of slot.now)) slot.now.node }
{
    hold_from(&slot.waiting, 0, &slot.timer_holds)
}

/// The same once the job of the cell is done.
pub fn hold_after(before: &[StageMarks], slot: &Slot, done: &KeyDone) -> Mark
    ensures { result ≡ least_hold (cell_holds (with_done before.now (done_of done.now)
        (cell_of slot.now))) slot.now.node }
{
    let from = slot.live.unwrap_or(0) as usize;
    let mark = mark_out(before, slot.node);
    let timers = slot
        .timer_holds
        .after(mark, slot.timers.get(), done.timers.get());
    hold_from(&slot.waiting, from, &timers)
}

/// The least hold of timers and of the elements behind the first so many.
fn hold_from(waiting: &Queue, from: usize, timers: &TimerHolds) -> Mark
    ensures { (node : ℕ)
        → result ≡ least_hold (holds_from node from waiting.now.items timers.now) node }
{
    lower_timers(waiting.lowered(Mark::FINAL, from), timers)
}

fn lower_timers(mark: Mark, timers: &TimerHolds) -> Mark
    ensures { result ≡ fold lowered mark timers.now }
{
    let mut least = mark;
    for name in 0..8u8 {
        least = lowered(least, timers.get(name));
    }
    least
}
