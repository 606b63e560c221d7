ghost use Rattle.std.specs.Prelude.{◌≡◌, ◌≤◌, ◌<◌, ◌+◌, true, List as ListOf, length, min, slice_get};
ghost use Rattle.std.specs.Prelude.{IfOk, IfSome, OnOk, Some, vec_len, vec_capacity};
ghost use Rattle.beam_values.specs.Marks.{marks_at};
ghost use Rattle.stateful_core.specs.Cells.{KeyCell};
ghost use Rattle.stateful_core.specs.Seen.{cell_of, cells_of};
ghost use Rattle.stateful_core.specs.declared.slot.Slot.{Slot};
ghost use Rattle.stateful_core.specs.Taking.{IsFirstReady, change, first_timer, if_due, inputs_of, is_ready, is_some};
ghost use Rattle.stateful_core.specs.Taking.{next_place, or_sooner, sooner, tried, turn_of, with_job};

use crate::putting::mark_in;
use crate::{KeyTurn, Place, Slot};
use beam_values::{Boxed, List, LogInput, Mark, NoMemory, StageMarks, Timer};
use std::alloc::Global;
use timer_core::Timers;

/// The better of two places: that of the lower node.
pub fn sooner(best: Option<Place>, place: Place) -> Option<Place>
    ensures { result ≡ sooner best place }
{
    match best {
        None => Some(place),
        Some(best) => {
            if place.node < best.node {
                Some(place)
            } else {
                Some(best)
            }
        }
    }
}

fn due(timers: &Timers, mark: Mark) -> Option<Timer>
    ensures { result ≡ if_due mark (first_timer timers.now) }
{
    timers.first_due(mark)
}

/// The job of a cell that is ready.
pub fn turn_of(
    alloc: Global,
    marks: &[StageMarks],
    slot: &Slot,
    at: u32,
    bundle: u32,
) -> Result<KeyTurn, NoMemory>
    requires ready { is_ready marks.now (cell_of slot.now) ≡ true }
    requires some { 1 ≤ bundle }
    ensures { IfOk result (λ turn. turn
        ≡ turn_of at (cell_of slot.now) (min bundle (length slot.now.waiting.items))) }
{
    Ok(KeyTurn {
        node: slot.node,
        cell: at,
        key: slot.key.copy(alloc)?,
        span: slot.span,
        inputs: Boxed::new(alloc, inputs_of(alloc, marks, slot, bundle)?)?,
        state: slot.state.share()?,
        timers: slot.timers.share()?,
        attempts: slot.attempts,
    })
}

fn inputs_of(
    alloc: Global,
    marks: &[StageMarks],
    slot: &Slot,
    bundle: u32,
) -> Result<List<LogInput>, NoMemory>
    requires ready { is_ready marks.now (cell_of slot.now) ≡ true }
    requires some { 1 ≤ bundle }
    ensures { IfOk result (λ inputs. inputs
        ≡ inputs_of (cell_of slot.now) (min bundle (length slot.now.waiting.items))) }
{
    if slot.waiting.len() > 0 {
        return slot.waiting.inputs(alloc, bundle as usize);
    }
    let Some(timer) = due(slot.timers.get(), mark_in(marks, slot.node)) else {
        unreachable!()
    };
    let mut inputs = List::new(alloc);
    inputs.push(LogInput::Fired(timer))?;
    Ok(inputs)
}

/// The cell's job is worked from now on.
pub fn start(slots: &mut Vec<Slot>, at: usize, bundle: u32)
    requires { at < length slots.old.items }
    ensures cells { cells_of slots.new.items
        ≡ change (with_job bundle) at (cells_of slots.old.items) }
    ensures len { vec_len slots.new ≡ vec_len slots.old }
    ensures capacity { vec_capacity slots.new ≡ vec_capacity slots.old }
{
    let slot = &mut slots[at];
    start_slot(slot, bundle);
}

fn start_slot(slot: &mut Slot, bundle: u32)
    ensures { cell_of slot.new ≡ with_job bundle (cell_of slot.old) }
{
    slot.live = Some((bundle as usize).min(slot.waiting.len()) as u32);
}

/// The job of a cell failed: what it was on waits first again.
pub fn give_back(slots: &mut Vec<Slot>, at: usize)
    requires within { at < length slots.old.items }
    requires few { (slot : Slot) → slice_get slots.old.items at ≡ Some slot
        → slot.attempts < 4294967295 }
    ensures cells { cells_of slots.new.items ≡ change tried at (cells_of slots.old.items) }
    ensures len { vec_len slots.new ≡ vec_len slots.old }
    ensures capacity { vec_capacity slots.new ≡ vec_capacity slots.old }
{
    let slot = &mut slots[at];
    give_back_slot(slot);
}

fn give_back_slot(slot: &mut Slot)
    requires { slot.old.attempts < 4294967295 }
    ensures { cell_of slot.new ≡ tried (cell_of slot.old) }
{
    slot.live = None;
    slot.attempts += 1;
}
