ghost use Rattle.std.specs.Prelude.{◌≡◌, ℕ, ◌≤◌, ◌<◌, ◌+◌, ◌-◌, [], ◌∷◌, ◌++◌, true, List as ListOf, length, drop, slice_get, unwrap_or};
ghost use Rattle.std.specs.Prelude.{Option, Some, None, not, option_to_list};
ghost use Rattle.std.specs.List.{filter};
ghost use Rattle.std.specs.VecDeque.{deque_capacity, deque_len};
ghost use Rattle.std.specs.Int.{int_max};
ghost use Rattle.beam_values.specs.Marks.{marks_at};
ghost use Rattle.beam_values.specs.Nodes.{is_stateful};
ghost use Rattle.beam_values.specs.declared.arrival.Arrival.{Arrival};
ghost use Rattle.stateful_core.specs.Names.{AreRoomy, AreRoutes, names_of};
ghost use Rattle.stateful_core.specs.Opening.{CanFinish, IsAdded, IsMore, done_of, put_all, put_one};
ghost use Rattle.beam_model.specs.Holds.{arrival_hold};
ghost use Rattle.stateful_core.specs.Placing.{finish, waits, with_done, with_waiting};
ghost use Rattle.beam_values.specs.declared.marks.StageMarks.{StageMarks};
ghost use Rattle.stateful_core.specs.Seen.{cell_of, cells_of};
ghost use Rattle.stateful_core.specs.Trees.{AreTrees};
ghost use Rattle.stateful_core.specs.declared.slot.Slot.{Slot};

use crate::finding::is_stateful;
use crate::trees::renew_at;
use crate::{KeyDone, NodeTree, Slot, Waiting};
use beam_values::{Arrival, List, LogEntry, Mark, Plan, RoomyList, StageMarks};
use std::collections::VecDeque;

/// The mark after a node; FINAL where there is no such node.
pub fn mark_out(marks: &[StageMarks], node: u32) -> Mark
    ensures { result ≡ (marks_at marks.now node).mark_out }
{
    match marks.get(node as usize) {
        Some(marks) => marks.mark_out,
        None => Mark::FINAL,
    }
}

/// The mark into a node; FINAL where there is no such node.
pub fn mark_in(marks: &[StageMarks], node: u32) -> Mark
    ensures { result ≡ (marks_at marks.now node).mark_in }
{
    match marks.get(node as usize) {
        Some(marks) => marks.mark_in,
        None => Mark::FINAL,
    }
}

/// The mark at which an arrival holds its node back.
pub fn arrival_hold(before: &[StageMarks], arrival: &Arrival) -> Mark
    ensures { result ≡ (arrival_hold before.now arrival.now).mark }
{
    Mark::at(arrival.element.time).max(mark_out(before, arrival.node))
}

/// An arrival at a Stateful node waits at its cell, which has the first of these numbers, where room is kept;
/// another is answered.
pub fn put(
    plan: &Plan,
    before: &[StageMarks],
    slots: &mut [Slot],
    trees: &mut Vec<NodeTree>,
    routes: &mut VecDeque<u32>,
    arrival: Arrival,
) -> Option<Arrival>
    requires routed { (rest : ListOf Arrival) × AreRoutes plan.now (names_of (cells_of slots.old))
        (arrival ∷ rest) routes.old.items }
    requires roomy { AreRoomy 0 routes.old.items slots.old }
    ensures cells { cells_of slots.new ≡ put_one plan.now before.now (cells_of slots.old) arrival }
    ensures routed { (rest : ListOf Arrival) → AreRoutes plan.now (names_of (cells_of slots.old))
        (arrival ∷ rest) routes.old.items
        → AreRoutes plan.now (names_of (cells_of slots.new)) rest routes.new.items }
    ensures roomy { AreRoomy 0 routes.new.items slots.new }
    ensures due { AreTrees trees.old.items (cells_of slots.old)
        → AreTrees trees.new.items (cells_of slots.new) }
    ensures sized { length slots.new ≡ length slots.old }
    ensures left { option_to_list result
        ≡ filter (λ a. not (is_stateful plan.now a.node)) (arrival ∷ []) }
{
    if !is_stateful(plan, arrival.node) {
        return Some(arrival);
    }
    let hold = arrival_hold(before, &arrival);
    let Some(at) = routes.pop_front() else {
        unreachable!()
    };
    let Arrival { element, .. } = arrival;
    add_at(slots, at as usize, Waiting { element, hold });
    renew_at(trees, slots, at as usize);
    None
}

fn add_at(slots: &mut [Slot], at: usize, waiting: Waiting)
    requires within { at < length slots.old }
    requires room { (slot : Slot) → slice_get slots.old at ≡ Some slot → 0 < slot.waiting.room }
    ensures { (slot : Slot) → slice_get slots.old at ≡ Some slot → IsAdded slots.old at slot waiting slots.new }
{
    let slot = &mut slots[at];
    add(slot, waiting);
}

fn add(slot: &mut Slot, waiting: Waiting)
    requires { 0 < slot.old.waiting.room }
    ensures { IsMore slot.old waiting slot.new }
{
    slot.waiting.add_kept(waiting);
}

/// Each arrival in turn. Those at other nodes are answered in their order, where they lay: the first of the
/// list is taken out, and goes behind the last if it is left.
pub fn put_all(
    plan: &Plan,
    before: &[StageMarks],
    slots: &mut [Slot],
    trees: &mut Vec<NodeTree>,
    mut routes: VecDeque<u32>,
    arrivals: List<Arrival>,
) -> List<Arrival>
    requires routed { AreRoutes plan.now (names_of (cells_of slots.old)) arrivals routes.items }
    requires roomy { AreRoomy 0 routes.items slots.old }
    ensures cells { cells_of slots.new ≡ put_all plan.now before.now arrivals (cells_of slots.old) }
    ensures sized { length slots.new ≡ length slots.old }
    ensures left { result ≡ filter (λ a. not (is_stateful plan.now a.node)) arrivals }
    ensures due { AreTrees trees.old.items (cells_of slots.old)
        → AreTrees trees.new.items (cells_of slots.new) }
{
    let mut turning = VecDeque::from_vec(arrivals.into_vec());
    for _turn in 0..turning.len() {
        let Some(arrival) = turning.pop_front() else {
            unreachable!()
        };
        let left = put(plan, before, slots, trees, &mut routes, arrival);
        put_behind(&mut turning, left);
    }
    List::from_vec(turning.into_vec())
}

fn put_behind(arrivals: &mut VecDeque<Arrival>, left: Option<Arrival>)
    requires { deque_len arrivals.old < deque_capacity arrivals.old }
    ensures items { arrivals.new.items ≡ arrivals.old.items ++ option_to_list left }
    ensures len { deque_len arrivals.new ≤ deque_len arrivals.old + 1 }
    ensures capacity { deque_capacity arrivals.new ≡ deque_capacity arrivals.old }
{
    if let Some(arrival) = left {
        arrivals.push_back_reserved(arrival);
    }
}

/// The job of a cell is done: its entries are logged, and what it was on no longer waits.
pub fn finish(slots: &mut [Slot], before: &[StageMarks], done: KeyDone)
    requires { CanFinish slots.old (done_of done) }
    ensures cells { cells_of slots.new ≡ finish before.now (Some (done_of done)) (cells_of slots.old) }
    ensures roomy { (routes : ListOf ℕ) → AreRoomy 0 routes slots.old → AreRoomy 0 routes slots.new }
    ensures sized { length slots.new ≡ length slots.old }
{
    let slot = &mut slots[done.cell as usize];
    let mark = mark_out(before, slot.node);
    finish_slot(slot, mark, done);
}

fn finish_slot(slot: &mut Slot, mark: Mark, done: KeyDone)
    requires { length done.entries ≤ slot.old.entries.room }
    ensures cell { (before : ListOf StageMarks) → mark ≡ (marks_at before slot.old.node).mark_out
        → cell_of slot.new ≡ with_done before (done_of done) (cell_of slot.old) }
    ensures room { slot.old.waiting.room ≤ slot.new.waiting.room }
{
    let KeyDone {
        state,
        timers,
        entries,
        ..
    } = done;
    slot.timer_holds = slot
        .timer_holds
        .after(mark, slot.timers.get(), timers.get());
    slot.waiting.remove_oldest(slot.live.unwrap_or(0) as usize);
    put_entries(&mut slot.entries, entries);
    slot.state = state;
    slot.timers = timers;
    slot.live = None;
    slot.attempts = 0;
}

fn put_entries(entries: &mut RoomyList<LogEntry>, more: List<LogEntry>)
    requires { length more ≤ entries.old.room }
    ensures { entries.new.items ≡ entries.old.items ++ more }
{
    for entry in more.into_vec() {
        put_entry(entries, entry);
    }
}

fn put_entry(entries: &mut RoomyList<LogEntry>, entry: LogEntry)
    requires { 0 < entries.old.room }
    ensures items { entries.new.items ≡ entries.old.items ++ entry ∷ [] }
    ensures used { entries.old.room ≤ entries.new.room + 1 }
{
    let Ok(()) = entries.push(entry) else {
        unreachable!()
    };
}
