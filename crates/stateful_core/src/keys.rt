ghost use Rattle.std.specs.Prelude.{◌≡◌, ℕ, ◌≤◌, ◌<◌, ◌+◌, ◌-◌, [], ◌∷◌, ◌++◌, true, not, IfOk, OnOk, OnErr, length, map, slice_get, Some};
ghost use Rattle.std.specs.List.{filter};
ghost use Rattle.std.specs.Option.{option_map, option_copied};
ghost use Rattle.beam_values.specs.Nodes.{is_stateful};
ghost use Rattle.stateful_core.specs.Names.{AreRoomy, AreRoutes, names_of};
ghost use Rattle.stateful_core.specs.Opening.{CanFinishAny, IsPrepared, IsStanding, done_of};
ghost use Rattle.stateful_core.specs.Opening.{put_all};
ghost use Rattle.stateful_core.specs.Least.{AreLeast};
ghost use Rattle.stateful_core.specs.Placing.{finish, place};
ghost use Rattle.stateful_core.specs.Cells.{KeyCell, calls_of, key_holds, logs_of};
ghost use Rattle.stateful_core.specs.Data.{AreKeysFormed, cells_of_data, key_data_of};
ghost use Rattle.stateful_core.specs.Facts.{AreOnce};
ghost use Rattle.stateful_core.specs.Seen.{cell_of, cells_of};
ghost use Rattle.stateful_core.specs.Trees.{AreTrees, HasPlace};
ghost use Rattle.stateful_core.specs.Taking.{IsFirstReady, IsTaken, IsTakenOrNone, change, next_place, tried};
ghost use Rattle.stateful_core.specs.Taking.{with_job};
ghost use Rattle.stateful_core.specs.declared.slot.Slot.{Slot};
ghost use Rattle.std.specs.Prelude.{List as ListOf, vec_capacity, vec_len};

use crate::finding::number_of;
use crate::giving_out::all_data;
use crate::holding::least_holds;
use crate::opening::{keep_all, let_all_go};
use crate::putting::{finish, put_all};
use crate::restoring::restore_all;
use crate::routing::route_all;
use crate::taking::{give_back, start, turn_of};
use crate::trees::{grow_all, next_place, renew_at};
use crate::{KeyData, KeyDone, KeyIndex, KeyTurn, NodeTree, Place, Restored, Routed, Slot};
use beam_values::{Arrival, KeyLog, List, LogEntry, Mark, NoMemory, Plan, Span, StageMarks, Value};
use std::alloc::Global;
use std::collections::VecDeque;
use std::marker::Model;
use std::mem;

/// The key cells of all Stateful nodes, numbered by first arrival.
#[derive(Debug, Drop)]
pub struct Keys {
    slots: Vec<Slot>,
    // Leads to each of the cells and the new ones.
    index: KeyIndex,
    // Of each node when its cells are due, and where they hold it back.
    trees: Vec<NodeTree>,
    // New cells of the commit that is prepared.
    fresh: Vec<Slot>,
    // For each of its arrivals at a Stateful node, in their order, the number of the cell.
    routes: VecDeque<u32>,
    alloc: Global,
}

impl Model for Keys {
    ghost use Rattle.std.specs.Prelude.{◌-◌};
    ghost use Rattle.std.specs.Coded.{codes};
    ghost use Rattle.beam_values.specs.contracts.value.Value as value;
    ghost use Rattle.stateful_core.specs.Opening.{SeenKeys};
    ghost use Rattle.stateful_core.specs.Ready.{AreKept};
    ghost use Rattle.stateful_core.specs.Seen.{cells_of};
    ghost use Rattle.stateful_core.specs.contracts.slot.Slot as slot;

    ghost Value = { SeenKeys };

    ghost coded = { Prim.hlevel (codes, slot.the_row.coded, value.the_row.coded) };

    ghost view = { λ k. record {
      cells = cells_of k.slots.items;
      kept = record {
        slots = k.slots.items;
        room = k.slots.cap - k.slots.len;
        fresh = k.fresh.items;
        routes = k.routes.items;
      };
    } };

    ghost invariant = { λ k. AreKept k.index.numbers.places k.trees.items k.slots.items k.fresh.items };
}

impl Keys {
    /// No cell stands. Takes no memory.
    pub fn new(alloc: Global) -> Keys
        ensures { result.cells ≡ [] }
    {
        Keys {
            slots: Vec::new(alloc),
            index: KeyIndex::new(alloc),
            trees: Vec::new(alloc),
            fresh: Vec::new(alloc),
            routes: VecDeque::new(alloc),
            alloc,
        }
    }

    /// The next job: of the lowest node, and there of the lowest cell that has one. Where none has, the
    /// answer is `None`. No slot works it yet.
    pub fn next_job(&self, marks: &[StageMarks], bundle: u32) -> Result<Option<KeyTurn>, NoMemory>
        requires { 1 ≤ bundle }
        ensures { IfOk result (λ turn. (new : ListOf KeyCell)
            × IsTakenOrNone marks.now bundle self.now.cells turn new) }
    {
        let Some(place) = next_place(self.trees.as_slice(), marks) else {
            return Ok(None);
        };
        let turn = turn_at(self.alloc, self.slots.as_slice(), marks, place, bundle)?;
        Ok(Some(turn))
    }

    /// The job of a cell that [`Keys::next_job`] gave is worked from now on. Takes no memory.
    pub fn start_job(&mut self, cell: u32, bundle: u32)
        requires { cell < length self.old.cells }
        ensures { self.new.cells ≡ change (with_job bundle) cell self.old.cells }
    {
        start(&mut self.slots, cell as usize, bundle);
        renew_at(&mut self.trees, self.slots.as_slice(), cell as usize);
    }

    /// The job that [`Keys::next_job`] gives, which is worked from now on.
    pub fn take_job(
        &mut self,
        marks: &[StageMarks],
        bundle: u32,
    ) -> Result<Option<KeyTurn>, NoMemory>
        requires { 1 ≤ bundle }
        ensures ok { IfOk result (λ turn.
            IsTakenOrNone marks.now bundle self.old.cells turn self.new.cells) }
        ensures err { OnErr result (self.new ≡ self.old) }
    {
        let Some(place) = next_place(self.trees.as_slice(), marks) else {
            return Ok(None);
        };
        let turn = turn_at(self.alloc, self.slots.as_slice(), marks, place, bundle)?;
        start(&mut self.slots, place.at, bundle);
        renew_at(&mut self.trees, self.slots.as_slice(), place.at);
        Ok(Some(turn))
    }

    /// The job of a cell failed. Takes no memory.
    pub fn give_back(&mut self, cell: u32)
        requires stands { cell < length self.old.cells }
        requires few { (own : KeyCell) → slice_get self.old.cells cell ≡ Some own
            → own.attempts < 4294967295 }
        ensures { self.new.cells ≡ change tried cell self.old.cells }
    {
        give_back(&mut self.slots, cell as usize);
        renew_at(&mut self.trees, self.slots.as_slice(), cell as usize);
    }

    /// How many cells stand.
    pub fn len(&self) -> usize
        ensures is { result ≡ length self.now.cells }
        ensures few { result < 4294967296 }
    {
        self.slots.len()
    }

    /// The calls so far of the cell of a node, key and window; none where no such cell stands.
    pub fn log(&self, node: u32, key: &Value, span: Span) -> Option<&[LogEntry]>
        ensures { option_copied result ≡ calls_of node key.now span self.now.cells }
    {
        let at = number_of(
            self.alloc,
            &self.index,
            self.slots.as_slice(),
            node,
            key,
            span,
        )?;
        Some(self.slots[at].entries.as_slice())
    }

    /// The logs of all key cells, in the order of their numbers.
    pub fn into_logs(self) -> Result<List<KeyLog>, NoMemory>
        ensures { IfOk result (λ logs. logs ≡ logs_of self.cells) }
    {
        let Keys { slots, alloc, .. } = self;
        let mut logs = List::new(alloc);
        for slot in slots {
            logs.push(log_of(slot))?;
        }
        Ok(logs)
    }

    /// What all cells hold, by number. A cell whose job is worked is given out as one whose elements wait.
    pub fn key_data(&self) -> Result<List<KeyData>, NoMemory>
        ensures { IfOk result (λ keys. keys ≡ map key_data_of self.now.cells) }
    {
        all_data(self.alloc, self.slots.as_slice())
    }

    /// The cells that this data stands for, by number.
    pub fn restore(alloc: Global, keys: List<KeyData>) -> Result<Keys, NoMemory>
        requires formed { AreKeysFormed keys }
        requires once { AreOnce (cells_of_data keys) }
        ensures { IfOk result (λ restored. restored.cells ≡ cells_of_data keys) }
    {
        let Restored {
            slots,
            index,
            trees,
        } = restore_all(alloc, keys)?;
        Ok(Keys {
            slots,
            index,
            trees,
            fresh: Vec::new(alloc),
            routes: VecDeque::new(alloc),
            alloc,
        })
    }

    /// Makes all room that placing this commit needs, in the place of what was prepared before. No cell
    /// changes. Answers the least hold of each node after that, or FINAL.
    pub fn prepare(
        &mut self,
        plan: &Plan,
        done: Option<&KeyDone>,
        arrivals: &List<Arrival>,
        marks: &[StageMarks],
    ) -> Result<List<Mark>, NoMemory>
        requires { IsStanding self.old.cells (option_map done_of (option_copied done)) }
        ensures cells { self.new.cells ≡ self.old.cells }
        ensures ok { OnOk result (IsPrepared plan.now
            (option_map done_of (option_copied done.entry)) arrivals.now self.new) }
        ensures sized { IfOk result (λ least. length least ≡ length plan.now.nodes) }
        ensures least { IfOk result (λ least. AreLeast least (key_holds (place plan.now marks.now
            (option_map done_of (option_copied done.entry)) arrivals.now self.old.cells))) }
    {
        let_all_go(&mut self.slots, &self.routes);
        self.fresh = Vec::new(self.alloc);
        self.routes = VecDeque::new(self.alloc);
        let Routed { fresh, routes } = route_all(
            self.alloc,
            plan,
            &mut self.index,
            self.slots.as_slice(),
            arrivals.as_slice(),
        )?;
        has_numbers(self.slots.len(), fresh.len())?;
        let least = least_holds(
            self.alloc,
            plan,
            &mut self.trees,
            self.slots.as_slice(),
            done,
            marks,
            arrivals.as_slice(),
        )?;
        grow_all(
            self.alloc,
            &mut self.trees,
            self.slots.len(),
            fresh.as_slice(),
        )?;
        self.fresh = fresh;
        self.routes = routes;
        keep_room(&mut self.slots, &mut self.fresh, &self.routes, done)?;
        Ok(least)
    }

    /// Places a commit that was prepared: the job is done, and what arrives at Stateful nodes waits. The
    /// other arrivals stay in the list. Takes no memory.
    pub fn place(
        &mut self,
        plan: &Plan,
        done: Option<KeyDone>,
        arrivals: &mut List<Arrival>,
        marks: &[StageMarks],
    )
        requires { IsPrepared plan.now (option_map done_of done) arrivals.old self.old }
        ensures cells { self.new.cells
            ≡ place plan.now marks.now (option_map done_of done) arrivals.old self.old.cells }
        ensures left { arrivals.new
            ≡ filter (λ arrival. not (is_stateful plan.now arrival.node)) arrivals.old }
    {
        finish_any(&mut self.slots, &mut self.trees, marks, done);
        let fresh = mem::replace(&mut self.fresh, Vec::new(self.alloc));
        let routes = mem::replace(&mut self.routes, VecDeque::new(self.alloc));
        open(&mut self.slots, fresh);
        put_each(
            self.alloc,
            plan,
            marks,
            &mut self.slots,
            &mut self.trees,
            routes,
            arrivals,
        );
    }
}

/// Refuses so many new cells where not all cells would have numbers of 32 bits.
pub fn has_numbers(cells: usize, fresh: usize) -> Result<(), NoMemory>
    ensures { OnOk result (cells + fresh < 4294967296) }
{
    if cells.saturating_add(fresh) > u32::MAX as usize {
        return Err(NoMemory);
    }
    Ok(())
}

fn put_each(
    alloc: Global,
    plan: &Plan,
    before: &[StageMarks],
    slots: &mut Vec<Slot>,
    trees: &mut Vec<NodeTree>,
    routes: VecDeque<u32>,
    arrivals: &mut List<Arrival>,
)
    requires routed { AreRoutes plan.now (names_of (cells_of slots.old.items)) arrivals.old
        routes.items }
    requires roomy { AreRoomy 0 routes.items slots.old.items }
    ensures cells { cells_of slots.new.items
        ≡ put_all plan.now before.now arrivals.old (cells_of slots.old.items) }
    ensures left { arrivals.new
        ≡ filter (λ arrival. not (is_stateful plan.now arrival.node)) arrivals.old }
    ensures due { AreTrees trees.old.items (cells_of slots.old.items)
        → AreTrees trees.new.items (cells_of slots.new.items) }
{
    let all = mem::replace(arrivals, List::new(alloc));
    *arrivals = put_all(plan, before, slots.as_mut_slice(), trees, routes, all);
}

fn finish_any(
    slots: &mut Vec<Slot>,
    trees: &mut Vec<NodeTree>,
    before: &[StageMarks],
    done: Option<KeyDone>,
)
    requires { CanFinishAny slots.old.items (option_map done_of done) }
    ensures cells { cells_of slots.new.items
        ≡ finish before.now (option_map done_of done) (cells_of slots.old.items) }
    ensures roomy { (routes : ListOf ℕ) → AreRoomy 0 routes slots.old.items
        → AreRoomy 0 routes slots.new.items }
    ensures due { AreTrees trees.old.items (cells_of slots.old.items)
        → AreTrees trees.new.items (cells_of slots.new.items) }
    ensures places { (n i : ℕ) → HasPlace trees.old.items n i → HasPlace trees.new.items n i }
    ensures len { vec_len slots.new ≡ vec_len slots.old }
    ensures capacity { vec_capacity slots.new ≡ vec_capacity slots.old }
{
    if let Some(done) = done {
        let at = done.cell as usize;
        finish(slots.as_mut_slice(), before, done);
        renew_at(trees, slots.as_slice(), at);
    }
}

// The new cells stand behind the others, where room is kept for them.
fn open(slots: &mut Vec<Slot>, fresh: Vec<Slot>)
    requires { length fresh.items ≤ vec_capacity slots.old - vec_len slots.old }
    ensures { slots.new.items ≡ slots.old.items ++ fresh.items }
{
    for slot in fresh {
        slots.push_reserved(slot);
    }
}

fn log_of(slot: Slot) -> KeyLog
    ensures { result ≡ (cell_of slot).log }
{
    let Slot {
        node,
        key,
        span,
        entries,
        ..
    } = slot;
    KeyLog {
        node,
        key,
        span,
        entries: entries.into_list(),
    }
}

fn turn_at(
    alloc: Global,
    slots: &[Slot],
    marks: &[StageMarks],
    place: Place,
    bundle: u32,
) -> Result<KeyTurn, NoMemory>
    requires some { 1 ≤ bundle }
    requires few { length slots.now < 4294967296 }
    requires next { next_place marks.now (cells_of slots.now) ≡ Some place }
    requires first { IsFirstReady marks.now (cells_of slots.now) place }
    requires within { place.at < length slots.now }
    ensures { IfOk result (λ turn. (new : ListOf KeyCell)
        → new ≡ change (with_job bundle) place.at (cells_of slots.now)
        → IsTaken marks.now bundle (cells_of slots.now) turn new) }
{
    turn_of(alloc, marks, &slots[place.at], place.at as u32, bundle)
}

fn keep_room(
    slots: &mut Vec<Slot>,
    fresh: &mut Vec<Slot>,
    routes: &VecDeque<u32>,
    done: Option<&KeyDone>,
) -> Result<(), NoMemory>
    requires { IsStanding (cells_of slots.old.items) (option_map done_of (option_copied done)) }
    ensures cells { cells_of slots.new.items ≡ cells_of slots.old.items }
    ensures fresh { cells_of fresh.new.items ≡ cells_of fresh.old.items }
    ensures places { OnOk result
        (vec_len fresh.new ≤ vec_capacity slots.new - vec_len slots.new) }
    ensures standing { OnOk result (AreRoomy 0 routes.now.items slots.new.items) }
    ensures opened { OnOk result
        (AreRoomy (vec_len slots.old) routes.now.items fresh.new.items) }
    ensures finishes { OnOk result (CanFinishAny slots.new.items
        (option_map done_of (option_copied done.entry))) }
{
    keep_all(fresh, slots.len(), routes)?;
    keep_all(slots, 0, routes)?;
    keep_entries(slots.as_mut_slice(), done)?;
    slots.reserve(fresh.len())?;
    Ok(())
}

fn keep_entries(slots: &mut [Slot], done: Option<&KeyDone>) -> Result<(), NoMemory>
    requires { IsStanding (cells_of slots.old) (option_map done_of (option_copied done)) }
    ensures cells { cells_of slots.new ≡ cells_of slots.old }
    ensures sized { length slots.new ≡ length slots.old }
    ensures roomy { (routes : ListOf ℕ) → AreRoomy 0 routes slots.old → AreRoomy 0 routes slots.new }
    ensures finishes { OnOk result (CanFinishAny slots.new
        (option_map done_of (option_copied done.entry))) }
{
    match done {
        Some(done) => keep_entries_at(slots, done.cell as usize, done.entries.len()),
        None => Ok(()),
    }
}

fn keep_entries_at(slots: &mut [Slot], at: usize, count: usize) -> Result<(), NoMemory>
    requires { at < length slots.old }
    ensures cells { cells_of slots.new ≡ cells_of slots.old }
    ensures sized { length slots.new ≡ length slots.old }
    ensures roomy { (routes : ListOf ℕ) → AreRoomy 0 routes slots.old → AreRoomy 0 routes slots.new }
    ensures room { OnOk result ((slot : Slot) × (slice_get slots.new at ≡ Some slot)
        × (count ≤ slot.entries.room)) }
{
    let slot = &mut slots[at];
    keep_slot_entries(slot, count)?;
    Ok(())
}

fn keep_slot_entries(slot: &mut Slot, count: usize) -> Result<(), NoMemory>
    ensures cell { cell_of slot.new ≡ cell_of slot.old }
    ensures waiting { slot.new.waiting.room ≡ slot.old.waiting.room }
    ensures room { OnOk result (count ≤ slot.new.entries.room) }
{
    slot.entries.reserve(count)
}
