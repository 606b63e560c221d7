ghost use Rattle.std.specs.Prelude.{◌≡◌, ◌+◌, ◌<◌, ◌≤◌, ◌^◌, ◌≤ℤ◌, ◌||◌, ◌∷◌, [], ◌++◌, ℕ, ℤ};
ghost use Rattle.std.specs.Prelude.{true, false};
ghost use Rattle.std.specs.Prelude.{Contains, List as ListOf, None, Some, length, map};
ghost use Rattle.std.specs.Prelude.{slice_get, slice_set, vec_capacity, vec_len, IfOk, OnOk};
ghost use Rattle.std.specs.BTreeSet.{contains, keys_between};
ghost use Rattle.std.specs.Option.{option_map};
ghost use Rattle.std.specs.Ordering.{as_partial_cmp, eq_by_cmp, int_cmp, is_gt, nat_cmp, on};
ghost use Rattle.std.specs.Ordering.{then_cmp};
ghost use Rattle.std.specs.declared.ops.Bound.TheVariants.{Included};
ghost use Rattle.std.specs.Cmp.{partial_order_from_own_ties};
ghost use Rattle.std.specs.Cmp.Rules.{comparing};
ghost use Rattle.std.proofs.Common.{rules};
ghost use Rattle.beam_values.specs.Intervals.{Interval};
ghost use Rattle.beam_values.specs.declared.cell.Cell.{Cell as CellOf};
ghost use Rattle.beam_values.specs.declared.cell.Entry.{Entry as EntryOf};
ghost use Rattle.beam_values.specs.Times.{least_time};
ghost use Rattle.beam_values.specs.declared.plan.Plan.{Plan as PlanOf};
ghost use Rattle.beam_values.specs.declared.value.Value.{Value as ValueOf};
ghost use Rattle.beam_model.specs.Panes.{is_on_time};
ghost use Rattle.group_cells.specs.Cells.{once_fired, unseen_in};
ghost use Rattle.group_cells.specs.Due.{due_cmp, has_moment, is_due_as, is_key_of, own_moment};
ghost use Rattle.group_cells.specs.Due.{AreMoments, IsCountOf, IsDueOf, IsFirstBetween, KeepsMoments};
ghost use Rattle.group_cells.specs.Handing.{given_way, with_entries};
ghost use Rattle.group_cells.specs.Looking.{IsNextDue};
ghost use Rattle.group_cells.specs.Placing.{fresh_cell, with_entry};
ghost use Rattle.group_cells.specs.declared.groups.due.DueCells.{DueCells as DueCellsOf};
ghost use Rattle.group_cells.specs.declared.groups.due.DueKey.{DueKey as DueKeyOf};

use crate::firing::{is_on_time, unseen};
use crate::groups::group_plan::GroupPlan;
use beam_values::{Cell, Mark, NoMemory, Span, Time, Timing, Trigger};
use pane_triggers::laws::{
    the_next_mark_is_the_least, unseen_entries_move_no_next_mark_without_an_early_count,
};
use pane_triggers::next_mark;
use std::alloc::Global;
use std::cmp::Ordering;
use std::collections::BTreeSet;

/// A cell and its moment.
#[derive(Clone, Copy, Debug)]
pub struct DueKey {
    pub node: u32,
    pub moment: i64,
    pub place: u32,
}

impl DueKey {
    /// Where the keys of a node begin.
    fn first(node: u32) -> DueKey
        ensures { result ≡ record { node = node; moment = least_time; place = 0 } }
    {
        DueKey {
            node,
            moment: Time::LEAST_MS,
            place: 0,
        }
    }

    /// Where the keys of a node end whose moments a mark has reached.
    fn last(node: u32, mark: Mark) -> DueKey
        ensures value { result ≡ record { node = node; moment = mark; place = 4294967295 } }
        ensures reached { least_time ≤ℤ mark }
    {
        DueKey {
            node,
            moment: mark.ms(),
            place: u32::MAX,
        }
    }
}

/// By node and moment.
fn cmp_moments(a: &DueKey, b: &DueKey) -> Ordering
    ensures { result ≡ then_cmp (on (λ k. k.node) nat_cmp) (on (λ k. k.moment) int_cmp) a.now b.now }
{
    match a.node.cmp(&b.node) {
        Ordering::Equal => a.moment.cmp(&b.moment),
        decided => decided,
    }
}

impl PartialEq for DueKey {
    ghost eq = { eq_by_cmp due_cmp };

    ghost laws = { Prim.search (comparing, rules) depth 12 };

    fn eq(&self, other: &DueKey) -> bool {
        self.cmp(other).is_eq()
    }
}

impl Eq for DueKey {
    ghost laws = { Prim.search (comparing, rules) depth 12 };
}

impl PartialOrd for DueKey {
    ghost partial_cmp = { as_partial_cmp due_cmp };

    ghost laws = { partial_order_from_own_ties (Prim.search (comparing, rules) depth 12)
        (Prim.search (comparing, rules) depth 12) };

    fn partial_cmp(&self, other: &DueKey) -> Option<Ordering> {
        Some(self.cmp(other))
    }
}

impl Ord for DueKey {
    ghost cmp = { due_cmp };

    ghost total = { Prim.search (comparing, rules) depth 12 };

    ghost matches_partial_cmp = { Prim.search (comparing, rules) depth 12 };

    ghost matches_eq = { Prim.search (comparing, rules) depth 12 };

    /// Most keys that are compared are of one node and one moment: those of the cells of a window.
    fn cmp(&self, other: &DueKey) -> Ordering {
        if self.node == other.node && self.moment == other.moment {
            self.place.cmp(&other.place)
        } else {
            cmp_moments(self, other)
        }
    }
}

/// What cells are due by.
#[derive(Debug, Drop)]
pub struct DueCells {
    /// How many entries of each cell no pane has shown.
    pub unseen: Vec<u64>,
    /// Each cell that has a moment. One that a cell leaves stays until the commit ends, so that a commit
    /// that is refused has nothing to put back.
    pub moments: BTreeSet<DueKey>,
    /// The moments that cells entered or left since the last commit ended.
    pub moved: Vec<DueKey>,
}

impl DueCells {
    /// Takes no memory.
    pub fn new(alloc: Global) -> DueCells
        ensures due { (plan : PlanOf) → IsDueOf plan result [] }
        ensures moved { result.moved.items ≡ [] }
    {
        DueCells {
            unseen: Vec::new(alloc),
            moments: BTreeSet::new(alloc),
            moved: Vec::new(alloc),
        }
    }

    /// How many entries of the cell at a place no pane has shown.
    pub fn count_at(&self, place: usize) -> u64
        requires { place < length self.now.unseen.items }
        ensures { (plan : PlanOf) (cells : ListOf CellOf) (cell : CellOf)
            → IsDueOf plan self.now cells → slice_get cells place ≡ Some cell
            → result ≡ unseen_in cell.entries }
    {
        self.unseen[place]
    }

    /// A cell with so many entries, none of which was shown, is to be put behind the others, at this place.
    pub fn expect_cell(
        &mut self,
        plan: &GroupPlan,
        node: u32,
        place: u32,
        span: Span,
        count: u64,
    ) -> Result<(), NoMemory>
        ensures kept { KeepsMoments self.old self.new }
        ensures counts { self.new.unseen.items ≡ self.old.unseen.items }
        ensures room { OnOk result (vec_len self.new.unseen < vec_capacity self.new.unseen) }
        ensures ok { OnOk result
            ((cells : ListOf CellOf) (key : ValueOf) (entries : ListOf EntryOf)
            → AreMoments plan.now self.old cells → place ≡ length cells → count ≡ unseen_in entries
            → AreMoments plan.now self.new (cells ++ fresh_cell node key span entries ∷ [])) }
    {
        self.unseen.reserve(1)?;
        self.enter(node, place, fresh_moment(plan, node, span, count))
    }

    /// The cell at a place is to take an entry that no pane has shown. Answers how many there are then.
    pub fn expect_entry(
        &mut self,
        plan: &GroupPlan,
        place: u32,
        cell: &Cell,
    ) -> Result<u64, NoMemory>
        requires { place < length self.old.unseen.items }
        ensures kept { KeepsMoments self.old self.new }
        ensures counts { self.new.unseen.items ≡ self.old.unseen.items }
        ensures count { IfOk result (λ count. (cells : ListOf CellOf)
            → IsDueOf plan.now self.old cells → slice_get cells place ≡ Some cell.now
            → count ≡ unseen_in cell.now.entries + 1) }
        ensures ok { OnOk result ((cells : ListOf CellOf) (entry : EntryOf)
            → IsDueOf plan.now self.old cells → slice_get cells place ≡ Some cell.now
            → entry.shown ≡ false
            → AreMoments plan.now self.new (slice_set cells place (with_entry entry cell.now))) }
    {
        let was = self.unseen[place as usize];
        let count = was.checked_add(1).ok_or(NoMemory)?;
        if is_due_regardless(plan, cell) {
            return Ok(count);
        }
        let left = moment_with(plan, cell, cell.on_time, was);
        let entered = moment_with(plan, cell, cell.on_time, count);
        self.change(cell.node, place, left, entered)?;
        Ok(count)
    }

    /// The cell at a place is to fire a pane of this timing.
    pub fn expect_firing(
        &mut self,
        plan: &GroupPlan,
        timing: Timing,
        place: u32,
        cell: &Cell,
    ) -> Result<(), NoMemory>
        requires { place < length self.old.unseen.items }
        ensures kept { KeepsMoments self.old self.new }
        ensures counts { self.new.unseen.items ≡ self.old.unseen.items }
        ensures ok { OnOk result ((cells : ListOf CellOf)
            → IsDueOf plan.now self.old cells → slice_get cells place ≡ Some cell.now
            → AreMoments plan.now self.new
            (slice_set cells place (once_fired (Some timing) cell.now))) }
    {
        let count = self.unseen[place as usize];
        let left = moment_with(plan, cell, cell.on_time, count);
        let on_time = is_on_time_with(cell.on_time, timing);
        let entered = moment_with(plan, cell, on_time, 0);
        self.change(cell.node, place, left, entered)
    }

    /// The cell at a place is to give its entries to the one at the last place. Answers how many of these
    /// no pane has shown then.
    pub fn expect_handing(
        &mut self,
        plan: &GroupPlan,
        place: u32,
        cell: &Cell,
        last: u32,
        taker: &Cell,
    ) -> Result<u64, NoMemory>
        requires place { place < length self.old.unseen.items }
        requires last { last < length self.old.unseen.items }
        ensures kept { KeepsMoments self.old self.new }
        ensures counts { self.new.unseen.items ≡ self.old.unseen.items }
        ensures count { IfOk result (λ count. (cells : ListOf CellOf)
            → IsDueOf plan.now self.old cells → slice_get cells place ≡ Some cell.now
            → slice_get cells last ≡ Some taker.now
            → count ≡ unseen_in cell.now.entries + unseen_in taker.now.entries) }
        ensures ok { OnOk result ((session : Interval) (cells : ListOf CellOf)
            → IsDueOf plan.now self.old cells → slice_get cells place ≡ Some cell.now
            → slice_get cells last ≡ Some taker.now → place < last
            → AreMoments plan.now self.new
            (slice_set (slice_set cells place (given_way session cell.now)) last
            (with_entries cell.now.entries taker.now))) }
    {
        let own = self.unseen[place as usize];
        let others = self.unseen[last as usize];
        let count = own.checked_add(others).ok_or(NoMemory)?;
        let given = moment_with(plan, cell, cell.on_time, own);
        self.change(cell.node, place, given, None)?;
        let left = moment_with(plan, taker, taker.on_time, others);
        let entered = moment_with(plan, taker, taker.on_time, count);
        self.change(taker.node, last, left, entered)?;
        Ok(count)
    }

    /// So many entries of the cell at a place are unseen now.
    pub fn set_count(&mut self, place: u32, count: u64)
        requires { place < length self.old.unseen.items }
        ensures kept { KeepsMoments self.old self.new }
        ensures counts { self.new.unseen.items ≡ slice_set self.old.unseen.items place count }
    {
        self.unseen[place as usize] = count;
    }

    /// A cell is to be due at another moment.
    fn change(
        &mut self,
        node: u32,
        place: u32,
        was: Option<i64>,
        now: Option<i64>,
    ) -> Result<(), NoMemory>
        ensures kept { KeepsMoments self.old self.new }
        ensures counts { self.new.unseen.items ≡ self.old.unseen.items }
        ensures ok { OnOk result
            ((plan : PlanOf) (cells : ListOf CellOf) (before cell : CellOf)
            → AreMoments plan self.old cells → slice_get cells place ≡ Some before
            → was ≡ own_moment plan before → now ≡ own_moment plan cell → before.node ≡ node
            → cell.node ≡ node → AreMoments plan self.new (slice_set cells place cell)) }
    {
        if is_same_moment(was, now) {
            return Ok(());
        }
        self.leave(node, place, was)?;
        self.enter(node, place, now)
    }

    /// A cell is to leave a moment, which stays until the commit ends.
    fn leave(&mut self, node: u32, place: u32, moment: Option<i64>) -> Result<(), NoMemory>
        ensures kept { KeepsMoments self.old self.new }
        ensures counts { self.new.unseen ≡ self.old.unseen }
        ensures left { OnOk result
            ((q : DueKeyOf) → is_key_of node place moment q ≡ true → Contains self.new.moved.items q) }
    {
        match moment {
            None => Ok(()),
            Some(moment) => self.note(DueKey {
                node,
                moment,
                place,
            }),
        }
    }

    /// A cell is to have a moment.
    fn enter(&mut self, node: u32, place: u32, moment: Option<i64>) -> Result<(), NoMemory>
        ensures kept { KeepsMoments self.old self.new }
        ensures counts { self.new.unseen ≡ self.old.unseen }
        ensures noted { (q : DueKeyOf)
            → Contains self.old.moved.items q → Contains self.new.moved.items q }
        ensures entered { OnOk result ((q : DueKeyOf) → is_key_of node place moment q ≡ true
            → contains due_cmp self.new.moments q ≡ true) }
    {
        match moment {
            None => Ok(()),
            Some(moment) => self.add(DueKey {
                node,
                moment,
                place,
            }),
        }
    }

    fn note(&mut self, key: DueKey) -> Result<(), NoMemory>
        ensures kept { KeepsMoments self.old self.new }
        ensures counts { self.new.unseen ≡ self.old.unseen }
        ensures moments { self.new.moments ≡ self.old.moments }
        ensures before { (q : DueKeyOf)
            → Contains self.old.moved.items q → Contains self.new.moved.items q }
        ensures noted { OnOk result (Contains self.new.moved.items key) }
    {
        self.moved.push(key)?;
        Ok(())
    }

    /// A key is noted first, so that it can leave.
    fn add(&mut self, key: DueKey) -> Result<(), NoMemory>
        ensures kept { KeepsMoments self.old self.new }
        ensures counts { self.new.unseen ≡ self.old.unseen }
        ensures before { (q : DueKeyOf)
            → Contains self.old.moved.items q → Contains self.new.moved.items q }
        ensures added { OnOk result (contains due_cmp self.new.moments key ≡ true) }
    {
        self.note(key)?;
        self.moments.insert(key)?;
        Ok(())
    }

    /// Of the moments that moved, those leave at which no cell is due. Takes no memory.
    pub fn settle(&mut self, plan: &GroupPlan, cells: &[Cell])
        requires { IsDueOf plan.now self.old cells.now }
        ensures due { IsDueOf plan.now self.new cells.now }
        ensures moved { self.new.moved.items ≡ [] }
    {
        while let Some(key) = self.moved.pop() {
            self.take_out(plan, cells, key);
        }
    }

    /// A moment that moved leaves, unless a cell is due at it.
    fn take_out(&mut self, plan: &GroupPlan, cells: &[Cell], key: DueKey)
        requires { IsCountOf self.old cells.now }
        ensures moments { (before : DueCellsOf) → AreMoments plan.now before cells.now
            → before.moments ≡ self.old.moments → before.moved.items ≡ self.old.moved.items ++ key ∷ []
            → AreMoments plan.now self.new cells.now }
        ensures others { (self.new.moved ≡ self.old.moved) × (self.new.unseen ≡ self.old.unseen) }
    {
        if self.is_due(plan, cells, key) {
            return;
        }
        self.moments.remove(&key);
    }

    fn is_due(&self, plan: &GroupPlan, cells: &[Cell], key: DueKey) -> bool
        requires { IsCountOf self.now cells.now }
        ensures { result ≡ is_due_as plan.now key (slice_get cells.now key.place) }
    {
        match cells.get(key.place as usize) {
            None => false,
            Some(cell) => {
                let count = self.unseen[key.place as usize];
                let moment = moment_with(plan, cell, cell.on_time, count);
                cell.node == key.node && has_moment(moment, key.moment)
            }
        }
    }

    /// The cells are again what they were when the moments moved. Takes no memory.
    pub fn take_back(&mut self, plan: &GroupPlan, cells: &[Cell])
        requires moments { AreMoments plan.now self.old cells.now }
        requires few { length cells.now ≤ length self.old.unseen.items }
        requires small { length cells.now ≤ 2 ^ 32 }
        ensures due { IsDueOf plan.now self.new cells.now }
        ensures moved { self.new.moved.items ≡ [] }
    {
        self.recount(cells);
        self.settle(plan, cells);
    }

    fn recount(&mut self, cells: &[Cell])
        requires { length cells.now ≤ length self.old.unseen.items }
        ensures counts { IsCountOf self.new cells.now }
        ensures kept { KeepsMoments self.old self.new }
    {
        self.unseen.truncate(cells.len());
        for (place, cell) in cells.iter().enumerate() {
            self.unseen[place] = unseen(cell.entries.as_slice());
        }
    }

    /// The places of the cells of a node whose moments a mark has reached, by their moments.
    pub fn places_until(&self, alloc: Global, node: u32, mark: Mark) -> Result<Vec<u32>, NoMemory>
        ensures { IfOk result (λ places. (q : DueKeyOf) → q.node ≡ node
            → least_time ≤ℤ q.moment → q.moment ≤ℤ mark → q.place < 2 ^ 32
            → contains due_cmp self.now.moments q ≡ true → Contains places.items q.place) }
    {
        self.places_between(alloc, DueKey::first(node), DueKey::last(node, mark))
    }

    /// The least moment of the cells of a node.
    pub fn next(&self, node: u32) -> Option<i64>
        ensures { (plan : PlanOf) (cells : ListOf CellOf) → IsDueOf plan self.now cells
            → self.now.moved.items ≡ [] → IsNextDue plan node cells result }
    {
        the_next_mark_is_the_least();
        moment_in(self.first_between(DueKey::first(node), DueKey::last(node, Mark::FINAL)))
    }

    fn first_between(&self, first: DueKey, last: DueKey) -> Option<DueKey>
        requires { is_gt (due_cmp first last) ≡ false }
        ensures { IsFirstBetween self.now.moments first last result }
    {
        match self.moments.range(first..=last).next() {
            Some(key) => Some(*key),
            None => None,
        }
    }

    fn places_between(
        &self,
        alloc: Global,
        first: DueKey,
        last: DueKey,
    ) -> Result<Vec<u32>, NoMemory>
        requires { is_gt (due_cmp first last) ≡ false }
        ensures { IfOk result (λ places. places.items ≡ map (λ key. key.place)
            (keys_between due_cmp (Included first) (Included last) self.now.moments)) }
    {
        let mut places = Vec::new(alloc);
        for key in self.moments.range(first..=last) {
            places.push(key.place)?;
        }
        Ok(places)
    }
}

fn is_same_moment(a: Option<i64>, b: Option<i64>) -> bool
    ensures { result ≡ true → a ≡ b }
{
    match (a, b) {
        (None, None) => true,
        (Some(first), Some(second)) => first == second,
        _ => false,
    }
}

fn has_moment(own: Option<i64>, moment: i64) -> bool
    ensures { result ≡ has_moment own moment }
{
    match own {
        None => false,
        Some(own) => own == moment,
    }
}

fn moment_in(key: Option<DueKey>) -> Option<i64>
    ensures { result ≡ option_map (λ key. key.moment) key }
{
    match key {
        Some(key) => Some(key.moment),
        None => None,
    }
}

/// Whether a cell stays due at its moment whatever it takes: its on-time pane is yet to fire, and its
/// trigger has no early count and no early bar.
pub fn is_due_regardless(plan: &GroupPlan, cell: &Cell) -> bool
    ensures { result ≡ true → (entry : EntryOf)
        → own_moment plan.now cell.now ≡ own_moment plan.now (with_entry entry cell.now) }
{
    unseen_entries_move_no_next_mark_without_an_early_count();
    !cell.on_time && has_no_early_panes(plan.trigger(cell.node))
}

fn has_no_early_panes(trigger: &Trigger) -> bool
    ensures { result ≡ true → (trigger.now.early ≡ None) × (trigger.now.early_bars ≡ []) }
{
    trigger.early.is_none() && trigger.early_bars.is_empty()
}

/// The moment of a cell if so many of its entries were unseen, and it had fired its on-time pane or not.
pub fn moment_with(plan: &GroupPlan, cell: &Cell, on_time: bool, count: u64) -> Option<i64>
    ensures { (entries : ListOf EntryOf) (next : ℕ) → count ≡ unseen_in entries
        → result ≡ own_moment plan.now (record cell.now {
          entries = entries;
          next_index = next;
          on_time = on_time;
        }) }
{
    if cell.merged_into.is_some() {
        return None;
    }
    next_mark(plan.trigger(cell.node), cell.span.end(), on_time, count)
}

/// Whether a cell has fired its on-time pane once it fires one of this timing.
fn is_on_time_with(was: bool, timing: Timing) -> bool
    ensures { result ≡ (was || is_on_time timing) }
{
    was || is_on_time(timing)
}

/// The moment of a new cell with so many entries.
fn fresh_moment(plan: &GroupPlan, node: u32, span: Span, count: u64) -> Option<i64>
    ensures { (key : ValueOf) (entries : ListOf EntryOf) → count ≡ unseen_in entries
        → result ≡ own_moment plan.now (fresh_cell node key span entries) }
{
    next_mark(plan.trigger(node), span.end(), false, count)
}
