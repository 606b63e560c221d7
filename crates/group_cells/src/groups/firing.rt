//! The cells that are due fire. A cell fires where it lies: it walks back from its last entry to the first
//! one that no pane has shown, and no further; one that accumulates copies the parts of all.

ghost use Rattle.std.specs.Prelude.{◌≡◌, ◌<◌, ◌≤◌, ◌++◌, List as ListOf, Some, None, [], true, false};
ghost use Rattle.std.specs.Prelude.{length, option_to_list, slice_get, slice_set, IfOk};
ghost use Rattle.std.specs.Prelude.{OnOk};
ghost use Rattle.std.specs.List.Sorted.{IsNonDecreasing};
ghost use Rattle.beam_values.specs.Checked.{IsChecked};
ghost use Rattle.beam_values.specs.Nodes.{is_group};
ghost use Rattle.beam_values.specs.declared.cell.Cell.{Cell as CellOf};
ghost use Rattle.beam_model.specs.Panes.{rules_of, trigger_of};
ghost use Rattle.group_cells.specs.Cells.{unseen_in};
ghost use Rattle.group_cells.specs.Plain.{after_node, AreGroupFired, AreNodesFired, FiresAs};
ghost use Rattle.group_cells.specs.Plain.{firing_at, IsNodeDone};
ghost use Rattle.group_cells.specs.FiredUpTo.{AreAllDue, AreCellsFired, AreFiredUpTo, CanFireAt};
ghost use Rattle.group_cells.specs.FiredUpTo.{HasFiredAt, IsFiredPast, IsNoneDue, IsShownAt};
ghost use Rattle.group_cells.specs.Undoing.{AreOfCommit};
ghost use Rattle.watermarks.specs.Holds.{hold_at};

use crate::firing::{firing_with, first_unseen, pane_with};
use crate::groups::draft::Draft;
use crate::groups::group_plan::GroupPlan;
use crate::groups::ranks::sort_by_ranks;
use crate::panes::{cmp_panes, least_with, push_if};
use crate::rules::Rules;
use beam_values::{Cell, List, Mark, NoMemory, Pane, StageMarks, Timing};
use pane_triggers::laws::{cells_are_due_from_their_next_mark_on, the_next_mark_is_the_least};
use std::alloc::Global;
use watermarks::marks_of_node;

impl<'a> Draft<'a> {
    /// Writes the marks of all nodes, and fires the cells of each Group at the mark into it.
    pub fn fire_all(
        &mut self,
        alloc: Global,
        plan: &GroupPlan,
        before: &[StageMarks],
        holds: &[Mark],
        commit: u32,
        marks: &mut Vec<StageMarks>,
    ) -> Result<List<Pane>, NoMemory>
        requires plan { self.old.plan ≡ plan.now }
        requires checked { IsChecked plan.now }
        requires holds { length holds.now ≡ length plan.now.nodes }
        requires marks { length marks.old.items ≡ length plan.now.nodes }
        ensures fired { IfOk result (AreNodesFired plan.now before.now
            (hold_at holds.now) commit self.old.cells self.new.cells marks.new.items) }
        ensures same { AreOfCommit self.old self.new }
    {
        let mut fired = List::new(alloc);
        for (n, hold) in holds.iter().enumerate() {
            let panes = self.fire_node(alloc, plan, before, commit, n as u32, *hold, marks)?;
            fired = joined(fired, panes)?;
        }
        Ok(fired)
    }

    // The marks of one node, where those of lower ones are written, and what it fires.
    fn fire_node(
        &mut self,
        alloc: Global,
        plan: &GroupPlan,
        before: &[StageMarks],
        commit: u32,
        n: u32,
        hold: Mark,
        marks: &mut Vec<StageMarks>,
    ) -> Result<List<Pane>, NoMemory>
        requires plan { self.old.plan ≡ plan.now }
        requires checked { IsChecked plan.now }
        requires within { n < length plan.now.nodes }
        requires marks { length marks.old.items ≡ length plan.now.nodes }
        ensures fired { IfOk result (IsNodeDone plan.now before.now hold commit n
            self.old.cells self.new.cells marks.old.items marks.new.items) }
        ensures same { AreOfCommit self.old self.new }
    {
        let node = &plan.plan().nodes.as_slice()[n as usize];
        let mark_in = marks_of_node(node, hold, marks.as_slice()).mark_in;
        let fired = self.fire_if_group(alloc, plan, n, commit, mark_in)?;
        let least = least_with(before, hold, fired.as_slice());
        let stage = marks_of_node(node, least, marks.as_slice());
        marks[n as usize] = stage;
        Ok(fired)
    }

    fn fire_if_group(
        &mut self,
        alloc: Global,
        plan: &GroupPlan,
        n: u32,
        commit: u32,
        mark: Mark,
    ) -> Result<List<Pane>, NoMemory>
        requires plan { self.old.plan ≡ plan.now }
        ensures fires { IfOk result (λ fired. is_group plan.now n ≡ true
            → AreGroupFired (rules_of plan.now n) n commit mark
            self.old.cells self.new.cells fired) }
        ensures rests { IfOk result (λ fired. is_group plan.now n ≡ false
            → (self.new.cells ≡ self.old.cells) × (fired ≡ [])) }
        ensures same { AreOfCommit self.old self.new }
    {
        match plan.rules(n) {
            None => Ok(List::new(alloc)),
            Some(rules) => self.fire_group(alloc, rules, n, commit, mark),
        }
    }

    // The cells of a Group that are due fire; the panes stand by key and window.
    fn fire_group(
        &mut self,
        alloc: Global,
        rules: &Rules,
        node: u32,
        commit: u32,
        mark: Mark,
    ) -> Result<List<Pane>, NoMemory>
        requires trigger { rules.now.trigger ≡ trigger_of self.old.plan node }
        ensures fired { IfOk result
            (AreGroupFired rules.now node commit mark self.old.cells self.new.cells) }
        ensures same { AreOfCommit self.old self.new }
    {
        let mut panes = self.fire_cells(alloc, rules, node, commit, mark)?;
        sort_by_ranks(&mut panes);
        panes.sort_by(|a, b| cmp_panes(a, b))?;
        Ok(List::from_vec(panes))
    }

    fn fire_cells(
        &mut self,
        alloc: Global,
        rules: &Rules,
        node: u32,
        commit: u32,
        mark: Mark,
    ) -> Result<Vec<Pane>, NoMemory>
        requires trigger { rules.now.trigger ≡ trigger_of self.old.plan node }
        ensures fired { IfOk result (λ panes. AreCellsFired rules.now node
            commit mark self.old.cells self.new.cells panes.items) }
        ensures same { AreOfCommit self.old self.new }
    {
        cells_are_due_from_their_next_mark_on();
        the_next_mark_is_the_least();
        let _reached = mark.ms();
        let mut places = self.tracked.due.places_until(alloc, node, mark)?;
        places.sort_unstable();
        self.fire_places(alloc, rules, node, commit, mark, places.as_slice())
    }

    /// The cells at these places fire, which ascend. No cell at another place is due.
    fn fire_places(
        &mut self,
        alloc: Global,
        rules: &Rules,
        node: u32,
        commit: u32,
        mark: Mark,
        places: &[u32],
    ) -> Result<Vec<Pane>, NoMemory>
        requires ascending { IsNonDecreasing places.now }
        requires all { AreAllDue rules.now node mark self.old.cells places.now }
        ensures fired { IfOk result (λ panes. AreCellsFired rules.now node
            commit mark self.old.cells self.new.cells panes.items) }
        ensures same { AreOfCommit self.old self.new }
    {
        let mut panes = Vec::with_capacity(alloc, places.len())?;
        self.make_room_for(places.len())?;
        let mut done = 0;
        for place in places {
            done = self.fire_next(
                alloc,
                rules,
                node,
                commit,
                mark,
                *place as usize,
                done,
                &mut panes,
            )?;
        }
        Ok(panes)
    }

    /// The cell at a place fires, where those before `done` did. Answers up to where all did then.
    fn fire_next(
        &mut self,
        alloc: Global,
        rules: &Rules,
        node: u32,
        commit: u32,
        mark: Mark,
        place: usize,
        done: usize,
        panes: &mut Vec<Pane>,
    ) -> Result<usize, NoMemory>
        ensures fired { IfOk result (λ next. (cells : ListOf CellOf)
            → AreFiredUpTo rules.now node commit mark cells done
            self.old.cells panes.old.items
            → (done ≤ place → place < length cells → IsNoneDue rules.now node mark cells done place)
            → IsFiredPast rules.now node commit mark cells place
            done next self.new.cells panes.new.items) }
        ensures same { AreOfCommit self.old self.new }
    {
        if place < done {
            return Ok(done);
        }
        if self.cells().len() <= place {
            return Ok(done);
        }
        let pane = self.fire(alloc, rules, node, commit, mark, place)?;
        push_if(panes, pane)?;
        Ok(place + 1)
    }

    /// The cell at a place fires, or doesn't.
    fn fire(
        &mut self,
        alloc: Global,
        rules: &Rules,
        node: u32,
        commit: u32,
        mark: Mark,
        place: usize,
    ) -> Result<Option<Pane>, NoMemory>
        requires within { place < length self.old.cells }
        ensures cells { OnOk result
            ((cell : CellOf) → slice_get self.old.cells place ≡ Some cell
            → self.new.cells
            ≡ slice_set self.old.cells place (after_node rules.now node mark cell)) }
        ensures pane { IfOk result
            (λ pane. (cell : CellOf) → slice_get self.old.cells place ≡ Some cell
            → FiresAs rules.now node commit mark cell (option_to_list pane)) }
        ensures same { AreOfCommit self.old self.new }
    {
        let count = self.tracked.due.count_at(place);
        match timing_at(rules, node, mark, count, &self.tracked.cells[place]) {
            None => Ok(None),
            Some(timing) => {
                let cell = &self.tracked.cells[place];
                let from = first_unseen(cell.entries.as_slice(), count);
                let pane = pane_with(alloc, rules.trigger.mode, commit, timing, from, cell)?;
                self.set_fired(alloc, timing, from, place)?;
                Ok(Some(pane))
            }
        }
    }

    /// The cell at a place keeps that it fired a pane of this timing, and is due anew.
    fn set_fired(
        &mut self,
        alloc: Global,
        timing: Timing,
        from: usize,
        place: usize,
    ) -> Result<(), NoMemory>
        requires within { place < length self.old.cells }
        requires counted { CanFireAt place self.old.cells }
        requires from { IsShownAt from place self.old.cells }
        ensures ok { OnOk result (HasFiredAt place timing self.old.cells self.new.cells) }
        ensures same { AreOfCommit self.old self.new }
    {
        let at = u32::try_from(place).map_err(|_| NoMemory)?;
        let cell = &self.tracked.cells[place];
        self.tracked.due.expect_firing(self.plan, timing, at, cell)?;
        self.tracked.set_fired(alloc, timing, from, at)?;
        self.tracked.due.set_count(at, 0);
        Ok(())
    }
}

/// The panes of both lists. Where the first has none, the second stays where it lies: mostly one Group
/// alone fires at a commit, and at the end of a file that are most panes of the run.
fn joined(first: List<Pane>, second: List<Pane>) -> Result<List<Pane>, NoMemory>
    ensures { IfOk result (λ all. all ≡ first ++ second) }
{
    if first.is_empty() {
        return Ok(second);
    }
    let mut all = first;
    all.append(second)?;
    Ok(all)
}

fn timing_at(rules: &Rules, node: u32, mark: Mark, count: u64, cell: &Cell) -> Option<Timing>
    requires { count ≡ unseen_in cell.now.entries }
    ensures { result ≡ firing_at rules.now node mark cell.now }
{
    if cell.node == node {
        firing_with(rules, mark, count, cell)
    } else {
        None
    }
}
