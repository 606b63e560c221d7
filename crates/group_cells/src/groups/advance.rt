ghost use Rattle.std.specs.Prelude.{◌≡◌, ◌++◌, ◌+◌, ◌<◌, ◌≤◌, ◌^◌, length, map, take};
ghost use Rattle.std.specs.Prelude.{IfOk, IfSome, OnOk, OnErr};
ghost use Rattle.std.specs.List.{filter};
ghost use Rattle.beam_values.specs.Checked.{IsChecked};
ghost use Rattle.beam_values.specs.Firing.{is_expired};
ghost use Rattle.beam_values.specs.Marks.{marks_at};
ghost use Rattle.group_cells.specs.Arrivals.{merging, UnmergedStand};
ghost use Rattle.group_cells.specs.Commits.{dropped_arrival, is_dropped};
ghost use Rattle.group_cells.specs.Drafts.{IsAtRest};
ghost use Rattle.group_cells.specs.KnownWindows.{AreStanding};
ghost use Rattle.group_cells.specs.Plain.{AreCellsNext};
ghost use Rattle.group_cells.specs.Undoing.{AreOfCommit};
ghost use Rattle.watermarks.specs.Holds.{hold_at};

use crate::arrivals::mark_into;
use crate::groups::draft::{Draft, Tracked};
use crate::groups::group_plan::GroupPlan;
use crate::groups::keyed::{LedKey, standing_of};
use crate::groups::placing::Commit;
use crate::groups::standing::Known;
use crate::rules::Rules;
use beam_values::{Arrival, Cell, Dropped, Duplicate, List, Mark, NoMemory, Pane, StageMarks};
use pane_triggers::is_dropped as is_expired;
use std::alloc::Global;
use std::collections::BTreeMap;
use std::mem;

/// What a commit answers beside the cells.
#[derive(Debug, Drop)]
pub struct Next {
    pub marks: List<StageMarks>,
    pub fired: List<Pane>,
    pub standing: BTreeMap<LedKey, Known>,
}

impl Tracked {
    /// One commit. After a refusal the cells, and what was dropped, are what they were; what is known of
    /// the windows that stand is lost.
    pub fn commit(
        &mut self,
        alloc: Global,
        plan: &GroupPlan,
        arrivals: &[Arrival],
        holds: &[Mark],
        before: &[StageMarks],
        commit: u32,
        standing: Option<BTreeMap<LedKey, Known>>,
        dropped: &mut Vec<Dropped>,
    ) -> Result<Next, NoMemory>
        requires checked { IsChecked plan.now }
        requires holds { length holds.now ≡ length plan.now.nodes }
        requires marks { length before.now ≡ length plan.now.nodes }
        requires rest { IsAtRest plan.now self.old }
        requires standing { IfSome standing
            (λ known. AreStanding plan.now known self.old.cells.items) }
        requires stand { UnmergedStand plan.now self.old.cells.items }
        ensures cells { IfOk result (λ next. AreCellsNext plan.now before.now (hold_at holds.now)
            commit arrivals.now self.old.cells.items self.new.cells.items next.marks next.fired) }
        ensures stand { OnOk result (UnmergedStand plan.now self.new.cells.items) }
        ensures standing { IfOk result
            (λ next. AreStanding plan.now next.standing self.new.cells.items) }
        ensures small { OnOk result (length self.new.cells.items < 2 ^ 32) }
        ensures grown { OnOk result
            (length self.new.cells.items ≤ length self.old.cells.items + length arrivals.now) }
        ensures dropped { OnOk result (dropped.new.items ≡ dropped.old.items ++ map
            (dropped_arrival commit) (filter (is_dropped plan.now before.now) arrivals.now)) }
        ensures rest { IsAtRest plan.now self.new }
        ensures err { OnErr result ((self.new.cells.items ≡ self.old.cells.items)
            × (dropped.new.items ≡ dropped.old.items)) }
    {
        let mut draft = Draft::new(plan, mem::replace(self, Tracked::new(alloc)));
        let kept = dropped.len();
        match draft.advance(
            alloc, plan, arrivals, holds, before, commit, standing, dropped,
        ) {
            Ok(next) => {
                *self = draft.close();
                Ok(next)
            }
            Err(refusal) => {
                *self = draft.take_back(alloc);
                dropped.truncate(kept);
                Err(refusal)
            }
        }
    }
}

impl<'a> Draft<'a> {
    fn advance(
        &mut self,
        alloc: Global,
        plan: &GroupPlan,
        arrivals: &[Arrival],
        holds: &[Mark],
        before: &[StageMarks],
        commit: u32,
        standing: Option<BTreeMap<LedKey, Known>>,
        dropped: &mut Vec<Dropped>,
    ) -> Result<Next, NoMemory>
        requires plan { self.old.plan ≡ plan.now }
        requires checked { IsChecked plan.now }
        requires holds { length holds.now ≡ length plan.now.nodes }
        requires marks { length before.now ≡ length plan.now.nodes }
        requires standing { IfSome standing (λ known. AreStanding plan.now known self.old.cells) }
        requires stand { UnmergedStand plan.now self.old.cells }
        ensures cells { IfOk result (λ next. AreCellsNext plan.now before.now (hold_at holds.now)
            commit arrivals.now self.old.cells self.new.cells next.marks next.fired) }
        ensures stand { OnOk result (UnmergedStand plan.now self.new.cells) }
        ensures standing { IfOk result
            (λ next. AreStanding plan.now next.standing self.new.cells) }
        ensures small { OnOk result (length self.new.cells < 2 ^ 32) }
        ensures grown { OnOk result
            (length self.new.cells ≤ length self.old.cells + length arrivals.now) }
        ensures dropped { OnOk result (dropped.new.items ≡ dropped.old.items ++ map
            (dropped_arrival commit) (filter (is_dropped plan.now before.now) arrivals.now)) }
        ensures kept { take (length dropped.old.items) dropped.new.items ≡ dropped.old.items }
        ensures same { AreOfCommit self.old self.new }
    {
        let mut standing = known_standing(alloc, plan, before, self.cells(), standing)?;
        let later = merging_of(alloc, plan, before, arrivals)?;
        let mut marks = Vec::from_slice(alloc, before)?;
        let known = Commit {
            plan,
            before,
            number: commit,
        };
        self.place_all(alloc, known, arrivals, dropped)?;
        self.place_later(alloc, known, later, &mut standing)?;
        let fired = self.fire_all(alloc, plan, before, holds, commit, &mut marks)?;
        if self.cells().len() > u32::MAX as usize {
            return Err(NoMemory);
        }
        Ok(Next {
            marks: List::from_vec(marks),
            fired,
            standing,
        })
    }
}

/// What is known of the windows that stand, made anew where it was lost.
fn known_standing(
    alloc: Global,
    plan: &GroupPlan,
    before: &[StageMarks],
    cells: &[Cell],
    standing: Option<BTreeMap<LedKey, Known>>,
) -> Result<BTreeMap<LedKey, Known>, NoMemory>
    requires { IfSome standing (λ known. AreStanding plan.now known cells.now) }
    ensures { IfOk result (λ known. AreStanding plan.now known cells.now) }
{
    match standing {
        Some(known) => Ok(known),
        None => standing_of(alloc, plan, before, cells),
    }
}

/// Copies of the arrivals in time at Groups whose windows merge.
fn merging_of(
    alloc: Global,
    plan: &GroupPlan,
    before: &[StageMarks],
    arrivals: &[Arrival],
) -> Result<List<Arrival>, NoMemory>
    ensures { IfOk result (λ later. later ≡ filter (merging plan.now before.now) arrivals.now) }
{
    let mut later = List::new(alloc);
    if !plan.merges() {
        return Ok(later);
    }
    for arrival in arrivals {
        if is_merging(plan, before, arrival) {
            later.push(arrival.duplicate(alloc)?)?;
        }
    }
    Ok(later)
}

fn is_merging(plan: &GroupPlan, before: &[StageMarks], arrival: &Arrival) -> bool
    ensures { result ≡ merging plan.now before.now arrival.now }
{
    match plan.rules(arrival.node) {
        None => false,
        Some(rules) => rules.merges && !is_late(rules, before, arrival),
    }
}

fn is_late(rules: &Rules, before: &[StageMarks], arrival: &Arrival) -> bool
    ensures { result ≡ is_expired rules.now.trigger
        arrival.now.element.span.end (marks_at before.now arrival.now.node).mark_in }
{
    let mark = mark_into(before, arrival.node);
    is_expired(&rules.trigger, arrival.element.span.end(), mark)
}
