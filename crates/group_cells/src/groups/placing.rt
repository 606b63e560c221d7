ghost use Rattle.std.specs.Prelude.{◌≡◌, ◌<◌, ◌++◌, ◌∷◌, [], length, map, take, OnOk};
ghost use Rattle.std.specs.Prelude.{if◌then◌else◌};
ghost use Rattle.std.specs.List.{filter};
ghost use Rattle.beam_values.specs.Grouping.{key_of};
ghost use Rattle.beam_values.specs.Marks.{marks_at};
ghost use Rattle.group_cells.specs.Arrivals.{arrived, with_arrival, with_arrivals};
ghost use Rattle.group_cells.specs.Commits.{dropped_arrival, is_dropped};
ghost use Rattle.group_cells.specs.Rounds.{entry_of};
ghost use Rattle.group_cells.specs.Undoing.{AreOfCommit};

use crate::groups::draft::Draft;
use crate::groups::group_plan::GroupPlan;
use crate::rules::Rules;
use beam_values::{Arrival, Dropped, Entry, Mark, NoMemory, StageMarks};
use pane_triggers::is_dropped;
use std::alloc::Global;

/// What is known of a commit while its arrivals are placed.
#[derive(Clone, Copy)]
pub struct Commit<'a> {
    pub plan: &'a GroupPlan,
    /// The marks before it.
    pub before: &'a [StageMarks],
    pub number: u32,
}

fn mark_into(marks: &[StageMarks], node: u32) -> Mark
    requires { node < length marks.now }
    ensures { result ≡ (marks_at marks.now node).mark_in }
{
    marks[node as usize].mark_in
}

impl<'a> Draft<'a> {
    /// Places the arrivals of a commit, and drops those that are too late.
    pub fn place_all(
        &mut self,
        alloc: Global,
        commit: Commit,
        arrivals: &[Arrival],
        dropped: &mut Vec<Dropped>,
    ) -> Result<(), NoMemory>
        requires marks { length commit.before.now ≡ length commit.plan.now.nodes }
        ensures ok { OnOk result (self.new.cells ≡ with_arrivals commit.entry.plan.now
            commit.entry.before.now commit.entry.number self.old.cells arrivals.now) }
        ensures dropped { OnOk result (dropped.new.items
            ≡ dropped.old.items ++ map (dropped_arrival commit.entry.number)
            (filter (is_dropped commit.entry.plan.now commit.entry.before.now) arrivals.now)) }
        ensures kept { take (length dropped.old.items) dropped.new.items
            ≡ dropped.old.items }
        ensures same { AreOfCommit self.old self.new }
    {
        for arrival in arrivals {
            self.place(alloc, commit, arrival, dropped)?;
        }
        Ok(())
    }

    fn place(
        &mut self,
        alloc: Global,
        commit: Commit,
        arrival: &Arrival,
        dropped: &mut Vec<Dropped>,
    ) -> Result<(), NoMemory>
        requires marks { length commit.before.now ≡ length commit.plan.now.nodes }
        ensures ok { OnOk result (self.new.cells ≡ with_arrival commit.entry.plan.now
            commit.entry.before.now commit.entry.number self.old.cells arrival.now) }
        ensures dropped { OnOk result (dropped.new.items
            ≡ dropped.old.items ++ map (dropped_arrival commit.entry.number)
            (if is_dropped commit.entry.plan.now commit.entry.before.now arrival.now
            then arrival.now ∷ [] else [])) }
        ensures kept { take (length dropped.old.items) dropped.new.items
            ≡ dropped.old.items }
        ensures same { AreOfCommit self.old self.new }
    {
        let Some(rules) = commit.plan.rules(arrival.node) else {
            return Ok(());
        };
        let mark = mark_into(commit.before, arrival.node);
        if is_dropped(&rules.trigger, arrival.element.span.end(), mark) {
            drop_late(alloc, commit.number, arrival, dropped)
        } else {
            self.take_in(alloc, rules, commit.number, arrival)
        }
    }

    /// Takes an arrival that is in time; where windows merge, that comes later.
    fn take_in(
        &mut self,
        alloc: Global,
        rules: &Rules,
        commit: u32,
        arrival: &Arrival,
    ) -> Result<(), NoMemory>
        ensures ok { OnOk result
            (self.new.cells ≡ (if rules.now.merges then self.old.cells
            else arrived arrival.now.node (key_of arrival.now.element) arrival.now.element.span
            (entry_of commit arrival.now.element) self.old.cells)) }
        ensures same { AreOfCommit self.old self.new }
    {
        if rules.merges {
            return Ok(());
        }
        let entry = Entry {
            element: arrival.element.copy(alloc)?,
            commit,
            shown: false,
        };
        self.take(alloc, arrival.node, entry)
    }
}

fn drop_late(
    alloc: Global,
    commit: u32,
    arrival: &Arrival,
    dropped: &mut Vec<Dropped>,
) -> Result<(), NoMemory>
    ensures ok { OnOk result
        (dropped.new.items ≡ dropped.old.items ++ dropped_arrival commit arrival.now ∷ []) }
    ensures kept { take (length dropped.old.items) dropped.new.items ≡ dropped.old.items }
{
    let element = arrival.element.copy(alloc)?;
    dropped.push(Dropped {
        node: arrival.node,
        element,
        commit,
    })?;
    Ok(())
}
