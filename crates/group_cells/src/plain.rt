//! The cells of all Groups as a plain list, searched from the front: the plain program, which only
//! comparisons use. It works on copies, which replace what there was at the end.

ghost use Rattle.std.specs.Prelude.{◌≡◌, ℕ, ℤ, [], ◌++◌, length, map, All, IfOk, OnOk, OnErr};
ghost use Rattle.std.specs.List.{filter};
ghost use Rattle.beam_values.specs.Checked.{IsChecked};
ghost use Rattle.beam_values.specs.Marks.{AreMarks};
ghost use Rattle.beam_values.specs.Nodes.{facts_of};
ghost use Rattle.group_cells.specs.Commits.{AreRounds, HasGap, IsCommitted, KeepsLegal, NoneFalls};
ghost use Rattle.group_cells.specs.Commits.{RisesFrom};
ghost use Rattle.group_cells.specs.Commits.{dropped_arrival, is_dropped};
ghost use Rattle.group_cells.specs.Plain.{AreCellsNext};
ghost use Rattle.watermarks.specs.Holds.{hold_at};

pub mod arrivals;
pub mod keys;
pub mod nodes;
pub mod placing;

use crate::arrivals::leave_others;
use crate::plain::arrivals::{dropped_of, taken_of};
use crate::plain::keys::place_all;
use crate::plain::nodes::fire_all;
use beam_values::{
    Arrival, Cell, Dropped, Duplicate, List, Mark, NoMemory, Pane, Plan, StageMarks,
};
use std::alloc::Global;
use std::marker::Model;
use windowing::{NodeFacts, facts_of};

/// The cells of all Groups of a plan, and the elements that they dropped.
#[derive(Debug, Drop)]
pub struct PlainGroups {
    plan: Plan,
    cells: List<Cell>,
    dropped: List<Dropped>,
    alloc: Global,
}

impl Model for PlainGroups {
    ghost use Rattle.std.specs.Coded.{codes};
    ghost use Rattle.beam_values.specs.contracts.value.Value as values;
    ghost use Rattle.group_cells.specs.Commits.{SeenGroups};
    ghost use Rattle.group_cells.specs.Plain.{AreCells};

    ghost Value = { SeenGroups };

    ghost coded = { Prim.hlevel (codes, values.the_row.coded) };

    ghost view = { λ g. record { plan = g.plan; cells = g.cells; dropped = g.dropped } };

    ghost invariant = { λ g. AreCells g.plan g.cells };
}

impl PlainGroups {
    /// No cell, and nothing dropped.
    pub fn new(alloc: Global, plan: &Plan) -> Result<PlainGroups, NoMemory>
        requires { IsChecked plan.now }
        ensures { IfOk result
            (λ groups. groups ≡ record { plan = plan.now; cells = []; dropped = [] }) }
    {
        Ok(PlainGroups {
            plan: plan.copy(alloc)?,
            cells: List::new(alloc),
            dropped: List::new(alloc),
            alloc,
        })
    }

    /// One commit of all Groups, in the order of the nodes: arrivals are tested against the marks before
    /// it; then the marks of each node are computed from its inputs and `holds`, the least hold of each
    /// node without the panes that fire now, and the cells of each Group fire at the mark into it. The
    /// panes answered wait, and hold their Groups back. Takes the arrivals at Groups out of the list,
    /// and leaves the others. After a refusal nothing is changed.
    pub fn commit(
        &mut self,
        plan: &Plan,
        arrivals: &mut List<Arrival>,
        holds: &[Mark],
        marks: &mut [StageMarks],
        commit: u32,
    ) -> Result<List<Pane>, NoMemory>
        requires plan { self.old.plan ≡ plan.now }
        requires checked { IsChecked plan.now }
        requires holds { length holds.now ≡ length plan.now.nodes }
        requires marks { length marks.old ≡ length plan.now.nodes }
        requires gaps { All (HasGap plan.now) arrivals.old }
        requires rises { RisesFrom plan.now (hold_at holds.now) marks.old }
        ensures legal { IfOk result
            (KeepsLegal plan.now commit marks.old marks.new self.old self.new) }
        ensures rounds { IfOk result (AreRounds plan.now commit marks.old marks.new
            arrivals.old self.old.cells self.new.cells) }
        ensures committed { IfOk result (IsCommitted plan.now commit marks.old marks.new
            (hold_at holds.now) arrivals.old arrivals.new self.old self.new) }
        ensures rises { OnOk result
            ((held : ℕ → ℤ) → AreMarks plan.now held marks.old → NoneFalls marks.old marks.new) }
        ensures err { OnErr result
            ((self.new ≡ self.old) × (marks.new ≡ marks.old) × (arrivals.new ≡ arrivals.old)) }
    {
        let next = next_groups(
            self.alloc,
            plan,
            &self.cells,
            &self.dropped,
            arrivals.as_slice(),
            holds,
            marks,
            commit,
        )?;
        let NextGroups {
            cells,
            dropped,
            marks: after,
            fired,
        } = next;
        self.cells = cells;
        self.dropped = dropped;
        leave_others(self.alloc, plan, arrivals);
        marks.copy_from_slice(after.as_slice());
        Ok(fired)
    }

    /// The cells of all Groups, in the order in which they were made, with those that were merged away.
    pub fn cells(&self) -> &[Cell]
        ensures { result.now ≡ self.now.cells }
    {
        self.cells.as_slice()
    }

    /// The elements that came too late, in the order of their commits.
    pub fn dropped(&self) -> &[Dropped]
        ensures { result.now ≡ self.now.dropped }
    {
        self.dropped.as_slice()
    }

    /// Gives both lists away. Takes no memory.
    pub fn into_lists(self) -> (List<Cell>, List<Dropped>)
        ensures cells { result.0 ≡ self.cells }
        ensures dropped { result.1 ≡ self.dropped }
    {
        let PlainGroups {
            plan: _,
            cells,
            dropped,
            alloc: _,
        } = self;
        (cells, dropped)
    }
}

/// What a commit leaves.
#[derive(Debug, Drop)]
struct NextGroups {
    cells: List<Cell>,
    dropped: List<Dropped>,
    marks: List<StageMarks>,
    fired: List<Pane>,
}

fn next_groups(
    alloc: Global,
    plan: &Plan,
    cells: &List<Cell>,
    dropped: &List<Dropped>,
    arrivals: &[Arrival],
    holds: &[Mark],
    before: &[StageMarks],
    commit: u32,
) -> Result<NextGroups, NoMemory>
    requires checked { IsChecked plan.now }
    requires holds { length holds.now ≡ length plan.now.nodes }
    requires marks { length before.now ≡ length plan.now.nodes }
    ensures cells { IfOk result (λ next. AreCellsNext plan.now before.now
        (hold_at holds.now) commit arrivals.now cells.now next.cells next.marks next.fired) }
    ensures dropped { IfOk result (λ next. next.dropped ≡ dropped.now
        ++ map (dropped_arrival commit) (filter (is_dropped plan.now before.now) arrivals.now)) }
{
    let facts = facts_of(alloc, plan.nodes.as_slice())?;
    let facts = facts.as_slice();
    let mut all_dropped = dropped.duplicate(alloc)?;
    all_dropped.append(dropped_of(alloc, plan, before, commit, arrivals)?)?;
    let mut next = cells.duplicate(alloc)?.into_vec();
    let mut marks = Vec::from_slice(alloc, before)?;
    let fired = next_cells(
        alloc, plan, facts, before, holds, commit, arrivals, &mut next, &mut marks,
    )?;
    Ok(NextGroups {
        cells: List::from_vec(next),
        dropped: all_dropped,
        marks: List::from_vec(marks),
        fired,
    })
}

// Places what comes, and fires.
fn next_cells(
    alloc: Global,
    plan: &Plan,
    facts: &[NodeFacts],
    before: &[StageMarks],
    holds: &[Mark],
    commit: u32,
    arrivals: &[Arrival],
    cells: &mut Vec<Cell>,
    marks: &mut Vec<StageMarks>,
) -> Result<List<Pane>, NoMemory>
    requires checked { IsChecked plan.now }
    requires facts { facts.now ≡ facts_of plan.now.nodes }
    requires holds { length holds.now ≡ length plan.now.nodes }
    requires marks { length marks.old.items ≡ length plan.now.nodes }
    ensures { IfOk result (AreCellsNext plan.now before.now
        (hold_at holds.now) commit arrivals.now cells.old.items cells.new.items marks.new.items) }
{
    let taken = taken_of(alloc, plan, before, arrivals)?;
    place_all(alloc, plan, facts, before, commit, taken, cells)?;
    fire_all(alloc, plan, facts, before, holds, commit, cells, marks)
}
