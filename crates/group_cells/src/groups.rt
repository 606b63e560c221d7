//! The cells of all Groups in the order in which they were made, found by index.
//!
//! An arrival finds its cell by an index of the crate `cell_index`; at a Group of sessions it looks at those
//! cells of its key that stand, aren't expired and overlap its window (`groups/standing.rt`), which are
//! found by their ends. Firing finds the cells that are due in an ordered set. So a commit costs its
//! arrivals, what these look at and the cells that fire, each times a logarithm; it fires at most a pane for
//! each cell and makes at most a cell for each arrival. A commit that finds no memory undoes what it did,
//! and takes out of the index and the set what it put in. It gives the memory of what is known of windows
//! that stand back, in which the next one makes that anew.
//!
//! Three things spare comparisons, and no public contract speaks of them: a guess at the place of an
//! arrival's cell, which is compared with that cell before the map of the index is asked, a number that
//! leads each key of that map and is compared before the key itself, and ranks of the panes of a commit,
//! by which they are sorted before whole keys are compared (`groups/ranks.rt`).

ghost use Rattle.std.specs.Prelude.{◌≡◌, ◌+◌, ◌≤◌, ◌<◌, ◌^◌, ℕ, ℤ, [], length, true, All, IfOk};
ghost use Rattle.std.specs.Prelude.{OnOk, OnErr};
ghost use Rattle.beam_values.specs.Checked.{IsChecked};
ghost use Rattle.beam_values.specs.Marks.{AreMarks};
ghost use Rattle.beam_values.specs.Nodes.{is_group};
ghost use Rattle.cell_index.specs.Places.{place_of};
ghost use Rattle.group_cells.specs.Commits.{AreRounds, HasGap, IsCommitted, KeepsLegal, NoneFalls};
ghost use Rattle.group_cells.specs.Commits.{RisesFrom};
ghost use Rattle.group_cells.specs.Looking.{IsNextDue};
ghost use Rattle.group_cells.specs.Sane.{AreSaneCells};
ghost use Rattle.watermarks.specs.Holds.{hold_at};

mod advance;
mod draft;
mod due;
mod fired;
mod firing;
mod group_plan;
mod handing;
mod keyed;
mod looking;
mod merging;
mod placing;
mod ranks;
mod restoring;
mod room;
mod standing;

use crate::arrivals::leave_others;
use crate::groups::advance::Next;
use crate::groups::draft::Tracked;
pub use crate::groups::group_plan::GroupPlan;
use crate::groups::keyed::LedKey;
use crate::groups::looking::{place_among, shared_key};
use crate::groups::standing::Known;
use beam_values::{
    Arrival, Cell, Dropped, List, Mark, NoMemory, Pane, Plan, Span, StageMarks, Value,
};
use cell_index::{CellKey, IndexKey};
use std::alloc::Global;
use std::collections::BTreeMap;
use std::marker::Model;

/// The cells of all Groups of a plan, and the elements that they dropped.
#[derive(Debug, Drop)]
pub struct Groups {
    plan: GroupPlan,
    tracked: Tracked,
    dropped: Vec<Dropped>,
    /// What is known of the windows that stand at Groups of sessions, unless a commit was refused.
    standing: Option<BTreeMap<LedKey, Known>>,
    alloc: Global,
}

impl Model for Groups {
    ghost use Rattle.std.specs.Coded.{codes};
    ghost use Rattle.beam_values.specs.contracts.value.Value as values;
    ghost use Rattle.group_cells.specs.Commits.{SeenGroups};
    ghost use Rattle.group_cells.specs.Drafts.{IsSettled};

    ghost Value = { SeenGroups };

    ghost coded = { Prim.hlevel (codes, values.the_row.coded) };

    ghost view = { λ g. record {
      plan = g.plan;
      cells = g.tracked.cells.items;
      dropped = g.dropped.items;
    } };

    ghost invariant = { λ g. IsSettled g.plan g.tracked g.standing };
}

impl Groups {
    /// No cell, and nothing dropped.
    pub fn new(alloc: Global, plan: &Plan) -> Result<Groups, NoMemory>
        requires { IsChecked plan.now }
        ensures { IfOk result
            (λ groups. groups ≡ record { plan = plan.now; cells = []; dropped = [] }) }
    {
        Ok(Groups {
            plan: GroupPlan::new(alloc, plan)?,
            tracked: Tracked::new(alloc),
            dropped: Vec::new(alloc),
            standing: Some(BTreeMap::new(alloc)),
            alloc,
        })
    }

    /// The cells and the dropped elements of a book that was stored: cells that a commit with these marks
    /// can leave. What they are found and due by is made anew, and what is known of windows that stand by
    /// the next commit.
    pub fn restore(
        alloc: Global,
        plan: &Plan,
        cells: List<Cell>,
        dropped: List<Dropped>,
        marks: &[StageMarks],
    ) -> Result<Groups, NoMemory>
        requires checked { IsChecked plan.now }
        requires sane { AreSaneCells plan.now marks.now cells }
        requires dropped { All (λ lost. is_group plan.now lost.node ≡ true) dropped }
        requires few { length cells < 2 ^ 32 }
        ensures { IfOk result
            (λ groups. groups ≡ record { plan = plan.now; cells = cells; dropped = dropped }) }
    {
        let _ = marks;
        let plan = GroupPlan::new(alloc, plan)?;
        let tracked = Tracked::of(alloc, &plan, cells)?;
        Ok(Groups {
            plan,
            tracked,
            dropped: dropped.into_vec(),
            standing: None,
            alloc,
        })
    }

    /// One commit of all Groups, in the order of the nodes: arrivals are tested against the marks before
    /// it; then the marks of each node are computed from its inputs and `holds`, the least hold of each
    /// node without the panes that fire now, and the cells of each Group fire at the mark into it. The
    /// panes answered wait, and hold their Groups back. Takes the arrivals at Groups out of the list,
    /// and leaves the others. After a refusal nothing is changed.
    pub fn commit(
        &mut self,
        plan: &Plan,
        arrivals: &mut List<Arrival>,
        holds: &[Mark],
        marks: &mut [StageMarks],
        commit: u32,
    ) -> Result<List<Pane>, NoMemory>
        requires plan { self.old.plan ≡ plan.now }
        requires checked { IsChecked plan.now }
        requires holds { length holds.now ≡ length plan.now.nodes }
        requires marks { length marks.old ≡ length plan.now.nodes }
        requires gaps { All (HasGap plan.now) arrivals.old }
        requires rises { RisesFrom plan.now (hold_at holds.now) marks.old }
        ensures legal { IfOk result
            (KeepsLegal plan.now commit marks.old marks.new self.old self.new) }
        ensures rounds { IfOk result (AreRounds plan.now commit marks.old marks.new
            arrivals.old self.old.cells self.new.cells) }
        ensures committed { IfOk result (IsCommitted plan.now commit marks.old marks.new
            (hold_at holds.now) arrivals.old arrivals.new self.old self.new) }
        ensures rises { OnOk result
            ((held : ℕ → ℤ) → AreMarks plan.now held marks.old → NoneFalls marks.old marks.new) }
        ensures few { IfOk result
            (λ fired. length fired ≤ length self.old.cells + length arrivals.old) }
        ensures grown { OnOk result
            (length self.new.cells ≤ length self.old.cells + length arrivals.old) }
        ensures err { OnErr result
            ((self.new ≡ self.old) × (marks.new ≡ marks.old) × (arrivals.new ≡ arrivals.old)) }
    {
        let standing = self.standing.take();
        let next = self.tracked.commit(
            self.alloc,
            &self.plan,
            arrivals.as_slice(),
            holds,
            marks,
            commit,
            standing,
            &mut self.dropped,
        )?;
        let Next {
            marks: after,
            fired,
            standing,
        } = next;
        self.standing = Some(standing);
        leave_others(self.alloc, plan, arrivals);
        marks.copy_from_slice(after.as_slice());
        Ok(fired)
    }

    /// The cells of all Groups, in the order in which they were made, with those that were merged away.
    pub fn cells(&self) -> &[Cell]
        ensures { result.now ≡ self.now.cells }
    {
        self.tracked.cells.as_slice()
    }

    /// The elements that came too late, in the order of their commits.
    pub fn dropped(&self) -> &[Dropped]
        ensures { result.now ≡ self.now.dropped }
    {
        self.dropped.as_slice()
    }

    /// The place of the cell of a node, key and window, found by index; one whose key is a sequence is
    /// looked for among all cells. Takes no memory.
    pub fn place(&self, node: u32, key: &Value, span: Span) -> Option<u32>
        ensures { result ≡ place_of node key.now span self.now.cells }
    {
        match shared_key(key) {
            Some(key) => self
                .tracked
                .index
                .find(&IndexKey::of(CellKey { node, span, key })),
            None => place_among(node, key, span, self.tracked.cells.as_slice()),
        }
    }

    /// The least mark at which a cell of the node is due.
    pub fn next_due(&self, node: u32) -> Option<i64>
        ensures { IsNextDue self.now.plan node self.now.cells result }
    {
        self.tracked.due.next(node)
    }

    /// Gives both lists away. Takes no memory.
    pub fn into_lists(self) -> (List<Cell>, List<Dropped>)
        ensures cells { result.0 ≡ self.cells }
        ensures dropped { result.1 ≡ self.dropped }
    {
        let Groups {
            plan: _,
            tracked,
            dropped,
            standing: _,
            alloc: _,
        } = self;
        let Tracked {
            cells,
            index: _,
            due: _,
            changes: _,
        } = tracked;
        (List::from_vec(cells), List::from_vec(dropped))
    }
}
