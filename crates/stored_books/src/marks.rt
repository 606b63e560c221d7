//! Whether the marks of commits, and the cells at the last ones, are what a run leaves.

ghost use Rattle.std.specs.Prelude.{◌≡◌, ◌↔◌, IfOk, IsTrue};
ghost use Rattle.beam_values.specs.Checked.{IsChecked};
ghost use Rattle.beam_values.specs.Marks.{AreMarks};
ghost use Rattle.stored_books.specs.Facts.{AreCellsTested, AreMarksSane};
ghost use Rattle.stored_books.specs.Held.{last_marks_of, least_hold_of};

use crate::least::least_holds;
use beam_values::{CommitMarks, NoMemory, Plan, StageMarks};
use book_core::BookData;
use cell_checks::{are_panes_counted, are_sane_cells};
use piece_checks::{are_marks, are_marks_sized, never_fall};
use std::alloc::Global;

/// Whether each commit has marks for all nodes, none falls, and the last ones follow from what isn't through.
pub fn are_marks_sane(alloc: Global, plan: &Plan, stored: &BookData) -> Result<bool, NoMemory>
    requires { IsChecked plan.now }
    ensures { IfOk result (λ is. IsTrue is ↔ AreMarksSane plan.now stored.now) }
{
    let commits = stored.commits.as_slice();
    if !are_marks_sized(plan.nodes.len(), commits) {
        return Ok(false);
    }
    if !never_fall(plan.nodes.len(), commits) {
        return Ok(false);
    }
    are_last_marks(alloc, plan, stored, last_marks(commits))
}

fn are_last_marks(
    alloc: Global,
    plan: &Plan,
    stored: &BookData,
    marks: &[StageMarks],
) -> Result<bool, NoMemory>
    requires { IsChecked plan.now }
    ensures { IfOk result
        (λ is. IsTrue is ↔ AreMarks plan.now (least_hold_of plan.now stored.now) marks.now) }
{
    if marks.len() != plan.nodes.len() {
        return Ok(false);
    }
    let least = least_holds(alloc, plan, stored)?;
    Ok(are_marks(plan, least.as_slice(), marks))
}

/// The marks after the last commit.
fn last_marks(commits: &[CommitMarks]) -> &[StageMarks]
    ensures { result.now ≡ last_marks_of commits.now }
{
    match commits.get(commits.len().saturating_sub(1)) {
        Some(commit) => commit.marks.get().as_slice(),
        None => &[],
    }
}

/// Whether cells are sane at the last marks, and count no more panes than there are.
pub fn are_cells_sane(alloc: Global, plan: &Plan, stored: &BookData) -> Result<bool, NoMemory>
    ensures { IfOk result (λ is. IsTrue is ↔ AreCellsTested plan.now stored.now) }
{
    let cells = stored.cells.as_slice();
    if !are_panes_counted(stored.panes.len(), cells) {
        return Ok(false);
    }
    let marks = last_marks(stored.commits.as_slice());
    are_sane_cells(alloc, plan, marks, cells)
}
