ghost use Rattle.std.specs.Prelude.{◌≡◌, ◌↔◌, true, IfOk};
ghost use Rattle.std.specs.List.Sorted.{IsSorted};
ghost use Rattle.std.specs.Ordering.{on};
ghost use Rattle.beam_values.specs.Marks.{marks_at};
ghost use Rattle.beam_values.specs.Nodes.{is_group};
ghost use Rattle.beam_model.specs.Panes.{rules_of};
ghost use Rattle.group_cells.specs.Sane.{AreSaneCells};
ghost use Rattle.cell_checks.specs.Listing.{cells_in, listing_cmp, window_cmp, AreSaneGroups};
ghost use Rattle.cell_checks.specs.Listing.{IsSaneGroup};

use crate::listing::{count_own, listed};
use crate::one_group::is_sane_group;
use crate::settled::are_settled;
use beam_values::{Cell, NoMemory, Plan, StageMarks};
use group_cells::{GroupPlan, mark_into};
use std::alloc::Global;

/// Whether cells are what a commit with these marks can leave: each is of a Group and fires nothing more at
/// the mark into it, and of each Group and key no window has two cells, each cell that was merged lies in one
/// that stands, and the windows that can still merge are apart.
pub fn are_sane_cells(
    alloc: Global,
    plan: &Plan,
    marks: &[StageMarks],
    cells: &[Cell],
) -> Result<bool, NoMemory>
    ensures { IfOk result (λ is. (is ≡ true) ↔ AreSaneCells plan.now marks.now cells.now) }
{
    let plan = GroupPlan::new(alloc, plan)?;
    if !are_settled(&plan, marks, cells) {
        return Ok(false);
    }
    let listed = listed(alloc, cells)?;
    Ok(are_sane_groups(&plan, marks, listed.as_slice()))
}

/// Whether the cells of each Group and key are sane among each other.
fn are_sane_groups(plan: &GroupPlan, marks: &[StageMarks], listed: &[&Cell]) -> bool
    requires { IsSorted listing_cmp (cells_in listed.now) }
    ensures { (result ≡ true) ↔ AreSaneGroups plan.now marks.now (cells_in listed.now) }
{
    let mut at = 0;
    while at < listed.len() {
        let left = listed.split_at(at).1;
        let first: &Cell = left[0];
        let count = count_own(first, left.split_at(1).1) + 1;
        if !is_sane_at(plan, marks, first, left.split_at(count).0) {
            return false;
        }
        at += count;
    }
    true
}

/// Whether cells of one Group and key, by their windows, are sane. `first` is one of them.
fn is_sane_at(plan: &GroupPlan, marks: &[StageMarks], first: &Cell, own: &[&Cell]) -> bool
    requires { IsSorted (on (λ cell. cell.span) window_cmp) (cells_in own.now) }
    ensures { (result ≡ true) ↔ (is_group plan.now first.now.node ≡ true
        → IsSaneGroup (rules_of plan.now first.now.node)
        (marks_at marks.now first.now.node).mark_in (cells_in own.now)) }
{
    match plan.rules(first.node) {
        None => true,
        Some(rules) => is_sane_group(rules, mark_into(marks, first.node), own),
    }
}
