ghost use Rattle.std.specs.Prelude.{◌≡◌};
ghost use Rattle.std.specs.List.{list_all};
ghost use Rattle.cell_checks.specs.Listing.{is_settled};

use beam_values::{Cell, StageMarks};
use group_cells::{GroupPlan, firing_of, mark_into};

/// Whether each cell is of a Group, and fires nothing more at the mark into it.
pub fn are_settled(plan: &GroupPlan, marks: &[StageMarks], cells: &[Cell]) -> bool
    ensures { result ≡ list_all (is_settled plan.now marks.now) cells.now }
{
    cells.iter().all(|cell| is_settled(plan, marks, cell))
}

fn is_settled(plan: &GroupPlan, marks: &[StageMarks], cell: &Cell) -> bool
    ensures { result ≡ is_settled plan.now marks.now cell.now }
{
    match plan.rules(cell.node) {
        None => false,
        Some(rules) => firing_of(rules, mark_into(marks, cell.node), cell).is_none(),
    }
}
