//! The arrivals of a commit that no Group takes, and the marks by which the others are tested.

ghost use Rattle.std.specs.Prelude.{◌≡◌, not};
ghost use Rattle.std.specs.List.{filter};
ghost use Rattle.beam_values.specs.Marks.{marks_at};
ghost use Rattle.group_cells.specs.Commits.{is_at_group};

use crate::rules::is_group;
use beam_values::{Arrival, List, Mark, Plan, StageMarks};
use std::alloc::Global;
use std::mem;

/// Takes the arrivals at Groups out, and leaves the others where they lie. Takes no memory.
pub fn leave_others(alloc: Global, plan: &Plan, arrivals: &mut List<Arrival>)
    ensures { arrivals.new
        ≡ filter (λ arrival. not (is_at_group plan.now arrival)) arrivals.old }
{
    let mut items = mem::replace(arrivals, List::new(alloc)).into_vec();
    drop_at_groups(plan, &mut items);
    *arrivals = List::from_vec(items);
}

fn drop_at_groups(plan: &Plan, arrivals: &mut Vec<Arrival>)
    ensures { arrivals.new.items
        ≡ filter (λ arrival. not (is_at_group plan.now arrival)) arrivals.old.items }
{
    arrivals.retain(|arrival| !is_group(plan, arrival.node));
}

/// The mark into a node; FINAL where there is no such node.
pub fn mark_into(marks: &[StageMarks], node: u32) -> Mark
    ensures { result ≡ (marks_at marks.now node).mark_in }
{
    match marks.get(node as usize) {
        None => Mark::FINAL,
        Some(stage) => stage.mark_in,
    }
}
