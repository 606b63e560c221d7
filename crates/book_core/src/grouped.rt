ghost use Rattle.std.specs.Prelude.{◌≡◌, ◌+◌, ◌≤◌, [], true, false, length, All, IfOk, OnErr, OnOk};
ghost use Rattle.std.specs.List.{list_any};
ghost use Rattle.beam_values.specs.Checked.{IsChecked};
ghost use Rattle.beam_values.specs.Nodes.{is_group_kind};
ghost use Rattle.group_cells.specs.Commits.{AreRounds, HasGap, IsCommitted, RisesFrom};
ghost use Rattle.watermarks.specs.Holds.{hold_at};

use beam_values::{Arrival, List, Mark, NoMemory, Node, NodeKind, Pane, Plan, StageMarks};
use group_cells::Groups;
use std::alloc::Global;
use watermarks::stage_marks;

/// Whether a node is a Group.
pub fn is_group(node: &Node) -> bool
    ensures { result ≡ is_group_kind node.now.kind }
{
    matches!(node.kind, NodeKind::Group { .. })
}

/// The Groups take the arrivals at them, the marks of all nodes are written, and the Groups fire. Where the
/// plan has no Group, nothing but the marks is touched.
pub fn commit_groups(
    alloc: Global,
    plan: &Plan,
    groups: &mut Groups,
    arrivals: &mut List<Arrival>,
    holds: &[Mark],
    marks: &mut [StageMarks],
    commit: u32,
) -> Result<List<Pane>, NoMemory>
    requires plan { groups.old.plan ≡ plan.now }
    requires checked { IsChecked plan.now }
    requires holds { length holds.now ≡ length plan.now.nodes }
    requires marks { length marks.old ≡ length plan.now.nodes }
    requires gaps { All (HasGap plan.now) arrivals.old }
    requires rises { RisesFrom plan.now (hold_at holds.now) marks.old }
    ensures rounds { IfOk result (AreRounds plan.now commit marks.old marks.new
        arrivals.old groups.old.cells groups.new.cells) }
    ensures committed { IfOk result (IsCommitted plan.now commit marks.old marks.new
        (hold_at holds.now) arrivals.old arrivals.new groups.old groups.new) }
    ensures few { IfOk result
        (λ fired. length fired ≤ length groups.old.cells + length arrivals.old) }
    ensures grown { OnOk result
        (length groups.new.cells ≤ length groups.old.cells + length arrivals.old) }
    ensures err { OnErr result ((groups.new ≡ groups.old) × (arrivals.new ≡ arrivals.old)) }
{
    if has_groups(plan, groups) {
        return groups.commit(plan, arrivals, holds, marks, commit);
    }
    stage_marks(plan, holds, marks);
    Ok(List::new(alloc))
}

/// Whether a node is a Group, or a cell stands.
fn has_groups(plan: &Plan, groups: &Groups) -> bool
    ensures nodes { result ≡ false
        → list_any (λ node. is_group_kind node.kind) plan.now.nodes ≡ false }
    ensures cells { result ≡ false → groups.now.cells ≡ [] }
{
    is_any_group(plan.nodes.as_slice()) || !groups.cells().is_empty()
}

fn is_any_group(nodes: &[Node]) -> bool
    ensures { result ≡ list_any (λ node. is_group_kind node.kind) nodes.now }
{
    nodes.iter().any(|node| is_group(node))
}
