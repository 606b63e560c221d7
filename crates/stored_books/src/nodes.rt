//! Whether panes and elements are at nodes of their kind.

ghost use Rattle.std.specs.Prelude.{◌≡◌, ◌↔◌, ◌<◌, true, IsTrue};
ghost use Rattle.std.specs.List.{All};
ghost use Rattle.beam_values.specs.Nodes.{is_group, is_group_kind, is_write};
ghost use Rattle.stored_books.specs.Facts.{AreAtOwnNodes};

use beam_values::{Arrival, Dropped, NodeKind, Pane, Plan};
use book_core::BookData;

/// Whether panes are at Groups and of commits that there were, lost elements at Groups and written ones at
/// Writes.
pub fn are_at_own_nodes(plan: &Plan, stored: &BookData) -> bool
    ensures { IsTrue result ↔ AreAtOwnNodes plan.now stored.now }
{
    are_panes_at_groups(plan, stored.panes.as_slice())
        && are_panes_of_commits(stored.commits.len(), stored.panes.as_slice())
        && are_lost_at_groups(plan, stored.dropped.as_slice())
        && are_written_at_writes(plan, stored.written.as_slice())
}

fn are_panes_at_groups(plan: &Plan, panes: &[Pane]) -> bool
    ensures { IsTrue result ↔ All (λ pane. is_group plan.now pane.node ≡ true) panes.now }
{
    panes.iter().all(|pane| is_group(plan, pane.node))
}

fn are_panes_of_commits(commits: usize, panes: &[Pane]) -> bool
    ensures { IsTrue result ↔ All (λ pane. pane.commit < commits) panes.now }
{
    panes.iter().all(|pane| (pane.commit as usize) < commits)
}

fn are_lost_at_groups(plan: &Plan, dropped: &[Dropped]) -> bool
    ensures { IsTrue result ↔ All (λ lost. is_group plan.now lost.node ≡ true) dropped.now }
{
    dropped.iter().all(|lost| is_group(plan, lost.node))
}

fn are_written_at_writes(plan: &Plan, written: &[Arrival]) -> bool
    ensures { IsTrue result ↔ All (λ arrival. is_write plan.now arrival.node ≡ true) written.now }
{
    written.iter().all(|arrival| is_write(plan, arrival.node))
}

fn is_group(plan: &Plan, node: u32) -> bool
    ensures { result ≡ is_group plan.now node }
{
    match plan.nodes.get(node as usize) {
        None => false,
        Some(found) => is_group_kind(&found.kind),
    }
}

fn is_group_kind(kind: &NodeKind) -> bool
    ensures { result ≡ is_group_kind kind.now }
{
    matches!(kind, NodeKind::Group { .. })
}

fn is_write(plan: &Plan, node: u32) -> bool
    ensures { result ≡ is_write plan.now node }
{
    match plan.nodes.get(node as usize) {
        None => false,
        Some(found) => found.kind.is_write(),
    }
}
