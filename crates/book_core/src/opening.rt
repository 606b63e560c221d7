ghost use Rattle.std.specs.Prelude.{◌≡◌, ◌≤◌, ◌<◌, [], map, length, IfOk, All};
ghost use Rattle.beam_model.specs.Holds.{piece_hold};
ghost use Rattle.beam_values.specs.Checked.{IsChecked};
ghost use Rattle.beam_values.specs.Marks.{AreMarks};
ghost use Rattle.book_core.specs.Indexes.{AreHeldIn, least_in};
ghost use Rattle.book_core.specs.Runs.{pieces_of};

use crate::held::{NodeHolds, mark_of_piece};
use crate::queue::Queue;
use beam_values::{FileLen, List, Mark, NoMemory, Node, Piece, Plan, StageMarks};
use split_core::Pieces;
use std::alloc::Global;
use watermarks::stage_marks;

/// Cuts all items into pieces.
pub fn cut_files(alloc: Global, files: &[FileLen], chunk: u64) -> Result<Pieces, NoMemory>
    requires { 1 ≤ chunk }
    ensures { IfOk result (λ pieces. pieces.pending ≡ pieces_of chunk files.now) }
{
    let mut pieces = Pieces::new(alloc);
    for file in files {
        pieces.initial(file.node, file.item, file.len, chunk)?;
    }
    Ok(pieces)
}

/// The marks of these pieces, node by node.
pub fn hold_pieces(alloc: Global, plan: &Plan, pieces: &[Piece]) -> Result<NodeHolds, NoMemory>
    requires checked { IsChecked plan.now }
    requires within { All (λ piece. piece.node < length plan.now.nodes) pieces.now }
    ensures held { IfOk result (λ held. AreHeldIn held (map (piece_hold plan.now) pieces.now)) }
    ensures sized { IfOk result (λ held. length held ≡ length plan.now.nodes) }
{
    let mut held = NodeHolds::new(alloc, plan.nodes.len())?;
    for piece in pieces {
        held.keep_room(piece.node, 1)?;
        held.add_kept(piece.node, mark_of_piece(plan, piece));
    }
    Ok(held)
}

/// The marks of all nodes.
pub fn mark_nodes(
    alloc: Global,
    plan: &Plan,
    held: &NodeHolds,
) -> Result<List<StageMarks>, NoMemory>
    requires checked { IsChecked plan.now }
    requires sized { length held.now ≡ length plan.now.nodes }
    ensures { IfOk result (AreMarks plan.now (least_in held.now)) }
{
    let least = held.least(alloc)?;
    let mut marks = vec![in alloc; UNMARKED; plan.nodes.len()]?;
    stage_marks(plan, least.as_slice(), marks.as_mut_slice());
    Ok(List::from_vec(marks))
}

// What is written over.
const UNMARKED: StageMarks = StageMarks {
    mark_in: Mark::FINAL,
    mark_out: Mark::FINAL,
};

/// No pane waits at any node.
pub fn empty_queues(alloc: Global, nodes: &[Node]) -> Result<Vec<Queue>, NoMemory>
    ensures { IfOk result (λ queues. map (λ q. q.panes) queues.items ≡ map (λ node. []) nodes.now) }
{
    let mut queues = Vec::new(alloc);
    for _node in nodes {
        queues.push(Queue::new(alloc))?;
    }
    Ok(queues)
}
