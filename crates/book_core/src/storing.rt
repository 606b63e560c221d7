ghost use Rattle.std.specs.Prelude.{◌≡◌, None, IfOk, map, reverse, List};
ghost use Rattle.std.specs.List.{All, flat_map};
ghost use Rattle.std.specs.List.Sorted.{IsNonDecreasingBy, IsPermutation};
ghost use Rattle.beam_values.specs.declared.marks.CommitMarks.{CommitMarks};
ghost use Rattle.beam_values.specs.declared.plan.Plan.{Plan};
ghost use Rattle.stateful_core.specs.Data.{AreKeysFormed, cells_of_data};
ghost use Rattle.stateful_core.specs.Facts.{IsCellSane};
ghost use Rattle.book_core.specs.KeyCells.{cells_in};

use crate::live::{Batch, WaitingPane};
use crate::queue::Queue;
use crate::results::Results;
use beam_values::{
    Arrival, Cell, CommitMarks, Dead, Done, Dropped, Duplicate, FileLen, List, NoMemory, Pane,
    Piece, Plan,
};
use group_cells::Groups;
use split_core::Pieces;
use stateful_core::laws::data_stands_for_its_cell;
use stateful_core::{KeyData, Keys};
use std::alloc::Global;

/// What no step changes.
#[derive(Debug, Drop)]
pub struct Given {
    pub plan: Plan,
    pub files: List<FileLen>,
}

/// What isn't committed, and no slot works.
#[derive(Debug, Drop)]
pub struct Uncommitted {
    pub pending: List<Piece>,
    pub waiting: List<WaitingPane>,
    pub returned: List<Batch>,
}

/// What Groups and Stateful nodes hold.
#[derive(Debug, Drop)]
pub struct HeldCells {
    pub cells: List<Cell>,
    pub dropped: List<Dropped>,
    pub keys: List<KeyData>,
}

/// What came of the commits.
#[derive(Debug, Drop)]
pub struct Committed {
    pub panes: List<Pane>,
    pub done: List<Done>,
    pub dead: List<Dead>,
    pub written: List<Arrival>,
    pub commits: List<CommitMarks>,
}

/// The plan and the lengths of its items.
pub fn copy_given(alloc: Global, plan: &Plan, files: &[FileLen]) -> Result<Given, NoMemory>
    ensures plan { IfOk result (λ given. given.plan ≡ plan.now) }
    ensures files { IfOk result (λ given. given.files ≡ files.now) }
{
    Ok(Given {
        plan: plan.duplicate(alloc)?,
        files: List::from_slice(alloc, files)?,
    })
}

/// The pieces, the panes that wait, in the order in which they fired, and the batches that were given back.
pub fn copy_uncommitted(
    alloc: Global,
    pieces: &Pieces,
    queues: &[Queue],
    returned: &[Batch],
) -> Result<Uncommitted, NoMemory>
    ensures pending { IfOk result (λ copy. copy.pending ≡ pieces.now.pending) }
    ensures waiting { IfOk result
        (λ copy. IsPermutation (flat_map (λ queue. queue.panes) queues.now) copy.waiting) }
    ensures order { IfOk result
        (λ copy. IsNonDecreasingBy (λ waiting. waiting.pane) copy.waiting) }
    ensures returned { IfOk result (λ copy. copy.returned ≡ returned.now) }
{
    Ok(Uncommitted {
        pending: lowest_first(alloc, pieces.pending())?,
        waiting: all_waiting(alloc, queues)?,
        returned: copies(alloc, returned)?,
    })
}

/// The cells of Groups and what they dropped, and the key cells, none of which is worked.
pub fn copy_cells(alloc: Global, groups: &Groups, keys: &Keys) -> Result<HeldCells, NoMemory>
    requires sane { (plan : Plan) × (commits : List CommitMarks)
        × All (IsCellSane plan commits) (cells_in keys.now) }
    requires free { All (λ cell. cell.live ≡ None) (cells_in keys.now) }
    ensures cells { IfOk result (λ copy. copy.cells ≡ groups.now.cells) }
    ensures dropped { IfOk result (λ copy. copy.dropped ≡ groups.now.dropped) }
    ensures keys { IfOk result (λ copy. cells_of_data copy.keys ≡ cells_in keys.now) }
    ensures formed { IfOk result (λ copy. AreKeysFormed copy.keys) }
{
    Ok(HeldCells {
        cells: copies(alloc, groups.cells())?,
        dropped: copies(alloc, groups.dropped())?,
        keys: copy_keys(keys)?,
    })
}

/// The results of the commits.
pub fn copy_results(alloc: Global, results: &Results) -> Result<Committed, NoMemory>
    ensures panes { IfOk result (λ copy. copy.panes ≡ results.now.panes.items) }
    ensures done { IfOk result (λ copy. copy.done ≡ results.now.done.items) }
    ensures dead { IfOk result (λ copy. copy.dead ≡ results.now.dead.items) }
    ensures written { IfOk result (λ copy. copy.written ≡ results.now.written.items) }
    ensures commits { IfOk result (λ copy. copy.commits ≡ results.now.commits.items) }
{
    Ok(Committed {
        panes: copies(alloc, results.panes.as_slice())?,
        done: List::from_slice(alloc, results.done.as_slice())?,
        dead: List::from_slice(alloc, results.dead.as_slice())?,
        written: copies(alloc, results.written.as_slice())?,
        commits: results.commits.copies()?,
    })
}

fn copies<T: Duplicate>(alloc: Global, items: &[T]) -> Result<List<T>, NoMemory>
    ensures { IfOk result (λ copies. copies ≡ items.now) }
{
    let mut copies = Vec::with_capacity(alloc, items.len())?;
    for item in items {
        copies.push(item.duplicate(alloc)?)?;
    }
    Ok(List::from_vec(copies))
}

// The book has the lowest piece last.
fn lowest_first(alloc: Global, pieces: &[Piece]) -> Result<List<Piece>, NoMemory>
    ensures { IfOk result (λ lowest. lowest ≡ reverse pieces.now) }
{
    let mut pieces = Vec::from_slice(alloc, pieces)?;
    pieces.as_mut_slice().reverse();
    Ok(List::from_vec(pieces))
}

// Each queue has the order in which its panes fired. All of them together get it by a sort.
fn all_waiting(alloc: Global, queues: &[Queue]) -> Result<List<WaitingPane>, NoMemory>
    ensures waiting { IfOk result
        (λ waiting. IsPermutation (flat_map (λ queue. queue.panes) queues.now) waiting) }
    ensures order { IfOk result (λ waiting. IsNonDecreasingBy (λ w. w.pane) waiting) }
{
    let mut waiting = queue_by_queue(alloc, queues)?;
    waiting.sort_unstable_by_key(|pane| pane.pane);
    Ok(List::from_vec(waiting))
}

fn queue_by_queue(alloc: Global, queues: &[Queue]) -> Result<Vec<WaitingPane>, NoMemory>
    ensures { IfOk result
        (λ waiting. waiting.items ≡ flat_map (λ queue. queue.panes) queues.now) }
{
    let mut waiting = Vec::new(alloc);
    for queue in queues {
        queue.copy_to(&mut waiting)?;
    }
    Ok(waiting)
}

fn copy_keys(keys: &Keys) -> Result<List<KeyData>, NoMemory>
    requires sane { (plan : Plan) × (commits : List CommitMarks)
        × All (IsCellSane plan commits) (cells_in keys.now) }
    requires free { All (λ cell. cell.live ≡ None) (cells_in keys.now) }
    ensures keys { IfOk result (λ copy. cells_of_data copy ≡ cells_in keys.now) }
    ensures formed { IfOk result (λ copy. AreKeysFormed copy) }
{
    data_stands_for_its_cell();
    keys.key_data()
}
