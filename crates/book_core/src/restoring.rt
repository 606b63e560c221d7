ghost use Rattle.std.specs.Prelude.{◌≡◌, ℕ, ◌+◌, ◌<◌, ◌^◌, ◌==◌, if◌then◌else◌, true, [], ◌∷◌, ◌++◌};
ghost use Rattle.std.specs.Prelude.{length, map, slice_get, slice_set, IfOk, List, None, OnOk, Some};
ghost use Rattle.std.specs.List.{All};
ghost use Rattle.beam_model.specs.Holds.{Hold};
ghost use Rattle.beam_values.specs.Checked.{IsChecked};
ghost use Rattle.beam_values.specs.Nodes.{is_group};
ghost use Rattle.beam_values.specs.declared.cell.Pane.{Pane};
ghost use Rattle.beam_values.specs.declared.plan.Node.{Node};
ghost use Rattle.group_cells.specs.Sane.{AreSaneCells};
ghost use Rattle.split_core.specs.Order.{IsAscending};
ghost use Rattle.stateful_core.specs.Data.{AreKeysFormed, cells_of_data};
ghost use Rattle.stateful_core.specs.Facts.{AreOnce};
ghost use Rattle.book_core.specs.Book.{waiting_in};
ghost use Rattle.book_core.specs.Committing.{list_at};
ghost use Rattle.book_core.specs.Indexes.{AreHeldIn, own_holds};
ghost use Rattle.book_core.specs.Restoring.{batch_holds, queue_holds, queues_at, WaitsWithin};
ghost use Rattle.book_core.specs.Stored.{book_of, queues_of, IsSaneData};

use crate::committing::hold_panes;
use crate::data::BookData;
use crate::held::NodeHolds;
use crate::live::{Batch, Live, WaitingPane};
use crate::opening::{empty_queues, hold_pieces};
use crate::queue::Queue;
use beam_values::{Cell, Dropped, List, NoMemory, Pane, Piece, Plan, StageMarks};
use group_cells::Groups;
use split_core::Pieces;
use stateful_core::{KeyData, Keys};
use std::alloc::Global;

/// What is pending and what waits, the one slot, and what holds nodes back.
#[derive(Debug, Drop)]
pub struct Restored {
    pub pieces: Pieces,
    pub slots: Vec<Option<Live>>,
    pub queues: Vec<Queue>,
    pub held: NodeHolds,
}

/// The cells of Groups, and those of Stateful nodes.
#[derive(Debug, Drop)]
pub struct CellTables {
    pub groups: Groups,
    pub keys: Keys,
}

/// What the data has of pieces and panes.
pub fn restore(alloc: Global, plan: &Plan, stored: &BookData) -> Result<Restored, NoMemory>
    requires { IsSaneData plan.now stored.now }
    ensures pieces { IfOk result (λ restored. restored.pieces.pending ≡ stored.now.pending) }
    ensures slots { IfOk result (λ restored. restored.slots.items ≡ None ∷ []) }
    ensures queues { IfOk result
        (λ restored. map (λ q. q.panes) restored.queues.items ≡ queues_of stored.now) }
    ensures held { IfOk result
        (λ restored. AreHeldIn restored.held (own_holds (book_of stored.now))) }
    ensures sized { IfOk result (λ restored. length restored.held ≡ length plan.now.nodes) }
{
    let pieces = restore_pieces(alloc, stored.pending.as_slice())?;
    let mut slots = Vec::new(alloc);
    slots.push(None)?;
    let mut queues = empty_queues(alloc, plan.nodes.as_slice())?;
    let mut held = hold_pieces(alloc, plan, stored.pending.as_slice())?;
    let panes = stored.panes.as_slice();
    wait_again(&mut queues, &mut held, panes, stored.waiting.as_slice())?;
    hold_returned(&mut held, stored.returned.as_slice())?;
    Ok(Restored {
        pieces,
        slots,
        queues,
        held,
    })
}

/// The cells that these lists hold.
pub fn restore_cells(
    alloc: Global,
    plan: &Plan,
    cells: List<Cell>,
    dropped: List<Dropped>,
    keys: List<KeyData>,
    marks: &[StageMarks],
) -> Result<CellTables, NoMemory>
    requires checked { IsChecked plan.now }
    requires sane { AreSaneCells plan.now marks.now cells }
    requires dropped { All (λ lost. is_group plan.now lost.node ≡ true) dropped }
    requires few { length cells < 2 ^ 32 }
    requires formed { AreKeysFormed keys }
    requires once { AreOnce (cells_of_data keys) }
    ensures groups { IfOk result (λ tables.
        tables.groups ≡ record { plan = plan.now; cells = cells; dropped = dropped }) }
    ensures keys { IfOk result (λ tables. tables.keys.cells ≡ cells_of_data keys) }
{
    let groups = Groups::restore(alloc, plan, cells, dropped, marks)?;
    let keys = Keys::restore(alloc, keys)?;
    Ok(CellTables { groups, keys })
}

/// How many elements wait at key cells.
pub fn count_waiting(keys: &[KeyData]) -> usize
    requires { waiting_in (cells_of_data keys.now) < 4294967295 }
    ensures { result ≡ waiting_in (cells_of_data keys.now) }
{
    let mut count = 0;
    for key in keys {
        count += key.waiting.len();
    }
    count
}

// From the last to the first, so that each piece is put in before the others.
fn restore_pieces(alloc: Global, pending: &[Piece]) -> Result<Pieces, NoMemory>
    requires { IsAscending pending.now }
    ensures { IfOk result (λ pieces. pieces.pending ≡ pending.now) }
{
    let mut pieces = Pieces::new(alloc);
    for behind in 0..pending.len() {
        pieces.add_residual(pending[pending.len() - 1 - behind])?;
    }
    Ok(pieces)
}

// Each pane waits at its node again, and holds it back.
fn wait_again(
    queues: &mut Vec<Queue>,
    held: &mut NodeHolds,
    panes: &[Pane],
    waiting: &[WaitingPane],
) -> Result<(), NoMemory>
    requires none { (n : ℕ) → list_at queues.old.items n ≡ [] }
    requires sized { length held.old ≡ length queues.old.items }
    requires placed { All (WaitsWithin panes.now (length queues.old.items)) waiting.now }
    ensures queues { OnOk result ((nodes : List Node) → length nodes ≡ length queues.old.items
        → map (λ q. q.panes) queues.new.items ≡ queues_at panes.now waiting.now nodes) }
    ensures held { OnOk result ((holds : List Hold) → AreHeldIn held.old holds
        → AreHeldIn held.new (queue_holds (map (λ q. q.panes) queues.new.items) ++ holds)) }
    ensures sized { length held.new ≡ length held.old }
{
    for pane in waiting {
        wait_at(queues, held, node_of(panes, pane), *pane)?;
    }
    Ok(())
}

fn node_of(panes: &[Pane], waiting: &WaitingPane) -> u32
    requires { waiting.now.pane < length panes.now }
    ensures { (pane : Pane) → slice_get panes.now waiting.now.pane ≡ Some pane
        → result ≡ pane.node }
{
    panes[waiting.pane as usize].node
}

fn wait_at(
    queues: &mut Vec<Queue>,
    held: &mut NodeHolds,
    node: u32,
    waiting: WaitingPane,
) -> Result<(), NoMemory>
    requires queued { node < length queues.old.items }
    requires holding { node < length held.old }
    ensures queues { OnOk result ((n : ℕ) → list_at queues.new.items n
        ≡ list_at queues.old.items n ++ (if node == n then waiting ∷ [] else [])) }
    ensures count { length queues.new.items ≡ length queues.old.items }
    ensures held { OnOk result ((holds : List Hold)
        → AreHeldIn held.old (queue_holds (map (λ q. q.panes) queues.old.items) ++ holds)
        → AreHeldIn held.new (queue_holds (map (λ q. q.panes) queues.new.items) ++ holds)) }
    ensures sized { length held.new ≡ length held.old }
{
    let hold = waiting.hold;
    held.keep_room(node, 1)?;
    wait_in(queues, node, waiting)?;
    held.add_kept(node, hold);
    Ok(())
}

fn wait_in(queues: &mut Vec<Queue>, node: u32, waiting: WaitingPane) -> Result<(), NoMemory>
    requires { node < length queues.old.items }
    ensures each { OnOk result ((n : ℕ) → list_at queues.new.items n
        ≡ list_at queues.old.items n ++ (if node == n then waiting ∷ [] else [])) }
    ensures set { OnOk result (map (λ q. q.panes) queues.new.items
        ≡ slice_set (map (λ q. q.panes) queues.old.items) node
        (list_at queues.old.items node ++ waiting ∷ [])) }
    ensures count { length queues.new.items ≡ length queues.old.items }
{
    let queue = &mut queues[node as usize];
    queue.add(waiting)
}

// The panes of batches that were given back hold their nodes back.
fn hold_returned(held: &mut NodeHolds, returned: &[Batch]) -> Result<(), NoMemory>
    requires { All (λ batch. batch.node < length held.old) returned.now }
    ensures held { OnOk result ((holds : List Hold) → AreHeldIn held.old holds
        → AreHeldIn held.new (batch_holds returned.now ++ holds)) }
    ensures sized { length held.new ≡ length held.old }
{
    for batch in returned {
        held.keep_room(batch.node, batch.panes.len())?;
        hold_panes(held, batch.node, batch.panes.as_slice());
    }
    Ok(())
}
