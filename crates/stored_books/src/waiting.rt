//! Whether panes that aren't through are held as they may be.

ghost use Rattle.std.specs.Prelude.{◌≡◌, ◌↔◌, ◌<◌, ◌++◌, length, IfOk, IsTrue, OnOk};
ghost use Rattle.std.specs.List.{All, flat_map};
ghost use Rattle.book_core.specs.Sane.{AscendByPane};
ghost use Rattle.stored_books.specs.Facts.{AreInOrder, AreWaitingSane};
ghost use Rattle.stored_books.specs.Held.{held_places, node_in, own_place, places_in};

use beam_values::{NoMemory, Pane};
use book_core::{Batch, BookData, WaitingPane};
use piece_checks::{HeldPlace, are_held_once};
use std::alloc::Global;

/// Whether the panes that wait, and those of each batch, are in the order in which they fired, and each is a
/// pane of its Group and held once.
pub fn are_waiting_sane(alloc: Global, stored: &BookData) -> Result<bool, NoMemory>
    ensures { IfOk result (λ is. IsTrue is ↔ AreWaitingSane stored.now) }
{
    if !are_in_order(stored) {
        return Ok(false);
    }
    let held = held_places(alloc, stored)?;
    are_held_once(alloc, stored.panes.as_slice(), held.as_slice())
}

fn are_in_order(stored: &BookData) -> bool
    ensures { IsTrue result ↔ AreInOrder stored.now }
{
    are_there(stored.panes.len(), stored.waiting.as_slice())
        && ascend(stored.waiting.as_slice())
        && do_batches_ascend(stored.returned.as_slice())
}

fn are_there(panes: usize, waiting: &[WaitingPane]) -> bool
    ensures { IsTrue result ↔ All (λ waiting. waiting.pane < panes) waiting.now }
{
    waiting.iter().all(|one| (one.pane as usize) < panes)
}

fn ascend(waiting: &[WaitingPane]) -> bool
    ensures { IsTrue result ↔ AscendByPane waiting.now }
{
    waiting.is_sorted_by(|a, b| a.pane < b.pane)
}

fn do_batches_ascend(returned: &[Batch]) -> bool
    ensures { IsTrue result ↔ All (λ batch. AscendByPane batch.panes) returned.now }
{
    returned.iter().all(|batch| ascend(batch.panes.as_slice()))
}

/// Where the panes are held that wait or were given back. Those that wait are at their own nodes.
fn held_places(alloc: Global, stored: &BookData) -> Result<Vec<HeldPlace>, NoMemory>
    ensures { IfOk result (λ held. held.items ≡ held_places stored.now) }
{
    let mut held = Vec::new(alloc);
    push_waiting(
        &mut held,
        stored.panes.as_slice(),
        stored.waiting.as_slice(),
    )?;
    push_returned(&mut held, stored.returned.as_slice())?;
    Ok(held)
}

fn push_waiting(
    held: &mut Vec<HeldPlace>,
    panes: &[Pane],
    waiting: &[WaitingPane],
) -> Result<(), NoMemory>
    ensures { OnOk result (held.new.items
        ≡ held.old.items ++ flat_map (own_place panes.now) waiting.now) }
{
    for one in waiting {
        push_own(held, panes, one)?;
    }
    Ok(())
}

fn push_own(
    held: &mut Vec<HeldPlace>,
    panes: &[Pane],
    waiting: &WaitingPane,
) -> Result<(), NoMemory>
    ensures { OnOk result (held.new.items ≡ held.old.items ++ own_place panes.now waiting.now) }
{
    if let Some(node) = node_in(panes, waiting) {
        held.push(HeldPlace {
            node,
            pane: waiting.pane,
        })?;
    }
    Ok(())
}

/// The Group of a pane that waits.
pub fn node_in(panes: &[Pane], waiting: &WaitingPane) -> Option<u32>
    ensures { result ≡ node_in panes.now waiting.now }
{
    match panes.get(waiting.pane as usize) {
        Some(pane) => Some(pane.node),
        None => None,
    }
}

fn push_returned(held: &mut Vec<HeldPlace>, returned: &[Batch]) -> Result<(), NoMemory>
    ensures { OnOk result (held.new.items ≡ held.old.items ++ flat_map places_in returned.now) }
{
    for batch in returned {
        push_batch(held, batch)?;
    }
    Ok(())
}

fn push_batch(held: &mut Vec<HeldPlace>, batch: &Batch) -> Result<(), NoMemory>
    ensures { OnOk result (held.new.items ≡ held.old.items ++ places_in batch.now) }
{
    for waiting in batch.panes.as_slice() {
        held.push(HeldPlace {
            node: batch.node,
            pane: waiting.pane,
        })?;
    }
    Ok(())
}
