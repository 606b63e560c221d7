ghost use Rattle.std.specs.Prelude.{◌≡◌, ◌<◌, ◌==◌, ◌++◌, Option, Some, None, length, map};
ghost use Rattle.std.specs.Prelude.{slice_get, if◌then◌else◌, IfOk, OnOk};
ghost use Rattle.std.specs.List.{filter};
ghost use Rattle.book_core.specs.Book.{SeenBook, panes_of, pane_at, queue_at};
ghost use Rattle.book_core.specs.DueAt.{IsBatchAt, IsDueAs};
ghost use Rattle.book_core.specs.Jobs.{first_due, due_at, lowest_of, lower_batch, job_of};
ghost use Rattle.book_core.specs.declared.live.Batch.{Batch};
ghost use Rattle.book_core.specs.declared.live.Live.TheVariants as live;

use crate::failing::first_pane;
use crate::live::{Batch, Live, WaitingPane};
use crate::queue::Queue;
use beam_values::{List, NoMemory, Pane, Piece};
use bundle_commit::Job;
use std::alloc::Global;

/// Where what is due is found.
#[derive(Clone, Copy, Debug)]
pub enum DueAt {
    /// The place of a batch that was given back.
    GivenBack(usize),
    /// The node whose oldest panes are due.
    Oldest(u32),
}

/// What is due first, in the order of the nodes.
pub fn first_due(returned: &[Batch], queues: &[Queue]) -> Option<DueAt>
    requires { length queues.now < 4294967296 }
    ensures { (b : SeenBook) → b.returned ≡ returned.now
        → b.queues ≡ map (λ q. q.panes) queues.now → length b.plan.nodes ≡ length queues.now
        → IsDueAs b (first_due b) result }
{
    for (node, queue) in queues.iter().enumerate() {
        if let Some(due) = due_at(returned, node as u32, queue) {
            return Some(due);
        }
    }
    None
}

fn due_at(returned: &[Batch], node: u32, queue: &Queue) -> Option<DueAt>
    ensures { (b : SeenBook) → b.returned ≡ returned.now
        → queue_at b node ≡ queue.now.panes → IsDueAs b (due_at b node) result }
{
    match lowest_at(returned, node) {
        Some(at) => Some(DueAt::GivenBack(at)),
        None => {
            if queue.is_empty() {
                None
            } else {
                Some(DueAt::Oldest(node))
            }
        }
    }
}

// Where the batch of a node with the lowest first pane is found.
fn lowest_at(returned: &[Batch], node: u32) -> Option<usize>
    ensures { IsBatchAt returned.now result
        (lowest_of (filter (λ batch. batch.node == node) returned.now)) }
{
    let mut lowest: Option<usize> = None;
    for at in 0..returned.len() {
        lowest = lower_at(returned, node, lowest, at);
    }
    lowest
}

fn lower_at(returned: &[Batch], node: u32, lowest: Option<usize>, at: usize) -> Option<usize>
    requires { at < length returned.now }
    ensures { (found : Option Batch) (batch : Batch)
        → slice_get returned.now at ≡ Some batch → IsBatchAt returned.now lowest found
        → IsBatchAt returned.now result
        (if batch.node == node then lower_batch found batch else found) }
{
    let batch = &returned[at];
    if batch.node != node {
        return lowest;
    }
    match lowest {
        None => Some(at),
        Some(place) => match returned.get(place) {
            Some(other) if first_pane(batch) >= first_pane(other) => lowest,
            _ => Some(at),
        },
    }
}

/// The job of a batch, with copies of its panes.
pub fn batch_job(alloc: Global, panes: &[Pane], batch: &Batch) -> Result<Job, NoMemory>
    ensures { IfOk result (λ job. job ≡ job_of panes.now (live.Batch batch.now)) }
{
    Ok(Job::Batch {
        node: batch.node,
        first: first_pane(batch),
        panes: copy_panes(alloc, panes, batch.panes.as_slice())?,
        attempts: batch.attempts,
    })
}

fn copy_panes(
    alloc: Global,
    panes: &[Pane],
    waiting: &[WaitingPane],
) -> Result<List<Pane>, NoMemory>
    ensures { IfOk result (λ copies. copies ≡ panes_of panes.now waiting.now) }
{
    let mut copies = List::new(alloc);
    copies.reserve(waiting.len())?;
    for one in waiting {
        copy_pane(alloc, panes, one, &mut copies)?;
    }
    Ok(copies)
}

fn copy_pane(
    alloc: Global,
    panes: &[Pane],
    waiting: &WaitingPane,
    copies: &mut List<Pane>,
) -> Result<(), NoMemory>
    ensures { OnOk result (copies.new ≡ copies.old ++ pane_at panes.now waiting.now) }
{
    match panes.get(waiting.pane as usize) {
        Some(pane) => copies.push(pane.copy(alloc)?),
        None => Ok(()),
    }
}

/// The job of a piece.
pub fn piece_job(piece: &Piece) -> Job
    ensures { result ≡ Job.Span piece.now }
{
    Job::Span { piece: *piece }
}

/// A piece, as it is worked from the start.
pub fn started(piece: &Piece) -> Live
    ensures { result ≡ live.Span piece.now None }
{
    Live::Span {
        piece: *piece,
        attempted: None,
    }
}
