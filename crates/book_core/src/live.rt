use beam_values::{Duplicate, FaultNote, List, Mark, NoMemory, Piece};
use bundle_commit::{Job, Receipt};
use stateful_core::KeyTurn;
use std::alloc::Global;

/// A pane that waits to go on, by its place in the run's list of panes, and the mark at which it holds
/// its Group back.
#[derive(Clone, Copy, Debug, PartialEq, Eq)]
pub struct WaitingPane {
    pub pane: u32,
    pub hold: Mark,
}

impl Duplicate for WaitingPane {
    fn duplicate(&self, _alloc: Global) -> Result<WaitingPane, NoMemory> {
        Ok(*self)
    }
}

/// Panes of a Group that go on together, and how often their work has failed. There is at least one.
#[derive(Debug, Drop)]
pub struct Batch {
    pub node: u32,
    pub panes: List<WaitingPane>,
    pub attempts: u32,
}

impl Duplicate for Batch {
    fn duplicate(&self, alloc: Global) -> Result<Batch, NoMemory> {
        Ok(Batch {
            node: self.node,
            panes: self.panes.duplicate(alloc)?,
            attempts: self.attempts,
        })
    }
}

/// What a slot is working.
#[derive(Debug, Drop)]
pub enum Live {
    /// A part of a source item, with its range as live splits have left it, and the last position that
    /// was attempted.
    Span {
        piece: Piece,
        attempted: Option<u64>,
    },
    Batch(Batch),
    /// The job of a key cell, as it was handed out.
    Key(KeyTurn),
}

/// What a slot that asks for work gets.
#[derive(Debug, Drop)]
pub enum Taken {
    Job(Job),
    /// Nothing can be taken now, and another slot works.
    Nothing,
    /// Nothing can be taken, and nothing is worked.
    Finished,
    /// The book is stopped.
    Stopped,
}

/// What comes of a job that failed.
#[derive(Clone, Copy, Debug, PartialEq, Eq)]
pub enum Failure {
    Retry,
    /// It has failed as often as it may, and the book is stopped.
    Spent(FaultNote),
}

/// A commit for which there was no memory. The receipt is handed back.
#[derive(Debug, Drop)]
pub struct Unplaced {
    pub receipt: Receipt,
}
