use crate::{
    Arrival, Cell, CommitMarks, Dead, Done, Dropped, FaultNote, FileLen, KeyLog, Pane, Plan,
};
use beam_containers::List;

/// Why a run was stopped.
#[derive(Clone, Copy, Debug, PartialEq, Eq)]
pub enum StopCause {
    /// A job failed as often as it may.
    Spent(FaultNote),
    NoMemory,
}

/// What a run came to: its plan, and everything that was committed.
#[derive(Debug, Drop)]
pub struct Outcome {
    pub plan: Plan,
    /// By node and item.
    pub files: List<FileLen>,
    /// By node, item and range.
    pub done: List<Done>,
    /// Positions that were set aside, by node, item and position.
    pub dead: List<Dead>,
    /// By node, the bytes that spell the key, and window.
    pub cells: List<Cell>,
    /// By the commit that fired them, and within a commit by node, the bytes that spell the key, and window.
    pub panes: List<Pane>,
    /// In the order in which they came.
    pub dropped: List<Dropped>,
    /// By node, the bytes that spell the key, and window.
    pub logs: List<KeyLog>,
    /// What reached the Writes, in the order in which it came.
    pub written: List<Arrival>,
    /// The opening, and then each commit.
    pub commits: List<CommitMarks>,
    pub stopped: Option<StopCause>,
}
