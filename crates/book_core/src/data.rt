//! A book as plain data.

use crate::live::{Batch, WaitingPane};
use beam_values::{
    Arrival, Cell, CommitMarks, Dead, Done, Dropped, FileLen, List, Options, Pane, Piece, Plan,
};
use stateful_core::KeyData;

/// What a book holds that has one slot, which works nothing, and isn't stopped.
#[derive(Debug, Drop)]
pub struct BookData {
    pub plan: Plan,
    /// The source items and their lengths, by node and item.
    pub files: List<FileLen>,
    pub options: Options,
    /// The pieces, the first to be taken first.
    pub pending: List<Piece>,
    /// The panes that wait to go on, in the order in which they fired.
    pub waiting: List<WaitingPane>,
    /// The batches whose work failed.
    pub returned: List<Batch>,
    pub cells: List<Cell>,
    pub dropped: List<Dropped>,
    /// The key cells of the Stateful nodes, by first arrival.
    pub keys: List<KeyData>,
    pub panes: List<Pane>,
    pub done: List<Done>,
    pub dead: List<Dead>,
    pub written: List<Arrival>,
    /// The marks after the opening, and then after each commit.
    pub commits: List<CommitMarks>,
    /// How many jobs failed in a call, and how many in a read.
    pub calls: u64,
    pub reads: u64,
}
