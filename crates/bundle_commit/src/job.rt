use beam_values::{Arrival, Boxed, List, LogEntry, LogInput, Pane, Piece, Span, Time, Value};
use keyed_state::KeyState;
use timer_core::Timers;

/// The work of one bundle. `attempts` counts how often it has failed.
#[derive(Debug, Drop)]
pub enum Job {
    /// A part of a source item is read.
    Span {
        piece: Piece,
    },
    /// Panes of a Group go on to the nodes below it.
    Batch {
        node: u32,
        /// The place of the first pane in the run's list of panes.
        first: u32,
        panes: List<Pane>,
        attempts: u32,
    },
    /// A stateful function is called on elements, or on a timer, of one key and window.
    Key {
        node: u32,
        /// The number of the key cell.
        cell: u32,
        key: Value,
        span: Span,
        inputs: Boxed<List<LogInput>>,
        state: Boxed<KeyState>,
        timers: Boxed<Timers>,
        attempts: u32,
    },
}

/// What the calls of a stateful function left: the state and timers after them, and an entry for each call.
/// The commit fills in its own number in the entries.
#[derive(Debug, Drop)]
pub struct Logged {
    pub state: Boxed<KeyState>,
    pub timers: Boxed<Timers>,
    pub entries: List<LogEntry>,
}

/// What a finished bundle brings to its commit.
#[derive(Debug, Drop)]
pub struct Receipt {
    /// What comes to barriers, in the order in which it was put out.
    pub arrivals: List<Arrival>,
    /// What the estimator of the source has seen. It has no meaning for a job that reads no source.
    pub seen: Time,
    /// Only of a job of a key.
    pub logged: Option<Logged>,
}
