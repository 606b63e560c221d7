//! What key cells hold, as plain data.

use crate::Waiting;
use beam_values::{List, LogEntry, Mark, Span, StateCell, Timer, Value};

/// A timer that is set, and the mark at which it holds its node back.
#[derive(Clone, Copy, Debug, PartialEq, Eq)]
pub struct SetTimer {
    pub timer: Timer,
    pub hold: Mark,
}

/// What a Stateful node keeps of one key and window, of which no job is worked.
#[derive(Debug, Drop)]
pub struct KeyData {
    pub node: u32,
    pub key: Value,
    pub span: Span,
    /// What the eight state cells hold, by name.
    pub state: List<StateCell>,
    /// The timers that are set.
    pub timers: List<SetTimer>,
    /// The elements that wait, the oldest first.
    pub waiting: List<Waiting>,
    /// How often the work on its job failed.
    pub attempts: u32,
    /// The calls so far.
    pub log: List<LogEntry>,
}
