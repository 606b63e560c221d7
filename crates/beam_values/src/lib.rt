//! Values, times, windows and elements: the data that every layer of the runner speaks of, and the
//! base definitions that their contracts cite.
//!
//! The types are plain data: a contract sees a [`Time`] as a number of milliseconds, a [`Span`] and a
//! [`Range`] as a record of two numbers, a [`Value`] as a tree. The folder `specs/` has the
//! definitions, each in the words of the Beam Programming Guide with the section that it restates.
//! The layer above may rely on what the contracts say and on these definitions; it never needs how a
//! value lies in memory. Read `value.rt` and `element.rt` first.
#![tactic(auto)]

mod arrival;
mod bars;
mod bits;
mod cell;
mod cell_order;
mod compare;
mod element;
mod element_order;
mod fault;
mod file_text;
mod graph_refusal;
mod key_rank;
mod keys;
mod laws;
mod log;
mod marks;
mod options;
mod outcome;
mod piece;
mod plan;
mod range;
mod span;
mod state_cell;
mod time;
mod value;

pub use arrival::Arrival;
pub use bars::{met, met_after};
pub use beam_containers::{Boxed, Bytes, Duplicate, List, NoMemory, RoomyList};
pub use bits::unsigned_bits;
pub use cell::{Cell, Dropped, Entry, Pane};
pub use cell_order::{cmp_cells, cmp_grouped, cmp_keys, cmp_spans, cmp_window_keys};
pub use compare::{cmp_blobs, cmp_values};
pub use element::{Element, PaneTag, Timing};
pub use fault::{Cause, FaultNote};
pub use file_text::FileText;
pub use graph_refusal::GraphRefusal;
pub use key_rank::KeyRank;
pub use keys::{copy_key, key_or, last_time, part_of};
pub use laws::{
    element_has_one_spelling, no_spelling_begins_another, value_has_one_spelling,
    values_spelled_alike_are_the_same,
};
pub use log::{KeyLog, LogEntry, LogInput, Timer};
pub use marks::{CommitMarks, StageMarks};
pub use options::Options;
pub use outcome::{Outcome, StopCause};
pub use piece::{Dead, Done, FileLen, Piece};
pub use plan::{
    Args, Bar, Estimator, FnKind, Mode, Node, NodeKind, Plan, SourceKind, StateKind, Strategy,
    Trigger,
};
pub use range::Range;
pub use span::Span;
pub use state_cell::StateCell;
pub use time::{Mark, Time};
pub use value::Value;
