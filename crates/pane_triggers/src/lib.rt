//! When the panes of a window fire, and when an element comes too late for its window (The Dataflow Model,
//! triggers; Beam Programming Guide, Triggers, Handling late data).
//!
//! [`fire`] and [`is_dropped`] are the table and the boundary of `beam_values::specs::Firing`, for every end,
//! lateness and list of bars. [`next_mark`] says from which mark on a cell fires, by which a layer that
//! has many cells can keep them: it finds what is due without asking each cell, which is what [`laws`] are
//! for. No call takes memory. Read `firing.rt` first.
#![tactic(auto)]

mod answer;
mod firing;
pub mod laws;
mod next;
#[cfg(test)]
mod tests;

pub use answer::Fire;
pub use firing::{fire, is_dropped};
pub use next::next_mark;
