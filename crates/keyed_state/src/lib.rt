//! The state of one key and window: eight cells, each unset, a number, a byte string or a bag of values
//! (Beam Programming Guide, State and Timers).
//!
//! A [`KeyState`] is seen as the list of its eight cells, and every call is exact by
//! `beam_values::specs::States`. What needs no new place takes no memory. A copy of a state shares what is
//! long, and a value is found in a long bag by search (`bag.rt`). Read `state.rt` first.
#![tactic(auto)]

mod bag;
mod cell;
mod run;
mod state;

pub use state::{CELLS, KeyState};
