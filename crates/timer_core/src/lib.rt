//! The timers of one key and window: at most one time for each of eight names (Beam Programming Guide,
//! State and Timers).
//!
//! A [`Timers`] is seen as the list of its eight times, and every call is exact by
//! `beam_values::specs::States` and `specs/FirstTimers.antt`. No call takes memory. Timers come by their
//! times, and at one time by their names. Read `timers.rt` first.
#![tactic(auto)]

mod timers;

pub use timers::Timers;
