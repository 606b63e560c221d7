//! Windows: which strategies a plan may have, and which spans of event time hold a time (Beam
//! Programming Guide, Windowing).
//!
//! What a window is stands in `beam_values::specs::Windows`, which strategies are allowed in
//! `beam_values::specs::Strategies`, and why one is refused in `specs/Strategies.antt`; the layer above
//! relies on exactly these. [`laws`] has what they mean to a reader: the windows of a time are the spans
//! of the strategy's kind that hold it, each given once. [`facts_of`] follows the strategies of a plan node
//! after node. Read `assignment.rt` first.
#![tactic(auto)]

mod assignment;
mod facts;
mod fixed;
pub mod laws;
mod strategy;

pub use assignment::assign;
pub use facts::{NodeFacts, add_facts, facts_at, facts_of, first_strategy};
pub use fixed::fixed_window;
pub use strategy::{GREATEST_LENGTH, MOST_WINDOWS, StrategyRefusal, check_strategy};
