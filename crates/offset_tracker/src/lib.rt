//! The tracker of a restriction of offsets: which position may be claimed, where a split cuts, and
//! when the work is done.
//!
//! A [`Tracker`] is seen as its restriction and the last position that was attempted in it. All of
//! its answers and changes are equations on these two, the rules of `beam_values::specs::Tracking`,
//! over every offset that 64 bits hold; none of its calls takes memory. [`laws`] has what follows
//! from the rules for a reader: a split cuts the restriction in two, and gives no attempted position
//! away.
#![tactic(auto)]

pub mod laws;
mod tracker;

pub use tracker::Tracker;
