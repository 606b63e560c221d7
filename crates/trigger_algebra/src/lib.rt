//! Composite triggers: trees of counts and marks, and the staircase of bars that each of them comes to.
//!
//! A tree holds for a number of unseen elements and a watermark; [`normal`] gives the bars of which
//! one is met exactly then, wherever something is unseen, each with a greater count and a lesser delay
//! than the one before it. The layer above may rely on this, on the order of the refusals, and on that no
//! other such staircase is met so. When a tree holds stands in `specs/Holding.antt`, which trees are refused in
//! `specs/Refusing.antt`, and the staircase in `specs/Staircases.antt`. Read `normal_form.rt` first.
#![tactic(auto)]

mod laws;
mod need;
mod normal_form;
mod refusal;
mod refusing;
mod when;

pub use laws::staircases_met_alike_are_the_same;
pub use normal_form::normal;
pub use refusal::{NormalRefusal, WhenRefusal};
pub use refusing::are_numbers_within;
pub use when::When;
