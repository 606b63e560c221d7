//! Combining a plan: what comes to its Group is folded part by part where it is worked, and what the function
//! makes of each key and window goes on from there, as if all panes had been made (Beam Programming Guide,
//! Combine; the lifting of combiners above a GroupByKey).
//!
//! The layer above may rely on [`combine_plan`] alone. The pieces of all items are dealt to the kits
//! (`pieces.rt`). Each kit adds lines of its pieces to a table of its own where views tell what they bring
//! (`skimming.rt`), works the others bundle by bundle, as a run does, and settles its table (`folding.rt`); the
//! tables become one (`crew.rt`), and the combined elements are worked as one job (`last.rt`). Read `plan.rt`
//! first, then `folding.rt`.
#![tactic(auto)]

mod claims;
mod crew;
mod folding;
mod last;
mod pieces;
mod plan;
mod refusal;
mod skimming;

pub use plan::combine_plan;
pub use refusal::CombineRefusal;
