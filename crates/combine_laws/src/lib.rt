//! What combining a plan means, and why it gives what plain grouping does.
//!
//! The parts that come to the Group of a lifted plan are folded where they are worked, in whatever order, and
//! what the function makes of each key and window goes on from there. [`laws`] says that this is what a run
//! of the plan means (`specs/Combined.antt`), and what a refusal to fold shows of the plan's input.
#![tactic(auto)]

pub mod laws;
