//! Why a file is no snapshot of a run of a plan.
//!
//! The layer above may rely on [`SnapRefusal`] alone, the first reason that fits, in the order in which they
//! stand. What reads a snapshot, and what says why in a command's note, stand above it.
#![tactic(auto)]

mod refusal;

pub use refusal::SnapRefusal;
