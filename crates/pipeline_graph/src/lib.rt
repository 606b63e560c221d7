//! Checked pipelines: a plan that breaks no rule, with the followers and the strategy of each node at
//! hand (Beam Programming Guide, Creating a pipeline; Windowing).
//!
//! The rules and their order stand in `beam_values::specs::Checked`. [`Graph::check`] refuses a plan by
//! the first rule that it breaks, and takes every plan that breaks none; only want of memory comes
//! between. Contracts see a [`Graph`] as its plan. The followers of a node (`specs/Followers.antt`) and
//! its strategy are found by its number. The layer above may rely on these and on [`laws`]: what the
//! nodes of a checked plan have (`specs/Rules.antt`), and that a chain goes by followers. Read `graph.rt`
//! first, then `checking.rt`.
#![tactic(auto)]

mod bars;
mod checking;
mod followers;
mod graph;
mod kinds;
pub mod laws;
mod refusal;
mod settings;
mod strategies;

pub use beam_values::GraphRefusal;
pub use checking::MOST_NODES;
pub use graph::Graph;
pub use kinds::MOST_INPUTS;
pub use refusal::{CheckRefusal, refusal_number};
pub use settings::{
    GREATEST_BATCH, GREATEST_COUNT, GREATEST_FIELD, GREATEST_MADE, GREATEST_STEP, GREATEST_TAG,
    LONGEST_FILE_NAME, LONGEST_PREFIX, MOST_FILES,
};
