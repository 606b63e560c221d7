//! Side inputs by window: the nodes of a pipeline that join each element of a main collection with a
//! view of the same window, and a view's values with what can be asked of them.
//!
//! [`side_nodes`] gives the five nodes of a side input, and [`View`] holds the values of a view in one
//! window. The layer above may rely on this: the nodes are exactly those of `specs/Nodes.antt`, and
//! what a view answers is what `joined_with` of `beam_model` joins a main value with, by keys where all
//! values are pairs. A run goes by the nodes, and its boxes of `dofn_library` join the panes of their
//! Group; no command uses a view. Read `nodes.rt` first.
#![tactic(auto)]

mod laws;
mod nodes;
mod view;

pub use laws::joins_are_what_views_answer;
pub use nodes::{ViewMode, side_nodes};
pub use view::View;
