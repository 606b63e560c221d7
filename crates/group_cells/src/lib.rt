//! The cells of Groups: which entries each window of a key has, which windows merge, and which panes fire,
//! commit by commit (The Dataflow Model, windowing and triggers; Beam Programming Guide, Triggers).
//! [`Groups`] finds its cells by index, and [`PlainGroups`], to which it is compared, searches a plain list.
//!
//! The layer above may rely on these contracts alone: what a commit does to one Group and key is `IsRound`
//! of `specs/Rounds.antt`, and what commits mean over whole runs are the [`laws`]. Start with that file and
//! `specs/Commits.antt`, and read `firing.rt`, `plain.rt` and `groups.rt` then.
//!
//! [`GroupPlan`] has the [`Rules`] of each Group at hand, by which a layer above may test cells that come
//! from elsewhere before it gives them to [`Groups::restore`].
#![tactic(auto)]

mod arrivals;
mod firing;
mod groups;
pub mod laws;
mod panes;
mod plain;
mod rules;
mod windows;

pub use arrivals::mark_into;
pub use firing::firing_of;
pub use groups::{GroupPlan, Groups};
pub use plain::PlainGroups;
pub use rules::Rules;
pub use windows::{is_cell_at_key, is_open};
