//! Whether cells are what a commit can leave: the test of cells that come from bytes.
//!
//! The layer above may rely on this: [`are_sane_cells`] says yes of just those lists of cells that are
//! `AreSaneCells` of `group_cells::specs::Sane`, and [`are_panes_counted`] of just those that count no more
//! panes than there are. All cells are listed by Group, key and window, and those of each Group and key are
//! tested once they stand side by side. So a test costs a sort, and a few passes. Read `sane.rt` and
//! `one_group.rt` first.
#![tactic(auto)]

mod counted;
mod listing;
mod one_group;
mod sane;
mod settled;

pub use counted::are_panes_counted;
pub use sane::are_sane_cells;
