//! The plain meaning of a pipeline's steps, as short programs over whole lists: what the runner's
//! incremental code is compared with.
//!
//! Each contract is a definition of `beam_model`, and the layer above may rely on that alone: [`lines`]
//! gives the lines of a file, [`emission`] what a position of a source emits and [`next_position`] the
//! position after it, [`grouped`] the panes of a list of elements under a strategy, by [`plain_panes`]
//! where windows stay as they are and by [`plain_sessions`] where they merge. Merging takes time with
//! the square of the number of elements. `specs/Emissions.antt` shows the values that are handed out as
//! those of the definitions. Read `positions.rt` first, then `grouping.rt` and `sessions.rt`.
#![tactic(auto)]

mod cell;
mod grouping;
mod positions;
mod reading;
mod sessions;

pub use grouping::plain_panes;
pub use positions::{Emitted, TimedValue, emission, next_position};
pub use reading::lines;
pub use sessions::{grouped, plain_sessions};
