//! Key cells: what the Stateful nodes of a run keep of each key and window (Beam Programming Guide, State
//! and Timers).
//!
//! [`Keys`] is seen as the list of its cells, numbered by first arrival. A cell has the log of its calls, the
//! state and timers after them, the elements that wait, whether a job of it is worked, and the marks at which
//! elements and timers hold its node back. One job of a cell is worked at a time: [`Keys::next_job`] answers the
//! first elements that wait, or else the first timer that is due, [`Keys::start_job`] notes that they are worked,
//! [`Keys::give_back`] undoes that after a failure, and a commit is prepared, which takes all memory, and then
//! placed, which takes none.
//!
//! No arrival looks through the cells: an index leads from its node, window and key to its cell
//! (`specs/Names.antt`). Preparing a commit notes the numbers that it finds, and placing it goes by them. Nor
//! does taking a job, or telling the least hold of a node: for each node a tree has the time at which each cell
//! is due, and the least mark at which it holds the node back (`specs/Trees.antt`). A cell tells that without a
//! look at all that waits there (`specs/Minima.antt`).
//!
//! Cells are given out as plain data and made again of it (`specs/Data.antt`): [`Keys::key_data`], and
//! [`Keys::restore`] where [`are_sane_keys`] holds.
//!
//! What each step does stands in `specs/Taking.antt` and `specs/Placing.antt`. [`laws`] has what every list of
//! steps keeps: the logs are those of calls in one legal order, and what came stands in a log or waits, once
//! and in order. Read `keys.rt` first.
#![tactic(auto)]

mod cell_hold;
mod data;
mod finding;
mod giving_out;
mod holding;
mod key_index;
mod key_job;
mod keys;
pub mod laws;
mod minima;
mod node_tree;
mod opening;
mod place;
mod putting;
mod queue;
mod restoring;
mod routing;
mod sane_data;
mod slot;
mod stored_keys;
mod taking;
mod timer_holds;
mod trees;
mod waiting;

pub use data::{KeyData, SetTimer};
pub use key_index::KeyIndex;
pub use key_job::{KeyDone, KeyTurn};
pub use keys::Keys;
pub use node_tree::NodeTree;
pub use place::Place;
pub use queue::Queue;
pub use restoring::Restored;
pub use routing::Routed;
pub use sane_data::are_sane_keys;
pub use slot::Slot;
pub use timer_holds::TimerHolds;
pub use waiting::Waiting;
