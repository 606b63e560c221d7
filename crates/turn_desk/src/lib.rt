//! Passes that take turns at one value, each with a note of what it knows of it.
//!
//! The layer above may rely on this: a turn lends a value that fits the pass's note and the desk's constant; a value
//! that is given back by a move still fits every other pass's note; `give` answers the note that the change names,
//! `split_pass` and `join_pass` answer the parts and the join, and `close` gives a value that fits the last note.
//! A call that is given a desk with a pass or a turn asks that these are of that desk.
//!
//! Read `held.rt` first, for what a value has to meet, and then `calls.rt`. The README says why no two turns overlap,
//! `bells.rt` how a pass waits, and `parking.rt` when it steps aside.
#![tactic(auto)]

mod aside;
mod bells;
mod calls;
mod change;
mod desk;
mod error;
mod held;
mod parking;
mod plays;
#[cfg(test)]
mod tally;
mod turn;
mod unseen;
mod view;

pub use change::Change;
pub use desk::{Desk, Pass, Turn};
pub use error::NoMemory;
pub use held::{Held, Note};
pub use unseen::Unseen;
