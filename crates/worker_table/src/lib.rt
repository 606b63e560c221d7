//! The book of a run under a desk, so that several workers change it: one step of the book in each turn of a pass.
//!
//! A [`Table`] holds the book, and each worker has a [`WorkerPass`]. What a pass knows of the book is noted, and no turn
//! of another pass makes it untrue: its slot, the job that it works, with the last attempted position and an end that
//! the range doesn't exceed, its fails, and how its work ended.
//!
//! The layer above may rely on this. Each call that is a turn makes one step of `book_core` and answers as it does
//! (`turn` clauses), on the book that the last turn lent; what it asks of a job is asked of the job as the pass knows
//! it; what others did in between has at most shortened that job's range, behind what was attempted. At the end
//! [`Table::close`] gives a book that honest fails reached from the opening of its plan, and that fits what each pass
//! noted: it has no slot but theirs. No call takes a shelf or a store, so elements are worked between turns.
//!
//! Read `specs/Notes.antt` first, for what is noted (of a job what `known_jobs` says); then `specs/Fits.antt` and
//! `specs/Moves.antt`, for when it is true and for what a pass may do; then `act.rt` and `acts.rt`, for what it does; and then `turns.rt` and `table.rt`.
#![tactic(auto)]

mod act;
mod acts;
mod did;
mod held;
mod help;
mod pass;
mod stance;
mod table;
mod turns;

pub use pass::{Table, WorkerPass};
