//! Workers that take jobs at one table, work them with kits of their own, and commit them or give them back, until no job
//! is left or the book is stopped. Where a commit finds no memory, a worker gives up what it holds only to be faster, and
//! commits the same receipt once more.
//!
//! [`work`] is one worker, and [`work_all`] one worker for each kit, in threads of their own. The layer above may rely
//! on this. A worker finishes only where a take of its own found no job left; else the book is stopped when it ends. Each
//! job that a worker fails is counted in its share, by the cause of the fault, and was counted by its shelf or its store
//! (`specs/Workers.antt`). What is committed of a job is what the plan gives for it, up to the last attempted position,
//! also of a range that others have shortened meanwhile. How a job is worked is `bundle_work`'s: here its positions are
//! claimed in turns of the table. Nothing that is promised depends on the order in which workers come.
//!
//! Read `workers.rt` first, then `turns.rt` and `crew.rt`.
#![tactic(auto)]

mod crew;
mod turns;
mod workers;

pub use crew::{AllEnd, work_all};
pub use workers::{WorkerEnd, work};
