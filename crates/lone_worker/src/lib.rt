//! One worker at a book: it takes jobs, works them and commits them or gives them back, with no table, thread or wait.
//!
//! The layer above may rely on this. [`work_alone`] leads by honest steps from the book that it is given to the one that it
//! leaves, sane books that no run reached included; it ends where no job is left, the book has as many commits as are asked
//! for, it is stopped or there is no memory; and no more of its jobs fail than faults are counted at its kit
//! (`specs/Alone.antt`). It ends, since each round of a take and a commit or a fail lowers what is left of a run.
//!
//! Read `alone.rt` first, then `at_slot.rt`.
#![tactic(auto)]

mod alone;
mod at_slot;
mod work;

pub use alone::{AloneEnd, work_alone};
pub use at_slot::AtSlot;
pub use work::{ClaimEnd, Stage, Work};
