//! The run of a checked plan: its files are opened by each kit, and then one worker for each kit works its
//! jobs at one book, until none is left, one has failed as often as it may, or there is no memory.
//!
//! [`run_plan`] ends with the data of the run's own book (`specs/PlanRun.antt`): one that is ended, or one
//! that an honest fail stopped; what such an outcome is, `ended_runs` says. `specs/SetAside.antt` says which
//! positions it set aside, and when it comes to its end. [`open_sources`] opens the files before; [`Status`]
//! and [`put`] are those of `command_ends`. Nothing that is promised depends on how many workers there are, on
//! what they split, nor on how large pieces and bundles are.
//!
//! [`pause_plan`] runs a plan on one kit alone until its book has a number of commits, and gives the book
//! (`specs/Pausing.antt`). [`resume_book`] goes on from a book on one kit alone (`specs/Resuming.antt`), also
//! from one that no run reached; of one that a run reached, [`laws`] says that the whole is a run.
//!
//! Read `plan_run.rt` first, then `opening.rt`, `pausing.rt` and `resuming.rt`.
#![tactic(auto)]

pub mod laws;
mod opening;
mod pausing;
mod plan_run;
mod resuming;
mod run_end;

pub use bundle_work::Kit;
pub use command_ends::{Status, put};
pub use opening::open_sources;
pub use pausing::pause_plan;
pub use plan_run::{first_lengths, run_plan};
pub use resuming::resume_book;
pub use run_end::RunEnd;
