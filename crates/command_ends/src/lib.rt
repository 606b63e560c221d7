//! What commands over plans share: how they end, what they write, and how they read the files of a plan and of a schedule.
//!
//! A command ends with a [`Status`]. Its text is written whole or up to a fault of the sink ([`put`],
//! [`written`]), and where it doesn't end well a line goes to its notes ([`noted`], [`write_note`]). The
//! files of a plan document and of a schedule are opened and read by a store whose calls may fail
//! ([`read_plan_file`], [`read_schedule_file`]). A call that fails is made again, just as often as it may
//! ([`RetryingStore`]). The layer above may rely on the contracts of these calls, in which each store and sink is
//! what was observed of it.
//! Read `status.rt` first, then `retrying.rt`, `specs/PlanFiles.antt` and `specs/Notes.antt`.
#![tactic(auto)]

mod notes;
mod plan_file;
mod retrying;
mod schedule_file;
mod status;
mod whole_file;
mod writing;

pub use notes::{noted, write_note};
pub use plan_file::{PlanRead, read_plan_file};
pub use retrying::RetryingStore;
pub use schedule_file::{TextRead, read_schedule_file};
pub use status::{Status, no_source};
pub use writing::{put, written};
