//! A run under a schedule that the user writes: one worker works a book line by line, as its slots are told to.
//!
//! [`replay`] opens a run of a checked plan with as many slots as its options have workers, works the lines of a schedule
//! one after another with one kit, and gives the text that they print. The layer above may rely on `specs/Replays.antt`:
//! the text is what these lines, the steps that they made of the book, and the works that failed print, and the ranges and
//! the positions that were set aside at the end; and a schedule is refused at its first line that is none or isn't allowed
//! where it stands. What a line may do stands in `specs/Stands.antt`, what it does in `specs/Lines.antt`, and a drain in
//! `specs/Drains.antt`, whose lines are worked by the same calls. Read these first, then `schedule.rt` and `stand.rt`.
#![tactic(auto)]

mod drain;
mod ending;
pub mod laws;
mod schedule;
mod slots;
mod stand;

pub use beam_text::ScheduleRefusal;
pub use schedule::{ReplayRefusal, replay};
