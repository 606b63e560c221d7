//! The words of a schedule: its lines, what each of them asks for, and the line that is printed where it
//! was worked.
//!
//! A schedule says line by line which slot of a run takes, claims, runs, splits, commits or fails.
//! [`next_line`] cuts off its first line, exact by `specs/Schedules.antt`; [`read_line`] reads one line,
//! exact by `line_of` there, which refuses every other form; and [`push_told`] prints what came of a line,
//! exact by `specs/Told.antt`. Nothing here knows a run. Read `specs/Schedules.antt` first, which has
//! schedules computed at its end, then `line.rt` and `told.rt`.
#![tactic(auto)]

mod line;
mod number;
mod schedule;
mod told;

pub use line::{Line, read_line};
pub use schedule::next_line;
pub use told::{Claimed, Told, Took, push_position, push_range, push_told};

#[cfg(test)]
mod tests;
