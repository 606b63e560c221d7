//! Lines of a file and what single lines say: where a line ends, timed lines, the split at the first TAB.
//!
//! Every function is exact by `beam_values::specs::Lines` and `beam_values::specs::Functions`, takes no
//! memory and copies nothing: the answers borrow from the text. A line is looked through once for its
//! end, by `memchr`.
#![tactic(auto)]

mod line;
mod timed;

pub use line::{FirstLine, first_line, starts_line};
pub use timed::{TimedLine, key_field, time_of, timed_line};
