//! What lines bring to the Group of a plan, told by views.
//!
//! An element of a line is at most a key and a part, each of them a number or bytes that lie in the line. So
//! functions that take lines apart are worked where the line lies: nothing is copied, no function object is
//! asked, and a part comes to a row that is known without taking memory. What passes, where each node has one
//! follower, is KeyField, Field and KeepPrefix of a text, FieldInt, Swap and Values of a key and a part, Shift,
//! Flatten, and global and fixed windows. Words passes where KeyField, Swap, Values, Shift, Flatten and such
//! windows make the same of each word, and none of them brings a part of its own: then all parts are taken or
//! none is. Whatever views can't tell is left to the objects: a line that is poison, a function that makes other
//! values, windows that overlap, or a node that has several followers.
//!
//! The layer above may rely on this: what was added of a line is exactly what the model says that it brings, and
//! of any other line nothing was. For want of memory the first of what a line brings may have come to the table.
//! Read `line.rt` first, then `told.rt`, `seen.rt` and `each_word.rt`.
#![tactic(auto)]

mod calls;
mod each_word;
mod line;
mod passing;
mod seen;
mod skim;
mod texts;
mod told;
mod word_parts;

pub use line::add_line;
pub use seen::Seen;
pub use skim::{Skim, skim_lines};
