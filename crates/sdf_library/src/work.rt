//! What the sources do, one type for each.

mod count;
mod files;
mod made;

pub use count::Count;
pub use files::{Lines, TimedLines};
pub use made::Made;
