//! Whether data that comes from bytes stands for a sane book, and the book that it stands for.
//!
//! The layer above may rely on this: [`is_sane_data`] says yes of just the data that is `IsSaneData` of
//! `book_core::specs::Stored`, and [`restore_book`] makes the book that such data stands for. Each fact of
//! a sane book has its test, said of the data alone in `specs/Facts.antt`; that all of them together are a
//! sane book is proved in `proofs/Meaning.antt`. The tests that cost least come first, and no test looks
//! through all items for one. Read `sane.rt` first.
#![tactic(auto)]

mod keys;
mod least;
mod lengths;
mod limits;
mod marks;
mod nodes;
mod orders;
mod pieces;
mod plans;
mod restore;
mod sane;
mod waiting;

pub use restore::{RestoreRefusal, restore_book};
pub use sane::is_sane_data;
