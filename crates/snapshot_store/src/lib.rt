//! Snapshots: a book that has come to rest, as bytes, and those bytes read again.
//!
//! [`write_snapshot`] gives four bytes that every snapshot begins with and then the spelling of one value, as
//! which the form in `book_form` says that a book is written. [`read_snapshot`] answers the book, or the first
//! rule of `specs/Snapshots.antt` that fails. The layer above may rely on [`laws`]: what was written is read
//! again as the same, and what is read was written so. Whether the bytes are those of a run of this plan is
//! for the layer above to say.
#![tactic(auto)]

pub mod laws;
mod refusal;
mod snapshots;
#[cfg(test)]
mod tests;

pub use refusal::SnapReadRefusal;
pub use snapshot_refusal::SnapRefusal;
pub use snapshots::{read_snapshot, write_snapshot};
