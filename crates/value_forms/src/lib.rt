//! Data as values, whose bytes are stored: how each type is written, and how it is read again.
//!
//! A form, in `specs/Forms.antt`, says the value as which a thing is written and the thing that a value
//! is read as. [`Stored`] writes the bytes of that value without making it, and reads a value. The layer
//! above may rely on this: what was written is read again as the same, and a value that is read is the one
//! as which that thing is written (`proofs/FormLaws.antt`). Types of crates above have forms made of the
//! same parts. Read `stored.rt` first.
#![tactic(auto)]

mod cells;
mod commits;
mod elements;
mod lists;
mod logs;
mod numbers;
mod parts;
mod pieces;
mod plans;
mod refusal;
mod stored;
mod values;
mod windows;

pub use parts::{append_case, append_seq, case_of, ends, field, items_of};
pub use refusal::FormRefusal;
pub use stored::Stored;
