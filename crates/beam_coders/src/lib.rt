//! Values and elements as bytes, each with exactly one spelling.
//!
//! [`write_value`] and [`write_element`] append the spelling that `beam_values` defines;
//! [`read_value`] and [`read_element`] read it from the front of bytes, or answer the first rule of
//! the format that fails from the left. The layer above may rely on this: what was written is read
//! again, whatever follows it, and what is read is spelled so. The grammar stands in
//! `specs/Reading.antt`. Read `reading.rt` first.
#![tactic(auto)]

mod bits;
mod elements;
mod laws;
mod reading;
mod refusal;
mod varint;
mod writing;

pub use elements::{read_element, write_element};
pub use laws::{write_and_compare, write_and_read};
pub use reading::read_value;
pub use refusal::{CoderRefusal, ReadRefusal};
pub use writing::{append_blob, append_count, append_int, append_value, write_value};
