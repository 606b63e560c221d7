//! The outside of the runner: stores that files are read from, and sinks that text is written to.
//!
//! [`Store`] and [`Sink`] are traits, so that everything above is proved for any outside. A store counts
//! its faults, may tell its files, and has for each file that it opened the length and, where it
//! tells its files, the bytes. A sink counts its faults and may tell what it took. The layer above
//! may rely on the clauses of these traits and on nothing else; a count may stand at its end, which
//! `specs/Counts.antt` takes care of. [`MemoryStore`] and [`MemorySink`] tell everything and fail at
//! the calls that they were given; their answers are exact. A [`Gate`] holds workers back in tests; no
//! promise rests on it. Read `store.rt` and `sink.rt` first.
#![tactic(auto)]

mod gate;
mod memory_sink;
mod memory_store;
mod refusal;
mod shrunk_store;
mod sink;
mod store;

pub use beam_values::{Bytes, FileText, List, NoMemory};
pub use gate::{Gate, GatePoint, OpenGate};
pub use memory_sink::MemorySink;
pub use memory_store::MemoryStore;
pub use refusal::{Failed, OpenRefusal};
pub use shrunk_store::ShrunkStore;
pub use sink::Sink;
pub use store::{Opened, Store};
