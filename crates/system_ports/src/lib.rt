//! The system's files as a store and its streams as sinks, for the programs.
//!
//! [`FsStore`], [`OutSink`] and [`ErrSink`] keep the contracts of `beam_ports::Store` and `Sink`, and tell
//! nothing of content: no contract can say what a file has or a stream takes. So the layer above may rely on
//! the counts of faults alone, and what is read and written here is tested. Read `fs_store.rt` first.
#![tactic(auto)]

mod fs_store;
mod sinks;

pub use fs_store::FsStore;
pub use sinks::{ErrSink, OutSink};
