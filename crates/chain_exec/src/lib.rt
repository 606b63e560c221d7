//! The work of a bundle: one position of a source, the panes of a batch, or what a stateful function puts out
//! for a key, goes on through the pipeline up to its barriers, and what arrives there is staged (Beam
//! Programming Guide, DoFn lifecycle; Splittable DoFn; State and Timers).
//!
//! [`run_position`], [`run_batch`] and [`run_key`] stage exactly what `beam_model` says that a position, an
//! element or a call brings, in its order: depth first, followers ascending. The layer above may rely on
//! that, and on the cause of each refusal (`specs/Causes.antt`). Functions and sources are called on a shelf, and bytes of
//! files looked at through a pager. An element with one follower is moved on and never copied. Read
//! `batch.rt` first, then `carrying.rt`.
#![tactic(auto)]

mod batch;
mod buffers;
mod carrying;
mod deliveries;
mod key;
mod message;
mod position;
mod refusal;
mod source;

pub use batch::run_batch;
pub use buffers::Buffers;
pub use key::run_key;
pub use position::{Step, run_position};
pub use refusal::ExecRefusal;
