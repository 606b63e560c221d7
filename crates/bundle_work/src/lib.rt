//! The work on one job: positions of a source read and worked with a kit, or panes that go on, and what that brings to its
//! commit. No call waits, and none knows a table.
//!
//! A [`Worker`] works a job with a [`Kit`], and claims positions through the trait [`Claims`], which a pass of a table meets
//! (`worker_loop`). The layer above may rely on this. What [`Worker::work_job`] answers is what the plan gives for the
//! job as it is known then, up to the last attempted position, also of a range that others have shortened meanwhile; or the
//! job failed, which was counted by the shelf or the store and is honest to tell of it; or there was no memory. Where it
//! answers Ok a position of the range was attempted, if it has one; of a spent piece none is, and it brings nothing. A range
//! fails at a position that lies in it. Elements are worked between claims, a stretch of them before the claim of its last
//! position; what turns out to be another's is dropped again. Nothing that is promised depends on how large pieces, bundles
//! and stretches are. [`Worker::release`] gives up what is held only to be faster, and the worker goes on as before.
//! [`each_pair`] does a job at each place of two slices, in threads.
//!
//! Read `claims.rt` first, then `bundles.rt`, `bench.rt` and `reading.rt`.
#![tactic(auto)]

mod bench;
mod bundles;
mod claims;
mod kit;
mod pairs;
mod reading;
mod trail;

pub use bench::work_position;
pub use bundles::Worker;
pub use claims::Claims;
pub use kit::Kit;
pub use pairs::each_pair;
pub use reading::{Reader, lengths_of, names_in, place_of, readers_of};
