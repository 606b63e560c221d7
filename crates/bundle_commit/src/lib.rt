//! Bundles: the work that is taken at a time, and what it brings to its commit (Beam Programming Guide,
//! DoFn lifecycle).
//!
//! A [`Job`] is the work of one bundle. While it is done its outputs are staged: a [`Staging`] is seen as the
//! [`Receipt`] that it would seal, so a receipt is exactly what was added, in order. A bundle that fails has
//! nothing to take back: its staging is dropped. One that goes on without its last part goes back to what was
//! staged before that part. What is staged is moved and never copied. Read `job.rt` and `staging.rt` first.
#![tactic(auto)]

mod job;
mod staging;

pub use job::{Job, Logged, Receipt};
pub use staging::Staging;

#[cfg(test)]
mod tests;
