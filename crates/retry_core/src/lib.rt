//! Retries: whether work that failed is tried again, and how often each worker's work failed.
//!
//! [`next_attempt`] answers whether one more attempt is allowed. A [`FaultShare`] counts
//! the jobs that a worker has failed, by the cause of the fault. No call takes memory. Read `attempt.rt` first.
#![tactic(auto)]

mod attempt;
mod share;

pub use attempt::{Next, next_attempt};
pub use share::FaultShare;

#[cfg(test)]
mod tests;
