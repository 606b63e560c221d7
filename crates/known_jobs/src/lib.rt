//! What who works a job knows of it, while others may shorten its range.
//!
//! A job is known as it was taken, with the last position that was attempted and an end that the range doesn't exceed
//! (`specs/Jobs.antt`). `specs/Calls.antt` says when a position may be claimed in it, when a receipt may be placed for it
//! and when it may be said to have failed. The layer above may rely on this. What may be done with a job as it is known may
//! be done with the slot that works it (`specs/Carried.antt`), and it stays known so whatever other slots do
//! (`specs/Known.antt`). [`laws`] says what is known of a job that a slot has just taken. [`claim_end`] claims a position
//! for a slot, and tells where its range ends now.
#![tactic(auto)]

mod claiming;
pub mod laws;

pub use claiming::claim_end;
