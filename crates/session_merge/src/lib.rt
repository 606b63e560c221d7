//! The sessions of one key: windows that are merged as they come (Beam Programming Guide, Session windows;
//! The Dataflow Model, window merging).
//!
//! A [`SessionSet`] is seen as the list of its windows, which ascend and don't overlap. It holds exactly the
//! sessions of all windows that were inserted, by `IsSessionOf` of `beam_values::specs::Sessions`, and a
//! removal takes out a session with all that was inserted into it. The contracts say so of lists of
//! windows, and `sessions_after` and `sessions_left` in `proofs/` of any set. No call goes through the whole
//! list to find its place. Read `session_set.rt` and `specs/Merging.antt` first.
#![tactic(auto)]

mod runs;
mod session_set;

pub use runs::Merged;
pub use session_set::SessionSet;

#[cfg(test)]
mod tests;
