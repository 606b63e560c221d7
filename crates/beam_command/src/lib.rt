//! The top call: what the words of a command line ask for is run over any kits and sinks.
//!
//! [`beam_main`] is the whole program but for the system's files and streams, and its contract is the
//! promise of the program: what was printed, what each other end means, that it comes only so, and which
//! end must come where little or nothing outside fails. The layer above may rely on that alone.
//! [`laws`] says that what a drill prints is a function of its two numbers. Read `top.rt` first, then
//! `specs/Clauses.antt`, `specs/Ends.antt`, `specs/ReplayEnds.antt`, `specs/CombineEnds.antt` and
//! `specs/Completeness.antt`.
#![tactic(auto)]

mod combines;
pub mod laws;
mod pipeline;
mod plans;
mod replays;
mod top;

pub use top::beam_main;
