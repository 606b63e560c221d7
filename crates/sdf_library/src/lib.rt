//! The sources of pipelines as objects (Splittable DoFn), and the pager that holds what a source looks at
//! of an opened file.
//!
//! Every source here is strict: at each position it gives exactly what `emission` and `next_position` of
//! `beam_model` say, asks for more bytes exactly where the line at the position may go on past those that
//! it was shown, fails on poison alone and before it asks for any memory, and counts one fault for each
//! such call and none else. The layer above may rely on this, which [`Strict`] says once for all four by
//! the clauses of its calls. Of a [`Pager`] it may rely on this: what it holds are bytes of its file,
//! after every answer; it answers `Failed` only where the store counted a fault; where what it holds
//! is enough, nothing is read; and of a line it holds at most two blocks more than the line. Read
//! `strict.rt` and `pager.rt` first; `work/` has what each source does.
#![tactic(auto)]

mod arguments;
mod emissions;
mod lines;
mod pager;
mod quiet;
mod reading;
mod strict;
pub mod work;

pub use pager::{PageRefusal, Pager};
pub use quiet::Quiet;
pub use strict::{PositionWork, Strict};

/// [`work::Lines`] as an object.
pub type Lines = Strict<work::Lines>;

/// [`work::TimedLines`] as an object.
pub type TimedLines = Strict<work::TimedLines>;

/// [`work::Count`] as an object.
pub type Count = Strict<work::Count>;

/// [`work::Made`] as an object.
pub type Made = Strict<work::Made>;
