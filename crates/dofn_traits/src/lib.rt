//! The functions of pipelines as objects: what a function of elements, a source and a function with
//! state promise, as traits, and the shelf that a run finds them on.
//!
//! A shelf is used by its kinds alone: [`Shelf`] promises of a call of a kind what a function of that
//! kind does. [`BoxShelf`] is one over boxes of any functions. Its contracts see the boxes, and say when
//! it has one of each kind; `specs/Shelves.antt` has what their counts and their strictness amount to.
//! Read `dofn.rt` and `shelf.rt` first.
#![tactic(auto)]

mod box_shelf;
mod boxes;
mod calls;
mod dofn;
mod kinds;
mod shelf;
mod splittable;
mod stateful;

pub use box_shelf::{BoxShelf, ShelfRefusal};
pub use calls::{CallRefusal, Emission, Found, Look, Timed};
pub use dofn::DoFn;
pub use shelf::Shelf;
pub use splittable::SplittableFn;
pub use stateful::StatefulFn;
