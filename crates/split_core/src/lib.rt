//! The pending pieces of a run: the uncommitted parts of source items, in the order in which they are
//! taken, with places kept so that a piece that was taken can always come back.
//!
//! [`Pieces`] is seen as the ascending list of its pieces and the number of places that it keeps beyond
//! them. Its calls are equations on these two, by the order of `specs/Order.antt`. Each call also says
//! that nothing is lost or held twice: for every list of ranges that are out, as those that are worked or
//! committed, the pending pieces and these ranges together go on to hold each offset of each item just
//! once (`specs/Partition.antt`). [`laws`] has how a range that is out may be cut. Read `pieces.rt` first.
#![tactic(auto)]

pub mod laws;
mod merge;
mod order;
mod pieces;

pub use pieces::Pieces;
