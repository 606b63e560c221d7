//! The places of cells in a list, found by node, window and key.
//!
//! A [`CellIndex`] is an ordered map from what a cell is found by to its place, and `IsIndexOf` of
//! `specs/Indexes.antt` says which list of cells it is of. The list itself stays with the caller: an index
//! is told of each cell that is put behind the others, of the last one if it leaves, and of nothing else.
//!
//! Two things spare comparisons, and only the order of the keys shows them: a guess at the place of a cell,
//! which the caller compares with that cell before it asks the map (`guesses.rt`), and a number that leads
//! each key of the map and is compared before the key itself (`index_key.rt`). Where a guess is wrong or
//! lost, the map is asked, at the cost of a copy of the key and two walks down. Read `index.rt` and
//! `specs/Indexes.antt` first.
#![tactic(auto)]

mod guesses;
mod index;
mod index_key;

pub use guesses::{Guess, Guesses};
pub use index::CellIndex;
pub use index_key::{CellKey, IndexKey, hash_of_key};
