//! Lists of marks that tell their least, and the first that is at most a bound, without looking through all.
//!
//! A [`LeastTree`] is seen as a plain list. Over that list lies another with the lesser of each two
//! neighbours, over that a third, and so on up to a list of one; so a change or a search takes as many steps
//! as there are lists. Read `least_tree.rt` and `specs/Halves.antt` first.
#![tactic(auto)]

mod least_tree;
mod levels;
mod twin_marks;

pub use least_tree::LeastTree;
pub use twin_marks::TwinMarks;
