//! Tests of the plain lists of a book that was stored: whether ranges fill the items, what orders,
//! attempts and marks are, and where panes are held.
//!
//! A book that is made of stored lists may be any, so each fact that a book has is tested first. Each test
//! says yes exactly where its fact in `specs/` holds, so that who makes the book has the fact, and a book
//! that has it is never refused. A test changes nothing and stores nothing; where it takes memory, it says
//! so. Read `tiles.rt` first.
#![tactic(auto)]

mod attempts;
mod listed;
mod marks;
mod orders;
mod parts;
mod places;
mod tiles;

pub use attempts::{Faults, are_faults_enough, are_pieces_tried, is_tried};
pub use listed::{are_dead_listed, are_done_listed, are_pieces_listed};
pub use marks::{are_marks, are_marks_sized, never_fall};
pub use orders::{are_dead_in_order, are_done_in_order, are_panes_in_order, are_pieces_in_order};
pub use places::{HeldPlace, are_held_once, ascend};
pub use tiles::are_tiled;
