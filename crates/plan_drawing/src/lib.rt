//! A plan as a picture: its nodes and edges as a graph in the language of Graphviz.
//!
//! What is drawn is a function of the names of the nodes and the plan (`specs/Drawing.antt`, and
//! `specs/Labels.antt` for what a box says). The layer above relies on [`draw`] giving exactly that, but
//! for want of memory, and on the words being those that a plan document has, which
//! [`laws::words_are_those_of_documents`] says. Read `drawing.rt` first, then `label.rt`.
#![tactic(auto)]

mod drawing;
mod label;
pub mod laws;
mod lines;
mod words;

pub use drawing::draw;
