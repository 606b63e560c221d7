//! A table, and a worker's pass to it.
use crate::held::Shared;
use turn_desk::{Desk, Pass};

/// The book of a run, at which passes take turns.
#[derive(Drop)]
pub struct Table {
    pub(crate) desk: Desk<Shared>,
}

/// A worker's right to take turns at a table, and its slot. What it knows of the book is noted in the pass.
#[derive(Drop)]
pub struct WorkerPass {
    // It is there between calls.
    pub(crate) pass: Option<Pass<Shared>>,
    pub(crate) slot: Option<u32>,
}
