ghost use Rattle.std.specs.Prelude.{◌≡◌, IfOk};

use crate::{Element, Span, Value};
use beam_containers::{Duplicate, List, NoMemory};
use std::alloc::Global;

/// A pane of a Group, and the commit that fired it. Commits count from 1.
#[derive(Debug, Drop)]
pub struct Pane {
    pub node: u32,
    pub element: Element,
    pub commit: u32,
}

impl Pane {
    /// Its element is copied as [`Value::copy`] copies.
    pub fn copy(&self, alloc: Global) -> Result<Pane, NoMemory>
        ensures { IfOk result (λ pane. pane ≡ self.now) }
    {
        Ok(Pane {
            node: self.node,
            element: self.element.copy(alloc)?,
            commit: self.commit,
        })
    }
}

impl Duplicate for Pane {
    fn duplicate(&self, alloc: Global) -> Result<Pane, NoMemory> {
        self.copy(alloc)
    }
}

/// An element that a Group took, as it arrived, with the commit that brought it.
#[derive(Debug, Drop)]
pub struct Entry {
    pub element: Element,
    pub commit: u32,
    /// Whether a pane has held it.
    pub shown: bool,
}

impl Duplicate for Entry {
    fn duplicate(&self, alloc: Global) -> Result<Entry, NoMemory> {
        Ok(Entry {
            element: self.element.copy(alloc)?,
            commit: self.commit,
            shown: self.shown,
        })
    }
}

/// What a Group has of one key and window.
#[derive(Debug, Drop)]
pub struct Cell {
    pub node: u32,
    pub key: Value,
    pub span: Span,
    pub entries: List<Entry>,
    /// How many panes have fired.
    pub next_index: u32,
    /// Whether the on-time pane has fired.
    pub on_time: bool,
    /// The window that took this one's entries, where sessions were merged.
    pub merged_into: Option<Span>,
}

impl Duplicate for Cell {
    fn duplicate(&self, alloc: Global) -> Result<Cell, NoMemory> {
        Ok(Cell {
            node: self.node,
            key: self.key.copy(alloc)?,
            span: self.span,
            entries: self.entries.duplicate(alloc)?,
            next_index: self.next_index,
            on_time: self.on_time,
            merged_into: self.merged_into,
        })
    }
}

/// An element that came too late for its window, and the commit that brought it.
#[derive(Debug, Drop)]
pub struct Dropped {
    pub node: u32,
    pub element: Element,
    pub commit: u32,
}

impl Duplicate for Dropped {
    fn duplicate(&self, alloc: Global) -> Result<Dropped, NoMemory> {
        Ok(Dropped {
            node: self.node,
            element: self.element.copy(alloc)?,
            commit: self.commit,
        })
    }
}
