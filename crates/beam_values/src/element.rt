ghost use Rattle.std.specs.Prelude.{◌≡◌, IfOk};
ghost use Rattle.beam_values.specs.Timings.{timing_number};

use crate::{Span, Time, Value};
use beam_containers::{Duplicate, NoMemory};
use std::alloc::Global;

/// When a pane fired, relative to the end of its window.
#[derive(Clone, Copy, Debug, PartialEq, Eq, PartialOrd, Ord)]
pub enum Timing {
    Early,
    OnTime,
    Late,
    Unknown,
}

impl Timing {
    /// Its place in the order EARLY, ON_TIME, LATE, UNKNOWN, from 0.
    pub fn number(&self) -> u8
        ensures { result ≡ timing_number self.now }
    {
        match self {
            Timing::Early => 0,
            Timing::OnTime => 1,
            Timing::Late => 2,
            Timing::Unknown => 3,
        }
    }
}

/// Which pane of its key and window an element is: its timing, and its index counted from 0.
#[derive(Clone, Copy, Debug, PartialEq, Eq, PartialOrd, Ord)]
pub struct PaneTag {
    pub timing: Timing,
    pub index: u32,
}

/// An element of a collection: a value at a time, in one window, with the tag of its pane.
#[derive(Debug, Drop)]
pub struct Element {
    pub value: Value,
    pub time: Time,
    pub span: Span,
    pub pane: PaneTag,
}

impl Element {
    /// Its value is copied as [`Value::copy`] copies; the rest lies in the element itself.
    pub fn copy(&self, alloc: Global) -> Result<Element, NoMemory>
        ensures { IfOk result (λ e. e ≡ self.now) }
    {
        Ok(Element {
            value: self.value.copy(alloc)?,
            time: self.time,
            span: self.span,
            pane: self.pane,
        })
    }
}

impl Duplicate for Element {
    fn duplicate(&self, alloc: Global) -> Result<Element, NoMemory> {
        self.copy(alloc)
    }
}
