use crate::{Element, Span, Time, Value};
use beam_containers::{Duplicate, List, NoMemory};
use std::alloc::Global;

/// A timer of a key and window: its name, 0 to 7, and the time at which it is due.
#[derive(Clone, Copy, Debug, PartialEq, Eq)]
pub struct Timer {
    pub name: u8,
    pub time: Time,
}

impl Duplicate for Timer {
    fn duplicate(&self, _alloc: Global) -> Result<Timer, NoMemory> {
        Ok(*self)
    }
}

/// What a stateful function is called on.
#[derive(Debug, Drop)]
pub enum LogInput {
    Arrived(Element),
    Fired(Timer),
}

impl Duplicate for LogInput {
    fn duplicate(&self, alloc: Global) -> Result<LogInput, NoMemory> {
        match self {
            LogInput::Arrived(element) => Ok(LogInput::Arrived(element.copy(alloc)?)),
            LogInput::Fired(timer) => Ok(LogInput::Fired(*timer)),
        }
    }
}

/// A call of a stateful function, and the commit that it belongs to.
#[derive(Debug, Drop)]
pub struct LogEntry {
    pub input: LogInput,
    pub commit: u32,
    pub outputs: List<Element>,
}

impl Duplicate for LogEntry {
    fn duplicate(&self, alloc: Global) -> Result<LogEntry, NoMemory> {
        Ok(LogEntry {
            input: self.input.duplicate(alloc)?,
            commit: self.commit,
            outputs: self.outputs.duplicate(alloc)?,
        })
    }
}

/// The calls of a stateful node for one key and window, in their order.
#[derive(Debug, Drop)]
pub struct KeyLog {
    pub node: u32,
    pub key: Value,
    pub span: Span,
    pub entries: List<LogEntry>,
}
