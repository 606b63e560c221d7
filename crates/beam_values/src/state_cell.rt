use crate::Value;
use beam_containers::{Bytes, Duplicate, List, NoMemory};
use std::alloc::Global;

/// What one state cell of a key holds (Beam Programming Guide, State and Timers).
#[derive(Debug, Drop)]
pub enum StateCell {
    Unset,
    Number(i64),
    Text(Bytes),
    Bag(List<Value>),
}

impl Duplicate for StateCell {
    fn duplicate(&self, alloc: Global) -> Result<StateCell, NoMemory> {
        match self {
            StateCell::Unset => Ok(StateCell::Unset),
            StateCell::Number(n) => Ok(StateCell::Number(*n)),
            StateCell::Text(bytes) => Ok(StateCell::Text(bytes.duplicate(alloc)?)),
            StateCell::Bag(values) => Ok(StateCell::Bag(values.duplicate(alloc)?)),
        }
    }
}
