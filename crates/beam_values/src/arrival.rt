use crate::Element;
use beam_containers::{Duplicate, NoMemory};
use std::alloc::Global;

/// An element at a barrier: a Group, a Stateful node or a Write.
#[derive(Debug, Drop)]
pub struct Arrival {
    pub node: u32,
    pub element: Element,
}

impl Duplicate for Arrival {
    fn duplicate(&self, alloc: Global) -> Result<Arrival, NoMemory> {
        Ok(Arrival {
            node: self.node,
            element: self.element.copy(alloc)?,
        })
    }
}
