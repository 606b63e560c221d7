ghost use Rattle.std.specs.Prelude.{◌≡◌, [], None, IsTrue};
ghost use Rattle.chain_exec.specs.Unused.{IsUnused};

use crate::deliveries::{Delivery, no_element};
use beam_values::{Element, List, Span};
use dofn_traits::Emission;
use std::alloc::Global;

/// Lists that are used again from call to call, so that memory is asked for seldom. They say nothing.
#[derive(Debug, Drop)]
pub struct Buffers {
    /// What is next on its way. At a barrier its value is moved out of it; what a function put nothing out
    /// for stays until the next one comes.
    pub(crate) next: Delivery,
    /// What waits on its way, the next one last.
    pub(crate) stack: List<Delivery>,
    /// What the function of a node puts out.
    pub(crate) outputs: List<Element>,
    pub(crate) windows: List<Span>,
    /// What a position emits.
    pub(crate) emission: Emission,
}

impl Buffers {
    /// Takes no memory.
    pub fn new(alloc: Global) -> Buffers {
        Buffers {
            next: Delivery {
                node: 0,
                element: no_element(),
            },
            stack: List::new(alloc),
            outputs: List::new(alloc),
            windows: List::new(alloc),
            emission: Emission {
                items: List::new(alloc),
                declared: None,
            },
        }
    }

    /// Empties what a refused call has left, and forgets the declared mark.
    pub(crate) fn clear(&mut self)
        ensures unused { IsUnused self.new }
        ensures emission { self.new.emission ≡ record { items = []; declared = None } }
    {
        if !self.is_clear() {
            self.clear_lists();
        }
        self.emission.declared = None;
    }

    /// Empties the lists, whatever they hold.
    pub(crate) fn clear_lists(&mut self)
        ensures unused { IsUnused self.new }
        ensures items { self.new.emission.items ≡ [] }
    {
        self.stack.truncate(0);
        self.outputs.truncate(0);
        self.windows.truncate(0);
        self.emission.items.truncate(0);
    }

    fn is_clear(&self) -> bool
        ensures unused { IsTrue result → IsUnused self.now }
        ensures items { IsTrue result → self.now.emission.items ≡ [] }
    {
        self.stack.is_empty()
            && self.outputs.is_empty()
            && self.windows.is_empty()
            && self.emission.items.is_empty()
    }
}
