ghost use Rattle.std.specs.Prelude.{◌≡◌, []};

use beam_ports::Opened;
use beam_values::List;
use std::alloc::Global;

/// What one worker works with: the functions of plans, the store of their files, and the files of a plan
/// that it has opened, by node and item.
#[derive(Drop)]
pub struct Kit<F, S> {
    pub shelf: F,
    pub store: S,
    pub files: List<Opened>,
}

impl<F, S> Kit<F, S> {
    /// No file is opened yet. Takes no memory.
    pub fn new(alloc: Global, shelf: F, store: S) -> Kit<F, S>
        ensures { result ≡ record { shelf = shelf; store = store; files = [] } }
    {
        Kit {
            shelf,
            store,
            files: List::new(alloc),
        }
    }
}
