ghost use Rattle.std.specs.Prelude.{◌≡◌, [], ◌∷◌, ◌++◌, ◌↔◌, ◌<◌, ◌≤◌, ◌+◌, take, drop, IsTrue};
ghost use Rattle.std.specs.Prelude.{IfOk, OnOk};

use crate::live::WaitingPane;
use beam_values::{List, NoMemory};
use std::alloc::Global;
use std::collections::VecDeque;
use std::marker::Model;

/// Panes that wait, oldest first. Contracts see their list, and the room that is kept for more.
#[derive(Debug, Drop)]
pub struct Queue {
    panes: VecDeque<WaitingPane>,
}

impl Model for Queue {
    ghost use Rattle.std.specs.Prelude.{◌-◌};
    ghost use Rattle.book_core.specs.Queues.{SeenQueue};

    ghost Value = { SeenQueue };

    ghost view = { λ q. record { panes = q.panes.items; room = q.panes.cap - q.panes.len } };
}

impl Queue {
    /// Takes no memory.
    pub fn new(alloc: Global) -> Queue
        ensures { result.panes ≡ [] }
    {
        Queue {
            panes: VecDeque::new(alloc),
        }
    }

    /// Whether no pane waits.
    pub fn is_empty(&self) -> bool
        ensures { IsTrue result ↔ (self.now.panes ≡ []) }
    {
        self.panes.front().is_none()
    }

    /// A copy of the oldest panes, at most so many.
    pub fn oldest(&self, alloc: Global, most: usize) -> Result<List<WaitingPane>, NoMemory>
        ensures { IfOk result (λ panes. panes ≡ take most self.now.panes) }
    {
        let mut oldest = List::new(alloc);
        for place in 0..most.min(self.panes.len()) {
            oldest.push(self.panes[place])?;
        }
        Ok(oldest)
    }

    /// Adds copies of all panes to a list.
    pub fn copy_to(&self, into: &mut Vec<WaitingPane>) -> Result<(), NoMemory>
        ensures { OnOk result (into.new.items ≡ into.old.items ++ self.now.panes) }
    {
        for place in 0..self.panes.len() {
            into.push(self.panes[place])?;
        }
        Ok(())
    }

    /// Takes the oldest panes out, at most so many.
    pub fn remove_oldest(&mut self, most: usize)
        ensures { self.new.panes ≡ drop most self.old.panes }
    {
        for _place in 0..most.min(self.panes.len()) {
            let _ = self.panes.pop_front();
        }
    }

    /// Keeps room for so many more panes.
    pub fn keep_room(&mut self, places: usize) -> Result<(), NoMemory>
        ensures panes { self.new.panes ≡ self.old.panes }
        ensures ok { OnOk result (places ≤ self.new.room) }
        ensures kept { self.old.room ≤ self.new.room }
    {
        self.panes.reserve(places)?;
        Ok(())
    }

    /// A pane waits behind the others.
    pub fn add(&mut self, pane: WaitingPane) -> Result<(), NoMemory>
        ensures { OnOk result (self.new.panes ≡ self.old.panes ++ pane ∷ []) }
    {
        self.panes.push_back(pane)?;
        Ok(())
    }

    /// A pane waits behind the others, where room is kept for it.
    pub fn add_kept(&mut self, pane: WaitingPane)
        requires { 0 < self.old.room }
        ensures panes { self.new.panes ≡ self.old.panes ++ pane ∷ [] }
        ensures used { self.old.room ≡ self.new.room + 1 }
    {
        self.panes.push_back_reserved(pane);
    }
}
