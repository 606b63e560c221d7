ghost use Rattle.std.specs.Prelude.{◌≡◌, ◌≢◌, [], ◌∷◌, ◌++◌, ◌+◌, ◌-◌, ◌<◌, ◌≤◌, length, slice_get};
ghost use Rattle.std.specs.Prelude.{slice_set, insert, remove, take, ◌↔◌, IsTrue, IsOk, IfOk};
ghost use Rattle.std.specs.Prelude.{IfSome, IfNone, MatchOption, OnOk, OnErr, OnSome, vec_capacity};
ghost use Rattle.std.specs.Prelude.{vec_len};

use crate::{List, NoMemory};
use std::alloc::Global;
use std::marker::Model;

/// A list whose kept places contracts see, for the lists where a push must not fail later.
///
/// Its value is its items and its room: how many pushes can follow that need no memory.
#[derive(Debug, Drop)]
pub struct RoomyList<T> {
    items: Vec<T>,
}

impl<T> Model for RoomyList<T> {
    ghost use Rattle.std.specs.Prelude.{◌-◌};
    ghost use Rattle.beam_containers.specs.Roomy.{Roomy, roomy_code};

    ghost Value = { Roomy T };

    ghost coded = { roomy_code T.code };

    ghost view = { λ it. record { items = it.items.items; room = it.items.cap - it.items.len } };
}

impl<T> RoomyList<T> {
    /// Takes no memory.
    pub fn new(alloc: Global) -> RoomyList<T>
        ensures { result ≡ record { items = []; room = 0 } }
    {
        RoomyList {
            items: Vec::new(alloc),
        }
    }

    /// Takes no memory; what the list keeps becomes the room.
    pub fn from_list(list: List<T>) -> RoomyList<T>
        ensures { result.items ≡ list }
    {
        RoomyList {
            items: list.into_vec(),
        }
    }

    /// Takes no memory.
    pub fn into_list(self) -> List<T>
        ensures { result ≡ self.items }
    {
        let RoomyList { items } = self;
        List::from_vec(items)
    }

    /// The items, without the places that are kept.
    pub fn as_slice(&self) -> &[T]
        ensures { result.now ≡ self.now.items }
    {
        self.items.as_slice()
    }

    /// How many items there are; places that are kept don't count.
    pub fn len(&self) -> usize
        ensures { result ≡ length self.now.items }
    {
        self.items.len()
    }

    /// Whether there is no item, whatever places are kept.
    pub fn is_empty(&self) -> bool
        ensures { IsTrue result ↔ (self.now.items ≡ []) }
    {
        self.items.is_empty()
    }

    /// Leaves at least `places` places kept.
    pub fn reserve(&mut self, places: usize) -> Result<(), NoMemory>
        ensures items { self.new.items ≡ self.old.items }
        ensures ok { OnOk result (places ≤ self.new.room) }
        ensures kept { self.old.room ≤ self.new.room }
        ensures had { places ≤ self.old.room → IsOk result }
    {
        self.items.reserve(places)?;
        Ok(())
    }
}

impl<T: Drop> RoomyList<T> {
    /// Uses one place where one is kept, and then is never refused.
    pub fn push(&mut self, item: T) -> Result<(), NoMemory>
        ensures ok { OnOk result (self.new.items ≡ self.old.items ++ item ∷ []) }
        ensures err { OnErr result (self.new.items ≡ self.old.items) }
        ensures had { 0 < self.old.room → IsOk result }
        ensures used { self.old.room ≤ self.new.room + 1 }
    {
        self.items.push(item)?;
        Ok(())
    }

    /// Uses one place where one is kept, and then is never refused.
    pub fn insert(&mut self, at: usize, item: T) -> Result<(), NoMemory>
        requires { at ≤ length self.old.items }
        ensures ok { OnOk result (self.new.items ≡ insert self.old.items at item) }
        ensures err { OnErr result (self.new.items ≡ self.old.items) }
        ensures had { 0 < self.old.room → IsOk result }
        ensures used { self.old.room ≤ self.new.room + 1 }
    {
        self.items.insert(at, item)?;
        Ok(())
    }

    /// The place of the item is kept.
    pub fn pop(&mut self) -> Option<T>
        ensures item { MatchOption result (self.old.items ≡ [])
            (λ last. self.old.items ≡ self.new.items ++ last ∷ []) }
        ensures none { IfNone result (self.new.items ≡ []) }
        ensures kept { IfSome result (λ _. self.old.room + 1 ≤ self.new.room) }
        ensures same { self.old.room ≤ self.new.room }
    {
        self.items.pop()
    }

    /// The place of the item is kept.
    pub fn remove(&mut self, at: usize) -> T
        requires { at < length self.old.items }
        ensures item { slice_get self.old.items at ≡ Some result }
        ensures rest { self.new.items ≡ remove self.old.items at }
        ensures kept { self.old.room + 1 ≤ self.new.room }
    {
        self.items.remove(at)
    }
}
