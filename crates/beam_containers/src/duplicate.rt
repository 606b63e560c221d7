ghost use Rattle.std.specs.Prelude.{◌≡◌, IfOk};

use crate::{Boxed, Bytes, List, NoMemory};
use std::alloc::Global;

/// A copy that may want memory, and equals what it copies.
pub trait Duplicate: Drop {
    fn duplicate(&self, alloc: Global) -> Result<Self, NoMemory>
        ensures { IfOk result (λ v. v ≡ self.now) };
}

impl Duplicate for u8 {
    fn duplicate(&self, _alloc: Global) -> Result<u8, NoMemory> {
        Ok(*self)
    }
}

impl Duplicate for u32 {
    fn duplicate(&self, _alloc: Global) -> Result<u32, NoMemory> {
        Ok(*self)
    }
}

impl Duplicate for u64 {
    fn duplicate(&self, _alloc: Global) -> Result<u64, NoMemory> {
        Ok(*self)
    }
}

impl Duplicate for Bytes {
    fn duplicate(&self, _alloc: Global) -> Result<Bytes, NoMemory> {
        self.share()
    }
}

impl<T: Duplicate> Duplicate for List<T> {
    fn duplicate(&self, alloc: Global) -> Result<List<T>, NoMemory> {
        let items = self.as_slice();
        let mut copies = Vec::with_capacity(alloc, items.len())?;
        for item in items {
            copies.push(item.duplicate(alloc)?)?;
        }
        Ok(List::from_vec(copies))
    }
}

impl<T: Drop> Duplicate for Boxed<T> {
    fn duplicate(&self, _alloc: Global) -> Result<Boxed<T>, NoMemory> {
        self.share()
    }
}
