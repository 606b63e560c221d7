ghost use Rattle.std.specs.Prelude.{◌≡◌, [], ◌∷◌, ◌++◌, ◌<◌, ◌^◌, All, length, take, ◌↔◌, IsTrue};
ghost use Rattle.std.specs.Prelude.{IfOk, OnOk, OnErr};

use crate::long::Long;
use crate::short::{ROOM, Short};
use crate::{List, NoMemory};
use std::alloc::Global;
use std::marker::Model;

#[derive(Debug, Drop)]
enum Store {
    Inside(Short),
    Outside(Long),
}

/// A growable string of bytes that contracts see as the list of them.
///
/// Up to 22 bytes lie in the string itself. A longer string lies in memory, and copies of it share
/// that until they are written to.
#[derive(Debug, Drop)]
pub struct Bytes {
    store: Store,
}

impl Model for Bytes {
    ghost use Rattle.std.specs.Prelude.{List, ℕ};
    ghost use Rattle.std.specs.Coded.{coded_list, coded_ℕ};

    ghost Value = { List ℕ };

    ghost coded = { coded_list coded_ℕ };

    ghost use Rattle.beam_containers.specs.Stored.{stored};

    ghost view = { λ b. stored b.store };
}

impl Bytes {
    /// Takes no memory.
    pub fn new(alloc: Global) -> Bytes
        ensures { result ≡ [] }
    {
        Bytes {
            store: Store::Inside(Short::new(alloc)),
        }
    }

    /// A copy of the bytes. Up to 22 of them take no memory.
    pub fn from_slice(alloc: Global, bytes: &[u8]) -> Result<Bytes, NoMemory>
        ensures { IfOk result (λ b. b ≡ bytes.now) }
    {
        if bytes.len() <= ROOM {
            let mut short = Short::new(alloc);
            short.append(bytes);
            return Ok(Bytes {
                store: Store::Inside(short),
            });
        }
        let long = Long::from_vec(alloc, Vec::from_slice(alloc, bytes)?)?;
        Ok(Bytes {
            store: Store::Outside(long),
        })
    }

    /// More than 22 bytes stay where they lie; fewer move into the string.
    pub fn from_list(alloc: Global, bytes: List<u8>) -> Result<Bytes, NoMemory>
        ensures { IfOk result (λ b. b ≡ bytes) }
    {
        if bytes.len() > ROOM {
            let long = Long::from_vec(alloc, bytes.into_vec())?;
            return Ok(Bytes {
                store: Store::Outside(long),
            });
        }
        Bytes::from_slice(alloc, bytes.as_slice())
    }

    /// An equal string, which takes no memory.
    pub fn share(&self) -> Result<Bytes, NoMemory>
        ensures { IfOk result (λ b. b ≡ self.now) }
    {
        let store = match &self.store {
            Store::Inside(short) => Store::Inside(short.copy()),
            Store::Outside(long) => Store::Outside(long.share()?),
        };
        Ok(Bytes { store })
    }

    /// The bytes where they lie, in the string itself or in memory.
    pub fn as_slice(&self) -> &[u8]
        ensures { result.now ≡ self.now }
    {
        match &self.store {
            Store::Inside(short) => short.as_slice(),
            Store::Outside(long) => long.as_slice(),
        }
    }

    /// How many bytes there are, wherever they lie.
    pub fn len(&self) -> usize
        ensures { result ≡ length self.now }
    {
        self.as_slice().len()
    }

    /// Whether there is no byte.
    pub fn is_empty(&self) -> bool
        ensures { IsTrue result ↔ (self.now ≡ []) }
    {
        self.as_slice().is_empty()
    }

    /// Adds a byte at the end. A copy that shares the memory of the string stays as it is.
    pub fn push(&mut self, byte: u8) -> Result<(), NoMemory>
        ensures ok { OnOk result (self.new ≡ self.old ++ byte ∷ []) }
        ensures err { OnErr result (self.new ≡ self.old) }
    {
        match &mut self.store {
            Store::Inside(short) if short.room() > 0 => short.append(&[byte]),
            Store::Inside(short) => self.store = Store::Outside(short.moved_out(&[byte], ROOM)?),
            Store::Outside(long) => long.push(byte)?,
        }
        Ok(())
    }

    /// Adds the bytes at the end. A string that gets longer than 22 bytes by that moves into memory.
    pub fn extend_from_slice(&mut self, more: &[u8]) -> Result<(), NoMemory>
        ensures ok { OnOk result (self.new ≡ self.old ++ more.now) }
        ensures err { OnErr result (self.new ≡ self.old) }
    {
        match &mut self.store {
            Store::Inside(short) if more.len() <= short.room() => short.append(more),
            Store::Inside(short) => self.store = Store::Outside(short.moved_out(more, 0)?),
            Store::Outside(long) => long.append(more)?,
        }
        Ok(())
    }

    /// Changes no byte: nothing else is promised. Room for `places` more bytes is made, which a copy
    /// doesn't have, but contracts don't see it.
    pub fn reserve(&mut self, places: usize) -> Result<(), NoMemory>
        ensures { self.new ≡ self.old }
    {
        match &mut self.store {
            Store::Inside(short) if places <= short.room() => {}
            Store::Inside(short) => self.store = Store::Outside(short.moved_out(&[], places)?),
            Store::Outside(long) => long.reserve(places)?,
        }
        Ok(())
    }

    /// Keeps the first `count` bytes, or all where there are fewer.
    pub fn truncate(&mut self, count: usize)
        ensures { self.new ≡ take count self.old }
    {
        match &mut self.store {
            Store::Inside(short) => short.truncate(count),
            Store::Outside(long) => long.truncate(count),
        }
    }
}
