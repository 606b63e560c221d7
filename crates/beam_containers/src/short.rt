ghost use Rattle.std.specs.Prelude.{◌≡◌, [], ◌++◌, ◌+◌, ◌≤◌, length, take, IfOk};

use crate::NoMemory;
use crate::long::Long;
use std::alloc::Global;
use std::marker::Model;

/// How many bytes a string keeps in itself.
pub const ROOM: usize = 22;

/// A string of at most [`ROOM`] bytes, which lies in itself.
#[derive(Debug, Drop)]
pub struct Short {
    len: u8,
    bytes: [u8; ROOM],
    alloc: Global,
}

impl Model for Short {
    ghost use Rattle.std.specs.Prelude.{List, ℕ, ◌≤◌, take};
    ghost use Rattle.std.specs.Coded.{coded_list, coded_ℕ};

    ghost Value = { List ℕ };

    ghost coded = { coded_list coded_ℕ };

    ghost use Rattle.beam_containers.specs.declared.short.TheConstants.{ROOM};

    ghost view = { λ short. take short.len short.bytes };

    ghost invariant = { λ short. short.len ≤ ROOM };
}

impl Short {
    /// Takes no memory. `alloc` is where its bytes go once they are moved out.
    pub fn new(alloc: Global) -> Short
        ensures { result ≡ [] }
    {
        Short {
            len: 0,
            bytes: [0; ROOM],
            alloc,
        }
    }

    /// The bytes, which lie in the string itself.
    pub fn as_slice(&self) -> &[u8]
        ensures bytes { result.now ≡ self.now }
        ensures within { length self.now ≤ ROOM }
    {
        &self.bytes[..self.len as usize]
    }

    /// How many bytes more it has room for.
    pub fn room(&self) -> usize
        ensures { result + length self.now ≡ ROOM }
    {
        ROOM - self.len as usize
    }

    /// Adds the bytes at the end. There has to be room for them, so it takes no memory.
    pub fn append(&mut self, more: &[u8])
        requires { length self.old + length more.now ≤ ROOM }
        ensures { self.new ≡ self.old ++ more.now }
    {
        let start = self.len as usize;
        let end = start + more.len();
        self.bytes[start..end].copy_from_slice(more);
        self.len = end as u8;
    }

    /// Keeps the first `count` bytes, or all where there are fewer.
    pub fn truncate(&mut self, count: usize)
        ensures { self.new ≡ take count self.old }
    {
        if count < self.len as usize {
            self.len = count as u8;
        }
    }

    /// Takes no memory: the bytes are copied with the string.
    pub fn copy(&self) -> Short
        ensures { result ≡ self.now }
    {
        Short {
            len: self.len,
            bytes: self.bytes,
            alloc: self.alloc,
        }
    }

    /// The same bytes and then `more` in memory, with room for `places` bytes after them.
    pub fn moved_out(&self, more: &[u8], places: usize) -> Result<Long, NoMemory>
        ensures { IfOk result (λ long. long ≡ self.now ++ more.now) }
    {
        Long::joined(self.alloc, self.as_slice(), more, places)
    }
}
