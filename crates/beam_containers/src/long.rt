ghost use Rattle.std.specs.Prelude.{◌≡◌, ◌∷◌, [], ◌++◌, take, IfOk, OnOk, OnErr};
ghost use Rattle.std.specs.Arc.{arc_value};

use crate::NoMemory;
use std::alloc::Global;
use std::marker::Model;
use std::sync::Arc;

/// A string of bytes that lies in memory, where copies share one place until they are written to.
#[derive(Debug, Drop)]
pub struct Long {
    // How many of the bytes are its own: a copy that shares them may have been cut.
    len: usize,
    bytes: Arc<Vec<u8>>,
}

impl Model for Long {
    ghost use Rattle.std.specs.Prelude.{List, ℕ, ◌≤◌, length, take};
    ghost use Rattle.std.specs.Coded.{coded_list, coded_ℕ};

    ghost Value = { List ℕ };

    ghost coded = { coded_list coded_ℕ };

    ghost view = { λ long. take long.len long.bytes.value.items };

    ghost invariant = { λ long. long.len ≤ length long.bytes.value.items };
}

impl Long {
    /// The bytes stay where they lie. Memory is taken for the place that copies share.
    pub fn from_vec(alloc: Global, bytes: Vec<u8>) -> Result<Long, NoMemory>
        ensures { IfOk result (λ long. long ≡ bytes.items) }
    {
        Ok(Long {
            len: bytes.len(),
            bytes: Arc::new(alloc, bytes)?,
        })
    }

    /// The bytes that are its own; what it shares may go on after them.
    pub fn as_slice(&self) -> &[u8]
        ensures { result.now ≡ self.now }
    {
        &self.bytes[..self.len]
    }

    /// Takes no memory. It is refused only where there are 2^63 - 1 shares.
    pub fn share(&self) -> Result<Long, NoMemory>
        ensures { IfOk result (λ long. long ≡ self.now) }
    {
        Ok(Long {
            len: self.len,
            bytes: Arc::try_clone(&self.bytes)?,
        })
    }

    /// Keeps the first `count` bytes, or all where there are fewer. Copies stay as they are.
    pub fn truncate(&mut self, count: usize)
        ensures { self.new ≡ take count self.old }
    {
        self.len = self.len.min(count);
    }

    /// Where copies share the place of the bytes, this one gets a place of its own first.
    pub fn push(&mut self, byte: u8) -> Result<(), NoMemory>
        ensures ok { OnOk result (self.new ≡ self.old ++ byte ∷ []) }
        ensures err { OnErr result (self.new ≡ self.old) }
    {
        let len = self.len;
        match Arc::get_mut(&mut self.bytes) {
            Some(bytes) => {
                bytes.truncate(len);
                bytes.push(byte)?;
                self.len = len + 1;
            }
            None => *self = self.with(&[byte])?,
        }
        Ok(())
    }

    /// Where copies share the place of the bytes, this one gets a place of its own first.
    pub fn append(&mut self, more: &[u8]) -> Result<(), NoMemory>
        ensures ok { OnOk result (self.new ≡ self.old ++ more.now) }
        ensures err { OnErr result (self.new ≡ self.old) }
    {
        let len = self.len;
        match Arc::get_mut(&mut self.bytes) {
            Some(bytes) => {
                bytes.truncate(len);
                bytes.extend_from_slice(more)?;
                self.len = len + more.len();
            }
            None => *self = self.with(more)?,
        }
        Ok(())
    }

    /// Changes no byte. Room for `places` more bytes is made, but contracts don't see it.
    pub fn reserve(&mut self, places: usize) -> Result<(), NoMemory>
        ensures { self.new ≡ self.old }
    {
        let len = self.len;
        match Arc::get_mut(&mut self.bytes) {
            Some(bytes) => {
                bytes.truncate(len);
                bytes.reserve(places)?;
            }
            None => *self = Long::joined(*self.bytes.allocator(), self.as_slice(), &[], places)?,
        }
        Ok(())
    }

    // This and `joined` stand apart, since they seldom run, so that what a push inlines stays small.
    /// A string of its own, with `more` at the end.
    #[cold]
    #[inline(never)]
    fn with(&self, more: &[u8]) -> Result<Long, NoMemory>
        ensures { IfOk result (λ long. long ≡ self.now ++ more.now) }
    {
        Long::joined(*self.bytes.allocator(), self.as_slice(), more, 0)
    }

    /// The one string after the other, and room for `places` bytes after them.
    #[cold]
    #[inline(never)]
    pub fn joined(alloc: Global, front: &[u8], back: &[u8], places: usize) -> Result<Long, NoMemory>
        ensures { IfOk result (λ long. long ≡ front.now ++ back.now) }
    {
        let len = front.len().saturating_add(back.len());
        let mut bytes = Vec::with_capacity(alloc, len.saturating_add(places))?;
        bytes.extend_from_slice(front)?;
        bytes.extend_from_slice(back)?;
        Long::from_vec(alloc, bytes)
    }
}
