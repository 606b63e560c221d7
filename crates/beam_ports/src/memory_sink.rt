ghost use Rattle.std.specs.Prelude.{◌≡◌, ◌<◌, ◌≤◌, [], Some, length, min, true, IsTrue, IsErr, IfOk};
ghost use Rattle.beam_ports.specs.StoreMemory.{is_listed};
ghost use Rattle.beam_ports.specs.SinkMemory.{after_write};

use crate::{Failed, Sink};
use beam_values::{Bytes, List};
use std::alloc::Global;
use std::marker::Model;

/// A sink that keeps what it takes. It tells it, and fails at the calls that it was given.
///
/// Contracts see what was taken, the most that a call takes, the numbers of the failing calls, how
/// many calls there were and how many failed.
#[derive(Debug, Drop)]
pub struct MemorySink {
    taken: Bytes,
    most: usize,
    failing: List<u64>,
    calls: u64,
    faults: u64,
}

impl Model for MemorySink {
    ghost use Rattle.std.specs.Prelude.{◌<◌};
    ghost use Rattle.beam_ports.specs.SinkMemory.{SinkMemory};

    ghost Value = { SinkMemory };

    ghost view = { λ it. record {
      taken = it.taken;
      most = it.most;
      failing = it.failing;
      calls = it.calls;
      faults = it.faults;
    } };

    ghost invariant = { λ it. 0 < it.most };
}

impl MemorySink {
    /// Takes at most `most` bytes a call. The calls of `write` are numbered from 0; those whose
    /// numbers are in `failing` fail, and so does one that finds no memory. Takes no memory itself.
    pub fn new(alloc: Global, most: usize, failing: List<u64>) -> MemorySink
        requires { 0 < most }
        ensures { result
            ≡ record { taken = []; most = most; failing = failing; calls = 0; faults = 0 } }
    {
        MemorySink {
            taken: Bytes::new(alloc),
            most,
            failing,
            calls: 0,
            faults: 0,
        }
    }

    /// The bytes that all calls took, one after the other.
    pub fn taken(&self) -> &[u8]
        ensures { result.now ≡ self.now.taken }
    {
        self.taken.as_slice()
    }

    /// How many calls failed.
    pub fn faults(&self) -> u64
        ensures { result ≡ self.now.faults }
    {
        self.faults
    }
}

impl Sink for MemorySink {
    ghost faults = { λ sink. sink.faults };

    ghost counts_exactly = { true };

    ghost taken = { λ sink. Some sink.taken };

    // A call that is not listed is refused only for want of memory, which no clause can say.
    fn write(&mut self, bytes: &[u8]) -> Result<usize, Failed>
        requires { 0 < length bytes.now }
        ensures count { IfOk result (λ n. n ≡ min self.old.most (length bytes.now)) }
        ensures some { IfOk result (λ n. 0 < n) }
        ensures listed { IsTrue (is_listed self.old.failing self.old.calls) → IsErr result }
        ensures after { self.new ≡ after_write self.old bytes.now result }
        ensures counts { self.old.faults ≤ self.new.faults }
    {
        let is_listed = self.failing.as_slice().contains(&self.calls);
        self.calls = self.calls.saturating_add(1);
        let count = bytes.len().min(self.most);
        let front = bytes.split_at(count).0;
        if is_listed || self.taken.extend_from_slice(front).is_err() {
            self.faults = self.faults.saturating_add(1);
            return Err(Failed);
        }
        Ok(count)
    }
}
