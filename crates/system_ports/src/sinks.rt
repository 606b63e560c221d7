ghost use Rattle.std.specs.Prelude.{◌≡◌, ◌<◌, ◌≤◌, length, None, true, IfOk, OnErr};
ghost use Rattle.beam_ports.specs.Counts.{Rose};
ghost use Rattle.beam_ports.specs.Exact.{after_answer};

use beam_ports::{Failed, Sink};
use std::io;
use std::marker::Model;

/// A sink over a writer, as standard output. Contracts see its count of faults; it tells nothing of
/// what it took.
#[derive(Drop)]
pub struct OutSink<W> {
    writer: W,
    faults: u64,
}

/// The same over another writer, as standard error.
#[derive(Drop)]
pub struct ErrSink<W> {
    writer: W,
    faults: u64,
}

impl<W> Model for OutSink<W> {
    ghost use Rattle.std.specs.Prelude.{ℕ};

    ghost Value = { ℕ };

    ghost view = { λ sink. sink.faults };
}

impl<W> Model for ErrSink<W> {
    ghost use Rattle.std.specs.Prelude.{ℕ};

    ghost Value = { ℕ };

    ghost view = { λ sink. sink.faults };
}

// One call of the writer. A fault is counted, and so is a write that takes nothing.
fn write_once<W: io::Write>(writer: &mut W, faults: &mut u64, bytes: &[u8]) -> Result<usize, Failed>
    ensures some { IfOk result (λ n. 0 < n) }
    ensures fits { IfOk result (λ n. n ≤ length bytes.now) }
    ensures counts { faults.old ≤ faults.new }
    ensures failed { OnErr result (Rose faults.old faults.new) }
    ensures exact { faults.new ≡ after_answer faults.old result }
{
    match writer.write(bytes) {
        Ok(count) if count > 0 => Ok(count),
        _ => {
            *faults = faults.saturating_add(1);
            Err(Failed)
        }
    }
}

impl<W: io::Write + Drop> OutSink<W> {
    /// No fault was counted yet. It writes nothing.
    pub fn new(writer: W) -> OutSink<W>
        ensures { result ≡ 0 }
    {
        OutSink { writer, faults: 0 }
    }
}

impl<W: io::Write + Drop> ErrSink<W> {
    /// No fault was counted yet. It writes nothing.
    pub fn new(writer: W) -> ErrSink<W>
        ensures { result ≡ 0 }
    {
        ErrSink { writer, faults: 0 }
    }
}

impl<W: io::Write + Drop> Sink for OutSink<W> {
    ghost faults = { λ sink. sink };

    ghost counts_exactly = { true };

    ghost taken = { λ _. None };

    fn write(&mut self, bytes: &[u8]) -> Result<usize, Failed> {
        write_once(&mut self.writer, &mut self.faults, bytes)
    }
}

impl<W: io::Write + Drop> Sink for ErrSink<W> {
    ghost faults = { λ sink. sink };

    ghost counts_exactly = { true };

    ghost taken = { λ _. None };

    fn write(&mut self, bytes: &[u8]) -> Result<usize, Failed> {
        write_once(&mut self.writer, &mut self.faults, bytes)
    }
}

#[cfg(test)]
mod tests;
