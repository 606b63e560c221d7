//! Calls of a store and of a sink that are made again where they fail.

use beam_ports::{Failed, OpenRefusal, Opened, Sink, Store};

/// A store whose calls are made again where they fail, until `attempts` have failed. It keeps count of them, so
/// that none is forgotten from one file to the next.
#[derive(Drop)]
pub struct RetryingStore<'a, S> {
    store: &'a mut S,
    failed: u32,
    attempts: u32,
}

impl<'a, S: Store> RetryingStore<'a, S> {
    ghost use Rattle.std.specs.Prelude.{◌≡◌, ◌≤◌, ◌+◌, ◌↔◌, length, IsTrue, IsSome, IsErrOf, IfOk};
    ghost use Rattle.std.specs.Prelude.{OnOk, OnErr};
    ghost use Rattle.beam_values.specs.Files.{first_named};
    ghost use Rattle.beam_ports.specs.Files.{IsRead, Opening};
    ghost use Rattle.beam_ports.specs.Observed.{WhereTold};
    ghost use Rattle.command_ends.specs.Retrying.{IsGivenUp, IsPatient, IsRetrying, KeepsTrying};
    ghost use Rattle.command_ends.specs.Retrying.{failed_call, failed_opening, failures_of, store_in};
    ghost use Rattle.command_ends.specs.WholeFiles.{IsOpenedWhole};

    /// Over a store that has failed `failed` times before.
    pub fn new(store: &'a mut S, failed: u32, attempts: u32) -> RetryingStore<'a, S>
        ensures { IsRetrying result store.entry failed attempts }
    {
        RetryingStore {
            store,
            failed,
            attempts,
        }
    }

    /// How many calls have failed, with those before.
    pub fn failed(&self) -> u32
        ensures { result ≡ failures_of self.now }
    {
        self.failed
    }

    /// Whether more calls may fail.
    pub fn is_patient(&self) -> bool
        ensures { IsTrue result ↔ IsPatient self.now }
    {
        self.failed < self.attempts
    }

    /// Opens the first file of a name. It answers `Failed` where as many calls have failed as may, and only then.
    pub fn open_file(&mut self, name: &[u8]) -> Result<Opened, OpenRefusal>
        requires { IsPatient self.old }
        ensures opened { IfOk result (IsOpenedWhole (S.files (store_in self.old))
            (S.opened (store_in self.new)) name.now) }
        ensures absent { IsErrOf result OpenRefusal.Absent → WhereTold (S.files (store_in self.old))
            (λ told. first_named name.now told ≡ None) }
        ensures few { OnOk result (IsPatient self.new) }
        ensures few_absent { IsErrOf result OpenRefusal.Absent → IsPatient self.new }
        ensures given_up { IsErrOf result OpenRefusal.Failed → IsGivenUp self.new }
        ensures tried { KeepsTrying S.Store self.old self.new }
    {
        while self.failed < self.attempts {
            match self.open_once(name) {
                Err(OpenRefusal::Failed) => {}
                answer => return answer,
            }
        }
        Err(OpenRefusal::Failed)
    }

    // Makes one call.
    fn open_once(&mut self, name: &[u8]) -> Result<Opened, OpenRefusal>
        requires { IsPatient self.old }
        ensures opened { IfOk result (IsOpenedWhole (S.files (store_in self.old))
            (S.opened (store_in self.new)) name.now) }
        ensures absent { IsErrOf result OpenRefusal.Absent → WhereTold (S.files (store_in self.old))
            (λ told. first_named name.now told ≡ None) }
        ensures exact { self.new.failed ≡ self.old.failed + failed_opening result }
        ensures tried { KeepsTrying S.Store self.old self.new }
    {
        let answer = self.store.open_file(name);
        if let Err(OpenRefusal::Failed) = answer {
            self.failed += 1;
        }
        answer
    }

    /// Reads into the front of `buf`, as [`Store::read_at`] does. It answers `Failed` where as many calls have failed as
    /// may, and only then.
    pub fn read_at(&mut self, file: u32, at: u64, buf: &mut [u8]) -> Result<usize, Failed>
        requires patience { IsPatient self.old }
        requires open { IsSome (S.opened (store_in self.old) file) }
        ensures fits { IfOk result (λ n. n ≤ length buf.old) }
        ensures read { IfOk result (λ n. (opening : Opening)
            → S.opened (store_in self.old) file ≡ Some opening → IsRead opening at n buf.new) }
        ensures few { OnOk result (IsPatient self.new) }
        ensures given_up { OnErr result (IsGivenUp self.new) }
        ensures tried { KeepsTrying S.Store self.old self.new }
    {
        while self.failed < self.attempts {
            if let Ok(count) = self.read_once(file, at, buf) {
                return Ok(count);
            }
        }
        Err(Failed)
    }

    // Makes one call.
    fn read_once(&mut self, file: u32, at: u64, buf: &mut [u8]) -> Result<usize, Failed>
        requires patience { IsPatient self.old }
        requires open { IsSome (S.opened (store_in self.old) file) }
        ensures fits { IfOk result (λ n. n ≤ length buf.old) }
        ensures read { IfOk result (λ n. (opening : Opening)
            → S.opened (store_in self.old) file ≡ Some opening → IsRead opening at n buf.new) }
        ensures exact { self.new.failed ≡ self.old.failed + failed_call result }
        ensures tried { KeepsTrying S.Store self.old self.new }
    {
        let answer = self.store.read_at(file, at, buf);
        if answer.is_err() {
            self.failed += 1;
        }
        answer
    }
}

/// A sink whose writes are made again where they fail, until `attempts` have failed.
#[derive(Drop)]
pub struct RetryingSink<'a, W> {
    sink: &'a mut W,
    failed: u32,
    attempts: u32,
}

impl<'a, W: Sink> RetryingSink<'a, W> {
    ghost use Rattle.std.specs.Prelude.{◌≡◌, ◌<◌, ◌≤◌, ◌+◌, length, take, IfOk, OnOk, OnErr};
    ghost use Rattle.beam_ports.specs.Sinks.{count_of, then_taken};
    ghost use Rattle.command_ends.specs.Retrying.{IsRetryingSink, IsSinkGivenUp, IsSinkPatient};
    ghost use Rattle.command_ends.specs.Retrying.{KeepsWriting, failed_call, sink_in};

    pub fn new(sink: &'a mut W, attempts: u32) -> RetryingSink<'a, W>
        ensures { IsRetryingSink result sink.entry attempts }
    {
        RetryingSink {
            sink,
            failed: 0,
            attempts,
        }
    }

    /// Takes some bytes from the front, at least one. It answers `Failed` where as many writes have failed as may, and
    /// only then.
    pub fn write(&mut self, bytes: &[u8]) -> Result<usize, Failed>
        requires some { 0 < length bytes.now }
        requires patience { IsSinkPatient self.old }
        ensures some { IfOk result (λ n. 0 < n) }
        ensures fits { IfOk result (λ n. n ≤ length bytes.now) }
        ensures taken { W.taken (sink_in self.new)
            ≡ then_taken (W.taken (sink_in self.old)) (take (count_of result) bytes.now) }
        ensures few { OnOk result (IsSinkPatient self.new) }
        ensures given_up { OnErr result (IsSinkGivenUp self.new) }
        ensures tried { KeepsWriting W.Sink self.old self.new }
    {
        while self.failed < self.attempts {
            if let Ok(count) = self.write_once(bytes) {
                return Ok(count);
            }
        }
        Err(Failed)
    }

    // Makes one call.
    fn write_once(&mut self, bytes: &[u8]) -> Result<usize, Failed>
        requires some { 0 < length bytes.now }
        requires patience { IsSinkPatient self.old }
        ensures some { IfOk result (λ n. 0 < n) }
        ensures fits { IfOk result (λ n. n ≤ length bytes.now) }
        ensures taken { W.taken (sink_in self.new)
            ≡ then_taken (W.taken (sink_in self.old)) (take (count_of result) bytes.now) }
        ensures exact { self.new.failed ≡ self.old.failed + failed_call result }
        ensures tried { KeepsWriting W.Sink self.old self.new }
    {
        let answer = self.sink.write(bytes);
        if answer.is_err() {
            self.failed += 1;
        }
        answer
    }
}
