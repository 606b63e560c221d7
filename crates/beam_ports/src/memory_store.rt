ghost use Rattle.std.specs.Prelude.{◌≡◌, ◌<◌, ◌≤◌, Some, length, position, true};
ghost use Rattle.std.specs.Option.{ForSome};
ghost use Rattle.beam_values.specs.Files.{is_named};
ghost use Rattle.beam_ports.specs.StoreMemory.{is_listed, after_call, listed_opening, opened_at};
ghost use Rattle.beam_ports.specs.StoreMemory.{open_answer, is_fault, count_read, buffer_read};
ghost use Rattle.beam_ports.specs.StoreMemory.{read_answer, read_leaves};

use crate::{Failed, FileText, OpenRefusal, Opened, Store};
use beam_values::List;
use std::marker::Model;

/// A store over files in memory. It tells them, and fails at the calls that it was given.
///
/// Contracts see its files, the numbers of the failing calls, how many calls there were and how many
/// failed. No call takes memory.
#[derive(Debug, Drop)]
pub struct MemoryStore {
    files: List<FileText>,
    failing: List<u64>,
    calls: u64,
    faults: u64,
}

impl Model for MemoryStore {
    ghost use Rattle.beam_ports.specs.StoreMemory.{StoreMemory};

    ghost Value = { StoreMemory };

    ghost view = { λ it. record {
      files = it.files;
      failing = it.failing;
      calls = it.calls;
      faults = it.faults;
    } };
}

impl MemoryStore {
    /// The calls of `open_file` and `read_at` together are numbered from 0; those whose numbers are
    /// in `failing` fail. Each file is known by its index, a number of 32 bits: to open one with a
    /// greater index fails too.
    pub fn new(files: List<FileText>, failing: List<u64>) -> MemoryStore
        ensures { result ≡ record { files = files; failing = failing; calls = 0; faults = 0 } }
    {
        MemoryStore {
            files,
            failing,
            calls: 0,
            faults: 0,
        }
    }

    /// How many calls failed.
    pub fn faults(&self) -> u64
        ensures { result ≡ self.now.faults }
    {
        self.faults
    }

    fn is_call_listed(&self) -> bool
        ensures { result ≡ is_listed self.now.failing self.now.calls }
    {
        self.failing.as_slice().contains(&self.calls)
    }

    fn count_call(&mut self, failed: bool)
        ensures after { self.new ≡ after_call self.old failed }
        ensures counts { self.old.faults ≤ self.new.faults }
    {
        self.calls = self.calls.saturating_add(1);
        if failed {
            self.faults = self.faults.saturating_add(1);
        }
    }
}

pub(crate) fn index_of(files: &[FileText], name: &[u8]) -> Option<usize>
    ensures { result ≡ position (is_named name.now) files.now }
{
    files.iter().position(|file| file.name.as_slice() == name)
}

fn open_at(files: &[FileText], index: Option<usize>) -> Result<Opened, OpenRefusal>
    requires { ForSome index (λ at. at < length files.now) }
    ensures { result ≡ opened_at files.now index }
{
    let Some(index) = index else {
        return Err(OpenRefusal::Absent);
    };
    match u32::try_from(index) {
        Ok(file) => Ok(Opened {
            file,
            len: files[index].bytes.len() as u64,
        }),
        Err(_) => Err(OpenRefusal::Failed),
    }
}

pub(crate) fn read_text(text: &[u8], at: u64, buf: &mut [u8]) -> usize
    ensures count { result ≡ count_read text.now at (length buf.old) }
    ensures buffer { buf.new ≡ buffer_read text.now at buf.old }
{
    let start = (at as usize).min(text.len());
    let rest = text.split_at(start).1;
    let count = rest.len().min(buf.len());
    buf[..count].copy_from_slice(rest.split_at(count).0);
    count
}

impl Store for MemoryStore {
    ghost faults = { λ store. store.faults };

    ghost counts_exactly = { true };

    ghost files = { λ store. Some store.files };

    ghost opened = { λ store file. listed_opening store.files file };

    fn open_file(&mut self, name: &[u8]) -> Result<Opened, OpenRefusal>
        ensures answer { result ≡ open_answer self.old name.now }
        ensures after { self.new ≡ after_call self.old (is_fault result) }
        ensures counts { self.old.faults ≤ self.new.faults }
    {
        let answer = if self.is_call_listed() {
            Err(OpenRefusal::Failed)
        } else {
            let files = self.files.as_slice();
            open_at(files, index_of(files, name))
        };
        self.count_call(matches!(answer, Err(OpenRefusal::Failed)));
        answer
    }

    fn read_at(&mut self, file: u32, at: u64, buf: &mut [u8]) -> Result<usize, Failed>
        requires { file < length self.old.files }
        ensures answer { result ≡ read_answer self.old file at buf.old }
        ensures buffer { buf.new ≡ read_leaves self.old file at buf.old }
        ensures after { self.new ≡ after_call self.old (is_listed self.old.failing self.old.calls) }
        ensures counts { self.old.faults ≤ self.new.faults }
    {
        if self.is_call_listed() {
            self.count_call(true);
            return Err(Failed);
        }
        let count = read_text(
            self.files.as_slice()[file as usize].bytes.as_slice(),
            at,
            buf,
        );
        self.count_call(false);
        Ok(count)
    }
}
