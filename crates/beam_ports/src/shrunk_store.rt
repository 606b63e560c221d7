ghost use Rattle.std.specs.Prelude.{◌≡◌, ◌<◌, ◌≤◌, None, length, position, slice_index, true};
ghost use Rattle.std.specs.Option.{ForSome};
ghost use Rattle.beam_values.specs.Files.{is_named};
ghost use Rattle.beam_ports.specs.Exact.{after_answer, after_opening};
ghost use Rattle.beam_ports.specs.ShrunkMemory.{AreClaimed, claimed_opening, is_missing};
ghost use Rattle.beam_ports.specs.ShrunkMemory.{shrunk_at, shrunk_leaves, shrunk_opening, shrunk_read};

use crate::memory_store::{index_of, read_text};
use crate::{Failed, FileText, OpenRefusal, Opened, Store};
use beam_values::List;
use std::marker::Model;

/// A store over files in memory that says of each file a length of its own, as where a file is cut short once it is
/// opened. A read that asks for bytes behind the file's real end fails. It tells no files.
///
/// Contracts see its files, the lengths that it says and how many calls failed. No call takes memory.
#[derive(Debug, Drop)]
pub struct ShrunkStore {
    files: List<FileText>,
    claimed: List<u64>,
    faults: u64,
}

impl Model for ShrunkStore {
    ghost use Rattle.beam_ports.specs.ShrunkMemory.{AreClaimed, ShrunkMemory};

    ghost Value = { ShrunkMemory };

    ghost view = { λ it. record {
      files = it.files;
      claimed = it.claimed;
      faults = it.faults;
    } };

    ghost invariant = { λ it. AreClaimed it.files it.claimed };
}

impl ShrunkStore {
    /// Says the length `claimed[i]`, in bytes, of file `i`. As with [`MemoryStore`](crate::MemoryStore), to open a file
    /// whose index has more than 32 bits fails.
    pub fn new(files: List<FileText>, claimed: List<u64>) -> ShrunkStore
        requires { AreClaimed files claimed }
        ensures { result ≡ record { files = files; claimed = claimed; faults = 0 } }
    {
        ShrunkStore {
            files,
            claimed,
            faults: 0,
        }
    }

    /// How many calls failed.
    pub fn faults(&self) -> u64
        ensures { result ≡ self.now.faults }
    {
        self.faults
    }

    // Whether so many bytes at `at` are said to be there and aren't.
    fn is_missing(&self, file: u32, at: u64, room: usize) -> bool
        requires { file < length self.now.claimed }
        ensures { result ≡ is_missing self.now file at room }
    {
        let file = file as usize;
        let len = self.files.as_slice()[file].bytes.len() as u64;
        room > 0 && len <= at && at < self.claimed.as_slice()[file]
    }
}

fn open_at(claimed: &[u64], index: Option<usize>) -> Result<Opened, OpenRefusal>
    requires { ForSome index (λ at. at < length claimed.now) }
    ensures { result ≡ shrunk_at claimed.now index }
{
    let Some(index) = index else {
        return Err(OpenRefusal::Absent);
    };
    match u32::try_from(index) {
        Ok(file) => Ok(Opened {
            file,
            len: claimed[index],
        }),
        Err(_) => Err(OpenRefusal::Failed),
    }
}

impl Store for ShrunkStore {
    ghost faults = { λ store. store.faults };

    ghost counts_exactly = { true };

    ghost files = { λ store. None };

    ghost opened = { λ store file. claimed_opening store.claimed file };

    fn open_file(&mut self, name: &[u8]) -> Result<Opened, OpenRefusal>
        ensures claimed { AreClaimed self.old.files self.old.claimed }
        ensures answer { result ≡ shrunk_opening self.old name.now }
        ensures after { self.new
            ≡ record self.old { faults = after_opening self.old.faults result } }
        ensures counts { self.old.faults ≤ self.new.faults }
    {
        let index = index_of(self.files.as_slice(), name);
        let answer = open_at(self.claimed.as_slice(), index);
        if let Err(OpenRefusal::Failed) = answer {
            self.faults = self.faults.saturating_add(1);
        }
        answer
    }

    fn read_at(&mut self, file: u32, at: u64, buf: &mut [u8]) -> Result<usize, Failed>
        requires { file < length self.old.claimed }
        ensures claimed { AreClaimed self.old.files self.old.claimed }
        ensures answer { result ≡ shrunk_read self.old file at buf.old }
        ensures buffer { buf.new ≡ shrunk_leaves self.old file at buf.old }
        ensures after { self.new
            ≡ record self.old { faults = after_answer self.old.faults result } }
        ensures counts { self.old.faults ≤ self.new.faults }
    {
        if self.is_missing(file, at, buf.len()) {
            self.faults = self.faults.saturating_add(1);
            return Err(Failed);
        }
        let text = self.files.as_slice()[file as usize].bytes.as_slice();
        Ok(read_text(text, at, buf))
    }
}
