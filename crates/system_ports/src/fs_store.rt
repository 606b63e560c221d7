ghost use Rattle.std.specs.Prelude.{◌≡◌, ◌↔◌, ◌-◌, ◌<◌, ◌≤◌, [], ◌∷◌, ◌++◌, length, map, min, drop};
ghost use Rattle.std.specs.Prelude.{slice_index, None, true, IfOk, OnOk, OnErr};
ghost use Rattle.std.specs.IoError.{error_kind};
ghost use Rattle.beam_ports.specs.Counts.{Rose, raised};
ghost use Rattle.system_ports.specs.Lengths.{untold_opening};

use beam_ports::{Failed, List, NoMemory, OpenRefusal, Opened, Store};
use std::fs::{File, Metadata};
use std::io::ErrorKind;
use std::marker::Model;
use std::os::unix::fs::{FileExt, MetadataExt};
use std::rt::Files;
use std::{fs, io};

/// How many files can be opened.
const PLACES: usize = 258;

// The name, by which a file is opened anew, and the length and the identity found when it was opened first.
#[derive(Drop)]
struct Place {
    name: String,
    len: u64,
    identity: Identity,
}

// Which file it is at the system: another one that took its name has another number.
#[derive(Clone, Copy, Debug, PartialEq, Eq)]
struct Identity {
    device: u64,
    inode: u64,
}

fn identity_of(found: &Metadata) -> Identity {
    Identity {
        device: found.dev(),
        inode: found.ino(),
    }
}

// The file that is open at the system, and its number.
#[derive(Drop)]
struct Current {
    number: usize,
    file: File,
}

/// A store over the system's files. It tells no files.
///
/// At most one file is open at the system; another one is opened anew by its name where a read needs
/// it. Absent is a file that the system does not find, and one whose name is not UTF-8 or has a NUL in
/// it. Anything else is a counted fault: a folder or a pipe in place of a file, a file that may not be
/// read, one more than 258 files, want of memory for a name, a file that ends before the length found at
/// opening, and one whose name another file has when it is opened anew.
#[derive(Drop)]
pub struct FsStore<R> {
    rt: R,
    places: List<Place>,
    current: Option<Current>,
    faults: u64,
}

impl<R> Model for FsStore<R> {
    ghost use Rattle.std.specs.Prelude.{map};
    ghost use Rattle.system_ports.specs.Lengths.{Lengths};

    ghost Value = { Lengths };

    ghost view = { λ store. record {
      lengths = map (λ place. place.len) store.places;
      faults = store.faults;
    } };
}

// Opens a file to be read by position. The kind is asked first, since to open a pipe would wait for
// its writer, and a folder has a length though no bytes.
fn open_regular<R: Files<File = File>>(rt: &R, name: &str) -> io::Result<File> {
    if !rt.metadata(name)?.is_file() {
        return Err(io::Error::from(ErrorKind::InvalidInput));
    }
    fs::open(rt, name)
}

fn refusal_of(error: io::Error) -> OpenRefusal
    ensures { (result ≡ OpenRefusal.Absent) ↔ (error_kind error ≡ ErrorKind.NotFound) }
{
    if error.kind() == ErrorKind::NotFound {
        OpenRefusal::Absent
    } else {
        OpenRefusal::Failed
    }
}

impl<R: Files<File = File> + AllocGlobal + Drop> FsStore<R> {
    /// Reserves the places of all files.
    pub fn new(rt: R) -> Result<FsStore<R>, NoMemory>
        ensures { IfOk result (λ store. store ≡ record { lengths = []; faults = 0 }) }
    {
        let mut places = List::new(rt.alloc());
        places.reserve(PLACES)?;
        Ok(FsStore {
            rt,
            places,
            current: None,
            faults: 0,
        })
    }

    fn open_named(&mut self, name: &[u8]) -> Result<Opened, OpenRefusal>
        ensures faults { self.new.faults ≡ self.old.faults }
        ensures ok { IfOk result (λ o. (self.new.lengths ≡ self.old.lengths ++ o.len ∷ [])
            × (o.file ≡ length self.old.lengths)) }
        ensures err { OnErr result (self.new.lengths ≡ self.old.lengths) }
    {
        let Ok(name) = str::from_utf8(name) else {
            return Err(OpenRefusal::Absent);
        };
        if name.as_bytes().contains(&0) {
            return Err(OpenRefusal::Absent);
        }
        let number = self.places.len();
        if number >= PLACES {
            return Err(OpenRefusal::Failed);
        }
        self.current = None;
        let file = open_regular(&self.rt, name).map_err(refusal_of)?;
        let found = file.metadata().map_err(refusal_of)?;
        let len = found.len();
        self.keep(name, len, identity_of(&found))?;
        self.current = Some(Current { number, file });
        Ok(Opened {
            file: number as u32,
            len,
        })
    }

    fn keep(&mut self, name: &str, len: u64, identity: Identity) -> Result<(), OpenRefusal>
        ensures faults { self.new.faults ≡ self.old.faults }
        ensures ok { OnOk result (self.new.lengths ≡ self.old.lengths ++ len ∷ []) }
        ensures err { OnErr result (self.new.lengths ≡ self.old.lengths) }
    {
        let Ok(name) = String::from_str(self.rt.alloc(), name) else {
            return Err(OpenRefusal::Failed);
        };
        match self.places.push(Place {
            name,
            len,
            identity,
        }) {
            Ok(()) => Ok(()),
            Err(NoMemory) => Err(OpenRefusal::Failed),
        }
    }

    // The file with that number, taken out of the store; any other one is closed before it is opened.
    fn take_file(&mut self, number: usize) -> io::Result<File>
        requires { number < length self.old.lengths }
        ensures { self.new ≡ self.old }
    {
        if let Some(current) = self.current.take() {
            if current.number == number {
                return Ok(current.file);
            }
        }
        let place = &self.places.as_slice()[number];
        let file = open_regular(&self.rt, place.name.as_str())?;
        if identity_of(&file.metadata()?) != place.identity {
            return Err(io::Error::from(ErrorKind::InvalidData));
        }
        Ok(file)
    }

    fn read_place(&mut self, number: usize, at: u64, buf: &mut [u8]) -> io::Result<usize>
        requires { number < length self.old.lengths }
        ensures same { self.new ≡ self.old }
        ensures count { IfOk result
            (λ n. n ≡ min (length buf.old) (slice_index self.old.lengths number - at)) }
        ensures rest { IfOk result (λ n. drop n buf.new ≡ drop n buf.old) }
    {
        let left = self.places.as_slice()[number].len.saturating_sub(at);
        let wanted = buf.len().min(left as usize);
        if wanted == 0 {
            return Ok(0);
        }
        let file = self.take_file(number)?;
        // It reads until all is there, and fails where the file ends before.
        file.read_exact_at(&mut buf[..wanted], at)?;
        self.current = Some(Current { number, file });
        Ok(wanted)
    }

    fn count_fault(&mut self)
        ensures counted { self.new ≡ record self.old { faults = raised self.old.faults } }
        ensures counts { self.old.faults ≤ self.new.faults }
        ensures rose { Rose self.old.faults self.new.faults }
    {
        self.faults = self.faults.saturating_add(1);
    }
}

impl<R: Files<File = File> + AllocGlobal + Drop + Send> Store for FsStore<R> {
    ghost faults = { λ store. store.faults };

    ghost counts_exactly = { true };

    ghost files = { λ _. None };

    ghost opened = { λ store file. untold_opening store.lengths file };

    fn open_file(&mut self, name: &[u8]) -> Result<Opened, OpenRefusal> {
        let answer = self.open_named(name);
        if matches!(answer, Err(OpenRefusal::Failed)) {
            self.count_fault();
        }
        answer
    }

    fn read_at(&mut self, file: u32, at: u64, buf: &mut [u8]) -> Result<usize, Failed> {
        match self.read_place(file as usize, at, buf) {
            Ok(count) => Ok(count),
            Err(_) => {
                self.count_fault();
                Err(Failed)
            }
        }
    }
}

#[cfg(test)]
mod tests;
