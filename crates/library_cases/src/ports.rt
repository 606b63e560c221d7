ghost use Rattle.std.specs.Prelude.{◌<◌, length};

use crate::steps::Called;
use beam_ports::{Failed, MemorySink, MemoryStore, OpenRefusal, Sink, Store};
use beam_values::{FileText, List, NoMemory};
use case_files::Case;

/// A store with the files `NAME TEXT NAME TEXT`, and the calls that fail.
pub fn read_store(case: &mut Case<'_>) -> MemoryStore {
    let mut files = List::new(case.alloc());
    for _ in 0..case.left() {
        if !case.shows(b'"') {
            break;
        }
        let name = case.text();
        let bytes = case.text();
        case.keep(&mut files, FileText { name, bytes });
    }
    MemoryStore::new(files, read_failing(case))
}

/// A sink with the most bytes that it takes a call, and the calls that fail.
pub fn read_sink(case: &mut Case<'_>) -> MemorySink {
    let most = case.number::<usize>().max(1);
    MemorySink::new(case.alloc(), most, read_failing(case))
}

// The numbers of the calls that fail as `fails N N`, where there are any, and the `;` after them.
fn read_failing(case: &mut Case<'_>) -> List<u64> {
    let mut failing = List::new(case.alloc());
    if case.takes(b';') {
        return failing;
    }
    if case.word() != "fails" {
        case.fail("failing calls are `fails N N`");
    }
    for _ in 0..case.left() {
        if case.takes(b';') {
            break;
        }
        let call = case.number();
        case.keep(&mut failing, call);
    }
    failing
}

impl Called for MemoryStore {
    fn call(&mut self, name: &str, case: &mut Case<'_>) {
        match name {
            "read" => read(self, case),
            "faults" => case.say_number(self.faults()),
            _ => case.fail("a store has no such call"),
        }
    }
}

// Opens a file and reads of it into a buffer: its number, its length, how many bytes were read, and what
// is in the buffer then.
fn read(store: &mut MemoryStore, case: &mut Case<'_>) {
    let name = case.text();
    let at = case.number();
    let text = case.text();
    let Ok(mut buf) = Vec::from_slice(case.alloc(), text.as_slice()) else {
        return case.no_memory(NoMemory);
    };
    match open_and_read(store, name.as_slice(), at, buf.as_mut_slice()) {
        Ok((file, len, count)) => {
            case.say_number(file);
            case.say_number(len);
            case.say_number(count as u64);
        }
        Err(OpenRefusal::Absent) => case.say("absent"),
        Err(OpenRefusal::Failed) => case.say("failed"),
    }
    case.say_text(buf.as_slice());
}

fn open_and_read<S: Store>(
    store: &mut S,
    name: &[u8],
    at: u64,
    buf: &mut [u8],
) -> Result<(u32, u64, usize), OpenRefusal> {
    let opened = store.open_file(name)?;
    match store.read_at(opened.file, at, buf) {
        Ok(count) => Ok((opened.file, opened.len, count)),
        Err(Failed) => Err(OpenRefusal::Failed),
    }
}

impl Called for MemorySink {
    fn call(&mut self, name: &str, case: &mut Case<'_>) {
        match name {
            "write" => write(self, case),
            "taken" => case.say_text(self.taken()),
            "faults" => case.say_number(self.faults()),
            _ => case.fail("a sink has no such call"),
        }
    }
}

fn write(sink: &mut MemorySink, case: &mut Case<'_>) {
    let bytes = case.text();
    if bytes.is_empty() {
        return case.fail("a write has a byte");
    }
    match write_to(sink, bytes.as_slice()) {
        Ok(count) => case.say_number(count as u64),
        Err(Failed) => case.say("failed"),
    }
}

fn write_to<W: Sink>(sink: &mut W, bytes: &[u8]) -> Result<usize, Failed>
    requires { 0 < length bytes.now }
{
    sink.write(bytes)
}
