ghost use Rattle.std.specs.Prelude.{◌<◌, length};

use beam_command::beam_main;
use beam_ports::{Gate, MemorySink, MemoryStore, OpenGate, ShrunkStore, Sink, Store};
use beam_values::{Bytes, Duplicate, FileText, FnKind, List, NoMemory};
use case_files::{Case, Script, read_function, shrunk_store};
use dofn_library::{BatchUntil, Dedupe, LatestThenEmit, RunningSum, Scripted, add_functions};
use dofn_traits::{BoxShelf, DoFn, Shelf, SplittableFn, StatefulFn};
use itoa::Buffer;
use run_engine::Kit;
use sdf_library::{Count, Lines, Made, TimedLines};
use std::alloc::Global;
use std::mem;
use std::sync::Wait;
use std::thread::Threads;

/// How many bytes a write takes where the case says nothing.
const USUAL_WRITE: usize = 1 << 20;

// What a command is run on: its words, its kits, and which calls of the sinks fail.
#[derive(Drop)]
struct Setting {
    words: Vec<String>,
    // The kits whose lines have all come, and the one that lines belong to.
    kits: List<KitSetting>,
    kit: KitSetting,
    failing_writes: List<u64>,
    failing_notes: List<u64>,
    most_taken: usize,
}

// So many kits, each with a store of its own over the same files, and the calls of the store and of a function that fail.
#[derive(Drop)]
struct KitSetting {
    count: u32,
    files: List<FileText>,
    // How long the store says that each file is, and whether it says more than there is.
    lengths: List<u64>,
    is_shrunk: bool,
    failing_reads: List<u64>,
    function: Option<FnKind>,
    failing_calls: List<u64>,
}

impl KitSetting {
    fn new(alloc: Global) -> KitSetting {
        KitSetting {
            count: 1,
            files: List::new(alloc),
            lengths: List::new(alloc),
            is_shrunk: false,
            failing_reads: List::new(alloc),
            function: None,
            failing_calls: List::new(alloc),
        }
    }
}

// What should come of it.
#[derive(Drop)]
struct Wanted {
    status: u8,
    out: Bytes,
    // Whether only the first `k` bytes of `out` are written.
    is_front: bool,
    notes: Bytes,
}

/// The status, the text and the notes of a command over stores and sinks in memory, which the lines of a
/// block describe.
pub fn answer_command<'a, R: Threads + Wait + Sync>(
    rt: &R,
    script: &mut Script<'a>,
    case: &mut Case<'a>,
) {
    let alloc = case.alloc();
    let mut setting = Setting {
        words: Vec::new(alloc),
        kits: List::new(alloc),
        kit: KitSetting::new(alloc),
        failing_writes: List::new(alloc),
        failing_notes: List::new(alloc),
        most_taken: USUAL_WRITE,
    };
    let mut wanted = Wanted {
        status: 0,
        out: Bytes::new(alloc),
        is_front: false,
        notes: Bytes::new(alloc),
    };
    read_words(case, &mut setting);
    read_lines(script, case, &mut setting, &mut wanted);
    next_kit(case, &mut setting);
    expect(case, &wanted);
    run(rt, setting, case);
}

// The words after the name of the program.
fn read_words(case: &mut Case<'_>, setting: &mut Setting) {
    let alloc = case.alloc();
    let mut kept = keep_word(alloc, setting, "beam_run");
    for _ in 0..case.left() {
        if case.is_over() || kept.is_err() {
            break;
        }
        let word = case.unspaced();
        kept = keep_word(alloc, setting, if word == "\"\"" { "" } else { word });
    }
    case.end();
    if let Err(refused) = kept {
        case.no_memory(refused);
    }
}

fn keep_word(alloc: Global, setting: &mut Setting, word: &str) -> Result<(), NoMemory> {
    setting.words.push(String::from_str(alloc, word)?)?;
    Ok(())
}

fn read_lines<'a>(
    script: &mut Script<'a>,
    case: &mut Case<'a>,
    setting: &mut Setting,
    wanted: &mut Wanted,
) {
    for _ in 0..u64::MAX {
        if !script.next_of_block(case) {
            break;
        }
        read_line(case, setting, wanted);
        case.end();
    }
}

fn read_line(case: &mut Case<'_>, setting: &mut Setting, wanted: &mut Wanted) {
    match case.word() {
        "file" => read_file(case, &mut setting.kit),
        "kits" => setting.kit.count = case.number(),
        "kit" => next_kit(case, setting),
        "fail" => read_failing(case, setting),
        "take" => setting.most_taken = case.number(),
        "status" => wanted.status = case.number(),
        "out" => read_more(case, &mut wanted.out),
        "first" => wanted.is_front = case.word() == "k" && case.word() == "out",
        "note" => read_more(case, &mut wanted.notes),
        _ => case.fail("a command has no such line"),
    }
}

// A file, and the length that the store says of it where that isn't its own.
fn read_file(case: &mut Case<'_>, kit: &mut KitSetting) {
    let name = case.text();
    let bytes = case.text_or_front();
    let len = if case.is_over() {
        bytes.len() as u64
    } else {
        kit.is_shrunk = true;
        read_said(case)
    };
    case.keep(&mut kit.lengths, len);
    case.keep(&mut kit.files, FileText { name, bytes });
}

fn read_said(case: &mut Case<'_>) -> u64 {
    if case.word() != "says" {
        case.fail("a file says a length");
    }
    case.number()
}

// The lines that follow belong to a kit of their own.
fn next_kit(case: &mut Case<'_>, setting: &mut Setting) {
    let next = KitSetting::new(case.alloc());
    let whole = mem::replace(&mut setting.kit, next);
    case.keep(&mut setting.kits, whole);
}

// One more line of a text.
fn read_more(case: &mut Case<'_>, text: &mut Bytes) {
    let line = case.line_rest();
    if text.extend_from_slice(line.as_slice()).is_err() {
        case.no_memory(NoMemory);
    }
}

fn read_failing(case: &mut Case<'_>, setting: &mut Setting) {
    let calls = match case.word() {
        "store" => &mut setting.kit.failing_reads,
        "out" => &mut setting.failing_writes,
        "notes" => &mut setting.failing_notes,
        "function" => {
            setting.kit.function = Some(read_function(case));
            &mut setting.kit.failing_calls
        }
        _ => return case.fail("calls fail of store, out, notes or a function"),
    };
    for _ in 0..case.left() {
        if case.is_over() {
            break;
        }
        let call = case.number_or_k();
        case.keep(calls, call);
    }
}

fn expect(case: &mut Case<'_>, wanted: &Wanted) {
    case.expect(Buffer::new().format(wanted.status).as_bytes());
    case.expect(b" ");
    let mut out = wanted.out.as_slice();
    if wanted.is_front {
        out = case.front_of(out);
    }
    case.expect(out);
    case.expect(b" ");
    case.expect(wanted.notes.as_slice());
}

// Adds a box of each of these objects to a list.
macro_rules! add_boxes {
    ($alloc:expr, $boxes:ident; $($object:ident),*) => {{
        let mut add = || -> Result<(), NoMemory> {
            $($boxes.push(Box::new($alloc, $object::new($alloc))?)?;)*
            Ok(())
        };
        add()
    }};
}

fn run<R: Threads + Wait + Sync>(rt: &R, setting: Setting, case: &mut Case<'_>) {
    let alloc = case.alloc();
    let Setting {
        words,
        kits,
        kit: _last,
        failing_writes,
        failing_notes,
        most_taken,
    } = setting;
    let mut out = MemorySink::new(alloc, most_taken.max(1), failing_writes);
    let mut notes = MemorySink::new(alloc, USUAL_WRITE, failing_notes);
    let (words, kits) = (words.as_slice(), kits.as_slice());
    if kits.iter().any(|kit| kit.is_shrunk) {
        run_all::<R, ShrunkStore>(rt, words, kits, &mut out, &mut notes, case);
    } else {
        run_all::<R, MemoryStore>(rt, words, kits, &mut out, &mut notes, case);
    }
}

/// A store that a case can describe.
trait CaseStore: Store + Drop {
    /// The store of a kit, or `None` and a fault of the case.
    fn of_kit(kit: &KitSetting, case: &mut Case<'_>) -> Option<Self>;
}

impl CaseStore for MemoryStore {
    fn of_kit(kit: &KitSetting, case: &mut Case<'_>) -> Option<MemoryStore> {
        let files = copied_files(kit, case);
        let failing = copied_numbers(&kit.failing_reads, case);
        Some(MemoryStore::new(files, failing))
    }
}

impl CaseStore for ShrunkStore {
    fn of_kit(kit: &KitSetting, case: &mut Case<'_>) -> Option<ShrunkStore> {
        if !kit.failing_reads.is_empty() {
            case.fail("a store fails at its calls, or where a file is shorter than it says");
        }
        let files = copied_files(kit, case);
        let lengths = copied_numbers(&kit.lengths, case);
        shrunk_store(files, lengths, case)
    }
}

fn copied_files(kit: &KitSetting, case: &mut Case<'_>) -> List<FileText> {
    let alloc = case.alloc();
    let mut files = List::new(alloc);
    for file in kit.files.as_slice() {
        match copied(alloc, file) {
            Ok(file) => case.keep(&mut files, file),
            Err(refused) => case.no_memory(refused),
        }
    }
    files
}

fn copied(alloc: Global, file: &FileText) -> Result<FileText, NoMemory> {
    Ok(FileText {
        name: file.name.duplicate(alloc)?,
        bytes: file.bytes.duplicate(alloc)?,
    })
}

fn copied_numbers(numbers: &List<u64>, case: &mut Case<'_>) -> List<u64> {
    match numbers.duplicate(case.alloc()) {
        Ok(copy) => copy,
        Err(refused) => {
            case.no_memory(refused);
            List::new(case.alloc())
        }
    }
}

// What a kit is made of.
#[derive(Drop)]
struct Parts<D, P, T, S> {
    fns: List<D>,
    splits: List<P>,
    states: List<T>,
    store: S,
}

// Runs the command with a kit of boxes for each that is set. It leaves at one place alone: a way out in the
// middle would drop all the boxes there, and each such place is dear to prove.
fn run_all<R: Threads + Wait + Sync, S: CaseStore>(
    rt: &R,
    words: &[String],
    settings: &[KitSetting],
    out: &mut MemorySink,
    notes: &mut MemorySink,
    case: &mut Case<'_>,
) {
    let alloc = case.alloc();
    let mut parts = Vec::new(alloc);
    for setting in settings {
        for _ in 0..setting.count {
            let mut fns: List<Box<dyn DoFn>> = List::new(alloc);
            let mut splits: List<Box<dyn SplittableFn>> = List::new(alloc);
            let mut states: List<Box<dyn StatefulFn>> = List::new(alloc);
            case.all_kept(add_functions!(alloc, fns));
            case.all_kept(add_boxes!(alloc, splits; Lines, TimedLines, Count, Made));
            case.all_kept(
                add_boxes!(alloc, states; Dedupe, RunningSum, BatchUntil, LatestThenEmit),
            );
            let fns = scripted(setting, fns, case);
            add_parts(setting, fns, splits, states, &mut parts, case);
        }
    }
    run_with::<R, _, _, _, S>(rt, words, parts, out, notes, case);
}

// The functions, of which the one that the setting names fails at its calls.
fn scripted<D: DoFn + Drop>(
    setting: &KitSetting,
    fns: List<D>,
    case: &mut Case<'_>,
) -> List<Scripted<D>> {
    let mut all = List::new(case.alloc());
    for object in fns.into_vec() {
        let failing = if setting.function == Some(object.kind()) {
            copied_numbers(&setting.failing_calls, case)
        } else {
            List::new(case.alloc())
        };
        case.keep(&mut all, Scripted::new(object, failing));
    }
    all
}

// The parts of one more kit, with a store of its own.
fn add_parts<D: Drop, P: Drop, T: Drop, S: CaseStore>(
    setting: &KitSetting,
    fns: List<D>,
    splits: List<P>,
    states: List<T>,
    parts: &mut Vec<Parts<D, P, T, S>>,
    case: &mut Case<'_>,
) {
    let Some(store) = S::of_kit(setting, case) else {
        return;
    };
    let own = Parts {
        fns,
        splits,
        states,
        store,
    };
    if parts.push(own).is_err() {
        case.no_memory(NoMemory);
    }
}

// Runs the command with a kit of each of these parts.
fn run_with<R: Threads + Wait + Sync, D: DoFn, P: SplittableFn, T: StatefulFn, S: Store + Drop>(
    rt: &R,
    words: &[String],
    parts: Vec<Parts<D, P, T, S>>,
    out: &mut MemorySink,
    notes: &mut MemorySink,
    case: &mut Case<'_>,
) {
    let mut kits = Vec::new(case.alloc());
    for part in parts {
        add_kit(part, &mut kits, case);
    }
    run_kits(rt, words, &mut kits, out, notes, case);
}

fn add_kit<D: DoFn, P: SplittableFn, T: StatefulFn, S: Store + Drop>(
    part: Parts<D, P, T, S>,
    kits: &mut Vec<Kit<BoxShelf<D, P, T>, S>>,
    case: &mut Case<'_>,
) {
    let Parts {
        fns,
        splits,
        states,
        store,
    } = part;
    match BoxShelf::new(fns, splits, states) {
        Ok(shelf) => keep_kit(Kit::new(case.alloc(), shelf, store), kits, case),
        Err(_) => case.fail("a function of each kind"),
    }
}

fn keep_kit<F: Shelf + Drop, S: Store + Drop>(
    kit: Kit<F, S>,
    kits: &mut Vec<Kit<F, S>>,
    case: &mut Case<'_>,
) {
    if kits.push(kit).is_err() {
        case.no_memory(NoMemory);
    }
}

fn run_kits<R: Threads + Wait + Sync, F: Shelf, S: Store>(
    rt: &R,
    words: &[String],
    kits: &mut Vec<Kit<F, S>>,
    out: &mut MemorySink,
    notes: &mut MemorySink,
    case: &mut Case<'_>,
) {
    if kits.is_empty() {
        return case.fail("a command has a kit");
    }
    let alloc = case.alloc();
    case.say_number(status_of(rt, alloc, words, kits, out, notes, &OpenGate));
    case.say_bytes(out.taken());
    case.say_bytes(notes.taken());
}

// The status of the command. Its contract says much of all that it is given, and is unfolded at the types of a
// call: so it is called over any types, and nothing of it is passed on.
fn status_of<R: Threads + Wait + Sync, F: Shelf, S: Store, W: Sink, N: Sink, G: Gate>(
    rt: &R,
    alloc: Global,
    words: &[String],
    kits: &mut Vec<Kit<F, S>>,
    out: &mut W,
    notes: &mut N,
    gate: &G,
) -> u8
    requires { 0 < length kits.old.items }
{
    let end = beam_main(rt, alloc, words, kits, out, notes, gate);
    end.status.number()
}
