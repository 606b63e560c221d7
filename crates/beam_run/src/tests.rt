//! The command over sinks with places of their own, so that each allocation is the command's, and its workers
//! in an order that a gate forces.
use crate::{Parts, command, run_over};
use beam_ports::{FileText, Gate, GatePoint, MemorySink, MemoryStore, OpenGate};
use beam_values::{Args, Bytes, Element, FnKind, List, NoMemory};
use dofn_library::{BatchUntil, Dedupe, LatestThenEmit, RunningSum, add_functions};
use dofn_traits::{CallRefusal, DoFn, SplittableFn, StatefulFn};
use sdf_library::{Count, Lines, Made, TimedLines};
use std::alloc::Global;
use std::process::Abort;
use std::sync::Wait;
use std::sync::atomic::{AtomicBool, AtomicU64, Ordering};
use std::test::Fail;
use std::thread;
use std::thread::Threads;
use system_ports::{ErrSink, OutSink};

const FOUR_LINES: &[u8] = b"1000\ta\tx\n61000\ta\ty\n2000\tb\tz\n2000\ta\tx\n";

const THREE_PANES: &[u8] =
    b"0\t60000\tON_TIME\t0\t(\"a\",[\"x\",\"x\"])\n0\t60000\tON_TIME\t0\t(\"b\",[\"z\"])\n60000\t120000\tON_TIME\t0\t(\"a\",[\"y\"])\n";

const THREE_LINES: &[u8] = b"1000\ta\tx\n2000\ta\ty\n3000\tb\tz\n";

const TWO_PANES: &[u8] =
    b"0\t60000\tON_TIME\t0\t(\"a\",[\"x\",\"y\"])\n0\t60000\tON_TIME\t0\t(\"b\",[\"z\"])\n";

// A function that has memory only between the start of a bundle and its finish.
#[derive(Drop)]
struct Bundled<D: DoFn> {
    object: D,
    started: bool,
}

impl<D: DoFn> DoFn for Bundled<D> {
    ghost work = { λ bundled. D.work bundled.object };

    ghost faults = { λ bundled. D.faults bundled.object };

    ghost strict = { λ bundled. D.strict bundled.object };

    fn kind(&self) -> FnKind {
        self.object.kind()
    }

    // A second start without a finish between is none.
    fn start_bundle(&mut self) {
        self.object.start_bundle();
        self.started = !self.started;
    }

    fn finish_bundle(&mut self) {
        self.object.finish_bundle();
        self.started = !self.started;
    }

    fn call(
        &mut self,
        args: &Args,
        e: &Element,
        out: &mut List<Element>,
    ) -> Result<(), CallRefusal> {
        if !self.started {
            return Err(CallRefusal::NoMemory);
        }
        self.object.call(args, e, out)
    }
}

fn words(alloc: Global, texts: &[&str]) -> Result<Vec<String>, NoMemory> {
    let mut words = Vec::new(alloc);
    for text in texts {
        words.push(String::from_str(alloc, text)?)?;
    }
    Ok(words)
}

// A store over the file `f`. Of its calls, counted from 0, those listed fail.
fn store(alloc: Global, text: &[u8], failing: &[u64]) -> Result<MemoryStore, NoMemory> {
    let mut files = List::new(alloc);
    files.push(FileText {
        name: Bytes::from_slice(alloc, b"f")?,
        bytes: Bytes::from_slice(alloc, text)?,
    })?;
    Ok(MemoryStore::new(files, List::from_slice(alloc, failing)?))
}

// Run this one with each allocation failing in turn: `tests/every_allocation_fails.sh`. The sinks have
// places of their own, so that no allocation is theirs.
#[test]
fn four_lines_give_their_panes_or_no_memory(rt: HostRuntime) -> Result<(), Fail> {
    let alloc = rt.alloc();
    let words = words(alloc, &["beam_run", "panes", "f", "60000"]);
    let mut stores = Vec::new(alloc);
    let (Ok(store), Ok(words)) = (store(alloc, FOUR_LINES, &[]), words) else {
        // Memory was short before the command began.
        return Ok(());
    };
    if stores.push(store).is_err() {
        return Ok(());
    }
    let mut text = [0u8; 256];
    let mut note = [0u8; 64];
    let mut out = OutSink::new(text.as_mut_slice());
    let mut notes = ErrSink::new(note.as_mut_slice());
    let words = words.as_slice();
    let end = run_over(&rt, alloc, words, stores, &mut out, &mut notes, &OpenGate)?;
    if end.status.number() == 8 {
        assert_eq!(rt; text.split_at(1).0, b"\0".as_slice());
        assert_eq!(rt; note.split_at(11).0, b"no memory\n\0".as_slice());
    } else {
        assert_eq!(rt; end.status.number(), 0);
        assert_eq!(rt; text.split_at(THREE_PANES.len()).0, THREE_PANES);
        assert_eq!(rt; note.split_at(1).0, b"\0".as_slice());
    }
    Ok(())
}

// Each line is a bundle. The first read fails, and the bundle that it refuses is finished too.
#[test]
fn functions_are_told_of_each_bundle(rt: HostRuntime) -> Result<(), Fail> {
    let alloc = rt.alloc();
    let mut fns: List<Box<dyn DoFn>> = List::new(alloc);
    let mut splits: List<Box<dyn SplittableFn>> = List::new(alloc);
    let mut states: List<Box<dyn StatefulFn>> = List::new(alloc);
    add_functions!(alloc, fns)?;
    add_boxes!(alloc, splits; Lines, TimedLines, Count, Made)?;
    add_boxes!(alloc, states; Dedupe, RunningSum, BatchUntil, LatestThenEmit)?;
    let mut bundled = List::new(alloc);
    for object in fns.into_vec() {
        let started = false;
        bundled.push(Bundled { object, started })?;
    }
    let mut parts = Vec::new(alloc);
    let store = store(alloc, FOUR_LINES, &[1])?;
    parts.push(Parts {
        fns: bundled,
        splits,
        states,
        store,
    })?;
    let words = words(alloc, &["beam_run", "panes", "--bundle", "1", "f", "60000"])?;
    let mut text = [0u8; 256];
    let mut note = [0u8; 64];
    let mut out = OutSink::new(text.as_mut_slice());
    let mut notes = ErrSink::new(note.as_mut_slice());
    let words = words.as_slice();
    let end = command(&rt, alloc, words, parts, &mut out, &mut notes, &OpenGate)?;
    assert_eq!(rt; end.status.number(), 0);
    assert_eq!(rt; text.split_at(THREE_PANES.len()).0, THREE_PANES);
    Ok(())
}

// How often a worker that a gate holds looks again, before the gate gives up.
const MOST_LOOKS: u32 = 100_000_000;

// No worker has claimed yet.
const NOBODY: u64 = u64::MAX;

// Of two workers it holds the one that claims first, at one of its claims, until the other one has got so far:
// 1 is its own first claim, 2 the job after that.
#[derive(Drop)]
struct HoldingGate {
    held_at: u64,
    until: u64,
    first: AtomicU64,
    claims: AtomicU64,
    steps: AtomicU64,
    // Whether the first worker went on because the other one had got so far. It is false where the gate gave up.
    forced: AtomicBool,
}

impl HoldingGate {
    // The claims of the first worker are counted from 0.
    fn new(held_at: u64, until: u64) -> HoldingGate {
        HoldingGate {
            held_at,
            until,
            first: AtomicU64::new(NOBODY),
            claims: AtomicU64::new(0),
            steps: AtomicU64::new(0),
            forced: AtomicBool::new(false),
        }
    }

    fn has_forced_its_order(&self) -> bool {
        self.forced.load(Ordering::SeqCst)
    }

    fn pass_claim(&self, worker: u64) {
        let order = Ordering::SeqCst;
        let _ = self.first.compare_exchange(NOBODY, worker, order, order);
        if self.first.load(order) != worker {
            let _ = self.steps.compare_exchange(0, 1, order, order);
        } else if self.claims.fetch_add(1, order) == self.held_at {
            self.hold();
        }
    }

    fn pass_job(&self, worker: u64) {
        let order = Ordering::SeqCst;
        if self.first.load(order) != worker {
            let _ = self.steps.compare_exchange(1, 2, order, order);
        }
    }

    fn hold(&self) {
        for _ in 0..MOST_LOOKS {
            if self.steps.load(Ordering::SeqCst) >= self.until {
                self.forced.store(true, Ordering::SeqCst);
                return;
            }
            thread::yield_now();
        }
    }
}

impl Gate for HoldingGate {
    fn pass(&self, worker: u32, point: GatePoint) {
        match point {
            GatePoint::Claim => self.pass_claim(u64::from(worker)),
            GatePoint::Job => self.pass_job(u64::from(worker)),
        }
    }
}

// What `panes f 60000` prints where two workers, with a kit each, pass the gate. It ends with status 0.
fn panes_of_two_workers<R: Threads + Wait + Abort + Sync, G: Gate>(
    rt: &R,
    alloc: Global,
    text: &[u8],
    gate: &G,
) -> Result<MemorySink, Fail> {
    let mut stores = Vec::new(alloc);
    for _ in 0..2 {
        stores.push(store(alloc, text, &[])?)?;
    }
    let words = words(alloc, &["beam_run", "panes", "f", "60000"])?;
    let mut note = [0u8; 64];
    let mut out = MemorySink::new(alloc, 1 << 20, List::new(alloc));
    let mut notes = ErrSink::new(note.as_mut_slice());
    let words = words.as_slice();
    let end = run_over(rt, alloc, words, stores, &mut out, &mut notes, gate)?;
    assert_eq!(rt; end.status.number(), 0);
    Ok(out)
}

// A file of one piece: a worker that claimed in it waits before its second claim, until the other one has split
// it, worked what it split off and come back for more.
#[test]
fn a_worker_takes_over_half_of_a_piece_that_is_worked(rt: HostRuntime) -> Result<(), Fail> {
    let gate = HoldingGate::new(1, 2);
    let out = panes_of_two_workers(&rt, rt.alloc(), THREE_LINES, &gate)?;
    assert!(rt; gate.has_forced_its_order());
    assert_eq!(rt; out.taken(), TWO_PANES);
    Ok(())
}

// A file of two pieces: a worker waits at its first claim, with a range that is live, until the other one claims in
// the other piece. The text has the window and key once, and each of the 8000 parts with its quotes and a comma or
// the end.
#[test]
fn two_workers_claim_in_two_pieces_beside_each_other(rt: HostRuntime) -> Result<(), Fail> {
    let alloc = rt.alloc();
    let mut text = Bytes::new(alloc);
    for _ in 0..8000 {
        text.extend_from_slice(b"1000\ta\tx\n")?;
    }
    let gate = HoldingGate::new(0, 1);
    let out = panes_of_two_workers(&rt, alloc, text.as_slice(), &gate)?;
    assert!(rt; gate.has_forced_its_order());
    let front = b"0\t60000\tON_TIME\t0\t(\"a\",[";
    assert!(rt; out.taken().starts_with(front));
    assert_eq!(rt; out.taken().len(), front.len() + 8000 * 4 + 2);
    Ok(())
}
