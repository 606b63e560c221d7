//! `beam_run`: runs Beam pipelines on one machine.
//!
//! `beam_run panes FILE SIZE` groups a file of timed lines by the field after the time in fixed
//! windows of SIZE milliseconds, and prints the panes; `beam_run run PLAN` runs the pipeline of a plan
//! document, with several workers. The whole program over any stores and sinks is `beam_command::beam_main`,
//! whose contract is the promise of the program; `main` runs it over the system's files and streams, those
//! of `system_ports`, with a kit for each worker that can be asked for.
#![tactic(auto)]

use beam_command::beam_main;
use beam_ports::{Gate, OpenGate, Sink, Store};
use beam_values::{List, NoMemory};
use dofn_library::{BatchUntil, Dedupe, LatestThenEmit, RunningSum, add_functions};
use dofn_traits::{BoxShelf, DoFn, ShelfRefusal, SplittableFn, StatefulFn};
use run_engine::{Kit, RunEnd, Status, put};
use sdf_library::{Count, Lines, Made, TimedLines};
use std::alloc::{AllocError, Global};
use std::mem::ManuallyDrop;
use std::process::ExitCode;
use std::sync::Wait;
use std::thread::Threads;
use std::{env, io};
use system_ports::{ErrSink, FsStore, OutSink};

/// The exit status where the words of the command line can't be got.
const NO_WORDS: u8 = 2;

/// As many workers as a command line can ask for, each with a kit of its own.
const MOST_WORKERS: u32 = 16;

// Adds a box of each of these objects to a list.
macro_rules! add_boxes {
    ($alloc:expr, $boxes:ident; $($object:ident),*) => {{
        let mut add = || -> Result<(), NoMemory> {
            $($boxes.push(Box::new($alloc, $object::new($alloc))?)?;)*
            Ok(())
        };
        add()
    }};
}

#[cfg(test)]
mod tests;

fn main(rt: HostRuntime) -> ExitCode {
    let mut out = OutSink::new(rt.stdout());
    let mut notes = ErrSink::new(rt.stderr());
    let alloc = rt.alloc();
    let words = match env::args(&rt) {
        Ok(args) => args.collect::<Vec<String>>(alloc),
        Err(error) if error.kind() == io::ErrorKind::OutOfMemory => Err(AllocError),
        Err(_) => return ExitCode::from(NO_WORDS),
    };
    let Ok(words) = words else {
        return ExitCode::from(no_memory(&mut notes).number());
    };
    let mut stores = Vec::new(alloc);
    for _ in 0..MOST_WORKERS {
        let own: Result<_, AllocError> = rt.clone();
        let Ok(own) = own else {
            return ExitCode::from(no_memory(&mut notes).number());
        };
        let Ok(store) = FsStore::new(own) else {
            return ExitCode::from(no_memory(&mut notes).number());
        };
        if stores.push(store).is_err() {
            return ExitCode::from(no_memory(&mut notes).number());
        }
    }
    let words = words.as_slice();
    let end = run_over(&rt, alloc, words, stores, &mut out, &mut notes, &OpenGate);
    // The end of the process frees the outcome at once, not box by box.
    let end = ManuallyDrop::new(end);
    match &*end {
        Ok(end) => ExitCode::from(end.status.number()),
        Err(ShelfRefusal::Missing) => ExitCode::from(NO_WORDS),
    }
}

// Runs the command with a kit for each of these stores, which has a box of every function and source.
fn run_over<R, S, W, N, G>(
    rt: &R,
    alloc: Global,
    words: &[String],
    stores: Vec<S>,
    out: &mut W,
    notes: &mut N,
    gate: &G,
) -> Result<RunEnd, ShelfRefusal>
where
    R: Threads + Wait + Sync,
    S: Store + Drop,
    W: Sink,
    N: Sink,
    G: Gate,
{
    let mut parts = Vec::new(alloc);
    for store in stores {
        let mut fns: List<Box<dyn DoFn>> = List::new(alloc);
        let mut splits: List<Box<dyn SplittableFn>> = List::new(alloc);
        let mut states: List<Box<dyn StatefulFn>> = List::new(alloc);
        let added = add_functions!(alloc, fns).is_ok()
            && add_boxes!(alloc, splits; Lines, TimedLines, Count, Made).is_ok()
            && add_boxes!(alloc, states; Dedupe, RunningSum, BatchUntil, LatestThenEmit).is_ok();
        let own = Parts {
            fns,
            splits,
            states,
            store,
        };
        if !added || parts.push(own).is_err() {
            return Ok(out_of_memory(notes));
        }
    }
    command(rt, alloc, words, parts, out, notes, gate)
}

/// What a kit is made of.
#[derive(Drop)]
struct Parts<D, P, T, S> {
    fns: List<D>,
    splits: List<P>,
    states: List<T>,
    store: S,
}

// Runs the command with a kit of each of these parts.
fn command<R, D, P, T, S, W, N, G>(
    rt: &R,
    alloc: Global,
    words: &[String],
    parts: Vec<Parts<D, P, T, S>>,
    out: &mut W,
    notes: &mut N,
    gate: &G,
) -> Result<RunEnd, ShelfRefusal>
where
    R: Threads + Wait + Sync,
    D: DoFn,
    P: SplittableFn,
    T: StatefulFn,
    S: Store + Drop,
    W: Sink,
    N: Sink,
    G: Gate,
{
    let mut kits = Vec::new(alloc);
    for part in parts {
        let Parts {
            fns,
            splits,
            states,
            store,
        } = part;
        let shelf = BoxShelf::new(fns, splits, states)?;
        if kits.push(Kit::new(alloc, shelf, store)).is_err() {
            return Ok(out_of_memory(notes));
        }
    }
    if kits.is_empty() {
        return Ok(out_of_memory(notes));
    }
    Ok(beam_main(rt, alloc, words, &mut kits, out, notes, gate))
}

fn out_of_memory<N: Sink>(notes: &mut N) -> RunEnd {
    let status = no_memory(notes);
    RunEnd {
        status,
        outcome: None,
    }
}

fn no_memory<N: Sink>(notes: &mut N) -> Status {
    let _ = put(notes, b"no memory\n", 1);
    Status::NoMemory
}
