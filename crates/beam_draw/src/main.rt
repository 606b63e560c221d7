//! `beam_draw`: prints a plan as a graph, for Graphviz.
//!
//! `beam_draw PLAN` reads a plan document and prints a box for each node and an arrow for each input. The whole
//! program over any store and sinks is `draw_plan` (`top.rt`), whose contract is the promise of the program
//! (`specs/Ends.antt`); what is drawn is the definition of `plan_drawing`. `main` runs it over the system's
//! files and streams.
#![tactic(auto)]

mod top;

use std::alloc::AllocError;
use std::process::ExitCode;
use std::{env, io};
use system_ports::{ErrSink, FsStore, OutSink};
use top::{draw_plan, no_memory};

/// The exit status where the words of the command line can't be got.
const NO_WORDS: u8 = 2;

fn main(rt: HostRuntime) -> ExitCode {
    let mut out = OutSink::new(rt.stdout());
    let mut notes = ErrSink::new(rt.stderr());
    let alloc = rt.alloc();
    let words = match env::args(&rt) {
        Ok(args) => args.collect::<Vec<String>>(alloc),
        Err(error) if error.kind() == io::ErrorKind::OutOfMemory => Err(AllocError),
        Err(_) => return ExitCode::from(NO_WORDS),
    };
    let (Ok(words), Ok(mut store)) = (words, FsStore::new(rt)) else {
        return ExitCode::from(no_memory(&mut notes).number());
    };
    let status = draw_plan(alloc, words.as_slice(), &mut store, &mut out, &mut notes);
    ExitCode::from(status.number())
}
