//! Worked cases of the small libraries and of the functions, as data: what calls answer, worked out by hand.
//!
//! The cases stand in the files of `data/`, and the program runs those that it is given the names of: it
//! answers each case with the library, prints each that has another answer or that can't be read, and ends
//! with status 0 only where there was none; 1 means that a case failed, 2 that there was no case at all. A
//! case costs nothing to prove: to add one, write it into a file of `data/` and raise that file's count and
//! the sum in `stdout`. `docs/CASES.md` has the form of each kind; a new kind goes into `answer.rt`.
#![tactic(auto)]

mod answer;
mod coders;
mod functions;
mod grouping;
mod holds;
mod keyed;
mod lines;
mod lists;
mod outcomes;
mod pieces;
mod ports;
mod sessions;
mod sizes;
mod sources;
mod states;
mod steps;
mod timers;
mod trackers;
mod windows;

use answer::Libraries;
use case_files::{Tally, print_all, run_file};
use std::process::ExitCode;
use std::{env, io};

fn main(rt: HostRuntime) -> io::Result<ExitCode> {
    let mut words = env::args(&rt)?;
    let _program = words.next();
    let mut all = Tally::NONE;
    for name in words {
        all = all.and(run_file(&rt, name.as_str(), &Libraries)?);
    }
    print_all(&rt, all)
}
