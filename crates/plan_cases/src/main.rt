//! Worked cases of plans and of what becomes of them, as data: documents, graphs, marks, triggers and the
//! commits of Groups, and the words of command lines. What calls answer was worked out by hand.
//!
//! It reads and answers the files of `data/` as `library_cases` does its own. The commits of Groups are made
//! by both bodies (`bodies.rt`). `docs/CASES.md` has the form of each kind; a new kind goes into `answer.rt`.
#![tactic(auto)]

mod answer;
mod bodies;
mod documents;
mod graphs;
mod groups;
mod marks;
mod triggers;

use answer::Plans;
use case_files::{Tally, print_all, run_file};
use std::process::ExitCode;
use std::{env, io};

fn main(rt: HostRuntime) -> io::Result<ExitCode> {
    let mut words = env::args(&rt)?;
    let _program = words.next();
    let mut all = Tally::NONE;
    for name in words {
        all = all.and(run_file(&rt, name.as_str(), &Plans)?);
    }
    print_all(&rt, all)
}
