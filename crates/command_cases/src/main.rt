//! Worked cases of the whole command, as data: its status, its text and its notes over stores and sinks in
//! memory, with one worker or several, worked out by hand.
//!
//! The cases stand in the files of `data/`, each a block that begins with `command`; the program reads them as
//! `library_cases` does its own. `docs/CASES.md` has the form of a case. Read `commands.rt`.
#![tactic(auto)]

mod commands;

use case_files::{Case, Script, Tally, is_shown_to_pass, print_all, print_passed, read_cases};
use commands::answer_command;
use std::process::ExitCode;
use std::rt::Files;
use std::sync::Wait;
use std::thread::Threads;
use std::{env, io};

fn main(rt: HostRuntime) -> io::Result<ExitCode> {
    let mut words = env::args(&rt)?;
    let _program = words.next();
    let mut all = Tally::NONE;
    for name in words {
        all = all.and(run_file(&rt, name.as_str())?);
    }
    print_all(&rt, all)
}

// Runs the cases of a file, and prints each that fails and how many passed.
fn run_file<R: Files + Print + AllocGlobal + Threads + Wait + Sync>(
    rt: &R,
    name: &str,
) -> io::Result<Tally> {
    let text = read_cases(rt, name)?;
    let mut script = Script::new(text.as_str());
    let mut tally = Tally::NONE;
    for _ in 0..u64::MAX {
        let Some(line) = script.next_line() else {
            break;
        };
        tally = tally.counting(passes(rt, name, line, &mut script)?);
    }
    print_passed(rt, name, tally)?;
    Ok(tally)
}

// Runs the case that begins with the line, each run of it over the same lines, up to one that doesn't pass.
fn passes<'a, R: Print + AllocGlobal + Threads + Wait + Sync>(
    rt: &R,
    name: &str,
    line: &'a str,
    script: &mut Script<'a>,
) -> io::Result<bool> {
    let block = script.clone()?;
    let mut case = Case::new(rt.alloc());
    for k in 0..usize::MAX {
        *script = block.clone()?;
        case = Case::run_of(rt.alloc(), k);
        case.read(line);
        answer(rt, script, &mut case);
        if !case.passes() || !case.goes_on() {
            break;
        }
    }
    is_shown_to_pass(rt, name, script, &case)
}

fn answer<'a, R: Threads + Wait + Sync>(rt: &R, script: &mut Script<'a>, case: &mut Case<'a>) {
    match case.word() {
        "command" => answer_command(rt, script, case),
        _ => case.fail("a case is a block that begins with command"),
    }
}
