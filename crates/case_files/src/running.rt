use crate::case::Case;
use crate::expanded::expanded;
use std::process::ExitCode;
use std::rt::Files;
use std::str::{Lines, from_utf8};
use std::{fs, io};

/// How many cases there were.
#[derive(Clone, Copy)]
pub struct Tally {
    pub cases: u64,
    pub failed: u64,
}

impl Tally {
    /// No case was run.
    pub const NONE: Tally = Tally {
        cases: 0,
        failed: 0,
    };

    /// The sums of both. A sum stays at 2^64 - 1 once it is there.
    pub fn and(self, more: Tally) -> Tally {
        Tally {
            cases: self.cases.saturating_add(more.cases),
            failed: self.failed.saturating_add(more.failed),
        }
    }

    /// With one case more.
    pub fn counting(self, passed: bool) -> Tally {
        self.and(Tally {
            cases: 1,
            failed: u64::from(!passed),
        })
    }
}

/// The lines of a file of cases that aren't empty and don't begin with `#`.
#[derive(Clone, Drop)]
pub struct Script<'a> {
    lines: Lines<'a>,
    number: u64,
}

impl<'a> Script<'a> {
    /// The lines of a text.
    pub fn new(text: &'a str) -> Script<'a> {
        Script {
            lines: text.lines(),
            number: 0,
        }
    }

    /// The next of the lines; `None` at the end of the file.
    pub fn next_line(&mut self) -> Option<&'a str> {
        for _ in 0..u64::MAX {
            let line = self.lines.next()?;
            self.number = self.number.saturating_add(1);
            if !line.is_empty() && !line.starts_with('#') {
                return Some(line);
            }
        }
        None
    }

    /// Has the case read the next line of its block, if there is one before the line `end`.
    pub fn next_of_block(&mut self, case: &mut Case<'a>) -> bool {
        match self.next_line() {
            Some("end") => false,
            Some(line) => {
                case.read(line);
                true
            }
            None => {
                case.fail("the block has no end");
                false
            }
        }
    }
}

/// What answers the cases of a program.
pub trait Answers {
    /// Answers a case of one line.
    fn answer(&self, case: &mut Case<'_>);

    /// Answers a case that is a block of lines.
    fn answer_block<'a>(&self, script: &mut Script<'a>, case: &mut Case<'a>);
}

/// The text of a file of cases, with its repetitions written out.
pub fn read_cases(rt: &(impl Files + AllocGlobal), name: &str) -> io::Result<String> {
    let text = fs::read_to_string(rt, name)?;
    Ok(expanded(rt.alloc(), text.as_str())?)
}

/// Runs the cases of a file, and prints each that fails and how many passed.
pub fn run_file<R: Files + Print + AllocGlobal, A: Answers>(
    rt: &R,
    name: &str,
    answers: &A,
) -> io::Result<Tally> {
    let text = read_cases(rt, name)?;
    let mut script = Script::new(text.as_str());
    let mut tally = Tally::NONE;
    for _ in 0..u64::MAX {
        let Some(line) = script.next_line() else {
            break;
        };
        let mut case = Case::new(rt.alloc());
        answer_case(line, answers, &mut script, &mut case);
        tally = tally.counting(is_shown_to_pass(rt, name, &script, &case)?);
    }
    print_passed(rt, name, tally)?;
    Ok(tally)
}

// Answers the case that begins with the line.
fn answer_case<'a, A: Answers>(
    line: &'a str,
    answers: &A,
    script: &mut Script<'a>,
    case: &mut Case<'a>,
) {
    match line.split_once(" => ") {
        Some((input, expected)) => {
            case.expect(expected.as_bytes());
            case.read(input);
            answers.answer(case);
            case.end();
        }
        None => {
            case.read(line);
            answers.answer_block(script, case);
        }
    }
}

/// Whether a case passes. Where it doesn't, that is printed with the number of its last line.
pub fn is_shown_to_pass(
    rt: &impl Print,
    name: &str,
    script: &Script<'_>,
    case: &Case<'_>,
) -> io::Result<bool> {
    let passes = case.passes();
    if !passes {
        let number = script.number;
        let (expected, got) = (text_of(case.expected()), text_of(case.got()));
        println!(rt; "FAILED {name}:{number} expected {expected} got {got}")?;
    }
    Ok(passes)
}

fn text_of(bytes: &[u8]) -> &str {
    from_utf8(bytes).unwrap_or("bytes that are no text")
}

/// Prints how many cases of a file passed.
pub fn print_passed(rt: &impl Print, name: &str, tally: Tally) -> io::Result<()> {
    println!(rt; "{name}: {} ok", tally.cases.saturating_sub(tally.failed))
}

/// Prints how many cases there were and how many failed. The exit status is 1 where one failed, and 2 where
/// there was none, since a run of no case shows nothing.
pub fn print_all(rt: &impl Print, all: Tally) -> io::Result<ExitCode> {
    println!(rt; "{} cases, {} failed", all.cases, all.failed)?;
    Ok(ExitCode::from(match all {
        Tally { cases: 0, .. } => 2,
        Tally { failed: 0, .. } => 0,
        _ => 1,
    }))
}
