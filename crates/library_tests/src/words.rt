//! A command of each kind, and words that are none.
use beam_values::Options;
use command_words::{Command, Usage, help_text, read_words};
use std::alloc::{AllocError, Global};
use std::test::Fail;

const DEFAULT: Options = Options {
    workers: 4,
    bundle: 64,
    chunk: 65_536,
    attempts: 3,
};

// The words after the program's name.
fn words(alloc: Global, line: &[&str]) -> Result<Vec<String>, AllocError> {
    let mut words = Vec::new(alloc);
    words.push(String::from_str(alloc, "beam_run")?)?;
    for word in line {
        words.push(String::from_str(alloc, word)?)?;
    }
    Ok(words)
}

#[test]
fn a_command_of_each_kind(rt: HostRuntime) -> Result<(), Fail> {
    let alloc = rt.alloc();
    let help = words(alloc, &["-h", "x"])?;
    assert!(rt; read_words(&help) == Ok(Command::Help));
    let panes = words(alloc, &["panes", "--workers=2", "f", "--", "60000"])?;
    let asked = Command::Panes {
        file: b"f",
        size: 60_000,
        options: Options {
            workers: 2,
            ..DEFAULT
        },
    };
    assert!(rt; read_words(&panes) == Ok(asked));
    let run = words(alloc, &["run", "--chunk", "1", "--", "-p"])?;
    let asked = Command::Run {
        plan: b"-p",
        options: Options {
            chunk: 1,
            ..DEFAULT
        },
    };
    assert!(rt; read_words(&run) == Ok(asked));
    Ok(())
}

#[test]
fn commands_of_schedules_and_made_lines(rt: HostRuntime) -> Result<(), Fail> {
    let alloc = rt.alloc();
    let replay = words(alloc, &["replay", "p", "s"])?;
    let asked = Command::Replay {
        plan: b"p",
        schedule: b"s",
        options: DEFAULT,
    };
    assert!(rt; read_words(&replay) == Ok(asked));
    let make = words(alloc, &["make", "--", "+2", "7"])?;
    let asked = Command::Make {
        count: 2,
        number: 7,
    };
    assert!(rt; read_words(&make) == Ok(asked));
    let drill = words(alloc, &["drill", "17", "3", "--bundle=64"])?;
    let asked = Command::Drill {
        count: 17,
        number: 3,
        options: DEFAULT,
    };
    assert!(rt; read_words(&drill) == Ok(asked));
    Ok(())
}

#[test]
fn no_command(rt: HostRuntime) -> Result<(), Fail> {
    let twice = words(rt.alloc(), &["run", "p", "--bundle=1", "--bundle", "2"])?;
    assert!(rt; read_words(&twice) == Err(Usage));
    assert_eq!(rt; help_text().len(), 255);
    Ok(())
}
