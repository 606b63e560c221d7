ghost use Rattle.std.specs.Prelude.{◌≡◌, ◌≢◌, ◌≤◌, ◌↔◌, Ok, IfOk, IfSome, IsErr, IsTrue};
ghost use Rattle.beam_values.specs.Strategies.{IsLength};
ghost use Rattle.command_words.specs.Commands.{AsksHelp, IsAllowed, asks_help, command_named};
ghost use Rattle.command_words.specs.Commands.{command_of, count_of, is_file_name, size_of, words_of};
ghost use Rattle.command_words.specs.Gathering.{asked_gathered, combine_gathered, drill_gathered, make_gathered};
ghost use Rattle.command_words.specs.Gathering.{panes_gathered, replay_gathered, run_gathered};
ghost use Rattle.command_words.specs.Gathering.{shown_gathered};
ghost use Rattle.command_words.specs.Rules.{Asks, IsRefused};
ghost use Rattle.command_words.specs.Shown.{shown_answer, shown_command};

use crate::few::Few;
use crate::gathered::{Gathered, gather};
use crate::name::CommandName;
use crate::number::number_within;
use crate::usage::Usage;
use beam_values::Options;
use windowing::GREATEST_LENGTH;

/// The greatest size of a window, in milliseconds.
const GREATEST_SIZE: u64 = GREATEST_LENGTH as u64;

/// The greatest length of a file's name, in bytes.
const LONGEST_NAME: usize = 4096;

/// The greatest count of made lines, and the greatest number that they are made after.
const GREATEST_COUNT: u64 = 1_000_000;

/// What a command line asks for.
#[derive(Clone, Copy, Debug, PartialEq, Eq)]
pub enum Command<'a> {
    /// `help`, `--help` or `-h`, whatever words follow.
    Help,
    /// `panes FILE SIZE`, with options.
    Panes {
        /// The name of a file.
        file: &'a [u8],
        /// The size of a window, in milliseconds.
        size: i64,
        options: Options,
    },
    /// `run PLAN`, with options.
    Run {
        /// The name of the plan's file, of any length.
        plan: &'a [u8],
        options: Options,
    },
    /// `replay PLAN SCHEDULE`, with options.
    Replay {
        /// The name of the plan's file, of any length.
        plan: &'a [u8],
        /// The name of the schedule's file, of any length.
        schedule: &'a [u8],
        options: Options,
    },
    /// `make COUNT NUMBER`, which takes no options.
    Make {
        /// How many lines.
        count: u64,
        /// After which number they are made.
        number: u64,
    },
    /// `drill COUNT NUMBER`, with options.
    Drill {
        count: u64,
        number: u64,
        options: Options,
    },
    /// `combine PLAN`, with options.
    Combine {
        /// The name of the plan's file, of any length.
        plan: &'a [u8],
        options: Options,
    },
}

/// Reads the words of a command line, the name of the program first. It takes no memory.
pub fn read_words(words: &[String]) -> Result<Command<'_>, Usage>
    // The definition's answer.
    ensures exact { shown_answer result ≡ command_of (words_of words.now) }

    // Rule by rule: what is asked, help exactly where it is asked for, and a refusal exactly where nothing is.
    ensures asked { IfOk result (λ command. Asks (words_of words.now) (shown_command command)) }
    ensures help { (result ≡ Ok Command.Help) ↔ AsksHelp (words_of words.now) }
    ensures usage { IsErr result ↔ IsRefused (words_of words.now) }

    // What is asked lies in its bounds.
    ensures bounds { IfOk result (λ command. IsAllowed (shown_command command)) }
{
    let [_program, name, words @ ..] = words else {
        return Err(Usage);
    };
    read_command(name.as_str(), words)
}

// Reads the words after the name of a command.
fn read_command<'a>(name: &str, words: &'a [String]) -> Result<Command<'a>, Usage>
    ensures exact { shown_answer result ≡ command_named name.now (words_of words.now) }
    ensures help { (result ≡ Ok Command.Help) ↔ IsTrue (asks_help name.now) }
    ensures bounds { IfOk result (λ command. IsAllowed (shown_command command)) }
{
    if asks_help(name) {
        return Ok(Command::Help);
    }
    let command = CommandName::named(name).ok_or(Usage)?;
    let gathered = gather(words)?;
    ask(command, &gathered)
}

// What a command asks for with what was gathered of the words after its name.
fn ask<'a>(command: CommandName, gathered: &Gathered<'a>) -> Result<Command<'a>, Usage>
    ensures exact { shown_answer result ≡ asked_gathered command (shown_gathered gathered.now) }
    ensures no_help { result ≢ Ok Command.Help }
    ensures bounds { IfOk result (λ command. IsAllowed (shown_command command)) }
{
    match command {
        CommandName::Panes => panes(gathered),
        CommandName::Run => run(gathered),
        CommandName::Replay => replay(gathered),
        CommandName::Make => make(gathered),
        CommandName::Drill => drill(gathered),
        CommandName::Combine => combine(gathered),
    }
}

fn asks_help(name: &str) -> bool
    ensures { result ≡ asks_help name.now }
{
    name == "help" || name == "--help" || name == "-h"
}

// `panes FILE SIZE`
fn panes<'a>(gathered: &Gathered<'a>) -> Result<Command<'a>, Usage>
    ensures exact { shown_answer result ≡ panes_gathered (shown_gathered gathered.now) }
    ensures no_help { result ≢ Ok Command.Help }
    ensures bounds { IfOk result (λ command. IsAllowed (shown_command command)) }
{
    let Few::Two(file, size) = gathered.positional else {
        return Err(Usage);
    };
    if !is_file_name(file) {
        return Err(Usage);
    }
    let size = size_of(size).ok_or(Usage)?;
    let options = gathered.options().ok_or(Usage)?;
    Ok(Command::Panes {
        file: file.as_bytes(),
        size,
        options,
    })
}

// `run PLAN`
fn run<'a>(gathered: &Gathered<'a>) -> Result<Command<'a>, Usage>
    ensures exact { shown_answer result ≡ run_gathered (shown_gathered gathered.now) }
    ensures no_help { result ≢ Ok Command.Help }
    ensures bounds { IfOk result (λ command. IsAllowed (shown_command command)) }
{
    let Few::One(plan) = gathered.positional else {
        return Err(Usage);
    };
    let options = gathered.options().ok_or(Usage)?;
    Ok(Command::Run {
        plan: plan.as_bytes(),
        options,
    })
}

// `replay PLAN SCHEDULE`
fn replay<'a>(gathered: &Gathered<'a>) -> Result<Command<'a>, Usage>
    ensures exact { shown_answer result ≡ replay_gathered (shown_gathered gathered.now) }
    ensures no_help { result ≢ Ok Command.Help }
    ensures bounds { IfOk result (λ command. IsAllowed (shown_command command)) }
{
    let Few::Two(plan, schedule) = gathered.positional else {
        return Err(Usage);
    };
    let options = gathered.options().ok_or(Usage)?;
    Ok(Command::Replay {
        plan: plan.as_bytes(),
        schedule: schedule.as_bytes(),
        options,
    })
}

// `make COUNT NUMBER`
fn make<'a>(gathered: &Gathered<'a>) -> Result<Command<'a>, Usage>
    ensures exact { shown_answer result ≡ make_gathered (shown_gathered gathered.now) }
    ensures no_help { result ≢ Ok Command.Help }
    ensures bounds { IfOk result (λ command. IsAllowed (shown_command command)) }
{
    if !gathered.has_no_option() {
        return Err(Usage);
    }
    let Few::Two(count, number) = gathered.positional else {
        return Err(Usage);
    };
    let count = count_of(count).ok_or(Usage)?;
    let number = count_of(number).ok_or(Usage)?;
    Ok(Command::Make { count, number })
}

// `drill COUNT NUMBER`
fn drill<'a>(gathered: &Gathered<'a>) -> Result<Command<'a>, Usage>
    ensures exact { shown_answer result ≡ drill_gathered (shown_gathered gathered.now) }
    ensures no_help { result ≢ Ok Command.Help }
    ensures bounds { IfOk result (λ command. IsAllowed (shown_command command)) }
{
    let Few::Two(count, number) = gathered.positional else {
        return Err(Usage);
    };
    let count = count_of(count).ok_or(Usage)?;
    let number = count_of(number).ok_or(Usage)?;
    let options = gathered.options().ok_or(Usage)?;
    Ok(Command::Drill {
        count,
        number,
        options,
    })
}

// `combine PLAN`
fn combine<'a>(gathered: &Gathered<'a>) -> Result<Command<'a>, Usage>
    ensures exact { shown_answer result ≡ combine_gathered (shown_gathered gathered.now) }
    ensures no_help { result ≢ Ok Command.Help }
    ensures bounds { IfOk result (λ command. IsAllowed (shown_command command)) }
{
    let Few::One(plan) = gathered.positional else {
        return Err(Usage);
    };
    let options = gathered.options().ok_or(Usage)?;
    Ok(Command::Combine {
        plan: plan.as_bytes(),
        options,
    })
}

// A count of made lines, or the number that they are made after.
fn count_of(word: &str) -> Option<u64>
    ensures exact { result ≡ count_of word.now }
    ensures within { IfSome result (λ count. count ≤ GREATEST_COUNT) }
{
    number_within(word, 0, GREATEST_COUNT)
}

fn is_file_name(word: &str) -> bool
    ensures { result ≡ is_file_name word.now }
{
    !word.is_empty() && word.len() <= LONGEST_NAME
}

fn size_of(word: &str) -> Option<i64>
    ensures exact { result ≡ size_of word.now }
    ensures within { IfSome result IsLength }
{
    let size = number_within(word, 1, GREATEST_SIZE)?;
    Some(size as i64)
}
