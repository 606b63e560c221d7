//! The words of a command line: what they ask for, exactly by the rules, over every list of words.
//!
//! After the name of a command its words are options, in one word as `--name=value` or in two, and
//! positional words, in any order. The first `--` ends the options. Before it a word of more than one
//! byte that begins with `-` is an option of the command, or the words are refused. Each option stands
//! at most once, the positional words are as many as the command asks for, and a number is an optional
//! `+` and digits, within its bounds.
//!
//! The layer above may rely on [`read_words`]: its answer is that of `command_of` (`specs/Commands.antt`),
//! one recursion over the words that cuts them into parts (`specs/Parts.antt`) and a meaning of the parts.
//! `specs/Grammar.antt` and `specs/Rules.antt` say the same rule by rule, as which [`laws`] prove it.
//! Read these four first, and `specs/Vectors.antt`, which has command lines computed. No call takes memory.
#![tactic(auto)]

mod command;
mod few;
mod gathered;
mod help;
pub mod laws;
mod name;
mod number;
mod parts;
mod setting;
mod usage;

pub use command::{Command, read_words};
pub use help::help_text;
pub use usage::Usage;
