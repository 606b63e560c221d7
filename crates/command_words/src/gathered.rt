ghost use Rattle.std.specs.Prelude.{◌≡◌, ◌≤◌, map, IfSome};
ghost use Rattle.std.specs.Option.{option_map};
ghost use Rattle.command_words.specs.Commands.{AreOptions, greatest_of, words_of};
ghost use Rattle.command_words.specs.Few.{is_nothing};
ghost use Rattle.command_words.specs.Gathering.{gathering_of, has_none_gathered, options_gathered};
ghost use Rattle.command_words.specs.Gathering.{shown_gathered, shown_gathering, value_of_few};
ghost use Rattle.command_words.specs.Gathering.{with_part, with_parts};
ghost use Rattle.command_words.specs.Parts.{Positional, parts_of};
ghost use Rattle.command_words.specs.Shown.{shown_few, shown_part};

use crate::few::Few;
use crate::number::number_within;
use crate::parts::{Part, first_part};
use crate::setting::Setting;
use crate::usage::Usage;
use beam_values::Options;

/// What the words after the name of a command give: of each option its texts, and the positional words.
#[derive(Clone, Copy)]
pub struct Gathered<'a> {
    pub workers: Few<'a>,
    pub bundle: Few<'a>,
    pub chunk: Few<'a>,
    pub attempts: Few<'a>,
    pub positional: Few<'a>,
}

impl Gathered<'_> {
    /// The options, each as it was given or by default.
    pub fn options(&self) -> Option<Options>
        ensures exact { result ≡ options_gathered (shown_gathered self.now) }
        ensures within { IfSome result AreOptions }
    {
        Some(Options {
            workers: value(Setting::Workers, self.workers)? as u32,
            bundle: value(Setting::Bundle, self.bundle)? as u32,
            chunk: value(Setting::Chunk, self.chunk)?,
            attempts: value(Setting::Attempts, self.attempts)? as u32,
        })
    }

    /// Whether no option was given.
    pub fn has_no_option(&self) -> bool
        ensures { result ≡ has_none_gathered (shown_gathered self.now) }
    {
        is_nothing(self.workers)
            && is_nothing(self.bundle)
            && is_nothing(self.chunk)
            && is_nothing(self.attempts)
    }
}

fn is_nothing(texts: Few<'_>) -> bool
    ensures { result ≡ is_nothing (shown_few texts.entry) }
{
    matches!(texts, Few::Nothing)
}

// The value of an option that has these texts.
fn value(setting: Setting, texts: Few<'_>) -> Option<u64>
    ensures exact { result ≡ value_of_few setting (shown_few texts.entry) }
    ensures within { IfSome result (λ value. (1 ≤ value) × (value ≤ greatest_of setting)) }
{
    match texts {
        Few::Nothing => Some(setting.default()),
        Few::One(text) => number_within(text, 1, setting.greatest()),
        Few::Two(_, _) | Few::More => None,
    }
}

/// Gathers the words after the name of a command.
pub fn gather(words: &[String]) -> Result<Gathered<'_>, Usage>
    ensures { shown_gathering result ≡ option_map gathering_of (parts_of (words_of words.now)) }
{
    let mut gathered = Gathered {
        workers: Few::Nothing,
        bundle: Few::Nothing,
        chunk: Few::Nothing,
        attempts: Few::Nothing,
        positional: Few::Nothing,
    };
    let mut left = words;
    while let [word, after @ ..] = left {
        let word = word.as_str();
        if word == "--" {
            return Ok(with_positional_words(gathered, after));
        }
        let (part, after) = first_part(word, after)?;
        gathered = with_part(gathered, part);
        left = after;
    }
    Ok(gathered)
}

// The same with one more part after them.
fn with_part<'a>(gathered: Gathered<'a>, part: Part<'a>) -> Gathered<'a>
    ensures { shown_gathered result
        ≡ with_part (shown_gathered gathered.entry) (shown_part part.entry) }
{
    match part {
        Part::Chosen(Setting::Workers, text) => Gathered {
            workers: gathered.workers.with(text),
            ..gathered
        },
        Part::Chosen(Setting::Bundle, text) => Gathered {
            bundle: gathered.bundle.with(text),
            ..gathered
        },
        Part::Chosen(Setting::Chunk, text) => Gathered {
            chunk: gathered.chunk.with(text),
            ..gathered
        },
        Part::Chosen(Setting::Attempts, text) => Gathered {
            attempts: gathered.attempts.with(text),
            ..gathered
        },
        Part::Positional(word) => Gathered {
            positional: gathered.positional.with(word),
            ..gathered
        },
    }
}

// The same with positional words after them.
fn with_positional_words<'a>(mut gathered: Gathered<'a>, words: &'a [String]) -> Gathered<'a>
    ensures { shown_gathered result
        ≡ with_parts (shown_gathered gathered.entry) (map Positional (words_of words.now)) }
{
    for word in words {
        gathered = with_part(gathered, Part::Positional(word.as_str()));
    }
    gathered
}
