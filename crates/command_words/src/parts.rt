ghost use Rattle.std.specs.Prelude.{◌≡◌, ◌≤◌, ◌∷◌, false, length, None, OnErr, IfOk};
ghost use Rattle.command_words.specs.Commands.{words_of};
ghost use Rattle.command_words.specs.Parts.{parts_of, then_part, is_dashed, ends_options};
ghost use Rattle.command_words.specs.Shown.{shown_part};

use crate::setting::Setting;
use crate::usage::Usage;

/// A part of a command line.
#[derive(Clone, Copy)]
pub enum Part<'a> {
    /// An option and the text of its value.
    Chosen(Setting, &'a str),
    Positional(&'a str),
}

/// The first part of a word that is no `--` and the words after it, and the words after that part.
pub fn first_part<'a>(word: &'a str, after: &'a [String]) -> Result<(Part<'a>, &'a [String]), Usage>
    requires { ends_options word.now ≡ false }
    ensures part { IfOk result (λ first.
        parts_of (word.now ∷ words_of after.now)
        ≡ then_part (shown_part first.0) (parts_of (words_of first.1.now))) }
    ensures shorter { IfOk result (λ first. length first.1.now ≤ length after.now) }
    ensures refused { OnErr result (parts_of (word.now ∷ words_of after.now) ≡ None) }
{
    if !is_dashed(word) {
        return Ok((Part::Positional(word), after));
    }
    if let Some((name, text)) = word.split_once('=') {
        let setting = Setting::named(name).ok_or(Usage)?;
        return Ok((Part::Chosen(setting, text), after));
    }
    let setting = Setting::named(word).ok_or(Usage)?;
    let [text, after @ ..] = after else {
        return Err(Usage);
    };
    if is_dashed(text.as_str()) {
        return Err(Usage);
    }
    Ok((Part::Chosen(setting, text.as_str()), after))
}

// More than one byte, of which the first is `-`.
fn is_dashed(word: &str) -> bool
    ensures { result ≡ is_dashed word.now }
{
    matches!(word.as_bytes(), [b'-', _, ..])
}
