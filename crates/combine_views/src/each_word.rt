//! The words of a text, where the same becomes of each.

ghost use Rattle.std.specs.Prelude.{◌≡◌, ◌∷◌, [], IfSome, Some, List as ListOf, ℕ};
ghost use Rattle.beam_values.specs.Grouping.{key_of, part_of};
ghost use Rattle.beam_model.specs.Functions.{emits};
ghost use Rattle.beam_model.specs.Values.{blob};
ghost use Rattle.combine_lift.specs.Views.{view_value};
ghost use Rattle.combine_views.specs.Words.{IsWord, bytes_shown, element_of_word};

use crate::texts::shifted;
use beam_values::{Args, FnKind, Span, Time};
use combine_lift::View;

/// What stands in the place of a word.
#[derive(Clone, Copy)]
pub enum Shown {
    Word,
    /// No text.
    Empty,
}

/// What becomes of each word of a text.
#[derive(Clone, Copy)]
pub struct EachWord {
    /// Of a pair, its key.
    pub key: Option<Shown>,
    /// Of a pair, its part; else the value.
    pub part: Shown,
    pub time: Time,
    pub span: Span,
}

impl EachWord {
    /// The key and the part that a word brings to a Group.
    pub fn keyed<'a>(&self, word: &'a [u8]) -> (View<'a>, View<'a>)
        ensures key { view_value result.0 ≡ key_of (element_of_word self.now word.now) }
        ensures part { view_value result.1 ≡ part_of (element_of_word self.now word.now) }
    {
        match self.key {
            Some(key) => (view_of(key, word), view_of(self.part, word)),
            None => (View::Null, view_of(self.part, word)),
        }
    }
}

fn view_of<'a>(shown: Shown, word: &'a [u8]) -> View<'a>
    ensures { view_value result ≡ blob (bytes_shown shown word.now) }
{
    match shown {
        Shown::Word => View::Text(word),
        Shown::Empty => View::Text(&[]),
    }
}

/// What a function gives of each word, where that is one element, made of each in the same way.
pub fn given_of_each(work: FnKind, args: &Args, each: &EachWord) -> Option<EachWord>
    ensures { IfSome result (λ given. (word : ListOf ℕ) → IsWord word
        → emits work args.now (element_of_word each.now word)
        ≡ Some (element_of_word given word ∷ [])) }
{
    match (work, each.key, each.part) {
        (FnKind::KeyField, None, part) => Some(EachWord {
            key: Some(part),
            part: Shown::Empty,
            ..*each
        }),
        (FnKind::Swap, Some(key), part) => Some(EachWord {
            key: Some(part),
            part: key,
            ..*each
        }),
        (FnKind::Shift, _, _) => Some(EachWord {
            time: shifted(args, each.time)?,
            ..*each
        }),
        (FnKind::Values, Some(_), _) => Some(EachWord { key: None, ..*each }),
        _ => None,
    }
}
