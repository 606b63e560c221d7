//! Parts of words, added to a table.

ghost use Rattle.std.specs.Prelude.{◌≡◌, ◌+◌, ◌<◌, ◌^◌, ◌∷◌, [], map, IfOk, OnErr};
ghost use Rattle.std.specs.Bool.{OnFalse, OnTrue};
ghost use Rattle.beam_values.specs.Grouping.{part_of};
ghost use Rattle.beam_model.specs.Texts.{words};
ghost use Rattle.combine_views.specs.Lines.{HasTaken, HasTakenSome};
ghost use Rattle.combine_views.specs.Words.{element_of_word};

use crate::each_word::{EachWord, Shown};
use crate::line::MOST_PARTS;
use beam_values::NoMemory;
use combine_lift::{Combiner, Partials};
use dofn_library::first_word;
use std::alloc::Global;

/// Adds the parts of all words of a text, where none of them has a part of its own: so all are taken or none is.
pub fn add_words<C: Combiner>(
    alloc: Global,
    text: &[u8],
    each: &EachWord,
    partials: &mut Partials<C>,
) -> Result<bool, NoMemory>
    ensures added { IfOk result (λ known. OnTrue known (HasTaken C.stands
        (map (element_of_word each.now) (words text.now)) partials.old partials.new)) }
    ensures kept { IfOk result (λ known. OnFalse known (partials.new ≡ partials.old)) }
    ensures err { OnErr result (HasTakenSome C.stands
        (map (element_of_word each.now) (words text.now)) partials.old partials.new) }
{
    let Shown::Empty = each.part else {
        return Ok(false);
    };
    // There are fewer words than bytes, or as many.
    if partials.parts() >= MOST_PARTS.saturating_sub(text.len() as u64) {
        return Ok(false);
    }
    let mut rest = text;
    while let Some((word, after)) = first_word(rest) {
        if !add_word(alloc, word, each, partials)? {
            return Ok(false);
        }
        rest = after;
    }
    Ok(true)
}

/// Adds the part of a word.
fn add_word<C: Combiner>(
    alloc: Global,
    word: &[u8],
    each: &EachWord,
    partials: &mut Partials<C>,
) -> Result<bool, NoMemory>
    requires { partials.old.parts + 1 < 2 ^ 63 }
    ensures taken { IfOk result (λ taken.
        taken ≡ C.takes (part_of (element_of_word each.now word.now))) }
    ensures added { IfOk result (λ taken. OnTrue taken (HasTaken C.stands
        (element_of_word each.now word.now ∷ []) partials.old partials.new)) }
    ensures kept { IfOk result (λ taken. OnFalse taken (partials.new ≡ partials.old)) }
    ensures err { OnErr result (partials.new ≡ partials.old) }
{
    let (key, part) = each.keyed(word);
    partials.add(alloc, key, each.span, part)
}
