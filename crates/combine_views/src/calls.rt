ghost use Rattle.std.specs.Prelude.{◌≡◌, ◌∷◌, [], slice_get, IfSome, Some};
ghost use Rattle.beam_values.specs.Windows.{or_zero};
ghost use Rattle.beam_values.specs.declared.plan.FnKind.TheVariants.{KeepPrefix, Words};
ghost use Rattle.beam_values.specs.declared.plan.Args.{Args as ArgsOf};
ghost use Rattle.beam_model.specs.Functions.{emits, number_arg};
ghost use Rattle.beam_model.specs.Texts.{fields};
ghost use Rattle.combine_views.specs.Seen.{element_seen};
ghost use Rattle.combine_views.specs.Told.{elements_told};

use crate::Seen;
use crate::each_word::{EachWord, Shown};
use crate::texts::{begins_with, field, shifted};
use crate::told::Told;
use beam_lines::key_field;
use beam_values::{Args, FnKind};
use combine_lift::View;
use dofn_library::int_of;

/// What a function gives of an element, where views can tell that.
pub fn given<'a>(work: FnKind, args: &Args, seen: &Seen<'a>) -> Option<Told<'a>>
    ensures { IfSome result (λ told.
        emits work args.now (element_seen seen.now) ≡ Some (elements_told told)) }
{
    match work {
        FnKind::KeepPrefix => kept(args, seen),
        FnKind::Words => words_given(seen),
        _ => match one_given(work, args, seen) {
            Some(given) => Some(Told::One(given)),
            None => None,
        },
    }
}

/// What KeepPrefix gives.
fn kept<'a>(args: &Args, seen: &Seen<'a>) -> Option<Told<'a>>
    ensures { IfSome result (λ told.
        emits KeepPrefix args.now (element_seen seen.now) ≡ Some (elements_told told)) }
{
    match (args, seen.key, seen.part) {
        (Args::Text(prefix), None, View::Text(text)) => {
            if begins_with(text, prefix.as_slice()) {
                Some(Told::One(seen.again()))
            } else {
                Some(Told::Nothing)
            }
        }
        _ => None,
    }
}

/// What Words gives: each word as a text.
fn words_given<'a>(seen: &Seen<'a>) -> Option<Told<'a>>
    ensures { IfSome result (λ told. (args : ArgsOf)
        → emits Words args (element_seen seen.now) ≡ Some (elements_told told)) }
{
    match (seen.key, seen.part) {
        (None, View::Text(text)) => {
            let each = EachWord {
                key: None,
                part: Shown::Word,
                time: seen.time,
                span: seen.span,
            };
            Some(Told::Words(text, each))
        }
        _ => None,
    }
}

/// What a function gives of an element, where that is one element of which a view can be told.
fn one_given<'a>(work: FnKind, args: &Args, seen: &Seen<'a>) -> Option<Seen<'a>>
    ensures { IfSome result (λ given.
        emits work args.now (element_seen seen.now) ≡ Some (element_seen given ∷ [])) }
{
    match (work, seen.key, seen.part) {
        (FnKind::KeyField, None, View::Text(text)) => {
            let (key, part) = key_field(text);
            Some(Seen {
                key: Some(View::Text(key)),
                part: View::Text(part),
                ..*seen
            })
        }
        (FnKind::Field, None, View::Text(text)) => Some(Seen {
            part: View::Text(numbered_field(args, text)?),
            ..*seen
        }),
        (FnKind::FieldInt, Some(_), View::Text(text)) => {
            let number = int_of(text)?;
            Some(Seen {
                part: View::Int(number),
                ..*seen
            })
        }
        (FnKind::Swap, Some(key), part) => Some(Seen {
            key: Some(part),
            part: key,
            ..*seen
        }),
        (FnKind::Shift, _, _) => Some(Seen {
            time: shifted(args, seen.time)?,
            ..*seen
        }),
        (FnKind::Values, Some(_), _) => Some(Seen { key: None, ..*seen }),
        _ => None,
    }
}

/// The field of the number among the arguments.
fn numbered_field<'a>(args: &Args, text: &'a [u8]) -> Option<&'a [u8]>
    ensures { IfSome result (λ field.
        slice_get (fields text.now) (or_zero (number_arg args.now)) ≡ Some field.now) }
{
    match args {
        Args::Number(number) => field(text, usize::try_from(*number).unwrap_or(0)),
        _ => None,
    }
}
