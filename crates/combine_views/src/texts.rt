//! What functions read in texts, and when they give it.

ghost use Rattle.std.specs.Prelude.{◌≡◌, slice_get, IfSome};
ghost use Rattle.std.specs.Option.{option_copied};
ghost use Rattle.beam_model.specs.Functions.{later_by, number_arg};
ghost use Rattle.beam_model.specs.Texts.{begins_with, fields};

use beam_lines::key_field;
use beam_values::{Args, Time};

/// The field of this number, counted from 0. Fields have a TAB between them.
pub fn field(text: &[u8], number: usize) -> Option<&[u8]>
    ensures { option_copied result ≡ slice_get (fields text.now) number }
{
    let mut rest = text;
    for _passed in 0..number {
        let (front, after) = key_field(rest);
        if front.len() == rest.len() {
            return None;
        }
        rest = after;
    }
    Some(key_field(rest).0)
}

/// Whether the text begins with another.
pub fn begins_with(text: &[u8], prefix: &[u8]) -> bool
    ensures { result ≡ begins_with prefix.now text.now }
{
    text.starts_with(prefix)
}

/// The time so many milliseconds after one, or the greatest time.
fn later(time: Time, delay: i64) -> Option<Time>
    ensures { IfSome result (λ later. later ≡ later_by delay time) }
{
    if delay < 0 {
        return None;
    }
    Time::new(time.ms().saturating_add(delay).min(Time::GREATEST_MS))
}

/// A time, later by the number among the arguments.
pub fn shifted(args: &Args, time: Time) -> Option<Time>
    ensures { IfSome result (λ shifted. shifted ≡ later_by (number_arg args.now) time) }
{
    match args {
        Args::Number(delay) => later(time, *delay),
        _ => None,
    }
}
