ghost use Rattle.std.specs.Prelude.{◌≡◌, ◌≤ℤ◌, pos};
ghost use Rattle.beam_values.specs.Times.{least_time};
ghost use Rattle.beam_values.specs.Windows.{or_zero};
ghost use Rattle.beam_model.specs.Functions.{text_arg, number_arg, later_by};

use beam_values::{Args, Time};

/// The text among the arguments.
pub fn text_of(args: &Args) -> &[u8]
    ensures { result.now ≡ text_arg args.now }
{
    match args {
        Args::Text(text) => text.as_slice(),
        _ => &[],
    }
}

/// The number among the arguments.
pub fn number_of(args: &Args) -> i64
    ensures { result ≡ number_arg args.now }
{
    match args {
        Args::Number(n) => *n,
        _ => 0,
    }
}

/// The number among the arguments, as a count.
pub fn count_of(args: &Args) -> usize
    ensures { result ≡ or_zero (number_arg args.now) }
{
    usize::try_from(number_of(args)).unwrap_or(0)
}

/// The time so many milliseconds after one, or the greatest time.
pub fn later(ms: i64, delay: i64) -> Time
    requires past_least { least_time ≤ℤ ms }
    requires forward { pos 0 ≤ℤ delay }
    ensures { result ≡ later_by delay ms }
{
    let ms = ms.saturating_add(delay).min(Time::GREATEST_MS);
    match Time::new(ms) {
        Some(time) => time,
        None => unreachable!(),
    }
}
