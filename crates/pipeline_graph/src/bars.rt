//! The bars of a composite trigger: each within its limits, and all together a staircase.

ghost use Rattle.std.specs.Prelude.{◌≡◌, None};
ghost use Rattle.std.specs.List.{list_all};
ghost use Rattle.beam_values.specs.Checked.{are_bars_allowed, are_early_bars, are_late_bars};
ghost use Rattle.beam_values.specs.Checked.{are_stairs_after, is_bar_within, is_delay_within};
ghost use Rattle.beam_values.specs.Checked.{is_less_delay, is_stair};

use beam_values::Bar;
use windowing::GREATEST_LENGTH;

/// Early bars are before the window's end.
pub(crate) fn are_early_bars(bars: &[Bar]) -> bool
    ensures { result ≡ are_early_bars bars.now }
{
    are_bars_allowed(-GREATEST_LENGTH, -1, bars)
}

/// Late bars are at the window's end or after it.
pub(crate) fn are_late_bars(bars: &[Bar]) -> bool
    ensures { result ≡ are_late_bars bars.now }
{
    are_bars_allowed(0, GREATEST_LENGTH, bars)
}

fn are_bars_allowed(least: i64, most: i64, bars: &[Bar]) -> bool
    ensures { result ≡ are_bars_allowed least most bars.now }
{
    are_bars_within(least, most, bars) && are_stairs(bars)
}

fn are_bars_within(least: i64, most: i64, bars: &[Bar]) -> bool
    ensures { result ≡ list_all (is_bar_within least most) bars.now }
{
    bars.iter().all(|bar| is_bar_within(least, most, bar))
}

fn is_bar_within(least: i64, most: i64, bar: &Bar) -> bool
    ensures { result ≡ is_bar_within least most bar.now }
{
    1 <= bar.count && is_delay_within(least, most, bar.delay)
}

fn is_delay_within(least: i64, most: i64, delay: Option<i64>) -> bool
    ensures { result ≡ is_delay_within least most delay }
{
    match delay {
        None => true,
        Some(delay) => least <= delay && delay <= most,
    }
}

// Each bar asks for more elements than the one before it, and for less delay.
fn are_stairs(bars: &[Bar]) -> bool
    ensures { result ≡ are_stairs_after None bars.now }
{
    let mut before = None;
    for bar in bars {
        if !is_stair(before, bar) {
            return false;
        }
        before = Some(*bar);
    }
    true
}

fn is_stair(before: Option<Bar>, bar: &Bar) -> bool
    ensures { result ≡ is_stair before bar.now }
{
    match before {
        None => true,
        Some(before) => before.count < bar.count && is_less_delay(before.delay, bar.delay),
    }
}

// No delay is the least.
fn is_less_delay(before: Option<i64>, after: Option<i64>) -> bool
    ensures { result ≡ is_less_delay before after }
{
    after < before
}
