//! When the bars of a composite trigger are met.

ghost use Rattle.std.specs.Prelude.{◌≡◌};
ghost use Rattle.beam_values.specs.Firing.{is_bar_met, met};

use crate::Bar;
use beam_containers::List;

/// Whether some bar is met where `count` elements are unseen and the watermark is `past` milliseconds past the
/// window's end.
pub fn met(bars: &List<Bar>, count: u64, past: i64) -> bool
    ensures { result ≡ met bars.now count past }
{
    met_after(bars, count, i128::from(past))
}

/// As [`met`], for a watermark however far from the window's end.
pub fn met_after(bars: &List<Bar>, count: u64, past: i128) -> bool
    ensures { result ≡ met bars.now count past }
{
    bars.as_slice().iter().any(|bar| is_met(bar, count, past))
}

fn is_met(bar: &Bar, count: u64, past: i128) -> bool
    ensures { result ≡ is_bar_met count past bar.now }
{
    u64::from(bar.count) <= count && bar.delay.is_none_or(|delay| i128::from(delay) <= past)
}
