ghost use Rattle.std.specs.Prelude.{◌≡◌, ◌↔◌, Some, None, if◌then◌else◌, nat_lt, IsOk};
ghost use Rattle.std.specs.Result.{result_err};
ghost use Rattle.beam_values.specs.Strategies.{IsLength, IsAllowed, is_length, most_windows};
ghost use Rattle.windowing.specs.Strategies.{refusal_of, refusal_number};

use beam_values::Strategy;
use std::error::Error;
use std::fmt;

/// The greatest size, period or gap: 1000 years of 365 days, in milliseconds.
pub const GREATEST_LENGTH: i64 = 31_536_000_000_000;

/// The greatest number of sliding windows that hold one time.
pub const MOST_WINDOWS: i64 = 1024;

/// Why a strategy is refused.
#[derive(Clone, Copy, Debug, PartialEq, Eq)]
pub enum StrategyRefusal {
    /// A size or a gap isn't a number of milliseconds from 1 to [`GREATEST_LENGTH`].
    Size,
    /// A period isn't such a number.
    Period,
    /// A time would be in more than [`MOST_WINDOWS`] windows.
    TooManyWindows,
}

impl StrategyRefusal {
    /// The number by which a plan's error names it.
    pub fn number(&self) -> u8
        ensures { result ≡ refusal_number self.now }
    {
        match self {
            StrategyRefusal::Size => 1,
            StrategyRefusal::Period => 2,
            StrategyRefusal::TooManyWindows => 3,
        }
    }
}

impl fmt::Display for StrategyRefusal {
    ghost use Rattle.windowing.specs.Messages.{strategy_message};

    ghost output = { λ refusal. Some (strategy_message refusal) };

    fn fmt<W: fmt::Write>(&self, f: &mut fmt::Formatter<W>) -> fmt::Result {
        match self {
            StrategyRefusal::Size => write!(f, "a size or a gap is out of its bounds"),
            StrategyRefusal::Period => write!(f, "a period is out of its bounds"),
            StrategyRefusal::TooManyWindows => write!(f, "a time would be in too many windows"),
        }
    }
}

impl Error for StrategyRefusal {}

/// Whether a plan may have the strategy (Beam Programming Guide, Windowing). The answer is the first
/// refusal that fits.
pub fn check_strategy(s: &Strategy) -> Result<(), StrategyRefusal>
    ensures first { result_err result ≡ refusal_of s.now }
    ensures allowed { IsOk result ↔ IsAllowed s.now }
{
    match first_refusal(s) {
        None => Ok(()),
        Some(refusal) => Err(refusal),
    }
}

fn first_refusal(s: &Strategy) -> Option<StrategyRefusal>
    ensures { result ≡ refusal_of s.now }
{
    match *s {
        Strategy::Global | Strategy::Kept => None,
        Strategy::Fixed { size } => length_refusal(size, StrategyRefusal::Size),
        Strategy::Sessions { gap } => length_refusal(gap, StrategyRefusal::Size),
        Strategy::Sliding { size, period } => {
            if !is_length(size) {
                Some(StrategyRefusal::Size)
            } else if !is_length(period) {
                Some(StrategyRefusal::Period)
            } else if gives_too_many(size, period) {
                Some(StrategyRefusal::TooManyWindows)
            } else {
                None
            }
        }
    }
}

fn length_refusal(ms: i64, refusal: StrategyRefusal) -> Option<StrategyRefusal>
    ensures { result ≡ (if is_length ms then None else Some refusal) }
{
    if is_length(ms) { None } else { Some(refusal) }
}

fn is_length(ms: i64) -> bool
    ensures { result ≡ is_length ms }
{
    1 <= ms && ms <= GREATEST_LENGTH
}

// The quotient, rounded up, is above the bound exactly where the size is above that many periods.
fn gives_too_many(size: i64, period: i64) -> bool
    requires size_in { IsLength size }
    requires period_in { IsLength period }
    ensures { result ≡ nat_lt 1024 (most_windows size period) }
{
    size > MOST_WINDOWS * period
}
