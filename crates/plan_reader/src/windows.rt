ghost use Rattle.std.specs.Prelude.{◌≡◌};
ghost use Rattle.beam_values.specs.Strategies.{is_allowed};
ghost use Rattle.serde_json.specs.View.{view};
ghost use Rattle.plan_reader.specs.Settings.{allowed, fixed_in, global_of, sessions_in, sliding_in};
ghost use Rattle.plan_reader.specs.Settings.{strategy_in, windows_of};

use crate::forms::{any_number_in, number_in, only_member, pair_in, within};
use crate::refusal::{Place, PlanRefusal};
use beam_values::Strategy;
use serde_json::Value;
use windowing::{GREATEST_LENGTH, check_strategy};

/// The greatest length of a window, a period, a gap, a lag, a lateness, a shift and a delay.
pub(crate) const LONGEST: u64 = GREATEST_LENGTH as u64;

pub(crate) fn strategy_in(place: Place, value: &Value) -> Result<Strategy, PlanRefusal>
    ensures { result ≡ strategy_in place (view value.now) }
{
    match value.as_str() {
        Some(word) => global_of(place, word),
        None => match only_member(value) {
            Some((key, value)) => windows_of(place, key, value),
            None => Err(PlanRefusal::Field(place)),
        },
    }
}

fn global_of(place: Place, word: &str) -> Result<Strategy, PlanRefusal>
    ensures { result ≡ global_of place word.now }
{
    match word {
        "global" => Ok(Strategy::Global),
        _ => Err(PlanRefusal::Name(place)),
    }
}

fn windows_of(place: Place, key: &str, value: &Value) -> Result<Strategy, PlanRefusal>
    ensures { result ≡ windows_of place (key.now, view value.now) }
{
    match key {
        "fixed" => fixed_in(place, value),
        "sliding" => sliding_in(place, value),
        "sessions" => sessions_in(place, value),
        _ => Err(PlanRefusal::Field(place)),
    }
}

fn fixed_in(place: Place, value: &Value) -> Result<Strategy, PlanRefusal>
    ensures { result ≡ fixed_in place (view value.now) }
{
    let size = number_in(1, LONGEST, place, value)?;
    allowed(place, Strategy::Fixed { size: size as i64 })
}

// Both are numbers before either is judged.
fn sliding_in(place: Place, value: &Value) -> Result<Strategy, PlanRefusal>
    ensures { result ≡ sliding_in place (view value.now) }
{
    let (size, period) = pair_in(place, value)?;
    let size = any_number_in(place, size)?;
    let period = any_number_in(place, period)?;
    let size = within(1, LONGEST, place, size)? as i64;
    let period = within(1, LONGEST, place, period)? as i64;
    allowed(place, Strategy::Sliding { size, period })
}

fn sessions_in(place: Place, value: &Value) -> Result<Strategy, PlanRefusal>
    ensures { result ≡ sessions_in place (view value.now) }
{
    let gap = number_in(1, LONGEST, place, value)?;
    allowed(place, Strategy::Sessions { gap: gap as i64 })
}

fn allowed(place: Place, strategy: Strategy) -> Result<Strategy, PlanRefusal>
    ensures { result ≡ allowed place strategy }
{
    if is_allowed(&strategy) {
        Ok(strategy)
    } else {
        Err(PlanRefusal::Number(place))
    }
}

fn is_allowed(strategy: &Strategy) -> bool
    ensures { result ≡ is_allowed strategy.now }
{
    check_strategy(strategy).is_ok()
}
