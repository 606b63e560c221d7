ghost use Rattle.std.specs.Prelude.{◌≡◌, ◌≢◌, ◌≤◌, ◌++◌, ℤ, length, take, OnOk, OnErr};
ghost use Rattle.beam_values.specs.Windows.{windows_of, sliding_windows};
ghost use Rattle.beam_values.specs.declared.plan.Strategy.TheVariants.{Kept};
ghost use Rattle.beam_values.specs.Strategies.{IsLength, IsAllowed};
ghost use Rattle.windowing.specs.Strategies.{windows_up_to};

use crate::fixed_window;
use beam_values::{List, NoMemory, Span, Strategy, Time};

/// Adds the windows of a time, ascending by their start (Beam Programming Guide, Windowing). Memory is
/// asked for once. [`Strategy::Kept`] gives an element no window: it keeps the one that it has.
pub fn assign(s: &Strategy, time: Time, out: &mut List<Span>) -> Result<(), NoMemory>
    requires allowed { IsAllowed s.now }
    requires gives_windows { s.now ≢ Kept }
    ensures ok { OnOk result (out.new ≡ out.old ++ windows_of s.now time) }
    ensures err { OnErr result (out.new ≡ out.old) }
    ensures few { length (windows_of s.now time) ≤ 1024 }
{
    match *s {
        Strategy::Global => out.push(Span::between(Time::LEAST_MS, Time::GREATEST_MS + 1)),
        Strategy::Fixed { size } => out.push(fixed_window(size, time)),
        Strategy::Sliding { size, period } => push_sliding(size, period, time, out),
        Strategy::Sessions { gap } => {
            let start = time.ms();
            out.push(Span::between(start, start + gap))
        }
        Strategy::Kept => unreachable!(),
    }
}

fn push_sliding(size: i64, period: i64, time: Time, out: &mut List<Span>) -> Result<(), NoMemory>
    requires size_in { IsLength size }
    requires period_in { IsLength period }
    ensures ok { OnOk result (out.new ≡ out.old ++ sliding_windows size period time) }
    ensures err { OnErr result (out.new ≡ out.old) }
{
    let ms = time.ms();
    let before = (ms - size).div_euclid(period);
    let count = ms.div_euclid(period) - before;
    out.reserve(count as usize)?;
    let kept = out.len();
    if let Err(refused) = push_up_to(size, period, time, period * (before + 1), out) {
        out.truncate(kept);
        return Err(refused);
    }
    Ok(())
}

// After a refusal some of the windows are in the list.
fn push_up_to(
    size: i64,
    period: i64,
    time: Time,
    first: i64,
    out: &mut List<Span>,
) -> Result<(), NoMemory>
    requires size_in { IsLength size }
    requires period_in { IsLength period }
    ensures ok { OnOk result (out.new ≡ out.old ++ windows_up_to size period time first) }
    ensures err { OnErr result (take (length out.old) out.new ≡ out.old) }
{
    let ms = time.ms();
    let mut start = first;
    while start <= ms {
        out.push(Span::between(start, start + size))?;
        start += period;
    }
    Ok(())
}
