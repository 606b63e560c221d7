ghost use Rattle.std.specs.Prelude.{◌≡◌, ◌≤◌, pos, OnOk};
ghost use Rattle.beam_model.specs.Positions.{emits_one};
ghost use Rattle.dofn_traits.specs.Calls.{AddsEmission};

use beam_values::{NoMemory, Time, Value};
use dofn_traits::{Emission, Timed};

pub(crate) fn push_timed(value: Value, time: Time, out: &mut Emission) -> Result<(), NoMemory>
    ensures { OnOk result (AddsEmission (emits_one value time) out.old out.new) }
{
    out.items.push(Timed { value, time })
}

/// A number of milliseconds within the bounds of a time.
pub(crate) fn time_at(ms: u64) -> Time
    requires { ms ≤ 9223372036854775 }
    ensures { result ≡ pos ms }
{
    match Time::new(ms as i64) {
        Some(time) => time,
        None => unreachable!(),
    }
}
