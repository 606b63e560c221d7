ghost use Rattle.beam_values.specs.declared.plan.SourceKind.TheVariants as kinds;

use crate::PositionWork;
use crate::arguments::second_argument;
use crate::emissions::{push_timed, time_at};
use beam_values::{Args, SourceKind, Value};
use dofn_traits::{CallRefusal, Emission, Found};
use std::alloc::Global;

/// The numbers from 0, each some milliseconds after the one before.
#[derive(Drop)]
pub struct Count;

impl PositionWork for Count {
    ghost work = { kinds.Count };

    fn kind() -> SourceKind {
        SourceKind::Count
    }

    fn tell(
        _alloc: Global,
        args: &Args,
        _bytes: &[u8],
        _base: u64,
        _len: u64,
        p: u64,
        out: &mut Emission,
    ) -> Result<Found, CallRefusal> {
        let time = time_at(p * second_argument(args));
        push_timed(Value::Int(p as i64), time, out)?;
        Ok(Found::Here(p + 1))
    }
}
