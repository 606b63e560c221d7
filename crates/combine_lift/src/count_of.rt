ghost use Rattle.std.specs.Prelude.{◌≡◌, ◌+◌, ◌<◌, ◌^◌, true, length};
ghost use Rattle.beam_values.specs.declared.plan.FnKind.TheVariants.{CountSeq};
ghost use Rattle.combine_lift.specs.Standing.{count_in_any_order};

use crate::{Combiner, View};
use beam_values::Value;

/// Counts parts, of any kind: what CountSeq gives.
#[derive(Clone, Copy, Debug, PartialEq, Eq)]
pub struct CountOf;

impl CountOf {
    pub fn new() -> CountOf {
        CountOf
    }
}

/// How many parts there were.
#[derive(Clone, Copy, Debug)]
pub struct CountAcc {
    count: u64,
    ghost few: { count < 2 ^ 63 },
}

impl Combiner for CountOf {
    type Acc = CountAcc;

    ghost work = { CountSeq };

    ghost takes = { λ _. true };

    ghost stands = { λ acc parts. acc.count ≡ length parts };

    ghost held = { λ acc. acc.count };

    ghost order = { λ acc parts others. count_in_any_order acc.count parts others };

    ghost counts = { λ acc parts stands. stands };

    fn unit(&self) -> CountAcc {
        CountAcc { count: 0 }
    }

    fn count(&self, acc: &CountAcc) -> u64 {
        acc.count
    }

    fn add(&self, acc: &mut CountAcc, _part: View<'_>) -> bool {
        acc.count += 1;
        true
    }

    fn merge(&self, acc: &mut CountAcc, other: CountAcc) {
        acc.count += other.count;
    }

    fn extract(&self, acc: &CountAcc) -> Option<Value> {
        Some(Value::Int(acc.count as i64))
    }
}
