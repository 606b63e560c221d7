ghost use Rattle.std.specs.Prelude.{◌≡◌, ◌+◌, ◌*◌, ◌<◌, ◌^◌, pos, neg_ℤ, ◌+ℤ◌, ◌≤ℤ◌};
ghost use Rattle.beam_values.specs.declared.plan.FnKind.TheVariants.{SumSeq};
ghost use Rattle.combine_lift.specs.Parts.{is_number};
ghost use Rattle.combine_lift.specs.Standing.{IsSumOf, sum_in_any_order};

use crate::numbers::{in_word, int_of};
use crate::{Combiner, View};
use beam_values::Value;

/// Adds whole numbers in 128 bits: what SumSeq gives.
#[derive(Clone, Copy, Debug, PartialEq, Eq)]
pub struct SumOf;

impl SumOf {
    pub fn new() -> SumOf {
        SumOf
    }
}

/// The sum of some numbers of 64 bits, and how many there were. A sum may leave 64 bits and come back.
#[derive(Clone, Copy, Debug)]
pub struct SumAcc {
    sum: i128,
    count: u64,
    ghost few: { count < 2 ^ 63 },
    ghost low: { neg_ℤ (pos (count * 2 ^ 63)) ≤ℤ sum },
    ghost high: { sum ≤ℤ pos (count * 2 ^ 63) },
}

impl SumAcc {
    fn with(self, number: i64) -> SumAcc
        requires { self.count + 1 < 2 ^ 63 }
        ensures sum { result.sum ≡ self.sum +ℤ number }
        ensures count { result.count ≡ self.count + 1 }
    {
        SumAcc {
            sum: self.sum + i128::from(number),
            count: self.count + 1,
        }
    }

    fn with_all(self, other: SumAcc) -> SumAcc
        requires { self.count + other.count < 2 ^ 63 }
        ensures sum { result.sum ≡ self.sum +ℤ other.sum }
        ensures count { result.count ≡ self.count + other.count }
    {
        SumAcc {
            sum: self.sum + other.sum,
            count: self.count + other.count,
        }
    }
}

impl Combiner for SumOf {
    type Acc = SumAcc;

    ghost work = { SumSeq };

    ghost takes = { is_number };

    ghost stands = { λ acc parts. IsSumOf acc.sum acc.count parts };

    ghost held = { λ acc. acc.count };

    ghost order = { λ acc parts others. sum_in_any_order acc.sum acc.count parts others };

    ghost counts = { λ acc parts stands. stands.count };

    fn unit(&self) -> SumAcc {
        SumAcc { sum: 0, count: 0 }
    }

    fn count(&self, acc: &SumAcc) -> u64 {
        acc.count
    }

    fn add(&self, acc: &mut SumAcc, part: View<'_>) -> bool {
        let Some(number) = int_of(part) else {
            return false;
        };
        *acc = acc.with(number);
        true
    }

    fn merge(&self, acc: &mut SumAcc, other: SumAcc) {
        *acc = acc.with_all(other);
    }

    fn extract(&self, acc: &SumAcc) -> Option<Value> {
        match in_word(acc.sum) {
            Some(sum) => Some(Value::Int(sum)),
            None => None,
        }
    }
}
