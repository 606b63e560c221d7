ghost use Rattle.std.specs.Prelude.{◌≡◌, ◌+◌, ◌<◌, ◌^◌, Some};
ghost use Rattle.beam_values.specs.declared.plan.FnKind.TheVariants.{MaxSeq};
ghost use Rattle.combine_lift.specs.Parts.{is_number};
ghost use Rattle.combine_lift.specs.Standing.{IsMaxOf, greater_of, max_in_any_order, value_of};

use crate::numbers::int_of;
use crate::{Combiner, View};
use beam_values::Value;

/// Takes the greatest of whole numbers: what MaxSeq gives.
#[derive(Clone, Copy, Debug, PartialEq, Eq)]
pub struct MaxOf;

impl MaxOf {
    pub fn new() -> MaxOf {
        MaxOf
    }
}

/// The greatest of some numbers, and how many there were.
#[derive(Clone, Copy, Debug)]
pub struct MaxAcc {
    greatest: Option<i64>,
    count: u64,
    ghost few: { count < 2 ^ 63 },
}

impl Combiner for MaxOf {
    type Acc = MaxAcc;

    ghost work = { MaxSeq };

    ghost takes = { is_number };

    ghost stands = { λ acc parts. IsMaxOf acc.greatest acc.count parts };

    ghost held = { λ acc. acc.count };

    ghost order = { λ acc parts others. max_in_any_order acc.greatest acc.count parts others };

    ghost counts = { λ acc parts stands. stands.count };

    fn unit(&self) -> MaxAcc {
        MaxAcc {
            greatest: None,
            count: 0,
        }
    }

    fn count(&self, acc: &MaxAcc) -> u64 {
        acc.count
    }

    fn add(&self, acc: &mut MaxAcc, part: View<'_>) -> bool {
        let Some(number) = int_of(part) else {
            return false;
        };
        *acc = MaxAcc {
            greatest: greater(acc.greatest, Some(number)),
            count: acc.count + 1,
        };
        true
    }

    fn merge(&self, acc: &mut MaxAcc, other: MaxAcc) {
        *acc = MaxAcc {
            greatest: greater(acc.greatest, other.greatest),
            count: acc.count + other.count,
        };
    }

    fn extract(&self, acc: &MaxAcc) -> Option<Value> {
        Some(value_of(acc.greatest))
    }
}

fn value_of(number: Option<i64>) -> Value
    ensures { result ≡ value_of number }
{
    match number {
        Some(number) => Value::Int(number),
        None => Value::Null,
    }
}

/// The greater of two numbers, of which either may be missing.
fn greater(a: Option<i64>, b: Option<i64>) -> Option<i64>
    ensures { result ≡ greater_of a b }
{
    match (a, b) {
        (Some(a), Some(b)) => Some(a.max(b)),
        (a, None) => a,
        (None, b) => b,
    }
}
