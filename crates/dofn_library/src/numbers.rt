ghost use Rattle.std.specs.Prelude.{◌≡◌};
ghost use Rattle.std.specs.Option.{option_map};
ghost use Rattle.beam_model.specs.Values.{numbers_in};
ghost use Rattle.beam_model.specs.Functions.{in_word, sum_of, greatest_of};

use crate::shapes::int_of;
use beam_values::Value;

/// The sum of items that are all whole numbers.
pub fn sum_of(items: &[Value]) -> Option<i128>
    ensures { result ≡ option_map sum_of (numbers_in items.now) }
{
    let mut sum = 0i128;
    for item in items {
        let number = int_of(item)?;
        sum += i128::from(number);
    }
    Some(sum)
}

/// The greatest of items that are all whole numbers; of none it is `Null`.
pub fn greatest_of(items: &[Value]) -> Option<Value>
    ensures { result ≡ option_map greatest_of (numbers_in items.now) }
{
    let mut greatest: Option<i64> = None;
    for item in items {
        let number = int_of(item)?;
        greatest = Some(match greatest {
            Some(greatest) => greatest.max(number),
            None => number,
        });
    }
    match greatest {
        Some(greatest) => Some(Value::Int(greatest)),
        None => Some(Value::Null),
    }
}

/// A number, where 64 bits hold it.
pub fn in_word(n: i128) -> Option<i64>
    ensures { result ≡ in_word n }
{
    i64::try_from(n).ok()
}
