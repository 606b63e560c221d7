ghost use Rattle.std.specs.Prelude.{◌≡◌};
ghost use Rattle.beam_model.specs.Functions.{in_word};
ghost use Rattle.beam_model.specs.Values.{as_int};
ghost use Rattle.combine_lift.specs.Views.{view_value};

use crate::View;
use beam_values::Value;

/// The number of a part that is one.
pub fn int_of(part: View<'_>) -> Option<i64>
    ensures { result ≡ as_int (view_value part.entry) }
{
    match part {
        View::Int(number) => Some(number),
        View::Whole(Value::Int(number)) => Some(*number),
        _ => None,
    }
}

/// A number, where 64 bits hold it.
pub fn in_word(number: i128) -> Option<i64>
    ensures { result ≡ in_word number }
{
    i64::try_from(number).ok()
}
