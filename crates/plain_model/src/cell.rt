ghost use Rattle.std.specs.Prelude.{◌≡◌};
ghost use Rattle.beam_values.specs.Grouping.{key_of};
ghost use Rattle.beam_model.specs.Sessions.{is_keyed};

use beam_values::{Element, cmp_keys};
use std::cmp::Ordering;

/// The second element has the key of the first.
pub fn is_keyed_alike(element: &Element, other: &Element) -> bool
    ensures { result ≡ is_keyed (key_of element.now) other.now }
{
    cmp_keys(other, element) == Ordering::Equal
}
