ghost use Rattle.std.specs.Prelude.{◌≡◌, IfOk};
ghost use Rattle.beam_values.specs.Grouping.{key_of, part_of, last_time};
ghost use Rattle.beam_values.specs.declared.value.Value.TheVariants.{Null};

use crate::{Element, Span, Time, Value};
use beam_containers::NoMemory;
use std::alloc::Global;

/// The key of an element: the first of a pair. An element whose value isn't a pair has the key
/// `Null`, which the caller lends.
pub fn key_or<'a>(element: &'a Element, null: &'a Value) -> &'a Value
    requires { null.now ≡ Null }
    ensures { result.now ≡ key_of element.now }
{
    match &element.value {
        Value::Pair(key, _) => key.get(),
        _ => null,
    }
}

/// A copy of the key of an element.
pub fn copy_key(alloc: Global, element: &Element) -> Result<Value, NoMemory>
    ensures { IfOk result (λ key. key ≡ key_of element.now) }
{
    let null = Value::Null;
    key_or(element, &null).copy(alloc)
}

/// What an element brings to its key: the second of a pair, or the whole value where it isn't one.
pub fn part_of(element: &Element) -> &Value
    ensures { result.now ≡ part_of element.now }
{
    match &element.value {
        Value::Pair(_, part) => part.get(),
        value => value,
    }
}

/// The last millisecond of a window that is a time: that of its panes (Beam Programming Guide,
/// Windowing: the end of the window).
pub fn last_time(span: Span) -> Time
    ensures { result ≡ last_time span }
{
    let last = span.end() - 1;
    match Time::new(last.clamp(Time::LEAST_MS, Time::GREATEST_MS)) {
        Some(time) => time,
        None => unreachable!(),
    }
}
