//! Values as a program can hold them: a look at each number shows that it has 64 bits, which the types of
//! numbers promise and no contract of a list of values says.

ghost use Rattle.std.specs.List.{All, AllByRecursion};
ghost use Rattle.beam_values.specs.Storable.{IsStorable};

use beam_values::{Pane, Value};

/// Each number in the values of these panes has 64 bits.
pub fn look_at_panes(panes: &[Pane])
    ensures { All (λ pane. IsStorable pane.element.value) panes.now }
{
    for pane in panes {
        look_at(&pane.element.value);
    }
}

#[cycle(looks)]
fn look_at(value: &Value)
    ensures { IsStorable value.now }
{
    match value {
        Value::Null => {}
        Value::Int(number) => {
            let _number = *number;
        }
        Value::Blob(_bytes) => {}
        Value::Pair(key, value) => {
            look_at_item(key.get());
            look_at(value.get());
        }
        Value::Seq(items) => look_at_all(items.as_slice()),
    }
}

#[cycle(looks)]
fn look_at_all(items: &[Value])
    ensures { AllByRecursion IsStorable items.now }
{
    for item in items {
        look_at_item(item);
    }
}

// Most items are byte strings, which have no number: they need no call.
#[cycle(looks)]
#[inline(always)]
fn look_at_item(item: &Value)
    ensures { IsStorable item.now }
{
    match item {
        Value::Blob(_bytes) => {}
        _ => look_at(item),
    }
}
