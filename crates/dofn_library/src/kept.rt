ghost use Rattle.std.specs.Prelude.{◌≡◌, ◌<◌, ◌++◌, bytes_eq, IfOk, OnOk};
ghost use Rattle.beam_values.specs.Grouping.{part_of};
ghost use Rattle.beam_values.specs.Spelling.{spelling};
ghost use Rattle.beam_values.specs.States.{cell_of, values_in};
ghost use Rattle.beam_model.specs.Functions.{one};
ghost use Rattle.beam_model.specs.Steps.{timer_output};
ghost use Rattle.beam_model.specs.Values.{pair};

use crate::shapes::push_valued;
use beam_values::{Boxed, Element, List, NoMemory, PaneTag, Span, Time, Timing, Value, cmp_values};
use keyed_state::KeyState;
use std::alloc::Global;
use std::cmp::Ordering;

/// Copies of the values of a bag; of a cell of another form, none.
pub fn values_of(alloc: Global, state: &KeyState, name: u8) -> Result<List<Value>, NoMemory>
    requires { name < 8 }
    ensures { IfOk result (λ values. values ≡ values_in (cell_of state.now name)) }
{
    match state.bag(name)? {
        Some(values) => Ok(values),
        None => Ok(List::new(alloc)),
    }
}

/// Whether values are spelled alike.
#[tactic(auto, using(crate::proofs::SameValues::same_spellings))]
pub fn is_same(a: &Value, b: &Value) -> bool
    ensures { result ≡ bytes_eq (spelling a.now) (spelling b.now) }
{
    cmp_values(a, b).is_eq()
}

/// Adds the element with a pair of this key and this part.
pub fn push_keyed(
    alloc: Global,
    key: &Value,
    e: &Element,
    part: Boxed<Value>,
    out: &mut List<Element>,
) -> Result<(), NoMemory>
    ensures { OnOk result (out.new ≡ out.old ++ one e.now (pair key.now part)) }
{
    push_valued(e, Value::Pair(shared_key(alloc, key, e)?, part), out)
}

/// The key, which is mostly that of the element and then shared.
fn shared_key(alloc: Global, key: &Value, e: &Element) -> Result<Boxed<Value>, NoMemory>
    ensures { IfOk result (λ shared. shared ≡ key.now) }
{
    if let Value::Pair(own, _) = &e.value
        && cmp_values(own.get(), key) == Ordering::Equal
    {
        return own.share();
    }
    Boxed::new(alloc, key.copy(alloc)?)
}

/// What an element brings to its key; the part of a pair is shared.
pub fn shared_part(alloc: Global, e: &Element) -> Result<Boxed<Value>, NoMemory>
    ensures { IfOk result (λ shared. shared ≡ part_of e.now) }
{
    match &e.value {
        Value::Pair(_, part) => part.share(),
        value => Boxed::new(alloc, value.copy(alloc)?),
    }
}

/// What a timer of a key gives: it is at the time of the timer, and of no pane.
pub fn timer_output(span: Span, time: Time, value: Value) -> Element
    ensures { result ≡ timer_output span time value }
{
    Element {
        value,
        time,
        span,
        pane: PaneTag {
            timing: Timing::Unknown,
            index: 0,
        },
    }
}
