ghost use Rattle.std.specs.Prelude.{◌≡◌, OnOk, ◌++◌};
ghost use Rattle.std.specs.Option.{option_copied, option_map};
ghost use Rattle.beam_model.specs.Values.{pair, as_blob, as_int, as_pair, as_seq};
ghost use Rattle.beam_model.specs.Functions.{one};

use beam_values::{Boxed, Element, List, NoMemory, Value};
use std::alloc::Global;

/// A key and what belongs to it, as they lie in a pair.
#[derive(Clone, Copy)]
pub struct Keyed<'a> {
    pub key: &'a Boxed<Value>,
    pub part: &'a Boxed<Value>,
}

/// The bytes of a byte string; a value of another form has none.
pub fn blob_of(value: &Value) -> Option<&[u8]>
    ensures { option_copied result ≡ as_blob value.now }
{
    match value {
        Value::Blob(bytes) => Some(bytes.as_slice()),
        _ => None,
    }
}

/// The number of a whole number.
pub fn int_of(value: &Value) -> Option<i64>
    ensures { result ≡ as_int value.now }
{
    match value {
        Value::Int(n) => Some(*n),
        _ => None,
    }
}

/// The two parts of a pair.
pub fn pair_of(value: &Value) -> Option<Keyed<'_>>
    ensures { option_map (λ pair. record { key = pair.key.now; part = pair.part.now }) result
        ≡ as_pair value.now }
{
    match value {
        Value::Pair(key, part) => Some(Keyed { key, part }),
        _ => None,
    }
}

/// The items of a sequence.
pub fn items_of(value: &Value) -> Option<&[Value]>
    ensures { option_copied result ≡ as_seq value.now }
{
    match value {
        Value::Seq(items) => Some(items.as_slice()),
        _ => None,
    }
}

/// Adds the element with this value in place of its own.
pub fn push_valued(e: &Element, value: Value, out: &mut List<Element>) -> Result<(), NoMemory>
    ensures { OnOk result (out.new ≡ out.old ++ one e.now value) }
{
    out.push(Element {
        value,
        time: e.time,
        span: e.span,
        pane: e.pane,
    })
}

/// Adds the element with a pair of this key, which is shared, and this part.
pub fn push_pair(
    alloc: Global,
    e: &Element,
    key: &Boxed<Value>,
    part: Value,
    out: &mut List<Element>,
) -> Result<(), NoMemory>
    ensures { OnOk result (out.new ≡ out.old ++ one e.now (pair key.now part)) }
{
    push_valued(e, Value::Pair(key.share()?, Boxed::new(alloc, part)?), out)
}
