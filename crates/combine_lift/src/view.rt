ghost use Rattle.std.specs.Prelude.{◌≡◌, ◌↔◌, IfOk, IsTrue};
ghost use Rattle.combine_lift.specs.Views.{view_value};

use beam_values::{Bytes, NoMemory, Value, cmp_values};
use std::alloc::Global;

/// A value: as it is, or, where it has no parts, seen where its bytes lie.
#[derive(Clone, Copy, Debug)]
pub enum View<'a> {
    Null,
    Int(i64),
    Text(&'a [u8]),
    /// A value of any form.
    Whole(&'a Value),
}

impl View<'_> {
    /// The value, in memory of its own.
    pub fn to_value(self, alloc: Global) -> Result<Value, NoMemory>
        ensures { IfOk result (λ value. value ≡ view_value self.entry) }
    {
        match self {
            View::Null => Ok(Value::Null),
            View::Int(number) => Ok(Value::Int(number)),
            View::Text(text) => Ok(Value::Blob(Bytes::from_slice(alloc, text)?)),
            View::Whole(value) => value.copy(alloc),
        }
    }

    /// Whether it is this value.
    pub fn is(self, value: &Value) -> bool
        ensures { IsTrue result ↔ (view_value self.entry ≡ value.now) }
    {
        match self {
            View::Null => matches!(value, Value::Null),
            View::Int(number) => matches!(value, Value::Int(other) if *other == number),
            View::Text(text) => { matches!(value, Value::Blob(bytes) if bytes.as_slice() == text) }
            View::Whole(other) => cmp_values(other, value).is_eq(),
        }
    }
}
