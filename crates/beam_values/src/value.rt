ghost use Rattle.std.specs.Prelude.{◌≡◌, IfOk};

use beam_containers::{Boxed, Bytes, Duplicate, List, NoMemory};
use std::alloc::Global;

/// The data of an element: a tree of whole numbers and byte strings.
#[derive(Debug, Drop)]
pub enum Value {
    Null,
    Int(i64),
    Blob(Bytes),
    Pair(Boxed<Value>, Boxed<Value>),
    Seq(List<Value>),
}

impl Value {
    /// Pairs and long byte strings are shared, and take no memory. The items of a sequence are copied.
    #[cycle(copies)]
    pub fn copy(&self, alloc: Global) -> Result<Value, NoMemory>
        ensures { IfOk result (λ v. v ≡ self.now) }
    {
        match self {
            Value::Null => Ok(Value::Null),
            Value::Int(n) => Ok(Value::Int(*n)),
            Value::Blob(bytes) => Ok(Value::Blob(bytes.duplicate(alloc)?)),
            Value::Pair(key, value) => Ok(Value::Pair(key.share()?, value.share()?)),
            Value::Seq(items) => Ok(Value::Seq(copy_all(alloc, items.as_slice())?)),
        }
    }
}

#[cycle(copies)]
fn copy_all(alloc: Global, values: &[Value]) -> Result<List<Value>, NoMemory>
    ensures { IfOk result (λ copies. copies ≡ values.now) }
{
    let mut copies = Vec::with_capacity(alloc, values.len())?;
    for value in values {
        copies.push(value.copy(alloc)?)?;
    }
    Ok(List::from_vec(copies))
}

impl Duplicate for Value {
    fn duplicate(&self, alloc: Global) -> Result<Value, NoMemory> {
        self.copy(alloc)
    }
}
