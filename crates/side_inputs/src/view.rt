ghost use Rattle.std.specs.Prelude.{◌≡◌, ◌++◌, ◌∷◌, [], bytes_eq, IfOk, OnErr, OnOk};
ghost use Rattle.std.specs.List.{flat_map};
ghost use Rattle.std.specs.Option.{option_copied};
ghost use Rattle.beam_model.specs.Functions.{ascending, found_in, only_one};
ghost use Rattle.beam_model.specs.Values.{seq};
ghost use Rattle.beam_values.specs.Spelling.{spelling};

use beam_values::{Duplicate, List, NoMemory, Value, cmp_values};
use std::alloc::Global;
use std::marker::Model;

/// The values of a view in one window (Beam Programming Guide, Side inputs and windowing). Contracts
/// see them in the order in which they were added.
#[derive(Debug, Drop)]
pub struct View {
    alloc: Global,
    values: List<Value>,
}

impl Model for View {
    ghost use Rattle.std.specs.Prelude.{List as ListOf};
    ghost use Rattle.std.specs.Coded.{coded_list};
    ghost use Rattle.beam_values.specs.contracts.value.Value as value;
    ghost use Rattle.beam_values.specs.declared.value.Value.{Value as ValueOf};

    ghost Value = { ListOf ValueOf };

    ghost coded = { coded_list value.the_row.coded };

    ghost view = { λ view. view.values };
}

impl View {
    /// Takes no memory.
    pub fn new(alloc: Global) -> View
        ensures { result ≡ [] }
    {
        View {
            alloc,
            values: List::new(alloc),
        }
    }

    /// Puts a value behind the others.
    pub fn add(&mut self, v: Value) -> Result<(), NoMemory>
        ensures ok { OnOk result (self.new ≡ self.old ++ v ∷ []) }
        ensures err { OnErr result (self.new ≡ self.old) }
    {
        self.values.push(v)
    }

    /// All values, as a sequence in ascending order.
    pub fn list(&self) -> Result<Value, NoMemory>
        ensures { IfOk result (λ all. all ≡ seq (ascending self.now)) }
    {
        sequence(self.values.duplicate(self.alloc)?.into_vec())
    }

    /// The only value; `None` where there is none, or more than one.
    pub fn single(&self) -> Option<&Value>
        ensures { option_copied result ≡ only_one self.now }
    {
        match self.values.as_slice() {
            [value] => Some(value),
            _ => None,
        }
    }

    /// The parts of the pairs with this key, as a sequence in ascending order. Values that are no pairs
    /// don't count.
    pub fn find(&self, key: &Value) -> Result<Value, NoMemory>
        ensures { IfOk result
            (λ found. found ≡ seq (ascending (flat_map (found_in key.now) self.now))) }
    {
        let mut found = Vec::new(self.alloc);
        for value in self.values.as_slice() {
            if let Value::Pair(own, part) = value
                && is_same(own.get(), key)
            {
                found.push(part.get().copy(self.alloc)?)?;
            }
        }
        sequence(found)
    }
}

// A sequence of these values in ascending order.
fn sequence(values: Vec<Value>) -> Result<Value, NoMemory>
    ensures { IfOk result (λ sequence. sequence ≡ seq (ascending values.items)) }
{
    let mut values = values;
    values.sort_by(|a, b| cmp_values(a, b))?;
    Ok(Value::Seq(List::from_vec(values)))
}

// Whether values are spelled alike.
#[tactic(auto, using(crate::proofs::SameValues::same_spellings))]
fn is_same(a: &Value, b: &Value) -> bool
    ensures { result ≡ bytes_eq (spelling a.now) (spelling b.now) }
{
    cmp_values(a, b).is_eq()
}
