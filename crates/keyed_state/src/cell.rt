ghost use Rattle.std.specs.Prelude.{◌≡◌, ◌∷◌, ◌++◌, [], length, IfOk, OnErr, OnOk};
ghost use Rattle.std.specs.Option.{option_copied};
ghost use Rattle.beam_values.specs.States.{bag_in, bytes_in, number_in, values_in};
ghost use Rattle.beam_values.specs.declared.state_cell.StateCell.TheVariants as seen;
ghost use Rattle.keyed_state.specs.Bags.{holds_value};

use crate::bag::{Bag, holds_value};
use beam_values::{Bytes, Duplicate, List, NoMemory, StateCell, Value};
use std::alloc::Global;
use std::marker::Model;

/// How many values of a bag lie in a plain list: few keys have more.
const FEW: usize = 16;

/// What one cell holds. Contracts see a [`beam_values::StateCell`].
#[derive(Debug, Drop)]
pub struct Cell {
    form: Form,
}

/// How it lies in memory.
#[derive(Debug, Drop)]
pub enum Form {
    Unset,
    Number(i64),
    Text(Bytes),
    /// A bag of few values.
    Few(List<Value>),
    /// A bag of more.
    Many(Box<Bag>),
}

impl Model for Cell {
    ghost use Rattle.std.specs.Coded.{codes};
    ghost use Rattle.beam_values.specs.contracts.value.Value as value;
    ghost use Rattle.beam_values.specs.declared.state_cell.StateCell.{StateCell};
    ghost use Rattle.keyed_state.specs.Forms.{seen_as};

    ghost Value = { StateCell };

    ghost coded = { Prim.hlevel (codes, value.the_row.coded) };

    ghost view = { λ c. seen_as c.form };
}

impl Cell {
    pub fn unset() -> Cell
        ensures { result ≡ seen.Unset }
    {
        Cell { form: Form::Unset }
    }

    pub fn of_number(n: i64) -> Cell
        ensures { result ≡ seen.Number n }
    {
        Cell {
            form: Form::Number(n),
        }
    }

    pub fn of_bytes(bytes: Bytes) -> Cell
        ensures { result ≡ seen.Text bytes }
    {
        Cell {
            form: Form::Text(bytes),
        }
    }

    fn of_bag(bag: Box<Bag>) -> Cell
        ensures { result ≡ seen.Bag bag.value }
    {
        Cell {
            form: Form::Many(bag),
        }
    }

    /// A bag with this one value.
    fn of_value(alloc: Global, value: Value) -> Result<Cell, NoMemory>
        ensures { IfOk result (λ cell. cell ≡ seen.Bag (value ∷ [])) }
    {
        let mut values = List::new(alloc);
        values.push(value)?;
        Ok(Cell {
            form: Form::Few(values),
        })
    }

    pub fn number(&self) -> Option<i64>
        ensures { result ≡ number_in self.now }
    {
        match &self.form {
            Form::Number(n) => Some(*n),
            _ => None,
        }
    }

    pub fn bytes(&self) -> Option<&[u8]>
        ensures { option_copied result ≡ bytes_in self.now }
    {
        match &self.form {
            Form::Text(bytes) => Some(bytes.as_slice()),
            _ => None,
        }
    }

    /// What the cell holds. Long byte strings are shared.
    pub fn held(&self, alloc: Global) -> Result<StateCell, NoMemory>
        ensures { IfOk result (λ held. held ≡ self.now) }
    {
        match &self.form {
            Form::Unset => Ok(StateCell::Unset),
            Form::Number(n) => Ok(StateCell::Number(*n)),
            Form::Text(bytes) => Ok(StateCell::Text(bytes.duplicate(alloc)?)),
            Form::Few(values) => Ok(StateCell::Bag(values.duplicate(alloc)?)),
            Form::Many(bag) => Ok(StateCell::Bag(bag.values(alloc)?)),
        }
    }

    /// A cell that holds this.
    pub fn restore(alloc: Global, held: StateCell) -> Result<Cell, NoMemory>
        ensures { IfOk result (λ cell. cell ≡ held) }
    {
        match held {
            StateCell::Unset => Ok(Cell::unset()),
            StateCell::Number(n) => Ok(Cell::of_number(n)),
            StateCell::Text(bytes) => Ok(Cell::of_bytes(bytes)),
            StateCell::Bag(values) => Cell::of_values(alloc, values),
        }
    }

    fn of_values(alloc: Global, values: List<Value>) -> Result<Cell, NoMemory>
        ensures { IfOk result (λ cell. cell ≡ seen.Bag values) }
    {
        if values.len() <= FEW {
            return Ok(Cell {
                form: Form::Few(values),
            });
        }
        let bag = Bag::sorted_of(alloc, values.as_slice())?;
        Ok(Cell::of_bag(Box::new(alloc, bag)?))
    }

    /// The values of a bag.
    pub fn bag(&self, alloc: Global) -> Result<Option<List<Value>>, NoMemory>
        ensures { IfOk result (λ bag. bag ≡ bag_in self.now) }
    {
        match &self.form {
            Form::Few(values) => Ok(Some(values.duplicate(alloc)?)),
            Form::Many(bag) => Ok(Some(bag.values(alloc)?)),
            _ => Ok(None),
        }
    }

    /// How many values a bag has; 0 of another form.
    pub fn bag_len(&self) -> usize
        ensures { result ≡ length (values_in self.now) }
    {
        match &self.form {
            Form::Few(values) => values.len(),
            Form::Many(bag) => bag.len(),
            _ => 0,
        }
    }

    pub fn holds(&self, value: &Value) -> bool
        ensures { result ≡ holds_value (values_in self.now) value.now }
    {
        match &self.form {
            Form::Few(values) => holds_value(values.as_slice(), value),
            Form::Many(bag) => bag.holds(value),
            _ => false,
        }
    }

    /// A cell of another form becomes a bag with this one value.
    pub fn add(&mut self, alloc: Global, value: Value) -> Result<(), NoMemory>
        ensures ok { OnOk result (self.new ≡ seen.Bag (values_in self.old ++ value ∷ [])) }
        ensures err { OnErr result (self.new ≡ self.old) }
    {
        match &mut self.form {
            Form::Many(bag) => bag.add(alloc, value),
            Form::Few(values) => {
                if values.len() < FEW {
                    return values.push(value);
                }
                let mut bag = Bag::of(alloc, values.as_slice())?;
                bag.add(alloc, value)?;
                *self = Cell::of_bag(Box::new(alloc, bag)?);
                Ok(())
            }
            _ => {
                *self = Cell::of_value(alloc, value)?;
                Ok(())
            }
        }
    }

    /// Long byte strings and the older values of long bags are shared.
    pub fn copy(&self, alloc: Global) -> Result<Cell, NoMemory>
        ensures { IfOk result (λ cell. cell ≡ self.now) }
    {
        let form = match &self.form {
            Form::Unset => Form::Unset,
            Form::Number(n) => Form::Number(*n),
            Form::Text(bytes) => Form::Text(bytes.duplicate(alloc)?),
            Form::Few(values) => Form::Few(values.duplicate(alloc)?),
            Form::Many(bag) => Form::Many(Box::new(alloc, bag.copy(alloc)?)?),
        };
        Ok(Cell { form })
    }
}
