ghost use Rattle.std.specs.Prelude.{◌≡◌, ◌<◌, IfOk};
ghost use Rattle.beam_values.specs.States.{cell_of, values_in};
ghost use Rattle.beam_model.specs.Functions.{ascending};

use crate::kept::values_of;
use beam_values::{List, NoMemory, Value, cmp_values};
use keyed_state::KeyState;
use std::alloc::Global;

/// Copies of the values of a bag in ascending order; of a cell of another form, none.
pub fn sorted_bag(alloc: Global, state: &KeyState, name: u8) -> Result<List<Value>, NoMemory>
    requires { name < 8 }
    ensures { IfOk result (λ values. values ≡ ascending (values_in (cell_of state.now name))) }
{
    let values = values_of(alloc, state, name)?;
    sorted(values.into_vec())
}

/// The values in ascending order.
pub fn sorted(values: Vec<Value>) -> Result<List<Value>, NoMemory>
    ensures { IfOk result (λ sorted. sorted ≡ ascending values.items) }
{
    let mut values = values;
    values.sort_by(|a, b| cmp_values(a, b))?;
    Ok(List::from_vec(values))
}
