ghost use Rattle.std.specs.Prelude.{◌≡◌, ◌+ℤ◌, pos, unwrap_or};
ghost use Rattle.std.specs.Option.{option_and_then};
ghost use Rattle.beam_values.specs.Grouping.{part_of};
ghost use Rattle.beam_values.specs.States.{cell_of, number_in};
ghost use Rattle.beam_values.specs.declared.plan.StateKind.TheVariants as kinds;
ghost use Rattle.beam_model.specs.Functions.{in_word};
ghost use Rattle.beam_model.specs.Values.{as_int};

use crate::StateWork;
use crate::kept::push_keyed;
use crate::numbers::in_word;
use crate::shapes::int_of;
use beam_values::{Args, Boxed, Element, List, NoMemory, Span, StateKind, Time, Value, part_of};
use dofn_traits::CallRefusal;
use keyed_state::KeyState;
use std::alloc::Global;
use timer_core::Timers;

/// The sum of the numbers so far.
#[derive(Drop)]
pub struct RunningSum;

impl StateWork for RunningSum {
    ghost work = { kinds.RunningSum };

    fn kind() -> StateKind {
        StateKind::RunningSum
    }

    fn on_element(
        alloc: Global,
        _args: &Args,
        key: &Value,
        e: &Element,
        state: &mut KeyState,
        _timers: &mut Timers,
        out: &mut List<Element>,
    ) -> Result<(), CallRefusal> {
        let sum = sum_with(state, e).ok_or(CallRefusal::Failed)?;
        state.set_number(0, sum);
        push_keyed(alloc, key, e, Boxed::new(alloc, Value::Int(sum))?, out)?;
        Ok(())
    }

    fn on_timer(
        _alloc: Global,
        _key: &Value,
        _span: Span,
        _time: Time,
        _state: &mut KeyState,
        _timers: &mut Timers,
        _out: &mut List<Element>,
    ) -> Result<(), NoMemory> {
        Ok(())
    }
}

// The sum with the number of one element more, where that is one and 64 bits hold the sum.
fn sum_with(state: &KeyState, e: &Element) -> Option<i64>
    ensures { result
        ≡ option_and_then (λ n. in_word (unwrap_or (number_in (cell_of state.now 0)) (pos 0) +ℤ n))
        (as_int (part_of e.now)) }
{
    let number = int_of(part_of(e))?;
    let before = state.number(0).unwrap_or(0);
    in_word(i128::from(before) + i128::from(number))
}
