ghost use Rattle.std.specs.Prelude.{◌≡◌, ◌++◌, ℤ, ◌≤ℤ◌, List as ListOf, Option as OptionOf, map};
ghost use Rattle.std.specs.Prelude.{unwrap_or, IfOk, OnOk};
ghost use Rattle.beam_values.specs.States.{cell_of, number_in};
ghost use Rattle.beam_values.specs.Times.{least_time};
ghost use Rattle.beam_values.specs.declared.plan.StateKind.TheVariants as kinds;
ghost use Rattle.beam_model.specs.Steps.{timer_output, with_latest};
ghost use Rattle.beam_model.specs.Values.{pair};
ghost use Rattle.dofn_traits.specs.Calls.{kept_in};

use crate::StateWork;
use crate::arguments::{later, number_of};
use crate::kept::{timer_output, values_of};
use beam_values::{Args, Boxed, Element, List, NoMemory, Span, StateKind, Time, Value, part_of};
use dofn_traits::CallRefusal;
use keyed_state::KeyState;
use std::alloc::Global;
use timer_core::Timers;

/// The value with the greatest time, so long after that time.
#[derive(Drop)]
pub struct LatestThenEmit;

impl StateWork for LatestThenEmit {
    ghost work = { kinds.LatestThenEmit };

    fn kind() -> StateKind {
        StateKind::LatestThenEmit
    }

    fn on_element(
        alloc: Global,
        args: &Args,
        _key: &Value,
        e: &Element,
        state: &mut KeyState,
        timers: &mut Timers,
        _out: &mut List<Element>,
    ) -> Result<(), CallRefusal> {
        let latest = keep_latest(alloc, e, state)?;
        timers.set(0, later(latest, number_of(args)));
        Ok(())
    }

    fn on_timer(
        alloc: Global,
        key: &Value,
        span: Span,
        time: Time,
        state: &mut KeyState,
        timers: &mut Timers,
        out: &mut List<Element>,
    ) -> Result<(), NoMemory> {
        let values = values_of(alloc, state, 0)?;
        push_each(alloc, key, span, time, values.as_slice(), out)?;
        timers.clear(0);
        state.clear(0);
        state.clear(1);
        Ok(())
    }
}

// Keeps the value where none of a later time is kept, and gives the time of the one that is kept then.
#[tactic(auto, using(crate::proofs::Cells::one_value, crate::proofs::Cells::number_put))]
fn keep_latest(alloc: Global, e: &Element, state: &mut KeyState) -> Result<i64, NoMemory>
    ensures kept { OnOk result ((timers : ListOf (OptionOf ℤ))
        → with_latest e.now (kept_in state.old timers) ≡ kept_in state.new timers) }
    ensures latest { IfOk result
        (λ ms. ms ≡ unwrap_or (number_in (cell_of state.new 1)) e.now.time) }
    ensures past_least { IfOk result (λ ms. least_time ≤ℤ ms) }
{
    let time = e.time.ms();
    match state.number(1) {
        Some(latest) if latest > time => Ok(latest),
        _ => {
            state.clear(0);
            state.add(0, part_of(e).copy(alloc)?)?;
            state.set_number(1, time);
            Ok(time)
        }
    }
}

// Adds a pair with the key for each value.
fn push_each(
    alloc: Global,
    key: &Value,
    span: Span,
    time: Time,
    values: &[Value],
    out: &mut List<Element>,
) -> Result<(), NoMemory>
    ensures { OnOk result
        (out.new ≡ out.old ++ map (λ v. timer_output span time (pair key.now v)) values.now) }
{
    let key = Boxed::new(alloc, key.copy(alloc)?)?;
    for value in values {
        let keyed = Value::Pair(key.share()?, Boxed::new(alloc, value.copy(alloc)?)?);
        out.push(timer_output(span, time, keyed))?;
    }
    Ok(())
}
