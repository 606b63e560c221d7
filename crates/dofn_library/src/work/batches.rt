ghost use Rattle.beam_values.specs.declared.plan.StateKind.TheVariants as kinds;

use crate::StateWork;
use crate::arguments::count_of;
use crate::batches::sorted_bag;
use crate::kept::{push_keyed, timer_output};
use beam_values::{
    Args, Boxed, Element, List, NoMemory, Span, StateKind, Time, Value, last_time, part_of,
};
use dofn_traits::CallRefusal;
use keyed_state::KeyState;
use std::alloc::Global;
use timer_core::Timers;

/// The values in batches of so many, and what is left at the end of the window.
#[derive(Drop)]
pub struct BatchUntil;

impl StateWork for BatchUntil {
    ghost work = { kinds.BatchUntil };

    fn kind() -> StateKind {
        StateKind::BatchUntil
    }

    fn on_element(
        alloc: Global,
        args: &Args,
        key: &Value,
        e: &Element,
        state: &mut KeyState,
        timers: &mut Timers,
        out: &mut List<Element>,
    ) -> Result<(), CallRefusal> {
        state.add(0, part_of(e).copy(alloc)?)?;
        timers.set(0, last_time(e.span));
        if state.bag_len(0) == count_of(args) {
            let batch = Boxed::new(alloc, Value::Seq(sorted_bag(alloc, state, 0)?))?;
            push_keyed(alloc, key, e, batch, out)?;
            state.clear(0);
            timers.clear(0);
        }
        Ok(())
    }

    fn on_timer(
        alloc: Global,
        key: &Value,
        span: Span,
        time: Time,
        state: &mut KeyState,
        timers: &mut Timers,
        out: &mut List<Element>,
    ) -> Result<(), NoMemory> {
        timers.clear(0);
        if state.bag_len(0) == 0 {
            return Ok(());
        }
        let batch = Boxed::new(alloc, Value::Seq(sorted_bag(alloc, state, 0)?))?;
        let keyed = Value::Pair(Boxed::new(alloc, key.copy(alloc)?)?, batch);
        out.push(timer_output(span, time, keyed))?;
        state.clear(0);
        Ok(())
    }
}
