ghost use Rattle.beam_values.specs.declared.plan.StateKind.TheVariants as kinds;

use crate::StateWork;
use crate::kept::{push_keyed, shared_part};
use beam_values::{Args, Element, List, NoMemory, Span, StateKind, Time, Value, part_of};
use dofn_traits::CallRefusal;
use keyed_state::KeyState;
use std::alloc::Global;
use timer_core::Timers;

/// Each value once.
#[derive(Drop)]
pub struct Dedupe;

impl StateWork for Dedupe {
    ghost work = { kinds.Dedupe };

    fn kind() -> StateKind {
        StateKind::Dedupe
    }

    fn on_element(
        alloc: Global,
        _args: &Args,
        key: &Value,
        e: &Element,
        state: &mut KeyState,
        _timers: &mut Timers,
        out: &mut List<Element>,
    ) -> Result<(), CallRefusal> {
        let part = part_of(e);
        if state.holds(0, part) {
            return Ok(());
        }
        state.add(0, part.copy(alloc)?)?;
        push_keyed(alloc, key, e, shared_part(alloc, e)?, out)?;
        Ok(())
    }

    fn on_timer(
        _alloc: Global,
        _key: &Value,
        _span: Span,
        _time: Time,
        _state: &mut KeyState,
        _timers: &mut Timers,
        _out: &mut List<Element>,
    ) -> Result<(), NoMemory> {
        Ok(())
    }
}
