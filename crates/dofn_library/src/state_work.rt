ghost use Rattle.std.specs.Prelude.{◌≡◌, ◌≤◌, true, OnOk};
ghost use Rattle.beam_values.specs.Checked.{is_state_allowed};
ghost use Rattle.beam_values.specs.declared.plan.StateKind.{StateKind};
ghost use Rattle.beam_model.specs.Steps.{on_element, on_first_timer, steps};
ghost use Rattle.dofn_traits.specs.Calls.{kept_in, IsStepped};
ghost use Rattle.dofn_library.specs.Answers.{Steps, counted};

use crate::Strict;
use beam_values::{Args, Element, List, LogInput, NoMemory, Span, StateKind, Time, Timer, Value};
use dofn_traits::{CallRefusal, StatefulFn};
use keyed_state::KeyState;
use std::alloc::Global;
use timer_core::Timers;

/// What a function with state does, without its count.
pub trait StateWork {
    /// Which function it is.
    ghost work: { StateKind };

    fn kind() -> StateKind
        ensures { result ≡ work };

    /// Changes the state and the timers, and adds the outputs; or fails where the element is poison.
    fn on_element(
        alloc: Global,
        args: &Args,
        key: &Value,
        e: &Element,
        state: &mut KeyState,
        timers: &mut Timers,
        out: &mut List<Element>,
    ) -> Result<(), CallRefusal>
        requires { is_state_allowed work args.now ≡ true }
        ensures { Steps (on_element work args.now key.now e.now (kept_in state.old timers.old))
            state.new timers.new out.old out.new result };

    /// The same on timer 0, which is never poison.
    fn on_timer(
        alloc: Global,
        key: &Value,
        span: Span,
        time: Time,
        state: &mut KeyState,
        timers: &mut Timers,
        out: &mut List<Element>,
    ) -> Result<(), NoMemory>
        ensures { OnOk result (IsStepped (on_first_timer work key.now span time
            (kept_in state.old timers.old)) state.new timers.new out.old out.new) };
}

impl<W: StateWork + Send + Drop> StatefulFn for Strict<W> {
    ghost work = { λ _. W.work };

    ghost faults = { λ object. object };

    ghost strict = { λ _. true };

    fn kind(&self) -> StateKind {
        W::kind()
    }

    fn call(
        &mut self,
        args: &Args,
        key: &Value,
        span: Span,
        input: &LogInput,
        state: &mut KeyState,
        timers: &mut Timers,
        out: &mut List<Element>,
    ) -> Result<(), CallRefusal>
        requires { is_state_allowed W.work args.now ≡ true }
        ensures gives { Steps (steps W.work args.now key.now span input.now
            (kept_in state.old timers.old)) state.new timers.new out.old out.new result }
        ensures counts { self.new ≡ counted self.old result }
        ensures rises { self.old ≤ self.new }
    {
        match input {
            LogInput::Arrived(e) => {
                let answer = W::on_element(self.alloc, args, key, e, state, timers, out);
                self.count(answer);
                answer
            }
            LogInput::Fired(Timer { name: 0, time }) => {
                W::on_timer(self.alloc, key, span, *time, state, timers, out)?;
                Ok(())
            }
            LogInput::Fired(_) => Ok(()),
        }
    }
}
