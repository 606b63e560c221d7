ghost use Rattle.std.specs.Prelude.{◌≡◌, ◌≢◌, ◌≤◌, ℕ, Bool, true, None, OnOk, IsErrOf};
ghost use Rattle.beam_values.specs.Checked.{is_state_allowed};
ghost use Rattle.beam_values.specs.declared.plan.StateKind.{StateKind};
ghost use Rattle.beam_ports.specs.Counts.{Rose};
ghost use Rattle.beam_model.specs.Steps.{steps};
ghost use Rattle.dofn_traits.specs.Calls.{kept_in, AddsStep, IsUnharmed};

use crate::CallRefusal;
use beam_values::{Args, Element, List, LogInput, Span, StateKind, Value};
use keyed_state::KeyState;
use timer_core::Timers;

/// A function with state and timers (Beam Programming Guide, State and Timers).
pub trait StatefulFn: Send + Drop {
    /// Which function it is. No call changes it.
    ghost work: { Self → StateKind };

    /// How often it has failed.
    ghost faults: { Self → ℕ };

    /// Whether it fails on poison alone. No call changes it.
    ghost strict: { Self → Bool };

    fn kind(&self) -> StateKind
        ensures { result ≡ work self.now };

    /// A call on an element of the key and window, or on a timer of it that is due: changes the state
    /// and the timers, and adds the outputs. Where the input is poison, the answer is `Failed` or
    /// `NoMemory`. After a refusal nothing is said of the state, the timers and `out`.
    fn call(
        &mut self,
        args: &Args,
        key: &Value,
        span: Span,
        input: &LogInput,
        state: &mut KeyState,
        timers: &mut Timers,
        out: &mut List<Element>,
    ) -> Result<(), CallRefusal>
        requires allowed { is_state_allowed (work self.old) args.now ≡ true }
        ensures step { OnOk result
            (AddsStep (work self.old) args.now key.now span input.now (kept_in state.old timers.old)
            state.new timers.new out.old out.new) }
        ensures failed { IsErrOf result CallRefusal.Failed
            → Rose (faults self.old) (faults self.new) }
        ensures counts { faults self.old ≤ faults self.new }
        ensures unharmed { strict self.old ≡ true
            → steps (work self.old) args.now key.now span input.now (kept_in state.old timers.old)
            ≢ None
            → IsUnharmed (IsErrOf result CallRefusal.Failed) (faults self.old) (faults self.new) }
        ensures work { work self.new ≡ work self.old }
        ensures strict { strict self.new ≡ strict self.old };
}
