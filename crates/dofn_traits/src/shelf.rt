ghost use Rattle.std.specs.Prelude.{◌≡◌, ◌≢◌, ◌↔◌, ◌≤◌, ℕ, Bool, true, None, List as ListOf, OnOk};
ghost use Rattle.std.specs.Prelude.{IfOk, IsErrOf};
ghost use Rattle.beam_values.specs.Checked.{is_function_allowed, is_source_argument};
ghost use Rattle.beam_values.specs.Checked.{is_state_allowed};
ghost use Rattle.beam_ports.specs.Counts.{Rose};
ghost use Rattle.beam_model.specs.Functions.{emits};
ghost use Rattle.beam_model.specs.Positions as model;
ghost use Rattle.beam_model.specs.Steps.{steps};
ghost use Rattle.dofn_traits.specs.Calls.{is_cut_short, kept_in, AddsOutputs, AddsStep, IsView};
ghost use Rattle.dofn_traits.specs.Calls.{IsViewOf, IsFound, IsNextWithin, IsUnharmed};

use crate::{CallRefusal, Emission, Found};
use beam_values::{Args, Element, FnKind, List, LogInput, SourceKind, Span, StateKind, Value};
use keyed_state::KeyState;
use timer_core::Timers;

/// All functions that plans name, each found by its kind. A call of a kind promises what the call of a
/// function of that kind does.
pub trait Shelf: Send {
    /// How often the functions have failed, all together, up to the greatest number of 64 bits.
    ghost faults: { Self → ℕ };

    /// Whether each of them fails on poison alone. No call changes it.
    ghost strict: { Self → Bool };

    fn start_bundle(&mut self)
        ensures faults { faults self.new ≡ faults self.old }
        ensures strict { strict self.new ≡ strict self.old };

    fn finish_bundle(&mut self)
        ensures faults { faults self.new ≡ faults self.old }
        ensures strict { strict self.new ≡ strict self.old };

    /// As [`crate::DoFn::call`].
    fn call_fn(
        &mut self,
        kind: FnKind,
        args: &Args,
        e: &Element,
        out: &mut List<Element>,
    ) -> Result<(), CallRefusal>
        requires allowed { is_function_allowed kind args.now ≡ true }
        ensures outputs { OnOk result (AddsOutputs kind args.now e.now out.old out.new) }
        ensures failed { IsErrOf result CallRefusal.Failed
            → Rose (faults self.old) (faults self.new) }
        ensures counts { faults self.old ≤ faults self.new }
        ensures unharmed { strict self.old ≡ true → emits kind args.now e.now ≢ None
            → IsUnharmed (IsErrOf result CallRefusal.Failed) (faults self.old) (faults self.new) }
        ensures strict { strict self.new ≡ strict self.old };

    /// As [`crate::SplittableFn::call`].
    fn call_split(
        &mut self,
        kind: SourceKind,
        args: &Args,
        bytes: &[u8],
        base: u64,
        len: u64,
        p: u64,
        out: &mut Emission,
    ) -> Result<Found, CallRefusal>
        requires allowed { is_source_argument kind args.now ≡ true }
        requires view { IsView kind args.now bytes.now base len p }
        ensures found { IfOk result
            (λ found. (file : ListOf ℕ) → IsViewOf file kind args.now bytes.now base len
            → IsFound kind args.now file p out.old out.new found) }
        ensures next { IfOk result (IsNextWithin p len) }
        ensures unchanged { IfOk result (λ found. found ≡ Found.More → out.new ≡ out.old) }
        ensures more { IfOk result
            (λ found. (found ≡ Found.More) ↔ (is_cut_short kind bytes.now base len p ≡ true)) }
        ensures failed { IsErrOf result CallRefusal.Failed
            → Rose (faults self.old) (faults self.new) }
        ensures counts { faults self.old ≤ faults self.new }
        ensures unharmed { strict self.old ≡ true → (file : ListOf ℕ)
            → IsViewOf file kind args.now bytes.now base len
            → model.emission kind args.now file p ≢ model.Poison
            → IsUnharmed (IsErrOf result CallRefusal.Failed) (faults self.old) (faults self.new) }
        ensures unharmed_more { strict self.old ≡ true
            → is_cut_short kind bytes.now base len p ≡ true
            → IsUnharmed (IsErrOf result CallRefusal.Failed) (faults self.old) (faults self.new) }
        ensures strict { strict self.new ≡ strict self.old };

    /// As [`crate::StatefulFn::call`].
    fn call_state(
        &mut self,
        kind: StateKind,
        args: &Args,
        key: &Value,
        span: Span,
        input: &LogInput,
        state: &mut KeyState,
        timers: &mut Timers,
        out: &mut List<Element>,
    ) -> Result<(), CallRefusal>
        requires allowed { is_state_allowed kind args.now ≡ true }
        ensures step { OnOk result
            (AddsStep kind args.now key.now span input.now (kept_in state.old timers.old)
            state.new timers.new out.old out.new) }
        ensures failed { IsErrOf result CallRefusal.Failed
            → Rose (faults self.old) (faults self.new) }
        ensures counts { faults self.old ≤ faults self.new }
        ensures unharmed { strict self.old ≡ true
            → steps kind args.now key.now span input.now (kept_in state.old timers.old) ≢ None
            → IsUnharmed (IsErrOf result CallRefusal.Failed) (faults self.old) (faults self.new) }
        ensures strict { strict self.new ≡ strict self.old };
}
