ghost use Rattle.std.specs.Prelude.{◌≡◌, ◌≢◌, ◌≤◌, ℕ, Bool, true, None, OnOk, IsErrOf};
ghost use Rattle.beam_values.specs.Checked.{is_function_allowed};
ghost use Rattle.beam_values.specs.declared.plan.FnKind.{FnKind};
ghost use Rattle.beam_ports.specs.Counts.{Rose};
ghost use Rattle.beam_model.specs.Functions.{emits};
ghost use Rattle.dofn_traits.specs.Calls.{AddsOutputs, IsUnharmed};

use crate::CallRefusal;
use beam_values::{Args, Element, FnKind, List};

/// A function of single elements (Beam Programming Guide, ParDo).
pub trait DoFn: Send + Drop {
    /// Which function it is. No call changes it.
    ghost work: { Self → FnKind };

    /// How often it has failed.
    ghost faults: { Self → ℕ };

    /// Whether it fails on poison alone. No call changes it.
    ghost strict: { Self → Bool };

    fn kind(&self) -> FnKind
        ensures { result ≡ work self.now };

    fn start_bundle(&mut self)
        ensures work { work self.new ≡ work self.old }
        ensures faults { faults self.new ≡ faults self.old }
        ensures strict { strict self.new ≡ strict self.old };

    fn finish_bundle(&mut self)
        ensures work { work self.new ≡ work self.old }
        ensures faults { faults self.new ≡ faults self.old }
        ensures strict { strict self.new ≡ strict self.old };

    /// Adds the outputs of an element. Where the element is poison, the answer is `Failed` or
    /// `NoMemory`. After a refusal nothing is said of `out`.
    fn call(&mut self, args: &Args, e: &Element, out: &mut List<Element>) -> Result<(), CallRefusal>
        requires allowed { is_function_allowed (work self.old) args.now ≡ true }
        ensures outputs { OnOk result (AddsOutputs (work self.old) args.now e.now out.old out.new) }
        ensures failed { IsErrOf result CallRefusal.Failed
            → Rose (faults self.old) (faults self.new) }
        ensures counts { faults self.old ≤ faults self.new }
        ensures unharmed { strict self.old ≡ true → emits (work self.old) args.now e.now ≢ None
            → IsUnharmed (IsErrOf result CallRefusal.Failed) (faults self.old) (faults self.new) }
        ensures work { work self.new ≡ work self.old }
        ensures strict { strict self.new ≡ strict self.old };
}
