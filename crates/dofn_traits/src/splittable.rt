ghost use Rattle.std.specs.Prelude.{◌≡◌, ◌≢◌, ◌↔◌, ◌≤◌, ℕ, Bool, true, List as ListOf, IfOk};
ghost use Rattle.std.specs.Prelude.{IsErrOf};
ghost use Rattle.beam_values.specs.Checked.{is_source_argument};
ghost use Rattle.beam_values.specs.declared.plan.SourceKind.{SourceKind};
ghost use Rattle.beam_ports.specs.Counts.{Rose};
ghost use Rattle.beam_model.specs.Positions as model;
ghost use Rattle.dofn_traits.specs.Calls.{is_cut_short, IsView, IsViewOf, IsFound, IsNextWithin};
ghost use Rattle.dofn_traits.specs.Calls.{IsUnharmed};

use crate::{CallRefusal, Emission, Found};
use beam_values::{Args, SourceKind};

/// A source whose items are worked position by position (Splittable DoFn).
pub trait SplittableFn: Send + Drop {
    /// Which source it is. No call changes it.
    ghost work: { Self → SourceKind };

    /// How often it has failed.
    ghost faults: { Self → ℕ };

    /// Whether it fails on poison alone. No call changes it.
    ghost strict: { Self → Bool };

    fn kind(&self) -> SourceKind
        ensures { result ≡ work self.now };

    /// Works the position `p` of an item with `len` positions, of which `bytes` are those from `base` on
    /// (of what is counted or made, none). Adds what the position emits, and answers the position after
    /// it; or asks for more bytes, exactly where the line that may start there goes on past them, and
    /// adds nothing. Where the position is poison, the answer is `Failed` or `NoMemory`. After a refusal
    /// nothing is said of `out`.
    fn call(
        &mut self,
        args: &Args,
        bytes: &[u8],
        base: u64,
        len: u64,
        p: u64,
        out: &mut Emission,
    ) -> Result<Found, CallRefusal>
        requires allowed { is_source_argument (work self.old) args.now ≡ true }
        requires view { IsView (work self.old) args.now bytes.now base len p }
        ensures found { IfOk result
            (λ found. (file : ListOf ℕ) → IsViewOf file (work self.old) args.now bytes.now base len
            → IsFound (work self.old) args.now file p out.old out.new found) }
        ensures next { IfOk result (IsNextWithin p len) }
        ensures unchanged { IfOk result (λ found. found ≡ Found.More → out.new ≡ out.old) }
        ensures more { IfOk result (λ found. (found ≡ Found.More)
            ↔ (is_cut_short (work self.old) bytes.now base len p ≡ true)) }
        ensures failed { IsErrOf result CallRefusal.Failed
            → Rose (faults self.old) (faults self.new) }
        ensures counts { faults self.old ≤ faults self.new }
        ensures unharmed { strict self.old ≡ true → (file : ListOf ℕ)
            → IsViewOf file (work self.old) args.now bytes.now base len
            → model.emission (work self.old) args.now file p ≢ model.Poison
            → IsUnharmed (IsErrOf result CallRefusal.Failed) (faults self.old) (faults self.new) }
        ensures unharmed_more { strict self.old ≡ true
            → is_cut_short (work self.old) bytes.now base len p ≡ true
            → IsUnharmed (IsErrOf result CallRefusal.Failed) (faults self.old) (faults self.new) }
        ensures work { work self.new ≡ work self.old }
        ensures strict { strict self.new ≡ strict self.old };
}
