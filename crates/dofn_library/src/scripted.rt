ghost use Rattle.std.specs.Prelude.{◌≡◌, true, false};
ghost use Rattle.beam_values.specs.Checked.{is_function_allowed};
ghost use Rattle.beam_ports.specs.Counts.{raised};
ghost use Rattle.beam_ports.specs.StoreMemory.{is_listed};
ghost use Rattle.dofn_library.specs.Scripts.{is_next_listed, script_faults, is_script_strict};
ghost use Rattle.dofn_library.specs.Scripts.{IsStopped, IsPromised};

use beam_values::{Args, Element, FnKind, List};
use dofn_traits::{CallRefusal, DoFn};
use std::marker::Model;

/// A function that fails at the calls that it was given, and else does what another one does.
///
/// Contracts see the other one, the numbers of the failing calls, how many calls there were and how many
/// of them were listed. A call takes no memory but what the other one takes.
#[derive(Drop)]
pub struct Scripted<D> {
    inner: D,
    failing: List<u64>,
    calls: u64,
    faults: u64,
}

impl<D> Model for Scripted<D> {
    ghost use Rattle.dofn_library.specs.Scripts.{Script};

    ghost Value = { Script D };

    ghost view = { λ it. record {
      inner = it.inner;
      failing = it.failing;
      calls = it.calls;
      faults = it.faults;
    } };
}

impl<D> Scripted<D> {
    /// Takes no memory. The calls are numbered from 0, through all bundles; those whose numbers are in
    /// `failing` fail, whatever they are given.
    pub fn new(inner: D, failing: List<u64>) -> Scripted<D>
        ensures { result ≡ record { inner = inner; failing = failing; calls = 0; faults = 0 } }
    {
        Scripted {
            inner,
            failing,
            calls: 0,
            faults: 0,
        }
    }
}

fn is_listed(failing: &[u64], call: u64) -> bool
    ensures { result ≡ is_listed failing.now call }
{
    failing.contains(&call)
}

impl<D: DoFn> DoFn for Scripted<D> {
    ghost work = { λ script. D.work script.inner };

    ghost faults = { script_faults D.faults };

    ghost strict = { is_script_strict D.strict };

    fn kind(&self) -> FnKind {
        self.inner.kind()
    }

    fn start_bundle(&mut self)
        ensures kept { self.new ≡ record self.old { inner = self.new.inner } }
        ensures work { D.work self.new.inner ≡ D.work self.old.inner }
        ensures faults { D.faults self.new.inner ≡ D.faults self.old.inner }
        ensures strict { D.strict self.new.inner ≡ D.strict self.old.inner }
    {
        self.inner.start_bundle();
    }

    fn finish_bundle(&mut self)
        ensures kept { self.new ≡ record self.old { inner = self.new.inner } }
        ensures work { D.work self.new.inner ≡ D.work self.old.inner }
        ensures faults { D.faults self.new.inner ≡ D.faults self.old.inner }
        ensures strict { D.strict self.new.inner ≡ D.strict self.old.inner }
    {
        self.inner.finish_bundle();
    }

    fn call(&mut self, args: &Args, e: &Element, out: &mut List<Element>) -> Result<(), CallRefusal>
        requires { is_function_allowed (D.work self.old.inner) args.now ≡ true }
        ensures listed { is_next_listed self.old ≡ true
            → IsStopped self.old self.new out.old out.new result }
        ensures kept { is_next_listed self.old ≡ false
            → self.new ≡ record self.old { inner = self.new.inner; calls = raised self.old.calls } }
        ensures promised { is_next_listed self.old ≡ false
            → IsPromised D.work D.faults D.strict args.now e.now self.old.inner self.new.inner
            out.old out.new result }
    {
        let listed = is_listed(self.failing.as_slice(), self.calls);
        self.calls = self.calls.saturating_add(1);
        if listed {
            self.faults = self.faults.saturating_add(1);
            return Err(CallRefusal::Failed);
        }
        self.inner.call(args, e, out)
    }
}
