ghost use Rattle.std.specs.Prelude.{◌≡◌, ◌≤◌, true};
ghost use Rattle.beam_values.specs.Checked.{is_function_allowed};
ghost use Rattle.beam_values.specs.declared.plan.FnKind.{FnKind};
ghost use Rattle.beam_model.specs.Functions.{emits};
ghost use Rattle.dofn_library.specs.Answers.{Gives, counted};

use crate::{SharedKeys, Strict};
use beam_values::{Args, Element, FnKind, List};
use dofn_traits::{CallRefusal, DoFn};
use std::alloc::Global;

/// What a function of elements does, without its count.
pub trait ElementWork {
    /// Which function it is.
    ghost work: { FnKind };

    fn kind() -> FnKind
        ensures { result ≡ work };

    /// Adds the outputs of an element, or fails where it is poison. A key that it makes may come from
    /// `keys`, which lasts from call to call.
    fn give(
        alloc: Global,
        keys: &mut SharedKeys,
        args: &Args,
        e: &Element,
        out: &mut List<Element>,
    ) -> Result<(), CallRefusal>
        requires { is_function_allowed work args.now ≡ true }
        ensures { Gives (emits work args.now e.now) out.old out.new result };
}

impl<W: ElementWork + Send + Drop> DoFn for Strict<W> {
    ghost work = { λ _. W.work };

    ghost faults = { λ object. object };

    ghost strict = { λ _. true };

    fn kind(&self) -> FnKind {
        W::kind()
    }

    fn start_bundle(&mut self) {}

    fn finish_bundle(&mut self) {}

    fn call(&mut self, args: &Args, e: &Element, out: &mut List<Element>) -> Result<(), CallRefusal>
        requires { is_function_allowed W.work args.now ≡ true }
        ensures gives { Gives (emits W.work args.now e.now) out.old out.new result }
        ensures counts { self.new ≡ counted self.old result }
        ensures rises { self.old ≤ self.new }
    {
        let answer = W::give(self.alloc, &mut self.keys, args, e, out);
        self.count(answer);
        answer
    }
}
