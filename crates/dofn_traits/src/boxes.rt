use crate::{CallRefusal, DoFn, Emission, Found, SplittableFn, StatefulFn};
use beam_values::{Args, Element, FnKind, List, LogInput, SourceKind, Span, StateKind, Value};
use keyed_state::KeyState;
use timer_core::Timers;

impl DoFn for Box<dyn DoFn> {
    ghost work = { λ b. (DoFn-box b).work b.value };

    ghost faults = { λ b. (DoFn-box b).faults b.value };

    ghost strict = { λ b. (DoFn-box b).strict b.value };

    fn kind(&self) -> FnKind {
        (**self).kind()
    }

    fn start_bundle(&mut self) {
        (**self).start_bundle()
    }

    fn finish_bundle(&mut self) {
        (**self).finish_bundle()
    }

    fn call(
        &mut self,
        args: &Args,
        e: &Element,
        out: &mut List<Element>,
    ) -> Result<(), CallRefusal> {
        (**self).call(args, e, out)
    }
}

impl SplittableFn for Box<dyn SplittableFn> {
    ghost work = { λ b. (SplittableFn-box b).work b.value };

    ghost faults = { λ b. (SplittableFn-box b).faults b.value };

    ghost strict = { λ b. (SplittableFn-box b).strict b.value };

    fn kind(&self) -> SourceKind {
        (**self).kind()
    }

    fn call(
        &mut self,
        args: &Args,
        bytes: &[u8],
        base: u64,
        len: u64,
        p: u64,
        out: &mut Emission,
    ) -> Result<Found, CallRefusal> {
        (**self).call(args, bytes, base, len, p, out)
    }
}

impl StatefulFn for Box<dyn StatefulFn> {
    ghost work = { λ b. (StatefulFn-box b).work b.value };

    ghost faults = { λ b. (StatefulFn-box b).faults b.value };

    ghost strict = { λ b. (StatefulFn-box b).strict b.value };

    fn kind(&self) -> StateKind {
        (**self).kind()
    }

    fn call(
        &mut self,
        args: &Args,
        key: &Value,
        span: Span,
        input: &LogInput,
        state: &mut KeyState,
        timers: &mut Timers,
        out: &mut List<Element>,
    ) -> Result<(), CallRefusal> {
        (**self).call(args, key, span, input, state, timers, out)
    }
}
