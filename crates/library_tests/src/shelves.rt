//! A shelf of boxes: that it wants one of each kind, and which one it calls.
ghost use Rattle.std.specs.Prelude.{◌≡◌, true, false};

use beam_values::{
    Args, Element, FnKind, List, LogInput, PaneTag, SourceKind, Span, StateKind, Time, Timing,
    Value,
};
use dofn_traits::{
    BoxShelf, CallRefusal, DoFn, Emission, Found, Shelf, ShelfRefusal, SplittableFn, StatefulFn,
};
use keyed_state::KeyState;
use std::alloc::Global;
use std::test::Fail;
use timer_core::Timers;

// All kinds, in the order in which they are declared.
const FN_KINDS: &[FnKind] = &[
    FnKind::KeyField,
    FnKind::Words,
    FnKind::Field,
    FnKind::KeepPrefix,
    FnKind::FieldInt,
    FnKind::Swap,
    FnKind::Shift,
    FnKind::SumSeq,
    FnKind::CountSeq,
    FnKind::MaxSeq,
    FnKind::Unseq,
    FnKind::Values,
    FnKind::Tag,
    FnKind::JoinList,
    FnKind::JoinSingle,
    FnKind::JoinLookup,
];

const SOURCE_KINDS: &[SourceKind] = &[
    SourceKind::Lines,
    SourceKind::TimedLines,
    SourceKind::Count,
    SourceKind::Made,
];

const STATE_KINDS: &[StateKind] = &[
    StateKind::Dedupe,
    StateKind::RunningSum,
    StateKind::BatchUntil,
    StateKind::LatestThenEmit,
];

// A function that has no memory for anything.
#[derive(Debug, Drop)]
struct Starved<K> {
    kind: K,
}

impl DoFn for Starved<FnKind> {
    ghost work = { λ object. object.kind };

    ghost faults = { λ _. 0 };

    ghost strict = { λ _. true };

    fn kind(&self) -> FnKind {
        self.kind
    }

    fn start_bundle(&mut self) {}

    fn finish_bundle(&mut self) {}

    fn call(
        &mut self,
        _args: &Args,
        _e: &Element,
        _out: &mut List<Element>,
    ) -> Result<(), CallRefusal> {
        Err(CallRefusal::NoMemory)
    }
}

impl SplittableFn for Starved<SourceKind> {
    ghost work = { λ object. object.kind };

    ghost faults = { λ _. 0 };

    ghost strict = { λ _. true };

    fn kind(&self) -> SourceKind {
        self.kind
    }

    fn call(
        &mut self,
        _args: &Args,
        _bytes: &[u8],
        _base: u64,
        _len: u64,
        _p: u64,
        _out: &mut Emission,
    ) -> Result<Found, CallRefusal> {
        Err(CallRefusal::NoMemory)
    }
}

impl StatefulFn for Starved<StateKind> {
    ghost work = { λ object. object.kind };

    ghost faults = { λ _. 0 };

    ghost strict = { λ _. true };

    fn kind(&self) -> StateKind {
        self.kind
    }

    fn call(
        &mut self,
        _args: &Args,
        _key: &Value,
        _span: Span,
        _input: &LogInput,
        _state: &mut KeyState,
        _timers: &mut Timers,
        _out: &mut List<Element>,
    ) -> Result<(), CallRefusal> {
        Err(CallRefusal::NoMemory)
    }
}

// A function that fails at everything.
#[derive(Debug, Drop)]
struct Failing {
    kind: FnKind,
    faults: u64,
}

impl DoFn for Failing {
    ghost work = { λ object. object.kind };

    ghost faults = { λ object. object.faults };

    ghost strict = { λ _. false };

    fn kind(&self) -> FnKind {
        self.kind
    }

    fn start_bundle(&mut self) {}

    fn finish_bundle(&mut self) {}

    fn call(
        &mut self,
        _args: &Args,
        _e: &Element,
        _out: &mut List<Element>,
    ) -> Result<(), CallRefusal> {
        self.faults = self.faults.saturating_add(1);
        Err(CallRefusal::Failed)
    }
}

// Whether the shelf fails at a call of Swap, of Values, of Count and of Dedupe.
fn answers<D: DoFn, S: SplittableFn, T: StatefulFn>(
    alloc: Global,
    fns: List<D>,
    splits: List<S>,
    states: List<T>,
) -> Result<[bool; 4], ShelfRefusal> {
    let mut shelf = BoxShelf::new(fns, splits, states)?;
    let e = Element {
        value: Value::Null,
        time: Time::LEAST,
        span: Span::between(0, 1),
        pane: PaneTag {
            timing: Timing::Unknown,
            index: 0,
        },
    };
    let mut out = List::new(alloc);
    shelf.start_bundle();
    let swap = shelf.call_fn(FnKind::Swap, &Args::Nothing, &e, &mut out);
    let values = shelf.call_fn(FnKind::Values, &Args::Nothing, &e, &mut out);
    shelf.finish_bundle();
    let mut emission = Emission {
        items: List::new(alloc),
        declared: None,
    };
    let kind = SourceKind::Count;
    let count = shelf.call_split(kind, &Args::Two(1, 1), &[], 0, 1, 0, &mut emission);
    let mut state = KeyState::new(alloc);
    let mut timers = Timers::new();
    let span = e.span;
    let input = LogInput::Arrived(e);
    let dedupe = shelf.call_state(
        StateKind::Dedupe,
        &Args::Nothing,
        &Value::Null,
        span,
        &input,
        &mut state,
        &mut timers,
        &mut out,
    );
    Ok([
        swap == Err(CallRefusal::Failed),
        values == Err(CallRefusal::Failed),
        count == Err(CallRefusal::Failed),
        dedupe == Err(CallRefusal::Failed),
    ])
}

#[test]
fn the_first_box_of_a_kind_is_called(rt: HostRuntime) -> Result<(), Fail> {
    let alloc = rt.alloc();
    for missing in [true, false] {
        let mut fns: List<Box<dyn DoFn>> = List::new(alloc);
        for kind in FN_KINDS {
            if *kind != FnKind::Values {
                fns.push(Box::new(alloc, Starved { kind: *kind })?)?;
            }
        }
        if !missing {
            let kind = FnKind::Values;
            fns.push(Box::new(alloc, Failing { kind, faults: 0 })?)?;
        }
        for kind in [FnKind::Swap, FnKind::Words] {
            fns.push(Box::new(alloc, Failing { kind, faults: 0 })?)?;
        }
        let mut splits: List<Box<dyn SplittableFn>> = List::new(alloc);
        for kind in SOURCE_KINDS.iter().rev() {
            splits.push(Box::new(alloc, Starved { kind: *kind })?)?;
        }
        let mut states: List<Box<dyn StatefulFn>> = List::new(alloc);
        for kind in STATE_KINDS {
            states.push(Box::new(alloc, Starved { kind: *kind })?)?;
        }
        let expected = if missing {
            Err(ShelfRefusal::Missing)
        } else {
            Ok([false, true, false, false])
        };
        assert_eq!(rt; answers(alloc, fns, splits, states), expected);
    }
    Ok(())
}
