ghost use Rattle.std.specs.Prelude.{◌≡◌, ◌⊎◌, ◌==◌, ◌<◌, position, OnOk, OnErr, IfOk, IfSome};
ghost use Rattle.std.specs.Prelude.{OnSome, IfNone};
ghost use Rattle.dofn_traits.specs.Shelves.{fn_number, source_number, state_number};
ghost use Rattle.dofn_traits.specs.Shelves.{is_shelf_strict, shelf_faults, HasEach, LacksOne};
ghost use Rattle.dofn_traits.specs.Shelves.{IsPlaced};

use crate::kinds::{FN_KINDS, SOURCE_KINDS, STATE_KINDS, fn_number, source_number, state_number};
use crate::{CallRefusal, DoFn, Emission, Found, Shelf, SplittableFn, StatefulFn};
use beam_values::{Args, Element, FnKind, List, LogInput, SourceKind, Span, StateKind, Value};
use keyed_state::KeyState;
use std::error::Error;
use std::fmt;
use std::marker::Model;
use timer_core::Timers;

const FNS: usize = FN_KINDS.len();

const SOURCES: usize = SOURCE_KINDS.len();

const STATES: usize = STATE_KINDS.len();

/// Why boxes make no shelf.
#[derive(Clone, Copy, Debug, PartialEq, Eq)]
pub enum ShelfRefusal {
    /// Some kind has no box.
    Missing,
}

impl fmt::Display for ShelfRefusal {
    ghost use Rattle.std.specs.Prelude.{Some, codes};

    ghost output = { λ _. Some (codes "some kind has no box") };

    fn fmt<W: fmt::Write>(&self, f: &mut fmt::Formatter<W>) -> fmt::Result {
        match self {
            ShelfRefusal::Missing => write!(f, "some kind has no box"),
        }
    }
}

impl Error for ShelfRefusal {}

/// A shelf of boxes, of which it uses the first of each kind. Contracts see the boxes.
#[derive(Drop)]
pub struct BoxShelf<D: DoFn, S: SplittableFn, T: StatefulFn> {
    fns: Vec<D>,
    splits: Vec<S>,
    states: Vec<T>,
    fn_places: [usize; FNS],
    split_places: [usize; SOURCES],
    state_places: [usize; STATES],
}

impl<D: DoFn, S: SplittableFn, T: StatefulFn> Model for BoxShelf<D, S, T> {
    ghost use Rattle.dofn_traits.specs.declared.box_shelf.TheConstants.{FNS, SOURCES, STATES};
    ghost use Rattle.dofn_traits.specs.Shelves.{Boxes, IsPlaced, fn_number, source_number};
    ghost use Rattle.dofn_traits.specs.Shelves.{state_number};

    ghost Value = { Boxes D S T };

    ghost view = { λ shelf. record {
      fns = shelf.fns.items;
      splits = shelf.splits.items;
      states = shelf.states.items;
    } };

    ghost invariant = { λ shelf.
        IsPlaced (λ box. fn_number (D.work box)) FNS shelf.fns.items shelf.fn_places
        × IsPlaced (λ box. source_number (S.work box)) SOURCES shelf.splits.items shelf.split_places
        × IsPlaced (λ box. state_number (T.work box))
        STATES shelf.states.items shelf.state_places };
}

impl<D: DoFn, S: SplittableFn, T: StatefulFn> BoxShelf<D, S, T> {
    /// Takes no memory.
    pub fn new(
        fns: List<D>,
        splits: List<S>,
        states: List<T>,
    ) -> Result<BoxShelf<D, S, T>, ShelfRefusal>
        ensures boxes { IfOk result
            (λ shelf. shelf ≡ record { fns = fns; splits = splits; states = states }) }
        ensures complete { OnOk result
            (HasEach D.work fns × HasEach S.work splits × HasEach T.work states) }
        ensures missing { OnErr result
            (LacksOne D.work fns ⊎ LacksOne S.work splits ⊎ LacksOne T.work states) }
    {
        let Some(fn_places) = fn_places(fns.as_slice()) else {
            return Err(ShelfRefusal::Missing);
        };
        let Some(split_places) = split_places(splits.as_slice()) else {
            return Err(ShelfRefusal::Missing);
        };
        let Some(state_places) = state_places(states.as_slice()) else {
            return Err(ShelfRefusal::Missing);
        };
        Ok(BoxShelf {
            fns: fns.into_vec(),
            splits: splits.into_vec(),
            states: states.into_vec(),
            fn_places,
            split_places,
            state_places,
        })
    }
}

// The place of the first box of each kind, by the kind's number.
fn fn_places<D: DoFn>(fns: &[D]) -> Option<[usize; FNS]>
    ensures placed { IfSome result (IsPlaced (λ box. fn_number (D.work box)) FNS fns.now) }
    ensures complete { OnSome result (HasEach D.work fns.now) }
    ensures missing { IfNone result (LacksOne D.work fns.now) }
{
    let mut places = [0; FNS];
    for number in 0..FNS {
        places[number] = fn_place(fns, number)?;
    }
    Some(places)
}

fn fn_place<D: DoFn>(fns: &[D], number: usize) -> Option<usize>
    ensures { result ≡ position (λ box. fn_number (D.work box) == number) fns.now }
{
    fns.iter()
        .position(|object| fn_number(object.kind()) == number)
}

fn split_places<S: SplittableFn>(splits: &[S]) -> Option<[usize; SOURCES]>
    ensures placed { IfSome result
        (IsPlaced (λ box. source_number (S.work box)) SOURCES splits.now) }
    ensures complete { OnSome result (HasEach S.work splits.now) }
    ensures missing { IfNone result (LacksOne S.work splits.now) }
{
    let mut places = [0; SOURCES];
    for number in 0..SOURCES {
        places[number] = split_place(splits, number)?;
    }
    Some(places)
}

fn split_place<S: SplittableFn>(splits: &[S], number: usize) -> Option<usize>
    ensures { result ≡ position (λ box. source_number (S.work box) == number) splits.now }
{
    splits
        .iter()
        .position(|object| source_number(object.kind()) == number)
}

fn state_places<T: StatefulFn>(states: &[T]) -> Option<[usize; STATES]>
    ensures placed { IfSome result (IsPlaced (λ box. state_number (T.work box)) STATES states.now) }
    ensures complete { OnSome result (HasEach T.work states.now) }
    ensures missing { IfNone result (LacksOne T.work states.now) }
{
    let mut places = [0; STATES];
    for number in 0..STATES {
        places[number] = state_place(states, number)?;
    }
    Some(places)
}

fn state_place<T: StatefulFn>(states: &[T], number: usize) -> Option<usize>
    ensures { result ≡ position (λ box. state_number (T.work box) == number) states.now }
{
    states
        .iter()
        .position(|object| state_number(object.kind()) == number)
}

impl<D: DoFn, S: SplittableFn, T: StatefulFn> Shelf for BoxShelf<D, S, T> {
    ghost faults = { shelf_faults D.faults S.faults T.faults };

    ghost strict = { is_shelf_strict D.work D.strict S.work S.strict T.work T.strict };

    fn start_bundle(&mut self) {
        for number in 0..FNS {
            let place = self.fn_places[number];
            self.fns[place].start_bundle();
        }
    }

    fn finish_bundle(&mut self) {
        for number in 0..FNS {
            let place = self.fn_places[number];
            self.fns[place].finish_bundle();
        }
    }

    fn call_fn(
        &mut self,
        kind: FnKind,
        args: &Args,
        e: &Element,
        out: &mut List<Element>,
    ) -> Result<(), CallRefusal> {
        let place = self.fn_places[fn_number(kind)];
        self.fns[place].call(args, e, out)
    }

    fn call_split(
        &mut self,
        kind: SourceKind,
        args: &Args,
        bytes: &[u8],
        base: u64,
        len: u64,
        p: u64,
        out: &mut Emission,
    ) -> Result<Found, CallRefusal> {
        let place = self.split_places[source_number(kind)];
        self.splits[place].call(args, bytes, base, len, p, out)
    }

    fn call_state(
        &mut self,
        kind: StateKind,
        args: &Args,
        key: &Value,
        span: Span,
        input: &LogInput,
        state: &mut KeyState,
        timers: &mut Timers,
        out: &mut List<Element>,
    ) -> Result<(), CallRefusal> {
        let place = self.state_places[state_number(kind)];
        self.states[place].call(args, key, span, input, state, timers, out)
    }
}
