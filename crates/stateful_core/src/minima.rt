ghost use Rattle.std.specs.Prelude.{◌≡◌, ◌<◌, ◌≤◌, ◌+◌, [], ◌∷◌, ◌++◌, drop, length, map};
ghost use Rattle.std.specs.Prelude.{MatchBool, OnOk, slice_get};
ghost use Rattle.std.specs.Int.{int_min};
ghost use Rattle.std.specs.VecDeque.{deque_capacity, deque_len};
ghost use Rattle.stateful_core.specs.Minima.{AreJoined, AreRising, IsAbove, IsBelow, IsPopped, lowered, spread};

use beam_values::{Mark, NoMemory};
use std::alloc::Global;
use std::collections::VecDeque;
use std::marker::Model;

/// So many elements, side by side, with the same least.
#[derive(Clone, Copy, Debug)]
pub struct Run {
    pub count: usize,
    pub least: Mark,
}

/// Of each element of a queue the least hold of it and all behind it. None is lower than one in front of it,
/// so those that are the same lie side by side, and each is kept once.
#[derive(Debug, Drop)]
pub struct Minima {
    runs: VecDeque<Run>,
}

impl Model for Minima {
    ghost use Rattle.std.specs.Prelude.{◌-◌};
    ghost use Rattle.std.specs.Coded.{codes};
    ghost use Rattle.std.specs.VecDeque.{deque_capacity, deque_len};
    ghost use Rattle.stateful_core.specs.Minima.{AreRising, SeenMinima, spread};

    ghost Value = { SeenMinima };

    ghost coded = { Prim.hlevel codes };

    ghost view = { λ m. record {
      lows = spread m.runs.items;
      room = deque_capacity m.runs - deque_len m.runs;
    } };

    ghost invariant = { λ m. AreRising m.runs.items };
}

impl Minima {
    /// Takes no memory.
    pub fn new(alloc: Global) -> Minima
        ensures { result.lows ≡ [] }
    {
        Minima {
            runs: VecDeque::new(alloc),
        }
    }

    /// The least hold of the elements behind the first so many, if there are any. Looks at no more runs than
    /// these can have, and one.
    pub fn behind(&self, from: usize) -> Option<Mark>
        ensures { result ≡ slice_get self.now.lows from }
    {
        behind(&self.runs, from)
    }

    /// The first element leaves. Takes no memory.
    pub fn remove_first(&mut self)
        ensures lows { self.new.lows ≡ drop 1 self.old.lows }
        ensures room { self.old.room ≤ self.new.room }
    {
        remove_first(&mut self.runs);
    }

    /// Keeps room for so many more elements.
    pub fn reserve(&mut self, more: usize) -> Result<(), NoMemory>
        ensures lows { self.new.lows ≡ self.old.lows }
        ensures room { self.old.room ≤ self.new.room }
        ensures ok { OnOk result (more ≤ self.new.room) }
    {
        self.runs.reserve(more)?;
        Ok(())
    }

    /// An element with this hold comes behind the others, where room is kept for it.
    pub fn add_kept(&mut self, hold: Mark)
        requires room { 0 < self.old.room }
        requires few { length self.old.lows < 18446744073709551615 }
        ensures lows { self.new.lows ≡ map (int_min hold) self.old.lows ++ hold ∷ [] }
        ensures used { self.old.room ≤ self.new.room + 1 }
    {
        let count = join_high(&mut self.runs, hold);
        self.runs.push_back_reserved(Run { count, least: hold });
    }
}

/// The lesser of a mark and another, where there is one.
pub fn lowered(mark: Mark, other: Option<Mark>) -> Mark
    ensures { result ≡ lowered mark other }
{
    match other {
        Some(other) => mark.min(other),
        None => mark,
    }
}

fn behind(runs: &VecDeque<Run>, from: usize) -> Option<Mark>
    ensures { result ≡ slice_get (spread runs.now.items) from }
{
    let mut left = from;
    for k in 0..runs.len() {
        let run = runs[k];
        if left < run.count {
            return Some(run.least);
        }
        left -= run.count;
    }
    None
}

fn remove_first(runs: &mut VecDeque<Run>)
    requires { AreRising runs.old.items }
    ensures lows { spread runs.new.items ≡ drop 1 (spread runs.old.items) }
    ensures rising { AreRising runs.new.items }
    ensures len { deque_len runs.new ≤ deque_len runs.old }
    ensures capacity { deque_capacity runs.new ≡ deque_capacity runs.old }
{
    let Some(first) = runs.pop_front() else {
        return;
    };
    if first.count > 1 {
        runs.push_front_reserved(Run {
            count: first.count - 1,
            least: first.least,
        });
    }
}

/// Takes out the last runs that are no lower than a hold: so many elements have it then, with its own.
fn join_high(runs: &mut VecDeque<Run>, hold: Mark) -> usize
    requires rising { AreRising runs.old.items }
    requires few { length (spread runs.old.items) < 18446744073709551615 }
    ensures joined { AreJoined hold runs.old.items runs.new.items result }
    ensures len { deque_len runs.new ≤ deque_len runs.old }
    ensures capacity { deque_capacity runs.new ≡ deque_capacity runs.old }
{
    let mut count = 1;
    while let Some(last) = pop_high(runs, hold) {
        count += last.count;
    }
    count
}

/// Takes out the last run, where it is no lower than a hold.
fn pop_high(runs: &mut VecDeque<Run>, hold: Mark) -> Option<Run>
    ensures popped { IsPopped hold runs.old.items runs.new.items result }
    ensures capacity { deque_capacity runs.new ≡ deque_capacity runs.old }
{
    if is_low(runs, hold) {
        return None;
    }
    runs.pop_back()
}

/// Whether there is no run, or the last is lower than a hold.
fn is_low(runs: &VecDeque<Run>, hold: Mark) -> bool
    ensures { MatchBool result (IsBelow hold runs.now.items) (IsAbove hold runs.now.items
        × (0 < deque_len runs.now)) }
{
    match runs.back() {
        Some(last) => last.least < hold,
        None => true,
    }
}
