ghost use Rattle.std.specs.Prelude.{◌≡◌, ◌<◌, ◌-◌, Some, [], ◌∷◌, ◌++◌, length, drop, slice_index_or, slice_set};
ghost use Rattle.std.specs.Prelude.{IfOk, OnOk, OnErr};
ghost use Rattle.mark_trees.specs.Halves.{AreLevels, IsUnder, first_due, least_of, lowest};
ghost use Rattle.mark_trees.specs.Levels.{lists_of};
ghost use Rattle.mark_trees.specs.declared.twin_marks.TwinMarks.{TwinMarks as TwinMarksOf};

use crate::levels::{first_of_pair, grow, keep_room, level_at, put_up};
use crate::twin_marks::{TwinMarks, is_due, lesser};
use beam_values::{Mark, NoMemory};
use std::alloc::Global;
use std::marker::Model;

/// A list of marks that tells its least, and the first that is due at a bound, in as many steps as its length
/// can be halved.
#[derive(Debug, Drop)]
pub struct LeastTree {
    // The list, and those over it.
    levels: Vec<Vec<TwinMarks>>,
    alloc: Global,
}

impl Model for LeastTree {
    ghost use Rattle.std.specs.Prelude.{List as ListOf};
    ghost use Rattle.std.specs.Coded.{codes};
    ghost use Rattle.mark_trees.specs.Halves.{AreLevels, lowest};
    ghost use Rattle.mark_trees.specs.Levels.{lists_of};
    ghost use Rattle.mark_trees.specs.declared.twin_marks.TwinMarks.{TwinMarks as TwinMarksOf};

    ghost Value = { ListOf TwinMarksOf };

    ghost coded = { Prim.hlevel codes };

    ghost view = { λ t. lowest (lists_of t.levels.items) };

    ghost invariant = { λ t. AreLevels (lists_of t.levels.items) };
}

impl LeastTree {
    /// Takes no memory.
    pub fn new(alloc: Global) -> LeastTree
        ensures { result ≡ [] }
    {
        LeastTree {
            levels: Vec::new(alloc),
            alloc,
        }
    }

    pub fn len(&self) -> usize
        ensures { result ≡ length self.now }
    {
        match self.levels.first() {
            Some(lowest) => lowest.len(),
            None => 0,
        }
    }

    /// What stands at a place.
    pub fn get(&self, at: usize) -> TwinMarks
        requires { at < length self.now }
        ensures { (d : TwinMarksOf) → result ≡ slice_index_or self.now at d }
    {
        self.levels[0][at]
    }

    /// The least of all, of each mark by itself; FINAL where there is none.
    pub fn least(&self) -> TwinMarks
        ensures { result ≡ least_of self.now }
    {
        match self.levels.last() {
            Some(highest) => least_among(highest.as_slice()),
            None => TwinMarks::NONE,
        }
    }

    /// The first place that is due at a bound.
    pub fn first_due(&self, bound: Mark) -> Option<usize>
        ensures { result ≡ first_due bound self.now }
    {
        if self.levels.is_empty() {
            return None;
        }
        let highest = level_at(&self.levels, self.levels.len() - 1);
        let at = first_among(highest, bound)?;
        Some(first_under(&self.levels, at, bound))
    }

    /// Puts marks in the place of others. Takes no memory.
    pub fn set(&mut self, at: usize, marks: TwinMarks)
        requires { at < length self.old }
        ensures { self.new ≡ slice_set self.old at marks }
    {
        put_up(&mut self.levels, at, marks);
    }

    /// Adds marks behind the last.
    pub fn push(&mut self, marks: TwinMarks) -> Result<(), NoMemory>
        ensures ok { OnOk result (self.new ≡ self.old ++ marks ∷ []) }
        ensures err { OnErr result (self.new ≡ self.old) }
    {
        let at = self.len();
        grow(self.alloc, &mut self.levels, at)?;
        keep_room(&mut self.levels)?;
        put_up(&mut self.levels, at, marks);
        Ok(())
    }
}

/// The first place of the lowest list that is due, where this is the first of the highest.
fn first_under(levels: &Vec<Vec<TwinMarks>>, highest: usize, bound: Mark) -> usize
    requires levels { AreLevels (lists_of levels.now.items) }
    requires some { 0 < length levels.now.items }
    requires over { first_due bound (lowest (drop (length levels.now.items - 1)
        (lists_of levels.now.items))) ≡ Some highest }
    ensures { first_due bound (lowest (lists_of levels.now.items)) ≡ Some result }
{
    let mut at = highest;
    for over in 1..levels.len() {
        let level = level_at(levels, levels.len() - 1 - over);
        at = first_of_pair(level, at, bound);
    }
    at
}

fn first_among(level: &[TwinMarks], bound: Mark) -> Option<usize>
    ensures { result ≡ first_due bound level.now }
{
    for at in 0..level.len() {
        if is_due(bound, level[at]) {
            return Some(at);
        }
    }
    None
}

fn least_among(level: &[TwinMarks]) -> TwinMarks
    ensures { result ≡ least_of level.now }
{
    let mut least = TwinMarks::NONE;
    for marks in level {
        least = lesser(least, *marks);
    }
    least
}
