ghost use Rattle.std.specs.Prelude.{◌≡◌, ◌<◌, ◌≤◌, [], ◌∷◌, length, IfOk, MatchOption};

use beam_values::{NoMemory, Time};
use std::alloc::Global;
use std::marker::Model;

/// How many positions a stretch has after its first one, at most.
pub const MOST: u32 = 63;

/// What was staged before a position.
#[derive(Clone, Copy, Debug, PartialEq, Eq)]
pub struct Before {
    pub p: u64,
    /// How many elements.
    pub count: usize,
    pub seen: Time,
}

/// What was staged before each position of a stretch. Contracts see the latest position first. All memory that it
/// needs is taken when it is made.
#[derive(Drop)]
pub struct Trail {
    positions: Vec<Before>,
}

impl Model for Trail {
    ghost use Rattle.std.specs.Prelude.{◌<◌, List, reverse, vec_capacity};
    ghost use Rattle.bundle_work.specs.declared.trail.Before.{Before};

    ghost Value = { List Before };

    ghost view = { λ trail. reverse trail.positions.items };

    ghost invariant = { λ trail. 63 < vec_capacity trail.positions };
}

impl Trail {
    ghost use Rattle.bundle_work.specs.Trails.{EndsBefore};

    pub fn new(alloc: Global) -> Result<Trail, NoMemory>
        ensures { IfOk result (λ trail. trail ≡ []) }
    {
        Ok(Trail {
            positions: Vec::with_capacity(alloc, MOST as usize + 1)?,
        })
    }

    pub fn clear(&mut self)
        ensures { self.new ≡ [] }
    {
        self.positions.clear();
    }

    /// Notes the next position. Takes no memory.
    pub fn push(&mut self, before: Before)
        requires { length self.old ≤ 63 }
        ensures { self.new ≡ before ∷ self.old }
    {
        self.positions.push_reserved(before);
    }

    /// Takes out the latest position, if it lies at `end` or behind it.
    pub fn pop_from(&mut self, end: u64) -> Option<Before>
        ensures { MatchOption result (EndsBefore end self.old × (self.new ≡ self.old))
            (λ before. (self.old ≡ before ∷ self.new) × (end ≤ before.p)) }
    {
        match self.positions.as_slice().last() {
            Some(before) if before.p >= end => self.positions.pop(),
            _ => None,
        }
    }
}
