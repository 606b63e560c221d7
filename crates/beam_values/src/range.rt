ghost use Rattle.std.specs.Prelude.{◌≡◌, ◌≤◌};
ghost use Rattle.std.specs.Option.{SomeIff};

use std::marker::Model;

/// A restriction: the offsets from `from` up to `to`, without `to`.
#[derive(Clone, Copy, Debug, PartialEq, Eq, PartialOrd, Ord)]
pub struct Range {
    from: u64,
    to: u64,
}

impl Model for Range {
    ghost use Rattle.std.specs.Prelude.{◌≤◌};
    ghost use Rattle.beam_values.specs.Intervals.{Offsets};

    ghost Value = { Offsets };

    ghost view = { λ r. record { from = r.from; to = r.to } };

    ghost invariant = { λ r. r.from ≤ r.to };

    ghost inverse = { λ v. record { from = v.from; to = v.to } };
}

impl Range {
    /// `None` exactly where `from` is above `to`.
    pub fn new(from: u64, to: u64) -> Option<Range>
        ensures { SomeIff result (from ≤ to) (record { from = from; to = to }) }
    {
        if from <= to {
            Some(Range { from, to })
        } else {
            None
        }
    }

    /// `new`, where the order of the ends is known.
    pub fn between(from: u64, to: u64) -> Range
        requires { from ≤ to }
        ensures { result ≡ record { from = from; to = to } }
    {
        Range { from, to }
    }

    /// The offset at which it starts; it belongs to the restriction, unless that is empty.
    pub fn from(&self) -> u64
        ensures value { result ≡ self.now.from }
        ensures ordered { self.now.from ≤ self.now.to }
    {
        self.from
    }

    /// The offset at which it ends; it doesn't belong to the restriction.
    pub fn to(&self) -> u64
        ensures value { result ≡ self.now.to }
        ensures ordered { self.now.from ≤ self.now.to }
    {
        self.to
    }
}
