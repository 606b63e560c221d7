ghost use Rattle.std.specs.Prelude.{◌≡◌, ◌<ℤ◌};
ghost use Rattle.std.specs.Option.{SomeIff};

use std::marker::Model;

/// A window: the milliseconds from `start` up to `end`, without `end`.
#[derive(Clone, Copy, Debug, PartialEq, Eq, PartialOrd, Ord)]
pub struct Span {
    start: i64,
    end: i64,
}

impl Model for Span {
    ghost use Rattle.std.specs.Prelude.{◌<ℤ◌};
    ghost use Rattle.beam_values.specs.Intervals.{Interval};

    ghost Value = { Interval };

    ghost view = { λ s. record { start = s.start; end = s.end } };

    ghost invariant = { λ s. s.start <ℤ s.end };

    ghost inverse = { λ v. record { start = v.start; end = v.end } };
}

impl Span {
    /// `None` exactly where `start` isn't below `end`.
    pub fn new(start: i64, end: i64) -> Option<Span>
        ensures { SomeIff result (start <ℤ end) (record { start = start; end = end }) }
    {
        if start < end {
            Some(Span { start, end })
        } else {
            None
        }
    }

    /// `new`, where the order of the ends is known.
    pub fn between(start: i64, end: i64) -> Span
        requires { start <ℤ end }
        ensures { result ≡ record { start = start; end = end } }
    {
        Span { start, end }
    }

    /// The start, in milliseconds; it belongs to the window.
    pub fn start(&self) -> i64
        ensures value { result ≡ self.now.start }
        ensures ordered { self.now.start <ℤ self.now.end }
    {
        self.start
    }

    /// The end, in milliseconds; it doesn't belong to the window.
    pub fn end(&self) -> i64
        ensures value { result ≡ self.now.end }
        ensures ordered { self.now.start <ℤ self.now.end }
    {
        self.end
    }
}
