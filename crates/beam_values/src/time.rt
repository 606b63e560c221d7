ghost use Rattle.std.specs.Prelude.{◌≡◌, ◌↔◌, IsTrue};
ghost use Rattle.std.specs.Option.{SomeIff};
ghost use Rattle.beam_values.specs.Times.{IsTime, IsMark, final_mark};

use std::marker::Model;

/// A point in event time: a number of milliseconds from -9223372036854775 to 9223372036854775.
#[derive(Clone, Copy, Debug, PartialEq, Eq, PartialOrd, Ord)]
pub struct Time {
    ms: i64,
}

impl Model for Time {
    ghost use Rattle.std.specs.Prelude.{ℤ};
    ghost use Rattle.std.specs.Coded.{coded_ℤ};
    ghost use Rattle.beam_values.specs.Times.{IsTime};

    ghost Value = { ℤ };

    ghost coded = { coded_ℤ };

    ghost view = { λ t. t.ms };

    ghost invariant = { λ t. IsTime t.ms };

    ghost inverse = { λ ms. record { ms = ms } };
}

impl Time {
    /// The least time, in milliseconds. As microseconds it just fits into 64 bits.
    pub const LEAST_MS: i64 = -9_223_372_036_854_775;

    /// The greatest time, in milliseconds: as far above 0 as the least is below.
    pub const GREATEST_MS: i64 = 9_223_372_036_854_775;

    /// The earliest time. It stands for what was seen before anything was read.
    pub const LEAST: Time = Time { ms: Time::LEAST_MS };

    /// The latest time. `Mark::FINAL` is above it.
    pub const GREATEST: Time = Time {
        ms: Time::GREATEST_MS,
    };

    /// `None` exactly where `ms` is out of the bounds of a time.
    pub fn new(ms: i64) -> Option<Time>
        ensures { SomeIff result (IsTime ms) ms }
    {
        if Time::LEAST_MS <= ms && ms <= Time::GREATEST_MS {
            Some(Time { ms })
        } else {
            None
        }
    }

    /// Its milliseconds, which may be below 0.
    pub fn ms(&self) -> i64
        ensures value { result ≡ self.now }
        ensures within { IsTime self.now }
    {
        self.ms
    }
}

/// A watermark: a time, or `FINAL`, which is above the end of every window.
#[derive(Clone, Copy, Debug, PartialEq, Eq, PartialOrd, Ord)]
pub struct Mark {
    ms: i64,
}

impl Model for Mark {
    ghost use Rattle.std.specs.Prelude.{ℤ};
    ghost use Rattle.std.specs.Coded.{coded_ℤ};
    ghost use Rattle.beam_values.specs.Times.{IsMark};

    ghost Value = { ℤ };

    ghost coded = { coded_ℤ };

    ghost view = { λ m. m.ms };

    ghost invariant = { λ m. IsMark m.ms };

    ghost inverse = { λ ms. record { ms = ms } };
}

impl Mark {
    /// The mark of a node to which nothing more comes. It is above each time.
    pub const FINAL: Mark = Mark { ms: i64::MAX };

    /// Whether it is `FINAL`: nothing more comes.
    pub fn is_final(&self) -> bool
        ensures { IsTrue result ↔ (self.now ≡ final_mark) }
    {
        self.ms == Mark::FINAL.ms
    }

    /// The mark at a time, which is never `FINAL`.
    pub fn at(time: Time) -> Mark
        ensures { result ≡ time }
    {
        Mark { ms: time.ms() }
    }

    /// Its milliseconds; those of `FINAL` are 2^63 - 1.
    pub fn ms(&self) -> i64
        ensures value { result ≡ self.now }
        ensures within { IsMark self.now }
    {
        self.ms
    }
}
