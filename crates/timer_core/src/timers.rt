ghost use Rattle.std.specs.Prelude.{◌≡◌, ◌<◌, ◌≤ℤ◌, Some, None, slice_set, replicate, IfSome};
ghost use Rattle.std.specs.Prelude.{MatchOption};
ghost use Rattle.beam_values.specs.States.{timer_of, IsFirstTimer, IsNoneDue};
ghost use Rattle.timer_core.specs.FirstTimers.{IsNoneSet, IsLeastTime, earlier};

use beam_values::{Mark, Time, Timer};
use std::marker::Model;

/// How many timers there are; they are named from 0.
pub const TIMERS: u8 = 8;

/// The timers of one key and window.
#[derive(Clone, Copy, Debug, PartialEq, Eq)]
pub struct Timers {
    times: [Option<Time>; 8],
}

impl Model for Timers {
    ghost use Rattle.std.specs.Prelude.{◌≡◌, ℤ, length, Option, List as ListOf};
    ghost use Rattle.std.specs.Coded.{codes};

    ghost Value = { ListOf (Option ℤ) };

    ghost coded = { Prim.hlevel codes };

    ghost view = { λ t. t.times };

    ghost invariant = { λ t. length t.times ≡ 8 };

    ghost inverse = { λ times. record { times = times } };
}

impl Timers {
    /// No timer is set.
    pub fn new() -> Timers
        ensures { result ≡ replicate 8 None }
    {
        Timers { times: [None; 8] }
    }

    /// A timer that was set before is set anew.
    pub fn set(&mut self, name: u8, time: Time)
        requires { name < 8 }
        ensures { self.new ≡ slice_set self.old name (Some time) }
    {
        self.times[name as usize] = Some(time);
    }

    /// A timer that isn't set stays so.
    pub fn clear(&mut self, name: u8)
        requires { name < 8 }
        ensures { self.new ≡ slice_set self.old name None }
    {
        self.times[name as usize] = None;
    }

    /// The event time to which the timer is set; `None` where it isn't.
    pub fn time(&self, name: u8) -> Option<Time>
        requires { name < 8 }
        ensures { result ≡ timer_of self.now name }
    {
        self.times[name as usize]
    }

    /// The timer that fires first once the watermark is at `mark`. A timer is due at its own time.
    pub fn first_due(&self, mark: Mark) -> Option<Timer>
        ensures first { MatchOption result (IsNoneDue self.now mark)
            (λ timer. IsFirstTimer self.now timer × (timer.time ≤ℤ mark)) }
        ensures named { IfSome result (λ timer. timer.name < 8) }
    {
        let first = self.first()?;
        if first.time.ms() <= mark.ms() {
            Some(first)
        } else {
            None
        }
    }

    /// The least time to which a timer is set.
    pub fn least(&self) -> Option<Time>
        ensures { MatchOption result (IsNoneSet self.now) (IsLeastTime self.now) }
    {
        let first = self.first()?;
        Some(first.time)
    }

    fn first(&self) -> Option<Timer>
        ensures first { MatchOption result (IsNoneSet self.now) (IsFirstTimer self.now) }
        ensures named { IfSome result (λ timer. timer.name < 8) }
    {
        let times = &self.times;
        let mut first: Option<Timer> = None;
        for name in 0..TIMERS {
            first = earlier(first, name, times[name as usize]);
        }
        first
    }
}

fn earlier(first: Option<Timer>, name: u8, time: Option<Time>) -> Option<Timer>
    ensures { result ≡ earlier first name time }
{
    let Some(time) = time else {
        return first;
    };
    match first {
        Some(first) if first.time.ms() <= time.ms() => Some(first),
        _ => Some(Timer { name, time }),
    }
}
