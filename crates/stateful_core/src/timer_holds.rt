ghost use Rattle.std.specs.Prelude.{◌≡◌, ◌<◌, replicate, slice_set, None, Some, length};
ghost use Rattle.beam_values.specs.States.{timer_of};
ghost use Rattle.stateful_core.specs.Placing.{held_timer, timer_hold_after, timer_holds_after};
ghost use Rattle.beam_model.specs.Holds.{hold_of_timer};

use beam_values::{Mark, Time};
use std::marker::Model;
use timer_core::Timers;

/// Of each timer that is set, the mark at which it holds its node back.
#[derive(Clone, Copy, Debug, PartialEq, Eq)]
pub struct TimerHolds {
    marks: [Option<Mark>; 8],
}

impl Model for TimerHolds {
    ghost use Rattle.std.specs.Prelude.{◌≡◌, ℤ, length, Option, List as ListOf};
    ghost use Rattle.std.specs.Coded.{codes};

    ghost Value = { ListOf (Option ℤ) };

    ghost coded = { Prim.hlevel codes };

    ghost view = { λ t. t.marks };

    ghost invariant = { λ t. length t.marks ≡ 8 };

    ghost inverse = { λ marks. record { marks = marks } };
}

impl TimerHolds {
    /// No timer is set.
    pub fn new() -> TimerHolds
        ensures { result ≡ replicate 8 None }
    {
        TimerHolds { marks: [None; 8] }
    }

    /// The mark at which a timer holds its node back.
    pub fn get(&self, name: u8) -> Option<Mark>
        requires { name < 8 }
        ensures value { result ≡ timer_of self.now name }
        ensures sized { length self.now ≡ 8 }
    {
        self.marks[name as usize]
    }

    /// A timer that is set holds its node back at this mark.
    pub fn set(&mut self, name: u8, mark: Mark)
        requires { name < 8 }
        ensures { self.new ≡ slice_set self.old name (Some mark) }
    {
        self.marks[name as usize] = Some(mark);
    }

    /// The holds after a commit, where these timers were set before it and those after it, and the node's
    /// mark was `before`.
    pub fn after(&self, before: Mark, old: &Timers, new: &Timers) -> TimerHolds
        ensures { result ≡ timer_holds_after before self.now old.now new.now }
    {
        TimerHolds {
            marks: [
                self.at(before, old, new, 0),
                self.at(before, old, new, 1),
                self.at(before, old, new, 2),
                self.at(before, old, new, 3),
                self.at(before, old, new, 4),
                self.at(before, old, new, 5),
                self.at(before, old, new, 6),
                self.at(before, old, new, 7),
            ],
        }
    }

    fn at(&self, before: Mark, old: &Timers, new: &Timers, name: u8) -> Option<Mark>
        requires { name < 8 }
        ensures { result ≡ timer_hold_after before (timer_of self.now name) (timer_of old.now name) (timer_of new.now name) }
    {
        let marks = &self.marks;
        hold_after(before, marks[name as usize], old.time(name), new.time(name))
    }
}

fn hold_after(
    before: Mark,
    hold: Option<Mark>,
    old: Option<Time>,
    new: Option<Time>,
) -> Option<Mark>
    ensures { result ≡ timer_hold_after before hold old new }
{
    let time = new?;
    Some(hold_of_timer(before, time, old, hold))
}

fn hold_of_timer(before: Mark, time: Time, old: Option<Time>, hold: Option<Mark>) -> Mark
    ensures { result ≡ hold_of_timer before time (held_timer old hold) }
{
    let anew = Mark::at(time).max(before);
    let Some(old) = old else {
        return anew;
    };
    let Some(hold) = hold else {
        return anew;
    };
    if old == time { hold } else { anew }
}
