//! How a pass steps aside for others. It lies beside the table: the pass and its note stay as they are.
ghost use Rattle.std.specs.Prelude.{◌≡◌};
ghost use Rattle.turn_desk.specs.Seen.{IsPassOf, note_of};

use crate::desk::{Desk, Pass};
use crate::held::Held;
use std::sync::Wait;
use std::{hint, thread};

// How often a pass that has nothing to do and can't park lets others run.
const SPINS: u32 = 63;

const YIELDS: u32 = 16;

impl<V: Held> Desk<V> {
    /// Where so many passes are active, or four if that is more, one that enters parks, until another pass lets it in.
    pub fn limit_active(&self, most: u64) {
        self.parking.limit_active(most);
    }

    /// The pass takes jobs from now on, and may park: at once, where enough others are active.
    pub fn enter<R: Wait>(&self, rt: &R, pass: &mut Pass<V>)
        requires desk { IsPassOf self.now pass.old }
        ensures desk { IsPassOf self.now pass.new }
        ensures note { note_of pass.new ≡ note_of pass.old }
    {
        self.parking.enter(rt, &mut pass.waits);
    }

    /// Before a job: where the pass's turns mostly had to wait, it parks until another pass lets it in. So passes that take
    /// turns on one thread could wait for one another.
    pub fn step_aside<R: Wait>(&self, rt: &R, pass: &mut Pass<V>)
        requires desk { IsPassOf self.now pass.old }
        ensures desk { IsPassOf self.now pass.new }
        ensures note { note_of pass.new ≡ note_of pass.old }
    {
        self.parking.step(rt, &mut pass.waits);
    }

    /// The pass has nothing to do just now, and parks as in `step_aside`, or lets others run.
    pub fn rest<R: Wait>(&self, rt: &R, pass: &mut Pass<V>)
        requires desk { IsPassOf self.now pass.old }
        ensures desk { IsPassOf self.now pass.new }
        ensures note { note_of pass.new ≡ note_of pass.old }
    {
        if !self.parking.rest(rt, &mut pass.waits) {
            give_way();
        }
    }

    /// The pass has a job of this kind. Where a phase of other jobs has begun, passes are let in again.
    pub fn turn_to<R: Wait>(&self, rt: &R, pass: &mut Pass<V>, kind: u32)
        requires desk { IsPassOf self.now pass.old }
        ensures desk { IsPassOf self.now pass.new }
        ensures note { note_of pass.new ≡ note_of pass.old }
    {
        self.parking.turn_to(rt, &mut pass.waits, kind);
    }

    /// The pass takes no more jobs, and as many others are let in as may be active.
    pub fn leave<R: Wait>(&self, rt: &R, pass: &mut Pass<V>)
        requires desk { IsPassOf self.now pass.old }
        ensures desk { IsPassOf self.now pass.new }
        ensures note { note_of pass.new ≡ note_of pass.old }
    {
        self.parking.leave(rt, &mut pass.waits);
    }
}

fn give_way() {
    for _ in 0..SPINS {
        hint::spin_loop();
    }
    for _ in 0..YIELDS {
        thread::yield_now();
    }
}
