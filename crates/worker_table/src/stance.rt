//! How a pass stands beside the desk, so that not all crowd it at once.
ghost use Rattle.std.specs.Prelude.{◌≡◌};
ghost use Rattle.turn_desk.specs.Seen.{IsPassOf, note_of};

use crate::held::Shared;
use std::sync::Wait;
use turn_desk::{Desk, Pass};

/// Before a turn or after it. Each is the desk's call of that name.
#[derive(Clone, Copy, Debug)]
pub enum Stance {
    Stays,
    Enters,
    StepsAside,
    Rests,
    /// A job of this kind is worked.
    TurnsTo(u32),
    Leaves,
}

impl Stance {
    /// Most acts let their pass stay, so that nothing is left of this call.
    #[inline(always)]
    pub fn stand<R: Wait>(self, rt: &R, desk: &Desk<Shared>, pass: &mut Pass<Shared>)
        requires desk { IsPassOf desk.now pass.old }
        ensures desk { IsPassOf desk.now pass.new }
        ensures note { note_of pass.new ≡ note_of pass.old }
    {
        match self {
            Stance::Stays => {}
            Stance::Enters => desk.enter(rt, pass),
            Stance::StepsAside => desk.step_aside(rt, pass),
            Stance::Rests => desk.rest(rt, pass),
            Stance::TurnsTo(kind) => desk.turn_to(rt, pass, kind),
            Stance::Leaves => desk.leave(rt, pass),
        }
    }
}
