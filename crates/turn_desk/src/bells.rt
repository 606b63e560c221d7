//! Where passes that wait for their turn sleep, and how they are woken. Contracts see nothing of it: a pass that
//! is woken looks at the ticket that is served before it goes on, and so does one that wakes for no reason.
use std::sync::Wait;
use std::sync::atomic::{AtomicU64, Ordering};
use std::{array, hint, thread};

// Passes whose tickets leave the same remainder share a bell; those of parked passes go by their numbers. More than FAR, so that
// of those only one at a time asks, and a divisor of 2^64, at which tickets begin anew.
pub const COUNT: usize = 16;

// What a bell says: whether a pass asked to be woken that wasn't since.
const QUIET: u64 = 0;

const ASKED: u64 = 1;

// A pass with at most so many turns before its own looks again at once: so it is on a processor as its turn comes, and
// seldom has to be woken.
const NEAR: u64 = 2;

// How often it does so before it sleeps, since the pass in turn may be off its processor where other programs run.
const LOOKS: u32 = 6000;

// A pass with more turns than this before its own lets others run and looks again, and never sleeps: where turns are
// short a sleep costs more than it waits.
const FAR: u64 = 3;

// A turn that came after fewer looks than this didn't have to wait.
const LONG: u32 = 32;

/// A bell for each of sixteen tickets in a row.
#[derive(Drop)]
pub struct Bells {
    bells: [AtomicU64; COUNT],
}

impl Bells {
    pub fn new() -> Bells {
        Bells {
            bells: array::from_fn(|_| AtomicU64::new(QUIET)),
        }
    }

    fn bell(&self, ticket: u64) -> &AtomicU64 {
        &self.bells[(ticket % COUNT as u64) as usize]
    }

    pub fn ask(&self, ticket: u64) {
        self.bell(ticket).store(ASKED, Ordering::SeqCst);
    }

    /// Whether a pass asked to be woken that wasn't since.
    pub fn is_asked(&self, ticket: u64) -> bool {
        self.bell(ticket).load(Ordering::SeqCst) == ASKED
    }

    /// The one that asked needn't be woken.
    pub fn forget(&self, ticket: u64) {
        self.bell(ticket).store(QUIET, Ordering::SeqCst);
    }

    /// Sleeps until the bell is rung, unless it was since the pass asked. It may end for no reason.
    pub fn sleep<R: Wait>(&self, rt: &R, ticket: u64) {
        self.bell(ticket).park(rt, ASKED as u32);
    }

    /// The word changes before the wake: so who finds it changed needn't sleep, and who sleeps is woken after it.
    pub fn ring(&self, ticket: u64) {
        if self.is_asked(ticket) {
            self.forget(ticket);
            self.bell(ticket).wake_all();
        }
    }

    /// The turn of this ticket has ended, where so many tickets were drawn. Wakes the pass whose turn it is now and the
    /// one whose turn comes near.
    pub fn ring_after(&self, ended: u64, drawn: u64) {
        let left = drawn.wrapping_sub(ended);
        if left > 1 {
            self.ring(ended.wrapping_add(1));
        }
        if left > NEAR + 1 {
            self.ring(ended.wrapping_add(NEAR + 1));
        }
    }
}

/// What a pass does between two looks at the ticket that is served.
#[derive(Drop)]
pub struct Pause {
    looks: u32,
    has_asked: bool,
    has_slept: bool,
    has_given_way: bool,
}

impl Pause {
    pub fn new() -> Pause {
        Pause {
            looks: 0,
            has_asked: false,
            has_slept: false,
            has_given_way: false,
        }
    }

    /// How much the turn counts among those that had to wait. One that came after a few looks is none.
    pub fn weight(&self) -> u32 {
        if self.has_given_way {
            16
        } else if self.has_slept {
            4
        } else {
            u32::from(self.looks >= LONG)
        }
    }

    /// Before it sleeps a pass asks to be woken and looks once more: who ends a turn after that look finds that it asked, or
    /// finds the word of one who rang since and wakes it.
    pub fn step<R: Wait>(&mut self, rt: &R, bells: &Bells, ticket: u64, serving: u64) {
        let before = ticket.wrapping_sub(serving);
        if before <= NEAR && self.looks < LOOKS {
            self.looks += 1;
            hint::spin_loop();
        } else if before > FAR {
            thread::yield_now();
            self.has_given_way = true;
        } else if self.has_asked {
            bells.sleep(rt, ticket);
            self.looks = 0;
            self.has_asked = false;
            self.has_slept = true;
        } else {
            bells.ask(ticket);
            self.has_asked = true;
        }
    }
}
