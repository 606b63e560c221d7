//! Which passes step aside where turns are crowded. A turn is handed over in the order of the tickets, so each hand-over has
//! to wait until the next pass is on a processor: a pass whose turns mostly had to wait parks before its next job, and is let
//! in again as waits vanish. Contracts see nothing of it.
use crate::bells::{Bells, COUNT, Pause};
use std::sync::Wait;
use std::sync::atomic::{AtomicBool, AtomicU64, Ordering};

// What one active pass counts in the state, above a bit for each parked one.
const ACTIVE: u64 = 1 << 32;

const PARKED: u64 = ACTIVE - 1;

// So many turns are a window, after which a pass looks whether it parks. The first one is shorter, and so is the first one after
// it was let in again: where sixteen workers start at once, those that are too many are soon gone.
const WINDOW: u32 = 64;

const FIRST_WINDOW: u32 = 16;

// No pass parks before so many turns were taken in all, nor counts them, since many come at once at the start. So a gate that
// holds one worker until another got on doesn't wait for a parked one.
const START: u64 = 64;

// So many passes may be active at least, however few processors there are: as many as a run has workers where it isn't told,
// and more than a gate may hold.
const LEAST_ACTIVE: u64 = 4;

// So many calm windows of one pass in a row let in another one, at first and at most.
const LEAST_NEED: u64 = 2;

const MOST_NEED: u64 = 64;

/// What a pass counts of its own turns.
#[derive(Clone, Copy, Drop)]
pub struct Waits {
    // Its number among all passes that were split off.
    number: u64,
    // Whether it is one of those that may park.
    is_in: bool,
    // The ticket of its last turn.
    ticket: u64,
    // The turns of its window, and those that had to wait, by their weights.
    turns: u32,
    waited: u32,
    // How many windows in a row were calm.
    calm: u32,
    // Whether it has had no window yet, or none since it was let in again.
    is_new: bool,
    // What it last worked on, and for which work it last let others in.
    kind: Option<u32>,
    let_in_for: Option<u32>,
}

// How many turns of a window had to wait.
#[derive(Clone, Copy, PartialEq, Eq)]
enum Share {
    // One in five or more.
    Crowded,
    Mixed,
    // Fewer than one in ten.
    Calm,
}

impl Waits {
    // Of the first pass, which takes no jobs.
    pub fn first() -> Waits {
        Waits::new(u64::MAX)
    }

    fn new(number: u64) -> Waits {
        Waits {
            number,
            is_in: false,
            ticket: 0,
            turns: 0,
            waited: 0,
            calm: 0,
            is_new: true,
            kind: None,
            let_in_for: None,
        }
    }

    /// The turn of this ticket has come, at once or after this pause.
    #[inline(always)]
    pub fn count(&mut self, ticket: u64, pause: &Pause) {
        self.ticket = ticket;
        if self.has_started() {
            let weight = pause.weight();
            self.turns = self.turns.saturating_add(weight.max(1));
            self.waited = self.waited.saturating_add(weight);
        }
    }

    fn has_started(&self) -> bool {
        self.ticket >= START
    }

    fn has_window(&self) -> bool {
        let least = if self.is_new { FIRST_WINDOW } else { WINDOW };
        self.turns >= least
    }

    fn end_window(&mut self) -> Share {
        let (turns, waited) = (self.turns, self.waited);
        self.turns = 0;
        self.waited = 0;
        if waited.saturating_mul(5) >= turns {
            self.calm = 0;
            Share::Crowded
        } else if waited.saturating_mul(10) >= turns {
            self.calm = 0;
            Share::Mixed
        } else {
            self.calm = self.calm.saturating_add(1);
            Share::Calm
        }
    }

    // It begins to count anew.
    fn clear(&mut self) {
        self.turns = 0;
        self.waited = 0;
        self.calm = 0;
    }

    // Whether this is its second job in a row of a kind for which it didn't last let others in. So phases of a run count, and
    // jobs that change their kind all the time don't.
    fn begins_phase(&mut self, kind: u32) -> bool {
        let is_second = self.kind == Some(kind);
        let begins = is_second && self.let_in_for != Some(kind);
        self.kind = Some(kind);
        if begins {
            self.let_in_for = Some(kind);
        }
        begins
    }
}

/// Who is parked, and how many are active.
#[derive(Drop)]
pub struct Parking {
    state: AtomicU64,
    // How many passes were split off.
    passes: AtomicU64,
    // From how many active ones on one that enters parks, and none is let in until one parks or has ended.
    most_active: AtomicU64,
    // How many calm windows in a row let one in, and whether that ever was.
    calm_needed: AtomicU64,
    ever_let_in: AtomicBool,
    bells: Bells,
}

impl Parking {
    pub fn new() -> Parking {
        Parking {
            state: AtomicU64::new(0),
            passes: AtomicU64::new(0),
            most_active: AtomicU64::new(u64::MAX),
            calm_needed: AtomicU64::new(LEAST_NEED),
            ever_let_in: AtomicBool::new(false),
            bells: Bells::new(),
        }
    }

    /// Of a pass that is split off.
    pub fn next_waits(&self) -> Waits {
        Waits::new(self.passes.fetch_add(1, Ordering::SeqCst))
    }

    /// Where so many passes are active, another one waits.
    pub fn limit_active(&self, most: u64) {
        let most = most.max(LEAST_ACTIVE);
        self.most_active.store(most, Ordering::SeqCst);
    }

    /// The pass is active from now on, or parks where enough others are. One for which there is no bell takes no part.
    pub fn enter<R: Wait>(&self, rt: &R, waits: &mut Waits) {
        if waits.is_in || waits.number >= COUNT as u64 {
            return;
        }
        let has_room = self.has_room();
        waits.is_in = true;
        self.state.fetch_add(ACTIVE, Ordering::SeqCst);
        if !has_room {
            self.park(rt, waits);
        }
    }

    /// Before a job: the pass parks where the turns of its window were crowded, and where they were calm, and others before
    /// them, it lets one in.
    pub fn step<R: Wait>(&self, rt: &R, waits: &mut Waits) {
        if !waits.is_in || !waits.has_window() {
            return;
        }
        if waits.end_window() == Share::Crowded {
            if waits.number != 0 && self.ever_let_in.load(Ordering::SeqCst) {
                self.need(self.calm_needed().saturating_mul(2));
            }
            self.park(rt, waits);
            return;
        }
        if waits.is_new {
            waits.is_new = false;
            self.need(self.calm_needed() / 2);
        }
        if u64::from(waits.calm) >= self.calm_needed() && self.has_parked() && self.has_room() {
            waits.calm = 0;
            self.ever_let_in.store(true, Ordering::SeqCst);
            self.let_in(rt);
        }
    }

    /// The pass has nothing to do, so how its turns came tells nothing. Answers whether it was parked meanwhile.
    pub fn rest<R: Wait>(&self, rt: &R, waits: &mut Waits) -> bool {
        waits.clear();
        waits.is_in && waits.has_started() && self.park(rt, waits)
    }

    /// The pass has a job of this kind. Where another phase of the run has begun, as many are let in as may be active.
    pub fn turn_to<R: Wait>(&self, rt: &R, waits: &mut Waits, kind: u32) {
        if waits.begins_phase(kind) {
            self.need(LEAST_NEED);
            self.fill(rt);
        }
    }

    /// The pass has ended: it is counted out first, and then as many are let in as may be active. Where more were active
    /// than that, none is.
    pub fn leave<R: Wait>(&self, rt: &R, waits: &mut Waits) {
        if waits.is_in {
            waits.is_in = false;
            self.state.fetch_sub(ACTIVE, Ordering::SeqCst);
        }
        self.fill(rt);
    }

    fn calm_needed(&self) -> u64 {
        self.calm_needed.load(Ordering::SeqCst)
    }

    // From now on as many are needed, within the bounds.
    fn need(&self, calm: u64) {
        let calm = calm.clamp(LEAST_NEED, MOST_NEED);
        self.calm_needed.store(calm, Ordering::SeqCst);
    }

    fn has_parked(&self) -> bool {
        self.state.load(Ordering::SeqCst) & PARKED != 0
    }

    fn has_room(&self) -> bool {
        self.state.load(Ordering::SeqCst) / ACTIVE < self.most_active.load(Ordering::SeqCst)
    }

    // Sleeps until it is let in. The first one never parks, nor does the last one that is active.
    fn park<R: Wait>(&self, rt: &R, waits: &mut Waits) -> bool {
        let number = waits.number;
        if number == 0 || !self.stand_aside(number) {
            return false;
        }
        for _ in rt.forever() {
            if !self.bells.is_asked(number) {
                break;
            }
            self.bells.sleep(rt, number);
        }
        waits.clear();
        waits.is_new = true;
        true
    }

    // It asks to be woken before its bit is seen, so who lets it in finds that it asked.
    fn stand_aside(&self, number: u64) -> bool {
        self.bells.ask(number);
        let state = self.state.load(Ordering::SeqCst);
        let parked = state.wrapping_sub(ACTIVE) | bit(number);
        let order = Ordering::SeqCst;
        let stands_aside = state / ACTIVE > 1
            && self
                .state
                .compare_exchange(state, parked, order, order)
                .is_ok();
        if !stands_aside {
            self.bells.forget(number);
        }
        stands_aside
    }

    // Lets in as many as may be active.
    fn fill<R: Wait>(&self, rt: &R) {
        for _ in rt.forever() {
            if !self.has_room() || !self.let_in(rt) {
                break;
            }
        }
    }

    // Lets in the parked one with the least number. Answers whether there was one.
    fn let_in<R: Wait>(&self, rt: &R) -> bool {
        for _ in rt.forever() {
            let state = self.state.load(Ordering::SeqCst);
            if state & PARKED == 0 {
                break;
            }
            let number = u64::from(state.trailing_zeros());
            let active = (state ^ bit(number)).wrapping_add(ACTIVE);
            let order = Ordering::SeqCst;
            if self
                .state
                .compare_exchange(state, active, order, order)
                .is_ok()
            {
                self.bells.ring(number);
                return true;
            }
        }
        false
    }
}

// Numbers of those that may park are below COUNT, so the remainder changes none.
fn bit(number: u64) -> u64 {
    1 << (number % COUNT as u64)
}
