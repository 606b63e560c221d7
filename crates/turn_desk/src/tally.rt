//! A list of counts, one for each pass that is split off, and its use by sixteen threads.
ghost use Rattle.std.specs.Prelude.{◌≡◌, ◌^◌, ◌+◌, ◌-◌, ◌<◌, ℕ, [], ◌∷◌, length, slice_index};
ghost use Rattle.std.specs.Prelude.{slice_set, vec_len, IfOk, All};
ghost use Rattle.turn_desk.specs.Notes.{size_of, given_part};
ghost use Rattle.turn_desk.specs.Seen.{constant_of, note_of, IsPassOf};
ghost use Rattle.turn_desk.specs.Tally.{place_of, raised_note, first_note};

use crate::{Change, Desk, Held, NoMemory, Pass};
use std::alloc::Global;
use std::collections::LinkedList;
use std::sync::Wait;
use std::thread;
use std::thread::Threads;

/// A count for each pass that was split off. Each pass raises its own alone.
#[derive(Drop)]
pub struct Tally {
    pub counts: Vec<u64>,
}

impl Held for Tally {
    // The count of each number of the note.
    type About = LinkedList<u64>;

    // How many counts there are.
    type Constant = usize;

    ghost use Rattle.std.specs.Prelude.{[], ◌∷◌, ◌++◌};
    ghost use Rattle.turn_desk.specs.Tally.{TallyFits, TallyMoves};
    ghost use Rattle.turn_desk.specs.TallyLaws.{tally_own, tally_others, tally_parts, tally_join};

    ghost fits = { λ t c n. TallyFits t.counts.items c n };

    ghost moves = { λ c t m u n. TallyMoves t.counts.items m u.counts.items n };

    ghost opening = { 0 ∷ [] };

    ghost kept = { λ m. m.about };

    ghost given = { λ m. 0 ∷ [] };

    ghost joined = { λ m n. m.about ++ n.about };

    ghost keeps_own = { λ c x y m n. tally_own c x.counts.items y.counts.items m n };

    ghost keeps_others = { λ c x y m n other.
        tally_others c x.counts.items y.counts.items m n other };

    ghost parts_fit = { λ c x m. tally_parts c x.counts.items m };

    ghost join_fits = { λ c x m n. tally_join c x.counts.items m n };
}

impl Tally {
    fn raise(&mut self, place: usize)
        requires place { place < vec_len self.old.counts }
        requires room { slice_index self.old.counts.items place + 1 < 2 ^ 64 }
        ensures { self.new.counts.items
            ≡ slice_set self.old.counts.items place (slice_index self.old.counts.items place + 1) }
    {
        self.counts[place] += 1;
    }
}

// The pass's own count is raised by one.
struct Raise;

impl Change<Tally> for Raise {
    ghost use Rattle.turn_desk.specs.Tally.{raised_note};

    ghost new_note = { λ by lent note present. raised_note note };
}

// Raises the pass's own count in one turn.
fn raise_once<R: Wait>(rt: &R, desk: &Desk<Tally>, pass: Pass<Tally>, place: usize) -> Pass<Tally>
    requires desk { IsPassOf desk.now pass }
    requires place { (place ≡ place_of (slice_index (note_of pass).numbers 0))
        × (place < constant_of desk.now) }
    requires room { slice_index (note_of pass).about 0 + 1 < 2 ^ 64 }
    ensures desk { IsPassOf desk.now result }
    ensures note { note_of result ≡ raised_note (note_of pass) }
{
    let mut turn = desk.take(rt, pass);
    turn.value().raise(place);
    desk.give(turn, &Raise)
}

// Raises the pass's own count so many times, in a turn each.
fn raise_often<R: Wait>(
    rt: &R,
    desk: &Desk<Tally>,
    mut pass: Pass<Tally>,
    place: usize,
    times: u64,
) -> Pass<Tally>
    requires desk { IsPassOf desk.now pass }
    requires new { note_of pass ≡ first_note place 0 }
    requires place { (place < 4294967295) × (place < constant_of desk.now) }
    ensures desk { IsPassOf desk.now result }
    ensures note { note_of result ≡ first_note place times }
{
    for _ in 0..times {
        pass = raise_once(rt, desk, pass, place);
    }
    pass
}

// A pass that was split off, and the place of its count.
#[derive(Drop)]
struct Worker {
    pass: Pass<Tally>,
    place: usize,
}

// Splits off so many passes.
fn split_off(
    alloc: Global,
    desk: &Desk<Tally>,
    pass: &mut Pass<Tally>,
    count: usize,
) -> Result<Vec<Worker>, NoMemory>
    requires desk { IsPassOf desk.now pass.old }
    requires new { (note_of pass.old).free ≡ 4294967295 }
    requires count { count < 4294967295 }
    ensures desk { IsPassOf desk.now pass.new }
    ensures workers { IfOk result (λ v. All (λ w. IsPassOf desk.now w.pass
        × (w.place < count) × (note_of w.pass ≡ first_note w.place 0)) v.items) }
    ensures sizes { IfOk result (λ v. (vec_len v ≡ count)
        × (size_of (note_of pass.new) + count ≡ size_of (note_of pass.old))) }
{
    let mut workers = Vec::new(alloc);
    for place in 0..count {
        let split = desk.split_pass(pass);
        workers.push(Worker { pass: split, place })?;
    }
    Ok(workers)
}

// Joins all passes into this one.
fn join_all(desk: &Desk<Tally>, pass: &mut Pass<Tally>, mut ended: Vec<Pass<Tally>>)
    requires desk { IsPassOf desk.now pass.old }
    requires ended { All (λ p. IsPassOf desk.now p × (size_of (note_of p) ≡ 1)) ended.items }
    ensures desk { IsPassOf desk.now pass.new }
    ensures size { size_of (note_of pass.new) ≡ size_of (note_of pass.old) + vec_len ended }
{
    while let Some(other) = ended.pop() {
        desk.join_pass(pass, other);
    }
}

// Sixteen passes raise their counts a thousand times each, in threads of their own.
fn sixteen<R: Threads + Wait + Sync>(rt: &R, alloc: Global) -> Result<Tally, NoMemory> {
    let counts = vec![in alloc; 0u64; 16]?;
    let (desk, mut pass) = Desk::new(alloc, Tally { counts })?;
    let workers = split_off(alloc, &desk, &mut pass, 16)?;
    let shared = &desk;
    let ended = thread::map_vec(
        rt,
        workers,
        &|w: Worker| -> Pass<Tally>
            requires { IsPassOf shared.now w.pass × (constant_of shared.now ≡ 16)
                × (w.place < 16) × (note_of w.pass ≡ first_note w.place 0) }
            ensures { IsPassOf shared.entry.now result × (size_of (note_of result) ≡ 1) }
        { raise_often(rt, shared, w.pass, w.place, 1000) },
    )?;
    join_all(&desk, &mut pass, ended);
    Ok(desk.close(pass))
}

#[test]
fn sixteen_threads_count_to_a_thousand_each(rt: HostRuntime) -> Result<(), NoMemory> {
    let tally = sixteen(&rt, rt.alloc())?;
    assert_eq!(rt; tally.counts.as_slice(), [1000; 16].as_slice());
    Ok(())
}
