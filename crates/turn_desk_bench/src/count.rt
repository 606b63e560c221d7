//! One count that threads raise at a turn desk.
ghost use Rattle.std.specs.Prelude.{◌≡◌, All, IfOk};
ghost use Rattle.turn_desk.specs.Seen.{note_of, IsPassOf};

use std::alloc::Global;
use std::sync::Wait;
use std::thread;
use std::thread::Threads;
use turn_desk::{Change, Desk, Held, NoMemory, Pass};

#[derive(Drop)]
struct Count {
    turns: u64,
}

// A note says nothing of the count, and each change is allowed.
impl Held for Count {
    type About = ();

    type Constant = ();

    ghost use Rattle.turn_desk.specs.Notes.{HasSameNumbers};

    ghost fits = { λ x c n. Unit {0} };

    ghost moves = { λ c x m y n. HasSameNumbers m n };

    ghost opening = { tt };

    ghost kept = { λ m. tt };

    ghost given = { λ m. tt };

    ghost joined = { λ m n. tt };

    ghost keeps_own = { λ c x y m n sound fit move. (tt, move) };

    ghost keeps_others = { λ c x y m n other sound theirs apart fit move fit_other. tt };

    ghost parts_fit = { λ c x m sound some fit. (tt, tt) };

    ghost join_fits = { λ c x m n sound theirs apart fit fit_other. tt };
}

struct AnyChange;

impl Change<Count> for AnyChange {
    ghost new_note = { λ by lent note present. note };
}

fn take_turns<R: Wait>(rt: &R, desk: &Desk<Count>, mut pass: Pass<Count>, turns: u32) -> Pass<Count>
    requires { IsPassOf desk.now pass }
    ensures { IsPassOf desk.now result }
{
    for _ in 0..turns {
        let mut turn = desk.take(rt, pass);
        let count = turn.value();
        count.turns = count.turns.wrapping_add(1);
        pass = desk.give(turn, &AnyChange);
    }
    pass
}

// Passes for so many threads.
fn split_off(
    alloc: Global,
    desk: &Desk<Count>,
    first: &mut Pass<Count>,
    threads: u32,
) -> Result<Vec<Pass<Count>>, NoMemory>
    requires desk { IsPassOf desk.now first.old }
    requires free { (note_of first.old).free ≡ 4294967295 }
    ensures first { IsPassOf desk.now first.new }
    ensures others { IfOk result (λ v. All (λ p. IsPassOf desk.now p) v.items) }
{
    let mut passes = Vec::new(alloc);
    for _ in 0..threads {
        passes.push(desk.split_pass(first))?;
    }
    Ok(passes)
}

/// What so many threads count, each in so many turns.
pub fn count_together<R: Threads + Wait + Sync>(
    rt: &R,
    alloc: Global,
    threads: u32,
    turns: u32,
) -> Result<u64, NoMemory> {
    let (desk, mut first) = Desk::new(alloc, Count { turns: 0 })?;
    let passes = split_off(alloc, &desk, &mut first, threads)?;
    let shared = &desk;
    let _ended = thread::map_vec(
        rt,
        passes,
        &|pass: Pass<Count>| -> Pass<Count>
            requires { IsPassOf shared.now pass }
        { take_turns(rt, shared, pass, turns) },
    )?;
    let mut turn = desk.take(rt, first);
    let counted = turn.value().turns;
    let _first = desk.give(turn, &AnyChange);
    Ok(counted)
}
