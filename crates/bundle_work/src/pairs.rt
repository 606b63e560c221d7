//! Two slices side by side, each place in a thread of its own.
ghost use Rattle.std.specs.Prelude.{◌≡◌, ℕ, ◌+◌, ◌≤◌, ◌<◌, ◌^◌, length};
ghost use Rattle.std.specs.Thread.{IsSync, IsSend};
ghost use Rattle.bundle_work.specs.Pairs.{AreBoth, EachPairBecomes, AcceptsPair, ChangesPair};

use std::thread::{Threads, join_mut};

/// Does the job at each place, beside each other.
#[cycle(pairs)]
pub fn each_pair<R: Threads + Sync, K: Send, T: Send, J: Fn(&mut T, &mut K) + Sync>(
    rt: &R,
    job: &J,
    seats: &mut [T],
    kits: &mut [K],
)
    requires lengths { length seats.old ≡ length kits.old }
    requires accepts { AreBoth (AcceptsPair J.Fn job.now) kits.old seats.old }
    ensures { EachPairBecomes (ChangesPair J.Fn job.now) kits.old kits.new seats.old seats.new }
{
    if kits.is_empty() {
        return;
    }
    if kits.len() == 1 {
        only(job, seats, kits);
        return;
    }
    let half = kits.len() / 2;
    let (seats, other_seats) = seats.split_at_mut(half);
    let (kits, other_kits) = kits.split_at_mut(half);
    beside(rt, job, seats, other_seats, kits, other_kits);
}

fn only<K, T, J: Fn(&mut T, &mut K)>(job: &J, seats: &mut [T], kits: &mut [K])
    requires length { (length kits.old ≡ 1) × (length seats.old ≡ 1) }
    requires accepts { AreBoth (AcceptsPair J.Fn job.now) kits.old seats.old }
    ensures { EachPairBecomes (ChangesPair J.Fn job.now) kits.old kits.new seats.old seats.new }
{
    once(job, &mut seats[0], &mut kits[0]);
}

fn once<K, T, J: Fn(&mut T, &mut K)>(job: &J, seat: &mut T, kit: &mut K)
    requires { AcceptsPair J.Fn job.now kit.old seat.old }
    ensures { ChangesPair J.Fn job.now kit.old kit.new seat.old seat.new }
{
    job(seat, kit);
}

// It stands apart, so that what the closures require is what this function is given.
#[cycle(pairs)]
fn beside<R: Threads + Sync, K: Send, T: Send, J: Fn(&mut T, &mut K) + Sync>(
    rt: &R,
    job: &J,
    seats: &mut [T],
    other_seats: &mut [T],
    kits: &mut [K],
    other_kits: &mut [K],
)
    requires some { (0 < length kits.old) × (0 < length other_kits.old) }
    requires lengths { (length seats.old ≡ length kits.old)
        × (length other_seats.old ≡ length other_kits.old) }
    requires accepts { AreBoth (AcceptsPair J.Fn job.now) kits.old seats.old }
    requires other_accepts { AreBoth (AcceptsPair J.Fn job.now) other_kits.old other_seats.old }
    ensures here { EachPairBecomes
        (ChangesPair J.Fn job.now) kits.old kits.new seats.old seats.new }
    ensures there { EachPairBecomes
        (ChangesPair J.Fn job.now) other_kits.old other_kits.new other_seats.old other_seats.new }
{
    let mut here = ||
        requires { IsSync R.row × IsSync J.row × IsSend K.row
            × IsSend T.row × (length seats.now ≡ length kits.now)
            × AreBoth (AcceptsPair J.Fn job.now) kits.now seats.now }
        ensures { EachPairBecomes (ChangesPair J.Fn job.entry.now)
            kits.entry.now kits.exit.now seats.entry.now seats.exit.now }
    { each_pair(rt, job, seats, kits) };
    let mut there = ||
        requires { IsSync R.row × IsSync J.row × IsSend K.row × IsSend T.row
            × (length other_seats.now ≡ length other_kits.now)
            × AreBoth (AcceptsPair J.Fn job.now) other_kits.now other_seats.now }
        ensures { EachPairBecomes (ChangesPair J.Fn job.entry.now) other_kits.entry.now
            other_kits.exit.now other_seats.entry.now other_seats.exit.now }
    { each_pair(rt, job, other_seats, other_kits) };
    // The second one stays on this thread: so the first seat is worked on the thread that called for all.
    join_mut(rt, &mut there, &mut here);
}
