//! One worker for each kit, beside each other.
ghost use Rattle.std.specs.Prelude.{◌≡◌, ◌≤◌, ◌+◌, ◌++◌, map, length, vec_len, vec_capacity, IfOk};
ghost use Rattle.std.specs.Prelude.{IsErr};
ghost use Rattle.std.specs.List.{AllByRecursion, sum_by};
ghost use Rattle.turn_desk.specs.Notes.{size_of};
ghost use Rattle.worker_table.specs.Passes.{IsOf, entry_of, note_of_pass, setting_of};
ghost use Rattle.bundle_work.specs.Kits.{EachBecomes, IsKitFor, observed_shelves, observed_stores};
ghost use Rattle.bundle_work.specs.Outside.{IsKitKept};
ghost use Rattle.worker_loop.specs.Workers.{HasSat, HaveWorked, IsKitDone, IsReady, no_faults};
ghost use Rattle.worker_loop.specs.Workers.{share_with};

use crate::workers::{WorkerEnd, work};
use beam_ports::{Gate, Store};
use beam_values::{Cause, List, NoMemory, Options};
use bundle_work::{Kit, each_pair};
use dofn_traits::Shelf;
use pipeline_graph::Graph;
use retry_core::FaultShare;
use std::alloc::Global;
use std::sync::Wait;
use std::thread;
use std::thread::Threads;
use worker_table::{Table, WorkerPass};

/// How the workers ended, and the faults that all of them counted.
#[derive(Drop)]
pub struct AllEnd {
    pub ends: List<WorkerEnd>,
    pub share: FaultShare,
}

/// What a worker has of its own, beside its kit.
#[derive(Drop)]
pub struct Seat {
    pub pass: WorkerPass,
    pub end: WorkerEnd,
    pub share: FaultShare,
}

/// One worker for each kit, each in a thread of its own. All that they need places for is made before the
/// first one starts, so a refusal leaves everything as it was.
pub fn work_all<R: Threads + Wait + Sync, F: Shelf, S: Store, G: Gate>(
    rt: &R,
    alloc: Global,
    table: &Table,
    pass: &mut WorkerPass,
    graph: &Graph,
    kits: &mut [Kit<F, S>],
    options: &Options,
    gate: &G,
) -> Result<AllEnd, NoMemory>
    requires table { IsOf table.now pass.old }
    requires free { length kits.old ≤ (note_of_pass pass.old).free }
    requires plan { graph.now ≡ (setting_of table.now).plan }
    requires kits { AllByRecursion
        (IsKitFor F.strict S.files S.opened (setting_of table.now)) kits.old }
    ensures table { IsOf table.now pass.new }
    ensures worked { IfOk result
        (HaveWorked (setting_of table.now) (note_of_pass pass.old) (note_of_pass pass.new)
        (observed_shelves F.strict F.faults kits.old kits.new)
        (observed_stores S.files S.faults kits.old kits.new)) }
    ensures count { IfOk result (λ end. length end.ends ≡ length kits.old) }
    ensures kept { EachBecomes kits.old kits.new (λ old new. (new.files ≡ old.files)
        × IsKitKept F.faults F.strict S.faults S.files
        S.opened old.shelf new.shelf old.store new.store) }
    ensures refused { IsErr result
        → (note_of_pass pass.new ≡ note_of_pass pass.old) × (kits.new ≡ kits.old) }
{
    let count = kits.len();
    limit_to_processors(rt, table);
    let mut ends = Vec::with_capacity(alloc, count)?;
    let mut seats = Vec::with_capacity(alloc, count)?;
    seat_all(table, pass, count, &mut seats);
    let sit = |seat: &mut Seat, kit: &mut Kit<F, S>|
        requires { IsReady table.now seat.now × (graph.now ≡ (setting_of table.now).plan)
            × IsKitFor F.strict S.files S.opened (setting_of table.now) kit.now }
        ensures { HasSat table.entry.now seat.exit.now × IsKitDone F.strict F.faults S.files
            S.faults S.opened kit.entry.now kit.exit.now (entry_of seat.exit.now.pass) }
    {
        let (pass, share) = (&mut seat.pass, &mut seat.share);
        seat.end = work(rt, alloc, table, pass, graph, kit, options, share, gate);
    };
    each_pair(rt, &sit, seats.as_mut_slice(), kits);
    let share = gather(table, pass, seats, &mut ends);
    let ends = List::from_vec(ends);
    Ok(AllEnd { ends, share })
}

// More workers than processors would only wait for one another.
fn limit_to_processors<R: Threads>(rt: &R, table: &Table) {
    if let Ok(processors) = thread::available_parallelism(rt) {
        table.limit_active(processors.get() as u64);
    }
}

// A seat for each kit, with a pass of its own.
fn seat_all(table: &Table, pass: &mut WorkerPass, count: usize, seats: &mut Vec<Seat>)
    requires table { IsOf table.now pass.old }
    requires free { count ≤ (note_of_pass pass.old).free }
    requires room { (vec_len seats.old ≡ 0) × (count ≤ vec_capacity seats.old) }
    ensures table { IsOf table.now pass.new }
    ensures about { (note_of_pass pass.new).about ≡ (note_of_pass pass.old).about }
    ensures size { size_of (note_of_pass pass.new) + count ≡ size_of (note_of_pass pass.old) }
    ensures count { length seats.new.items ≡ count }
    ensures ready { AllByRecursion (IsReady table.now) seats.new.items }
{
    for _ in 0..count {
        let own = table.split_pass(pass);
        seats.push_reserved(Seat {
            pass: own,
            end: WorkerEnd::NoMemory,
            share: FaultShare::new(),
        });
    }
}

// Takes all passes in, and adds up what was counted.
fn gather(
    table: &Table,
    pass: &mut WorkerPass,
    seats: Vec<Seat>,
    ends: &mut Vec<WorkerEnd>,
) -> FaultShare
    requires table { IsOf table.now pass.old }
    requires sat { AllByRecursion (HasSat table.now) seats.items }
    requires room { (vec_len ends.old ≡ 0) × (length seats.items ≤ vec_capacity ends.old) }
    ensures table { IsOf table.now pass.new }
    ensures about { (note_of_pass pass.new).about
        ≡ (note_of_pass pass.old).about ++ map (λ seat. entry_of seat.pass) seats.items }
    ensures size { size_of (note_of_pass pass.new)
        ≡ size_of (note_of_pass pass.old) + length seats.items }
    ensures ends { ends.new.items ≡ map (λ seat. seat.end) seats.items }
    ensures share { result
        ≡ share_with no_faults (sum_by (λ seat. (entry_of seat.pass).calls) seats.items)
        (sum_by (λ seat. (entry_of seat.pass).reads) seats.items) }
{
    let mut share = FaultShare::new();
    for seat in seats {
        let Seat {
            pass: own,
            end,
            share: counted,
        } = seat;
        table.join_pass(pass, own);
        ends.push_reserved(end);
        share.rise(Cause::Call, counted.calls);
        share.rise(Cause::Read, counted.reads);
    }
    share
}
