//! The replay of a schedule.

ghost use Rattle.std.specs.Prelude.{◌≡◌, ◌≤◌, ◌<◌, true, IfErr, IfOk, length};
ghost use Rattle.book_core.specs.Runs.{AreOptions};
ghost use Rattle.bundle_work.specs.Kits.{EachBecomes};
ghost use Rattle.beam_ports.specs.Counts.{rise};
ghost use Rattle.beam_ports.specs.Observed.{observed_store};
ghost use Rattle.bundle_work.specs.Openings.{AreOpened, file_names};
ghost use Rattle.bundle_work.specs.Outside.{IsStoreKept};
ghost use Rattle.command_ends.specs.Retrying.{RoseBy, TriesSink, TriesStore};
ghost use Rattle.command_ends.specs.ScheduleFiles.{longest_schedule};
ghost use Rattle.run_engine.specs.Kits.{KeepsKit, observed_kits};
ghost use Rattle.beam_command.specs.Kits.{HasNotBegun, KeepsShelf, TriesUnbegun, observed_at};
ghost use Rattle.beam_command.specs.ReplayEnds.{IsReplayEnd, IsReplayStopped, IsReplayText};
ghost use Rattle.beam_command.specs.Replaying.{AreFilesRefused, AreRead, IsGraphReplayed};
ghost use Rattle.beam_command.specs.Replaying.{IsGraphStopped, IsKitReplayed, IsKitStopped};

use beam_ports::{Sink, Store};
use beam_values::{Bytes, Options};
use command_ends::{TextRead, read_plan_file, read_schedule_file, written};
use dofn_traits::Shelf;
use pipeline_graph::Graph;
use run_engine::{Kit, Status, first_lengths, open_sources};
use schedule_replay::{ReplayRefusal, replay};
use std::alloc::Global;

/// Works the schedule of a file over the plan of another one with one kit, and writes what it prints.
pub fn run_replay<F: Shelf, S: Store, W: Sink>(
    alloc: Global,
    plan: &[u8],
    schedule: &[u8],
    options: &Options,
    kits: &mut [Kit<F, S>],
    out: &mut W,
) -> Status
    requires allowed { AreOptions options.now }
    requires one { length kits.old ≡ 1 }
    ensures ends { IsReplayEnd
        (observed_at F.Shelf S.Store W.Sink kits.old kits.new out.old out.new)
        plan.now schedule.now options.now result }
    ensures idle { HasNotBegun result → EachBecomes kits.old kits.new KeepsShelf }
    ensures kept { EachBecomes kits.old kits.new (KeepsKit F.Shelf S.Store) }
    ensures tries { TriesUnbegun S.Store options.now.attempts 0 kits.old kits.new result }
    ensures writes { TriesSink W.Sink options.now.attempts out.old out.new result }
{
    match replay_files(alloc, plan, schedule, options, kits) {
        Ok(text) => written(out, text.as_slice(), options.attempts),
        Err(status) => status,
    }
}

// The text of the replay.
fn replay_files<F: Shelf, S: Store>(
    alloc: Global,
    plan: &[u8],
    schedule: &[u8],
    options: &Options,
    kits: &mut [Kit<F, S>],
) -> Result<Bytes, Status>
    requires allowed { AreOptions options.now }
    requires one { length kits.old ≡ 1 }
    ensures text { IfOk result (IsReplayText (observed_kits F.Shelf S.Store kits.old kits.new)
        plan.now schedule.now options.now) }
    ensures stopped { IfErr result (IsReplayStopped
        (observed_kits F.Shelf S.Store kits.old kits.new) plan.now schedule.now options.now) }
    ensures idle { IfErr result
        (λ status. HasNotBegun status → EachBecomes kits.old kits.new KeepsShelf) }
    ensures kept { EachBecomes kits.old kits.new (KeepsKit F.Shelf S.Store) }
    ensures tries { IfErr result
        (TriesUnbegun S.Store options.now.attempts 0 kits.old kits.new) }
{
    match read_files(alloc, &mut kits[0].store, plan, schedule, options.attempts) {
        Ok(read) => replay_graph(alloc, read.graph, &read.schedule, options, kits),
        Err(status) => Err(status),
    }
}

/// What the files of a replay have: a checked plan, and the text of a schedule.
#[derive(Debug, Drop)]
struct ReplayFiles {
    graph: Graph,
    schedule: TextRead,
}

// Opens and reads the plan's document, and then the schedule.
fn read_files<S: Store>(
    alloc: Global,
    store: &mut S,
    plan: &[u8],
    schedule: &[u8],
    attempts: u32,
) -> Result<ReplayFiles, Status>
    requires { 1 ≤ attempts }
    ensures read { IfOk result (AreRead (S.files store.old) plan.now schedule.now) }
    ensures failed { IfOk result
        (λ read. read.schedule.failed ≤ rise (S.faults store.old) (S.faults store.new)) }
    ensures refused { IfErr result (AreFilesRefused
        (observed_store S.files S.faults store.old store.new) plan.now schedule.now attempts) }
    ensures kept { IsStoreKept S.faults S.files S.opened store.old store.new }
    ensures exact { IfOk result (λ read. S.counts_exactly ≡ true
        → RoseBy (S.faults store.old) (S.faults store.new) read.schedule.failed) }
    ensures few { IfOk result (λ read. read.schedule.failed < attempts) }
    ensures tries { IfErr result (TriesStore S.Store attempts 0 store.old store.new) }
{
    let read = match read_plan_file(alloc, store, plan, attempts) {
        Ok(read) => read,
        Err(status) => return Err(status),
    };
    match read_schedule_file(alloc, store, schedule, read.failed, attempts) {
        Ok(schedule) => Ok(ReplayFiles {
            graph: read.graph,
            schedule,
        }),
        Err(status) => Err(status),
    }
}

// The text of the replay of a checked plan. The store has failed `schedule.failed` times before in this command.
fn replay_graph<F: Shelf, S: Store>(
    alloc: Global,
    graph: Graph,
    schedule: &TextRead,
    options: &Options,
    kits: &mut [Kit<F, S>],
) -> Result<Bytes, Status>
    requires allowed { AreOptions options.now }
    requires one { length kits.old ≡ 1 }
    requires short { length schedule.now.bytes.items ≤ longest_schedule }
    ensures text { IfOk result (IsGraphReplayed F.Shelf S.Store kits.old kits.new
        graph options.now schedule.now.bytes.items) }
    ensures stopped { IfErr result (IsGraphStopped F.Shelf S.Store kits.old kits.new
        graph options.now schedule.now.bytes.items schedule.now.failed) }
    ensures idle { IfErr result
        (λ status. HasNotBegun status → EachBecomes kits.old kits.new KeepsShelf) }
    ensures kept { EachBecomes kits.old kits.new (KeepsKit F.Shelf S.Store) }
    ensures tries { IfErr result (TriesUnbegun S.Store options.now.attempts schedule.now.failed
        kits.old kits.new) }
{
    match open_sources(alloc, &graph, options, kits, schedule.failed) {
        Ok(()) => replay_opened(
            alloc,
            graph,
            schedule.bytes.as_slice(),
            options,
            &mut kits[0],
        ),
        Err(status) => Err(status),
    }
}

// The text of the replay of a plan whose files the kit has opened.
fn replay_opened<F: Shelf, S: Store>(
    alloc: Global,
    graph: Graph,
    schedule: &[u8],
    options: &Options,
    kit: &mut Kit<F, S>,
) -> Result<Bytes, Status>
    requires allowed { AreOptions options.now }
    requires short { length schedule.now ≤ longest_schedule }
    requires opened { AreOpened (S.files kit.old.store) (S.opened kit.old.store)
        (file_names graph) kit.old.files }
    ensures text { IfOk result
        (IsKitReplayed F.Shelf S.Store kit.old kit.new graph options.now schedule.now) }
    ensures stopped { IfErr result
        (IsKitStopped F.Shelf S.Store kit.old kit.new graph options.now schedule.now) }
    ensures kept { KeepsKit F.Shelf S.Store kit.old kit.new }
{
    let files = first_lengths(alloc, &graph, kit.files.as_slice())?;
    match replay(alloc, graph, files, options, kit, schedule) {
        Ok(text) => Ok(text),
        Err(ReplayRefusal::Bad(refusal)) => Err(Status::BadSchedule(refusal)),
        Err(ReplayRefusal::NoMemory) => Err(Status::NoMemory),
    }
}
