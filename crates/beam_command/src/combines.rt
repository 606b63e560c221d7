//! The combining of a plan.

ghost use Rattle.std.specs.Prelude.{◌≡◌, ◌≤◌, ◌<◌, IfErr, IfOk, length};
ghost use Rattle.beam_model.specs.Rendering.{IsRendering};
ghost use Rattle.book_core.specs.Runs.{AreOptions};
ghost use Rattle.bundle_work.specs.Kits.{EachBecomes};
ghost use Rattle.command_ends.specs.Retrying.{TriesSink};
ghost use Rattle.run_engine.specs.Kits.{KeepsKit, observed_kits};
ghost use Rattle.beam_command.specs.CombineEnds.{AreCombinedOf, IsCombineEnd, IsCombineStopped, IsCombinedOf};
ghost use Rattle.beam_command.specs.CombineEnds.{IsCombinedText, IsUncombined, written_alone};
ghost use Rattle.beam_command.specs.CombineEnds.{status_of};
ghost use Rattle.beam_command.specs.Kits.{HasNotBegun, KeepsShelf, TriesUnbegun, observed_at};

use beam_ports::{Sink, Store};
use beam_text::render;
use beam_values::{Arrival, Bytes, List, NoMemory, Options, Outcome};
use combine_lift::{LiftRefusal, shape_refusal};
use combine_plan::{CombineRefusal, combine_plan};
use command_ends::{read_plan_file, written};
use dofn_traits::Shelf;
use pipeline_graph::Graph;
use run_engine::{Kit, Status, open_sources};
use std::alloc::Global;
use std::thread::Threads;

/// Combines the plan of a file with a worker for each kit, and writes what comes to its Writes.
pub fn run_combine<R: Threads + Sync, F: Shelf, S: Store, W: Sink>(
    rt: &R,
    alloc: Global,
    plan: &[u8],
    options: &Options,
    kits: &mut [Kit<F, S>],
    out: &mut W,
) -> Status
    requires allowed { AreOptions options.now }
    requires some { 0 < length kits.old }
    requires workers { length kits.old ≤ options.now.workers }
    ensures ends { IsCombineEnd
        (observed_at F.Shelf S.Store W.Sink kits.old kits.new out.old out.new)
        plan.now options.now result }
    ensures idle { HasNotBegun result → EachBecomes kits.old kits.new KeepsShelf }
    ensures kept { EachBecomes kits.old kits.new (KeepsKit F.Shelf S.Store) }
    ensures tries { TriesUnbegun S.Store options.now.attempts 0 kits.old kits.new result }
    ensures writes { TriesSink W.Sink options.now.attempts out.old out.new result }
{
    match combined_file(rt, alloc, plan, options, kits) {
        Ok(text) => written(out, text.as_slice(), options.attempts),
        Err(status) => status,
    }
}

// The text of what is combined of the plan of a file, which the first kit reads.
fn combined_file<R: Threads + Sync, F: Shelf, S: Store>(
    rt: &R,
    alloc: Global,
    plan: &[u8],
    options: &Options,
    kits: &mut [Kit<F, S>],
) -> Result<Bytes, Status>
    requires allowed { AreOptions options.now }
    requires some { 0 < length kits.old }
    requires workers { length kits.old ≤ options.now.workers }
    ensures text { IfOk result
        (IsCombinedText (observed_kits F.Shelf S.Store kits.old kits.new) plan.now) }
    ensures stopped { IfErr result (IsCombineStopped
        (observed_kits F.Shelf S.Store kits.old kits.new) plan.now options.now.attempts) }
    ensures idle { IfErr result
        (λ status. HasNotBegun status → EachBecomes kits.old kits.new KeepsShelf) }
    ensures kept { EachBecomes kits.old kits.new (KeepsKit F.Shelf S.Store) }
    ensures tries { IfErr result
        (TriesUnbegun S.Store options.now.attempts 0 kits.old kits.new) }
{
    match read_plan_file(alloc, &mut kits[0].store, plan, options.attempts) {
        Ok(read) => combined_graph(rt, alloc, read.graph, read.failed, options, kits),
        Err(status) => Err(status),
    }
}

// The text of what is combined of a checked plan. The first kit's store has failed `failed` times in this command.
fn combined_graph<R: Threads + Sync, F: Shelf, S: Store>(
    rt: &R,
    alloc: Global,
    graph: Graph,
    failed: u32,
    options: &Options,
    kits: &mut [Kit<F, S>],
) -> Result<Bytes, Status>
    requires allowed { AreOptions options.now }
    requires some { 0 < length kits.old }
    requires workers { length kits.old ≤ options.now.workers }
    ensures text { IfOk result
        (IsCombinedOf (observed_kits F.Shelf S.Store kits.old kits.new) graph) }
    ensures stopped { IfErr result (IsUncombined
        (observed_kits F.Shelf S.Store kits.old kits.new) graph options.now.attempts failed) }
    ensures idle { IfErr result
        (λ status. HasNotBegun status → EachBecomes kits.old kits.new KeepsShelf) }
    ensures kept { EachBecomes kits.old kits.new (KeepsKit F.Shelf S.Store) }
    ensures tries { IfErr result (λ status. failed < options.now.attempts
        → TriesUnbegun S.Store options.now.attempts failed kits.old kits.new status) }
{
    match combined_arrivals(rt, alloc, &graph, failed, options, kits) {
        Ok(arrivals) => Ok(written_text(alloc, graph, arrivals)?),
        Err(status) => Err(status),
    }
}

// What comes to the Writes of a checked plan.
fn combined_arrivals<R: Threads + Sync, F: Shelf, S: Store>(
    rt: &R,
    alloc: Global,
    graph: &Graph,
    failed: u32,
    options: &Options,
    kits: &mut [Kit<F, S>],
) -> Result<List<Arrival>, Status>
    requires allowed { AreOptions options.now }
    requires some { 0 < length kits.old }
    requires workers { length kits.old ≤ options.now.workers }
    ensures arrivals { IfOk result
        (AreCombinedOf (observed_kits F.Shelf S.Store kits.old kits.new) graph.now) }
    ensures stopped { IfErr result (IsUncombined
        (observed_kits F.Shelf S.Store kits.old kits.new) graph.now options.now.attempts failed) }
    ensures idle { IfErr result
        (λ status. HasNotBegun status → EachBecomes kits.old kits.new KeepsShelf) }
    ensures kept { EachBecomes kits.old kits.new (KeepsKit F.Shelf S.Store) }
    ensures tries { IfErr result (λ status. failed < options.now.attempts
        → TriesUnbegun S.Store options.now.attempts failed kits.old kits.new status) }
{
    if shape_refusal(alloc, graph)?.is_some() {
        return Err(Status::NotLifted(LiftRefusal::Shape));
    }
    if let Err(status) = open_sources(alloc, graph, options, kits, failed) {
        return Err(status);
    }
    match combine_plan(rt, alloc, graph, options, kits) {
        Ok(arrivals) => Ok(arrivals),
        Err(refusal) => Err(status_of(refusal)),
    }
}

// The status of a refusal.
fn status_of(refusal: CombineRefusal) -> Status
    ensures { result ≡ status_of refusal }
{
    match refusal {
        CombineRefusal::Lift(why) => Status::NotLifted(why),
        CombineRefusal::Fault(note) => Status::WorkFault(note),
        CombineRefusal::NoMemory => Status::NoMemory,
    }
}

// The rendering of what came to the Writes of a plan.
fn written_text(alloc: Global, graph: Graph, written: List<Arrival>) -> Result<Bytes, NoMemory>
    ensures { IfOk result (IsRendering (written_alone graph written)) }
{
    let outcome = Outcome {
        plan: graph.into_plan(),
        files: List::new(alloc),
        done: List::new(alloc),
        dead: List::new(alloc),
        cells: List::new(alloc),
        panes: List::new(alloc),
        dropped: List::new(alloc),
        logs: List::new(alloc),
        written,
        commits: List::new(alloc),
        stopped: None,
    };
    render(alloc, &outcome)
}
