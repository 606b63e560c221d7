//! Lines of a piece, added by views of them.

ghost use Rattle.std.specs.Prelude.{◌≡◌, ◌<◌, true, IfErr, IfOk, IfSome};
ghost use Rattle.beam_ports.specs.Observed.{observed_store};
ghost use Rattle.bundle_work.specs.Outside.{IsKitKept};
ghost use Rattle.bundle_work.specs.Reading.{IsReading};
ghost use Rattle.chain_exec.specs.Causes.{observed_shelf};
ghost use Rattle.known_jobs.specs.Jobs.{Setting};
ghost use Rattle.combine_plan.specs.Folding.{IsBundleRefused, IsLeftBehind};
ghost use Rattle.combine_plan.specs.Skimming.{IsFileSource, IsHeldItem};

use crate::folding::{behind, failed};
use crate::refusal::CombineRefusal;
use beam_ports::Store;
use beam_values::{Cause, NodeKind, Piece, SourceKind};
use bundle_work::{Kit, Reader, Worker, place_of};
use chain_exec::ExecRefusal;
use combine_lift::{Combiner, Partials};
use combine_views::{Skim, skim_lines};
use dofn_traits::Shelf;
use pipeline_graph::Graph;
use std::alloc::Global;

/// Adds what lines of a piece bring, from its start on and as far as views tell it, and answers what is left of
/// the piece: all of it, where it isn't of the file that was read last. A read that fails counts as an attempt,
/// as in a bundle; what was added before it stays added.
pub fn skim_piece<C: Combiner, F: Shelf, S: Store>(
    alloc: Global,
    graph: &Graph,
    attempts: u32,
    kit: &mut Kit<F, S>,
    worker: &mut Worker,
    rest: &Piece,
    partials: &mut Partials<C>,
) -> Result<Piece, CombineRefusal>
    ghost setting: { Setting }
    requires plan { graph.now ≡ setting.plan }
    requires attempts { rest.now.attempts < attempts }
    requires strict { setting.known.strict ≡ true → F.strict kit.old.shelf ≡ true }
    requires reading { IsReading setting.known.told (S.opened kit.old.store) graph.now
        worker.old.readers.items worker.old.place worker.old.bench.pager }
    ensures left { IfOk result (λ left. IsLeftBehind C.stands setting.known
        (observed_shelf F.strict F.faults kit.old.shelf kit.new.shelf)
        (observed_store S.files S.faults kit.old.store kit.new.store)
        graph.now attempts rest.now left partials.old partials.new) }
    ensures refused { IfErr result (IsBundleRefused C.takes setting.known
        (observed_shelf F.strict F.faults kit.old.shelf kit.new.shelf)
        (observed_store S.files S.faults kit.old.store kit.new.store)
        graph.now attempts rest.now partials.old.parts) }
    ensures reading { IsReading setting.known.told (S.opened kit.new.store) graph.now
        worker.new.readers.items worker.new.place worker.new.bench.pager }
    ensures readers { worker.new.readers.items ≡ worker.old.readers.items }
    ensures kept { IsKitKept F.faults F.strict S.faults S.files S.opened
        kit.old.shelf kit.new.shelf kit.old.store kit.new.store }
    ensures files { kit.new.files ≡ kit.old.files }
{
    let (from, to) = (rest.range.from(), rest.range.to());
    let Some(work) = held_source(graph, worker.readers.as_slice(), worker.place, rest) else {
        return Ok(*rest);
    };
    let skim = skim_lines(
        alloc,
        graph,
        rest.node,
        work,
        &mut kit.store,
        &mut worker.bench.pager,
        from,
        to,
        partials,
    )?;
    match skim {
        Skim::To(at) => Ok(behind(rest, at)),
        Skim::FailedAt(at) => failed(
            &behind(rest, at),
            ExecRefusal::Faulted {
                at: rest.node,
                cause: Cause::Read,
            },
            attempts,
        ),
    }
}

/// What the source of a piece reads, where the piece is of a file and the reader at this place is for it.
fn held_source(graph: &Graph, readers: &[Reader], place: usize, piece: &Piece) -> Option<SourceKind>
    ensures { IfSome result (IsHeldItem graph.now readers.now place piece.now) }
{
    match place_of(readers, place, piece) {
        Some(found) if found == place => file_source(graph, piece.node),
        _ => None,
    }
}

/// What a source reads, where the node is one whose items are files.
fn file_source(graph: &Graph, node: u32) -> Option<SourceKind>
    ensures { IfSome result (IsFileSource graph.now node) }
{
    let at = graph.plan().nodes.as_slice().get(node as usize)?;
    match &at.kind {
        NodeKind::Source {
            work: SourceKind::Lines,
            ..
        } => Some(SourceKind::Lines),
        NodeKind::Source {
            work: SourceKind::TimedLines,
            ..
        } => Some(SourceKind::TimedLines),
        _ => None,
    }
}
