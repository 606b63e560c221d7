//! One kit's work: pieces, bundle by bundle, into a table of partial results.

ghost use Rattle.std.specs.Prelude.{◌≡◌, ◌+◌, ◌<◌, ◌≤◌, ◌∷◌, ◌++◌, [], None, true, length, map};
ghost use Rattle.std.specs.Prelude.{All, IfErr, IfOk, OnOk, List as ListOf};
ghost use Rattle.std.specs.List.{list_any};
ghost use Rattle.beam_model.specs.Chains.{Arrives};
ghost use Rattle.beam_model.specs.Coverings.{spread_done};
ghost use Rattle.beam_model.specs.Positions.{items};
ghost use Rattle.beam_model.specs.Premises.{done_range};
ghost use Rattle.beam_ports.specs.Observed.{WhereTold, observed_store};
ghost use Rattle.book_core.specs.Work.{worked_to};
ghost use Rattle.bundle_work.specs.Kits.{IsKitFor};
ghost use Rattle.bundle_work.specs.Outside.{IsKitKept};
ghost use Rattle.bundle_work.specs.Reading.{IsReading, length_in};
ghost use Rattle.chain_exec.specs.Causes.{observed_shelf};
ghost use Rattle.known_jobs.specs.Calls.{holds_end};
ghost use Rattle.known_jobs.specs.Jobs.{Setting};
ghost use Rattle.split_core.specs.Partition.{range_of};
ghost use Rattle.combine_lift.specs.Tables.{Added as AddedOf, StandsFor};
ghost use Rattle.combine_laws.specs.Brought.{added_by};
ghost use Rattle.combine_plan.specs.Dealing.{IsInside};
ghost use Rattle.combine_plan.specs.Folding.{HasFolded, IsAddRefused, IsBundleDone};
ghost use Rattle.combine_plan.specs.Folding.{IsBundleRefused, IsFold, IsFoldRefused};
ghost use Rattle.combine_plan.specs.Folding.{IsFailedAgain, IsWorkFailed};

use crate::claims::{OwnPiece, Unshared};
use crate::refusal::CombineRefusal;
use crate::skimming::skim_piece;
use beam_ports::Store;
use beam_values::{Arrival, FaultNote, Options, Piece, Range, Value, key_or, part_of};
use bundle_commit::{Job, Receipt};
use bundle_work::{Kit, Worker};
use chain_exec::ExecRefusal;
use combine_lift::{Combiner, LiftRefusal, Partials, View};
use dofn_traits::Shelf;
use pipeline_graph::Graph;
use retry_core::{Next, next_attempt};
use std::alloc::Global;

/// The most parts that a table stands for.
pub const MOST_PARTS: u64 = i64::MAX as u64;

/// Works pieces with a kit, and adds what arrives of them to a table, which is settled here, in the kit's own thread.
pub fn fold_pieces<C: Combiner, F: Shelf, S: Store>(
    alloc: Global,
    graph: &Graph,
    options: &Options,
    kit: &mut Kit<F, S>,
    pieces: &[Piece],
    combiner: C,
) -> Result<Partials<C>, CombineRefusal>
    ghost setting: { Setting }
    requires plan { graph.now ≡ setting.plan }
    requires attempts { 1 ≤ options.now.attempts }
    requires few { options.now.attempts ≤ 1000 }
    requires kit { IsKitFor F.strict S.files S.opened setting kit.old }
    requires pieces { All (IsInside setting) pieces.now }
    ensures folded { IfOk result
        (IsFold C.stands setting.known graph.now (map range_of pieces.now)) }
    ensures refused { IfErr result (IsFoldRefused C.takes setting.known
        (observed_shelf F.strict F.faults kit.old.shelf kit.new.shelf)
        (observed_store S.files S.faults kit.old.store kit.new.store)
        graph.now options.now.attempts (map range_of pieces.now) 0) }
    ensures kept { IsKitKept F.faults F.strict S.faults S.files S.opened
        kit.old.shelf kit.new.shelf kit.old.store kit.new.store }
    ensures files { kit.new.files ≡ kit.old.files }
{
    let mut worker = Worker::new(alloc, graph, kit.files.as_slice(), options)?;
    let mut partials = Partials::new(alloc, combiner);
    for piece in pieces {
        fold_piece(
            alloc,
            graph,
            options.attempts,
            kit,
            &mut worker,
            piece,
            &mut partials,
        )?;
    }
    partials.settle(alloc);
    Ok(partials)
}

/// Works a piece: lines by views, as far as these tell what the lines bring, and from there on the next bundle by
/// objects, in turn. A bundle that fails is worked again from its start, and leaves the table
/// as it was; how often bundles may fail is counted over the whole piece.
fn fold_piece<C: Combiner, F: Shelf, S: Store>(
    alloc: Global,
    graph: &Graph,
    attempts: u32,
    kit: &mut Kit<F, S>,
    worker: &mut Worker,
    piece: &Piece,
    partials: &mut Partials<C>,
) -> Result<(), CombineRefusal>
    ghost setting: { Setting }
    requires plan { graph.now ≡ setting.plan }
    requires attempts { 1 ≤ attempts }
    requires few { attempts ≤ 1000 }
    requires piece { IsInside setting piece.now }
    requires strict { setting.known.strict ≡ true → F.strict kit.old.shelf ≡ true }
    requires reading { IsReading setting.known.told (S.opened kit.old.store) graph.now
        worker.old.readers.items worker.old.place worker.old.bench.pager }
    requires lengths { map length_in worker.old.readers.items ≡ setting.files }
    ensures folded { OnOk result (HasFolded C.stands setting.known graph.now
        (range_of piece.now ∷ []) partials.old partials.new) }
    ensures refused { IfErr result (IsFoldRefused C.takes setting.known
        (observed_shelf F.strict F.faults kit.old.shelf kit.new.shelf)
        (observed_store S.files S.faults kit.old.store kit.new.store)
        graph.now attempts (range_of piece.now ∷ []) partials.old.parts) }
    ensures reading { IsReading setting.known.told (S.opened kit.new.store) graph.now
        worker.new.readers.items worker.new.place worker.new.bench.pager }
    ensures readers { worker.new.readers.items ≡ worker.old.readers.items }
    ensures kept { IsKitKept F.faults F.strict S.faults S.files S.opened
        kit.old.shelf kit.new.shelf kit.old.store kit.new.store }
    ensures files { kit.new.files ≡ kit.old.files }
{
    let end = piece.range.to();
    // Nothing of it has failed yet.
    let mut rest = Piece {
        attempts: 0,
        ..*piece
    };
    'bundles: while rest.range.from() < end {
        rest = skim_piece(alloc, graph, attempts, kit, worker, &rest, partials)?;
        if rest.range.from() >= end {
            return Ok(());
        }
        rest = fold_bundle(alloc, graph, attempts, kit, worker, &rest, partials)?;
    }
    Ok(())
}

/// Works the next bundle of a piece. Answers what is left of it; after a failure that is all of it, with one
/// more attempt.
fn fold_bundle<C: Combiner, F: Shelf, S: Store>(
    alloc: Global,
    graph: &Graph,
    attempts: u32,
    kit: &mut Kit<F, S>,
    worker: &mut Worker,
    rest: &Piece,
    partials: &mut Partials<C>,
) -> Result<Piece, CombineRefusal>
    ghost setting: { Setting }
    requires plan { graph.now ≡ setting.plan }
    requires some { rest.now.range.from < rest.now.range.to }
    requires inside { list_any (holds_end rest.now) setting.files ≡ true }
    requires attempts { rest.now.attempts < attempts }
    requires strict { setting.known.strict ≡ true → F.strict kit.old.shelf ≡ true }
    requires reading { IsReading setting.known.told (S.opened kit.old.store) graph.now
        worker.old.readers.items worker.old.place worker.old.bench.pager }
    requires lengths { map length_in worker.old.readers.items ≡ setting.files }
    ensures done { IfOk result (λ left. IsBundleDone C.stands setting.known
        (observed_shelf F.strict F.faults kit.old.shelf kit.new.shelf)
        (observed_store S.files S.faults kit.old.store kit.new.store)
        graph.now attempts rest.now left partials.old partials.new) }
    ensures refused { IfErr result (IsBundleRefused C.takes setting.known
        (observed_shelf F.strict F.faults kit.old.shelf kit.new.shelf)
        (observed_store S.files S.faults kit.old.store kit.new.store)
        graph.now attempts rest.now partials.old.parts) }
    ensures reading { IsReading setting.known.told (S.opened kit.new.store) graph.now
        worker.new.readers.items worker.new.place worker.new.bench.pager }
    ensures readers { worker.new.readers.items ≡ worker.old.readers.items }
    ensures kept { IsKitKept F.faults F.strict S.faults S.files S.opened
        kit.old.shelf kit.new.shelf kit.old.store kit.new.store }
    ensures files { kit.new.files ≡ kit.old.files }
{
    // Nothing is set aside here: of each position its outputs are combined, or the plan isn't.
    let mut own = OwnPiece {
        piece: Piece {
            spent: None,
            ..*rest
        },
        attempted: None,
    };
    match work_bundle(graph, kit, worker, &mut own) {
        Ok(receipt) => {
            add_arrivals(alloc, receipt.arrivals.as_slice(), partials)?;
            Ok(behind(rest, own.worked_to()))
        }
        Err(refusal) => failed(rest, refusal, attempts),
    }
}

/// Works a bundle of a piece from its start on: what that brings, up to an offset behind the start.
fn work_bundle<F: Shelf, S: Store>(
    graph: &Graph,
    kit: &mut Kit<F, S>,
    worker: &mut Worker,
    own: &mut OwnPiece,
) -> Result<Receipt, ExecRefusal>
    ghost setting: { Setting }
    requires plan { graph.now ≡ setting.plan }
    requires fresh { own.old.attempted ≡ None }
    requires some { own.old.piece.range.from < own.old.piece.range.to }
    requires inside { list_any (holds_end own.old.piece) setting.files ≡ true }
    requires strict { setting.known.strict ≡ true → F.strict kit.old.shelf ≡ true }
    requires reading { IsReading setting.known.told (S.opened kit.old.store) graph.now
        worker.old.readers.items worker.old.place worker.old.bench.pager }
    requires lengths { map length_in worker.old.readers.items ≡ setting.files }
    requires unspent { own.old.piece.spent ≡ None }
    ensures same { own.new.piece ≡ own.old.piece }
    ensures onward { OnOk result
        (own.old.piece.range.from < worked_to own.new.piece own.new.attempted) }
    ensures told { IfOk result (λ receipt. WhereTold setting.known.told
        (λ files. map Arrives receipt.arrivals ≡ spread_done graph.now (items files graph.now)
        (done_range own.old.piece.node own.old.piece.item own.old.piece.range.from
        (worked_to own.new.piece own.new.attempted)))) }
    ensures refused { IfErr result (IsWorkFailed setting.known
        (observed_shelf F.strict F.faults kit.old.shelf kit.new.shelf)
        (observed_store S.files S.faults kit.old.store kit.new.store)
        graph.now (range_of own.old.piece)) }
    ensures reading { IsReading setting.known.told (S.opened kit.new.store) graph.now
        worker.new.readers.items worker.new.place worker.new.bench.pager }
    ensures readers { worker.new.readers.items ≡ worker.old.readers.items }
    ensures kept { IsKitKept F.faults F.strict S.faults S.files S.opened
        kit.old.shelf kit.new.shelf kit.old.store kit.new.store }
    ensures files { kit.new.files ≡ kit.old.files }
{
    let job = Job::Span { piece: own.piece };
    worker.work_job(graph, &Unshared, own, kit, &job)
}

/// What is left of a piece behind an offset.
pub fn behind(piece: &Piece, from: u64) -> Piece
    requires { from ≤ piece.now.range.to }
    ensures { result
        ≡ record piece.now { range = record { from = from; to = piece.now.range.to } } }
{
    Piece {
        range: Range::between(from, piece.range.to()),
        ..*piece
    }
}

/// A piece that failed once more, or the note where that was as often as it may.
pub fn failed(piece: &Piece, refusal: ExecRefusal, attempts: u32) -> Result<Piece, CombineRefusal>
    requires { piece.now.attempts < attempts }
    ensures { IsFailedAgain piece.now refusal attempts result }
{
    let ExecRefusal::Faulted { at, cause } = refusal else {
        return Err(CombineRefusal::NoMemory);
    };
    match next_attempt(piece.attempts, attempts) {
        Next::Retry(made) => Ok(Piece {
            attempts: made,
            ..*piece
        }),
        Next::Spent => Err(CombineRefusal::Fault(FaultNote {
            node: piece.node,
            item: piece.item,
            at,
            attempt: attempts,
            cause,
        })),
    }
}

/// Adds what arrived at the Group.
fn add_arrivals<C: Combiner>(
    alloc: Global,
    arrivals: &[Arrival],
    partials: &mut Partials<C>,
) -> Result<(), CombineRefusal>
    ensures added { OnOk result ((added : ListOf AddedOf) → StandsFor C.stands partials.old added
        → StandsFor C.stands partials.new (added ++ added_by arrivals.now)) }
    ensures parts { OnOk result (partials.new.parts ≡ partials.old.parts + length arrivals.now) }
    ensures refused { IfErr result (IsAddRefused C.takes partials.old.parts arrivals.now) }
{
    for arrival in arrivals {
        add_arrival(alloc, arrival, partials)?;
    }
    Ok(())
}

fn add_arrival<C: Combiner>(
    alloc: Global,
    arrival: &Arrival,
    partials: &mut Partials<C>,
) -> Result<(), CombineRefusal>
    ensures added { OnOk result ((added : ListOf AddedOf) → StandsFor C.stands partials.old added
        → StandsFor C.stands partials.new (added ++ added_by (arrival.now ∷ []))) }
    ensures parts { OnOk result (partials.new.parts ≡ partials.old.parts + 1) }
    ensures refused { IfErr result
        (IsAddRefused C.takes partials.old.parts (arrival.now ∷ [])) }
{
    if partials.parts() >= MOST_PARTS {
        return Err(CombineRefusal::Lift(LiftRefusal::Many));
    }
    let element = &arrival.element;
    let null = Value::Null;
    let key = key_or(element, &null);
    let part = View::Whole(part_of(element));
    if partials.add(alloc, View::Whole(key), element.span, part)? {
        Ok(())
    } else {
        Err(CombineRefusal::Lift(LiftRefusal::Part))
    }
}
