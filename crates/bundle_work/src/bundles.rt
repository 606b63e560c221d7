//! The work on one job, between its claims.
ghost use Rattle.std.specs.Prelude.{◌≡◌, ◌≤◌, ◌<◌, ℕ, List as ListOf, Option as OptionOf, None, Some};
ghost use Rattle.std.specs.Prelude.{[], true, length, map, All, IsSome, IfOk, IfErr, IsSomeAnd, OnOk};
ghost use Rattle.std.specs.List.{list_any};
ghost use Rattle.beam_model.specs.Chains.{Arrives};
ghost use Rattle.beam_model.specs.Flow.{batch_outputs};
ghost use Rattle.beam_model.specs.Positions.{Emission};
ghost use Rattle.beam_model.specs.Spread.{emission_outputs};
ghost use Rattle.beam_ports.specs.Files.{Opening};
ghost use Rattle.beam_ports.specs.Observed.{observed_store};
ghost use Rattle.beam_values.specs.declared.file_text.FileText.{FileText};
ghost use Rattle.bundle_commit.specs.declared.job.Job.TheVariants as jobs;
ghost use Rattle.chain_exec.specs.Causes.{IsCallRefused, observed_shelf};
ghost use Rattle.chain_exec.specs.KeyCalls.{folded_of, folded_of_job, outputs_of_job, state_work_of};
ghost use Rattle.chain_exec.specs.Positions.{IsTimely};
ghost use Rattle.chain_exec.specs.Sources.{source_at};
ghost use Rattle.known_jobs.specs.Calls.{CanCommitAs, HasAttempted, IsJobIn};
ghost use Rattle.known_jobs.specs.Jobs.{Setting};
ghost use Rattle.bundle_work.specs.Bundles.{CanRead, HasClaimedTo, IsFit, IsJobRefused};
ghost use Rattle.bundle_work.specs.Bundles.{IsPieceEnd, StaysAble, counts_of};
ghost use Rattle.bundle_work.specs.Openings.{AreOpened, file_names};
ghost use Rattle.bundle_work.specs.Outside.{IsKitKept};
ghost use Rattle.bundle_work.specs.Reading.{HasTurned, IsReading, IsReleased, StaysReading};
ghost use Rattle.bundle_work.specs.Reading.{is_reader_for, length_in, opened_lengths};

use crate::bench::{Bench, Progress, Stretch, longer};
use crate::claims::Claims;
use crate::kit::Kit;
use crate::reading::{Reader, place_of, readers_of};
use beam_ports::{Opened, Store};
use beam_values::{NoMemory, Options, Pane, Piece, Time};
use bundle_commit::{Job, Receipt, Staging};
use chain_exec::{Buffers, ExecRefusal, run_batch, run_key};
use dofn_traits::Shelf;
use pipeline_graph::Graph;
use pipeline_graph::laws::{
    nodes_have_inputs_and_settings_of_their_kind, nodes_take_elements_of_their_strategy,
    plans_are_small_and_write_something, stateful_nodes_have_no_sessions, strategies_follow_kinds,
};
use sdf_library::Pager;
use std::alloc::Global;
use windowing::laws::windows_hold_their_time;

/// What a worker keeps from job to job, beside its kit.
#[derive(Drop)]
pub struct Worker {
    pub readers: Vec<Reader>,
    /// The place of the reader whose item was read last.
    pub place: usize,
    pub bench: Bench,
    /// How many positions the next stretch has after its first one, at most.
    pub more: u32,
    /// How many positions of a job may emit a value.
    pub bundle: u32,
}

impl Worker {
    /// It has a reader for each item of the plan, and has read nothing.
    pub fn new(
        alloc: Global,
        graph: &Graph,
        files: &[Opened],
        options: &Options,
    ) -> Result<Worker, NoMemory>
        ensures reading { IfOk result (λ worker. (told : OptionOf (ListOf FileText))
            (opened : ℕ → OptionOf Opening) → AreOpened told opened (file_names graph.now) files.now
            → IsReading told opened graph.now
            worker.readers.items worker.place worker.bench.pager) }
        ensures lengths { IfOk result (λ worker.
            map length_in worker.readers.items ≡ opened_lengths graph.now files.now) }
    {
        plans_are_small_and_write_something();
        nodes_have_inputs_and_settings_of_their_kind();
        let readers = readers_of(alloc, graph.plan().nodes.as_slice(), files)?;
        let place = readers.len();
        Ok(Worker {
            readers,
            place,
            bench: Bench::new(alloc)?,
            more: 0,
            bundle: options.bundle,
        })
    }

    /// Gives up what is held only so that the next job takes less: the bytes of the item that was read last, what is
    /// staged, and the lists that are used again. What the next job needs is read and made anew. Takes no memory.
    pub fn release(&mut self)
        ensures released { IsReleased self.old self.new }
        ensures reading { StaysReading self.old self.new }
    {
        self.bench.release();
    }

    /// Works a job that was just taken, of a piece a bundle of its positions; the functions are told when the bundle
    /// starts and when it is over, also where it was refused. A refused job is still worked; what was staged of it is
    /// dropped.
    pub fn work_job<C: Claims, F: Shelf, S: Store>(
        &mut self,
        graph: &Graph,
        claims: &C,
        pass: &mut C::Pass,
        kit: &mut Kit<F, S>,
        job: &Job,
    ) -> Result<Receipt, ExecRefusal>
        ghost setting: { Setting }
        requires own { C.is_of claims.now pass.old }
        requires taken { C.known claims.now pass.old
            ≡ Some (record { job = job.now; attempted = None }) }
        requires inside { IsJobIn setting job.now }
        requires plan { graph.now ≡ setting.plan }
        requires strict { setting.known.strict ≡ true → F.strict kit.old.shelf ≡ true }
        requires reading { IsReading setting.known.told (S.opened kit.old.store) graph.now
            self.old.readers.items self.old.place self.old.bench.pager }
        requires lengths { map length_in self.old.readers.items ≡ setting.files }
        ensures own { C.is_of claims.now pass.new }
        ensures claims { C.stays claims.now pass.old pass.new }
        ensures given { IfOk result (CanCommitAs setting (C.known claims.now pass.new)) }
        ensures goes_on { OnOk result (HasAttempted (C.known claims.now pass.new)) }
        ensures refused { IfErr result (IsJobRefused setting
            (observed_shelf F.strict F.faults kit.old.shelf kit.new.shelf)
            (observed_store S.files S.faults kit.old.store kit.new.store)
            (C.known claims.now pass.new)) }
        ensures reading { IsReading setting.known.told (S.opened kit.new.store) graph.now
            self.new.readers.items self.new.place self.new.bench.pager }
        ensures readers { self.new.readers.items ≡ self.old.readers.items }
        ensures kept { IsKitKept F.faults F.strict S.faults S.files S.opened
            kit.old.shelf kit.new.shelf kit.old.store kit.new.store }
        ensures files { kit.new.files ≡ kit.old.files }
    {
        kit.shelf.start_bundle();
        let worked = self.work_in_bundle(graph, claims, pass, kit, job);
        kit.shelf.finish_bundle();
        worked
    }

    // Works a job between the start of its bundle and the finish.
    fn work_in_bundle<C: Claims, F: Shelf, S: Store>(
        &mut self,
        graph: &Graph,
        claims: &C,
        pass: &mut C::Pass,
        kit: &mut Kit<F, S>,
        job: &Job,
    ) -> Result<Receipt, ExecRefusal>
        ghost setting: { Setting }
        requires own { C.is_of claims.now pass.old }
        requires taken { C.known claims.now pass.old
            ≡ Some (record { job = job.now; attempted = None }) }
        requires inside { IsJobIn setting job.now }
        requires plan { graph.now ≡ setting.plan }
        requires strict { setting.known.strict ≡ true → F.strict kit.old.shelf ≡ true }
        requires reading { IsReading setting.known.told (S.opened kit.old.store) graph.now
            self.old.readers.items self.old.place self.old.bench.pager }
        requires lengths { map length_in self.old.readers.items ≡ setting.files }
        ensures own { C.is_of claims.now pass.new }
        ensures claims { C.stays claims.now pass.old pass.new }
        ensures given { IfOk result (CanCommitAs setting (C.known claims.now pass.new)) }
        ensures goes_on { OnOk result (HasAttempted (C.known claims.now pass.new)) }
        ensures refused { IfErr result (IsJobRefused setting
            (observed_shelf F.strict F.faults kit.old.shelf kit.new.shelf)
            (observed_store S.files S.faults kit.old.store kit.new.store)
            (C.known claims.now pass.new)) }
        ensures reading { IsReading setting.known.told (S.opened kit.new.store) graph.now
            self.new.readers.items self.new.place self.new.bench.pager }
        ensures readers { self.new.readers.items ≡ self.old.readers.items }
        ensures kept { IsKitKept F.faults F.strict S.faults S.files S.opened
            kit.old.shelf kit.new.shelf kit.old.store kit.new.store }
        ensures files { kit.new.files ≡ kit.old.files }
    {
        match job {
            Job::Span { piece } => self.work_span(graph, claims, pass, kit, piece),
            Job::Batch { node, panes, .. } => work_batch(
                self.bench.alloc,
                graph,
                *node,
                panes.as_slice(),
                &mut kit.shelf,
                &mut self.bench.buffers,
            ),
            Job::Key { .. } => work_key(
                self.bench.alloc,
                graph,
                job,
                &mut kit.shelf,
                &mut self.bench.buffers,
            ),
        }
    }

    // Works positions of a piece with the reader of its item, and none of a spent one. The first one is claimed before it is
    // worked, and alone: a range of which nothing is attempted can be split before its start, so others could take it again
    // and again.
    fn work_span<C: Claims, F: Shelf, S: Store>(
        &mut self,
        graph: &Graph,
        claims: &C,
        pass: &mut C::Pass,
        kit: &mut Kit<F, S>,
        piece: &Piece,
    ) -> Result<Receipt, ExecRefusal>
        ghost setting: { Setting }
        requires own { C.is_of claims.now pass.old }
        requires taken { C.known claims.now pass.old
            ≡ Some (record { job = jobs.Span piece.now; attempted = None }) }
        requires plan { graph.now ≡ setting.plan }
        requires strict { setting.known.strict ≡ true → F.strict kit.old.shelf ≡ true }
        requires reading { IsReading setting.known.told (S.opened kit.old.store) graph.now
            self.old.readers.items self.old.place self.old.bench.pager }
        requires inside { IsJobIn setting (jobs.Span piece.now) }
        requires lengths { map length_in self.old.readers.items ≡ setting.files }
        ensures own { C.is_of claims.now pass.new }
        ensures claims { C.stays claims.now pass.old pass.new }
        ensures given { IfOk result (CanCommitAs setting (C.known claims.now pass.new)) }
        ensures goes_on { OnOk result (HasAttempted (C.known claims.now pass.new)) }
        ensures refused { IfErr result (IsJobRefused setting
            (observed_shelf F.strict F.faults kit.old.shelf kit.new.shelf)
            (observed_store S.files S.faults kit.old.store kit.new.store)
            (C.known claims.now pass.new)) }
        ensures reading { IsReading setting.known.told (S.opened kit.new.store) graph.now
            self.new.readers.items self.new.place self.new.bench.pager }
        ensures readers { self.new.readers.items ≡ self.old.readers.items }
        ensures kept { IsKitKept F.faults F.strict S.faults S.files S.opened
            kit.old.shelf kit.new.shelf kit.old.store kit.new.store }
        ensures files { kit.new.files ≡ kit.old.files }
    {
        let count = most_outputs(piece, self.bundle);
        self.bench.staging = Staging::expecting(self.bench.alloc, piece.seen, count);
        let from = piece.range.from();
        // Nothing is claimed of a spent piece: its commit sets the position aside.
        if piece.spent.is_some() {
            return Ok(self.bench.take_receipt());
        }
        let end = claims.claim_end(pass, from);
        if end <= from {
            return Ok(self.bench.take_receipt());
        }
        self.turn_to(piece);
        match self.work_positions(graph, claims, pass, kit, piece, end) {
            Ok(()) => Ok(self.bench.take_receipt()),
            Err(refusal) => Err(refusal),
        }
    }

    // Turns to the item of a piece. What was held of another one is let go.
    fn turn_to(&mut self, piece: &Piece)
        requires { list_any (is_reader_for piece.now) self.old.readers.items ≡ true }
        ensures turned { HasTurned piece.now self.old.readers.items
            self.old.place self.new.place self.old.bench.pager self.new.bench.pager }
        ensures readers { self.new.readers.items ≡ self.old.readers.items }
        ensures staging { self.new.bench.staging ≡ self.old.bench.staging }
    {
        let Some(place) = place_of(self.readers.as_slice(), self.place, piece) else {
            unreachable!();
        };
        if place != self.place {
            let reader = self.readers[place];
            self.bench.pager = Pager::new(self.bench.alloc, reader.file, reader.len);
            self.place = place;
        }
    }

    // Works the first position of a piece, which is claimed, and then works and claims one stretch of positions after
    // another, until a claim is refused or as many as are in a bundle emitted a value. What the claimed ones bring is staged.
    fn work_positions<C: Claims, F: Shelf, S: Store>(
        &mut self,
        graph: &Graph,
        claims: &C,
        pass: &mut C::Pass,
        kit: &mut Kit<F, S>,
        piece: &Piece,
        end: u64,
    ) -> Result<(), ExecRefusal>
        requires own { C.is_of claims.now pass.old }
        requires claimed { HasClaimedTo piece.now end (C.known claims.now pass.old) }
        requires inside { piece.now.range.from < end }
        requires nothing { self.old.bench.staging
            ≡ record { arrivals = []; seen = piece.now.seen; logged = None } }
        requires able { CanRead graph.now piece.now.node
            (S.opened kit.old.store self.old.bench.pager.file) self.old.bench.pager }
        requires reaches { piece.now.range.to ≤ self.old.bench.pager.len }
        ensures own { C.is_of claims.now pass.new }
        ensures claims { C.stays claims.now pass.old pass.new }
        ensures end { IsPieceEnd (observed_shelf F.strict F.faults kit.old.shelf kit.new.shelf)
            (counts_of S.faults kit.old.store kit.new.store) graph.now
            (S.opened kit.old.store self.old.bench.pager.file) self.old.bench.pager.len
            piece.now (C.known claims.now pass.new) self.new.bench.staging result }
        ensures stays { StaysAble F.faults F.strict S.faults S.files S.opened graph.now
            piece.now.node kit.old kit.new self.old.bench.pager self.new.bench.pager }
        ensures readers { self.new.readers.items ≡ self.old.readers.items }
        ensures place { self.new.place ≡ self.old.place }
    {
        outputs_are_fit(graph);
        let p = piece.range.from();
        let step = self.bench.work_next(graph, kit, piece, p)?;
        let mut at = Progress {
            next: step.next,
            end,
            room: self.bundle.saturating_sub(u32::from(step.emitted)),
        };
        'stretches: while at.room > 0 {
            if at.next >= at.end {
                let _end = claims.claim_end(pass, at.next);
                break;
            }
            let more = self.more;
            match self
                .bench
                .work_stretch(graph, claims, pass, kit, piece, at, more)?
            {
                Stretch::Claimed(onward) => {
                    at = onward;
                    self.more = longer(more);
                }
                Stretch::Cut => {
                    self.more = 0;
                    break;
                }
            }
        }
        Ok(())
    }
}

// How many elements a bundle of a piece mostly puts out at most: one for each of its positions.
fn most_outputs(piece: &Piece, bundle: u32) -> usize {
    let positions = piece.range.to().saturating_sub(piece.range.from());
    positions.min(u64::from(bundle)) as usize
}

// How many calls a key job has.
fn count_inputs(job: &Job) -> usize {
    match job {
        Job::Key { inputs, .. } => inputs.get().len(),
        Job::Batch { .. } | Job::Span { .. } => 0,
    }
}

// The panes of a batch go on.
fn work_batch<F: Shelf>(
    alloc: Global,
    graph: &Graph,
    node: u32,
    panes: &[Pane],
    shelf: &mut F,
    buffers: &mut Buffers,
) -> Result<Receipt, ExecRefusal>
    requires { node < length graph.now.nodes }
    ensures given { IfOk result
        (λ receipt. (map Arrives receipt.arrivals ≡ batch_outputs graph.now node panes.now)
        × (receipt.logged ≡ None)) }
    ensures refused { IfErr result
        (IsCallRefused (observed_shelf F.strict F.faults shelf.old shelf.new)
        (batch_outputs graph.now node panes.now)) }
    ensures counts { F.faults shelf.old ≤ F.faults shelf.new }
    ensures strict { F.strict shelf.new ≡ F.strict shelf.old }
{
    let mut staging = Staging::expecting(alloc, Time::LEAST, panes.len());
    run_batch(alloc, graph, shelf, node, panes, buffers, &mut staging)?;
    Ok(staging.seal())
}

// The function of a Stateful node is called on what a key job has.
fn work_key<F: Shelf>(
    alloc: Global,
    graph: &Graph,
    job: &Job,
    shelf: &mut F,
    buffers: &mut Buffers,
) -> Result<Receipt, ExecRefusal>
    requires { IsSome (state_work_of graph.now job.now) }
    ensures given { IfOk result
        (λ receipt. (map Arrives receipt.arrivals ≡ outputs_of_job graph.now job.now)
        × IsSomeAnd receipt.logged
        (λ logged. folded_of_job graph.now job.now ≡ Some (folded_of logged))) }
    ensures refused { IfErr result
        (IsCallRefused (observed_shelf F.strict F.faults shelf.old shelf.new)
        (outputs_of_job graph.now job.now)) }
    ensures counts { F.faults shelf.old ≤ F.faults shelf.new }
    ensures strict { F.strict shelf.new ≡ F.strict shelf.old }
{
    let mut staged = Staging::expecting(alloc, Time::LEAST, count_inputs(job));
    run_key(alloc, graph, shelf, job, buffers, &mut staged)?;
    Ok(staged.seal())
}

// A law: where the outputs of a source can get, and in which windows.
fn outputs_are_fit(graph: &Graph)
    ensures { (source : ℕ) → IsSome (source_at graph.now source)
        → (emitted : Emission) → IsTimely emitted
        → All (IsFit graph.now source) (emission_outputs graph.now source emitted) }
{
    stateful_nodes_have_no_sessions();
    nodes_take_elements_of_their_strategy();
    strategies_follow_kinds();
    nodes_have_inputs_and_settings_of_their_kind();
    windows_hold_their_time();
    let _plan = graph.plan();
}
