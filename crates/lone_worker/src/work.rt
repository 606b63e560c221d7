//! The work of a slot on its job, a position at a time.
ghost use Rattle.std.specs.Prelude.{◌≡◌, ◌<◌, ◌≤ℤ◌, ℕ, [], None, true, All, IfErr, IfOk, IsSome};
ghost use Rattle.std.specs.Prelude.{OnErr, OnOk};
ghost use Rattle.std.specs.List.{list_any};
ghost use Rattle.beam_model.specs.Positions.{Emission};
ghost use Rattle.beam_model.specs.Spread.{emission_outputs};
ghost use Rattle.beam_ports.specs.Observed.{observed_store};
ghost use Rattle.beam_values.specs.Times.{greatest_time};
ghost use Rattle.book_core.specs.Calls.{Makes};
ghost use Rattle.book_core.specs.Steps.{Claim, Claimed};
ghost use Rattle.chain_exec.specs.Causes.{observed_shelf};
ghost use Rattle.chain_exec.specs.Positions.{IsNextOf, IsTimely};
ghost use Rattle.chain_exec.specs.Sources.{source_at};
ghost use Rattle.known_jobs.specs.Calls.{IsJobIn};
ghost use Rattle.known_jobs.specs.Jobs.{known_at};
ghost use Rattle.bundle_work.specs.Bundles.{CanRead, HasWorked, IsFit, IsRefusedAt, StaysAble};
ghost use Rattle.bundle_work.specs.Bundles.{counts_of};
ghost use Rattle.bundle_work.specs.Outside.{IsKitKept};
ghost use Rattle.bundle_work.specs.Reading.{HasTurned, is_reader_for};
ghost use Rattle.lone_worker.specs.Work.{Base, IsClaimDone, IsReadingOn, IsRunDone, IsWorkAt};
ghost use Rattle.lone_worker.specs.Work.{first_of, first_stage, is_granted, may_claim_in, may_run_in};
ghost use Rattle.lone_worker.specs.Work.{receipt_of, seen_of};

use crate::at_slot::AtSlot;
use beam_ports::Store;
use beam_values::{Cause, NoMemory, Piece, Time};
use book_core::Book;
use bundle_commit::{Job, Receipt, Staging};
use bundle_work::{Kit, Worker, place_of, work_position};
use chain_exec::{ExecRefusal, Step};
use dofn_traits::Shelf;
use known_jobs::claim_end;
use pipeline_graph::Graph;
use pipeline_graph::laws::{
    nodes_have_inputs_and_settings_of_their_kind, nodes_take_elements_of_their_strategy,
    stateful_nodes_have_no_sessions, strategies_follow_kinds,
};
use sdf_library::Pager;
use std::alloc::Global;
use windowing::laws::windows_hold_their_time;

/// How far the work on a job is.
#[derive(Clone, Copy, Debug, PartialEq, Eq)]
pub enum Stage {
    /// It goes on.
    Open,
    /// A claim of the range was refused, the batch or the key job was run, or the piece was spent when it was taken.
    Over,
    /// It failed, at this node.
    Faulted { at: u32, cause: Cause },
}

/// What came of a claim.
#[derive(Clone, Copy, Debug, PartialEq, Eq)]
pub enum ClaimEnd {
    Refused,
    /// It was granted, and the position was worked. A watermark alone is no value.
    Worked { emitted: bool },
    /// It was granted, and the work on the position failed.
    Faulted,
}

/// What a slot works.
#[derive(Debug, Drop)]
pub struct Work {
    /// The job as it was taken.
    pub job: Job,
    /// The position of a range that is claimed next.
    pub next: u64,
    pub stage: Stage,
    /// What the claimed positions of a range bring.
    pub staged: Staging,
    /// What a batch or a key job that was run brings.
    pub receipt: Option<Receipt>,
}

impl Work {
    /// The work on a job that was just taken. Takes no memory.
    pub fn start(alloc: Global, job: Job) -> Work
        ensures { result ≡ record {
          job = job;
          next = first_of job;
          stage = first_stage job;
          staged = record { arrivals = []; seen = seen_of job; logged = None };
          receipt = None;
        } }
    {
        let (next, seen) = match &job {
            Job::Span { piece } => (piece.range.from(), piece.seen),
            _ => (0, Time::LEAST),
        };
        let stage = first_stage(&job);
        Work {
            job,
            next,
            stage,
            staged: Staging::new(alloc, seen),
            receipt: None,
        }
    }

    /// What it brings to its commit. Takes no memory.
    pub fn into_receipt(self) -> Receipt
        ensures same { result ≡ receipt_of self }
        ensures time { result.seen ≤ℤ greatest_time }
    {
        let Work {
            staged,
            receipt,
            ..
        } = self;
        let receipt = match receipt {
            Some(receipt) => receipt,
            None => staged.seal(),
        };
        let _ms = receipt.seen.ms();
        receipt
    }
}

// A spent piece is committed as it was taken.
fn first_stage(job: &Job) -> Stage
    ensures { result ≡ first_stage job.now }
{
    match job {
        Job::Span { piece } if piece.spent.is_some() => Stage::Over,
        _ => Stage::Open,
    }
}

impl AtSlot {
    /// Claims the next position of a range, and works it where that is granted. Where there is no memory for that, the position is
    /// claimed.
    pub fn claim<F: Shelf, S: Store>(
        &self,
        book: &mut Book,
        graph: &Graph,
        kit: &mut Kit<F, S>,
        worker: &mut Worker,
        work: &mut Work,
    ) -> Result<ClaimEnd, NoMemory>
        ghost base: { Base }
        requires plan { graph.now ≡ base.setting.plan }
        requires strict { base.setting.known.strict ≡ true → F.strict kit.old.shelf ≡ true }
        requires reading { IsReadingOn base (S.opened kit.old.store)
            worker.old.readers.items worker.old.place worker.old.bench.pager }
        requires inside { IsJobIn base.setting work.old.job }
        requires work { IsWorkAt base (known_at book.old self.now.slot) work.old }
        requires may { may_claim_in work.old.job work.old.stage ≡ true }
        ensures step { IfOk result (λ claim. Makes book.old self.now.slot (Claim work.old.next)
            (Claimed (is_granted claim)) book.new) }
        ensures claimed { OnErr result (Makes book.old self.now.slot (Claim work.old.next)
            (Claimed true) book.new) }
        ensures done { IfOk result (IsClaimDone base.setting
            (observed_shelf F.strict F.faults kit.old.shelf kit.new.shelf)
            (observed_store S.files S.faults kit.old.store kit.new.store)
            (known_at book.new self.now.slot) work.old work.new) }
        ensures work { OnOk result
            (IsWorkAt base (known_at book.new self.now.slot) work.new) }
        ensures reading { IsReadingOn base (S.opened kit.new.store)
            worker.new.readers.items worker.new.place worker.new.bench.pager }
        ensures kept { IsKitKept F.faults F.strict S.faults S.files S.opened
            kit.old.shelf kit.new.shelf kit.old.store kit.new.store }
        ensures files { kit.new.files ≡ kit.old.files }
    {
        outputs_are_fit(graph);
        book.is_sane();
        let Job::Span { piece } = work.job else {
            unreachable!();
        };
        let p = work.next;
        let end = claim_end(book, self.slot, p);
        if p >= end {
            // What was seen is a time.
            let _ms = work.staged.seen().ms();
            work.stage = Stage::Over;
            return Ok(ClaimEnd::Refused);
        }
        turn_to(worker, &piece);
        match work_at(graph, kit, worker, piece.node, p, &mut work.staged) {
            Ok(step) => {
                work.next = step.next;
                Ok(ClaimEnd::Worked {
                    emitted: step.emitted,
                })
            }
            Err(ExecRefusal::Faulted { at, cause }) => {
                work.stage = Stage::Faulted { at, cause };
                Ok(ClaimEnd::Faulted)
            }
            Err(ExecRefusal::NoMemory) => Err(NoMemory),
        }
    }

    /// Runs a batch or a key job. Whether it was worked is what is answered.
    pub fn run<F: Shelf, S: Store>(
        &self,
        book: &mut Book,
        graph: &Graph,
        kit: &mut Kit<F, S>,
        worker: &mut Worker,
        work: &mut Work,
    ) -> Result<bool, NoMemory>
        ghost base: { Base }
        requires plan { graph.now ≡ base.setting.plan }
        requires strict { base.setting.known.strict ≡ true → F.strict kit.old.shelf ≡ true }
        requires reading { IsReadingOn base (S.opened kit.old.store)
            worker.old.readers.items worker.old.place worker.old.bench.pager }
        requires inside { IsJobIn base.setting work.old.job }
        requires work { IsWorkAt base (known_at book.old self.now.slot) work.old }
        requires may { may_run_in work.old.job work.old.stage ≡ true }
        ensures book { book.new ≡ book.old }
        ensures done { IfOk result (IsRunDone base.setting
            (observed_shelf F.strict F.faults kit.old.shelf kit.new.shelf)
            (observed_store S.files S.faults kit.old.store kit.new.store)
            (known_at book.new self.now.slot) work.old work.new) }
        ensures work { OnOk result
            (IsWorkAt base (known_at book.new self.now.slot) work.new) }
        ensures reading { IsReadingOn base (S.opened kit.new.store)
            worker.new.readers.items worker.new.place worker.new.bench.pager }
        ensures kept { IsKitKept F.faults F.strict S.faults S.files S.opened
            kit.old.shelf kit.new.shelf kit.old.store kit.new.store }
        ensures files { kit.new.files ≡ kit.old.files }
    {
        match worker.work_job(graph, self, book, kit, &work.job) {
            Ok(receipt) => {
                work.receipt = Some(receipt);
                work.stage = Stage::Over;
                Ok(true)
            }
            Err(ExecRefusal::Faulted { at, cause }) => {
                work.stage = Stage::Faulted { at, cause };
                Ok(false)
            }
            Err(ExecRefusal::NoMemory) => Err(NoMemory),
        }
    }
}

// Turns a worker to the item of a piece. What it held of another one is let go.
fn turn_to(worker: &mut Worker, piece: &Piece)
    requires { list_any (is_reader_for piece.now) worker.old.readers.items ≡ true }
    ensures turned { HasTurned piece.now worker.old.readers.items
        worker.old.place worker.new.place worker.old.bench.pager worker.new.bench.pager }
    ensures readers { worker.new.readers.items ≡ worker.old.readers.items }
{
    let Some(place) = place_of(worker.readers.as_slice(), worker.place, piece) else {
        unreachable!();
    };
    if place != worker.place {
        let reader = worker.readers[place];
        worker.bench.pager = Pager::new(worker.bench.alloc, reader.file, reader.len);
        worker.place = place;
    }
}

// A law: where the outputs of a source can get, and in which windows.
fn outputs_are_fit(graph: &Graph)
    ensures { (source : ℕ) → IsSome (source_at graph.now source)
        → (emitted : Emission) → IsTimely emitted
        → All (IsFit graph.now source) (emission_outputs graph.now source emitted) }
{
    stateful_nodes_have_no_sessions();
    nodes_take_elements_of_their_strategy();
    strategies_follow_kinds();
    nodes_have_inputs_and_settings_of_their_kind();
    windows_hold_their_time();
    let _plan = graph.plan();
}

// Works a position with the pager that the worker has turned to. Slots take turns at one kit, so the functions are told
// of each position as of a bundle of its own.
fn work_at<F: Shelf, S: Store>(
    graph: &Graph,
    kit: &mut Kit<F, S>,
    worker: &mut Worker,
    node: u32,
    p: u64,
    staged: &mut Staging,
) -> Result<Step, ExecRefusal>
    requires able { CanRead graph.now node
        (S.opened kit.old.store worker.old.bench.pager.file) worker.old.bench.pager }
    requires inside { p < worker.old.bench.pager.len }
    ensures worked { IfOk result (HasWorked graph.now node
        (S.opened kit.old.store worker.old.bench.pager.file) worker.old.bench.pager.len p
        staged.old staged.new) }
    ensures next { IfOk result (λ step. IsNextOf p worker.old.bench.pager.len step.next) }
    ensures refused { IfErr result
        (IsRefusedAt (observed_shelf F.strict F.faults kit.old.shelf kit.new.shelf)
        (counts_of S.faults kit.old.store kit.new.store) graph.now node
        (S.opened kit.old.store worker.old.bench.pager.file) worker.old.bench.pager.len p) }
    ensures stays { StaysAble F.faults F.strict S.faults S.files S.opened
        graph.now node kit.old kit.new worker.old.bench.pager worker.new.bench.pager }
    ensures readers { worker.new.readers.items ≡ worker.old.readers.items }
    ensures place { worker.new.place ≡ worker.old.place }
{
    kit.shelf.start_bundle();
    let bench = &mut worker.bench;
    let worked = work_position(
        bench.alloc,
        graph,
        node,
        kit,
        &mut bench.pager,
        p,
        &mut bench.buffers,
        staged,
    );
    kit.shelf.finish_bundle();
    worked
}
