//! Where a replay stands between two lines, and what a line does there.
ghost use Rattle.std.specs.Prelude.{◌≡◌, ◌<◌, ◌≤◌, true, Some, IfOk, OnOk};
ghost use Rattle.beam_values.specs.declared.piece.Piece.{Piece};
ghost use Rattle.beam_ports.specs.Observed.{observed_store};
ghost use Rattle.book_core.specs.Calls.{live_piece};
ghost use Rattle.book_core.specs.Left.{rounds_left};
ghost use Rattle.chain_exec.specs.Causes.{observed_shelf};
ghost use Rattle.known_jobs.specs.Calls.{FailsInside, HasAttempted};
ghost use Rattle.known_jobs.specs.Jobs.{known_at};
ghost use Rattle.bundle_work.specs.Outside.{IsKitKept};
ghost use Rattle.bundle_work.specs.Reading.{AreReaders};
ghost use Rattle.lone_worker.specs.Work.{Base, IsReadingOn};
ghost use Rattle.schedule_words.specs.Schedules.{IsFraction};
ghost use Rattle.schedule_replay.specs.Lines.{fault_of, node_of, took_job};
ghost use Rattle.schedule_replay.specs.Shown.{shown};
ghost use Rattle.schedule_replay.specs.Standing.{HasClaimed, HasCommitted, HasFailed, HasRun};
ghost use Rattle.schedule_replay.specs.Standing.{HasSplit, HasTaken, IsOrdered, IsStanding};
ghost use Rattle.schedule_replay.specs.Stands.{is_allowed, may_claim, may_commit, may_fail, may_run};
ghost use Rattle.schedule_replay.specs.Stands.{may_take, work_at};

use crate::slots::{are_free, may_claim, may_commit, may_fail, may_run, may_take, take_out};
use beam_ports::Store;
use beam_values::{Cause, NoMemory};
use book_core::laws::rounds_are_bounded;
use book_core::{Book, Failure, Taken};
use bundle_commit::Job;
use bundle_work::{Kit, Worker};
use dofn_traits::Shelf;
use known_jobs::laws::jobs_are_known_as_they_are_taken;
use lone_worker::{AtSlot, ClaimEnd, Stage, Work};
use pipeline_graph::Graph;
use schedule_words::{Line, Took};
use std::alloc::Global;

/// Where a replay stands.
#[derive(Debug, Drop)]
pub struct Stand {
    pub book: Book,
    /// Of each slot what it works, if anything.
    pub works: Vec<Option<Work>>,
}

impl Stand {
    /// Whether a line may be worked here.
    pub fn allows(&self, line: Line) -> bool
        ensures { result ≡ is_allowed (shown self.now) line }
    {
        let works = self.works.as_slice();
        match line {
            Line::Take { slot } => may_take(works, slot),
            Line::Claim { slot } => may_claim(works, slot),
            Line::RunJob { slot } => may_run(works, slot),
            Line::Split { slot, .. } => (slot as usize) < works.len(),
            Line::Commit { slot } => may_commit(works, slot),
            Line::Fail { slot } => may_fail(works, slot),
            Line::Drain => are_free(works),
        }
    }

    /// The slot takes a job.
    pub fn take(&mut self, alloc: Global, slot: u32) -> Result<Took, NoMemory>
        ghost base: { Base }
        requires standing { IsStanding base self.old }
        requires may { may_take (work_at (shown self.old) slot) ≡ true }
        ensures done { IfOk result
            (HasTaken base.setting.known.told (shown self.old) (shown self.new) slot) }
        ensures standing { OnOk result (IsStanding base self.new) }
        ensures rounds { rounds_left self.new.book ≤ rounds_left self.old.book }
    {
        self.book.is_sane();
        rounds_are_bounded();
        jobs_are_known_as_they_are_taken();
        match self.book.take(slot)? {
            Taken::Job(job) => {
                let what = took_job(&job);
                self.works[slot as usize] = Some(Work::start(alloc, job));
                Ok(what)
            }
            Taken::Nothing => Ok(Took::Nothing),
            Taken::Finished => Ok(Took::Finished),
            Taken::Stopped => Ok(Took::Stopped),
        }
    }

    /// The slot claims its next position, and works it. Answers the position too.
    pub fn claim<F: Shelf, S: Store>(
        &mut self,
        slot: u32,
        graph: &Graph,
        kit: &mut Kit<F, S>,
        worker: &mut Worker,
    ) -> Result<(u64, ClaimEnd), NoMemory>
        ghost base: { Base }
        requires plan { graph.now ≡ base.setting.plan }
        requires strict { base.setting.known.strict ≡ true → F.strict kit.old.shelf ≡ true }
        requires reading { IsReadingOn base (S.opened kit.old.store)
            worker.old.readers.items worker.old.place worker.old.bench.pager }
        requires standing { IsStanding base self.old }
        requires may { may_claim (work_at (shown self.old) slot) ≡ true }
        ensures done { IfOk result (λ end. HasClaimed base
            (observed_shelf F.strict F.faults kit.old.shelf kit.new.shelf)
            (observed_store S.files S.faults kit.old.store kit.new.store)
            (shown self.old) (shown self.new) slot end.0 end.1) }
        ensures standing { OnOk result (IsStanding base self.new) }
        ensures attempted { OnOk result (HasAttempted (known_at self.new.book slot)) }
        ensures rounds { OnOk result
            (rounds_left self.new.book ≡ rounds_left self.old.book) }
        ensures reading { IsReadingOn base (S.opened kit.new.store)
            worker.new.readers.items worker.new.place worker.new.bench.pager }
        ensures kept { IsKitKept F.faults F.strict S.faults S.files S.opened
            kit.old.shelf kit.new.shelf kit.old.store kit.new.store }
        ensures files { kit.new.files ≡ kit.old.files }
    {
        self.book.is_sane();
        rounds_are_bounded();
        let Some(mut work) = take_out(&mut self.works, slot) else {
            unreachable!();
        };
        let p = work.next;
        let at = AtSlot { slot };
        let claimed = at.claim(&mut self.book, graph, kit, worker, &mut work);
        self.works[slot as usize] = Some(work);
        match claimed {
            Ok(claim) => Ok((p, claim)),
            Err(NoMemory) => Err(NoMemory),
        }
    }

    /// The slot runs its batch or its key job. Answers whether it was worked.
    pub fn run<F: Shelf, S: Store>(
        &mut self,
        slot: u32,
        graph: &Graph,
        kit: &mut Kit<F, S>,
        worker: &mut Worker,
    ) -> Result<bool, NoMemory>
        ghost base: { Base }
        requires plan { graph.now ≡ base.setting.plan }
        requires strict { base.setting.known.strict ≡ true → F.strict kit.old.shelf ≡ true }
        requires reading { IsReadingOn base (S.opened kit.old.store)
            worker.old.readers.items worker.old.place worker.old.bench.pager }
        requires standing { IsStanding base self.old }
        requires may { may_run (work_at (shown self.old) slot) ≡ true }
        ensures done { IfOk result (HasRun base
            (observed_shelf F.strict F.faults kit.old.shelf kit.new.shelf)
            (observed_store S.files S.faults kit.old.store kit.new.store)
            (shown self.old) (shown self.new) slot) }
        ensures standing { OnOk result (IsStanding base self.new) }
        ensures book { self.new.book ≡ self.old.book }
        ensures reading { IsReadingOn base (S.opened kit.new.store)
            worker.new.readers.items worker.new.place worker.new.bench.pager }
        ensures kept { IsKitKept F.faults F.strict S.faults S.files S.opened
            kit.old.shelf kit.new.shelf kit.old.store kit.new.store }
        ensures files { kit.new.files ≡ kit.old.files }
    {
        let Some(mut work) = take_out(&mut self.works, slot) else {
            unreachable!();
        };
        let at = AtSlot { slot };
        let worked = at.run(&mut self.book, graph, kit, worker, &mut work);
        self.works[slot as usize] = Some(work);
        worked
    }

    /// The slot's range is split. Answers where.
    pub fn split(&mut self, slot: u32, num: u32, den: u32) -> Result<Option<u64>, NoMemory>
        ghost base: { Base }
        requires standing { IsStanding base self.old }
        requires proper { IsFraction num den }
        ensures done { IfOk result
            (HasSplit base.setting.known.told (shown self.old) (shown self.new) slot num den) }
        ensures standing { OnOk result (IsStanding base self.new) }
    {
        self.book.is_sane();
        let at = self.book.split(slot, u64::from(num), u64::from(den))?;
        live_range_is_ordered(&self.book, slot);
        Ok(at)
    }

    /// The slot's job is committed. Answers how many panes that fired and how many elements it dropped.
    pub fn commit(&mut self, slot: u32) -> Result<(u32, u32), NoMemory>
        ghost base: { Base }
        requires standing { IsStanding base self.old }
        requires readers { AreReaders base.setting.known.told base.opened base.setting.plan
            base.readers }
        requires may { may_commit (work_at (shown self.old) slot) ≡ true }
        ensures done { IfOk result (λ counts. HasCommitted base.setting.known.told
            (shown self.old) (shown self.new) slot counts.0 counts.1) }
        ensures standing { OnOk result (IsStanding base self.new) }
        ensures rounds { OnOk result (HasAttempted (known_at self.old.book slot)
            → rounds_left self.new.book < rounds_left self.old.book) }
    {
        self.book.is_sane();
        rounds_are_bounded();
        let Some(work) = take_out(&mut self.works, slot) else {
            unreachable!();
        };
        let fired = self.book.fired();
        let dropped = self.book.dropped();
        match self.book.commit(slot, work.into_receipt()) {
            Ok(()) => Ok((self.book.fired() - fired, self.book.dropped() - dropped)),
            Err(_unplaced) => Err(NoMemory),
        }
    }

    /// The slot's job is failed, as its work was. Answers whether that stopped the run.
    pub fn fail(&mut self, slot: u32) -> bool
        ghost base: { Base }
        requires standing { IsStanding base self.old }
        requires may { may_fail (work_at (shown self.old) slot) ≡ true }
        ensures done { HasFailed base.setting.known.told (shown self.old) (shown self.new) slot
            result }
        ensures standing { IsStanding base self.new }
        ensures rounds { FailsInside (known_at self.old.book slot)
            → rounds_left self.new.book < rounds_left self.old.book }
    {
        self.book.is_sane();
        rounds_are_bounded();
        let Some(work) = take_out(&mut self.works, slot) else {
            unreachable!();
        };
        let (at, cause) = last_fault(work);
        match self.book.fail(slot, at, cause) {
            Failure::Retry => false,
            Failure::Spent(_note) => true,
        }
    }
}

// A law: the ends of the range that a slot works are in order.
fn live_range_is_ordered(book: &Book, slot: u32)
    ensures { (piece : Piece) → live_piece book.now slot ≡ Some piece
        → piece.range.from ≤ piece.range.to }
{
    if let Some(piece) = book.live(slot) {
        let _from = piece.range.from();
    }
}

// The fault of a work that ends with it.
fn last_fault(work: Work) -> (u32, Cause)
    ensures at { result.0 ≡ (fault_of work.job work.stage).at }
    ensures cause { result.1 ≡ (fault_of work.job work.stage).cause }
{
    fault_of(&work)
}

// The fault that a work met, and else a call of the job's own node.
fn fault_of(work: &Work) -> (u32, Cause)
    ensures at { result.0 ≡ (fault_of work.now.job work.now.stage).at }
    ensures cause { result.1 ≡ (fault_of work.now.job work.now.stage).cause }
{
    match work.stage {
        Stage::Faulted { at, cause } => (at, cause),
        _ => (node_of(&work.job), Cause::Call),
    }
}

fn node_of(job: &Job) -> u32
    ensures { result ≡ node_of job.now }
{
    match job {
        Job::Span { piece } => piece.node,
        Job::Batch { node, .. } => *node,
        Job::Key { node, .. } => *node,
    }
}

// What is told of a job that was taken. The ends of its range are in order.
fn took_job(job: &Job) -> Took
    ensures is { result ≡ took_job job.now }
    ensures ordered { IsOrdered job.now }
{
    match job {
        Job::Span { piece } => {
            let _from = piece.range.from();
            Took::Range {
                node: piece.node,
                item: piece.item,
                range: piece.range,
            }
        }
        Job::Batch { node, panes, .. } => Took::Batch {
            node: *node,
            count: panes.len() as u64,
        },
        Job::Key { node, inputs, .. } => Took::Key {
            node: *node,
            count: inputs.get().len() as u64,
        },
    }
}
