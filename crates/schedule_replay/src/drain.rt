//! A drain: the first slot works jobs until it gets none.
ghost use Rattle.std.specs.Prelude.{◌≡◌, ◌<◌, ℕ, true, IfOk, OnOk, slice_get};
ghost use Rattle.beam_ports.specs.Observed.{observed_store};
ghost use Rattle.book_core.specs.Left.{rounds_left};
ghost use Rattle.chain_exec.specs.Causes.{observed_shelf};
ghost use Rattle.known_jobs.specs.Calls.{HasAttempted};
ghost use Rattle.known_jobs.specs.Jobs.{known_at};
ghost use Rattle.bundle_work.specs.Outside.{IsKitKept};
ghost use Rattle.bundle_work.specs.Reading.{AreReaders};
ghost use Rattle.lone_worker.specs.Work.{Base, IsReadingOn};
ghost use Rattle.schedule_replay.specs.Drains.{drain_line, stopped_by};
ghost use Rattle.schedule_replay.specs.Draining.{GoesOnOrEnds, HasDrained, IsJobWorked, IsLastOfJob};
ghost use Rattle.schedule_replay.specs.Draining.{OthersRest, ends_job, has_failed, is_faulted, may_work};
ghost use Rattle.schedule_replay.specs.Shown.{shown, shown_work};
ghost use Rattle.schedule_replay.specs.Standing.{IsStanding};
ghost use Rattle.schedule_replay.specs.Stands.{may_claim, may_take, work_at};

use crate::slots::{may_claim, may_run};
use crate::stand::Stand;
use beam_ports::Store;
use beam_values::NoMemory;
use bundle_work::{Kit, Worker};
use dofn_traits::Shelf;
use lone_worker::{ClaimEnd, Stage, Work};
use pipeline_graph::Graph;
use schedule_words::Took;
use std::alloc::Global;

/// The slot of a drain.
const FIRST: u32 = 0;

impl Stand {
    /// The first slot takes and works jobs, and commits them or fails those whose work failed, until none is left or the
    /// run is stopped. Answers whether it is stopped.
    pub fn drain<F: Shelf, S: Store>(
        &mut self,
        alloc: Global,
        graph: &Graph,
        kit: &mut Kit<F, S>,
        worker: &mut Worker,
    ) -> Result<bool, NoMemory>
        ghost base: { Base }
        requires plan { graph.now ≡ base.setting.plan }
        requires strict { base.setting.known.strict ≡ true → F.strict kit.old.shelf ≡ true }
        requires reading { IsReadingOn base (S.opened kit.old.store)
            worker.old.readers.items worker.old.place worker.old.bench.pager }
        requires standing { IsStanding base self.old }
        requires free { may_take (work_at (shown self.old) 0) ≡ true }
        requires others { OthersRest (shown self.old) }
        ensures done { IfOk result (HasDrained base
            (observed_shelf F.strict F.faults kit.old.shelf kit.new.shelf)
            (observed_store S.files S.faults kit.old.store kit.new.store)
            (shown self.old) (shown self.new)) }
        ensures standing { OnOk result (IsStanding base self.new) }
        ensures reading { IsReadingOn base (S.opened kit.new.store)
            worker.new.readers.items worker.new.place worker.new.bench.pager }
        ensures kept { IsKitKept F.faults F.strict S.faults S.files S.opened
            kit.old.shelf kit.new.shelf kit.old.store kit.new.store }
        ensures files { kit.new.files ≡ kit.old.files }
    {
        'jobs: loop {
            let end = self.drain_job(alloc, graph, kit, worker)?;
            if let Some(stopped) = end {
                return Ok(stopped);
            }
        }
    }

    // Takes a job and works it, and commits or fails it. Answers whether the run is stopped where it got none.
    fn drain_job<F: Shelf, S: Store>(
        &mut self,
        alloc: Global,
        graph: &Graph,
        kit: &mut Kit<F, S>,
        worker: &mut Worker,
    ) -> Result<Option<bool>, NoMemory>
        ghost base: { Base }
        requires plan { graph.now ≡ base.setting.plan }
        requires strict { base.setting.known.strict ≡ true → F.strict kit.old.shelf ≡ true }
        requires reading { IsReadingOn base (S.opened kit.old.store)
            worker.old.readers.items worker.old.place worker.old.bench.pager }
        requires standing { IsStanding base self.old }
        requires free { may_take (work_at (shown self.old) 0) ≡ true }
        requires others { OthersRest (shown self.old) }
        ensures done { IfOk result (GoesOnOrEnds base
            (observed_shelf F.strict F.faults kit.old.shelf kit.new.shelf)
            (observed_store S.files S.faults kit.old.store kit.new.store)
            (shown self.old) (shown self.new)) }
        ensures standing { OnOk result (IsStanding base self.new) }
        ensures reading { IsReadingOn base (S.opened kit.new.store)
            worker.new.readers.items worker.new.place worker.new.bench.pager }
        ensures kept { IsKitKept F.faults F.strict S.faults S.files S.opened
            kit.old.shelf kit.new.shelf kit.old.store kit.new.store }
        ensures files { kit.new.files ≡ kit.old.files }
    {
        let took = self.take(alloc, FIRST)?;
        let end = stopped_by(&took);
        if let Some(stopped) = end {
            return Ok(Some(stopped));
        }
        self.work_first(graph, kit, worker)?;
        self.finish()?;
        Ok(None)
    }

    // Works the job of the first slot, until it is to be committed or failed.
    fn work_first<F: Shelf, S: Store>(
        &mut self,
        graph: &Graph,
        kit: &mut Kit<F, S>,
        worker: &mut Worker,
    ) -> Result<(), NoMemory>
        ghost base: { Base }
        requires plan { graph.now ≡ base.setting.plan }
        requires strict { base.setting.known.strict ≡ true → F.strict kit.old.shelf ≡ true }
        requires reading { IsReadingOn base (S.opened kit.old.store)
            worker.old.readers.items worker.old.place worker.old.bench.pager }
        requires standing { IsStanding base self.old }
        requires others { OthersRest (shown self.old) }
        requires may { may_work (work_at (shown self.old) 0) ≡ true }
        ensures worked { OnOk result (IsJobWorked base
            (observed_shelf F.strict F.faults kit.old.shelf kit.new.shelf)
            (observed_store S.files S.faults kit.old.store kit.new.store)
            (shown self.old) (shown self.new)) }
        ensures attempted { OnOk result (HasAttempted (known_at self.new.book 0)) }
        ensures standing { OnOk result (IsStanding base self.new) }
        ensures others { OnOk result (OthersRest (shown self.new)) }
        ensures rounds { OnOk result
            (rounds_left self.new.book ≡ rounds_left self.old.book) }
        ensures reading { IsReadingOn base (S.opened kit.new.store)
            worker.new.readers.items worker.new.place worker.new.bench.pager }
        ensures kept { IsKitKept F.faults F.strict S.faults S.files S.opened
            kit.old.shelf kit.new.shelf kit.old.store kit.new.store }
        ensures files { kit.new.files ≡ kit.old.files }
    {
        if may_claim(self.works.as_slice(), FIRST) {
            return self.claim_all(graph, kit, worker);
        }
        // A spent piece is committed as it was taken.
        if !may_run(self.works.as_slice(), FIRST) {
            return Ok(());
        }
        self.run(FIRST, graph, kit, worker)?;
        Ok(())
    }

    // Claims positions until one is refused, one fails, or as many as are in a bundle emitted a value.
    fn claim_all<F: Shelf, S: Store>(
        &mut self,
        graph: &Graph,
        kit: &mut Kit<F, S>,
        worker: &mut Worker,
    ) -> Result<(), NoMemory>
        ghost base: { Base }
        requires plan { graph.now ≡ base.setting.plan }
        requires strict { base.setting.known.strict ≡ true → F.strict kit.old.shelf ≡ true }
        requires reading { IsReadingOn base (S.opened kit.old.store)
            worker.old.readers.items worker.old.place worker.old.bench.pager }
        requires standing { IsStanding base self.old }
        requires others { OthersRest (shown self.old) }
        requires may { may_claim (work_at (shown self.old) 0) ≡ true }
        ensures worked { OnOk result (IsJobWorked base
            (observed_shelf F.strict F.faults kit.old.shelf kit.new.shelf)
            (observed_store S.files S.faults kit.old.store kit.new.store)
            (shown self.old) (shown self.new)) }
        ensures attempted { OnOk result (HasAttempted (known_at self.new.book 0)) }
        ensures standing { OnOk result (IsStanding base self.new) }
        ensures others { OnOk result (OthersRest (shown self.new)) }
        ensures rounds { OnOk result
            (rounds_left self.new.book ≡ rounds_left self.old.book) }
        ensures reading { IsReadingOn base (S.opened kit.new.store)
            worker.new.readers.items worker.new.place worker.new.bench.pager }
        ensures kept { IsKitKept F.faults F.strict S.faults S.files S.opened
            kit.old.shelf kit.new.shelf kit.old.store kit.new.store }
        ensures files { kit.new.files ≡ kit.old.files }
    {
        self.book.is_sane();
        let mut left = self.book.options().bundle;
        'claims: while left > 0 {
            let (_p, claim) = self.claim(FIRST, graph, kit, worker)?;
            match claim {
                ClaimEnd::Worked { emitted } => left -= u32::from(emitted),
                ClaimEnd::Refused | ClaimEnd::Faulted => return Ok(()),
            }
        }
        Ok(())
    }

    // Commits the job of the first slot, or fails it where its work failed.
    fn finish(&mut self) -> Result<(), NoMemory>
        ghost base: { Base }
        requires standing { IsStanding base self.old }
        requires readers { AreReaders base.setting.known.told base.opened base.setting.plan
            base.readers }
        requires ends { (emitted : ℕ) × (ends_job (drain_line base.setting.options.bundle
            emitted (work_at (shown self.old) 0)) ≡ true) }
        requires attempted { HasAttempted (known_at self.old.book 0) }
        requires others { OthersRest (shown self.old) }
        ensures line { OnOk result ((emitted : ℕ) → ends_job (drain_line
            base.setting.options.bundle emitted (work_at (shown self.old) 0)) ≡ true
            → IsLastOfJob base emitted (shown self.old) (shown self.new)) }
        ensures standing { OnOk result (IsStanding base self.new) }
        ensures free { OnOk result (may_take (work_at (shown self.new) 0) ≡ true) }
        ensures others { OnOk result (OthersRest (shown self.new)) }
        ensures rounds { OnOk result
            (rounds_left self.new.book < rounds_left self.old.book) }
    {
        if has_failed(self.works.as_slice(), FIRST) {
            self.fail(FIRST);
            return Ok(());
        }
        self.commit(FIRST)?;
        Ok(())
    }
}

// Whether the work of a slot failed.
fn has_failed(works: &[Option<Work>], slot: u32) -> bool
    ensures { result ≡ has_failed (shown_work (slice_get works.now slot)) }
{
    match works.get(slot as usize) {
        Some(Some(work)) => is_faulted(work.stage),
        _ => false,
    }
}

fn is_faulted(stage: Stage) -> bool
    ensures { result ≡ is_faulted stage }
{
    matches!(stage, Stage::Faulted { .. })
}

// Whether the run is stopped, where a take got no job.
fn stopped_by(took: &Took) -> Option<bool>
    ensures { result ≡ stopped_by took.now }
{
    match took {
        Took::Finished => Some(false),
        Took::Stopped => Some(true),
        _ => None,
    }
}
