//! The rounds of one worker at a book.
ghost use Rattle.std.specs.Prelude.{◌≡◌, map, None, Some, true, false};
ghost use Rattle.beam_ports.specs.Observed.{observed_store};
ghost use Rattle.book_core.specs.Steps.{IsFree, IsIdle, IsRunning};
ghost use Rattle.book_core.specs.Work.{Surroundings};
ghost use Rattle.chain_exec.specs.Causes.{observed_shelf};
ghost use Rattle.known_jobs.specs.Calls.{CanCommitAs, CanFailAs, FailsInside, HasAttempted, IsJobIn};
ghost use Rattle.known_jobs.specs.Jobs.{Setting, known_at, setting_for};
ghost use Rattle.bundle_work.specs.Kits.{IsKitFor};
ghost use Rattle.bundle_work.specs.Outside.{IsKitKept};
ghost use Rattle.bundle_work.specs.Reading.{IsReading, length_in};
ghost use Rattle.lone_worker.specs.Alone.{AreFailsCounted, CountsFail, CountsNone, FailsOnce};
ghost use Rattle.lone_worker.specs.Alone.{GoesOnOrEnds, HasAsMany, IsAloneEnd, IsBookIn, IsIdleBut};
ghost use Rattle.lone_worker.specs.Alone.{IsRunOn, IsShort};

use crate::at_slot::AtSlot;
use beam_ports::Store;
use beam_values::{Cause, FaultNote, NoMemory};
use book_core::laws::rounds_are_bounded;
use book_core::{Book, Failure, Taken};
use bundle_commit::{Job, Receipt};
use bundle_work::{Kit, Worker};
use chain_exec::ExecRefusal;
use dofn_traits::Shelf;
use known_jobs::laws::jobs_are_known_as_they_are_taken;
use pipeline_graph::Graph;
use std::alloc::Global;

/// How the work of one worker at a book ended.
#[derive(Clone, Copy, Debug, PartialEq, Eq)]
pub enum AloneEnd {
    /// No job was left.
    Finished,
    /// The book has as many commits as were asked for.
    Paused,
    /// The book was stopped before, and stays as it was.
    Stopped,
    /// A job failed as often as it may, and stopped the book.
    Spent(FaultNote),
    /// Where a commit found none, the slot works its job still.
    NoMemory,
}

/// Works jobs of a book whose other slots work none, until none is left, the book has as many commits as are asked for, the
/// opening counted in, or it is stopped. The proof of the call picks what is known outside the book.
pub fn work_alone<F: Shelf, S: Store>(
    alloc: Global,
    book: &mut Book,
    slot: u32,
    graph: &Graph,
    kit: &mut Kit<F, S>,
    most: Option<u32>,
) -> AloneEnd
    ghost known: { Surroundings }
    requires free { IsFree book.old slot }
    requires idle { IsIdle book.old }
    requires plan { graph.now ≡ book.old.plan }
    requires kit { IsKitFor F.strict S.files S.opened (setting_for known book.old) kit.old }
    ensures run { IsRunOn known book.old book.new }
    ensures ended { IsAloneEnd most result book.old book.new }
    ensures counted { AreFailsCounted (observed_shelf F.strict F.faults kit.old.shelf kit.new.shelf)
        (observed_store S.files S.faults kit.old.store kit.new.store) book.old book.new result }
    ensures kept { IsKitKept F.faults F.strict S.faults S.files S.opened
        kit.old.shelf kit.new.shelf kit.old.store kit.new.store }
    ensures files { kit.new.files ≡ kit.old.files }
{
    let files = kit.files.as_slice();
    let options = book.options();
    let Ok(mut worker) = Worker::new(alloc, graph, files, &options) else {
        return AloneEnd::NoMemory;
    };
    let at = AtSlot { slot };
    'rounds: loop {
        if has_as_many(book, most) {
            return AloneEnd::Paused;
        }
        let end = at.round(book, graph, kit, &mut worker);
        book.is_sane();
        if let Some(end) = end {
            return end;
        }
    }
}

// The book has as many commits as are asked for.
fn has_as_many(book: &Book, most: Option<u32>) -> bool
    ensures many { result ≡ true → HasAsMany most book.now }
    ensures short { result ≡ false → IsShort most book.now }
{
    match most {
        Some(most) => book.commits() >= most,
        None => false,
    }
}

impl AtSlot {
    // Takes a job and works it, and commits it or gives it back.
    fn round<F: Shelf, S: Store>(
        &self,
        book: &mut Book,
        graph: &Graph,
        kit: &mut Kit<F, S>,
        worker: &mut Worker,
    ) -> Option<AloneEnd>
        ghost setting: { Setting }
        requires setting { IsBookIn setting book.old }
        requires free { IsFree book.old self.now.slot }
        requires idle { IsIdle book.old }
        requires plan { graph.now ≡ setting.plan }
        requires strict { setting.known.strict ≡ true → F.strict kit.old.shelf ≡ true }
        requires reading { IsReading setting.known.told (S.opened kit.old.store) graph.now
            worker.old.readers.items worker.old.place worker.old.bench.pager }
        requires lengths { map length_in worker.old.readers.items ≡ setting.files }
        ensures run { IsRunOn setting.known book.old book.new }
        ensures end { GoesOnOrEnds self.now.slot book.old result book.new }
        ensures fails { FailsOnce (observed_shelf F.strict F.faults kit.old.shelf kit.new.shelf)
            (observed_store S.files S.faults kit.old.store kit.new.store)
            book.old book.new result }
        ensures reading { IsReading setting.known.told (S.opened kit.new.store) graph.now
            worker.new.readers.items worker.new.place worker.new.bench.pager }
        ensures readers { worker.new.readers.items ≡ worker.old.readers.items }
        ensures kept { IsKitKept F.faults F.strict S.faults S.files S.opened
            kit.old.shelf kit.new.shelf kit.old.store kit.new.store }
        ensures files { kit.new.files ≡ kit.old.files }
    {
        book.is_sane();
        rounds_are_bounded();
        jobs_are_known_as_they_are_taken();
        match book.take(self.slot) {
            Ok(Taken::Job(job)) => self.do_job(book, graph, kit, worker, &job),
            Ok(Taken::Finished) => Some(AloneEnd::Finished),
            Ok(Taken::Stopped) => Some(AloneEnd::Stopped),
            // No other slot works.
            Ok(Taken::Nothing) => unreachable!(),
            Err(NoMemory) => Some(AloneEnd::NoMemory),
        }
    }

    // Works a job that the slot has taken, and commits it or gives it back.
    fn do_job<F: Shelf, S: Store>(
        &self,
        book: &mut Book,
        graph: &Graph,
        kit: &mut Kit<F, S>,
        worker: &mut Worker,
        job: &Job,
    ) -> Option<AloneEnd>
        ghost setting: { Setting }
        requires setting { IsBookIn setting book.old }
        requires running { IsRunning book.old }
        requires others { IsIdleBut book.old self.now.slot }
        requires taken { known_at book.old self.now.slot
            ≡ Some (record { job = job.now; attempted = None }) }
        requires inside { IsJobIn setting job.now }
        requires plan { graph.now ≡ setting.plan }
        requires strict { setting.known.strict ≡ true → F.strict kit.old.shelf ≡ true }
        requires reading { IsReading setting.known.told (S.opened kit.old.store) graph.now
            worker.old.readers.items worker.old.place worker.old.bench.pager }
        requires lengths { map length_in worker.old.readers.items ≡ setting.files }
        ensures run { IsRunOn setting.known book.old book.new }
        ensures end { GoesOnOrEnds self.now.slot book.old result book.new }
        ensures fails { FailsOnce (observed_shelf F.strict F.faults kit.old.shelf kit.new.shelf)
            (observed_store S.files S.faults kit.old.store kit.new.store)
            book.old book.new result }
        ensures reading { IsReading setting.known.told (S.opened kit.new.store) graph.now
            worker.new.readers.items worker.new.place worker.new.bench.pager }
        ensures readers { worker.new.readers.items ≡ worker.old.readers.items }
        ensures kept { IsKitKept F.faults F.strict S.faults S.files S.opened
            kit.old.shelf kit.new.shelf kit.old.store kit.new.store }
        ensures files { kit.new.files ≡ kit.old.files }
    {
        rounds_are_bounded();
        match worker.work_job(graph, self, book, kit, job) {
            Ok(receipt) => self.commit(book, receipt),
            Err(ExecRefusal::Faulted { at, cause }) => self.give_back(book, at, cause),
            Err(ExecRefusal::NoMemory) => Some(AloneEnd::NoMemory),
        }
    }

    fn commit(&self, book: &mut Book, receipt: Receipt) -> Option<AloneEnd>
        ghost setting: { Setting }
        requires setting { IsBookIn setting book.old }
        requires given { CanCommitAs setting (known_at book.old self.now.slot) receipt }
        requires goes_on { HasAttempted (known_at book.old self.now.slot) }
        requires running { IsRunning book.old }
        requires others { IsIdleBut book.old self.now.slot }
        ensures run { IsRunOn setting.known book.old book.new }
        ensures end { GoesOnOrEnds self.now.slot book.old result book.new }
        ensures counts { CountsNone book.old book.new result }
    {
        book.is_sane();
        rounds_are_bounded();
        match book.commit(self.slot, receipt) {
            Ok(()) => None,
            Err(_unplaced) => Some(AloneEnd::NoMemory),
        }
    }

    // The slot's job failed.
    fn give_back(&self, book: &mut Book, at: u32, cause: Cause) -> Option<AloneEnd>
        ghost setting: { Setting }
        requires setting { IsBookIn setting book.old }
        requires honest { CanFailAs setting (known_at book.old self.now.slot) at cause }
        requires inside { FailsInside (known_at book.old self.now.slot) }
        requires running { IsRunning book.old }
        requires others { IsIdleBut book.old self.now.slot }
        ensures run { IsRunOn setting.known book.old book.new }
        ensures end { GoesOnOrEnds self.now.slot book.old result book.new }
        ensures counts { CountsFail at cause book.old book.new result }
    {
        book.is_sane();
        rounds_are_bounded();
        match book.fail(self.slot, at, cause) {
            Failure::Retry => None,
            Failure::Spent(note) => Some(AloneEnd::Spent(note)),
        }
    }
}
