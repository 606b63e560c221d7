//! One worker, with a kit of its own.
ghost use Rattle.std.specs.Prelude.{◌≡◌, ◌≤◌, [], None, Some, IsSomeAnd, false};
ghost use Rattle.beam_ports.specs.Counts.{greatest_count};
ghost use Rattle.beam_ports.specs.Observed.{observed_store};
ghost use Rattle.book_core.specs.Steps.{Fail};
ghost use Rattle.chain_exec.specs.Causes.{observed_shelf};
ghost use Rattle.retry_core.specs.Shares.{share_after};
ghost use Rattle.known_jobs.specs.Calls.{CanCommitAs, CanFailAs};
ghost use Rattle.worker_table.specs.Calls.{AfterCommit, AfterHelp, GoesOnAs, KeepsSlot};
ghost use Rattle.known_jobs.specs.Calls.{calls_after, reads_after};
ghost use Rattle.worker_table.specs.Passes.{IsOf, entry_of, job_known, note_of_pass, setting_of};
ghost use Rattle.worker_table.specs.Passes.{slot_of};
ghost use Rattle.worker_table.specs.Turns.{HasCommitted, KeepsOthers};
ghost use Rattle.bundle_work.specs.Kits.{IsKitFor};
ghost use Rattle.bundle_work.specs.Reading.{StaysReading};
ghost use Rattle.worker_loop.specs.Rounds.{HasFailed, HasGivenUp, HasHandedIn, HasLooked};
ghost use Rattle.worker_loop.specs.Rounds.{HasPlaced, HasWorked, IsRound};
ghost use Rattle.worker_loop.specs.Workers.{EndsAs, GoesOnOrEnds, HasCounted, IsAtWork};
ghost use Rattle.worker_loop.specs.Workers.{IsKitDone, StaysAtWork, share_with};

use crate::turns::Turns;
use beam_ports::{Gate, GatePoint, Store};
use beam_values::{Cause, NoMemory, Options};
use book_core::{Failure, Taken, Unplaced};
use bundle_commit::Receipt;
use bundle_work::{Kit, Worker};
use chain_exec::ExecRefusal;
use dofn_traits::Shelf;
use pipeline_graph::Graph;
use retry_core::FaultShare;
use std::alloc::Global;
use std::sync::Wait;
use worker_table::{Table, WorkerPass};

/// How a worker ended.
#[derive(Clone, Copy, Debug, PartialEq, Eq)]
pub enum WorkerEnd {
    /// No job was left.
    Finished,
    /// A job of its own failed as often as it may.
    Spent,
    /// The book was stopped.
    Stopped,
    NoMemory,
}

/// Works jobs of a table until none is left or the book is stopped. Where it finds no memory, it stops the
/// book; a commit that finds none is tried once more, and a split that finds none is done without. What is promised is
/// in which turns it worked, how it ended, what it counted and what it leaves of its pass and its kit. No clause says
/// that it names its slot to the gate.
pub fn work<R: Wait, F: Shelf, S: Store, G: Gate>(
    rt: &R,
    alloc: Global,
    table: &Table,
    pass: &mut WorkerPass,
    graph: &Graph,
    kit: &mut Kit<F, S>,
    options: &Options,
    share: &mut FaultShare,
    gate: &G,
) -> WorkerEnd
    requires table { IsOf table.now pass.old }
    requires slot { slot_of pass.old ≡ None }
    requires owes { (entry_of pass.old).owes_split ≡ false }
    requires plan { graph.now ≡ (setting_of table.now).plan }
    requires kit { IsKitFor F.strict S.files S.opened (setting_of table.now) kit.old }
    ensures table { IsOf table.now pass.new }
    ensures ended { EndsAs (setting_of table.now) result (entry_of pass.new) }
    ensures turns { HasWorked (setting_of table.now)
        (note_of_pass pass.old) (note_of_pass pass.new) result }
    ensures others { KeepsOthers (note_of_pass pass.old) (note_of_pass pass.new) }
    ensures share { share.new
        ≡ share_with share.old (entry_of pass.new).calls (entry_of pass.new).reads }
    ensures kit { IsKitDone F.strict F.faults S.files S.faults S.opened
        kit.old kit.new (entry_of pass.new) }
{
    counts_have_64_bits(share);
    let Ok(slot) = table.enroll(rt, pass) else {
        return give_up(rt, table, pass);
    };
    let files = kit.files.as_slice();
    let Ok(mut worker) = Worker::new(alloc, graph, files, options) else {
        return give_up(rt, table, pass);
    };
    let turns = Turns {
        rt,
        table,
        gate,
        slot,
    };
    for _ in rt.forever() {
        let end = turns.round(graph, pass, kit, &mut worker, share);
        if let Some(end) = end {
            return end;
        }
    }
    unreachable!()
}

impl<'a, R: Wait, G: Gate> Turns<'a, R, G> {
    // Takes a job, works it, and commits it or gives it back. Where there is none while other slots work, the one with
    // the most left is helped.
    fn round<F: Shelf, S: Store>(
        &self,
        graph: &Graph,
        pass: &mut WorkerPass,
        kit: &mut Kit<F, S>,
        worker: &mut Worker,
        share: &mut FaultShare,
    ) -> Option<WorkerEnd>
        requires table { IsOf self.now.table.now pass.old }
        requires slot { slot_of pass.old ≡ Some self.now.slot }
        requires free { job_known pass.old ≡ None }
        requires owes { (entry_of pass.old).owes_split ≡ false }
        requires able { IsAtWork F.strict S.opened
            (setting_of self.now.table.now) graph.now kit.old worker.old }
        ensures table { IsOf self.now.table.now pass.new }
        ensures end { GoesOnOrEnds (setting_of self.now.table.now) result (entry_of pass.new) }
        ensures turns { IsRound (setting_of self.now.table.now)
            (note_of_pass pass.old) (note_of_pass pass.new) self.now.slot result }
        ensures others { KeepsOthers (note_of_pass pass.old) (note_of_pass pass.new) }
        ensures slot { slot_of pass.new ≡ slot_of pass.old }
        ensures counted { HasCounted (observed_shelf F.strict F.faults kit.old.shelf kit.new.shelf)
            (observed_store S.files S.faults kit.old.store kit.new.store)
            share.old share.new (entry_of pass.old) (entry_of pass.new) }
        ensures stays { StaysAtWork F.faults F.strict S.faults S.files S.opened
            (setting_of self.now.table.now) graph.now kit.old kit.new worker.old worker.new }
    {
        self.gate.pass(self.slot, GatePoint::Job);
        match self.table.take_job(self.rt, pass) {
            Ok(Taken::Job(job)) => match worker.work_job(graph, self, pass, kit, &job) {
                Ok(receipt) => self.commit(pass, worker, receipt),
                Err(ExecRefusal::Faulted { at, cause }) => self.give_back(pass, at, cause, share),
                Err(ExecRefusal::NoMemory) => Some(give_up(self.rt, self.table, pass)),
            },
            Ok(Taken::Nothing) => {
                self.help(pass);
                None
            }
            Ok(Taken::Finished) => Some(WorkerEnd::Finished),
            Ok(Taken::Stopped) => Some(WorkerEnd::Stopped),
            Err(NoMemory) => Some(give_up(self.rt, self.table, pass)),
        }
    }

    // Places the receipt of the pass's job, or the book is stopped.
    fn commit(
        &self,
        pass: &mut WorkerPass,
        worker: &mut Worker,
        receipt: Receipt,
    ) -> Option<WorkerEnd>
        requires table { IsOf self.now.table.now pass.old }
        requires slot { slot_of pass.old ≡ Some self.now.slot }
        requires given { CanCommitAs (setting_of self.now.table.now) (job_known pass.old) receipt }
        requires owes { (entry_of pass.old).owes_split ≡ false }
        ensures table { IsOf self.now.table.now pass.new }
        ensures end { GoesOnOrEnds (setting_of self.now.table.now) result (entry_of pass.new) }
        ensures turns { HasHandedIn (setting_of self.now.table.now) (note_of_pass pass.old)
            (note_of_pass pass.new) self.now.slot receipt worker.old worker.new result }
        ensures others { KeepsOthers (note_of_pass pass.old) (note_of_pass pass.new) }
        ensures keeps { KeepsSlot (entry_of pass.old) (entry_of pass.new) }
        ensures reading { StaysReading worker.old worker.new }
    {
        match self.place(pass, worker, receipt) {
            Ok(()) => None,
            Err(_unplaced) => Some(give_up(self.rt, self.table, pass)),
        }
    }

    // Commits the receipt of the pass's job. Where that finds no memory, the worker gives up what it holds only to be
    // faster, and commits the same receipt once more.
    fn place(
        &self,
        pass: &mut WorkerPass,
        worker: &mut Worker,
        receipt: Receipt,
    ) -> Result<(), Unplaced>
        requires table { IsOf self.now.table.now pass.old }
        requires slot { slot_of pass.old ≡ Some self.now.slot }
        requires given { CanCommitAs (setting_of self.now.table.now) (job_known pass.old) receipt }
        ensures table { IsOf self.now.table.now pass.new }
        ensures turns { HasPlaced (setting_of self.now.table.now) (note_of_pass pass.old)
            (note_of_pass pass.new) self.now.slot receipt worker.old worker.new result }
        ensures told { AfterCommit result (entry_of pass.new) }
        ensures stays { GoesOnAs (entry_of pass.old) (entry_of pass.new) }
        ensures others { KeepsOthers (note_of_pass pass.old) (note_of_pass pass.new) }
        ensures reading { StaysReading worker.old worker.new }
    {
        match self.table.commit(self.rt, pass, receipt) {
            Ok(()) => Ok(()),
            Err(unplaced) => {
                worker.release();
                self.commit_again(pass, worker, unplaced.receipt)
            }
        }
    }

    // Commits a receipt that found no memory before the worker gave up what it held.
    fn commit_again(
        &self,
        pass: &mut WorkerPass,
        worker: &Worker,
        receipt: Receipt,
    ) -> Result<(), Unplaced>
        requires table { IsOf self.now.table.now pass.old }
        requires slot { slot_of pass.old ≡ Some self.now.slot }
        requires given { CanCommitAs (setting_of self.now.table.now) (job_known pass.old) receipt }
        requires released { worker.now.bench.pager.bytes ≡ [] }
        ensures table { IsOf self.now.table.now pass.new }
        ensures turn { IsSomeAnd (slot_of pass.old) (λ i. HasCommitted
            (setting_of self.now.table.now) (note_of_pass pass.old) (note_of_pass pass.new)
            i receipt result) }
        ensures told { AfterCommit result (entry_of pass.new) }
        ensures stays { GoesOnAs (entry_of pass.old) (entry_of pass.new) }
        ensures others { KeepsOthers (note_of_pass pass.old) (note_of_pass pass.new) }
    {
        self.table.commit(self.rt, pass, receipt)
    }

    // The pass's job failed, and is counted in the share.
    fn give_back(
        &self,
        pass: &mut WorkerPass,
        at: u32,
        cause: Cause,
        share: &mut FaultShare,
    ) -> Option<WorkerEnd>
        requires table { IsOf self.now.table.now pass.old }
        requires slot { slot_of pass.old ≡ Some self.now.slot }
        requires honest { CanFailAs (setting_of self.now.table.now) (job_known pass.old) at cause }
        requires owes { (entry_of pass.old).owes_split ≡ false }
        ensures table { IsOf self.now.table.now pass.new }
        ensures end { GoesOnOrEnds (setting_of self.now.table.now) result (entry_of pass.new) }
        ensures turn { HasFailed (setting_of self.now.table.now)
            (note_of_pass pass.old) (note_of_pass pass.new) self.now.slot at cause result }
        ensures others { KeepsOthers (note_of_pass pass.old) (note_of_pass pass.new) }
        ensures slot { slot_of pass.new ≡ slot_of pass.old }
        ensures calls { (entry_of pass.new).calls
            ≡ calls_after (Fail at cause) (entry_of pass.old).calls }
        ensures reads { (entry_of pass.new).reads
            ≡ reads_after (Fail at cause) (entry_of pass.old).reads }
        ensures share { share.new ≡ share_after share.old cause 1 }
    {
        share.rise(cause, 1);
        match self.table.fail(self.rt, pass, at, cause) {
            Failure::Retry => None,
            Failure::Spent(_note) => Some(WorkerEnd::Spent),
        }
    }

    // Splits the range of another slot. Where none can be split, the table lets others work before the worker looks
    // again; where there is no memory to split one, it only looks again.
    fn help(&self, pass: &mut WorkerPass)
        requires table { IsOf self.now.table.now pass.old }
        requires slot { slot_of pass.old ≡ Some self.now.slot }
        ensures table { IsOf self.now.table.now pass.new }
        ensures turn { HasLooked (setting_of self.now.table.now)
            (note_of_pass pass.old) (note_of_pass pass.new) self.now.slot }
        ensures told { AfterHelp (entry_of pass.old) (entry_of pass.new) }
        ensures others { KeepsOthers (note_of_pass pass.old) (note_of_pass pass.new) }
    {
        let _answer = self.table.split_other(self.rt, pass);
    }
}

// There is no memory, so the book is stopped.
fn give_up<R: Wait>(rt: &R, table: &Table, pass: &mut WorkerPass) -> WorkerEnd
    requires table { IsOf table.now pass.old }
    ensures table { IsOf table.now pass.new }
    ensures end { EndsAs (setting_of table.now) result (entry_of pass.new) }
    ensures turn { HasGivenUp (setting_of table.now)
        (note_of_pass pass.old) (note_of_pass pass.new) (Some result) }
    ensures others { KeepsOthers (note_of_pass pass.old) (note_of_pass pass.new) }
    ensures keeps { KeepsSlot (entry_of pass.old) (entry_of pass.new) }
{
    table.stop(rt, pass);
    WorkerEnd::NoMemory
}

// A law of the counts of a share.
fn counts_have_64_bits(share: &FaultShare)
    ensures calls { share.now.calls ≤ greatest_count }
    ensures reads { share.now.reads ≤ greatest_count }
{
    let _calls = share.calls;
    let _reads = share.reads;
}
