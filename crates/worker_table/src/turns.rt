//! The turns of a pass: one step of the book each.
ghost use Rattle.std.specs.Prelude.{◌≡◌, None, Some, IsSome, IsSomeAnd, IfErr, false, nat_lt};
ghost use Rattle.book_core.specs.Calls.{failure_of};
ghost use Rattle.book_core.specs.Steps.{Claim, Claimed, Fail, Take};
ghost use Rattle.known_jobs.specs.Calls.{AfterClaim};
ghost use Rattle.worker_table.specs.Calls.{AfterCommit, AfterEnroll, AfterFail};
ghost use Rattle.worker_table.specs.Calls.{AfterHelp, AfterStop, AfterTake};
ghost use Rattle.known_jobs.specs.Calls.{CanClaimAs};
ghost use Rattle.known_jobs.specs.Calls.{CanCommitAs, CanFailAs, EndsAt};
ghost use Rattle.worker_table.specs.Calls.{GoesOnAs, KeepsSlot};
ghost use Rattle.worker_table.specs.Calls.{take_answer};
ghost use Rattle.worker_table.specs.Passes.{IsOf, IsSeatOf, entry_of, job_known, note_of_pass};
ghost use Rattle.worker_table.specs.Passes.{setting_of, slot_of};
ghost use Rattle.worker_table.specs.Turns.{HasCommitted, HasEnrolled, HasHelped, HasStepped};
ghost use Rattle.worker_table.specs.Turns.{HasStopped, KeepsOthers, Turned};

use crate::act::Act;
use crate::acts::{Claiming, Committing, Enrolling, Failing, HelpingOther, Stopping, Taking};
use crate::did::{Did, owned_by};
use crate::pass::{Table, WorkerPass};
use beam_values::{Cause, NoMemory};
use book_core::laws::{books_are_sane, honest_runs_are_runs};
use book_core::{Failure, Taken, Unplaced};
use bundle_commit::Receipt;
use known_jobs::laws::jobs_are_known_as_they_are_taken;
use std::snapshot::Snapshot;
use std::sync::Wait;

impl Table {
    // One turn of the pass: the act is done on the book, and noted.
    fn turn<R: Wait, A: Act>(&self, rt: &R, pass: &mut WorkerPass, act: A) -> A::Answer
        requires table { IsOf self.now pass.old }
        requires may { A.may act (setting_of self.now) (entry_of pass.old) }
        ensures seat { IsSeatOf self.now.desk pass.new.pass (slot_of pass.new) }
        ensures slot { pass.new.slot ≡ pass.old.slot }
        ensures turn { Turned (setting_of self.now) (note_of_pass pass.old) (note_of_pass pass.new)
            (A.deed act result) (λ b new. A.makes act b result new) }
        ensures others { KeepsOthers (note_of_pass pass.old) (note_of_pass pass.new) }
    {
        let Some(mut own) = pass.pass.take() else {
            unreachable!();
        };
        act.before().stand(rt, &self.desk, &mut own);
        let asked = Snapshot::of(&act);
        let mut turn = self.desk.take(rt, own);
        let begun = Snapshot::of(&turn);
        let shared = turn.value();
        let answer = act.act(&mut shared.book);
        shared.owners = owned_by(&begun, &asked, &answer);
        let did = Did {
            act: asked,
            answer: Snapshot::of(&answer),
        };
        let mut own = self.desk.give(turn, &did);
        A::after(&answer).stand(rt, &self.desk, &mut own);
        pass.pass = Some(own);
        answer
    }

    // The slot of a pass that has one.
    fn slot(&self, pass: &WorkerPass) -> u32
        requires table { IsOf self.now pass.now }
        requires slot { IsSome (slot_of pass.now) }
        ensures noted { slot_of pass.now ≡ Some result }
        ensures kept { pass.now.slot ≡ Some result }
    {
        let (Some(_), Some(slot)) = (&pass.pass, pass.slot) else {
            unreachable!();
        };
        slot
    }

    /// The pass gets a slot. Where there is no memory for it, it has none.
    pub fn enroll<R: Wait>(&self, rt: &R, pass: &mut WorkerPass) -> Result<u32, NoMemory>
        requires table { IsOf self.now pass.old }
        requires slot { slot_of pass.old ≡ None }
        ensures table { IsOf self.now pass.new }
        ensures turn { HasEnrolled (setting_of self.now)
            (note_of_pass pass.old) (note_of_pass pass.new) result }
        ensures told { AfterEnroll result (entry_of pass.old) (entry_of pass.new) }
        ensures others { KeepsOthers (note_of_pass pass.old) (note_of_pass pass.new) }
    {
        let answer = self.turn(rt, pass, Enrolling);
        pass.slot = answer.ok();
        answer
    }

    /// The pass's slot gets the next job.
    pub fn take_job<R: Wait>(&self, rt: &R, pass: &mut WorkerPass) -> Result<Taken, NoMemory>
        requires table { IsOf self.now pass.old }
        requires slot { IsSome (slot_of pass.old) }
        requires free { job_known pass.old ≡ None }
        requires owes { (entry_of pass.old).owes_split ≡ false }
        ensures table { IsOf self.now pass.new }
        ensures turn { IsSomeAnd (slot_of pass.old) (λ i. HasStepped (setting_of self.now)
            (note_of_pass pass.old) (note_of_pass pass.new) i Take (take_answer result)) }
        ensures told { AfterTake (setting_of self.now) result
            (entry_of pass.old) (entry_of pass.new) }
        ensures stays { KeepsSlot (entry_of pass.old) (entry_of pass.new) }
        ensures others { KeepsOthers (note_of_pass pass.old) (note_of_pass pass.new) }
    {
        honest_runs_are_runs();
        books_are_sane();
        jobs_are_known_as_they_are_taken();
        let slot = self.slot(pass);
        self.turn(rt, pass, Taking { slot })
    }

    /// The pass's range attempts a position.
    pub fn claim<R: Wait>(&self, rt: &R, pass: &mut WorkerPass, p: u64) -> bool
        requires table { IsOf self.now pass.old }
        requires slot { IsSome (slot_of pass.old) }
        requires may { CanClaimAs (job_known pass.old) p }
        ensures table { IsOf self.now pass.new }
        ensures turn { IsSomeAnd (slot_of pass.old) (λ i. HasStepped (setting_of self.now)
            (note_of_pass pass.old) (note_of_pass pass.new) i (Claim p) (Claimed result)) }
        ensures told { AfterClaim (job_known pass.old) p result (job_known pass.new) }
        ensures stays { GoesOnAs (entry_of pass.old) (entry_of pass.new) }
        ensures others { KeepsOthers (note_of_pass pass.old) (note_of_pass pass.new) }
    {
        p < self.claim_end(rt, pass, p)
    }

    /// [`Table::claim`], which answers the end of the range as others have left it: a position below it is granted.
    pub fn claim_end<R: Wait>(&self, rt: &R, pass: &mut WorkerPass, p: u64) -> u64
        requires table { IsOf self.now pass.old }
        requires slot { IsSome (slot_of pass.old) }
        requires may { CanClaimAs (job_known pass.old) p }
        ensures table { IsOf self.now pass.new }
        ensures turn { IsSomeAnd (slot_of pass.old)
            (λ i. HasStepped (setting_of self.now) (note_of_pass pass.old)
            (note_of_pass pass.new) i (Claim p) (Claimed (nat_lt p result))) }
        ensures told { AfterClaim (job_known pass.old) p (nat_lt p result) (job_known pass.new) }
        ensures end { EndsAt (job_known pass.new) result }
        ensures stays { GoesOnAs (entry_of pass.old) (entry_of pass.new) }
        ensures others { KeepsOthers (note_of_pass pass.old) (note_of_pass pass.new) }
    {
        let slot = self.slot(pass);
        self.turn(rt, pass, Claiming { slot, p })
    }

    /// The pass helps the slot whose range has the most left: it is split at a half. Answers where, or none where no
    /// other slot works a range that can be split.
    pub fn split_other<R: Wait>(
        &self,
        rt: &R,
        pass: &mut WorkerPass,
    ) -> Result<Option<u64>, NoMemory>
        requires table { IsOf self.now pass.old }
        requires slot { IsSome (slot_of pass.old) }
        ensures table { IsOf self.now pass.new }
        ensures turn { IsSomeAnd (slot_of pass.old) (λ i. HasHelped (setting_of self.now)
            (note_of_pass pass.old) (note_of_pass pass.new) i result) }
        ensures told { AfterHelp (entry_of pass.old) (entry_of pass.new) }
        ensures others { KeepsOthers (note_of_pass pass.old) (note_of_pass pass.new) }
    {
        let slot = self.slot(pass);
        self.turn(rt, pass, HelpingOther { slot }).cut_at()
    }

    /// Places the receipt of the pass's job. Where there is no memory nothing is changed, and the receipt is handed back.
    pub fn commit<R: Wait>(
        &self,
        rt: &R,
        pass: &mut WorkerPass,
        receipt: Receipt,
    ) -> Result<(), Unplaced>
        requires table { IsOf self.now pass.old }
        requires slot { IsSome (slot_of pass.old) }
        requires given { CanCommitAs (setting_of self.now) (job_known pass.old) receipt }
        ensures table { IsOf self.now pass.new }
        ensures turn { IsSomeAnd (slot_of pass.old) (λ i. HasCommitted (setting_of self.now)
            (note_of_pass pass.old) (note_of_pass pass.new) i receipt result) }
        ensures told { AfterCommit result (entry_of pass.new) }
        ensures back { IfErr result (λ unplaced. unplaced.receipt ≡ receipt) }
        ensures again { IfErr result (λ unplaced.
            CanCommitAs (setting_of self.now) (job_known pass.new) unplaced.receipt) }
        ensures stays { GoesOnAs (entry_of pass.old) (entry_of pass.new) }
        ensures others { KeepsOthers (note_of_pass pass.old) (note_of_pass pass.new) }
    {
        let slot = self.slot(pass);
        self.turn(rt, pass, Committing { slot, receipt })
    }

    /// The pass's job failed at a node: it is given back. At the limit the book is stopped, or, where a call failed on a
    /// range of a plan that sets positions aside, the range is broken.
    pub fn fail<R: Wait>(&self, rt: &R, pass: &mut WorkerPass, at: u32, cause: Cause) -> Failure
        requires table { IsOf self.now pass.old }
        requires slot { IsSome (slot_of pass.old) }
        requires honest { CanFailAs (setting_of self.now) (job_known pass.old) at cause }
        ensures table { IsOf self.now pass.new }
        ensures turn { IsSomeAnd (slot_of pass.old) (λ i. HasStepped (setting_of self.now)
            (note_of_pass pass.old) (note_of_pass pass.new) i (Fail at cause) (failure_of result)) }
        ensures told { AfterFail at cause result (entry_of pass.old) (entry_of pass.new) }
        ensures others { KeepsOthers (note_of_pass pass.old) (note_of_pass pass.new) }
    {
        let slot = self.slot(pass);
        self.turn(rt, pass, Failing { slot, at, cause })
    }

    /// No job is given out any more. The pass needs no slot.
    pub fn stop<R: Wait>(&self, rt: &R, pass: &mut WorkerPass)
        requires table { IsOf self.now pass.old }
        ensures table { IsOf self.now pass.new }
        ensures turn { HasStopped (setting_of self.now)
            (note_of_pass pass.old) (note_of_pass pass.new) }
        ensures told { AfterStop (entry_of pass.old) (entry_of pass.new) }
        ensures others { KeepsOthers (note_of_pass pass.old) (note_of_pass pass.new) }
    {
        self.turn(rt, pass, Stopping)
    }
}
