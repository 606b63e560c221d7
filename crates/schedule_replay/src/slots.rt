//! What slots work, as far as a line asks.
ghost use Rattle.std.specs.Prelude.{◌≡◌, ◌<◌, None, Some, is_none, length, slice_get, slice_set};
ghost use Rattle.std.specs.List.{list_all};
ghost use Rattle.schedule_replay.specs.Shown.{shown_work};
ghost use Rattle.schedule_replay.specs.Stands.{is_range, may_claim, may_commit};
ghost use Rattle.schedule_replay.specs.Stands.{may_commit_in, may_fail, may_fail_in, may_run, may_take};
ghost use Rattle.lone_worker.specs.Work.{may_claim_in, may_run_in};

use bundle_commit::Job;
use lone_worker::{Stage, Work};

/// Takes what a slot works, and leaves it free.
pub fn take_out(works: &mut Vec<Option<Work>>, slot: u32) -> Option<Work>
    requires { slot < length works.old.items }
    ensures work { slice_get works.old.items slot ≡ Some result }
    ensures free { works.new.items ≡ slice_set works.old.items slot None }
{
    let place = &mut works[slot as usize];
    place.take()
}

/// No slot works.
pub fn are_free(works: &[Option<Work>]) -> bool
    ensures { result ≡ list_all is_none works.now }
{
    works.iter().all(|work| work.is_none())
}

/// The slot works nothing.
pub fn may_take(works: &[Option<Work>], slot: u32) -> bool
    ensures { result ≡ may_take (shown_work (slice_get works.now slot)) }
{
    matches!(works.get(slot as usize), Some(None))
}

pub fn may_claim(works: &[Option<Work>], slot: u32) -> bool
    ensures { result ≡ may_claim (shown_work (slice_get works.now slot)) }
{
    match works.get(slot as usize) {
        Some(Some(work)) => may_claim_in(&work.job, work.stage),
        _ => false,
    }
}

fn may_claim_in(job: &Job, stage: Stage) -> bool
    ensures { result ≡ may_claim_in job.now stage }
{
    is_range(job) && stage == Stage::Open
}

pub fn may_run(works: &[Option<Work>], slot: u32) -> bool
    ensures { result ≡ may_run (shown_work (slice_get works.now slot)) }
{
    match works.get(slot as usize) {
        Some(Some(work)) => may_run_in(&work.job, work.stage),
        _ => false,
    }
}

fn may_run_in(job: &Job, stage: Stage) -> bool
    ensures { result ≡ may_run_in job.now stage }
{
    !is_range(job) && stage == Stage::Open
}

pub fn may_commit(works: &[Option<Work>], slot: u32) -> bool
    ensures { result ≡ may_commit (shown_work (slice_get works.now slot)) }
{
    match works.get(slot as usize) {
        Some(Some(work)) => may_commit_in(&work.job, work.stage),
        _ => false,
    }
}

fn may_commit_in(job: &Job, stage: Stage) -> bool
    ensures { result ≡ may_commit_in job.now stage }
{
    match stage {
        Stage::Open => is_range(job),
        Stage::Over => true,
        Stage::Faulted { .. } => false,
    }
}

pub fn may_fail(works: &[Option<Work>], slot: u32) -> bool
    ensures { result ≡ may_fail (shown_work (slice_get works.now slot)) }
{
    match works.get(slot as usize) {
        Some(Some(work)) => may_fail_in(&work.job),
        _ => false,
    }
}

fn may_fail_in(job: &Job) -> bool
    ensures { result ≡ may_fail_in job.now }
{
    match job {
        Job::Span { piece } => piece.spent.is_none(),
        _ => true,
    }
}

fn is_range(job: &Job) -> bool
    ensures { result ≡ is_range job.now }
{
    matches!(job, Job::Span { .. })
}
