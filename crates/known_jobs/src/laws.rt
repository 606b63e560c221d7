//! What is known of a job that a slot has just taken. The function does nothing: its contract is the law.
ghost use Rattle.std.specs.Prelude.{◌≡◌, ℕ, None, Some};
ghost use Rattle.bundle_commit.specs.declared.job.Job.{Job};
ghost use Rattle.book_core.specs.Book.{SeenBook};
ghost use Rattle.book_core.specs.Sane.{IsSane};
ghost use Rattle.book_core.specs.Steps.{IsTaking};
ghost use Rattle.book_core.specs.Work.{Surroundings};
ghost use Rattle.known_jobs.specs.Calls.{IsJobIn};
ghost use Rattle.known_jobs.specs.Jobs.{known_at, setting_for};

/// The slot works the job that was handed out, of which nothing was attempted. A range that isn't empty lies in an item of
/// the book, since no other offset is pending; a batch is of a Group.
pub fn jobs_are_known_as_they_are_taken()
    ensures known { (b new : SeenBook) (slot : ℕ) (job : Job) → IsTaking b slot job new
        → known_at new slot ≡ Some (record { job = job; attempted = None }) }
    ensures inside { (known : Surroundings) (b new : SeenBook) (slot : ℕ) (job : Job)
        → IsSane b → IsTaking b slot job new → IsJobIn (setting_for known b) job }
{}
