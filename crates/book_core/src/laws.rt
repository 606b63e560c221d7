//! What every list of steps keeps. Each function does nothing, but for calling the laws that its own
//! rests on: its contract is the law. [`books_are_sane`], [`books_are_kept`] and [`told_books_are_kept`]
//! have all facts of a book in three levels; those after them single some out.

ghost use Rattle.std.specs.Prelude.{◌≡◌, ◌⊎◌, ◌<◌, ◌≤◌, ℕ, Bool, List, Option, Some, None};
ghost use Rattle.beam_values.specs.declared.fault.Cause.{Cause};
ghost use Rattle.beam_values.specs.declared.file_text.FileText.{FileText};
ghost use Rattle.beam_values.specs.declared.options.Options.{Options};
ghost use Rattle.beam_values.specs.declared.piece.FileLen.{FileLen};
ghost use Rattle.beam_values.specs.declared.plan.Plan.{Plan};
ghost use Rattle.bundle_commit.specs.declared.job.Job.{Job};
ghost use Rattle.book_core.specs.Book.{SeenBook};
ghost use Rattle.book_core.specs.Facts.{AreAtWrites, AreAttemptsCounted, AreCellsKept, AreHeldOnce};
ghost use Rattle.book_core.specs.Facts.{AreKept, AreKeptOf, AreMarksKept, ArePartitioned};
ghost use Rattle.book_core.specs.Facts.{AreSetAside, AreSpentWell};
ghost use Rattle.book_core.specs.Facts.{IsStopNoted, IsWellFormed};
ghost use Rattle.book_core.specs.Jobs.{next_job};
ghost use Rattle.book_core.specs.Left.{BreaksNoEmpty, GoesOnAt, IsBelow, left, rounds_left};
ghost use Rattle.book_core.specs.Runs.{HonestlyReached, IsOpening, IsThrough, Reached};
ghost use Rattle.book_core.specs.Sane.{AreKeptWith, IsSane};
ghost use Rattle.book_core.specs.Steps.{Action, Answer, Commit, Committed, IsClaiming, IsFailing};
ghost use Rattle.book_core.specs.Steps.{IsIdle, IsTaking, Step};
ghost use Rattle.book_core.specs.Stored.{IsDataOf, IsSaneData};
ghost use Rattle.book_core.specs.Work.{Surroundings};
ghost use Rattle.book_core.specs.declared.data.BookData.{BookData};

use pipeline_graph::laws::{
    nodes_have_inputs_and_settings_of_their_kind, nodes_take_elements_of_their_strategy,
    stateful_nodes_have_no_sessions, strategies_follow_kinds,
};
use windowing::laws::windows_hold_their_time;

/// Every book is sane, whatever the files are: the opening is, and each step leads from a sane book to a
/// sane one. So it goes on like a book that a run reached, however it came about.
pub fn books_are_sane()
    ensures opening { (plan : Plan) (files : List FileLen) (options : Options) (b : SeenBook)
        → IsOpening plan files options b → IsSane b }
    ensures step { (told : Option (List FileText)) (b new : SeenBook)
        (slot : ℕ) (action : Action) (answer : Answer)
        → Step told b slot action answer new → IsSane b → IsSane new }
    ensures reached { (told : Option (List FileText)) (b : SeenBook)
        → Reached told b → IsSane b }
{}

/// What else holds of each book that a run reached, whatever the files are.
pub fn books_are_kept()
    ensures opening { (plan : Plan) (files : List FileLen) (options : Options) (b : SeenBook)
        → IsOpening plan files options b → AreKeptWith b }
    ensures step { (told : Option (List FileText)) (b new : SeenBook)
        (slot : ℕ) (action : Action) (answer : Answer)
        → Step told b slot action answer new → AreKeptWith b → AreKeptWith new }
    ensures reached { (told : Option (List FileText)) (b : SeenBook)
        → Reached told b → AreKeptWith b }
{
    stateful_nodes_have_no_sessions();
    nodes_take_elements_of_their_strategy();
    strategies_follow_kinds();
    nodes_have_inputs_and_settings_of_their_kind();
    windows_hold_their_time();
}

/// And what holds of it where the files are told: the arrivals and the chains of the panes that aren't
/// through are the outputs of the done ranges, the chains of all panes and those of what calls logged; and
/// each time that a piece's estimator has seen stands at a position below the piece.
pub fn told_books_are_kept()
    ensures opening { (told : List FileText) (plan : Plan) (files : List FileLen)
        (options : Options) (b : SeenBook)
        → IsOpening plan files options b → AreKeptOf told b }
    ensures step { (told : List FileText) (b new : SeenBook)
        (slot : ℕ) (action : Action) (answer : Answer)
        → Step (Some told) b slot action answer new
        → AreKeptWith b → AreKeptOf told b → AreKeptOf told new }
    ensures reached { (told : List FileText) (b : SeenBook)
        → Reached (Some told) b → AreKeptOf told b }
{
    stateful_nodes_have_no_sessions();
    nodes_take_elements_of_their_strategy();
    strategies_follow_kinds();
    nodes_have_inputs_and_settings_of_their_kind();
    windows_hold_their_time();
}

/// What holds of books holds of the data of one, so a book is had from it again, and that is the book which the
/// data was taken from: `book_of` of data of a book is the book.
pub fn data_of_books_is_sane()
    ensures { (b : SeenBook) (stored : BookData) → IsSane b → IsDataOf stored b
        → IsSaneData b.plan stored }
{}

/// Each offset of each item lies in exactly one pending, live or done range, or is one dead position and lies in
/// none, whatever is split, fails or is broken.
pub fn reached_books_are_partitioned()
    ensures { (told : Option (List FileText)) (b : SeenBook) → Reached told b → ArePartitioned b }
{}

/// A book stands on one checked plan, with options within their limits and a length for each item; its
/// lists are in order, and none is longer than 32 bits can number.
pub fn reached_books_are_well_formed()
    ensures { (told : Option (List FileText)) (b : SeenBook) → Reached told b → IsWellFormed b }
{}

/// The panes that aren't through are panes of the run, each at one place and at its own Group, and no
/// batch is empty.
pub fn panes_are_held_once()
    ensures { (told : Option (List FileText)) (b : SeenBook) → Reached told b → AreHeldOnce b }
{}

/// No job has failed more often than it may, nor more often than jobs failed at all, the limit for each dead
/// position counted in; what stopped a book by a fault failed as often as it may; and what is spent or dead is
/// one position whose work failed as often as it may, the last time in a call.
pub fn attempts_are_counted()
    ensures counted { (told : Option (List FileText)) (b : SeenBook)
        → Reached told b → AreAttemptsCounted b }
    ensures aside { (told : Option (List FileText)) (b : SeenBook)
        → Reached told b → AreSetAside b }
    ensures spent { (told : Option (List FileText)) (b : SeenBook)
        → Reached told b → AreSpentWell b }
    ensures noted { (told : Option (List FileText)) (b : SeenBook)
        → Reached told b → IsStopNoted b b.stopped }
{}

/// The last marks of a book follow from all that isn't committed, and no mark has fallen from one commit
/// to the next.
pub fn marks_are_kept()
    ensures { (told : Option (List FileText)) (b : SeenBook) → Reached told b → AreMarksKept b }
{}

/// The arrivals at the Groups are legal, own windows of sessions are as long as the gap, and what was written
/// is at Writes.
pub fn cells_are_kept()
    ensures cells { (told : Option (List FileText)) (b : SeenBook)
        → Reached told b → AreCellsKept b }
    ensures writes { (told : Option (List FileText)) (b : SeenBook)
        → Reached told b → AreAtWrites b }
{
    books_are_kept();
}

/// All that holds of every reached book.
pub fn reached_books_are_kept()
    ensures { (told : Option (List FileText)) (b : SeenBook) → Reached told b → AreKept b }
{
    books_are_kept();
}

/// A book that has no job left, and works none, is through.
pub fn books_with_no_job_left_are_through()
    ensures { (told : Option (List FileText)) (b : SeenBook)
        → Reached told b → next_job b ≡ None → IsIdle b → IsThrough b }
{
    stateful_nodes_have_no_sessions();
    nodes_take_elements_of_their_strategy();
    strategies_follow_kinds();
    nodes_have_inputs_and_settings_of_their_kind();
    windows_hold_their_time();
}

/// Each fail of a sane book lowers what is left of a run, but for one that breaks an empty range; and no take
/// raises it.
pub fn fails_lower_what_is_left()
    ensures fail { (b new : SeenBook) (slot at : ℕ) (cause : Cause) (answer : Answer)
        → IsSane b → BreaksNoEmpty b slot cause → IsFailing b slot at cause answer new
        → IsBelow (left new) (left b) }
    ensures take { (b new : SeenBook) (slot : ℕ) (job : Job)
        → IsSane b → IsTaking b slot job new
        → IsBelow (left new) (left b) ⊎ (left new ≡ left b) }
{}

/// Each commit of a sane book lowers what is left of a run, where a position of its range was attempted,
/// the range is empty, its position is set aside, its panes went on, or it is of a key job; and no claim raises
/// it.
pub fn commits_lower_what_is_left()
    ensures commit { (told : Option (List FileText)) (b new : SeenBook) (slot : ℕ)
        → IsSane b → Step told b slot Commit Committed new
        → GoesOnAt b slot → IsBelow (left new) (left b) }
    ensures claim { (b new : SeenBook) (slot p : ℕ) (granted : Bool)
        → IsClaiming b slot p granted new → left new ≡ left b }
{}

/// Rounds are bounded where no range is split: a sane book tells how many are left at most, each a take,
/// claims, and then a commit of a job that goes on or a fail that breaks no empty range.
pub fn rounds_are_bounded()
    ensures take { (b new : SeenBook) (slot : ℕ) (job : Job)
        → IsSane b → IsTaking b slot job new → rounds_left new ≤ rounds_left b }
    ensures claim { (b new : SeenBook) (slot p : ℕ) (granted : Bool)
        → IsClaiming b slot p granted new → rounds_left new ≡ rounds_left b }
    ensures commit { (told : Option (List FileText)) (b new : SeenBook) (slot : ℕ)
        → IsSane b → Step told b slot Commit Committed new
        → GoesOnAt b slot → rounds_left new < rounds_left b }
    ensures fail { (b new : SeenBook) (slot at : ℕ) (cause : Cause) (answer : Answer)
        → IsSane b → BreaksNoEmpty b slot cause → IsFailing b slot at cause answer new
        → rounds_left new < rounds_left b }
{}

/// A book that is reached by honest fails is reached, so all that holds of reached books holds of it.
pub fn honest_runs_are_runs()
    ensures { (known : Surroundings) (b : SeenBook)
        → HonestlyReached known b → Reached known.told b }
{}
