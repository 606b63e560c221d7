//! The seven acts: what each asks, what it makes of the book and how it is noted.
ghost use Rattle.std.specs.Prelude.{◌≡◌, None, Some, IsSomeAnd, nat_lt};
ghost use Rattle.book_core.specs.Calls.{CanClaim, CanFail, Makes, failure_of, live_piece};
ghost use Rattle.book_core.specs.Steps.{CanCommit, Claim, Claimed, Commit, Enroll};
ghost use Rattle.book_core.specs.Steps.{Fail, IsFree, Noted, Stop, Take};
ghost use Rattle.known_jobs.specs.Calls.{CanClaimAs, CanCommitAs, CanFailAs};
ghost use Rattle.worker_table.specs.Calls.{Helping, Placing};
ghost use Rattle.worker_table.specs.Calls.{commit_answer, enroll_answer, enroll_deed};
ghost use Rattle.worker_table.specs.Calls.{enrolled_slot, help_deed, take_answer};
ghost use Rattle.known_jobs.specs.Carried.{can_claim, can_commit, can_fail};
ghost use Rattle.worker_table.specs.Made.{commits};
ghost use Rattle.known_jobs.specs.Carried.{fails_honestly, free_slot};
ghost use Rattle.worker_table.specs.Made.{helps};
ghost use Rattle.worker_table.specs.Moves.{Steps, Stops};

use crate::act::Act;
use crate::help::Help;
use crate::stance::Stance;
use beam_values::{Cause, NoMemory};
use book_core::{Book, Failure, Taken, Unplaced};
use bundle_commit::{Job, Receipt};
use known_jobs::claim_end;

/// There is one slot more, which is the pass's.
#[derive(Drop)]
pub struct Enrolling;

impl Act for Enrolling {
    type Answer = Result<u32, NoMemory>;

    ghost may = { λ act setting e. e.slot ≡ None };

    ghost asks = { λ act b. Unit {0} };

    ghost makes = { λ act b answer new.
        Makes b (enrolled_slot answer) Enroll (enroll_answer answer) new };

    ghost deed = { λ act answer. enroll_deed answer };

    ghost carries = { λ act setting e b known asked. tt };

    ghost does = { λ act answer setting e b new known asked made.
        (asked, made setting.known.told) };

    fn act(self, book: &mut Book) -> Result<u32, NoMemory> {
        book.enroll()
    }

    fn before(&self) -> Stance {
        Stance::Enters
    }
}

/// The slot gets the next job.
#[derive(Drop)]
pub struct Taking {
    pub slot: u32,
}

impl Act for Taking {
    type Answer = Result<Taken, NoMemory>;

    ghost may = { λ act setting e. (e.slot ≡ Some act.slot) × (e.job ≡ None) };

    ghost asks = { λ act b. IsFree b act.slot };

    ghost makes = { λ act b answer new. Makes b act.slot Take (take_answer answer) new };

    ghost deed = { λ act answer. Steps act.slot Take (take_answer answer) };

    ghost carries = { λ act setting e b known asked.
        free_slot setting b act.slot e.job known.plan (known.job act.slot asked.0) asked.1 };

    ghost does = { λ act answer setting e b new known asked made.
        (asked.0, tt, made setting.known.told, tt) };

    fn act(self, book: &mut Book) -> Result<Taken, NoMemory> {
        book.take(self.slot)
    }

    fn before(&self) -> Stance {
        Stance::StepsAside
    }

    fn after(answer: &Result<Taken, NoMemory>) -> Stance {
        match answer {
            Ok(Taken::Job(job)) => Stance::TurnsTo(kind_of(job)),
            Ok(Taken::Finished | Taken::Stopped) => Stance::Leaves,
            Ok(Taken::Nothing) | Err(NoMemory) => Stance::Stays,
        }
    }
}

/// The slot's range attempts a position. Answers the end of the range: a position below it is granted.
#[derive(Drop)]
pub struct Claiming {
    pub slot: u32,
    pub p: u64,
}

impl Act for Claiming {
    type Answer = u64;

    ghost may = { λ act setting e. (e.slot ≡ Some act.slot) × CanClaimAs e.job act.p };

    ghost asks = { λ act b. CanClaim b act.slot act.p };

    ghost makes = { λ act b end new. Makes b act.slot (Claim act.p) (Claimed (nat_lt act.p end)) new
        × IsSomeAnd (live_piece new act.slot) (λ piece. piece.range.to ≡ end) };

    ghost deed = { λ act end. Steps act.slot (Claim act.p) (Claimed (nat_lt act.p end)) };

    ghost carries = { λ act setting e b known asked.
        can_claim setting b act.slot e.job known.plan (known.job act.slot asked.0) act.p asked.1 };

    ghost does = { λ act end setting e b new known asked made.
        (asked.0, tt, made.0 setting.known.told, tt) };

    fn act(self, book: &mut Book) -> u64 {
        claim_end(book, self.slot, self.p)
    }
}

/// The range of the slot that an idle one helps is split at a half.
#[derive(Drop)]
pub struct HelpingOther {
    pub slot: u32,
}

impl Act for HelpingOther {
    type Answer = Help;

    ghost may = { λ act setting e. e.slot ≡ Some act.slot };

    ghost asks = { λ act b. Unit {0} };

    ghost makes = { λ act b help new. Helping b act.slot help new };

    ghost deed = { λ act help. help_deed help };

    ghost carries = { λ act setting e b known asked. tt };

    ghost does = { λ act help setting e b new known asked made.
        helps setting.known b new act.slot e help asked made };

    fn act(self, book: &mut Book) -> Help {
        let Some(other) = book.next_for(self.slot) else {
            return Help::Nobody;
        };
        match book.split(other, 1, 2) {
            Ok(Some(at)) => Help::Cut { other, at },
            Ok(None) => unreachable!(),
            Err(_none) => Help::Refused { other },
        }
    }

    fn after(help: &Help) -> Stance {
        match help {
            Help::Nobody | Help::Refused { .. } => Stance::Rests,
            Help::Cut { .. } => Stance::Stays,
        }
    }
}

/// The receipt of the slot's job is placed.
#[derive(Drop)]
pub struct Committing {
    pub slot: u32,
    pub receipt: Receipt,
}

impl Act for Committing {
    type Answer = Result<(), Unplaced>;

    ghost may = { λ act setting e.
        (e.slot ≡ Some act.slot) × CanCommitAs setting e.job act.receipt };

    ghost asks = { λ act b. CanCommit None b act.slot act.receipt };

    ghost makes = { λ act b answer new. Placing b act.slot act.receipt answer new };

    ghost deed = { λ act answer. Steps act.slot Commit (commit_answer answer) };

    ghost carries = { λ act setting e b known asked.
        (can_commit setting b act.slot e.job known.plan (known.job act.slot asked.0)
        act.receipt asked.1).0 };

    ghost does = { λ act answer setting e b new known asked made. (
      asked.0,
      tt,
      commits setting.known.told b new act.slot act.receipt answer
          (can_commit setting b act.slot e.job known.plan (known.job act.slot asked.0)
          act.receipt asked.1).1 made,
      tt,
    ) };

    fn act(self, book: &mut Book) -> Result<(), Unplaced> {
        book.commit(self.slot, self.receipt)
    }
}

/// The slot's job is given back, or its range is broken; and its owner has one fail more.
#[derive(Drop)]
pub struct Failing {
    pub slot: u32,
    pub at: u32,
    pub cause: Cause,
}

impl Act for Failing {
    type Answer = Failure;

    ghost may = { λ act setting e.
        (e.slot ≡ Some act.slot) × CanFailAs setting e.job act.at act.cause };

    ghost asks = { λ act b. CanFail b act.slot };

    ghost makes = { λ act b failure new.
        Makes b act.slot (Fail act.at act.cause) (failure_of failure) new };

    ghost deed = { λ act failure. Steps act.slot (Fail act.at act.cause) (failure_of failure) };

    ghost carries = { λ act setting e b known asked.
        can_fail setting b act.slot e.job known.plan (known.job act.slot asked.0)
        act.at act.cause asked.1 };

    ghost does = { λ act failure setting e b new known asked made. (
      asked.0,
      tt,
      made setting.known.told,
      fails_honestly setting b act.slot e.job known.plan (known.job act.slot asked.0)
          act.at act.cause asked.1,
    ) };

    fn act(self, book: &mut Book) -> Failure {
        book.fail(self.slot, self.at, self.cause)
    }

    fn after(failure: &Failure) -> Stance {
        match failure {
            Failure::Retry => Stance::Stays,
            Failure::Spent(_) => Stance::Leaves,
        }
    }
}

/// No job is given out any more.
#[derive(Drop)]
pub struct Stopping;

impl Act for Stopping {
    type Answer = ();

    ghost may = { λ act setting e. Unit {0} };

    ghost asks = { λ act b. Unit {0} };

    ghost makes = { λ act b answer new. Makes b 0 Stop Noted new };

    ghost deed = { λ act answer. Stops };

    ghost carries = { λ act setting e b known asked. tt };

    ghost does = { λ act answer setting e b new known asked made. made setting.known.told };

    fn act(self, book: &mut Book) {
        book.stop();
    }

    fn after(_stopped: &()) -> Stance {
        Stance::Leaves
    }
}

// Jobs of one kind crowd the table alike: those that read, and those of one node.
fn kind_of(job: &Job) -> u32 {
    match job {
        Job::Span { .. } => 0,
        Job::Batch { node, .. } | Job::Key { node, .. } => node.saturating_add(1),
    }
}
