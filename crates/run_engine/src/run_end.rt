ghost use Rattle.std.specs.Prelude.{◌⊎◌, IfOk};
ghost use Rattle.run_engine.specs.PlanRun.{IsEndOfBook, IsMemoryEnd, IsStatusAfter};

use beam_values::{NoMemory, Outcome, StopCause};
use book_core::{Book, look_at_panes};
use command_ends::Status;

/// The end of a command: its status and, where a run came to its end, its outcome.
#[derive(Debug, Drop)]
pub struct RunEnd {
    pub status: Status,
    /// What was committed; `None` where no run began, or there was no memory.
    pub outcome: Option<Outcome>,
}

// There was no memory, and nothing is handed out.
pub fn memory_end() -> RunEnd
    ensures { IsMemoryEnd result }
{
    RunEnd {
        status: Status::NoMemory,
        outcome: None,
    }
}

// The data of a book that went on, if there is memory for it.
pub fn end_or_none(book: Book) -> RunEnd
    ensures { IsEndOfBook book result ⊎ IsMemoryEnd result }
{
    match end_of(book) {
        Ok(end) => end,
        Err(NoMemory) => memory_end(),
    }
}

// The data of the book, and how its run ended.
pub fn end_of(book: Book) -> Result<RunEnd, NoMemory>
    ensures { IfOk result (IsEndOfBook book) }
{
    let outcome = book.outcome()?;
    look_at_panes(outcome.panes.as_slice());
    let status = status_of(&outcome.stopped)?;
    Ok(RunEnd {
        status,
        outcome: Some(outcome),
    })
}

// The status of a run whose book was stopped so, or wasn't.
fn status_of(stopped: &Option<StopCause>) -> Result<Status, NoMemory>
    ensures { IfOk result (IsStatusAfter stopped.now) }
{
    match stopped {
        None => Ok(Status::Ok),
        Some(StopCause::Spent(note)) => Ok(Status::WorkFault(*note)),
        Some(StopCause::NoMemory) => Err(NoMemory),
    }
}
