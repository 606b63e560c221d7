ghost use Rattle.std.specs.Prelude.{◌≡◌, ◌≤◌, [], length, map};
ghost use Rattle.std.specs.List.{count_by};
ghost use Rattle.std.specs.Option.{option_map};
ghost use Rattle.stateful_core.specs.KeyWork.{numbered_entry};
ghost use Rattle.stateful_core.specs.Opening.{done_of};
ghost use Rattle.book_core.specs.Changes.{key_done, key_done_of};
ghost use Rattle.book_core.specs.Jobs.{job_of};
ghost use Rattle.book_core.specs.KeyCells.{elements_of, is_arrived, logged_of};
ghost use Rattle.book_core.specs.declared.live.Live.TheVariants as live;

use crate::live::Live;
use beam_values::{List, LogEntry, LogInput};
use bundle_commit::{Job, Logged};
use stateful_core::{KeyDone, KeyTurn};

/// The job of a key cell.
pub fn key_job(turn: KeyTurn) -> Job
    ensures { result ≡ job_of [] (live.Key turn) }
{
    let KeyTurn {
        node,
        cell,
        key,
        span,
        inputs,
        state,
        timers,
        attempts,
    } = turn;
    Job::Key {
        node,
        cell,
        key,
        span,
        inputs,
        state,
        timers,
        attempts,
    }
}

/// What a key job leaves, with its entries under the number of its commit.
pub fn key_done(job: &Live, logged: Option<Logged>, commit: u32) -> Option<KeyDone>
    ensures { option_map done_of result ≡ key_done commit job.now logged }
{
    match job {
        Live::Key(turn) => done_as(turn.cell, logged, commit),
        Live::Batch(_) => None,
        Live::Span { .. } => None,
    }
}

fn done_as(cell: u32, logged: Option<Logged>, commit: u32) -> Option<KeyDone>
    ensures { option_map done_of result ≡ key_done_of commit cell logged }
{
    let Logged {
        state,
        timers,
        entries,
    } = logged?;
    Some(KeyDone {
        cell,
        state,
        timers,
        entries: numbered(entries, commit),
    })
}

/// What was logged, as the receipt had it, with its entries under commit 0.
pub fn logged_of(done: Option<KeyDone>) -> Option<Logged>
    ensures { result ≡ logged_of (option_map done_of done) }
{
    let KeyDone {
        state,
        timers,
        entries,
        ..
    } = done?;
    Some(Logged {
        state,
        timers,
        entries: numbered(entries, 0),
    })
}

/// Fills in the number of the commit in each entry.
fn numbered(entries: List<LogEntry>, commit: u32) -> List<LogEntry>
    ensures { result ≡ map (numbered_entry commit) entries }
{
    let mut entries = entries.into_vec();
    for entry in entries.iter_mut() {
        entry.commit = commit;
    }
    List::from_vec(entries)
}

/// How many elements the job of a key cell is on.
pub fn elements_of(job: &Live) -> usize
    ensures { result ≡ elements_of job.now }
{
    match job {
        Live::Key(turn) => count_arrived(turn.inputs.get().as_slice()),
        Live::Batch(_) => 0,
        Live::Span { .. } => 0,
    }
}

fn count_arrived(inputs: &[LogInput]) -> usize
    ensures exact { result ≡ count_by is_arrived inputs.now }
    ensures within { result ≤ length inputs.now }
{
    let mut count = 0;
    for input in inputs {
        if has_arrived(input) {
            count += 1;
        }
    }
    count
}

fn has_arrived(input: &LogInput) -> bool
    ensures { result ≡ is_arrived input.now }
{
    matches!(input, LogInput::Arrived(_))
}
