ghost use Rattle.std.specs.Prelude.{◌≡◌, ◌<◌, ◌≤◌, ◌+◌, ◌++◌, ◌∷◌, [], if◌then◌else◌};
ghost use Rattle.std.specs.Prelude.{length, Some, None, slice_get, slice_set};
ghost use Rattle.book_core.specs.Book.{piece_of, batch_of};
ghost use Rattle.book_core.specs.Changes.{attempts_of, note_of};
ghost use Rattle.book_core.specs.Facts.{HasTurn};
ghost use Rattle.book_core.specs.Indexes.{pieces_back, batches_back, keys_back, is_spent};
ghost use Rattle.book_core.specs.Indexes.{stopped_after};
ghost use Rattle.book_core.specs.KeyCells.{cells_in};
ghost use Rattle.book_core.specs.Jobs.{first_pane};

use crate::live::{Batch, Failure, Live};
use beam_values::{Cause, FaultNote, Piece, RoomyList, StopCause};
use retry_core::Next;
use split_core::Pieces;
use stateful_core::Keys;

/// Takes what a slot works, and leaves it free.
pub fn take_out(slots: &mut Vec<Option<Live>>, slot: u32) -> Option<Live>
    requires { slot < length slots.old.items }
    ensures job { slice_get slots.old.items slot ≡ Some result }
    ensures free { slots.new.items ≡ slice_set slots.old.items slot None }
{
    let place = &mut slots[slot as usize];
    place.take()
}

/// The first pane of a batch.
pub fn first_pane(batch: &Batch) -> u32
    ensures { result ≡ first_pane batch.now }
{
    match batch.panes.as_slice().first() {
        Some(waiting) => waiting.pane,
        None => 0,
    }
}

/// How a fail of the job is noted.
pub fn note_of(job: &Live, at: u32, cause: Cause) -> FaultNote
    requires { attempts_of job.now < 4294967295 }
    ensures { result ≡ note_of job.now at cause }
{
    match job {
        Live::Span { piece, .. } => FaultNote {
            node: piece.node,
            item: piece.item,
            at,
            attempt: piece.attempts + 1,
            cause,
        },
        Live::Batch(batch) => FaultNote {
            node: batch.node,
            item: first_pane(batch),
            at,
            attempt: batch.attempts + 1,
            cause,
        },
        Live::Key(turn) => FaultNote {
            node: turn.node,
            item: turn.cell,
            at,
            attempt: turn.attempts + 1,
            cause,
        },
    }
}

/// How often the work of a job has failed.
pub fn attempts_of(job: &Live) -> u32
    ensures { result ≡ attempts_of job.now }
{
    match job {
        Live::Span { piece, .. } => piece.attempts,
        Live::Batch(batch) => batch.attempts,
        Live::Key(turn) => turn.attempts,
    }
}

/// Gives a job back that failed at a node, with one more attempt, into the place that is kept for it.
pub fn give_back(
    pieces: &mut Pieces,
    returned: &mut RoomyList<Batch>,
    keys: &mut Keys,
    job: Live,
    at: u32,
    cause: Cause,
)
    requires attempts { attempts_of job < 4294967295 }
    requires pieces { length (piece_of (Some job)) ≤ pieces.old.room }
    requires batches { length (batch_of (Some job)) ≤ returned.old.room }
    requires turn { HasTurn (cells_in keys.old) (Some job) }
    ensures pending { pieces.new.pending ≡ pieces_back pieces.old.pending job at cause }
    ensures returned { returned.new.items ≡ batches_back returned.old.items job }
    ensures keys { cells_in keys.new ≡ keys_back (cells_in keys.old) job }
    ensures pieces_room { pieces.old.room ≤ pieces.new.room + length (piece_of (Some job)) }
    ensures batches_room { returned.old.room ≤ returned.new.room + length (batch_of (Some job)) }
{
    match job {
        Live::Span { piece, .. } => pieces.give_back(Piece {
            attempts: piece.attempts + 1,
            ..piece
        }),
        Live::Batch(batch) => {
            let Batch {
                node,
                panes,
                attempts,
            } = batch;
            put_kept(
                returned,
                Batch {
                    node,
                    panes,
                    attempts: attempts + 1,
                },
            );
        }
        Live::Key(turn) => keys.give_back(turn.cell),
    }
}

// A push into a kept place.
fn put_kept(returned: &mut RoomyList<Batch>, batch: Batch)
    requires { 0 < returned.old.room }
    ensures items { returned.new.items ≡ returned.old.items ++ batch ∷ [] }
    ensures used { returned.old.room ≤ returned.new.room + 1 }
{
    let Ok(()) = returned.push(batch) else {
        unreachable!()
    };
}

/// The first cause of a stop is kept.
pub fn stopped_after(kept: Option<StopCause>, next: Next, note: FaultNote) -> Option<StopCause>
    ensures { result ≡ stopped_after (is_spent next) kept note }
{
    match next {
        Next::Retry(_) => kept,
        Next::Spent => kept.or(Some(StopCause::Spent(note))),
    }
}

/// What comes of a job that failed.
pub fn failure_of(next: Next, note: FaultNote) -> Failure
    ensures { result ≡ (if is_spent next then Failure.Spent note else Failure.Retry) }
{
    match next {
        Next::Retry(_) => Failure::Retry,
        Next::Spent => Failure::Spent(note),
    }
}
