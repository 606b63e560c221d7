//! Ranges of plans that set positions aside: the places that are kept for their parts, and how one is broken.
ghost use Rattle.std.specs.Prelude.{◌≡◌, ◌≤◌, ◌<◌, ◌+◌, ◌++◌, ◌∷◌, ◌&&◌, ℕ, true, false, length, map, Contains};
ghost use Rattle.std.specs.Prelude.{List, MatchOption, OnErr, OnOk};
ghost use Rattle.beam_model.specs.Holds.{Hold, piece_hold};
ghost use Rattle.beam_values.specs.Checked.{IsChecked};
ghost use Rattle.beam_values.specs.declared.fault.Cause.TheVariants.{Call};
ghost use Rattle.book_core.specs.Book.{most_parts, sets_aside};
ghost use Rattle.book_core.specs.Changes.{blamed, broken_parts, may_break, part_of};
ghost use Rattle.book_core.specs.Indexes.{is_spent, marks_in, AreHeldIn};
ghost use Rattle.book_core.specs.declared.live.Live.TheVariants as live;
ghost use Rattle.split_core.specs.Order.{with_pieces};

use crate::committing::GREATEST_COUNT;
use crate::held::{NodeHolds, mark_of_piece};
use crate::live::Live;
use beam_values::{Cause, FaultNote, NoMemory, Piece, Plan, Range};
use retry_core::Next;
use split_core::Pieces;

/// Plans of version 2 go on without a position whose work failed as often as it may, the last time in a call.
pub fn sets_aside(plan: &Plan) -> bool
    ensures { result ≡ sets_aside plan.now }
{
    plan.version == 2
}

/// How many places are kept for so many pieces that are worked.
pub fn most_parts(plan: &Plan, pieces: usize) -> usize
    requires { pieces < 4294967296 }
    ensures { result ≡ most_parts plan.now pieces }
{
    if sets_aside(plan) { 3 * pieces } else { pieces }
}

/// Keeps the places that one more piece needs when it is taken, beside those of the pieces that are worked:
/// its range may be broken into three.
pub fn keep_parts(pieces: &mut Pieces, plan: &Plan, worked: usize) -> Result<(), NoMemory>
    requires worked { worked < 4294967295 }
    requires room { most_parts plan.now worked ≤ pieces.old.room }
    requires few { length pieces.old.pending + most_parts plan.now worked < 4294967295 }
    ensures pending { pieces.new.pending ≡ pieces.old.pending }
    ensures room { OnOk result (most_parts plan.now (worked + 1) ≤ pieces.new.room + 1) }
    ensures few { OnOk result
        (length pieces.old.pending + most_parts plan.now (worked + 1) < 4294967296) }
    ensures err { OnErr result (pieces.new ≡ pieces.old) }
{
    if !sets_aside(plan) {
        return Ok(());
    }
    let places = 3 * worked + 2;
    if pieces.len() + places >= GREATEST_COUNT {
        return Err(NoMemory);
    }
    pieces.keep_at_least(places as u32)
}

/// The range that a fail breaks, and the last position that was attempted in it.
pub fn broken_range(
    plan: &Plan,
    job: &Live,
    cause: Cause,
    next: Next,
) -> Option<(Piece, Option<u64>)>
    ensures { MatchOption result ((is_spent next && may_break plan.now job.now cause) ≡ false)
        (λ span. (job.now ≡ live.Span span.0 span.1) × (cause ≡ Call)
        × ((is_spent next && may_break plan.now job.now cause) ≡ true)) }
{
    match (job, cause, next) {
        (Live::Span { piece, attempted }, Cause::Call, Next::Spent) if sets_aside(plan) => {
            Some((*piece, *attempted))
        }
        _ => None,
    }
}

/// The range is broken: its parts are pending, each at the mark at which the range held its source back. Takes
/// no memory.
pub fn break_range(
    pieces: &mut Pieces,
    held: &mut NodeHolds,
    plan: &Plan,
    piece: Piece,
    attempted: Option<u64>,
    note: FaultNote,
)
    requires checked { IsChecked plan.now }
    requires attempts { piece.attempts < 4294967295 }
    requires room { 3 ≤ pieces.old.room }
    requires within { piece.node < length held.old }
    requires among { Contains (marks_in held.old piece.node) (piece_hold plan.now piece).mark }
    requires few { length (marks_in held.old piece.node) < 18446744073709551612 }
    ensures pending { pieces.new.pending
        ≡ with_pieces (broken_parts piece attempted note) pieces.old.pending }
    ensures used { pieces.old.room ≤ pieces.new.room + 3 }
    ensures held { (holds : List Hold) → AreHeldIn held.old (piece_hold plan.now piece ∷ holds)
        → AreHeldIn held.new
        (map (piece_hold plan.now) (broken_parts piece attempted note) ++ holds) }
    ensures sized { length held.new ≡ length held.old }
{
    let parts = put_parts(pieces, piece, attempted, note);
    held.hold_again(piece.node, mark_of_piece(plan, &piece), parts - 1);
}

/// The parts of a range are pending: what lies before the position that is tried alone, that position, and what
/// lies behind it; or the one position, which is spent. Answers how many there are.
fn put_parts(pieces: &mut Pieces, piece: Piece, attempted: Option<u64>, note: FaultNote) -> usize
    requires attempts { piece.attempts < 4294967295 }
    requires room { 3 ≤ pieces.old.room }
    ensures pending { pieces.new.pending
        ≡ with_pieces (broken_parts piece attempted note) pieces.old.pending }
    ensures used { pieces.old.room ≤ pieces.new.room + 3 }
    ensures count { result ≡ length (broken_parts piece attempted note) }
{
    let from = piece.range.from();
    let to = piece.range.to();
    if from < to && to - from > 1 {
        let at = blamed(&piece, attempted);
        let before = put_part(pieces, &piece, from, at);
        let alone = put_part(pieces, &piece, at, at + 1);
        let behind = put_part(pieces, &piece, at + 1, to);
        return before + alone + behind;
    }
    if from < to {
        pieces.give_back(Piece {
            attempts: piece.attempts + 1,
            spent: Some(note),
            ..piece
        });
    } else {
        pieces.give_back(Piece {
            attempts: 0,
            ..piece
        });
    }
    1
}

// The position that is tried alone.
fn blamed(piece: &Piece, attempted: Option<u64>) -> u64
    requires { piece.now.range.from < piece.now.range.to }
    ensures is { result ≡ blamed piece.now attempted }
    ensures below { result < piece.now.range.to }
{
    match attempted {
        Some(last) => last.min(piece.range.to() - 1),
        None => piece.range.from(),
    }
}

// A part that has offsets is pending. Answers how many there are: one or none.
fn put_part(pieces: &mut Pieces, piece: &Piece, from: u64, to: u64) -> usize
    requires { 0 < pieces.old.room }
    ensures pending { pieces.new.pending
        ≡ with_pieces (part_of piece.now from to) pieces.old.pending }
    ensures used { pieces.old.room ≤ pieces.new.room + 1 }
    ensures count { result ≡ length (part_of piece.now from to) }
{
    if from < to {
        pieces.give_back(Piece {
            range: Range::between(from, to),
            attempts: 0,
            ..*piece
        });
        1
    } else {
        0
    }
}
