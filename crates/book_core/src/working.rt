ghost use Rattle.std.specs.Prelude.{◌≡◌, ◌≢◌, ◌≤◌, ◌<◌, if◌then◌else◌, ℕ, true, false, is_none};
ghost use Rattle.std.specs.Prelude.{length, Option, Some, None, slice_get, MatchOption};
ghost use Rattle.std.specs.List.{All, flat_map, list_all};
ghost use Rattle.beam_values.specs.declared.piece.Piece.{Piece};
ghost use Rattle.book_core.specs.Book.{piece_of, batch_of, tracker_of};
ghost use Rattle.book_core.specs.Calls.{piece_in};
ghost use Rattle.beam_values.specs.Tracking.{split_point_of};
ghost use Rattle.book_core.specs.Facts.{IsAttemptedWithin};
ghost use Rattle.book_core.specs.NextFor.{IsLeftOf, IsMostOf, better_of};
ghost use Rattle.book_core.specs.declared.live.Live.TheVariants as live;

use crate::live::{Live, Taken};
use beam_values::Piece;
use offset_tracker::Tracker;

/// The range that a slot works, where it isn't spent, and the last position that was attempted in it.
pub fn span_at(slots: &[Option<Live>], slot: u32) -> Option<(Piece, Option<u64>)>
    ensures { MatchOption result ((piece : Piece) (attempted : Option ℕ)
        → slice_get slots.now slot ≡ Some (Some (live.Span piece attempted)) → piece.spent ≢ None)
        (λ span. (slice_get slots.now slot ≡ Some (Some (live.Span span.0 span.1)))
        × (span.0.spent ≡ None)) }
{
    match slots.get(slot as usize) {
        Some(Some(Live::Span { piece, attempted })) if piece.spent.is_none() => {
            Some((*piece, *attempted))
        }
        _ => None,
    }
}

/// The piece that a slot works, with its present range.
pub fn piece_at(slots: &[Option<Live>], slot: u32) -> Option<Piece>
    ensures { result ≡ piece_in (slice_get slots.now slot) }
{
    match slots.get(slot as usize) {
        Some(Some(Live::Span { piece, .. })) => Some(*piece),
        _ => None,
    }
}

/// The tracker of a range that is worked.
pub fn tracker_of(piece: &Piece, attempted: Option<u64>) -> Tracker
    requires { IsAttemptedWithin (Some (live.Span piece.now attempted)) }
    ensures { result ≡ tracker_of piece.now attempted }
{
    let mut tracker = Tracker::new(piece.range);
    if let Some(last) = attempted {
        let _ = tracker.try_claim(last);
    }
    tracker
}

/// How many pieces are worked.
pub fn count_pieces(slots: &[Option<Live>]) -> usize
    ensures exact { result ≡ length (flat_map piece_of slots.now) }
    ensures within { result ≤ length slots.now }
{
    let mut count = 0;
    for slot in slots {
        if works_piece(slot) {
            count += 1;
        }
    }
    count
}

fn works_piece(slot: &Option<Live>) -> bool
    ensures yes { result ≡ true → length (piece_of slot.now) ≡ 1 }
    ensures no { result ≡ false → length (piece_of slot.now) ≡ 0 }
{
    match slot {
        Some(Live::Span { .. }) => true,
        Some(Live::Batch(_)) => false,
        Some(Live::Key(_)) => false,
        None => false,
    }
}

/// How many batches are worked.
pub fn count_batches(slots: &[Option<Live>]) -> usize
    ensures exact { result ≡ length (flat_map batch_of slots.now) }
    ensures within { result ≤ length slots.now }
{
    let mut count = 0;
    for slot in slots {
        if works_batch(slot) {
            count += 1;
        }
    }
    count
}

fn works_batch(slot: &Option<Live>) -> bool
    ensures yes { result ≡ true → length (batch_of slot.now) ≡ 1 }
    ensures no { result ≡ false → length (batch_of slot.now) ≡ 0 }
{
    match slot {
        Some(Live::Batch(_)) => true,
        Some(Live::Span { .. }) => false,
        Some(Live::Key(_)) => false,
        None => false,
    }
}

/// What is answered where nothing can be taken.
pub fn idle_answer(slots: &[Option<Live>]) -> Taken
    ensures { result ≡ (if list_all is_none slots.now then Taken.Finished else Taken.Nothing) }
{
    if are_free(slots) {
        Taken::Finished
    } else {
        Taken::Nothing
    }
}

fn are_free(slots: &[Option<Live>]) -> bool
    ensures { result ≡ list_all is_none slots.now }
{
    slots.iter().all(|slot| slot.is_none())
}

/// How much of a slot's range lies behind its last attempted position, where it isn't spent and would split at
/// a half.
fn left_if_split(slots: &[Option<Live>], slot: u32) -> Option<u64>
    requires { All IsAttemptedWithin slots.now }
    ensures { MatchOption result
        ((piece : Piece) (attempted : Option ℕ)
        → slice_get slots.now slot ≡ Some (Some (live.Span piece attempted)) → piece.spent ≡ None
        → piece.range.to ≤ split_point_of (tracker_of piece attempted) 1 2)
        (IsLeftOf slots.now slot) }
{
    let (piece, attempted) = span_at(slots, slot)?;
    let mut tracker = tracker_of(&piece, attempted);
    let _ = tracker.try_split(1, 2)?;
    let open = match attempted {
        Some(last) => last + 1,
        None => piece.range.from(),
    };
    Some(piece.range.to() - open)
}

/// The slot, other than this one, whose range would split at a half and has the most left.
pub fn most_left(slots: &[Option<Live>], slot: u32) -> Option<u32>
    requires attempted { All IsAttemptedWithin slots.now }
    requires few { length slots.now < 4294967295 }
    ensures { IsMostOf slots.now slot (length slots.now) result }
{
    let mut best: Option<(u32, u64)> = None;
    for other in 0..slots.len() as u32 {
        if other != slot {
            best = better(best, other, left_if_split(slots, other));
        }
    }
    match best {
        Some((chosen, _)) => Some(chosen),
        None => None,
    }
}

// The earlier one is kept where both have as much left.
fn better(best: Option<(u32, u64)>, other: u32, left: Option<u64>) -> Option<(u32, u64)>
    ensures { result ≡ better_of best other left }
{
    match (best, left) {
        (None, Some(left)) => Some((other, left)),
        (Some((_, most)), Some(left)) if most < left => Some((other, left)),
        _ => best,
    }
}
