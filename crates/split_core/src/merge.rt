ghost use Rattle.std.specs.Prelude.{◌≡◌, ◌+◌, ◌≤◌, ◌<◌, [], ◌∷◌, ◌++◌, true, length, reverse, All};
ghost use Rattle.std.specs.Int.{div_ceil};
ghost use Rattle.beam_values.specs.declared.piece.Piece.{Piece};
ghost use Rattle.split_core.specs.Order.{is_lower, with_piece, with_pieces, first_pieces};
ghost use Rattle.split_core.specs.Order.{IsAscending};
ghost use Rattle.split_core.specs.Front.{first_is_lower};

use crate::order::{first_piece, is_lower, place_of};
use beam_values::{Piece, RoomyList};

/// Puts a piece into its place among items that descend.
pub fn put_in_order(items: &mut RoomyList<Piece>, piece: Piece)
    requires ascending { IsAscending (reverse items.old.items) }
    requires room { 0 < items.old.room }
    ensures order { reverse items.new.items ≡ with_piece piece (reverse items.old.items) }
    ensures one { length items.new.items ≡ length items.old.items + 1 }
    ensures kept { length items.old.items + items.old.room
        ≤ length items.new.items + items.new.room }
{
    let at = place_of(items.as_slice(), &piece);
    let Ok(()) = items.insert(at, piece) else {
        unreachable!()
    };
}

/// Puts the first pieces of an item into their places among items that descend. The lower ones go
/// through `lower`, so that each item is moved twice at most.
pub fn put_first_pieces(
    items: &mut RoomyList<Piece>,
    lower: &mut RoomyList<Piece>,
    node: u32,
    item: u32,
    len: u64,
    chunk: u64,
)
    requires chunk { 1 ≤ chunk }
    requires empty { lower.old.items ≡ [] }
    requires aside { length items.old.items + div_ceil len chunk ≤ lower.old.room }
    requires room { div_ceil len chunk ≤ items.old.room }
    ensures order { reverse items.new.items
        ≡ with_pieces (first_pieces node item len chunk) (reverse items.old.items) }
    ensures more { length items.new.items ≡ length items.old.items + div_ceil len chunk }
    ensures kept { length items.old.items + items.old.room
        ≤ length items.new.items + items.new.room }
{
    for i in 0..len.div_ceil(chunk) {
        pass_lower(items, lower, first_piece(node, item, chunk, len, i));
    }
    move_back(items, lower);
}

/// Moves the items that are lower than a piece to the end of `lower`, and the piece behind them.
fn pass_lower(items: &mut RoomyList<Piece>, lower: &mut RoomyList<Piece>, piece: Piece)
    requires { length items.old.items < lower.old.room }
    ensures order { lower.new.items ++ reverse items.new.items
        ≡ lower.old.items ++ with_piece piece (reverse items.old.items) }
    ensures below { (next : Piece) → is_lower piece next ≡ true
        → All (λ q. is_lower q next ≡ true) lower.old.items
        → All (λ q. is_lower q next ≡ true) lower.new.items }
    ensures more { length lower.new.items + length items.new.items
        ≡ length lower.old.items + length items.old.items + 1 }
    ensures aside { length lower.old.items + lower.old.room
        ≤ length lower.new.items + lower.new.room }
    ensures kept { length items.old.items + items.old.room
        ≤ length items.new.items + items.new.room }
{
    while last_is_lower(items.as_slice(), &piece) {
        if let Some(last) = items.pop() {
            put_last(lower, last);
        }
    }
    put_last(lower, piece);
}

fn last_is_lower(items: &[Piece], piece: &Piece) -> bool
    ensures { result ≡ first_is_lower piece.now (reverse items.now) }
{
    match items.last() {
        Some(last) => is_lower(last, piece),
        None => false,
    }
}

/// Moves ascending pieces behind items that descend.
fn move_back(items: &mut RoomyList<Piece>, lower: &mut RoomyList<Piece>)
    requires { length lower.old.items ≤ items.old.room }
    ensures order { reverse items.new.items ≡ lower.old.items ++ reverse items.old.items }
    ensures more { length items.new.items ≡ length lower.old.items + length items.old.items }
    ensures kept { length items.old.items + items.old.room
        ≤ length items.new.items + items.new.room }
{
    while let Some(last) = lower.pop() {
        put_last(items, last);
    }
}

/// A push into a kept place.
fn put_last(items: &mut RoomyList<Piece>, piece: Piece)
    requires { 0 < items.old.room }
    ensures items { items.new.items ≡ items.old.items ++ piece ∷ [] }
    ensures used { items.old.room ≤ items.new.room + 1 }
{
    let Ok(()) = items.push(piece) else {
        unreachable!()
    };
}
