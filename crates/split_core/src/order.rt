ghost use Rattle.std.specs.Prelude.{◌≡◌, ◌≤◌, ◌<◌, ◌*◌, length, reverse, insert};
ghost use Rattle.beam_values.specs.Times.{least_time};
ghost use Rattle.split_core.specs.Order.{piece_cmp, is_lower, with_piece, first_piece, IsAscending};

use beam_values::{Piece, Range, Time};
use std::cmp::Ordering;

/// The order in which pieces are taken.
pub fn cmp_pieces(a: &Piece, b: &Piece) -> Ordering
    ensures { result ≡ piece_cmp a.now b.now }
{
    let by_node = a.node.cmp(&b.node);
    let by_item = a.item.cmp(&b.item);
    let by_from = a.range.from().cmp(&b.range.from());
    let by_to = a.range.to().cmp(&b.range.to());
    let by_seen = a.seen.ms().cmp(&b.seen.ms());
    let by_attempts = a.attempts.cmp(&b.attempts);
    by_node.then(by_item.then(by_from.then(by_to.then(by_seen.then(by_attempts)))))
}

/// Whether the first piece is taken before the second.
pub fn is_lower(a: &Piece, b: &Piece) -> bool
    ensures { result ≡ is_lower a.now b.now }
{
    cmp_pieces(a, b).is_lt()
}

/// Where a piece goes among items that descend: before those that are lower.
pub fn place_of(items: &[Piece], piece: &Piece) -> usize
    requires { IsAscending (reverse items.now) }
    ensures within { result ≤ length items.now }
    ensures place { reverse (insert items.now result piece.now)
        ≡ with_piece piece.now (reverse items.now) }
{
    items.partition_point(|item| !is_lower(item, piece))
}

/// The piece of the chunk `i` of an item of `len` offsets.
pub fn first_piece(node: u32, item: u32, chunk: u64, len: u64, i: u64) -> Piece
    requires { i * chunk < len }
    ensures { result ≡ first_piece node item chunk len i }
{
    let from = i * chunk;
    let to = from + chunk.min(len - from);
    Piece {
        node,
        item,
        range: Range::between(from, to),
        seen: Time::LEAST,
        attempts: 0,
        spent: None,
    }
}
