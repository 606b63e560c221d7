//! Whether ranges and positions are of items that are listed.

ghost use Rattle.std.specs.Prelude.{◌≡◌, ◌↔◌, IsTrue};
ghost use Rattle.std.specs.List.{All};
ghost use Rattle.split_core.specs.Partition.{IsListed};
ghost use Rattle.piece_checks.specs.Orders.{item_cmp};
ghost use Rattle.piece_checks.specs.Tiles.{AreItemsAscending};

use beam_values::{Dead, Done, FileLen, Piece};
use std::cmp::Ordering;

/// Whether each piece is of a listed item.
pub fn are_pieces_listed(files: &[FileLen], pieces: &[Piece]) -> bool
    requires { AreItemsAscending files.now }
    ensures { IsTrue result
        ↔ All (λ piece. IsListed files.now piece.node piece.item) pieces.now }
{
    for piece in pieces {
        if !is_listed(files, piece.node, piece.item) {
            return false;
        }
    }
    true
}

/// Whether each done range is of a listed item.
pub fn are_done_listed(files: &[FileLen], done: &[Done]) -> bool
    requires { AreItemsAscending files.now }
    ensures { IsTrue result ↔ All (λ d. IsListed files.now d.node d.item) done.now }
{
    for d in done {
        if !is_listed(files, d.node, d.item) {
            return false;
        }
    }
    true
}

/// Whether each dead position is of a listed item.
pub fn are_dead_listed(files: &[FileLen], dead: &[Dead]) -> bool
    requires { AreItemsAscending files.now }
    ensures { IsTrue result ↔ All (λ d. IsListed files.now d.node d.item) dead.now }
{
    for d in dead {
        if !is_listed(files, d.node, d.item) {
            return false;
        }
    }
    true
}

fn is_listed(files: &[FileLen], node: u32, item: u32) -> bool
    requires { AreItemsAscending files.now }
    ensures { IsTrue result ↔ IsListed files.now node item }
{
    files
        .binary_search_by(|file| cmp_item(file, node, item))
        .is_ok()
}

fn cmp_item(file: &FileLen, node: u32, item: u32) -> Ordering
    ensures { result ≡ item_cmp file.now (record { node = node; item = item; len = 0 }) }
{
    file.node.cmp(&node).then(file.item.cmp(&item))
}
