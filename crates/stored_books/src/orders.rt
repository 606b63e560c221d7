//! Whether the lists of data are in their orders.

ghost use Rattle.std.specs.Prelude.{◌≡◌, ◌↔◌, IsTrue};
ghost use Rattle.stored_books.specs.Facts.{AreListsInOrder};

use book_core::BookData;
use piece_checks::{are_dead_in_order, are_done_in_order, are_panes_in_order, are_pieces_in_order};

/// Whether pieces, done ranges, dead positions and panes are in order.
pub fn are_lists_in_order(stored: &BookData) -> bool
    ensures { IsTrue result ↔ AreListsInOrder stored.now }
{
    are_pieces_in_order(stored.pending.as_slice())
        && are_done_in_order(stored.done.as_slice())
        && are_dead_in_order(stored.dead.as_slice())
        && are_panes_in_order(stored.panes.as_slice())
}
