ghost use Rattle.std.specs.Prelude.{◌≡◌, IsSomeAnd, nat_lt};
ghost use Rattle.book_core.specs.Calls.{CanClaim, Makes, live_piece};
ghost use Rattle.book_core.specs.Steps.{Claim, Claimed};

use book_core::Book;

/// The slot's range attempts a position. Answers the end of the range: a position below it is granted.
pub fn claim_end(book: &mut Book, slot: u32, p: u64) -> u64
    requires { CanClaim book.old slot p }
    ensures step { Makes book.old slot (Claim p) (Claimed (nat_lt p result)) book.new }
    ensures end { IsSomeAnd (live_piece book.new slot) (λ piece. piece.range.to ≡ result) }
{
    let _granted = book.claim(slot, p);
    let Some(piece) = book.live(slot) else {
        unreachable!();
    };
    piece.range.to()
}
