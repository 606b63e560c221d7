//! Claims of one slot at a book.
use book_core::Book;
use bundle_work::Claims;
use known_jobs::claim_end;

/// A slot of a book, which claims positions of what it works.
#[derive(Clone, Copy, Debug, PartialEq, Eq)]
pub struct AtSlot {
    pub slot: u32,
}

impl Claims for AtSlot {
    type Pass = Book;

    ghost use Rattle.known_jobs.specs.Jobs.{known_at};
    ghost use Rattle.lone_worker.specs.Claims.{AreClaims, claims_none, claims_onward};

    ghost is_of = { λ at book. Unit {0} };

    ghost known = { λ at book. known_at book at.slot };

    ghost stays = { λ at first last. AreClaims at.slot first last };

    ghost stays_same = { λ at book. claims_none at.slot book };

    ghost stays_on = { λ at first next last. claims_onward at.slot first next last };

    fn claim_end(&self, pass: &mut Book, p: u64) -> u64 {
        pass.is_sane();
        claim_end(pass, self.slot, p)
    }
}
