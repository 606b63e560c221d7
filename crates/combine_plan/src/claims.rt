//! The claims of a worker that shares no piece: each is granted as far as the piece goes.

ghost use Rattle.std.specs.Prelude.{◌≡◌};
ghost use Rattle.book_core.specs.Work.{worked_to};

use beam_values::Piece;
use bundle_work::Claims;

/// A piece that one worker has to itself, and the last position of it that was attempted.
#[derive(Clone, Copy, Debug)]
pub struct OwnPiece {
    pub piece: Piece,
    pub attempted: Option<u64>,
}

impl OwnPiece {
    /// The offset up to which it is worked, where the work on it came to an end.
    pub fn worked_to(&self) -> u64
        ensures { result ≡ worked_to self.now.piece self.now.attempted }
    {
        let range = self.piece.range;
        match self.attempted {
            None => range.from(),
            Some(last) if last < range.to() => last + 1,
            Some(_) => range.to(),
        }
    }
}

/// Claims of pieces that are shared with no other worker.
#[derive(Clone, Copy, Debug)]
pub struct Unshared;

impl Claims for Unshared {
    type Pass = OwnPiece;

    ghost use Rattle.std.specs.Prelude.{◌≡◌, refl, Some};
    ghost use Rattle.std.proofs.Common.{◌∙◌};
    ghost use Rattle.bundle_commit.specs.declared.job.Job.TheVariants as job;
    ghost use Rattle.combine_plan.specs.Owning.{IsFromStart};

    ghost is_of = { λ claims own. IsFromStart own.piece.range.from own.attempted };

    ghost known = { λ claims own. Some (record {
      job = job.Span own.piece;
      attempted = own.attempted;
    }) };

    ghost stays = { λ claims first last. last.piece ≡ first.piece };

    ghost stays_same = { λ claims own. refl };

    ghost stays_on = { λ claims first next last here there. there ∙ here };

    fn claim_end(&self, own: &mut OwnPiece, p: u64) -> u64 {
        own.attempted = Some(p);
        own.piece.range.to()
    }
}
