//! Whether jobs failed no more often than they may, and than faults were counted.

ghost use Rattle.std.specs.Prelude.{◌≡◌, ◌+◌, ◌^◌, ◌<◌, ◌↔◌, IsTrue, sum_by};
ghost use Rattle.std.specs.List.{All};
ghost use Rattle.piece_checks.specs.Attempts.{AreFaultsEnough, IsPieceTried, IsTried};

use beam_values::{Piece, Range};

/// How many faults were counted, by their causes.
#[derive(Clone, Copy, Debug, PartialEq, Eq)]
pub struct Faults {
    pub calls: u64,
    pub reads: u64,
}

/// Whether each piece is below the limit, or is spent, has one offset and failed as often as it may.
pub fn are_pieces_tried(limit: u32, pieces: &[Piece]) -> bool
    ensures { IsTrue result ↔ All (IsPieceTried limit) pieces.now }
{
    pieces.iter().all(|piece| is_piece_tried(limit, piece))
}

fn is_piece_tried(limit: u32, piece: &Piece) -> bool
    ensures { IsTrue result ↔ IsPieceTried limit piece.now }
{
    match piece.spent {
        None => piece.attempts < limit,
        Some(_) => piece.attempts == limit && is_single(piece.range),
    }
}

fn is_single(range: Range) -> bool
    ensures { IsTrue result ↔ (range.to ≡ range.from + 1) }
{
    range.to() - range.from() == 1
}

/// Whether the limit for each of so many dead positions and the attempts of all pieces are together no more
/// than the faults that were counted.
pub fn are_faults_enough(faults: Faults, limit: u32, dead: usize, pieces: &[Piece]) -> bool
    ensures { IsTrue result ↔ AreFaultsEnough faults limit dead pieces.now }
{
    let dead = u128::from(limit) * dead as u128;
    let pieces = attempts_of(pieces);
    dead + pieces <= u128::from(faults.calls) + u128::from(faults.reads)
}

fn attempts_of(pieces: &[Piece]) -> u128
    ensures all { result ≡ sum_by (λ piece. piece.attempts) pieces.now }
    ensures few { result < 2 ^ 96 }
{
    let mut attempts = 0;
    for piece in pieces {
        attempts += u128::from(piece.attempts);
    }
    attempts
}

/// Whether a job by itself, as that of a batch or of a key cell, failed less often than it may, and no more
/// often than faults were counted.
pub fn is_tried(faults: Faults, limit: u32, attempts: u32) -> bool
    ensures { IsTrue result ↔ IsTried faults limit attempts }
{
    attempts < limit && u128::from(attempts) <= u128::from(faults.calls) + u128::from(faults.reads)
}
