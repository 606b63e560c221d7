//! The pieces of all items, and which kit works which.

ghost use Rattle.std.specs.Prelude.{◌≡◌, ◌≤◌, ◌<◌, ◌∷◌, ◌++◌, [], length, map, IfOk, OnOk};
ghost use Rattle.std.specs.Prelude.{List as ListOf};
ghost use Rattle.beam_values.specs.declared.piece.FileLen.{FileLen as FileLenOf};
ghost use Rattle.split_core.specs.Partition.{IsPartition, range_of};
ghost use Rattle.combine_plan.specs.Dealing.{AreDealt, IsGiven};

use beam_values::{FileLen, List, NoMemory, Piece};
use split_core::Pieces;
use split_core::laws::nothing_is_held_at_first;
use std::alloc::Global;

/// Cuts all items into pieces of `chunk` offsets (Splittable DoFn, initial splitting), which partition them.
pub fn cut_items(alloc: Global, items: &[FileLen], chunk: u64) -> Result<Vec<Piece>, NoMemory>
    requires { 1 ≤ chunk }
    ensures { IfOk result (λ pieces. IsPartition items.now [] (map range_of pieces.items)) }
{
    nothing_is_held_at_first();
    let mut pieces = Vec::new(alloc);
    for item in items {
        cut_item(alloc, item, chunk, &mut pieces)?;
    }
    Ok(pieces)
}

/// Cuts one more item.
fn cut_item(
    alloc: Global,
    item: &FileLen,
    chunk: u64,
    pieces: &mut Vec<Piece>,
) -> Result<(), NoMemory>
    requires { 1 ≤ chunk }
    ensures { OnOk result ((items : ListOf FileLenOf)
        → IsPartition items [] (map range_of pieces.old.items)
        → IsPartition (items ++ item.now ∷ []) [] (map range_of pieces.new.items)) }
{
    let mut pending = Pieces::new(alloc);
    pending.initial(item.node, item.item, item.len, chunk)?;
    while let Some(piece) = pending.take() {
        pieces.push(piece)?;
    }
    Ok(())
}

// How many runs of pieces a hand gets at least, where there are so many pieces.
const RUNS: usize = 8;

// The most pieces in a run.
const LONGEST_RUN: usize = 16;

/// Deals pieces to so many hands, in runs, one after another: the rich parts of a file and the poor ones come to all, and
/// the block that is read behind a piece serves the next one.
pub fn deal(alloc: Global, pieces: &[Piece], count: usize) -> Result<Vec<List<Piece>>, NoMemory>
    requires { 0 < count }
    ensures count { IfOk result (λ hands. length hands.items ≡ count) }
    ensures dealt { IfOk result (λ hands. AreDealt pieces.now hands.items) }
{
    let mut hands = empty_hands(alloc, count)?;
    let run = (pieces.len() / count / RUNS).clamp(1, LONGEST_RUN);
    for (at, piece) in pieces.iter().enumerate() {
        give(&mut hands, at / run % count, *piece)?;
    }
    Ok(hands)
}

fn empty_hands(alloc: Global, count: usize) -> Result<Vec<List<Piece>>, NoMemory>
    ensures count { IfOk result (λ hands. length hands.items ≡ count) }
    ensures empty { IfOk result (λ hands. AreDealt [] hands.items) }
{
    let mut hands = Vec::with_capacity(alloc, count)?;
    for _ in 0..count {
        hands.push(List::new(alloc))?;
    }
    Ok(hands)
}

/// One more piece comes to a hand.
fn give(hands: &mut Vec<List<Piece>>, at: usize, piece: Piece) -> Result<(), NoMemory>
    requires { at < length hands.old.items }
    ensures count { length hands.new.items ≡ length hands.old.items }
    ensures given { OnOk result (IsGiven at piece hands.old.items hands.new.items) }
{
    let hand = &mut hands[at];
    hand.push(piece)
}
