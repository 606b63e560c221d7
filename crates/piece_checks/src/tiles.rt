//! Whether ranges and dead positions fill the items, with nothing held twice or left out.

ghost use Rattle.std.specs.Prelude.{◌≡◌, ◌≤◌, ◌∷◌, List, ℕ, length, drop, nat_lt, IfOk, IfSome, IsTrue, ◌↔◌};
ghost use Rattle.std.specs.List.{filter};
ghost use Rattle.piece_checks.specs.Tiles.{fills, fills_on, has_offsets, is_next, AreItemsAscending, AreTiled};
ghost use Rattle.piece_checks.specs.declared.parts.Part.{Part as PartOf};

use crate::parts::{Part, parts_in_order};
use beam_values::{Dead, Done, FileLen, NoMemory, Piece};
use std::alloc::Global;

/// Whether each offset of each item lies in one pending or one done range or is one dead position, and not
/// two of these; and whether no other offset does. Empty ranges hold no offset, so they may lie anywhere.
pub fn are_tiled(
    alloc: Global,
    files: &[FileLen],
    pending: &[Piece],
    done: &[Done],
    dead: &[Dead],
) -> Result<bool, NoMemory>
    requires { AreItemsAscending files.now }
    ensures { IfOk result
        (λ is. IsTrue is ↔ AreTiled files.now pending.now done.now dead.now) }
{
    let items = with_offsets(alloc, files)?;
    let parts = parts_in_order(alloc, pending, done, dead)?;
    Ok(fill(items.as_slice(), parts.as_slice()))
}

fn with_offsets(alloc: Global, files: &[FileLen]) -> Result<Vec<FileLen>, NoMemory>
    ensures { IfOk result (λ items. items.items ≡ filter has_offsets files.now) }
{
    let items = files
        .iter()
        .filter(|file| 0 < file.len)
        .copied()
        .collect(alloc)?;
    Ok(items)
}

/// Whether parts in order, one behind another, are the items whole.
fn fill(items: &[FileLen], parts: &[Part]) -> bool
    ensures { result ≡ fills items.now 0 parts.now }
{
    let mut front = Front { place: 0, at: 0 };
    for part in parts {
        let Some(next) = step(items, front, part) else {
            return false;
        };
        front = next;
    }
    front.place == items.len()
}

/// How far the items are filled: the place of the first one that isn't, and its first offset that no
/// part was.
#[derive(Clone, Copy, Debug)]
struct Front {
    place: usize,
    at: u64,
}

/// How far they are filled with one more part; `None` where it isn't the next one.
fn step(items: &[FileLen], front: Front, part: &Part) -> Option<Front>
    requires { front.place ≤ length items.now }
    ensures within { IfSome result (λ next. next.place ≤ length items.now) }
    ensures fills { (parts : List PartOf) → fills (drop front.place items.now) front.at (part.now ∷ parts)
        ≡ fills_on items.now result parts }
{
    let item = items.get(front.place)?;
    if !is_next(item, front.at, part) {
        return None;
    }
    let len = item.len;
    let at = part.last + 1;
    if at == len {
        return Some(Front {
            place: front.place + 1,
            at: 0,
        });
    }
    Some(Front {
        place: front.place,
        at,
    })
}

/// Whether a part is of an item, begins at an offset of it and doesn't pass its end.
fn is_next(item: &FileLen, at: u64, part: &Part) -> bool
    ensures { result ≡ is_next item.now at part.now }
{
    part.node == item.node && part.item == item.item && part.first == at && part.last < item.len
}
