//! Ranges that have offsets, in order.

ghost use Rattle.std.specs.Prelude.{◌≡◌, ◌∷◌, ◌++◌, map, IfOk, OnOk};
ghost use Rattle.std.specs.List.{flat_map};
ghost use Rattle.std.specs.List.Sorted.{IsPermutation, IsSorted};
ghost use Rattle.piece_checks.specs.Parts.{all_parts, part_cmp, part_of_dead, parts_of_done};
ghost use Rattle.piece_checks.specs.Parts.{parts_of_piece, parts_of_range};

use beam_values::{Dead, Done, NoMemory, Piece, Range};
use std::alloc::Global;
use std::cmp::Ordering;

/// A range of an item that has an offset: from its first to its last one.
#[derive(Clone, Copy, Debug)]
pub struct Part {
    pub node: u32,
    pub item: u32,
    pub first: u64,
    pub last: u64,
}

/// The ranges and positions that have offsets, by node, item and first offset.
pub fn parts_in_order(
    alloc: Global,
    pending: &[Piece],
    done: &[Done],
    dead: &[Dead],
) -> Result<Vec<Part>, NoMemory>
    ensures all { IfOk result
        (λ parts. IsPermutation (all_parts pending.now done.now dead.now) parts.items) }
    ensures sorted { IfOk result (λ parts. IsSorted part_cmp parts.items) }
{
    let mut parts = Vec::new(alloc);
    push_pending(&mut parts, pending)?;
    push_done(&mut parts, done)?;
    push_dead(&mut parts, dead)?;
    parts.sort_unstable_by(|a, b| cmp_parts(a, b));
    Ok(parts)
}

fn push_pending(parts: &mut Vec<Part>, pending: &[Piece]) -> Result<(), NoMemory>
    ensures { OnOk result (parts.new.items ≡ parts.old.items ++ flat_map parts_of_piece pending.now) }
{
    for piece in pending {
        push_range(parts, piece.node, piece.item, piece.range)?;
    }
    Ok(())
}

fn push_done(parts: &mut Vec<Part>, done: &[Done]) -> Result<(), NoMemory>
    ensures { OnOk result (parts.new.items ≡ parts.old.items ++ flat_map parts_of_done done.now) }
{
    for d in done {
        push_range(parts, d.node, d.item, d.range)?;
    }
    Ok(())
}

fn push_dead(parts: &mut Vec<Part>, dead: &[Dead]) -> Result<(), NoMemory>
    ensures { OnOk result (parts.new.items ≡ parts.old.items ++ map part_of_dead dead.now) }
{
    for d in dead {
        parts.push(Part {
            node: d.node,
            item: d.item,
            first: d.at,
            last: d.at,
        })?;
    }
    Ok(())
}

/// An empty range has no offset, and is left out.
fn push_range(parts: &mut Vec<Part>, node: u32, item: u32, range: Range) -> Result<(), NoMemory>
    ensures { OnOk result (parts.new.items ≡ parts.old.items ++ parts_of_range node item range) }
{
    if range.from() < range.to() {
        parts.push(Part {
            node,
            item,
            first: range.from(),
            last: range.to() - 1,
        })?;
    }
    Ok(())
}

/// The order in which parts fill items.
fn cmp_parts(a: &Part, b: &Part) -> Ordering
    ensures { result ≡ part_cmp a.now b.now }
{
    let by_node = a.node.cmp(&b.node);
    let by_item = a.item.cmp(&b.item);
    let by_first = a.first.cmp(&b.first);
    by_node.then(by_item.then(by_first))
}
