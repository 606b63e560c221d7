//! How two tables become one: both are put in order, in time that grows with their rows where they are in order
//! or in just the other one, and the least rows are taken one after another.

ghost use Rattle.std.specs.Prelude.{◌≡◌, ◌⊎◌, ◌+◌, ◌<◌, ◌≤◌, ◌^◌, [], length, reverse, vec_capacity};
ghost use Rattle.std.specs.Prelude.{IfNone, IfSome, IsNone};
ghost use Rattle.std.specs.List.Sorted.{IsPermutation, IsSorted};
ghost use Rattle.combine_lift.specs.Merging.{IsJoined, Merges, TakesBoth};
ghost use Rattle.combine_lift.specs.Merging.{TakesLeast};
ghost use Rattle.combine_lift.specs.Tables.{held_in, row_cmp};

use crate::Combiner;
use crate::row::{Row, cmp_rows};
use std::alloc::Global;
use std::cmp::Ordering;

/// Puts rows in falling order, so that the least one is the last. Takes no memory.
pub fn settle<A>(rows: &mut Vec<Row<A>>)
    ensures same { IsPermutation rows.old.items rows.new.items }
    ensures falling { IsSorted row_cmp (reverse rows.new.items) }
{
    rows.sort_unstable_by(|a, b| cmp_rows(b, a));
}

/// Room for the rows of two tables.
pub fn room_for<A>(alloc: Global, rows: usize, others: usize) -> Option<Vec<Row<A>>>
    ensures empty { IfSome result (λ room. room.items ≡ []) }
    ensures room { IfSome result (λ room. rows + others ≤ vec_capacity room) }
{
    let all = rows.checked_add(others)?;
    Vec::with_capacity(alloc, all).ok()
}

/// One row of the parts of two of one key and window.
fn join<C: Combiner>(combiner: &C, row: Row<C::Acc>, other: Row<C::Acc>) -> Row<C::Acc>
    requires { C.held row.acc + C.held other.acc < 2 ^ 63 }
    ensures place { result ≡ record row { acc = result.acc } }
    ensures joined { IsJoined C.stands C.held row.acc other.acc result.acc }
{
    let Row { span, key, acc } = row;
    let mut acc = acc;
    combiner.merge(&mut acc, other.acc);
    Row { span, key, acc }
}

/// Takes the last rows of two lists, and makes one of them.
fn take_both<C: Combiner>(
    combiner: &C,
    rows: &mut Vec<Row<C::Acc>>,
    others: &mut Vec<Row<C::Acc>>,
) -> Option<Row<C::Acc>>
    requires { held_in C.held rows.old.items + held_in C.held others.old.items < 2 ^ 63 }
    ensures some { IfSome result (TakesBoth C.stands C.held
        rows.old.items others.old.items rows.new.items others.new.items) }
    ensures none { IsNone result → (rows.old.items ≡ []) ⊎ (others.old.items ≡ []) }
{
    let row = rows.pop()?;
    let other = others.pop()?;
    Some(join(combiner, row, other))
}

/// Takes the least row of two lists in falling order.
fn take_least<C: Combiner>(
    combiner: &C,
    rows: &mut Vec<Row<C::Acc>>,
    others: &mut Vec<Row<C::Acc>>,
) -> Option<Row<C::Acc>>
    requires { held_in C.held rows.old.items + held_in C.held others.old.items < 2 ^ 63 }
    ensures none { IfNone result ((rows.old.items ≡ []) × (others.old.items ≡ [])) }
    ensures least { IfSome result (TakesLeast C.stands C.held
        rows.old.items others.old.items rows.new.items others.new.items) }
{
    if rows.is_empty() {
        return others.pop();
    }
    if others.is_empty() {
        return rows.pop();
    }
    match cmp_rows(&rows[rows.len() - 1], &others[others.len() - 1]) {
        Ordering::Less => rows.pop(),
        Ordering::Greater => others.pop(),
        Ordering::Equal => take_both(combiner, rows, others),
    }
}

/// Merges the rows of two lists in falling order, into a list that has room for all.
pub fn merge<C: Combiner>(
    combiner: &C,
    rows: Vec<Row<C::Acc>>,
    others: Vec<Row<C::Acc>>,
    merged: Vec<Row<C::Acc>>,
) -> Vec<Row<C::Acc>>
    requires few { held_in C.held rows.items + held_in C.held others.items < 2 ^ 63 }
    requires empty { merged.items ≡ [] }
    requires room { length rows.items + length others.items ≤ vec_capacity merged }
    ensures { Merges C.stands C.held (reverse rows.items) (reverse others.items) result.items }
{
    let mut rows = rows;
    let mut others = others;
    let mut merged = merged;
    while let Some(row) = take_least(combiner, &mut rows, &mut others) {
        merged.push_reserved(row);
    }
    merged
}
