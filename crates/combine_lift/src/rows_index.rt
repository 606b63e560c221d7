//! Where rows are found: a row counts as a cell without entries of node 0, so that the index of cells serves.

ghost use Rattle.std.specs.Prelude.{◌≡◌, ◌∷◌, ◌++◌, [], true, Some, IfOk, IfSome, OnOk, OnErr};
ghost use Rattle.std.specs.Prelude.{IsNone, IsSome, length, List as ListOf};
ghost use Rattle.beam_values.specs.declared.cell.Cell.{Cell as CellOf};
ghost use Rattle.cell_index.specs.Indexes.{IsIndexOf};
ghost use Rattle.combine_lift.specs.Indexed.{cell_of, cells_of};
ghost use Rattle.combine_lift.specs.Tables.{IsRowAt, row_place};
ghost use Rattle.combine_lift.specs.Views.{view_value};
ghost use Rattle.combine_lift.specs.declared.row.Row.{Row as RowOf};

use crate::View;
use crate::row::{Row, is_row_of};
use crate::view_hash::hash_of;
use beam_values::{NoMemory, Span};
use cell_index::{CellIndex, CellKey, Guess, Guesses, IndexKey};
use std::alloc::Global;

/// The node of all rows.
const NODE: u32 = 0;

/// The place of the row of a key and window, where a guess is right.
pub fn guessed<A>(guesses: &Guesses, rows: &[Row<A>], key: View<'_>, span: Span) -> Option<u32>
    ensures { IfSome result (IsRowAt (view_value key.entry) span rows.now) }
{
    let place = guesses.place(hash_of(key, span))?;
    let row = rows.get(place as usize)?;
    if is_row_of(key, span, row) {
        Some(place)
    } else {
        None
    }
}

/// Notes where the row of a key and window is, of so many rows.
pub fn note(guesses: &mut Guesses, key: View<'_>, span: Span, place: u32, rows: usize) {
    let hash = hash_of(key, span);
    guesses.note_missed(Guess { hash, place }, rows);
}

/// The same of the row that comes next.
pub fn note_next(guesses: &mut Guesses, key: View<'_>, span: Span, rows: usize) {
    if let Ok(place) = u32::try_from(rows) {
        note(guesses, key, span, place, rows);
    }
}

/// What a row is found by.
pub fn index_key(alloc: Global, key: View<'_>, span: Span) -> Result<IndexKey, NoMemory>
    ensures { IfOk result
        (λ own. own ≡ record { node = 0; span = span; key = view_value key.entry }) }
{
    let key = key.to_value(alloc)?;
    Ok(IndexKey::of(CellKey {
        node: NODE,
        span,
        key,
    }))
}

/// The places of all rows.
pub fn index_of<A>(alloc: Global, rows: &[Row<A>]) -> Result<CellIndex, NoMemory>
    ensures { IfOk result (λ index. IsIndexOf index (cells_of rows.now)) }
{
    let mut index = CellIndex::new(alloc);
    for (place, row) in rows.iter().enumerate() {
        add_row(alloc, &mut index, row, place)?;
    }
    Ok(index)
}

/// The index of some rows, one row more, unless its key and window has a row already.
fn add_row<A>(
    alloc: Global,
    index: &mut CellIndex,
    row: &Row<A>,
    place: usize,
) -> Result<(), NoMemory>
    ensures { OnOk result ((cells : ListOf CellOf) → IsIndexOf index.old cells
        → place ≡ length cells → IsIndexOf index.new (cells ++ cell_of row.now ∷ [])) }
{
    let key = index_key(alloc, View::Whole(&row.key), row.span)?;
    let place = u32::try_from(place).map_err(|_| NoMemory)?;
    index.add(alloc, &key, place)
}

/// Makes the index anew, where it isn't of these rows.
fn ready<A>(
    alloc: Global,
    rows: &[Row<A>],
    index: &mut CellIndex,
    indexed: bool,
) -> Result<(), NoMemory>
    requires { indexed ≡ true → IsIndexOf index.old (cells_of rows.now) }
    ensures ok { OnOk result (IsIndexOf index.new (cells_of rows.now)) }
    ensures err { OnErr result (index.new ≡ index.old) }
{
    if indexed {
        return Ok(());
    }
    *index = index_of(alloc, rows)?;
    Ok(())
}

/// The place of the row of a key and window. Where there is none, the next row is noted as one of them.
/// The index is made anew where it isn't of these rows, and is of no rows after a refusal.
pub fn find_or_note<A>(
    alloc: Global,
    rows: &[Row<A>],
    index: &mut CellIndex,
    indexed: &mut bool,
    own: &IndexKey,
) -> Result<Option<u32>, NoMemory>
    requires node { own.now.node ≡ 0 }
    requires indexed { indexed.old ≡ true → IsIndexOf index.old (cells_of rows.now) }
    ensures found { IfOk result
        (λ place. place ≡ row_place own.now.key own.now.span rows.now) }
    ensures kept { IfOk result (λ place. IsSome place → IsIndexOf index.new (cells_of rows.now)) }
    ensures noted { IfOk result (λ place. IsNone place → (row : RowOf A)
        → row.key ≡ own.now.key → row.span ≡ own.now.span
        → IsIndexOf index.new (cells_of (rows.now ++ row ∷ []))) }
    ensures err { OnErr result (indexed.new ≡ true → IsIndexOf index.new (cells_of rows.now)) }
{
    ready(alloc, rows, index, *indexed)?;
    let next = u32::try_from(rows.len()).map_err(|_| NoMemory)?;
    *indexed = false;
    let found = index.find_or_add(alloc, own, next)?;
    *indexed = true;
    Ok(found)
}
