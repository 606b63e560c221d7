//! Cells by Group, key and window.

ghost use Rattle.std.specs.Prelude.{◌≡◌, ◌≤◌, ◌∷◌, true, false, length, take, drop, All, IfOk};
ghost use Rattle.std.specs.List.Sorted.{IsPermutation, IsSorted};
ghost use Rattle.beam_model.specs.Panes.{is_cell_at_key};
ghost use Rattle.cell_checks.specs.Listing.{cells_in, group_cmp, listing_cmp, window_cmp};

use beam_values::{Cell, NoMemory, Span, cmp_values};
use group_cells::is_cell_at_key;
use std::alloc::Global;
use std::cmp::Ordering;

/// The cells by Group, key and window.
pub fn listed(alloc: Global, cells: &[Cell]) -> Result<Vec<&Cell>, NoMemory>
    ensures those { IfOk result (λ listed. IsPermutation cells.now (cells_in listed.items)) }
    ensures sorted { IfOk result (λ listed. IsSorted listing_cmp (cells_in listed.items)) }
{
    let mut listed = all_places(alloc, cells)?;
    listed.sort_by(|a, b| cmp_places(a, b))?;
    Ok(listed)
}

/// The places of all cells in memory.
fn all_places(alloc: Global, cells: &[Cell]) -> Result<Vec<&Cell>, NoMemory>
    ensures { IfOk result (λ places. cells_in places.items ≡ cells.now) }
{
    let mut places = Vec::with_capacity(alloc, cells.len())?;
    for cell in cells {
        places.push(cell)?;
    }
    Ok(places)
}

fn cmp_places(a: &&Cell, b: &&Cell) -> Ordering
    ensures { result ≡ listing_cmp a.now.now b.now.now }
{
    let a: &Cell = a;
    let b: &Cell = b;
    cmp_listing(a, b)
}

fn cmp_listing(a: &Cell, b: &Cell) -> Ordering
    ensures { result ≡ listing_cmp a.now b.now }
{
    match cmp_groups(a, b) {
        Ordering::Equal => cmp_windows(a.span, b.span),
        decided => decided,
    }
}

fn cmp_groups(a: &Cell, b: &Cell) -> Ordering
    ensures { result ≡ group_cmp a.now b.now }
{
    match a.node.cmp(&b.node) {
        Ordering::Equal => cmp_values(&a.key, &b.key),
        decided => decided,
    }
}

/// Windows by their starts, and of those that begin together the longest first.
fn cmp_windows(a: Span, b: Span) -> Ordering
    ensures { result ≡ window_cmp a b }
{
    a.start().cmp(&b.start()).then(b.end().cmp(&a.end()))
}

/// How many of the cells that are listed behind one are of its Group and key.
pub fn count_own(first: &Cell, others: &[&Cell]) -> usize
    requires { IsSorted listing_cmp (first.now ∷ cells_in others.now) }
    ensures within { result ≤ length others.now }
    ensures own { All (λ cell. is_cell_at_key first.now.node first.now.key cell ≡ true)
        (take result (cells_in others.now)) }
    ensures others { All (λ cell. is_cell_at_key first.now.node first.now.key cell ≡ false)
        (drop result (cells_in others.now)) }
{
    for (at, cell) in others.iter().enumerate() {
        if !is_cell_at_key(first.node, &first.key, cell) {
            return at;
        }
    }
    others.len()
}
