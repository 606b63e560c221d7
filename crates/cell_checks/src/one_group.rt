//! The cells of one Group and key, by their windows.

ghost use Rattle.std.specs.Prelude.{◌≡◌, ◌↔◌, ◌++◌, ◌∷◌, [], true, Bool, List as ListOf, All, Some};
ghost use Rattle.std.specs.List.Sorted.{IsSorted};
ghost use Rattle.std.specs.Ordering.{on};
ghost use Rattle.beam_values.specs.Sessions.{IsNonEmpty};
ghost use Rattle.beam_values.specs.Spans.{same_span};
ghost use Rattle.beam_values.specs.declared.cell.Cell.{Cell as CellOf};
ghost use Rattle.group_cells.specs.Rounds.{open_windows};
ghost use Rattle.group_cells.specs.Sane.{AreAllApart, AreOnce, HasTaker};
ghost use Rattle.cell_checks.specs.Listing.{cells_in, window_cmp, AreInOrder, IsSaneGroup};
ghost use Rattle.cell_checks.specs.Listing.{BeginsWithin, EndsWithin, IsLatest};

use beam_values::{Cell, Mark};
use group_cells::{Rules, is_open};

/// Whether cells of one Group and key, by their windows, are what a commit can leave.
pub fn is_sane_group(rules: &Rules, mark: Mark, cells: &[&Cell]) -> bool
    requires { IsSorted (on (λ cell. cell.span) window_cmp) (cells_in cells.now) }
    ensures { (result ≡ true) ↔ IsSaneGroup rules.now mark (cells_in cells.now) }
{
    are_in_order(cells) && are_taken_and_apart(rules, mark, cells)
}

fn are_taken_and_apart(rules: &Rules, mark: Mark, cells: &[&Cell]) -> bool
    requires { AreInOrder (cells_in cells.now) }
    ensures { (result ≡ true) ↔ (All (HasTaker rules.now (cells_in cells.now)) (cells_in cells.now)
        × (rules.now.merges ≡ true
        → AreAllApart (open_windows rules.now mark (cells_in cells.now)))) }
{
    have_takers(rules, cells) && are_apart(rules, mark, cells)
}

/// Whether no two cells have one window.
fn are_in_order(cells: &[&Cell]) -> bool
    requires { IsSorted (on (λ cell. cell.span) window_cmp) (cells_in cells.now) }
    ensures order { result ≡ true → AreInOrder (cells_in cells.now) }
    ensures once { AreOnce (cells_in cells.now) → result ≡ true }
{
    for i in 1..cells.len() {
        let before: &Cell = cells[i - 1];
        let cell: &Cell = cells[i];
        if has_window_of(before, cell) {
            return false;
        }
    }
    true
}

fn has_window_of(before: &Cell, cell: &Cell) -> bool
    ensures { result ≡ same_span before.now.span cell.now.span }
{
    before.span.start() == cell.span.start() && before.span.end() == cell.span.end()
}

/// Whether each cell that was merged lies in one that stands, and has no entries.
fn have_takers(rules: &Rules, cells: &[&Cell]) -> bool
    requires { AreInOrder (cells_in cells.now) }
    ensures { (result ≡ true) ↔ All (HasTaker rules.now (cells_in cells.now)) (cells_in cells.now) }
{
    let mut latest = None;
    for cell in cells {
        let cell: &Cell = cell;
        if cell.merged_into.is_none() {
            latest = Some(later(latest, cell));
        } else if !is_merged(rules, latest, cell) {
            return false;
        }
    }
    true
}

/// Whether a cell could be merged into the one that stands and ends last.
fn is_merged(rules: &Rules, latest: Option<&Cell>, cell: &Cell) -> bool
    ensures { (result ≡ true) ↔ ((rules.now.merges ≡ true) × (cell.now.entries ≡ [])
        × EndsWithin cell.now latest.entry) }
{
    rules.merges && cell.entries.is_empty() && ends_within(cell, latest)
}

fn ends_within(cell: &Cell, latest: Option<&Cell>) -> bool
    ensures { (result ≡ true) ↔ EndsWithin cell.now latest.entry }
{
    match latest {
        None => false,
        Some(latest) => cell.span.end() <= latest.span.end(),
    }
}

/// Whether the windows that can still merge are apart, where windows merge.
fn are_apart(rules: &Rules, mark: Mark, cells: &[&Cell]) -> bool
    requires { AreInOrder (cells_in cells.now) }
    ensures { (result ≡ true) ↔ (rules.now.merges ≡ true
        → AreAllApart (open_windows rules.now mark (cells_in cells.now))) }
{
    !rules.merges || are_open_apart(rules, mark, cells)
}

fn are_open_apart(rules: &Rules, mark: Mark, cells: &[&Cell]) -> bool
    requires { AreInOrder (cells_in cells.now) }
    ensures { (result ≡ true) ↔ AreAllApart (open_windows rules.now mark (cells_in cells.now)) }
{
    let mut latest = None;
    for cell in cells {
        let cell: &Cell = cell;
        if is_open(rules, mark, cell) {
            if begins_within(cell, latest) {
                return false;
            }
            latest = Some(later(latest, cell));
        }
    }
    true
}

/// Whether a cell, which holds some time, begins before the one that ends last has ended.
fn begins_within(cell: &Cell, latest: Option<&Cell>) -> bool
    ensures within { (result ≡ true) ↔ BeginsWithin cell.now latest.entry }
    ensures filled { IsNonEmpty cell.now.span }
{
    let start = cell.span.start();
    match latest {
        None => false,
        Some(latest) => start < latest.span.end(),
    }
}

/// Of the cell that ends last so far and another one, that which ends last.
fn later<'a>(latest: Option<&'a Cell>, cell: &'a Cell) -> &'a Cell
    ensures { (test : CellOf → Bool) (cells : ListOf CellOf) → IsLatest test cells latest.entry
        → test cell.now ≡ true → IsLatest test (cells ++ cell.now ∷ []) (Some result) }
{
    match latest {
        Some(latest) if cell.span.end() <= latest.span.end() => latest,
        _ => cell,
    }
}
