//! A cell fires where it lies, and keeps by what it is undone where memory is refused later.

ghost use Rattle.std.specs.Prelude.{◌≡◌, ◌+◌, ◌<◌, ◌^◌, Some, length, map, slice_get, true, IfOk};
ghost use Rattle.std.specs.Prelude.{OnErr, OnOk};
ghost use Rattle.beam_values.specs.declared.cell.Cell.{Cell as CellOf};
ghost use Rattle.group_cells.specs.Cells.{once_fired, AreShownTo};
ghost use Rattle.group_cells.specs.FiredUpTo.{CanFireAt, HasFiredAt, IsShownAt};
ghost use Rattle.group_cells.specs.Unfiring.{shown_as, unfired, was_first, was_shown, AreShownAs};

use crate::firing::set_timed;
use beam_values::{Cell, Entry, List, NoMemory, Timing};
use std::alloc::Global;
use std::mem;

/// What a cell was before it fired.
#[derive(Debug, Drop)]
pub struct Unfired {
    pub next_index: u32,
    pub on_time: bool,
    pub shown: Shown,
}

/// Which entries of a cell a pane had held.
#[derive(Debug, Drop)]
pub enum Shown {
    /// So many first ones, and no other.
    First(usize),
    /// One by one.
    Each(Vec<bool>),
}

impl Shown {
    /// Takes memory only where one that was shown lies behind one that wasn't, as in a merged session.
    fn of(alloc: Global, from: usize, entries: &[Entry]) -> Result<Shown, NoMemory>
        requires { AreShownTo from entries.now }
        ensures { IfOk result (λ shown. AreShownAs (was_shown shown) entries.now) }
    {
        if is_none_shown(from, entries) {
            Ok(Shown::First(from))
        } else {
            Ok(Shown::Each(flags_of(alloc, entries)?))
        }
    }

    fn was_shown(&self, at: usize) -> bool
        ensures { result ≡ was_shown self.now at }
    {
        match self {
            Shown::First(count) => at < *count,
            Shown::Each(each) => match each.get(at) {
                None => false,
                Some(was) => *was,
            },
        }
    }

    /// Shows the entries, where they lie, as they were shown.
    fn put_back(&self, alloc: Global, entries: &mut List<Entry>)
        ensures { entries.new ≡ shown_as (was_shown self.now) 0 entries.old }
    {
        let mut items = mem::replace(entries, List::new(alloc)).into_vec();
        let mut at = 0;
        for entry in items.iter_mut() {
            entry.shown = self.was_shown(at);
            at += 1;
        }
        *entries = List::from_vec(items);
    }
}

/// Whether the first `from` entries are the only ones that were shown.
fn is_none_shown(from: usize, entries: &[Entry]) -> bool
    requires { AreShownTo from entries.now }
    ensures { result ≡ true → AreShownAs (was_first from) entries.now }
{
    !entries.split_at(from).1.iter().any(|entry| entry.shown)
}

fn flags_of(alloc: Global, entries: &[Entry]) -> Result<Vec<bool>, NoMemory>
    ensures { IfOk result (λ flags. flags.items ≡ map (λ entry. entry.shown) entries.now) }
{
    let mut flags = Vec::with_capacity(alloc, entries.len())?;
    for entry in entries {
        flags.push(entry.shown)?;
    }
    Ok(flags)
}

/// A cell keeps that it fired a pane of this timing, where `from` first entries were shown before.
/// Answers what it was before.
pub fn set_fired(
    alloc: Global,
    timing: Timing,
    from: usize,
    cell: &mut Cell,
) -> Result<Unfired, NoMemory>
    requires counted { cell.old.next_index + 1 < 2 ^ 32 }
    requires from { AreShownTo from cell.old.entries }
    ensures cell { OnOk result (cell.new ≡ once_fired (Some timing) cell.old) }
    ensures before { IfOk result (λ before. unfired before cell.new ≡ cell.old) }
    ensures err { OnErr result (cell.new ≡ cell.old) }
{
    let before = Unfired {
        next_index: cell.next_index,
        on_time: cell.on_time,
        shown: Shown::of(alloc, from, cell.entries.as_slice())?,
    };
    set_timed(alloc, timing, from, cell);
    Ok(before)
}

/// A cell becomes again what it was before it fired. Takes no memory.
pub fn unfire(alloc: Global, before: &Unfired, cell: &mut Cell)
    ensures { cell.new ≡ unfired before.now cell.old }
{
    before.shown.put_back(alloc, &mut cell.entries);
    cell.next_index = before.next_index;
    cell.on_time = before.on_time;
}

/// The same of the cell at a place.
pub fn set_fired_at(
    alloc: Global,
    timing: Timing,
    from: usize,
    cells: &mut Vec<Cell>,
    place: usize,
) -> Result<Unfired, NoMemory>
    requires within { place < length cells.old.items }
    requires counted { CanFireAt place cells.old.items }
    requires from { IsShownAt from place cells.old.items }
    ensures cell { OnOk result (HasFiredAt place timing cells.old.items cells.new.items) }
    ensures before { IfOk result
        (λ before. (cell : CellOf) → slice_get cells.old.items place ≡ Some cell
        → unfired before (once_fired (Some timing) cell) ≡ cell) }
    ensures err { OnErr result (cells.new.items ≡ cells.old.items) }
{
    let before = set_fired(alloc, timing, from, &mut cells[place])?;
    Ok(before)
}
