//! What one cell fires. A pane is built before anything is changed, so want of memory leaves a cell
//! as it was.

ghost use Rattle.std.specs.Prelude.{◌≡◌, ◌+◌, ◌<◌, ◌^◌, map, option_to_list, Some, IsSome, IfOk};
ghost use Rattle.std.specs.Prelude.{OnOk, OnErr};
ghost use Rattle.std.specs.List.Sorted.{IsSorted};
ghost use Rattle.beam_values.specs.Bags.{IsSameBag};
ghost use Rattle.beam_values.specs.Grouping.{part_of, pane_as};
ghost use Rattle.beam_values.specs.Orders.{value_cmp};
ghost use Rattle.beam_model.specs.Panes.{is_on_time, taken_entry, IsFiredAs, IsPaneOf};
ghost use Rattle.group_cells.specs.Cells.{after_firing, entries_held, firing_of, once_fired, shown};
ghost use Rattle.group_cells.specs.Cells.{unseen_in, AreShownTo};
ghost use Rattle.group_cells.specs.Firings.{is_held};
ghost use Rattle.pane_triggers.specs.Fires.{timing_of};

use crate::rules::Rules;
use beam_values::{
    Boxed, Cell, Element, Entry, List, Mark, Mode, NoMemory, Pane, PaneTag, Span, Timing, Value,
    cmp_values, last_time, part_of,
};
use pane_triggers::{Fire, fire};
use std::alloc::Global;
use std::cmp::Ordering;
use std::mem;

/// How many entries no pane has shown.
pub fn unseen(entries: &[Entry]) -> u64
    ensures { result ≡ unseen_in entries.now }
{
    let mut count = 0;
    for entry in entries {
        if !entry.shown {
            count += 1;
        }
    }
    count
}

/// Up to where a pane has shown all entries, where `count` are unseen. New ones come last, except where
/// sessions merged: so the walk from the back mostly passes no other. Where all are new, there is none.
pub fn first_unseen(entries: &[Entry], count: u64) -> usize
    requires { count ≡ unseen_in entries.now }
    ensures { AreShownTo result entries.now }
{
    if count == entries.len() as u64 {
        return 0;
    }
    let mut left = count;
    let mut at = entries.len();
    while 0 < left {
        at -= 1;
        if !entries[at].shown {
            left -= 1;
        }
    }
    at
}

/// The timing of the pane that a cell fires at a mark, if it fires one. Takes no memory.
pub fn firing_of(rules: &Rules, mark: Mark, cell: &Cell) -> Option<Timing>
    ensures { result ≡ firing_of rules.now mark cell.now }
{
    firing_with(rules, mark, unseen(cell.entries.as_slice()), cell)
}

/// The same, where so many of its entries are unseen. Looks at none of them.
pub fn firing_with(rules: &Rules, mark: Mark, count: u64, cell: &Cell) -> Option<Timing>
    requires { count ≡ unseen_in cell.now.entries }
    ensures { result ≡ firing_of rules.now mark cell.now }
{
    match cell.merged_into {
        Some(_) => None,
        None => timing_of(fire(&rules.trigger, cell.span.end(), mark, cell.on_time, count)),
    }
}

fn timing_of(answer: Fire) -> Option<Timing>
    ensures { result ≡ timing_of answer }
{
    match answer {
        Fire::Nothing => None,
        Fire::Early => Some(Timing::Early),
        Fire::OnTime => Some(Timing::OnTime),
        Fire::Late => Some(Timing::Late),
    }
}

/// The pane that a cell fires at a mark, if it fires one. The cell isn't changed: `set_fired` does that.
pub fn pane_of(
    alloc: Global,
    rules: &Rules,
    commit: u32,
    mark: Mark,
    cell: &Cell,
) -> Result<Option<Pane>, NoMemory>
    ensures pane { IfOk result
        (λ pane. IsFiredAs cell.now.node cell.now.key commit cell.now.span cell.now.next_index
        (map (taken_entry cell.now.node) (entries_held rules.now.trigger.mode cell.now.entries))
        (firing_of rules.now mark cell.now) (option_to_list pane)) }
    // A count of panes at its end is answered as want of memory.
    ensures counted { IfOk result
        (λ pane. IsSome (firing_of rules.now mark cell.now) → cell.now.next_index + 1 < 2 ^ 32) }
{
    match firing_of(rules, mark, cell) {
        None => Ok(None),
        Some(timing) => Ok(Some(pane_with(alloc, rules.trigger.mode, commit, timing, 0, cell)?)),
    }
}

/// What a cell keeps of a pane that it fires at this mark: all its entries are shown. Takes no memory.
pub fn set_fired(alloc: Global, rules: &Rules, mark: Mark, cell: &mut Cell)
    requires { IsSome (firing_of rules.now mark cell.old) → cell.old.next_index + 1 < 2 ^ 32 }
    ensures { cell.new ≡ after_firing rules.now mark cell.old }
{
    if let Some(timing) = firing_of(rules, mark, cell) {
        set_timed(alloc, timing, 0, cell);
    }
}

/// The same of a pane of this timing, where `from` first entries were shown before. Takes no memory.
pub fn set_timed(alloc: Global, timing: Timing, from: usize, cell: &mut Cell)
    requires counted { cell.old.next_index + 1 < 2 ^ 32 }
    requires from { AreShownTo from cell.old.entries }
    ensures { cell.new ≡ once_fired (Some timing) cell.old }
{
    show_all(alloc, from, &mut cell.entries);
    cell.next_index += 1;
    cell.on_time = cell.on_time || is_on_time(timing);
}

/// A cell fires at a mark, or doesn't.
pub fn fire_cell(
    alloc: Global,
    rules: &Rules,
    commit: u32,
    mark: Mark,
    cell: &mut Cell,
) -> Result<Option<Pane>, NoMemory>
    ensures cell { OnOk result (cell.new ≡ after_firing rules.now mark cell.old) }
    ensures pane { IfOk result
        (λ pane. IsFiredAs cell.old.node cell.old.key commit cell.old.span cell.old.next_index
        (map (taken_entry cell.old.node) (entries_held rules.now.trigger.mode cell.old.entries))
        (firing_of rules.now mark cell.old) (option_to_list pane)) }
    ensures err { OnErr result (cell.new ≡ cell.old) }
{
    let pane = pane_of(alloc, rules, commit, mark, cell)?;
    set_fired(alloc, rules, mark, cell);
    Ok(pane)
}

/// The next pane of a cell, where `from` first entries were shown before. The cell isn't changed.
pub fn pane_with(
    alloc: Global,
    mode: Mode,
    commit: u32,
    timing: Timing,
    from: usize,
    cell: &Cell,
) -> Result<Pane, NoMemory>
    requires { AreShownTo from cell.now.entries }
    ensures pane { IfOk result
        (λ pane. IsPaneOf cell.now.node cell.now.key commit cell.now.span timing cell.now.next_index
        (map (taken_entry cell.now.node) (entries_held mode cell.now.entries)) pane) }
    ensures counted { OnOk result (cell.now.next_index + 1 < 2 ^ 32) }
{
    if cell.next_index == u32::MAX {
        return Err(NoMemory);
    }
    let parts = parts_of(alloc, mode, from, cell.entries.as_slice())?;
    let tag = PaneTag {
        timing,
        index: cell.next_index,
    };
    Ok(Pane {
        node: cell.node,
        element: pane_as(alloc, tag, cell, parts)?,
        commit,
    })
}

fn pane_as(
    alloc: Global,
    tag: PaneTag,
    cell: &Cell,
    parts: List<Value>,
) -> Result<Element, NoMemory>
    ensures { IfOk result (λ element. element ≡ pane_as tag cell.now.key cell.now.span parts) }
{
    let key = shared_key(alloc, cell)?;
    let parts = Boxed::new(alloc, Value::Seq(parts))?;
    Ok(Element {
        value: Value::Pair(key, parts),
        time: last_time(cell.span),
        span: cell.span,
        pane: tag,
    })
}

// The key of a cell, which is mostly that of its first entry and then shared.
fn shared_key(alloc: Global, cell: &Cell) -> Result<Boxed<Value>, NoMemory>
    ensures { IfOk result (λ key. key ≡ cell.now.key) }
{
    if let Some(first) = cell.entries.as_slice().first()
        && let Value::Pair(own, _) = &first.element.value
        && cmp_values(own.get(), &cell.key) == Ordering::Equal
    {
        return own.share();
    }
    Boxed::new(alloc, cell.key.copy(alloc)?)
}

// The parts of the entries that a pane holds, ascending by their spellings.
fn parts_of(
    alloc: Global,
    mode: Mode,
    from: usize,
    entries: &[Entry],
) -> Result<List<Value>, NoMemory>
    requires { AreShownTo from entries.now }
    ensures ascending { IfOk result (IsSorted value_cmp) }
    ensures those { IfOk result (λ parts. IsSameBag parts
        (map (λ entry. part_of entry.element) (entries_held mode entries.now))) }
{
    let mut parts = copy_parts(alloc, mode, those_from(mode, from, entries))?;
    parts.sort_by(|a, b| cmp_values(a, b))?;
    Ok(List::from_vec(parts))
}

// The entries that a pane may hold: one of this mode needn't look at those that were shown.
fn those_from(mode: Mode, from: usize, entries: &[Entry]) -> &[Entry]
    requires { AreShownTo from entries.now }
    ensures { entries_held mode result.now ≡ entries_held mode entries.now }
{
    match mode {
        Mode::Discarding => entries.split_at(from).1,
        Mode::Accumulating => entries,
    }
}

fn copy_parts(alloc: Global, mode: Mode, entries: &[Entry]) -> Result<Vec<Value>, NoMemory>
    ensures { IfOk result (λ parts. parts.items
        ≡ map (λ entry. part_of entry.element) (entries_held mode entries.now)) }
{
    let mut parts = Vec::with_capacity(alloc, entries.len())?;
    for entry in entries {
        if is_held(mode, entry) {
            parts.push(part_of(&entry.element).copy(alloc)?)?;
        }
    }
    Ok(parts)
}

fn is_held(mode: Mode, entry: &Entry) -> bool
    ensures { result ≡ is_held mode entry.now }
{
    match mode {
        Mode::Discarding => !entry.shown,
        Mode::Accumulating => true,
    }
}

pub fn is_on_time(timing: Timing) -> bool
    ensures { result ≡ is_on_time timing }
{
    match timing {
        Timing::OnTime => true,
        Timing::Early | Timing::Late | Timing::Unknown => false,
    }
}

// The entries are marked where they lie: a list gives its own place away and takes it back.
fn show_all(alloc: Global, from: usize, entries: &mut List<Entry>)
    requires { AreShownTo from entries.old }
    ensures { entries.new ≡ map shown entries.old }
{
    let mut items = mem::replace(entries, List::new(alloc)).into_vec();
    for at in from..items.len() {
        items[at].shown = true;
    }
    *entries = List::from_vec(items);
}
