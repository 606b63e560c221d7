//! Where the entries of one Group and key go.

ghost use Rattle.std.specs.Prelude.{◌≡◌, ◌+◌, ◌++◌, ◌≤◌, length, map, IfOk, OnOk};
ghost use Rattle.std.specs.List.{flat_map};
ghost use Rattle.group_cells.specs.Plain.{ArePlacedAt, handed_over_at, once_opened_at};
ghost use Rattle.group_cells.specs.Plain.{opened_all_at, opened_at, opening_of, put_all_at, put_at};
ghost use Rattle.group_cells.specs.Rounds.{entry_of};

use crate::rules::Rules;
use crate::windows::{
    first_taker, gives_way, has_standing, is_cell_at_key, own_spans, windows_for,
};
use beam_values::{Cell, Element, Entry, List, Mark, NoMemory, Span, Value};
use std::alloc::Global;
use std::mem;

/// Places the entries of one Group and key: there are cells for their windows first.
pub fn place_key(
    alloc: Global,
    rules: &Rules,
    before: Mark,
    node: u32,
    key: &Value,
    commit: u32,
    own: List<Element>,
    cells: &mut Vec<Cell>,
) -> Result<(), NoMemory>
    ensures placed { OnOk result
        (ArePlacedAt rules.now before node key.now commit own cells.old.items cells.new.items) }
    ensures grown { OnOk result (length cells.new.items ≤ length cells.old.items + length own) }
{
    let spans = own_spans(alloc, own.as_slice())?;
    let windows = windows_for(
        alloc,
        rules,
        before,
        node,
        key,
        spans.as_slice(),
        cells.as_slice(),
    )?;
    open_all(alloc, rules, before, node, key, windows.as_slice(), cells)?;
    put_all(rules, node, key, commit, own, cells)
}

fn open_all(
    alloc: Global,
    rules: &Rules,
    before: Mark,
    node: u32,
    key: &Value,
    windows: &[Span],
    cells: &mut Vec<Cell>,
) -> Result<(), NoMemory>
    ensures { OnOk result (cells.new.items ≡ opened_all_at rules.now before node
        (map (opening_of key.now) windows.now) cells.old.items) }
{
    for span in windows {
        open(alloc, rules, before, node, key, *span, cells)?;
    }
    Ok(())
}

// A cell for a window, where none stands: it takes the entries of those that give way to it.
fn open(
    alloc: Global,
    rules: &Rules,
    before: Mark,
    node: u32,
    key: &Value,
    span: Span,
    cells: &mut Vec<Cell>,
) -> Result<(), NoMemory>
    ensures { OnOk result (cells.new.items
        ≡ opened_at rules.now before node cells.old.items (opening_of key.now span)) }
{
    if has_standing(node, key, span, cells.as_slice()) {
        return Ok(());
    }
    let entries = hand_all_over(alloc, rules, before, node, key, span, cells)?;
    cells.push(Cell {
        node,
        key: key.copy(alloc)?,
        span,
        entries,
        next_index: 0,
        on_time: false,
        merged_into: None,
    })?;
    Ok(())
}

fn hand_all_over(
    alloc: Global,
    rules: &Rules,
    before: Mark,
    node: u32,
    key: &Value,
    span: Span,
    cells: &mut Vec<Cell>,
) -> Result<List<Entry>, NoMemory>
    ensures cells { OnOk result (cells.new.items
        ≡ map (once_opened_at rules.now before node (opening_of key.now span)) cells.old.items) }
    ensures entries { IfOk result (λ entries. entries ≡ flat_map
        (handed_over_at rules.now before node (opening_of key.now span)) cells.old.items) }
{
    let mut entries = List::new(alloc);
    for cell in cells.iter_mut() {
        hand_over(alloc, rules, before, node, key, span, cell, &mut entries)?;
    }
    Ok(entries)
}

fn hand_over(
    alloc: Global,
    rules: &Rules,
    before: Mark,
    node: u32,
    key: &Value,
    span: Span,
    cell: &mut Cell,
    entries: &mut List<Entry>,
) -> Result<(), NoMemory>
    ensures cell { OnOk result
        (cell.new ≡ once_opened_at rules.now before node (opening_of key.now span) cell.old) }
    ensures entries { OnOk result (entries.new
        ≡ entries.old ++ handed_over_at rules.now before node (opening_of key.now span) cell.old) }
{
    if !is_cell_at_key(node, key, cell) {
        return Ok(());
    }
    if !gives_way(rules, before, span, cell) {
        return Ok(());
    }
    entries.append(mem::replace(&mut cell.entries, List::new(alloc)))?;
    cell.merged_into = Some(span);
    Ok(())
}

fn put_all(
    rules: &Rules,
    node: u32,
    key: &Value,
    commit: u32,
    own: List<Element>,
    cells: &mut Vec<Cell>,
) -> Result<(), NoMemory>
    ensures { OnOk result (cells.new.items
        ≡ put_all_at rules.now node key.now (map (entry_of commit) own) cells.old.items) }
{
    for element in own.into_vec() {
        let entry = Entry {
            element,
            commit,
            shown: false,
        };
        put(rules, node, key, entry, cells)?;
    }
    Ok(())
}

// An entry goes to the first cell that takes it.
fn put(
    rules: &Rules,
    node: u32,
    key: &Value,
    entry: Entry,
    cells: &mut Vec<Cell>,
) -> Result<(), NoMemory>
    ensures { OnOk result (cells.new.items ≡ put_at rules.now node key.now entry cells.old.items) }
{
    match first_taker(rules, node, key, &entry, cells.as_slice()) {
        None => Ok(()),
        Some(at) => {
            let cell = &mut cells[at];
            cell.entries.push(entry)
        }
    }
}
