//! A cell gives way to a session: its entries move to the session's cell, which is the last one, and back
//! where memory is refused later.

ghost use Rattle.std.specs.Prelude.{◌≡◌, ◌+◌, ◌++◌, ◌<◌, None, Some, length, slice_get, slice_set};
ghost use Rattle.std.specs.Prelude.{IfErr, IfOk, OnErr, OnOk};
ghost use Rattle.beam_values.specs.declared.cell.Cell.{Cell as CellOf};
ghost use Rattle.group_cells.specs.Handing.{given_entries, given_way, handed_back, kept_entries};
ghost use Rattle.group_cells.specs.Handing.{standing_with, with_entries, without_given};
ghost use Rattle.group_cells.specs.Handing.{HasGivenWay};

use crate::groups::room::{Room, move_behind};
use beam_values::{Cell, Entry, List, NoMemory, Span};
use std::alloc::Global;
use std::mem;

/// How the entries that a cell gave lie at the session's cell.
#[derive(Debug, Drop)]
pub enum Given {
    /// They are all that it has.
    Whole,
    /// They are its last ones.
    Last(Room),
}

/// The cell at a place gives way to the session whose cell is the last one. Its entries move: the first
/// ones as a whole list, others behind those that are there.
pub fn give_way(
    alloc: Global,
    cells: &mut Vec<Cell>,
    session: Span,
    place: u32,
    last: u32,
) -> Result<Given, NoMemory>
    requires before { place < last }
    requires last { last + 1 ≡ length cells.old.items }
    requires stands { (cell : CellOf)
        → slice_get cells.old.items place ≡ Some cell → cell.merged_into ≡ None }
    ensures ok { OnOk result (HasGivenWay session place last cells.old.items cells.new.items) }
    ensures undo { IfOk result
        (λ given. handed_back place given cells.new.items ≡ cells.old.items) }
    ensures err { OnErr result (cells.new.items ≡ cells.old.items) }
{
    let entries = take_entries(alloc, cells, session, place);
    match put_behind(alloc, cells, last, entries) {
        Ok(given) => Ok(given),
        Err(entries) => {
            put_entries(cells, place, entries);
            Err(NoMemory)
        }
    }
}

/// The last cell gives the one at a place its entries back, which stands again. Takes no memory.
pub fn hand_back(alloc: Global, cells: &mut Vec<Cell>, place: u32, given: Given)
    ensures { cells.new.items ≡ handed_back place given cells.old.items }
{
    if cells.is_empty() {
        return;
    }
    let last = cells.len() - 1;
    let entries = take_given(alloc, cells, last, given);
    if (place as usize) < cells.len() {
        put_entries(cells, place, entries);
    }
}

fn take_entries(alloc: Global, cells: &mut Vec<Cell>, session: Span, place: u32) -> List<Entry>
    requires { place < length cells.old.items }
    ensures cells { (cell : CellOf) → slice_get cells.old.items place ≡ Some cell
        → cells.new.items ≡ slice_set cells.old.items place (given_way session cell) }
    ensures entries { (cell : CellOf)
        → slice_get cells.old.items place ≡ Some cell → result ≡ cell.entries }
{
    let cell = &mut cells[place as usize];
    cell.merged_into = Some(session);
    mem::replace(&mut cell.entries, List::new(alloc))
}

fn put_entries(cells: &mut Vec<Cell>, place: u32, entries: List<Entry>)
    requires { place < length cells.old.items }
    ensures { (cell : CellOf) → slice_get cells.old.items place ≡ Some cell
        → cells.new.items ≡ slice_set cells.old.items place (standing_with entries cell) }
{
    let cell = &mut cells[place as usize];
    cell.merged_into = None;
    cell.entries = entries;
}

// After a refusal the entries are answered.
fn put_behind(
    alloc: Global,
    cells: &mut Vec<Cell>,
    last: u32,
    entries: List<Entry>,
) -> Result<Given, List<Entry>>
    requires { last < length cells.old.items }
    ensures ok { OnOk result ((taker : CellOf) → slice_get cells.old.items last ≡ Some taker
        → cells.new.items ≡ slice_set cells.old.items last (with_entries entries taker)) }
    ensures kept { IfOk result
        (λ given. (taker : CellOf) → slice_get cells.old.items last ≡ Some taker
        → kept_entries given (taker.entries ++ entries) ≡ taker.entries) }
    ensures given { IfOk result
        (λ given. (taker : CellOf) → slice_get cells.old.items last ≡ Some taker
        → given_entries given (taker.entries ++ entries) ≡ entries) }
    ensures err { OnErr result (cells.new.items ≡ cells.old.items) }
    ensures answered { IfErr result (λ back. back ≡ entries) }
{
    append(alloc, &mut cells[last as usize].entries, entries)
}

fn append(alloc: Global, entries: &mut List<Entry>, more: List<Entry>) -> Result<Given, List<Entry>>
    ensures ok { OnOk result (entries.new ≡ entries.old ++ more) }
    ensures kept { IfOk result (λ given. kept_entries given (entries.old ++ more) ≡ entries.old) }
    ensures given { IfOk result (λ given. given_entries given (entries.old ++ more) ≡ more) }
    ensures err { OnErr result (entries.new ≡ entries.old) }
    ensures answered { IfErr result (λ back. back ≡ more) }
{
    if entries.is_empty() {
        *entries = more;
        return Ok(Given::Whole);
    }
    append_behind(alloc, entries, more)
}

fn append_behind(
    alloc: Global,
    entries: &mut List<Entry>,
    more: List<Entry>,
) -> Result<Given, List<Entry>>
    ensures ok { OnOk result (entries.new ≡ entries.old ++ more) }
    ensures kept { IfOk result (λ given. kept_entries given (entries.old ++ more) ≡ entries.old) }
    ensures given { IfOk result (λ given. given_entries given (entries.old ++ more) ≡ more) }
    ensures err { OnErr result (entries.new ≡ entries.old) }
    ensures answered { IfErr result (λ back. back ≡ more) }
{
    let mut items = mem::replace(entries, List::new(alloc)).into_vec();
    let moved = move_behind(&mut items, more.into_vec());
    *entries = List::from_vec(items);
    match moved {
        Ok(room) => Ok(Given::Last(room)),
        Err(back) => Err(List::from_vec(back)),
    }
}

fn take_given(alloc: Global, cells: &mut Vec<Cell>, last: usize, given: Given) -> List<Entry>
    requires { last < length cells.old.items }
    ensures cells { (taker : CellOf) → slice_get cells.old.items last ≡ Some taker
        → cells.new.items ≡ slice_set cells.old.items last (without_given given taker) }
    ensures entries { (taker : CellOf) → slice_get cells.old.items last ≡ Some taker
        → result ≡ given_entries given taker.entries }
{
    split(alloc, &mut cells[last].entries, given)
}

fn split(alloc: Global, entries: &mut List<Entry>, given: Given) -> List<Entry>
    ensures kept { entries.new ≡ kept_entries given entries.old }
    ensures given { result ≡ given_entries given entries.old }
{
    let items = mem::replace(entries, List::new(alloc));
    match given {
        Given::Whole => items,
        Given::Last(room) => {
            let mut kept = items.into_vec();
            let back = room.take_back(&mut kept);
            *entries = List::from_vec(kept);
            List::from_vec(back)
        }
    }
}
