ghost use Rattle.std.specs.Prelude.{◌≡◌, ◌+◌, ◌<◌, ◌∷◌, [], ◌++◌, List as ListOf, Some, length, slice_get};
ghost use Rattle.std.specs.Prelude.{slice_set, OnOk, OnErr, IfOk, IfSome, None, false};
ghost use Rattle.beam_values.specs.Grouping.{key_of};
ghost use Rattle.beam_values.specs.declared.cell.Cell.{Cell as CellOf};
ghost use Rattle.beam_values.specs.declared.cell.Entry.{Entry as EntryOf};
ghost use Rattle.beam_values.specs.declared.plan.Plan.{Plan as PlanOf};
ghost use Rattle.beam_values.specs.declared.value.Value.{Value as ValueOf};
ghost use Rattle.cell_index.specs.Indexes.{IsIndexOf};
ghost use Rattle.cell_index.specs.Places.{place_of};
ghost use Rattle.group_cells.specs.Arrivals.{arrived};
ghost use Rattle.group_cells.specs.Cells.{unseen_in};
ghost use Rattle.group_cells.specs.Drafts.{HasRoom, IsAtRest, IsTracked};
ghost use Rattle.group_cells.specs.Due.{AreMoments, IsDueOf, KeepsMoments};
ghost use Rattle.group_cells.specs.FiredUpTo.{CanFireAt, HasFiredAt, IsShownAt};
ghost use Rattle.group_cells.specs.Handing.{HasGivenWay};
ghost use Rattle.group_cells.specs.Placing.{fresh_cell, with_entry};
ghost use Rattle.group_cells.specs.Undoing.{undone, undone_all, without_last, AreOfCommit};
ghost use Rattle.group_cells.specs.Unfiring.{unfired};
ghost use Rattle.group_cells.specs.declared.groups.draft.Change.TheVariants.{Fired, Opened, Put};

use crate::groups::due::DueCells;
use crate::groups::fired::{Unfired, set_fired_at, unfire};
use crate::groups::group_plan::GroupPlan;
use crate::groups::handing::{Given, give_way, hand_back};
use crate::groups::looking::is_cell_of;
use beam_values::{
    Boxed, Cell, Element, Entry, List, NoMemory, Span, Timing, Value, cmp_values, copy_key, key_or,
};
use cell_index::{CellIndex, CellKey, IndexKey};
use std::alloc::Global;
use std::cmp::Ordering;
use std::marker::Model;

/// Byte strings of this length lie in their values.
const LEN_INSIDE: usize = 22;

/// A change of the cells.
#[derive(Debug, Drop)]
pub enum Change {
    /// A cell was put behind the others.
    Opened,
    /// The cell at this place took an entry.
    Put(u32),
    /// The cell at this place fired, and was this before.
    Fired(u32, Unfired),
    /// The cell at this place gave way to the session whose cell is the last one, which took its entries.
    GaveWay(u32, Given),
}

/// The cells, and what they are found and due by.
#[derive(Debug, Drop)]
pub struct Tracked {
    /// In the order in which they were made.
    pub cells: Vec<Cell>,
    pub index: CellIndex,
    pub due: DueCells,
    /// What the commit that is under way did so far, by which it is undone where memory is refused.
    pub changes: Vec<Change>,
}

/// The cells as they are changed by a commit. After each step, done or refused, the index and the due set
/// are those of the cells, and the step before it can be undone without memory.
#[derive(Debug, Drop)]
pub struct Draft<'a> {
    pub plan: &'a GroupPlan,
    pub tracked: Tracked,
}

impl<'a> Model for Draft<'a> {
    ghost use Rattle.std.specs.Coded.{codes};
    ghost use Rattle.beam_values.specs.contracts.value.Value as values;
    ghost use Rattle.group_cells.specs.Undoing.{undone_all, SeenDraft};
    ghost use Rattle.group_cells.specs.Drafts.{IsTracked};

    ghost Value = { SeenDraft };

    ghost coded = { Prim.hlevel (codes, values.the_row.coded) };

    ghost view = { λ d. record {
      plan = d.plan.now;
      cells = d.tracked.cells.items;
      begun = undone_all d.tracked.changes.items d.tracked.cells.items;
    } };

    ghost invariant = { λ d. IsTracked d.plan.now d.tracked };
}

/// The cell at a place takes an entry. A key that takes memory of its own is shared with the
/// entry before it, so that it lies in memory once for each cell.
fn put_at(cells: &mut Vec<Cell>, place: u32, entry: Entry) -> Result<(), NoMemory>
    requires { place < length cells.old.items }
    ensures ok { OnOk result ((cell : CellOf) → slice_get cells.old.items place ≡ Some cell
        → cells.new.items ≡ slice_set cells.old.items place (with_entry entry cell)) }
    ensures err { OnErr result (cells.new.items ≡ cells.old.items) }
{
    let cell = &mut cells[place as usize];
    let mut entry = entry;
    if let Some(last) = cell.entries.as_slice().last() {
        share_key(&last.element.value, &mut entry.element.value)?;
    }
    cell.entries.push(entry)?;
    Ok(())
}

/// A value shares a large key of another pair where that is the same, and is what it was.
fn share_key(other: &Value, value: &mut Value) -> Result<(), NoMemory>
    ensures { value.new ≡ value.old }
{
    match (other, value) {
        (Value::Pair(key, _), Value::Pair(own, _)) if is_large(own.get()) => share_equal(key, own),
        _ => Ok(()),
    }
}

/// Whether a key takes more memory than its box.
fn is_large(key: &Value) -> bool {
    match key {
        Value::Null | Value::Int(_) => false,
        Value::Blob(bytes) => bytes.len() > LEN_INSIDE,
        Value::Pair(_, _) | Value::Seq(_) => true,
    }
}

fn share_equal(key: &Boxed<Value>, own: &mut Boxed<Value>) -> Result<(), NoMemory>
    ensures { own.new ≡ own.old }
{
    match cmp_values(key.get(), own.get()) {
        Ordering::Equal => {
            *own = key.share()?;
            Ok(())
        }
        _ => Ok(()),
    }
}

/// Takes the last entry of the cell away.
fn take_last(cells: &mut Vec<Cell>, place: u32)
    requires { place < length cells.old.items }
    ensures { (cell : CellOf) → slice_get cells.old.items place ≡ Some cell
        → cells.new.items ≡ slice_set cells.old.items place (without_last cell) }
{
    let cell = &mut cells[place as usize];
    let kept = cell.entries.len().saturating_sub(1);
    cell.entries.truncate(kept);
}

/// The cell at a place becomes again what it was before it fired.
fn unfire_at(alloc: Global, cells: &mut Vec<Cell>, place: u32, before: &Unfired)
    requires { place < length cells.old.items }
    ensures { (cell : CellOf) → slice_get cells.old.items place ≡ Some cell
        → cells.new.items ≡ slice_set cells.old.items place (unfired before.now cell) }
{
    unfire(alloc, before, &mut cells[place as usize]);
}

fn undo(alloc: Global, cells: &mut Vec<Cell>, index: &mut CellIndex, change: Change)
    ensures cells { cells.new.items ≡ undone change cells.old.items }
    ensures index { IsIndexOf index.old cells.old.items → IsIndexOf index.new cells.new.items }
{
    match change {
        Change::Opened => remove_last(cells, index),
        Change::Put(place) => undo_put(cells, place),
        Change::Fired(place, before) => undo_fired(alloc, cells, place, &before),
        Change::GaveWay(place, given) => hand_back(alloc, cells, place, given),
    }
}

fn undo_put(cells: &mut Vec<Cell>, place: u32)
    ensures { cells.new.items ≡ undone (Put place) cells.old.items }
{
    if (place as usize) < cells.len() {
        take_last(cells, place);
    }
}

fn undo_fired(alloc: Global, cells: &mut Vec<Cell>, place: u32, before: &Unfired)
    ensures { cells.new.items ≡ undone (Fired place before.now) cells.old.items }
{
    if (place as usize) < cells.len() {
        unfire_at(alloc, cells, place, before);
    }
}

/// The last cell leaves, and its place.
fn remove_last(cells: &mut Vec<Cell>, index: &mut CellIndex)
    ensures cells { cells.new.items ≡ undone Opened cells.old.items }
    ensures index { IsIndexOf index.old cells.old.items → IsIndexOf index.new cells.new.items }
{
    let Some(cell) = cells.pop() else {
        return;
    };
    let key = key_of_cell(cell);
    index.remove_last(&key, cells.len());
}

/// What a cell is found by.
fn key_of_cell(cell: Cell) -> IndexKey
    ensures { result ≡ record { node = cell.node; span = cell.span; key = cell.key } }
{
    let Cell {
        node,
        key,
        span,
        entries: _,
        next_index: _,
        on_time: _,
        merged_into: _,
    } = cell;
    IndexKey::of(CellKey { node, span, key })
}

impl Tracked {
    /// No cell. Takes no memory.
    pub fn new(alloc: Global) -> Tracked
        ensures cells { result.cells.items ≡ [] }
        ensures rest { (plan : PlanOf) → IsAtRest plan result }
    {
        Tracked {
            cells: Vec::new(alloc),
            index: CellIndex::new(alloc),
            due: DueCells::new(alloc),
            changes: Vec::new(alloc),
        }
    }

    /// Undoes all changes, the last one first.
    fn undo_all(&mut self, alloc: Global)
        requires { IsIndexOf self.old.index self.old.cells.items }
        ensures cells { self.new.cells.items
            ≡ undone_all self.old.changes.items self.old.cells.items }
        ensures index { IsIndexOf self.new.index self.new.cells.items }
        ensures changes { self.new.changes.items ≡ [] }
        ensures due { self.new.due ≡ self.old.due }
    {
        while let Some(change) = self.changes.pop() {
            undo(alloc, &mut self.cells, &mut self.index, change);
        }
    }

    /// The cell at a place takes an entry.
    fn put(&mut self, place: u32, entry: Entry) -> Result<(), NoMemory>
        requires { place < length self.old.cells.items }
        ensures ok { OnOk result ((cell : CellOf) → slice_get self.old.cells.items place ≡ Some cell
            → self.new.cells.items ≡ slice_set self.old.cells.items place (with_entry entry cell)) }
        ensures err { OnErr result (self.new.cells.items ≡ self.old.cells.items) }
        ensures others { (self.new.index ≡ self.old.index) × (self.new.due ≡ self.old.due) }
        ensures undo { undone_all self.new.changes.items self.new.cells.items
            ≡ undone_all self.old.changes.items self.old.cells.items }
    {
        self.changes.reserve(1)?;
        put_at(&mut self.cells, place, entry)?;
        self.changes.push_reserved(Change::Put(place));
        Ok(())
    }

    /// The cell at a place keeps that it fired a pane of this timing, where `from` first entries were shown.
    pub fn set_fired(
        &mut self,
        alloc: Global,
        timing: Timing,
        from: usize,
        place: u32,
    ) -> Result<(), NoMemory>
        requires within { place < length self.old.cells.items }
        requires counted { CanFireAt place self.old.cells.items }
        requires from { IsShownAt from place self.old.cells.items }
        ensures ok { OnOk result
            (HasFiredAt place timing self.old.cells.items self.new.cells.items) }
        ensures err { OnErr result (self.new.cells.items ≡ self.old.cells.items) }
        ensures others { (self.new.index ≡ self.old.index) × (self.new.due ≡ self.old.due) }
        ensures undo { undone_all self.new.changes.items self.new.cells.items
            ≡ undone_all self.old.changes.items self.old.cells.items }
    {
        self.changes.reserve(1)?;
        let before = set_fired_at(alloc, timing, from, &mut self.cells, place as usize)?;
        self.changes.push_reserved(Change::Fired(place, before));
        Ok(())
    }

    /// The cell at a place, which stands, gives way to the session whose cell is the last one.
    pub fn give_way(
        &mut self,
        alloc: Global,
        session: Span,
        place: u32,
        last: u32,
    ) -> Result<(), NoMemory>
        requires before { place < last }
        requires last { last + 1 ≡ length self.old.cells.items }
        requires stands { (cell : CellOf)
            → slice_get self.old.cells.items place ≡ Some cell → cell.merged_into ≡ None }
        ensures ok { OnOk result
            (HasGivenWay session place last self.old.cells.items self.new.cells.items) }
        ensures err { OnErr result (self.new.cells.items ≡ self.old.cells.items) }
        ensures others { (self.new.index ≡ self.old.index) × (self.new.due ≡ self.old.due) }
        ensures undo { undone_all self.new.changes.items self.new.cells.items
            ≡ undone_all self.old.changes.items self.old.cells.items }
    {
        self.changes.reserve(1)?;
        let given = give_way(alloc, &mut self.cells, session, place, last)?;
        self.changes.push_reserved(Change::GaveWay(place, given));
        Ok(())
    }

    /// Makes room for a cell behind the others, which has so many entries.
    pub fn make_room(
        &mut self,
        plan: &GroupPlan,
        node: u32,
        place: u32,
        span: Span,
        count: u64,
    ) -> Result<(), NoMemory>
        ensures cells { self.new.cells.items ≡ self.old.cells.items }
        ensures changes { self.new.changes.items ≡ self.old.changes.items }
        ensures index { self.new.index ≡ self.old.index }
        ensures kept { KeepsMoments self.old.due self.new.due }
        ensures counts { self.new.due.unseen.items ≡ self.old.due.unseen.items }
        ensures room { OnOk result (HasRoom self.new) }
        ensures moments { OnOk result
            ((cells : ListOf CellOf) (key : ValueOf) (entries : ListOf EntryOf)
            → AreMoments plan.now self.old.due cells → place ≡ length cells
            → count ≡ unseen_in entries
            → AreMoments plan.now self.new.due (cells ++ fresh_cell node key span entries ∷ [])) }
    {
        self.cells.reserve(1)?;
        self.changes.reserve(1)?;
        self.due.expect_cell(plan, node, place, span, count)
    }

    /// Puts a cell, which has so many entries, behind the others.
    pub fn push(&mut self, cell: Cell, count: u64)
        requires { HasRoom self.old }
        ensures cells { self.new.cells.items ≡ self.old.cells.items ++ cell ∷ [] }
        ensures changes { self.new.changes.items ≡ self.old.changes.items ++ Opened ∷ [] }
        ensures index { self.new.index ≡ self.old.index }
        ensures kept { KeepsMoments self.old.due self.new.due }
        ensures counts { self.new.due.unseen.items ≡ self.old.due.unseen.items ++ count ∷ [] }
    {
        self.cells.push_reserved(cell);
        self.changes.push_reserved(Change::Opened);
        self.due.unseen.push_reserved(count);
    }

    /// Makes room for a cell behind the others, and a list of its first entry.
    fn make_room_first(
        &mut self,
        alloc: Global,
        plan: &GroupPlan,
        key: &CellKey,
        place: u32,
        entry: Entry,
    ) -> Result<List<Entry>, NoMemory>
        requires { entry.shown ≡ false }
        ensures cells { self.new.cells.items ≡ self.old.cells.items }
        ensures changes { self.new.changes.items ≡ self.old.changes.items }
        ensures index { self.new.index ≡ self.old.index }
        ensures kept { KeepsMoments self.old.due self.new.due }
        ensures counts { self.new.due.unseen.items ≡ self.old.due.unseen.items }
        ensures room { OnOk result (HasRoom self.new) }
        ensures entries { IfOk result (λ entries. entries ≡ entry ∷ []) }
        ensures moments { OnOk result ((cells : ListOf CellOf)
            → AreMoments plan.now self.old.due cells → place ≡ length cells
            → AreMoments plan.now self.new.due
            (cells ++ fresh_cell key.now.node key.now.key key.now.span (entry ∷ []) ∷ [])) }
    {
        self.make_room(plan, key.node, place, key.span, 1)?;
        one_entry(alloc, entry)
    }

    /// Puts a cell with its first entry behind the others, whose place the index has already: after a
    /// refusal it hasn't.
    fn open_first(
        &mut self,
        alloc: Global,
        plan: &GroupPlan,
        key: IndexKey,
        place: u32,
        entry: Entry,
    ) -> Result<(), NoMemory>
        requires unseen { entry.shown ≡ false }
        requires place { place ≡ length self.old.cells.items }
        requires due { IsDueOf plan.now self.old.due self.old.cells.items }
        requires begun { AreMoments plan.now self.old.due
            (undone_all self.old.changes.items self.old.cells.items) }
        requires index { (cell : CellOf)
            → cell.node ≡ key.node → cell.key ≡ key.key → cell.span ≡ key.span
            → IsIndexOf self.old.index (self.old.cells.items ++ cell ∷ []) }
        ensures ok { OnOk result (self.new.cells.items
            ≡ self.old.cells.items ++ fresh_cell key.node key.key key.span (entry ∷ []) ∷ []) }
        ensures tracked { IsTracked plan.now self.new }
        ensures undo { undone_all self.new.changes.items self.new.cells.items
            ≡ undone_all self.old.changes.items self.old.cells.items }
    {
        match self.make_room_first(alloc, plan, key.cell(), place, entry) {
            Ok(entries) => {
                self.push(first_cell(key, entries), 1);
                Ok(())
            }
            Err(refusal) => {
                self.index.remove_last(&key, place as usize);
                Err(refusal)
            }
        }
    }
}

impl<'a> Draft<'a> {
    /// The cells as they are before a commit.
    pub fn new(plan: &'a GroupPlan, tracked: Tracked) -> Draft<'a>
        requires { IsAtRest plan.now tracked }
        ensures { result ≡ record {
          plan = plan.now;
          cells = tracked.cells.items;
          begun = tracked.cells.items;
        } }
    {
        Draft { plan, tracked }
    }

    /// The cells as the commit left them.
    pub fn close(self) -> Tracked
        ensures cells { result.cells.items ≡ self.entry.cells }
        ensures rest { IsAtRest self.entry.plan result }
    {
        let Draft { plan, mut tracked } = self;
        tracked.due.settle(plan, tracked.cells.as_slice());
        tracked.changes.clear();
        tracked
    }

    /// The cells as they were before the commit. Takes no memory.
    pub fn take_back(self, alloc: Global) -> Tracked
        ensures cells { result.cells.items ≡ self.entry.begun }
        ensures rest { IsAtRest self.entry.plan result }
    {
        let Draft { plan, mut tracked } = self;
        tracked.undo_all(alloc);
        tracked.due.take_back(plan, tracked.cells.as_slice());
        tracked
    }

    /// Makes room for so many changes.
    pub fn make_room_for(&mut self, count: usize) -> Result<(), NoMemory>
        ensures { self.new ≡ self.old }
    {
        self.tracked.changes.reserve(count)?;
        Ok(())
    }

    pub fn cells(&self) -> &[Cell]
        ensures { result.now ≡ self.now.cells }
    {
        self.tracked.cells.as_slice()
    }

    /// The cell at a place takes an entry that no pane has shown.
    pub fn put(&mut self, place: u32, entry: Entry) -> Result<(), NoMemory>
        requires within { place < length self.old.cells }
        requires unseen { entry.shown ≡ false }
        ensures ok { OnOk result ((cell : CellOf) → slice_get self.old.cells place ≡ Some cell
            → self.new.cells ≡ slice_set self.old.cells place (with_entry entry cell)) }
        ensures same { AreOfCommit self.old self.new }
    {
        let cell = &self.tracked.cells[place as usize];
        let count = self.tracked.due.expect_entry(self.plan, place, cell)?;
        self.tracked.put(place, entry)?;
        self.tracked.due.set_count(place, count);
        Ok(())
    }

    /// The cell of the entry's window takes it; where there is none, a new one does.
    pub fn take(&mut self, alloc: Global, node: u32, entry: Entry) -> Result<(), NoMemory>
        requires { entry.shown ≡ false }
        ensures ok { OnOk result (self.new.cells
            ≡ arrived node (key_of entry.element) entry.element.span entry self.old.cells) }
        ensures same { AreOfCommit self.old self.new }
    {
        match self.guessed(node, &entry.element) {
            Some(guessed) => self.put(guessed, entry),
            None => self.take_by_map(alloc, node, entry),
        }
    }

    /// The same, where the place isn't guessed.
    fn take_by_map(&mut self, alloc: Global, node: u32, entry: Entry) -> Result<(), NoMemory>
        requires { entry.shown ≡ false }
        ensures ok { OnOk result (self.new.cells
            ≡ arrived node (key_of entry.element) entry.element.span entry self.old.cells) }
        ensures same { AreOfCommit self.old self.new }
    {
        let key = cell_key(alloc, node, &entry)?;
        let next = u32::try_from(self.tracked.cells.len()).map_err(|_| NoMemory)?;
        let found = self.tracked.index.find_or_add(alloc, &key, next)?;
        match found {
            Some(place) => self.put(place, entry),
            None => self.tracked.open_first(alloc, self.plan, key, next, entry),
        }
    }

    /// The place of the cell of an element's window, where a guess is right.
    fn guessed(&self, node: u32, element: &Element) -> Option<u32>
        ensures { IfSome result (λ place. Some place
            ≡ place_of node (key_of element.now) element.now.span self.now.cells) }
    {
        let null = Value::Null;
        let key = key_or(element, &null);
        let place = self.tracked.index.guess(node, key, element.span)?;
        let cell = self.tracked.cells.get(place as usize)?;
        if is_cell_of(node, key, element.span, cell) {
            Some(place)
        } else {
            None
        }
    }
}

fn cell_key(alloc: Global, node: u32, entry: &Entry) -> Result<IndexKey, NoMemory>
    ensures { IfOk result (λ key. key
        ≡ record { node = node; span = entry.now.element.span; key = key_of entry.now.element }) }
{
    let key = copy_key(alloc, &entry.element)?;
    Ok(IndexKey::of(CellKey {
        node,
        span: entry.element.span,
        key,
    }))
}

fn one_entry(alloc: Global, entry: Entry) -> Result<List<Entry>, NoMemory>
    ensures { IfOk result (λ entries. entries ≡ entry ∷ []) }
{
    let mut entries = List::new(alloc);
    entries.push(entry)?;
    Ok(entries)
}

/// A new cell with its first entries.
pub fn first_cell(key: IndexKey, entries: List<Entry>) -> Cell
    ensures { result ≡ fresh_cell key.node key.key key.span entries }
{
    let CellKey { node, span, key } = key.into_cell();
    Cell {
        node,
        key,
        span,
        entries,
        next_index: 0,
        on_time: false,
        merged_into: None,
    }
}
