//! For which windows there are to be cells, and which of them take an entry or give way to a session.

ghost use Rattle.std.specs.Prelude.{◌≡◌, ◌<◌, ◌≤◌, ◌≤ℤ◌, ◌<ℤ◌, ◌∷◌, [], ◌++◌, ⊤, length, map};
ghost use Rattle.std.specs.Prelude.{false, option_to_list, slice_index_or, slice_set};
ghost use Rattle.std.specs.Prelude.{if◌then◌else◌};
ghost use Rattle.std.specs.Prelude.{All, Any, Contains, List as ListOf, IfOk, OnOk, MatchOption};
ghost use Rattle.std.specs.List.{list_any, AllWithin, filter};
ghost use Rattle.std.specs.List.Sorted.{IsPermutation};
ghost use Rattle.beam_values.specs.Intervals.{Interval};
ghost use Rattle.beam_values.specs.Sessions.{IsNonEmpty, LiesIn};
ghost use Rattle.beam_values.specs.Spans.{lies_in, same_span};
ghost use Rattle.beam_values.specs.declared.cell.Cell.{Cell as CellOf};
ghost use Rattle.beam_model.specs.Panes.{is_cell_at_key};
ghost use Rattle.group_cells.specs.AtPlaces.{at_place};
ghost use Rattle.group_cells.specs.KeyLists.{stands};
ghost use Rattle.group_cells.specs.Placing.{gives_way, is_absorbed, is_same_key, takes};
ghost use Rattle.group_cells.specs.Placing.{with_entry};
ghost use Rattle.group_cells.specs.Plain.{put_at, stands_at, takes_at};
ghost use Rattle.group_cells.specs.Rounds.{is_open, open_windows, AreSessionsOver, AreWindowsFor};
ghost use Rattle.session_merge.specs.Merging.{AreApart, AreSessionsOf};

use crate::rules::Rules;
use beam_values::{Cell, Element, Entry, List, Mark, NoMemory, Span, Value, cmp_values};
use pane_triggers::is_dropped;
use session_merge::SessionSet;
use std::alloc::Global;
use std::cmp::Ordering;

/// Whether two keys are one.
pub fn is_same_key(a: &Value, b: &Value) -> bool
    ensures { result ≡ is_same_key a.now b.now }
{
    cmp_values(a, b) == Ordering::Equal
}

/// Whether a cell is of a node and key.
pub fn is_cell_at_key(node: u32, key: &Value, cell: &Cell) -> bool
    ensures { result ≡ is_cell_at_key node key.now cell.now }
{
    cell.node == node && is_same_key(&cell.key, key)
}

/// Whether a window still takes entries, at the mark before the commit.
pub fn is_open(rules: &Rules, before: Mark, cell: &Cell) -> bool
    ensures { result ≡ is_open rules.now before cell.now }
{
    cell.merged_into.is_none() && !is_dropped(&rules.trigger, cell.span.end(), before)
}

/// The windows of one Group and key for which there are to be cells. `own` are the own windows of the
/// entries that arrive.
pub fn windows_for(
    alloc: Global,
    rules: &Rules,
    before: Mark,
    node: u32,
    key: &Value,
    own: &[Span],
    cells: &[Cell],
) -> Result<List<Span>, NoMemory>
    ensures windows { IfOk result (AreWindowsFor rules.now.merges own.now
        (open_windows rules.now before (filter (is_cell_at_key node key.now) cells.now))) }
    ensures few { IfOk result (λ windows. length windows ≤ length own.now) }
{
    if rules.merges {
        let open = open_windows(alloc, rules, before, node, key, cells)?;
        sessions_over(alloc, own, open.as_slice())
    } else {
        List::from_slice(alloc, own)
    }
}

/// The windows of a Group and key that stand and aren't expired, in the order of their cells.
pub fn open_windows(
    alloc: Global,
    rules: &Rules,
    before: Mark,
    node: u32,
    key: &Value,
    cells: &[Cell],
) -> Result<List<Span>, NoMemory>
    ensures { IfOk result (λ open_. open_
        ≡ open_windows rules.now before (filter (is_cell_at_key node key.now) cells.now)) }
{
    let mut open = List::new(alloc);
    for cell in cells {
        if is_cell_at_key(node, key, cell) && is_open(rules, before, cell) {
            open.push(cell.span)?;
        }
    }
    Ok(open)
}

/// Of the own window of each entry that comes, the session over some windows that stand and all own ones in
/// which it lies.
pub fn sessions_over(alloc: Global, own: &[Span], standing: &[Span]) -> Result<List<Span>, NoMemory>
    ensures windows { IfOk result (AreSessionsOver own.now standing.now) }
    ensures few { IfOk result (λ windows. length windows ≤ length own.now) }
{
    let all = by_start(alloc, standing, own)?;
    let mut sessions = SessionSet::new(alloc);
    for span in &all {
        merge(&mut sessions, *span)?;
    }
    sessions_of(alloc, sessions.spans(), own)
}

/// All windows by their starts: one that is merged next moves no session that is listed.
fn by_start(alloc: Global, standing: &[Span], own: &[Span]) -> Result<Vec<Span>, NoMemory>
    ensures { IfOk result (λ all. IsPermutation (standing.now ++ own.now) all.items) }
{
    let mut all = Vec::from_slice(alloc, standing)?;
    all.extend_from_slice(own)?;
    all.sort_unstable_by_key(|span| span.start());
    Ok(all)
}

/// Of each window, the listed one in which it lies.
fn sessions_of(alloc: Global, listed: &[Span], own: &[Span]) -> Result<List<Span>, NoMemory>
    requires { AreApart listed.now }
    ensures listed { IfOk result (All (Contains listed.now)) }
    ensures covers { IfOk result (λ windows.
        All (λ span. Any (LiesIn span) listed.now → Any (LiesIn span) windows) own.now) }
    ensures few { IfOk result (λ windows. length windows ≤ length own.now) }
{
    let mut windows = List::new(alloc);
    for span in own {
        push_if(&mut windows, holder(listed, *span))?;
    }
    Ok(windows)
}

/// The listed window in which another lies, if there is one.
fn holder(listed: &[Span], own: Span) -> Option<Span>
    requires { AreApart listed.now }
    ensures listed { MatchOption result ⊤ (Contains listed.now) }
    ensures covers { Any (LiesIn own) listed.now → MatchOption result ⊥ (LiesIn own) }
{
    let at = count_ended(listed, own);
    if at < listed.len() {
        Some(listed[at])
    } else {
        None
    }
}

/// How many of the listed windows end by the start of another.
fn count_ended(listed: &[Span], own: Span) -> usize
    requires { AreApart listed.now }
    ensures some { IsNonEmpty own }
    ensures ended { AllWithin (λ w. w.end ≤ℤ own.start) listed.now 0 result }
    ensures later { AllWithin (λ w. own.start <ℤ w.end) listed.now result (length listed.now) }
{
    let start = own.start();
    let _some = own.end();
    listed.partition_point(|window| window.end() <= start)
}

/// Adds the window, if there is one.
pub fn push_if(windows: &mut List<Span>, window: Option<Span>) -> Result<(), NoMemory>
    ensures { OnOk result (windows.new ≡ windows.old ++ option_to_list window) }
{
    if let Some(window) = window {
        windows.push(window)?;
    }
    Ok(())
}

fn merge(sessions: &mut SessionSet, span: Span) -> Result<(), NoMemory>
    ensures some { IsNonEmpty span }
    ensures sessions { OnOk result ((spans : ListOf Interval) → All IsNonEmpty spans
        → AreSessionsOf (Contains spans) sessions.old
        → AreSessionsOf (Contains (spans ++ span ∷ [])) sessions.new) }
{
    let _some = span.end();
    sessions.insert(span)?;
    Ok(())
}

/// The windows of the elements, one for each, in their order.
pub fn own_spans(alloc: Global, own: &[Element]) -> Result<List<Span>, NoMemory>
    ensures { IfOk result (λ spans. spans ≡ map (λ e. e.span) own.now) }
{
    let mut spans = List::new(alloc);
    for element in own {
        spans.push(element.span)?;
    }
    Ok(spans)
}

/// Whether a cell's entries go to a new session: windows merge, and the cell's, which wasn't merged yet
/// and still takes elements at the mark before the commit, is a smaller one within the session.
pub fn gives_way(rules: &Rules, before: Mark, session: Span, cell: &Cell) -> bool
    ensures { result ≡ gives_way rules.now before session cell.now }
{
    cell.merged_into.is_none() && is_absorbed(rules, before, session, cell.span)
}

fn is_absorbed(rules: &Rules, before: Mark, session: Span, span: Span) -> bool
    ensures { result ≡ is_absorbed rules.now before session span }
{
    if !rules.merges {
        return false;
    }
    if is_dropped(&rules.trigger, span.end(), before) {
        return false;
    }
    lies_in(span, session) && !is_same_span(span, session)
}

/// Whether a cell takes an entry, which belongs to its window.
pub fn takes(rules: &Rules, entry: &Entry, cell: &Cell) -> bool
    ensures { result ≡ takes rules.now entry.now cell.now }
{
    cell.merged_into.is_none() && belongs(rules, cell.span, entry.element.span)
}

// An element belongs to the window that is its own; where windows merge, to each in which its own lies.
fn belongs(rules: &Rules, span: Span, own: Span) -> bool
    ensures { result ≡ (if rules.now.merges then lies_in own span else same_span own span) }
{
    if rules.merges {
        lies_in(own, span)
    } else {
        is_same_span(own, span)
    }
}

/// Whether two windows have the same ends.
pub fn is_same_span(a: Span, b: Span) -> bool
    ensures { result ≡ same_span a b }
{
    a.start() == b.start() && a.end() == b.end()
}

/// Whether a window lies in another.
pub fn lies_in(inner: Span, outer: Span) -> bool
    ensures { result ≡ lies_in inner outer }
{
    outer.start() <= inner.start() && inner.end() <= outer.end()
}

/// Whether a cell of the node and key has this window and wasn't merged into another.
pub fn has_standing(node: u32, key: &Value, span: Span, cells: &[Cell]) -> bool
    ensures { result ≡ list_any (stands_at node key.now span) cells.now }
{
    cells.iter().any(|cell| stands_at(node, key, span, cell))
}

fn stands_at(node: u32, key: &Value, span: Span, cell: &Cell) -> bool
    ensures { result ≡ stands_at node key.now span cell.now }
{
    is_cell_at_key(node, key, cell) && cell.merged_into.is_none() && is_same_span(cell.span, span)
}

/// Where the first cell stands that takes an entry.
pub fn first_taker(
    rules: &Rules,
    node: u32,
    key: &Value,
    entry: &Entry,
    cells: &[Cell],
) -> Option<usize>
    ensures { MatchOption result (put_at rules.now node key.now entry.now cells.now ≡ cells.now)
        (λ at. (at < length cells.now)
        × ((d : CellOf) → put_at rules.now node key.now entry.now cells.now
        ≡ slice_set cells.now at (with_entry entry.now (slice_index_or cells.now at d)))) }
{
    for (at, cell) in cells.iter().enumerate() {
        if takes_at(rules, node, key, entry, cell) {
            return Some(at);
        }
    }
    None
}

fn takes_at(rules: &Rules, node: u32, key: &Value, entry: &Entry, cell: &Cell) -> bool
    ensures { result ≡ takes_at rules.now node key.now entry.now cell.now }
{
    is_cell_at_key(node, key, cell) && takes(rules, entry, cell)
}

/// Whether one of the cells at these places stands.
pub fn any_stands(cells: &[Cell], places: &[u32]) -> bool
    ensures { result ≡ list_any (at_place stands false cells.now) places.now }
{
    places.iter().any(|place| stands_in(cells, *place))
}

fn stands_in(cells: &[Cell], place: u32) -> bool
    ensures { result ≡ at_place stands false cells.now place }
{
    match cells.get(place as usize) {
        None => false,
        Some(cell) => cell.merged_into.is_none(),
    }
}
