//! Which windows of a key stand at a Group of sessions and still take entries. They are found by their ends, so
//! that a window costs a look-up, and one more for each window that it overlaps. Those that expired leave when
//! the key is looked at next.

ghost use Rattle.std.specs.Prelude.{◌≡◌, ◌≤◌, ◌<◌, ◌&&◌, ◌||◌, ◌==◌, ◌↔◌, ◌++◌, ℕ, ℤ, true, false};
ghost use Rattle.std.specs.Prelude.{filter, not, length, map, All, Bool, Contains, IfOk, List as ListOf, OnOk};
ghost use Rattle.std.specs.List.{list_any};
ghost use Rattle.std.specs.List.Sorted.{IsStrictlySortedBy};
ghost use Rattle.std.specs.Ordering.{nat_cmp};
ghost use Rattle.beam_values.specs.Firing.{is_expired};
ghost use Rattle.beam_values.specs.Intervals.{Interval};
ghost use Rattle.beam_values.specs.Sessions.{IsNonEmpty};
ghost use Rattle.beam_values.specs.Spans.{same_span};
ghost use Rattle.beam_values.specs.declared.cell.Cell.{Cell as CellOf};
ghost use Rattle.beam_values.specs.declared.value.Value.{Value as ValueOf};
ghost use Rattle.beam_model.specs.Panes.{is_cell_at_key, GroupRules};
ghost use Rattle.group_cells.specs.KnownWindows.{meeting_places, meets, opens, overlaps, places_of};
ghost use Rattle.group_cells.specs.KnownWindows.{window_at, AreKnown, AreKnownMet, AreListed, AreListedApart};
ghost use Rattle.group_cells.specs.KnownWindows.{AreFilled, AreMet, AreNear, ArePlacesMet, HasNone, HasOpened};
ghost use Rattle.group_cells.specs.KnownWindows.{IsAlone, IsFirstAfter, IsFirstExpired, IsHolder, IsKnown, IsNextAfter, IsTaker};
ghost use Rattle.group_cells.specs.KnownWindows.{IsWithout};
ghost use Rattle.group_cells.specs.Plain.{stands_at};
ghost use Rattle.group_cells.specs.Rounds.{open_windows};
ghost use Rattle.group_cells.specs.declared.groups.standing.Standing.{Standing as StandingOf};

use crate::rules::Rules;
use crate::windows::{
    any_stands, first_taker, has_standing, is_cell_at_key, is_open, is_same_span, lies_in,
    open_windows,
};
use beam_values::{Cell, Entry, List, Mark, NoMemory, Span, Value};
use pane_triggers::is_dropped;
use std::alloc::Global;
use std::collections::{BTreeMap, BTreeSet};
use std::ops::Bound;

/// A window that stands, and where its cell does.
#[derive(Clone, Copy, Debug)]
pub struct Standing {
    pub span: Span,
    pub place: u32,
}

/// The windows of a Group and key that stand and aren't expired at a mark, by their ends.
#[derive(Debug, Drop)]
pub struct Listed {
    pub mark: Mark,
    pub by_end: BTreeMap<i64, Standing>,
}

/// What is known of the windows of a Group and key that stand.
#[derive(Debug, Drop)]
pub enum Known {
    /// No two overlap.
    Apart(Listed),
    /// Some may overlap, or a mark fell, which no run brings about: all cells are looked at.
    Nothing,
}

/// The cells of a Group and key that stand, aren't expired and overlap a window.
#[derive(Debug, Drop)]
pub struct Met {
    /// Ascending.
    pub places: List<u32>,
    /// Their windows, where they are listed.
    pub windows: List<Standing>,
}

impl Known {
    /// Where no cell stands. Takes no memory.
    pub fn none(alloc: Global, mark: Mark) -> Known
        ensures { (rules : GroupRules) (node : ℕ) (key : ValueOf) (cells : ListOf CellOf)
            → HasNone node key cells → AreKnown mark (opens rules mark node key cells) result }
    {
        Known::Apart(Listed {
            mark,
            by_end: BTreeMap::new(alloc),
        })
    }

    /// What is known at a later mark.
    pub fn at(self, rules: &Rules, mark: Mark) -> Known
        ensures { (node : ℕ) (key : ValueOf) (cells : ListOf CellOf)
            → IsKnown rules.now node key cells self
            → AreKnown mark (opens rules.now mark node key cells) result }
    {
        let Known::Apart(listed) = self else {
            return Known::Nothing;
        };
        if mark.ms() < listed.mark.ms() {
            return Known::Nothing;
        }
        Known::Apart(listed.risen(rules, mark))
    }

    /// Whether a cell of the key stands that has this window, which isn't expired.
    pub fn stands(&self, node: u32, key: &Value, cells: &[Cell], span: Span) -> bool
        ensures { (rules : GroupRules) (mark : ℤ)
            → AreKnown mark (opens rules mark node key.now cells.now) self.now
            → is_expired rules.trigger span.end mark ≡ false
            → result ≡ list_any (stands_at node key.now span) cells.now }
    {
        match self {
            Known::Apart(listed) => listed.has(span),
            Known::Nothing => has_standing(node, key, span, cells),
        }
    }

    /// The place of the first cell that takes an entry, whose own window isn't expired.
    pub fn taker(
        &self,
        rules: &Rules,
        node: u32,
        key: &Value,
        cells: &[Cell],
        entry: &Entry,
    ) -> Option<usize>
        ensures { (mark : ℤ) → rules.now.merges ≡ true
            → AreKnown mark (opens rules.now mark node key.now cells.now) self.now
            → is_expired rules.now.trigger entry.now.element.span.end mark ≡ false
            → IsTaker rules.now node key.now entry.now cells.now result }
    {
        match self {
            Known::Apart(listed) => listed.holder(entry.element.span),
            Known::Nothing => first_taker(rules, node, key, entry, cells),
        }
    }

    /// The cells of the key that stand, aren't expired and overlap a window.
    pub fn meeting(
        &self,
        alloc: Global,
        rules: &Rules,
        mark: Mark,
        node: u32,
        key: &Value,
        cells: &[Cell],
        span: Span,
    ) -> Result<Met, NoMemory>
        ensures places { IfOk result
            (λ met. AreKnown mark (opens rules.now mark node key.now cells.now) self.now
            → met.places ≡ meeting_places rules.now mark node key.now span cells.now) }
        ensures windows { IfOk result (λ met. AreKnownMet span self.now met.windows) }
        ensures filled { OnOk result
            (AreKnown mark (opens rules.now mark node key.now cells.now) self.now
            → AreFilled rules.now mark node key.now cells.now) }
    {
        match self {
            Known::Apart(listed) => listed.meeting(alloc, span),
            Known::Nothing => Ok(Met {
                places: all_meeting(alloc, rules, mark, node, key, cells, span)?,
                windows: List::new(alloc),
            }),
        }
    }

    /// Of the windows that stand and aren't expired those that some own windows merge with.
    pub fn near(
        &self,
        alloc: Global,
        rules: &Rules,
        mark: Mark,
        node: u32,
        key: &Value,
        cells: &[Cell],
        own: &[Span],
    ) -> Result<List<Span>, NoMemory>
        ensures { IfOk result
            (λ near. AreKnown mark (opens rules.now mark node key.now cells.now) self.now
            → AreNear own.now (open_windows rules.now mark
            (filter (is_cell_at_key node key.now) cells.now)) near) }
    {
        match self {
            Known::Apart(listed) => listed.near(alloc, own),
            Known::Nothing => open_windows(alloc, rules, mark, node, key, cells),
        }
    }

    /// What is known once the cell of a session was opened at a place, to which those that it met gave way.
    pub fn opened(
        self,
        cells: &[Cell],
        met: &Met,
        span: Span,
        place: u32,
    ) -> Result<Known, NoMemory>
        ensures { IfOk result (λ known. (rules : GroupRules) (mark : ℤ) (node : ℕ) (key : ValueOf)
            (old : ListOf CellOf) → AreKnown mark (opens rules mark node key old) self
            → AreKnownMet span self met.now.windows
            → met.now.places ≡ meeting_places rules mark node key span old
            → HasOpened rules mark node key span place old cells.now
            → AreKnown mark (opens rules mark node key cells.now) known) }
    {
        let Known::Apart(listed) = self else {
            return Ok(Known::Nothing);
        };
        if any_stands(cells, met.places.as_slice()) {
            return Ok(Known::Nothing);
        }
        let mut listed = listed;
        listed.leave(met.windows.as_slice());
        listed.add(span, place)?;
        Ok(Known::Apart(listed))
    }

    /// One more cell of the key, which stands.
    pub fn with_cell(self, rules: &Rules, span: Span, place: u32) -> Result<Known, NoMemory>
        ensures { IfOk result (λ known. (mark : ℤ) (test : ℕ → Interval → Bool)
            → AreKnown mark test self
            → AreKnown mark (λ other s. test other s || (other == place
            && (not (is_expired rules.now.trigger s.end mark) && same_span span s))) known) }
    {
        let Known::Apart(listed) = self else {
            return Ok(Known::Nothing);
        };
        if is_dropped(&rules.trigger, span.end(), listed.mark) {
            return Ok(Known::Apart(listed));
        }
        listed.with(span, place)
    }
}

impl Listed {
    /// At a later mark, where those that expired leave.
    fn risen(self, rules: &Rules, mark: Mark) -> Listed
        ensures mark { result.mark ≡ mark }
        ensures left { AreListedApart self.by_end
            → IsWithout (λ s. is_expired rules.now.trigger s.end mark) self.by_end result.by_end }
    {
        let Listed { mark: _, by_end } = self;
        let mut by_end = by_end;
        drop_expired(rules, mark, &mut by_end);
        Listed { mark, by_end }
    }

    /// The first window that ends after a time, and its end.
    fn next_after(&self, time: i64) -> Option<(i64, Standing)>
        ensures { IsNextAfter time self.now.by_end result }
    {
        match self.first_after(time) {
            Some((end, window)) => Some((time_in(end), *window)),
            None => None,
        }
    }

    fn first_after(&self, time: i64) -> Option<(&i64, &Standing)>
        ensures { IsFirstAfter time self.now.by_end result }
    {
        let after = (Bound::Excluded(time), Bound::Unbounded);
        match self.by_end.range(after).next() {
            Some((end, window)) => Some((end, window)),
            None => None,
        }
    }

    fn has(&self, span: Span) -> bool
        ensures found { (place : ℕ) → window_at self.now.by_end span.end
            ≡ Some (record { span = span; place = place }) → result ≡ true }
        ensures there { result ≡ true → (place : ℕ) × (window_at self.now.by_end span.end
            ≡ Some (record { span = span; place = place })) }
    {
        match self.by_end.get(&span.end()) {
            None => false,
            Some(window) => is_same_span(window.span, span),
        }
    }

    /// Where the cell stands in whose window another one lies.
    fn holder(&self, span: Span) -> Option<usize>
        ensures { AreListedApart self.now.by_end → IsHolder span self.now.by_end result }
    {
        let (_, window) = self.next_after(span.start())?;
        if lies_in(span, window.span) {
            Some(window.place as usize)
        } else {
            None
        }
    }

    /// The windows that overlap one.
    fn met(&self, alloc: Global, span: Span) -> Result<List<Standing>, NoMemory>
        ensures met { IfOk result
            (λ met. AreListedApart self.now.by_end → AreMet span self.now.by_end met) }
        ensures some { IsNonEmpty span }
    {
        let mut met = List::new(alloc);
        let mut after = span.start();
        'walk: while let Some((end, window)) = self.next_after(after) {
            if span.end() <= window.span.start() {
                return Ok(met);
            }
            met.push(window)?;
            after = end;
        }
        Ok(met)
    }

    fn meeting(&self, alloc: Global, span: Span) -> Result<Met, NoMemory>
        ensures places { IfOk result (λ met. (test : ℕ → Interval → Bool)
            → AreListed test self.now.by_end → ArePlacesMet test span met.places) }
        ensures windows { IfOk result
            (λ met. AreListedApart self.now.by_end → AreMet span self.now.by_end met.windows) }
    {
        let windows = self.met(alloc, span)?;
        let places = in_order(alloc, windows.as_slice())?;
        Ok(Met { places, windows })
    }

    /// The windows that overlap some others, each as often as it does.
    fn near(&self, alloc: Global, own: &[Span]) -> Result<List<Span>, NoMemory>
        ensures listed { IfOk result (λ near. AreListedApart self.now.by_end
            → All (λ span. (t : StandingOf) × (window_at self.now.by_end span.end ≡ Some t)
            × (t.span ≡ span)) near) }
        ensures some { OnOk result (All IsNonEmpty own.now) }
        ensures whole { IfOk result (λ near. AreListedApart self.now.by_end
            → All (λ span. (e : ℤ) (t : StandingOf) → window_at self.now.by_end e ≡ Some t
            → overlaps span t.span ≡ true → Contains near t.span) own.now) }
    {
        let mut near = List::new(alloc);
        for span in own {
            let met = self.met(alloc, *span)?;
            push_spans(met.as_slice(), &mut near)?;
        }
        Ok(near)
    }

    /// Whether a window overlaps a listed one.
    fn is_met(&self, span: Span) -> bool
        ensures some { IsNonEmpty span }
        ensures none { AreListedApart self.now.by_end → result ≡ false
            → IsAlone span self.now.by_end }
    {
        let end = span.end();
        match self.next_after(span.start()) {
            None => false,
            Some((_, window)) => window.span.start() < end,
        }
    }

    /// Windows leave: all that overlap one, say.
    fn leave(&mut self, met: &[Standing])
        ensures left { (span : Interval) → AreListedApart self.old.by_end
            → AreMet span self.old.by_end met.now
            → IsWithout (overlaps span) self.old.by_end self.new.by_end }
        ensures mark { self.new.mark ≡ self.old.mark }
    {
        for window in met {
            self.by_end.remove(&window.span.end());
        }
    }

    /// One more window. Where it overlaps another, nothing is known.
    fn with(self, span: Span, place: u32) -> Result<Known, NoMemory>
        ensures { IfOk result (λ known. (test : ℕ → Interval → Bool) → AreListed test self.by_end
            → AreKnown self.mark (λ other s. test other s || (other == place && same_span span s))
            known) }
    {
        if self.is_met(span) {
            return Ok(Known::Nothing);
        }
        let mut listed = self;
        listed.add(span, place)?;
        Ok(Known::Apart(listed))
    }

    /// One more window, which overlaps no other.
    fn add(&mut self, span: Span, place: u32) -> Result<(), NoMemory>
        ensures listed { OnOk result ((test : ℕ → Interval → Bool) → AreListed test self.old.by_end
            → IsAlone span self.old.by_end
            → AreListed (λ other s. test other s || (other == place && same_span span s))
            self.new.by_end) }
        ensures mark { self.new.mark ≡ self.old.mark }
    {
        self.by_end.insert(span.end(), Standing { span, place })?;
        Ok(())
    }
}

/// Those that have expired at a mark leave.
fn drop_expired(rules: &Rules, mark: Mark, by_end: &mut BTreeMap<i64, Standing>)
    ensures { AreListedApart by_end.old
        → IsWithout (λ s. is_expired rules.now.trigger s.end mark) by_end.old by_end.new }
{
    'expired: while let Some(end) = first_expired(rules, mark, by_end) {
        by_end.remove(&end);
    }
}

/// The least end, if it has expired.
fn first_expired(rules: &Rules, mark: Mark, by_end: &BTreeMap<i64, Standing>) -> Option<i64>
    ensures { IsFirstExpired rules.now.trigger mark by_end.now result }
{
    let (first, _) = by_end.first_key_value()?;
    let end = time_in(first);
    if is_dropped(&rules.trigger, end, mark) {
        Some(end)
    } else {
        None
    }
}

fn time_in(time: &i64) -> i64
    ensures { result ≡ time.now }
{
    *time
}

/// Their places, ascending.
fn in_order(alloc: Global, met: &[Standing]) -> Result<List<u32>, NoMemory>
    ensures ascend { IfOk result (IsStrictlySortedBy nat_cmp) }
    ensures same { IfOk result
        (λ places. (p : ℕ) → Contains places p ↔ Contains (places_of met.now) p) }
{
    let mut places = BTreeSet::new(alloc);
    for window in met {
        places.insert(window.place)?;
    }
    list_of(alloc, &places)
}

fn list_of(alloc: Global, places: &BTreeSet<u32>) -> Result<List<u32>, NoMemory>
    ensures list { IfOk result (λ list. list ≡ places.now.keys) }
    ensures ascend { IsStrictlySortedBy nat_cmp places.now.keys }
{
    let mut list = List::new(alloc);
    for place in places {
        list.push(*place)?;
    }
    Ok(list)
}

fn push_spans(met: &[Standing], near: &mut List<Span>) -> Result<(), NoMemory>
    ensures { OnOk result (near.new ≡ near.old ++ map (λ window. window.span) met.now) }
{
    for window in met {
        near.push(window.span)?;
    }
    Ok(())
}

/// The places that `Known::meeting` answers, where all cells are looked at.
fn all_meeting(
    alloc: Global,
    rules: &Rules,
    mark: Mark,
    node: u32,
    key: &Value,
    cells: &[Cell],
    span: Span,
) -> Result<List<u32>, NoMemory>
    ensures places { IfOk result
        (λ places. places ≡ meeting_places rules.now mark node key.now span cells.now) }
    ensures filled { OnOk result (All (λ cell. IsNonEmpty cell.span) cells.now) }
{
    let mut places = List::new(alloc);
    for (place, cell) in cells.iter().enumerate() {
        if meets(rules, mark, node, key, cell, span) {
            places.push(u32::try_from(place).map_err(|_| NoMemory)?)?;
        }
    }
    Ok(places)
}

fn meets(rules: &Rules, mark: Mark, node: u32, key: &Value, cell: &Cell, span: Span) -> bool
    ensures meets { result ≡ meets rules.now mark node key.now span cell.now }
    ensures some { IsNonEmpty cell.now.span }
{
    let overlaps = overlaps(span, cell.span);
    is_cell_at_key(node, key, cell) && is_open(rules, mark, cell) && overlaps
}

fn overlaps(a: Span, b: Span) -> bool
    ensures overlaps { result ≡ overlaps a b }
    ensures some { IsNonEmpty b }
{
    let end = b.end();
    a.start() < end && b.start() < a.end()
}
