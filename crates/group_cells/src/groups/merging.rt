//! Arrivals at Groups of sessions, one key after another: of the cells of the key only those are looked at that
//! stand, aren't expired and overlap a window. A cell that gives way to a session is replaced, and the
//! session's stands behind the others.

ghost use Rattle.std.specs.Prelude.{◌≡◌, ◌+◌, ◌∷◌, [], ◌++◌, ◌<◌, ◌≤◌, List as ListOf, None};
ghost use Rattle.std.specs.Prelude.{Some, false, true, fold, length, map, All};
ghost use Rattle.std.specs.Prelude.{slice_get, OnOk, IfOk};
ghost use Rattle.std.specs.List.{filter};
ghost use Rattle.beam_values.specs.Firing.{is_expired};
ghost use Rattle.beam_values.specs.Marks.{marks_at};
ghost use Rattle.beam_values.specs.Nodes.{is_group};
ghost use Rattle.beam_values.specs.declared.cell.Cell.{Cell as CellOf};
ghost use Rattle.beam_model.specs.Panes.{is_cell_at_key, rules_of};
ghost use Rattle.group_cells.specs.AtPlaces.{at_place, changed_at, given_all};
ghost use Rattle.group_cells.specs.Commits.{arrives_in_time};
ghost use Rattle.group_cells.specs.Handing.{with_entries, HasGivenWay};
ghost use Rattle.group_cells.specs.KnownWindows.{opens, AreKnown, AreStanding};
ghost use Rattle.group_cells.specs.Placing.{fresh_cell, handed_over, once_opened};
ghost use Rattle.group_cells.specs.Plain.{opened_all_at, opened_at, opening_of, put_all_at, put_at};
ghost use Rattle.group_cells.specs.Plain.{AreAllPlaced, ArePlacedAt};
ghost use Rattle.group_cells.specs.Rounds.{entry_of, open_windows, AreSessionsOver};
ghost use Rattle.group_cells.specs.Undoing.{AreOfCommit};

use crate::arrivals::mark_into;
use crate::groups::draft::{Draft, first_cell};
use crate::groups::keyed::{GroupKey, LedKey, by_key, take_known};
use crate::groups::placing::Commit;
use crate::groups::standing::Known;
use crate::rules::Rules;
use crate::windows::{gives_way, own_spans, sessions_over};
use beam_values::{Arrival, Duplicate, Element, Entry, List, Mark, NoMemory, Span};
use cell_index::{CellKey, IndexKey};
use std::alloc::Global;
use std::collections::BTreeMap;

impl<'a> Draft<'a> {
    /// Places the arrivals at Groups whose windows merge, one Group and key after another.
    pub fn place_later(
        &mut self,
        alloc: Global,
        commit: Commit,
        taken: List<Arrival>,
        standing: &mut BTreeMap<LedKey, Known>,
    ) -> Result<(), NoMemory>
        requires groups { All (λ arrival. is_group commit.plan.now arrival.node ≡ true) taken }
        requires merging { All
            (λ arrival. (rules_of commit.plan.now arrival.node).merges ≡ true) taken }
        requires unexpired { All (λ arrival. arrives_in_time commit.plan.now commit.before.now arrival
            ≡ true) taken }
        requires standing { AreStanding commit.plan.now standing.old self.old.cells }
        ensures ok { OnOk result (AreAllPlaced commit.entry.plan.now commit.entry.before.now
            commit.entry.number taken self.old.cells self.new.cells) }
        ensures grown { OnOk result
            (length self.new.cells ≤ length self.old.cells + length taken) }
        ensures standing { OnOk result
            (AreStanding commit.entry.plan.now standing.new self.new.cells) }
        ensures same { AreOfCommit self.old self.new }
    {
        let mut left = by_key(alloc, taken)?;
        'keys: while let Some((key, own)) = left.pop_first() {
            if own.is_empty() {
                continue 'keys;
            }
            self.place_key(alloc, commit, key, own, standing)?;
        }
        Ok(())
    }

    /// Places the entries of one Group and key: there are cells for their windows first.
    fn place_key(
        &mut self,
        alloc: Global,
        commit: Commit,
        key: GroupKey,
        own: List<Element>,
        standing: &mut BTreeMap<LedKey, Known>,
    ) -> Result<(), NoMemory>
        requires group { is_group commit.plan.now key.node ≡ true }
        requires merges { (rules_of commit.plan.now key.node).merges ≡ true }
        requires unexpired { All (λ e. is_expired (rules_of commit.plan.now key.node).trigger e.span.end
            (marks_at commit.before.now key.node).mark_in ≡ false) own }
        requires standing { AreStanding commit.plan.now standing.old self.old.cells }
        ensures ok { OnOk result (ArePlacedAt (rules_of commit.entry.plan.now key.node)
            (marks_at commit.entry.before.now key.node).mark_in key.node key.key
            commit.entry.number own self.old.cells self.new.cells) }
        ensures grown { OnOk result
            (length self.new.cells ≤ length self.old.cells + length own) }
        ensures standing { OnOk result
            (AreStanding commit.entry.plan.now standing.new self.new.cells) }
        ensures same { AreOfCommit self.old self.new }
    {
        let Some(rules) = commit.plan.rules(key.node) else {
            unreachable!()
        };
        let mark = mark_into(commit.before, key.node);
        let key = LedKey::of(key);
        let known = take_known(alloc, standing, &key, rules, mark);
        let known = self.place_known(alloc, rules, mark, key.own(), commit.number, own, known)?;
        standing.insert(key, known)?;
        Ok(())
    }

    /// The same, by what is known of the key's windows. Answers what is known of them then.
    fn place_known(
        &mut self,
        alloc: Global,
        rules: &Rules,
        before: Mark,
        key: &GroupKey,
        commit: u32,
        own: List<Element>,
        known: Known,
    ) -> Result<Known, NoMemory>
        requires merges { rules.now.merges ≡ true }
        requires unexpired { All (λ e. is_expired rules.now.trigger e.span.end before ≡ false) own }
        requires known { AreKnown before (opens rules.now before key.now.node key.now.key
            self.old.cells) known }
        ensures ok { OnOk result (ArePlacedAt rules.now before key.now.node key.now.key
            commit own self.old.cells self.new.cells) }
        ensures grown { OnOk result
            (length self.new.cells ≤ length self.old.cells + length own) }
        ensures known { IfOk result (AreKnown before (opens rules.now before key.now.node
            key.now.key self.new.cells)) }
        ensures same { AreOfCommit self.old self.new }
    {
        let windows = self.sessions_for(alloc, rules, before, key, own.as_slice(), &known)?;
        let known = self.open_all(alloc, rules, before, key, windows.as_slice(), known)?;
        self.put_all(rules, before, key, commit, own, &known)?;
        Ok(known)
    }

    /// The sessions for which there are to be cells.
    fn sessions_for(
        &self,
        alloc: Global,
        rules: &Rules,
        before: Mark,
        key: &GroupKey,
        own: &[Element],
        known: &Known,
    ) -> Result<List<Span>, NoMemory>
        requires known { AreKnown before (opens rules.now before key.now.node key.now.key
            self.now.cells) known.now }
        requires unexpired { All (λ e. is_expired rules.now.trigger e.span.end before ≡ false) own.now }
        ensures windows { IfOk result (AreSessionsOver (map (λ e. e.span) own.now)
            (open_windows rules.now before
            (filter (is_cell_at_key key.now.node key.now.key) self.now.cells))) }
        ensures unexpired { IfOk result
            (All (λ span. is_expired rules.now.trigger span.end before ≡ false)) }
        ensures few { IfOk result (λ windows. length windows ≤ length own.now) }
    {
        let spans = own_spans(alloc, own)?;
        let cells = self.cells();
        let near = known.near(
            alloc,
            rules,
            before,
            key.node,
            &key.key,
            cells,
            spans.as_slice(),
        )?;
        let windows = sessions_over(alloc, spans.as_slice(), near.as_slice())?;
        Ok(windows)
    }

    /// A cell for each window, where none stands. Answers what is known of the key's windows then.
    fn open_all(
        &mut self,
        alloc: Global,
        rules: &Rules,
        before: Mark,
        key: &GroupKey,
        windows: &[Span],
        known: Known,
    ) -> Result<Known, NoMemory>
        requires known { AreKnown before (opens rules.now before key.now.node key.now.key
            self.old.cells) known }
        requires unexpired { All (λ span. is_expired rules.now.trigger span.end before ≡ false)
            windows.now }
        ensures ok { OnOk result (self.new.cells ≡ opened_all_at rules.now before key.now.node
            (map (opening_of key.now.key) windows.now) self.old.cells) }
        ensures known { IfOk result (AreKnown before (opens rules.now before key.now.node
            key.now.key self.new.cells)) }
        ensures same { AreOfCommit self.old self.new }
    {
        let mut known = known;
        for span in windows {
            known = self.open_session(alloc, rules, before, key, *span, known)?;
        }
        Ok(known)
    }

    /// A cell for a window, where none stands: it takes the entries of those that give way to it.
    fn open_session(
        &mut self,
        alloc: Global,
        rules: &Rules,
        before: Mark,
        key: &GroupKey,
        span: Span,
        known: Known,
    ) -> Result<Known, NoMemory>
        requires known { AreKnown before (opens rules.now before key.now.node key.now.key
            self.old.cells) known }
        requires unexpired { is_expired rules.now.trigger span.end before ≡ false }
        ensures ok { OnOk result (self.new.cells ≡ opened_at rules.now before
            key.now.node self.old.cells (opening_of key.now.key span)) }
        ensures known { IfOk result (AreKnown before (opens rules.now before key.now.node
            key.now.key self.new.cells)) }
        ensures same { AreOfCommit self.old self.new }
    {
        let cells = self.cells();
        if known.stands(key.node, &key.key, cells, span) {
            return Ok(known);
        }
        let met = known.meeting(alloc, rules, before, key.node, &key.key, cells, span)?;
        let place = u32::try_from(cells.len()).map_err(|_| NoMemory)?;
        self.open_over(alloc, rules, before, key, span, met.places.as_slice())?;
        let known = known.opened(self.cells(), &met, span, place)?;
        Ok(known)
    }

    /// Puts the cell of a session behind the others. Of the cells at these places, those that give way to
    /// it hand their entries over, in order.
    fn open_over(
        &mut self,
        alloc: Global,
        rules: &Rules,
        before: Mark,
        key: &GroupKey,
        span: Span,
        places: &[u32],
    ) -> Result<(), NoMemory>
        ensures ok { OnOk result (self.new.cells
            ≡ fold (changed_at (once_opened rules.now before span)) self.old.cells places.now
            ++ fresh_cell key.now.node key.now.key span
            (given_all (once_opened rules.now before span) (handed_over rules.now before span)
            places.now self.old.cells) ∷ []) }
        ensures same { AreOfCommit self.old self.new }
    {
        self.push_session(alloc, key, span)?;
        for place in places {
            self.hand_over(alloc, rules, before, span, *place)?;
        }
        Ok(())
    }

    /// The cell at a place hands its entries over to the last cell, if it gives way to that one's session.
    fn hand_over(
        &mut self,
        alloc: Global,
        rules: &Rules,
        before: Mark,
        span: Span,
        place: u32,
    ) -> Result<(), NoMemory>
        ensures ok { OnOk result
            ((front : ListOf CellOf) (taker : CellOf) → self.old.cells ≡ front ++ taker ∷ []
            → self.new.cells ≡ changed_at (once_opened rules.now before span) front place
            ++ with_entries (at_place (handed_over rules.now before span) [] front place) taker
            ∷ []) }
        ensures same { AreOfCommit self.old self.new }
    {
        let cells = self.cells();
        if cells.len() <= place as usize + 1 {
            return Ok(());
        }
        if !gives_way(rules, before, span, &cells[place as usize]) {
            return Ok(());
        }
        let last = u32::try_from(cells.len() - 1).map_err(|_| NoMemory)?;
        self.give_way(alloc, span, place, last)
    }

    /// The cell at a place, which stands, gives way to the session whose cell is the last one.
    fn give_way(&mut self, alloc: Global, span: Span, place: u32, last: u32) -> Result<(), NoMemory>
        requires before { place < last }
        requires last { last + 1 ≡ length self.old.cells }
        requires stands { (cell : CellOf)
            → slice_get self.old.cells place ≡ Some cell → cell.merged_into ≡ None }
        ensures ok { OnOk result (HasGivenWay span place last self.old.cells self.new.cells) }
        ensures same { AreOfCommit self.old self.new }
    {
        let cell = &self.tracked.cells[place as usize];
        let taker = &self.tracked.cells[last as usize];
        let count = self
            .tracked
            .due
            .expect_handing(self.plan, place, cell, last, taker)?;
        self.tracked.give_way(alloc, span, place, last)?;
        self.tracked.due.set_count(place, 0);
        self.tracked.due.set_count(last, count);
        Ok(())
    }

    /// Puts the cell of a session behind the others, still without entries. Its window may have had one
    /// that was merged.
    fn push_session(&mut self, alloc: Global, key: &GroupKey, span: Span) -> Result<(), NoMemory>
        ensures ok { OnOk result (self.new.cells
            ≡ self.old.cells ++ fresh_cell key.now.node key.now.key span [] ∷ []) }
        ensures same { AreOfCommit self.old self.new }
    {
        let own = session_key(alloc, key, span)?;
        let place = u32::try_from(self.tracked.cells.len()).map_err(|_| NoMemory)?;
        self.tracked.make_room(self.plan, key.node, place, span, 0)?;
        self.tracked.index.add(alloc, &own, place)?;
        self.tracked.push(first_cell(own, List::new(alloc)), 0);
        Ok(())
    }

    /// Each entry goes to the first cell of the key that takes it.
    fn put_all(
        &mut self,
        rules: &Rules,
        before: Mark,
        key: &GroupKey,
        commit: u32,
        own: List<Element>,
        known: &Known,
    ) -> Result<(), NoMemory>
        requires merges { rules.now.merges ≡ true }
        requires known { AreKnown before (opens rules.now before key.now.node key.now.key
            self.old.cells) known.now }
        requires unexpired { All (λ e. is_expired rules.now.trigger e.span.end before ≡ false) own }
        ensures ok { OnOk result (self.new.cells ≡ put_all_at rules.now
            key.now.node key.now.key (map (entry_of commit) own) self.old.cells) }
        ensures known { OnOk result (AreKnown before (opens rules.now before key.now.node
            key.now.key self.new.cells) known.now) }
        ensures same { AreOfCommit self.old self.new }
    {
        for element in own.into_vec() {
            let entry = Entry {
                element,
                commit,
                shown: false,
            };
            self.put_first(rules, before, key, entry, known)?;
        }
        Ok(())
    }

    fn put_first(
        &mut self,
        rules: &Rules,
        before: Mark,
        key: &GroupKey,
        entry: Entry,
        known: &Known,
    ) -> Result<(), NoMemory>
        requires unseen { entry.shown ≡ false }
        requires merges { rules.now.merges ≡ true }
        requires known { AreKnown before (opens rules.now before key.now.node key.now.key
            self.old.cells) known.now }
        requires unexpired { is_expired rules.now.trigger entry.element.span.end before ≡ false }
        ensures ok { OnOk result (self.new.cells
            ≡ put_at rules.now key.now.node key.now.key entry self.old.cells) }
        ensures known { OnOk result (AreKnown before (opens rules.now before key.now.node
            key.now.key self.new.cells) known.now) }
        ensures same { AreOfCommit self.old self.new }
    {
        match known.taker(rules, key.node, &key.key, self.cells(), &entry) {
            None => Ok(()),
            Some(at) => {
                let place = u32::try_from(at).map_err(|_| NoMemory)?;
                self.put(place, entry)
            }
        }
    }
}

fn session_key(alloc: Global, key: &GroupKey, span: Span) -> Result<IndexKey, NoMemory>
    ensures { IfOk result
        (λ own. own ≡ record { node = key.now.node; span = span; key = key.now.key }) }
{
    let own = key.key.copy(alloc)?;
    Ok(IndexKey::of(CellKey {
        node: key.node,
        span,
        key: own,
    }))
}
