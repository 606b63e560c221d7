//! By Group and key: the arrivals of a commit, and what is known of the windows that stand at Groups of
//! sessions.

ghost use Rattle.std.specs.Prelude.{◌≡◌, ◌+◌, ◌&&◌, ◌∷◌, ◌++◌, [], length, List as ListOf};
ghost use Rattle.std.specs.Prelude.{false, IfOk, OnOk, if◌then◌else◌};
ghost use Rattle.std.specs.Ordering.{as_partial_cmp, eq_by_cmp, is_eq};
ghost use Rattle.std.specs.Cmp.{partial_order_from_own_ties};
ghost use Rattle.std.specs.Cmp.Rules.{comparing};
ghost use Rattle.std.proofs.Common.{rules};
ghost use Rattle.beam_values.specs.Nodes.{is_group};
ghost use Rattle.beam_values.specs.declared.arrival.Arrival.{Arrival as ArrivalOf};
ghost use Rattle.beam_values.specs.declared.cell.Cell.{Cell as CellOf};
ghost use Rattle.beam_model.specs.Panes.{rules_of};
ghost use Rattle.group_cells.specs.Commits.{elements_keyed};
ghost use Rattle.group_cells.specs.KeyLists.{all_listed, group_key_cmp, led_key_cmp, listed};
ghost use Rattle.group_cells.specs.KnownWindows.{known_of, opens, AreKnown, AreStanding, IsKnownOf};
ghost use Rattle.group_cells.specs.declared.groups.keyed.GroupKey.{GroupKey as GroupKeyOf};

use crate::arrivals::mark_into;
use crate::groups::group_plan::GroupPlan;
use crate::groups::standing::Known;
use crate::rules::Rules;
use beam_values::{
    Arrival, Cell, Element, List, Mark, NoMemory, StageMarks, Value, cmp_values, copy_key,
};
use cell_index::hash_of_key;
use std::alloc::Global;
use std::cmp::Ordering;
use std::collections::BTreeMap;
use std::marker::Model;
use std::mem;

/// A Group and a key.
#[derive(Debug, Drop)]
pub struct GroupKey {
    pub node: u32,
    pub key: Value,
}

impl PartialEq for GroupKey {
    ghost eq = { eq_by_cmp group_key_cmp };

    ghost laws = { Prim.search (comparing, rules) depth 12 };

    fn eq(&self, other: &GroupKey) -> bool {
        self.cmp(other).is_eq()
    }
}

impl Eq for GroupKey {
    ghost laws = { Prim.search (comparing, rules) depth 12 };
}

impl PartialOrd for GroupKey {
    ghost partial_cmp = { as_partial_cmp group_key_cmp };

    ghost laws = { partial_order_from_own_ties (Prim.search (comparing, rules) depth 12)
        (Prim.search (comparing, rules) depth 12) };

    fn partial_cmp(&self, other: &GroupKey) -> Option<Ordering> {
        Some(self.cmp(other))
    }
}

impl Ord for GroupKey {
    ghost cmp = { group_key_cmp };

    ghost total = { Prim.search (comparing, rules) depth 12 };

    ghost matches_partial_cmp = { Prim.search (comparing, rules) depth 12 };

    ghost matches_eq = { Prim.search (comparing, rules) depth 12 };

    fn cmp(&self, other: &GroupKey) -> Ordering {
        match self.node.cmp(&other.node) {
            Ordering::Equal => cmp_values(&self.key, &other.key),
            decided => decided,
        }
    }
}

/// A Group and a key, with a hash of the key. Maps search their nodes from the first key on: the hash decides
/// nearly all comparisons by one word.
#[derive(Debug, Drop)]
pub struct LedKey {
    hash: u64,
    own: GroupKey,
}

impl Model for LedKey {
    ghost use Rattle.std.specs.Prelude.{◌≡◌};
    ghost use Rattle.std.specs.Coded.{codes};
    ghost use Rattle.beam_values.specs.contracts.value.Value as value;
    ghost use Rattle.cell_index.specs.Leads.{key_hash};
    ghost use Rattle.group_cells.specs.declared.groups.keyed.GroupKey.{GroupKey as GroupKeyOf};

    ghost Value = { GroupKeyOf };

    ghost coded = { Prim.hlevel (codes, value.the_row.coded) };

    ghost view = { λ k. k.own };

    ghost invariant = { λ k. k.hash ≡ key_hash k.own.key };
}

impl LedKey {
    pub fn of(own: GroupKey) -> LedKey
        ensures { result ≡ own }
    {
        LedKey {
            hash: hash_of_key(&own.key),
            own,
        }
    }

    pub fn own(&self) -> &GroupKey
        ensures { result.now ≡ self.now }
    {
        &self.own
    }
}

impl PartialEq for LedKey {
    ghost eq = { eq_by_cmp led_key_cmp };

    ghost laws = { Prim.search (comparing, rules) depth 12 };

    fn eq(&self, other: &LedKey) -> bool {
        self.cmp(other).is_eq()
    }
}

impl Eq for LedKey {
    ghost laws = { Prim.search (comparing, rules) depth 12 };
}

impl PartialOrd for LedKey {
    ghost partial_cmp = { as_partial_cmp led_key_cmp };

    ghost laws = { partial_order_from_own_ties (Prim.search (comparing, rules) depth 12)
        (Prim.search (comparing, rules) depth 12) };

    fn partial_cmp(&self, other: &LedKey) -> Option<Ordering> {
        Some(self.cmp(other))
    }
}

impl Ord for LedKey {
    ghost cmp = { led_key_cmp };

    ghost total = { Prim.search (comparing, rules) depth 12 };

    ghost matches_partial_cmp = { Prim.search (comparing, rules) depth 12 };

    ghost matches_eq = { Prim.search (comparing, rules) depth 12 };

    fn cmp(&self, other: &LedKey) -> Ordering {
        match self.hash.cmp(&other.hash) {
            Ordering::Equal => self.own.cmp(&other.own),
            decided => decided,
        }
    }
}

/// One more item at the end of the list of a Group and key.
fn push<T: Drop>(
    alloc: Global,
    lists: &mut BTreeMap<GroupKey, List<T>>,
    key: GroupKey,
    item: T,
) -> Result<(), NoMemory>
    ensures others { OnOk result ((q : GroupKeyOf)
        → listed lists.new q ≡ (if is_eq (group_key_cmp key q)
        then listed lists.old key ++ item ∷ [] else listed lists.old q)) }
    ensures count { OnOk result (all_listed lists.new ≡ all_listed lists.old + 1) }
{
    lists.entry(key)?.or_insert(List::new(alloc)).push(item)
}

/// Arrivals by Group and key, those of each in their order.
pub fn by_key(
    alloc: Global,
    arrivals: List<Arrival>,
) -> Result<BTreeMap<GroupKey, List<Element>>, NoMemory>
    ensures lists { IfOk result
        (λ lists. (q : GroupKeyOf) → listed lists q ≡ elements_keyed q.node q.key arrivals) }
    ensures count { IfOk result (λ lists. all_listed lists ≡ length arrivals) }
{
    let mut lists = BTreeMap::new(alloc);
    for arrival in arrivals.into_vec() {
        push_arrival(alloc, &mut lists, arrival)?;
    }
    Ok(lists)
}

fn push_arrival(
    alloc: Global,
    lists: &mut BTreeMap<GroupKey, List<Element>>,
    arrival: Arrival,
) -> Result<(), NoMemory>
    ensures lists { OnOk result ((before : ListOf ArrivalOf)
        → ((q : GroupKeyOf) → listed lists.old q ≡ elements_keyed q.node q.key before)
        → (q : GroupKeyOf)
        → listed lists.new q ≡ elements_keyed q.node q.key (before ++ arrival ∷ [])) }
    ensures count { OnOk result (all_listed lists.new ≡ all_listed lists.old + 1) }
{
    let key = GroupKey {
        node: arrival.node,
        key: copy_key(alloc, &arrival.element)?,
    };
    push(alloc, lists, key, arrival.element)
}

/// What is known of a Group and key at a mark. Nothing is, from then on. Takes no memory.
pub fn take_known(
    alloc: Global,
    standing: &mut BTreeMap<LedKey, Known>,
    key: &LedKey,
    rules: &Rules,
    mark: Mark,
) -> Known
    ensures known { (cells : ListOf CellOf)
        → IsKnownOf rules.now key.now.node key.now.key cells (known_of standing.old key.now)
        → AreKnown mark (opens rules.now mark key.now.node key.now.key cells) result }
    ensures others { (q : GroupKeyOf) → is_eq (led_key_cmp key.now q) ≡ false
        → known_of standing.new q ≡ known_of standing.old q }
{
    match take_noted(standing, key) {
        None => Known::none(alloc, mark),
        Some(known) => known.at(rules, mark),
    }
}

/// What is noted of a Group and key, which stays among the others: it is noted anew soon.
fn take_noted(standing: &mut BTreeMap<LedKey, Known>, key: &LedKey) -> Option<Known>
    ensures noted { result ≡ known_of standing.old key.now }
    ensures others { (q : GroupKeyOf) → is_eq (led_key_cmp key.now q) ≡ false
        → known_of standing.new q ≡ known_of standing.old q }
{
    match standing.get_mut(key) {
        None => None,
        Some(noted) => Some(mem::replace(noted, Known::Nothing)),
    }
}

/// What is known of the windows of all cells at Groups of sessions, at these marks.
pub fn standing_of(
    alloc: Global,
    plan: &GroupPlan,
    before: &[StageMarks],
    cells: &[Cell],
) -> Result<BTreeMap<LedKey, Known>, NoMemory>
    ensures { IfOk result (λ standing. AreStanding plan.now standing cells.now) }
{
    let mut standing = BTreeMap::new(alloc);
    for (place, cell) in cells.iter().enumerate() {
        push_cell(alloc, plan, before, cell, place, &mut standing)?;
    }
    Ok(standing)
}

fn push_cell(
    alloc: Global,
    plan: &GroupPlan,
    before: &[StageMarks],
    cell: &Cell,
    place: usize,
    standing: &mut BTreeMap<LedKey, Known>,
) -> Result<(), NoMemory>
    ensures { OnOk result
        ((cells : ListOf CellOf) → place ≡ length cells → AreStanding plan.now standing.old cells
        → AreStanding plan.now standing.new (cells ++ cell.now ∷ [])) }
{
    let Some(rules) = plan.rules(cell.node) else {
        return Ok(());
    };
    if !rules.merges || cell.merged_into.is_some() {
        return Ok(());
    }
    let place = u32::try_from(place).map_err(|_| NoMemory)?;
    let key = key_of_cell(alloc, cell)?;
    let known = take_known(alloc, standing, &key, rules, mark_into(before, cell.node));
    let known = known.with_cell(rules, cell.span, place)?;
    standing.insert(key, known)?;
    Ok(())
}

fn key_of_cell(alloc: Global, cell: &Cell) -> Result<LedKey, NoMemory>
    ensures { IfOk result (λ key. key ≡ record { node = cell.now.node; key = cell.now.key }) }
{
    Ok(LedKey::of(GroupKey {
        node: cell.node,
        key: cell.key.copy(alloc)?,
    }))
}
