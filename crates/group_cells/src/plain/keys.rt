//! The arrivals that are in time, one Group and key after another.

ghost use Rattle.std.specs.Prelude.{◌≡◌, ◌+◌, ◌≤◌, ◌∷◌, ◌++◌, [], List as ListOf, length, not};
ghost use Rattle.std.specs.Prelude.{true, All, IfOk, OnOk, MatchOption};
ghost use Rattle.std.specs.List.{filter};
ghost use Rattle.beam_values.specs.Grouping.{key_of};
ghost use Rattle.beam_values.specs.Marks.{marks_at};
ghost use Rattle.beam_values.specs.Nodes.{facts_of, is_group};
ghost use Rattle.beam_values.specs.declared.arrival.Arrival.{Arrival as ArrivalOf};
ghost use Rattle.beam_model.specs.Panes.{rules_of};
ghost use Rattle.group_cells.specs.Commits.{elements_keyed};
ghost use Rattle.group_cells.specs.Plain.{ArePlacedAt, AreAllPlaced, is_arrival_at};

use crate::arrivals::mark_into;
use crate::plain::placing::place_key;
use crate::rules::rules_of;
use crate::windows::is_same_key;
use beam_values::{
    Arrival, Cell, Element, List, NoMemory, Plan, StageMarks, Value, copy_key, key_or,
};
use std::alloc::Global;
use windowing::NodeFacts;

/// A Group and a key.
#[derive(Debug, Drop)]
struct Place {
    node: u32,
    key: Value,
}

/// The arrivals of one Group and key, and the others.
#[derive(Debug, Drop)]
struct Split {
    own: List<Element>,
    others: List<Arrival>,
}

/// Places the arrivals that Groups take.
pub fn place_all(
    alloc: Global,
    plan: &Plan,
    facts: &[NodeFacts],
    before: &[StageMarks],
    commit: u32,
    taken: List<Arrival>,
    cells: &mut Vec<Cell>,
) -> Result<(), NoMemory>
    requires facts { facts.now ≡ facts_of plan.now.nodes }
    requires groups { All (λ arrival. is_group plan.now arrival.node ≡ true) taken }
    ensures placed { OnOk result
        (AreAllPlaced plan.now before.now commit taken cells.old.items cells.new.items) }
    ensures grown { OnOk result (length cells.new.items ≤ length cells.old.items + length taken) }
{
    let mut left = taken;
    while let Some(place) = next_place(alloc, left.as_slice())? {
        left = place_next(alloc, plan, facts, before, commit, place, left, cells)?;
    }
    Ok(())
}

// The Group and key of the first arrival.
fn next_place(alloc: Global, left: &[Arrival]) -> Result<Option<Place>, NoMemory>
    ensures { IfOk result (λ next. MatchOption next (left.now ≡ [])
        (λ place. (first : ArrivalOf) × (rest : ListOf ArrivalOf) × (left.now ≡ first ∷ rest)
        × (place ≡ record { node = first.node; key = key_of first.element }))) }
{
    match left.first() {
        None => Ok(None),
        Some(first) => Ok(Some(Place {
            node: first.node,
            key: copy_key(alloc, &first.element)?,
        })),
    }
}

// Places the arrivals of a Group and key, and answers the others.
fn place_next(
    alloc: Global,
    plan: &Plan,
    facts: &[NodeFacts],
    before: &[StageMarks],
    commit: u32,
    place: Place,
    left: List<Arrival>,
    cells: &mut Vec<Cell>,
) -> Result<List<Arrival>, NoMemory>
    requires { facts.now ≡ facts_of plan.now.nodes }
    ensures others { IfOk result (λ others. others
        ≡ filter (λ arrival. not (is_arrival_at place.node place.key arrival)) left) }
    ensures placed { OnOk result (ArePlacedAt (rules_of plan.now place.node)
        (marks_at before.now place.node).mark_in place.node place.key commit
        (elements_keyed place.node place.key left) cells.old.items cells.new.items) }
    ensures grown { IfOk result
        (λ others. length cells.new.items + length others ≤ length cells.old.items + length left) }
{
    let split = split_off(alloc, &place, left)?;
    let rules = rules_of(alloc, plan, facts, place.node)?;
    let mark = mark_into(before, place.node);
    let Split { own, others } = split;
    place_key(
        alloc, &rules, mark, place.node, &place.key, commit, own, cells,
    )?;
    Ok(others)
}

fn split_off(alloc: Global, place: &Place, arrivals: List<Arrival>) -> Result<Split, NoMemory>
    ensures own { IfOk result
        (λ split. split.own ≡ elements_keyed place.now.node place.now.key arrivals) }
    ensures others { IfOk result (λ split. split.others
        ≡ filter (λ arrival. not (is_arrival_at place.now.node place.now.key arrival)) arrivals) }
{
    let mut own = List::new(alloc);
    let mut others = List::new(alloc);
    for arrival in arrivals.into_vec() {
        sort_out(place, arrival, &mut own, &mut others)?;
    }
    Ok(Split { own, others })
}

fn sort_out(
    place: &Place,
    arrival: Arrival,
    own: &mut List<Element>,
    others: &mut List<Arrival>,
) -> Result<(), NoMemory>
    ensures own { OnOk result
        (own.new ≡ own.old ++ elements_keyed place.now.node place.now.key (arrival ∷ [])) }
    ensures others { OnOk result (others.new ≡ others.old
        ++ filter (λ a. not (is_arrival_at place.now.node place.now.key a)) (arrival ∷ [])) }
{
    if is_arrival_at(place, &arrival) {
        own.push(arrival.element)
    } else {
        others.push(arrival)
    }
}

fn is_arrival_at(place: &Place, arrival: &Arrival) -> bool
    ensures { result ≡ is_arrival_at place.now.node place.now.key arrival.now }
{
    let null = Value::Null;
    arrival.node == place.node && is_same_key(key_or(&arrival.element, &null), &place.key)
}
