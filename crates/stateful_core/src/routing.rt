ghost use Rattle.std.specs.Prelude.{◌≡◌, ◌<◌, ◌+◌, [], ◌∷◌, ◌++◌, true, false, length};
ghost use Rattle.std.specs.Prelude.{IfOk, IfSome, MatchOption, OnErr, OnOk, Some};
ghost use Rattle.std.specs.BTreeMap as tree;
ghost use Rattle.beam_values.specs.declared.value.Value.TheVariants.{Null};
ghost use Rattle.cell_index.specs.Indexes.{cell_key_cmp};
ghost use Rattle.stateful_core.specs.Names.{AreFound, AreRoutes, arrival_name, names_of};
ghost use Rattle.stateful_core.specs.Opening.{fresh_all, is_any};
ghost use Rattle.stateful_core.specs.Placing.{fresh_cell};
ghost use Rattle.stateful_core.specs.Routes.{IsNumbered, IsRouted, belongs_at};
ghost use Rattle.stateful_core.specs.Seen.{cells_of};

use crate::finding::{belongs, is_stateful};
use crate::opening::new_slot;
use crate::{KeyIndex, Slot};
use beam_values::{Arrival, NoMemory, Plan, Value, copy_key, key_or};
use cell_index::{CellKey, IndexKey};
use std::alloc::Global;
use std::collections::VecDeque;

/// The new cells of a commit, and for each arrival at a Stateful node the number of its cell.
#[derive(Debug, Drop)]
pub struct Routed {
    pub fresh: Vec<Slot>,
    pub routes: VecDeque<u32>,
}

/// Finds the cell of each arrival at a Stateful node, or makes a new one for it.
pub fn route_all(
    alloc: Global,
    plan: &Plan,
    index: &mut KeyIndex,
    slots: &[Slot],
    arrivals: &[Arrival],
) -> Result<Routed, NoMemory>
    requires { AreFound index.old.numbers.places (names_of (cells_of slots.now)) }
    ensures kept { AreFound index.new.numbers.places (names_of (cells_of slots.now)) }
    ensures fresh { IfOk result (λ routed. cells_of routed.fresh.items
        ≡ fresh_all plan.now (cells_of slots.now) arrivals.now) }
    ensures found { IfOk result (λ routed. AreFound index.new.numbers.places
        (names_of (cells_of slots.now ++ cells_of routed.fresh.items))) }
    ensures routes { IfOk result (λ routed. AreRoutes plan.now
        (names_of (cells_of slots.now ++ cells_of routed.fresh.items)) arrivals.now
        routed.routes.items) }
{
    let null = Value::Null;
    route_each(alloc, plan, index, slots, &null, arrivals)
}

fn route_each(
    alloc: Global,
    plan: &Plan,
    index: &mut KeyIndex,
    slots: &[Slot],
    null: &Value,
    arrivals: &[Arrival],
) -> Result<Routed, NoMemory>
    requires null { null.now ≡ Null }
    requires found { AreFound index.old.numbers.places (names_of (cells_of slots.now)) }
    ensures kept { AreFound index.new.numbers.places (names_of (cells_of slots.now)) }
    ensures fresh { IfOk result (λ routed. cells_of routed.fresh.items
        ≡ fresh_all plan.now (cells_of slots.now) arrivals.now) }
    ensures found { IfOk result (λ routed. AreFound index.new.numbers.places
        (names_of (cells_of slots.now ++ cells_of routed.fresh.items))) }
    ensures routes { IfOk result (λ routed. AreRoutes plan.now
        (names_of (cells_of slots.now ++ cells_of routed.fresh.items)) arrivals.now
        routed.routes.items) }
{
    let mut routed = Routed {
        fresh: Vec::new(alloc),
        routes: VecDeque::new(alloc),
    };
    for arrival in arrivals {
        route(alloc, plan, index, slots, null, arrival, &mut routed)?;
    }
    Ok(routed)
}

fn route(
    alloc: Global,
    plan: &Plan,
    index: &mut KeyIndex,
    slots: &[Slot],
    null: &Value,
    arrival: &Arrival,
    routed: &mut Routed,
) -> Result<(), NoMemory>
    requires null { null.now ≡ Null }
    requires found { AreFound index.old.numbers.places
        (names_of (cells_of slots.now ++ cells_of routed.old.fresh.items)) }
    ensures kept { AreFound index.new.numbers.places (names_of (cells_of slots.now)) }
    ensures ok { OnOk result (IsRouted plan.now (cells_of slots.now) arrival.now
        index.new.numbers.places routed.old routed.new) }
{
    if !is_stateful(plan, arrival.node) {
        return Ok(());
    }
    let number = number_of_arrival(alloc, index, slots, null, arrival, &mut routed.fresh)?;
    routed.routes.push_back(number)?;
    Ok(())
}

/// The number of the cell of an arrival among these and the new ones behind them, of which it may become the
/// last.
fn number_of_arrival(
    alloc: Global,
    index: &mut KeyIndex,
    slots: &[Slot],
    null: &Value,
    arrival: &Arrival,
    fresh: &mut Vec<Slot>,
) -> Result<u32, NoMemory>
    requires null { null.now ≡ Null }
    requires found { AreFound index.old.numbers.places
        (names_of (cells_of slots.now ++ cells_of fresh.old.items)) }
    ensures kept { AreFound index.new.numbers.places (names_of (cells_of slots.now)) }
    ensures ok { IfOk result (λ number. IsNumbered (cells_of slots.now) arrival.now
        index.new.numbers.places number (cells_of fresh.old.items) (cells_of fresh.new.items)) }
{
    if let Some(number) = guessed(index, slots, fresh.as_slice(), null, arrival) {
        return Ok(number);
    }
    let key = key_of_arrival(alloc, arrival)?;
    match found(index, &key, slots, fresh.as_slice(), null, arrival) {
        Some(number) => {
            index.note_missed(&key, number);
            Ok(number)
        }
        None => open(alloc, index, key, slots.len(), arrival, fresh),
    }
}

fn key_of_arrival(alloc: Global, arrival: &Arrival) -> Result<IndexKey, NoMemory>
    ensures { IfOk result (λ key. key ≡ arrival_name arrival.now) }
{
    let key = copy_key(alloc, &arrival.element)?;
    Ok(IndexKey::of(CellKey {
        node: arrival.node,
        span: arrival.element.span,
        key,
    }))
}

fn guessed(
    index: &KeyIndex,
    slots: &[Slot],
    fresh: &[Slot],
    null: &Value,
    arrival: &Arrival,
) -> Option<u32>
    requires { null.now ≡ Null }
    ensures { IfSome result (λ number.
        belongs_at arrival.now (cells_of slots.now ++ cells_of fresh.now) number ≡ true) }
{
    let key = key_or(&arrival.element, null);
    let number = index.guess(arrival.node, key, arrival.element.span)?;
    own(slots, fresh, null, arrival, number)
}

fn found(
    index: &KeyIndex,
    key: &IndexKey,
    slots: &[Slot],
    fresh: &[Slot],
    null: &Value,
    arrival: &Arrival,
) -> Option<u32>
    requires null { null.now ≡ Null }
    requires key { key.now ≡ arrival_name arrival.now }
    requires found { AreFound index.now.numbers.places
        (names_of (cells_of slots.now ++ cells_of fresh.now)) }
    ensures { MatchOption result
        (is_any arrival.now (cells_of slots.now ++ cells_of fresh.now) ≡ false)
        (λ number. belongs_at arrival.now (cells_of slots.now ++ cells_of fresh.now) number ≡ true) }
{
    let number = index.get(key)?;
    own(slots, fresh, null, arrival, number)
}

/// The number, where its cell is the arrival's.
fn own(slots: &[Slot], fresh: &[Slot], null: &Value, arrival: &Arrival, number: u32) -> Option<u32>
    requires { null.now ≡ Null }
    ensures { MatchOption result
        (belongs_at arrival.now (cells_of slots.now ++ cells_of fresh.now) number ≡ false)
        (λ same. (same ≡ number)
        × (belongs_at arrival.now (cells_of slots.now ++ cells_of fresh.now) same ≡ true)) }
{
    if belongs_at(slots, fresh, null, arrival, number as usize) {
        Some(number)
    } else {
        None
    }
}

fn belongs_at(slots: &[Slot], fresh: &[Slot], null: &Value, arrival: &Arrival, at: usize) -> bool
    requires { null.now ≡ Null }
    ensures { result ≡ belongs_at arrival.now (cells_of slots.now ++ cells_of fresh.now) at }
{
    if at < slots.len() {
        return belongs(arrival, null, &slots[at]);
    }
    let behind = at - slots.len();
    if behind < fresh.len() {
        return belongs(arrival, null, &fresh[behind]);
    }
    false
}

/// A new cell behind these and the others that are new.
fn open(
    alloc: Global,
    index: &mut KeyIndex,
    key: IndexKey,
    standing: usize,
    arrival: &Arrival,
    fresh: &mut Vec<Slot>,
) -> Result<u32, NoMemory>
    ensures err { OnErr result (tree.IsUnchanged index.old.numbers.places index.new.numbers.places) }
    ensures fresh { IfOk result (λ _. cells_of fresh.new.items
        ≡ cells_of fresh.old.items ++ fresh_cell arrival.now ∷ []) }
    ensures number { IfOk result (λ number. number ≡ standing + length fresh.old.items) }
    ensures index { IfOk result (λ number. tree.Updates cell_key_cmp index.old.numbers.places
        index.new.numbers.places key (Some number)) }
{
    let number = number_behind(standing, fresh.len())?;
    let slot = new_slot(alloc, arrival)?;
    fresh.reserve(1)?;
    index.add(key, number)?;
    fresh.push_reserved(slot);
    Ok(number)
}

/// The number of a cell behind so many others, which has 32 bits.
pub fn number_behind(standing: usize, fresh: usize) -> Result<u32, NoMemory>
    ensures { IfOk result (λ number. number ≡ standing + fresh) }
{
    let number = standing.checked_add(fresh).ok_or(NoMemory)?;
    u32::try_from(number).map_err(|_| NoMemory)
}
