//! Whether data stands for sane key cells.

ghost use Rattle.std.specs.Prelude.{◌≡◌, ◌↔◌, true, List as ListOf, slice_get, All, IfOk, Some};
ghost use Rattle.beam_values.specs.declared.marks.CommitMarks.{CommitMarks};
ghost use Rattle.stateful_core.specs.Data.{AreKeysFormed, cells_of_data};
ghost use Rattle.stateful_core.specs.Facts.{AreKeysSane, AreOnce};
ghost use Rattle.stateful_core.specs.SaneData.{AreTimersAllowed, AreTimersAllowedAt};
ghost use Rattle.stateful_core.specs.SaneData.{AreTimersAllowedIn, IsKeySane};
ghost use Rattle.stateful_core.specs.Timers.{IsAllowed};

use crate::finding::index_key;
use crate::{KeyData, KeyIndex, SetTimer};
use beam_values::{NoMemory, NodeKind, Plan, StateKind, Time};
use keyed_state::CELLS;
use std::alloc::Global;

/// Whether data stands for key cells that are sane at this plan, whatever the commits were: each is formed, at
/// a Stateful node and with the timers that its function sets, and no two are of one node, key and window.
pub fn are_sane_keys(alloc: Global, plan: &Plan, keys: &[KeyData]) -> Result<bool, NoMemory>
    ensures { IfOk result (λ is. (is ≡ true) ↔ (AreKeysFormed keys.now
        × ((commits : ListOf CommitMarks)
        → AreKeysSane plan.now commits (cells_of_data keys.now)))) }
{
    if !is_each_sane(plan, keys) {
        return Ok(false);
    }
    are_once(alloc, keys)
}

fn is_each_sane(plan: &Plan, keys: &[KeyData]) -> bool
    ensures { (result ≡ true) ↔ All (IsKeySane plan.now) keys.now }
{
    for key in keys {
        if !is_sane(plan, key) {
            return false;
        }
    }
    true
}

fn is_sane(plan: &Plan, key: &KeyData) -> bool
    ensures { (result ≡ true) ↔ IsKeySane plan.now key.now }
{
    key.state.len() == CELLS && are_timers_allowed_in(plan, key.node, key.timers.as_slice())
}

fn are_timers_allowed_in(plan: &Plan, node: u32, timers: &[SetTimer]) -> bool
    ensures { (result ≡ true) ↔ AreTimersAllowedIn (slice_get plan.now.nodes node) timers.now }
{
    match plan.nodes.get(node as usize) {
        Some(node) => are_timers_allowed_at(&node.kind, timers),
        None => false,
    }
}

fn are_timers_allowed_at(kind: &NodeKind, timers: &[SetTimer]) -> bool
    ensures { (result ≡ true) ↔ AreTimersAllowedAt kind.now timers.now }
{
    match kind {
        NodeKind::Stateful { work, .. } => are_timers_allowed(*work, timers),
        _ => false,
    }
}

/// None is set, or timer 0 alone, where the function sets one.
fn are_timers_allowed(work: StateKind, timers: &[SetTimer]) -> bool
    ensures { (result ≡ true) ↔ AreTimersAllowed work timers.now }
{
    if timers.is_empty() {
        return true;
    }
    if timers.len() > 1 {
        return false;
    }
    let timer = &timers[0].timer;
    timer.name == 0 && is_allowed(work, timer.time)
}

fn is_allowed(work: StateKind, time: Time) -> bool
    ensures { (result ≡ true) ↔ IsAllowed work (Some time) }
{
    let _ms = time.ms();
    match work {
        StateKind::BatchUntil | StateKind::LatestThenEmit => true,
        StateKind::Dedupe | StateKind::RunningSum => false,
    }
}

/// Whether no two are of one node, key and window.
fn are_once(alloc: Global, keys: &[KeyData]) -> Result<bool, NoMemory>
    ensures { IfOk result (λ are. (are ≡ true) ↔ AreOnce (cells_of_data keys.now)) }
{
    let mut index = KeyIndex::new(alloc);
    for key in keys {
        let name = index_key(alloc, key.node, &key.key, key.span)?;
        if index.get(&name).is_some() {
            return Ok(false);
        }
        index.add(name, 0)?;
    }
    Ok(true)
}
