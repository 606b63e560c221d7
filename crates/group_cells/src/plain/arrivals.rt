//! Which arrivals Groups take, and which they drop.

ghost use Rattle.std.specs.Prelude.{◌≡◌, map, IfOk};
ghost use Rattle.std.specs.List.{filter};
ghost use Rattle.beam_model.specs.Plans.{default_trigger};
ghost use Rattle.group_cells.specs.Commits.{arrives_in_time, dropped_arrival, is_dropped};
ghost use Rattle.group_cells.specs.Commits.{is_taken};

use crate::arrivals::mark_into;
use crate::rules::{default_trigger, is_group, trigger_at};
use beam_values::{Arrival, Dropped, Duplicate, List, NoMemory, Plan, StageMarks, Trigger};
use pane_triggers::is_dropped as is_expired;
use std::alloc::Global;

/// Copies of the arrivals at Groups that are in time.
pub fn taken_of(
    alloc: Global,
    plan: &Plan,
    before: &[StageMarks],
    arrivals: &[Arrival],
) -> Result<List<Arrival>, NoMemory>
    ensures { IfOk result (λ taken. taken ≡ filter (is_taken plan.now before.now) arrivals.now) }
{
    let other = default_trigger(alloc);
    let mut taken = List::new(alloc);
    for arrival in arrivals {
        if is_taken(plan, &other, before, arrival) {
            taken.push(arrival.duplicate(alloc)?)?;
        }
    }
    Ok(taken)
}

/// Copies of the arrivals at Groups that are too late.
pub fn dropped_of(
    alloc: Global,
    plan: &Plan,
    before: &[StageMarks],
    commit: u32,
    arrivals: &[Arrival],
) -> Result<List<Dropped>, NoMemory>
    ensures { IfOk result (λ dropped. dropped
        ≡ map (dropped_arrival commit) (filter (is_dropped plan.now before.now) arrivals.now)) }
{
    let other = default_trigger(alloc);
    let mut dropped = List::new(alloc);
    for arrival in arrivals {
        if is_dropped(plan, &other, before, arrival) {
            dropped.push(Dropped {
                node: arrival.node,
                element: arrival.element.copy(alloc)?,
                commit,
            })?;
        }
    }
    Ok(dropped)
}

/// Whether an element arrives at a Group and in time, by the marks before the commit.
fn is_taken(plan: &Plan, other: &Trigger, before: &[StageMarks], arrival: &Arrival) -> bool
    requires { other.now ≡ default_trigger }
    ensures { result ≡ is_taken plan.now before.now arrival.now }
{
    is_group(plan, arrival.node) && arrives_in_time(plan, other, before, arrival)
}

fn is_dropped(plan: &Plan, other: &Trigger, before: &[StageMarks], arrival: &Arrival) -> bool
    requires { other.now ≡ default_trigger }
    ensures { result ≡ is_dropped plan.now before.now arrival.now }
{
    is_group(plan, arrival.node) && !arrives_in_time(plan, other, before, arrival)
}

fn arrives_in_time(plan: &Plan, other: &Trigger, before: &[StageMarks], arrival: &Arrival) -> bool
    requires { other.now ≡ default_trigger }
    ensures { result ≡ arrives_in_time plan.now before.now arrival.now }
{
    let trigger = trigger_at(plan, arrival.node, other);
    let mark = mark_into(before, arrival.node);
    !is_expired(trigger, arrival.element.span.end(), mark)
}
