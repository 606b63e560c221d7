//! The last job: what was combined goes on from the function.

ghost use Rattle.std.specs.Prelude.{◌≡◌, ◌<◌, ◌≤◌, length, map, Some, IfErr, IfOk};
ghost use Rattle.beam_model.specs.Chains.{Arrives};
ghost use Rattle.chain_exec.specs.Causes.{IsCallRefused, observed_shelf};
ghost use Rattle.combine_laws.specs.Lasting.{HasLasted, chains_of, combined_element};
ghost use Rattle.combine_plan.specs.Lasting.{ArePanesRefused, ArePanesSpent, IsLastRefused};
ghost use Rattle.combine_plan.specs.Lasting.{IsPaneRefused, elements_of};

use crate::refusal::CombineRefusal;
use beam_values::{
    Arrival, Boxed, Element, FaultNote, List, Pane, PaneTag, Time, Timing, Value, last_time,
};
use book_core::look_at_panes;
use bundle_commit::Staging;
use chain_exec::{Buffers, ExecRefusal, run_batch};
use combine_lift::{Combined, LiftRefusal};
use dofn_traits::Shelf;
use pipeline_graph::Graph;
use retry_core::{Next, next_attempt};
use std::alloc::Global;

/// What combined elements bring from the function, a node of this number, to the Writes.
pub fn write_combined<F: Shelf>(
    alloc: Global,
    graph: &Graph,
    function: u32,
    attempts: u32,
    shelf: &mut F,
    rows: &[Combined],
) -> Result<List<Arrival>, CombineRefusal>
    requires function { function < length graph.now.nodes }
    requires attempts { 1 ≤ attempts }
    requires few { attempts ≤ 1000 }
    ensures lasted { IfOk result (HasLasted graph.now function rows.now) }
    ensures refused { IfErr result
        (IsLastRefused (observed_shelf F.strict F.faults shelf.old shelf.new)
        graph.now function attempts rows.now) }
    ensures counts { F.faults shelf.old ≤ F.faults shelf.new }
    ensures strict { F.strict shelf.new ≡ F.strict shelf.old }
{
    let panes = panes_of(alloc, function, rows)?;
    look_at_panes(panes.as_slice());
    work_panes(alloc, graph, function, attempts, shelf, panes.as_slice())
}

/// Works panes of the function's, as often as they may fail.
fn work_panes<F: Shelf>(
    alloc: Global,
    graph: &Graph,
    function: u32,
    attempts: u32,
    shelf: &mut F,
    panes: &[Pane],
) -> Result<List<Arrival>, CombineRefusal>
    requires function { function < length graph.now.nodes }
    requires attempts { 1 ≤ attempts }
    requires few { attempts ≤ 1000 }
    ensures worked { IfOk result (λ arrivals. map Arrives arrivals
        ≡ chains_of graph.now function (elements_of panes.now)) }
    ensures refused { IfErr result
        (ArePanesSpent (observed_shelf F.strict F.faults shelf.old shelf.new)
        graph.now function attempts (elements_of panes.now)) }
    ensures counts { F.faults shelf.old ≤ F.faults shelf.new }
    ensures strict { F.strict shelf.new ≡ F.strict shelf.old }
{
    let mut buffers = Buffers::new(alloc);
    let mut tried = 0;
    'attempts: loop {
        match work_once(alloc, graph, function, shelf, panes, &mut buffers) {
            Ok(arrivals) => return Ok(arrivals),
            Err(ExecRefusal::NoMemory) => return Err(CombineRefusal::NoMemory),
            Err(ExecRefusal::Faulted { at, cause }) => match next_attempt(tried, attempts) {
                Next::Retry(made) => tried = made,
                Next::Spent => {
                    return Err(CombineRefusal::Fault(FaultNote {
                        node: function,
                        item: 0,
                        at,
                        attempt: attempts,
                        cause,
                    }));
                }
            },
        }
    }
}

/// Works the panes in one bundle: their values are what the function gives, so they go on to its followers.
/// What is staged of a refused bundle is dropped.
fn work_once<F: Shelf>(
    alloc: Global,
    graph: &Graph,
    function: u32,
    shelf: &mut F,
    panes: &[Pane],
    buffers: &mut Buffers,
) -> Result<List<Arrival>, ExecRefusal>
    requires { function < length graph.now.nodes }
    ensures worked { IfOk result (λ arrivals. map Arrives arrivals
        ≡ chains_of graph.now function (elements_of panes.now)) }
    ensures refused { IfErr result
        (IsCallRefused (observed_shelf F.strict F.faults shelf.old shelf.new)
        (chains_of graph.now function (elements_of panes.now))) }
    ensures counts { F.faults shelf.old ≤ F.faults shelf.new }
    ensures strict { F.strict shelf.new ≡ F.strict shelf.old }
{
    let mut staging = Staging::new(alloc, Time::LEAST);
    shelf.start_bundle();
    let worked = run_batch(alloc, graph, shelf, function, panes, buffers, &mut staging);
    shelf.finish_bundle();
    worked?;
    Ok(staging.seal().arrivals)
}

/// The combined elements, as panes of the function's.
fn panes_of(alloc: Global, function: u32, rows: &[Combined]) -> Result<List<Pane>, CombineRefusal>
    ensures each { IfOk result (λ panes.
        map combined_element rows.now ≡ map Some (elements_of panes)) }
    ensures refused { IfErr result (ArePanesRefused rows.now) }
{
    let mut panes = List::new(alloc);
    for row in rows {
        panes.push(pane_of(alloc, function, row)?)?;
    }
    Ok(panes)
}

fn pane_of(alloc: Global, function: u32, row: &Combined) -> Result<Pane, CombineRefusal>
    ensures pane { IfOk result (λ pane. combined_element row.now ≡ Some pane.element) }
    ensures refused { IfErr result (IsPaneRefused row.now) }
{
    let Some(value) = &row.value else {
        return Err(CombineRefusal::Lift(LiftRefusal::Sum));
    };
    let key = Boxed::new(alloc, row.key.copy(alloc)?)?;
    let value = Boxed::new(alloc, value.copy(alloc)?)?;
    Ok(Pane {
        node: function,
        element: Element {
            value: Value::Pair(key, value),
            time: last_time(row.span),
            span: row.span,
            pane: PaneTag {
                timing: Timing::OnTime,
                index: 0,
            },
        },
        commit: 0,
    })
}
