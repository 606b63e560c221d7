//! The marks of the nodes in their order, and what the cells of each Group fire at the mark into it.

ghost use Rattle.std.specs.Prelude.{◌≡◌, [], ◌<◌, false, true, length, map, option_to_list};
ghost use Rattle.std.specs.Prelude.{IfOk, OnOk};
ghost use Rattle.beam_values.specs.Checked.{IsChecked};
ghost use Rattle.beam_values.specs.Nodes.{facts_of, is_group};
ghost use Rattle.beam_model.specs.Panes.{rules_of};
ghost use Rattle.group_cells.specs.Plain.{after_node, AreFired, AreGroupFired, AreNodesFired};
ghost use Rattle.group_cells.specs.Plain.{FiresAs, IsNodeDone};
ghost use Rattle.watermarks.specs.Holds.{hold_at};

use crate::firing::fire_cell;
use crate::panes::{cmp_panes, least_with, push_if};
use crate::rules::{Rules, is_group, rules_of};
use beam_values::{Cell, List, Mark, NoMemory, Pane, Plan, StageMarks};
use std::alloc::Global;
use watermarks::marks_of_node;
use windowing::NodeFacts;

/// Writes the marks of all nodes, and fires the cells of each Group at the mark into it.
pub fn fire_all(
    alloc: Global,
    plan: &Plan,
    facts: &[NodeFacts],
    before: &[StageMarks],
    holds: &[Mark],
    commit: u32,
    cells: &mut Vec<Cell>,
    marks: &mut Vec<StageMarks>,
) -> Result<List<Pane>, NoMemory>
    requires checked { IsChecked plan.now }
    requires facts { facts.now ≡ facts_of plan.now.nodes }
    requires holds { length holds.now ≡ length plan.now.nodes }
    requires marks { length marks.old.items ≡ length plan.now.nodes }
    ensures { IfOk result (AreNodesFired plan.now before.now
        (hold_at holds.now) commit cells.old.items cells.new.items marks.new.items) }
{
    let mut fired = List::new(alloc);
    for (n, hold) in holds.iter().enumerate() {
        let panes = fire_node(
            alloc, plan, facts, before, commit, n as u32, *hold, cells, marks,
        )?;
        fired.append(panes)?;
    }
    Ok(fired)
}

// The marks of one node, where those of lower ones are written, and what it fires.
fn fire_node(
    alloc: Global,
    plan: &Plan,
    facts: &[NodeFacts],
    before: &[StageMarks],
    commit: u32,
    n: u32,
    hold: Mark,
    cells: &mut Vec<Cell>,
    marks: &mut Vec<StageMarks>,
) -> Result<List<Pane>, NoMemory>
    requires checked { IsChecked plan.now }
    requires facts { facts.now ≡ facts_of plan.now.nodes }
    requires within { n < length plan.now.nodes }
    requires marks { length marks.old.items ≡ length plan.now.nodes }
    ensures { IfOk result (IsNodeDone plan.now before.now hold commit n
        cells.old.items cells.new.items marks.old.items marks.new.items) }
{
    let node = &plan.nodes.as_slice()[n as usize];
    let mark_in = marks_of_node(node, hold, marks.as_slice()).mark_in;
    let fired = fire_if_group(alloc, plan, facts, n, commit, mark_in, cells)?;
    let least = least_with(before, hold, fired.as_slice());
    let stage = marks_of_node(node, least, marks.as_slice());
    marks[n as usize] = stage;
    Ok(fired)
}

fn fire_if_group(
    alloc: Global,
    plan: &Plan,
    facts: &[NodeFacts],
    n: u32,
    commit: u32,
    mark: Mark,
    cells: &mut Vec<Cell>,
) -> Result<List<Pane>, NoMemory>
    requires { facts.now ≡ facts_of plan.now.nodes }
    ensures fires { IfOk result (λ fired. is_group plan.now n ≡ true
        → AreGroupFired (rules_of plan.now n) n commit mark cells.old.items cells.new.items fired) }
    ensures rests { IfOk result (λ fired. is_group plan.now n ≡ false
        → (cells.new.items ≡ cells.old.items) × (fired ≡ [])) }
{
    if !is_group(plan, n) {
        return Ok(List::new(alloc));
    }
    let rules = rules_of(alloc, plan, facts, n)?;
    fire_group(alloc, &rules, n, commit, mark, cells)
}

// Each cell of a Group fires, or doesn't; the panes stand by key and window.
fn fire_group(
    alloc: Global,
    rules: &Rules,
    node: u32,
    commit: u32,
    mark: Mark,
    cells: &mut Vec<Cell>,
) -> Result<List<Pane>, NoMemory>
    ensures { IfOk result
        (AreGroupFired rules.now node commit mark cells.old.items cells.new.items) }
{
    let mut panes = fire_cells(alloc, rules, node, commit, mark, cells)?;
    panes.sort_by(|a, b| cmp_panes(a, b))?;
    Ok(List::from_vec(panes))
}

fn fire_cells(
    alloc: Global,
    rules: &Rules,
    node: u32,
    commit: u32,
    mark: Mark,
    cells: &mut Vec<Cell>,
) -> Result<Vec<Pane>, NoMemory>
    ensures cells { OnOk result
        (cells.new.items ≡ map (after_node rules.now node mark) cells.old.items) }
    ensures panes { IfOk result
        (λ panes. AreFired rules.now node commit mark cells.old.items panes.items) }
{
    let mut panes = Vec::new(alloc);
    for cell in cells.iter_mut() {
        let pane = fire_at(alloc, rules, node, commit, mark, cell)?;
        push_if(&mut panes, pane)?;
    }
    Ok(panes)
}

// A cell of the node fires, or doesn't; one of another node doesn't.
fn fire_at(
    alloc: Global,
    rules: &Rules,
    node: u32,
    commit: u32,
    mark: Mark,
    cell: &mut Cell,
) -> Result<Option<Pane>, NoMemory>
    ensures cell { OnOk result (cell.new ≡ after_node rules.now node mark cell.old) }
    ensures pane { IfOk result
        (λ pane. FiresAs rules.now node commit mark cell.old (option_to_list pane)) }
{
    if cell.node == node {
        fire_cell(alloc, rules, commit, mark, cell)
    } else {
        Ok(None)
    }
}
