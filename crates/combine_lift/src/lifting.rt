//! Which plans are lifted.

ghost use Rattle.std.specs.Prelude.{◌≡◌, ◌<◌, ◌↔◌, ◌&&◌, [], length, IfOk, IfSome};
ghost use Rattle.std.specs.Prelude.{IsNone};
ghost use Rattle.std.specs.List.{count_by, fold, list_any, position};
ghost use Rattle.beam_values.specs.Nodes.{has_kind, is_group_kind, is_source_kind};
ghost use Rattle.beam_values.specs.Nodes.{is_stateful_kind, takes_from};
ghost use Rattle.beam_values.specs.Nodes.{is_barrier_kind};
ghost use Rattle.beam_model.specs.Functions.{folds};
ghost use Rattle.beam_model.specs.Panes.{is_sessions};
ghost use Rattle.beam_model.specs.Reach.{with_passed};
ghost use Rattle.combine_lift.specs.Lifting.{goes_past, group_refusal, has_default, is_default};
ghost use Rattle.combine_lift.specs.Lifting.{is_discarding, is_fold_kind, is_only_fold};
ghost use Rattle.combine_lift.specs.Lifting.{is_written_from, only_group, shape_refusal};
ghost use Rattle.combine_lift.specs.Lifting.{IsLiftable};

use beam_values::{FnKind, Mode, NoMemory, Node, NodeKind, Plan, Strategy, Trigger};
use pipeline_graph::Graph;
use std::alloc::Global;

/// Why a plan isn't lifted: the first rule that it breaks.
#[derive(Clone, Copy, Debug, PartialEq, Eq)]
pub enum ShapeRefusal {
    /// Its version isn't 1.
    Version,
    /// It has a function with state.
    Stateful,
    /// It has no Group, or more than one.
    Groups,
    /// The Group has another trigger than the default one.
    Trigger,
    /// The windows of the Group are sessions.
    Sessions,
    /// The Group isn't taken by one function alone, once, or that isn't SumSeq, CountSeq or MaxSeq.
    Follower,
    /// A Write takes what comes from a source and not from the Group.
    Past,
}

/// Why a plan isn't lifted. `None` exactly where it is.
pub fn shape_refusal(alloc: Global, graph: &Graph) -> Result<Option<ShapeRefusal>, NoMemory>
    ensures value { IfOk result (λ refusal. refusal ≡ shape_refusal graph.now) }
    ensures liftable { IfOk result (λ refusal. IsNone refusal ↔ IsLiftable graph.now) }
{
    let plan = graph.plan();
    if plan.version != 1 {
        return Ok(Some(ShapeRefusal::Version));
    }
    if has_stateful(plan.nodes.as_slice()) {
        return Ok(Some(ShapeRefusal::Stateful));
    }
    match only_group(plan.nodes.as_slice()) {
        None => Ok(Some(ShapeRefusal::Groups)),
        Some(group) => group_refusal(alloc, graph, group),
    }
}

fn has_stateful(nodes: &[Node]) -> bool
    ensures { result ≡ list_any (λ node. is_stateful_kind node.kind) nodes.now }
{
    nodes
        .iter()
        .any(|node| matches!(node.kind, NodeKind::Stateful { .. }))
}

fn only_group(nodes: &[Node]) -> Option<usize>
    ensures group { result ≡ only_group nodes.now }
    ensures within { IfSome result (λ group. group < length nodes.now) }
{
    if group_count(nodes) == 1 {
        first_group(nodes)
    } else {
        None
    }
}

fn group_count(nodes: &[Node]) -> usize
    ensures { result ≡ count_by (λ node. is_group_kind node.kind) nodes.now }
{
    nodes.iter().filter(|node| is_group(node)).count()
}

fn first_group(nodes: &[Node]) -> Option<usize>
    ensures group { result ≡ position (λ node. is_group_kind node.kind) nodes.now }
    ensures within { IfSome result (λ group. group < length nodes.now) }
{
    nodes.iter().position(is_group)
}

fn is_group(node: &Node) -> bool
    ensures { result ≡ is_group_kind node.now.kind }
{
    matches!(node.kind, NodeKind::Group { .. })
}

fn group_refusal(
    alloc: Global,
    graph: &Graph,
    group: usize,
) -> Result<Option<ShapeRefusal>, NoMemory>
    requires { group < length graph.now.nodes }
    ensures { IfOk result (λ refusal. refusal ≡ group_refusal graph.now group) }
{
    let plan = graph.plan();
    if !has_default(plan, group) {
        return Ok(Some(ShapeRefusal::Trigger));
    }
    if is_sessions(*graph.strategy(group as u32)) {
        return Ok(Some(ShapeRefusal::Sessions));
    }
    if !is_only_fold(plan, graph.followers(group as u32)) {
        return Ok(Some(ShapeRefusal::Follower));
    }
    if goes_past(alloc, plan)? {
        return Ok(Some(ShapeRefusal::Past));
    }
    Ok(None)
}

fn has_default(plan: &Plan, group: usize) -> bool
    ensures { result ≡ has_kind has_default plan.now group }
{
    match plan.nodes.get(group) {
        None => false,
        Some(node) => has_default_kind(&node.kind),
    }
}

fn has_default_kind(kind: &NodeKind) -> bool
    ensures { result ≡ has_default kind.now }
{
    match kind {
        NodeKind::Group { trigger } => is_default(trigger),
        _ => false,
    }
}

fn is_default(trigger: &Trigger) -> bool
    ensures { result ≡ is_default trigger.now }
{
    trigger.early.is_none()
        && trigger.late == 1
        && trigger.lateness == 0
        && is_discarding(trigger.mode)
        && trigger.early_bars.is_empty()
        && trigger.late_bars.is_empty()
}

fn is_discarding(mode: Mode) -> bool
    ensures { result ≡ is_discarding mode }
{
    match mode {
        Mode::Discarding => true,
        Mode::Accumulating => false,
    }
}

fn is_sessions(strategy: Strategy) -> bool
    ensures { result ≡ is_sessions strategy }
{
    matches!(strategy, Strategy::Sessions { .. })
}

fn is_only_fold(plan: &Plan, followers: &[u32]) -> bool
    ensures { result ≡ is_only_fold plan.now followers.now }
{
    match followers {
        [follower] => is_fold(plan, *follower),
        _ => false,
    }
}

fn is_fold(plan: &Plan, node: u32) -> bool
    ensures { result ≡ has_kind is_fold_kind plan.now node }
{
    match plan.nodes.get(node as usize) {
        None => false,
        Some(found) => is_fold_kind(&found.kind),
    }
}

fn is_fold_kind(kind: &NodeKind) -> bool
    ensures { result ≡ is_fold_kind kind.now }
{
    match kind {
        NodeKind::ParDo { work, .. } => folds(*work),
        _ => false,
    }
}

fn folds(work: FnKind) -> bool
    ensures { result ≡ folds work }
{
    matches!(work, FnKind::SumSeq | FnKind::CountSeq | FnKind::MaxSeq)
}

fn goes_past(alloc: Global, plan: &Plan) -> Result<bool, NoMemory>
    ensures { IfOk result (λ past. past ≡ goes_past plan.now) }
{
    for (number, node) in plan.nodes.as_slice().iter().enumerate() {
        if is_past(alloc, plan, number, node)? {
            return Ok(true);
        }
    }
    Ok(false)
}

fn is_past(alloc: Global, plan: &Plan, number: usize, node: &Node) -> Result<bool, NoMemory>
    ensures { IfOk result
        (λ past. past ≡ (is_source_kind node.now.kind && is_written_from plan.now number)) }
{
    if is_source(node) {
        is_written_from(alloc, plan, number)
    } else {
        Ok(false)
    }
}

fn is_source(node: &Node) -> bool
    ensures { result ≡ is_source_kind node.now.kind }
{
    matches!(node.kind, NodeKind::Source { .. })
}

fn is_written_from(alloc: Global, plan: &Plan, from: usize) -> Result<bool, NoMemory>
    ensures { IfOk result (λ written. written ≡ is_written_from plan.now from) }
{
    let nodes = plan.nodes.as_slice();
    let passed = passed_nodes(alloc, nodes, from)?;
    Ok(
        nodes
            .iter()
            .any(|node| node.kind.is_write() && takes(from, &passed, node)),
    )
}

/// Of each node whether what `from` puts out passes through it, with no barrier between.
fn passed_nodes(alloc: Global, nodes: &[Node], from: usize) -> Result<Vec<bool>, NoMemory>
    ensures { IfOk result (λ passed. passed.items ≡ fold (with_passed from) [] nodes.now) }
{
    let mut passed = Vec::with_capacity(alloc, nodes.len())?;
    for node in nodes {
        let passes = takes(from, &passed, node) && !is_barrier(node);
        passed.push(passes)?;
    }
    Ok(passed)
}

fn is_barrier(node: &Node) -> bool
    ensures { result ≡ is_barrier_kind node.now.kind }
{
    matches!(
        node.kind,
        NodeKind::Group { .. } | NodeKind::Stateful { .. } | NodeKind::Write { .. }
    )
}

/// Whether a node takes what `from` puts out, or what passed through another.
fn takes(from: usize, passed: &[bool], node: &Node) -> bool
    ensures { result ≡ list_any (takes_from from passed.now) node.now.inputs }
{
    node.inputs
        .as_slice()
        .iter()
        .any(|input| takes_from(from, passed, *input))
}

fn takes_from(from: usize, passed: &[bool], input: u32) -> bool
    ensures { result ≡ takes_from from passed.now input }
{
    let input = input as usize;
    input == from || passed.get(input).copied().unwrap_or(false)
}
