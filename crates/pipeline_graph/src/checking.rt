ghost use Rattle.std.specs.Prelude.{◌≡◌, ◌≤◌, [], length, nat_lt, None, IfOk, IfErr, OnOk, OnErr};
ghost use Rattle.std.specs.List.{list_all, list_any};
ghost use Rattle.beam_values.specs.Checked.{IsChecked, file_count, files_of_kind, graph_refusal};
ghost use Rattle.beam_values.specs.Checked.{has_input, is_write_in, node_refusal, nodes_refusal};
ghost use Rattle.beam_values.specs.Nodes.{facts_of, is_write_kind};
ghost use Rattle.pipeline_graph.specs.Settings.{is_set_after};
ghost use Rattle.pipeline_graph.specs.Refusals.{IsFirst};

use crate::kinds::{has_arity, is_source};
use crate::refusal::CheckRefusal;
use crate::settings::{
    is_estimator_allowed, is_function_allowed, is_source_allowed, is_state_allowed,
    is_strategy_allowed, is_trigger_allowed,
};
use crate::strategies::{agrees, is_kept, takes_sessions};
use beam_values::{GraphRefusal, List, NoMemory, Node, NodeKind, Plan};
use std::alloc::Global;
use windowing::{NodeFacts, add_facts};

/// The greatest number of nodes of a plan.
pub const MOST_NODES: usize = 64;

/// What follows of each node of a plan, where the plan breaks no rule.
pub(crate) fn check_plan(alloc: Global, plan: &Plan) -> Result<List<NodeFacts>, CheckRefusal>
    ensures facts { IfOk result (λ facts. facts ≡ facts_of plan.now.nodes) }
    ensures checked { OnOk result (IsChecked plan.now) }
    ensures refused { IfErr result (IsFirst (graph_refusal plan.now)) }
{
    let nodes = plan.nodes.as_slice();
    if nodes.is_empty() {
        return Err(CheckRefusal::Bad(GraphRefusal::Empty));
    }
    if nodes.len() > MOST_NODES {
        return Err(CheckRefusal::Bad(GraphRefusal::TooMany));
    }
    let facts = check_nodes(alloc, nodes)?;
    if !has_write(nodes) {
        return Err(CheckRefusal::Bad(GraphRefusal::NoWrite));
    }
    Ok(facts)
}

fn has_write(nodes: &[Node]) -> bool
    ensures { result ≡ list_any (λ node. is_write_kind node.kind) nodes.now }
{
    nodes.iter().any(|node| node.kind.is_write())
}

// Node after node, each with what is known of those before it.
fn check_nodes(alloc: Global, nodes: &[Node]) -> Result<List<NodeFacts>, CheckRefusal>
    requires { length nodes.now ≤ 64 }
    ensures facts { IfOk result (λ facts. facts ≡ facts_of nodes.now) }
    ensures unrefused { OnOk result (nodes_refusal [] nodes.now ≡ None) }
    ensures refused { IfErr result (IsFirst (nodes_refusal [] nodes.now)) }
{
    let mut facts = List::new(alloc);
    let mut files = 0;
    for (number, node) in nodes.iter().enumerate() {
        let (before, _) = nodes.split_at(number);
        if let Some(refusal) = node_refusal(before, facts.as_slice(), files, node) {
            return Err(CheckRefusal::Bad(refusal));
        }
        add_facts(&mut facts, node)?;
        files += file_count(&node.kind);
    }
    Ok(facts)
}

// The first rule that a node breaks after those before it, of which these facts are known and which read
// so many files.
fn node_refusal(
    before: &[Node],
    facts: &[NodeFacts],
    files: usize,
    node: &Node,
) -> Option<GraphRefusal>
    requires few { length before.now ≤ 64 }
    requires facts { facts.now ≡ facts_of before.now }
    requires files { files ≡ file_count before.now }
    requires few_files { files ≤ 256 }
    ensures { result ≡ node_refusal before.now node.now }
{
    let number = before.len() as u32;
    let inputs = node.inputs.as_slice();
    if is_source(&node.kind) && has_input(inputs) {
        Some(GraphRefusal::SourceWithInput(number))
    } else if !has_arity(&node.kind, inputs) {
        Some(GraphRefusal::Arity(number))
    } else if !are_lower(inputs, number) {
        Some(GraphRefusal::Input(number))
    } else if has_write_input(before, inputs) {
        Some(GraphRefusal::Kind(number))
    } else if !is_set(facts, files, &node.kind, inputs) {
        Some(GraphRefusal::Setting(number))
    } else {
        None
    }
}

fn has_input(inputs: &[u32]) -> bool
    ensures { result ≡ has_input inputs.now }
{
    !inputs.is_empty()
}

fn are_lower(inputs: &[u32], number: u32) -> bool
    ensures { result ≡ list_all (λ input. nat_lt input number) inputs.now }
{
    inputs.iter().all(|input| *input < number)
}

fn has_write_input(before: &[Node], inputs: &[u32]) -> bool
    ensures { result ≡ list_any (is_write_in before.now) inputs.now }
{
    inputs.iter().any(|input| is_write_at(before, *input))
}

fn is_write_at(before: &[Node], number: u32) -> bool
    ensures { result ≡ is_write_in before.now number }
{
    match before.get(number as usize) {
        None => false,
        Some(node) => node.kind.is_write(),
    }
}

fn is_set(facts: &[NodeFacts], earlier: usize, kind: &NodeKind, inputs: &[u32]) -> bool
    requires { earlier ≤ 256 }
    ensures { result ≡ is_set_after facts.now earlier kind.now inputs.now }
{
    match kind {
        NodeKind::Source {
            work,
            args,
            files,
            estimator,
        } => {
            is_source_allowed(earlier, work, args, files.as_slice())
                && is_estimator_allowed(estimator)
        }
        NodeKind::ParDo { work, args } => is_function_allowed(work, args),
        NodeKind::Flatten => agrees(facts, inputs),
        NodeKind::WindowInto { strategy } => is_strategy_allowed(strategy) && !is_kept(strategy),
        NodeKind::Group { trigger } => is_trigger_allowed(trigger),
        NodeKind::Stateful { work, args, .. } => {
            is_state_allowed(work, args) && !takes_sessions(facts, inputs)
        }
        NodeKind::Write { .. } => true,
    }
}

// How many files a node reads.
fn file_count(kind: &NodeKind) -> usize
    ensures { result ≡ files_of_kind kind.now }
{
    match kind {
        NodeKind::Source { files, .. } => files.len(),
        _ => 0,
    }
}
