//! The strategies of the nodes of a plan, node after node.

ghost use Rattle.std.specs.Prelude.{◌≡◌, IfOk, OnOk};
ghost use Rattle.beam_values.specs.Nodes.{below_group, facts_after, facts_at, facts_of};
ghost use Rattle.beam_values.specs.Nodes.{first_strategy, with_facts};

use beam_values::{List, NoMemory, Node, NodeKind, Strategy};
use std::alloc::Global;
use std::marker::Model;

/// The strategy of a node, and that of what it puts out.
#[derive(Clone, Copy, Debug)]
pub struct NodeFacts {
    pub strategy: Strategy,
    pub onward: Strategy,
}

impl Model for NodeFacts {
    ghost use Rattle.beam_values.specs.Nodes.{NodeFacts as Facts};

    ghost Value = { Facts };

    ghost view = { λ f. record { strategy = f.strategy; onward = f.onward } };

    ghost inverse = { λ f. record { strategy = f.strategy; onward = f.onward } };
}

/// What is known of each of these nodes.
pub fn facts_of(alloc: Global, nodes: &[Node]) -> Result<List<NodeFacts>, NoMemory>
    ensures { IfOk result (λ facts. facts ≡ facts_of nodes.now) }
{
    let mut facts = List::new(alloc);
    for node in nodes {
        add_facts(&mut facts, node)?;
    }
    Ok(facts)
}

/// What is known of one more node.
pub fn add_facts(facts: &mut List<NodeFacts>, node: &Node) -> Result<(), NoMemory>
    ensures { OnOk result (facts.new ≡ with_facts facts.old node.now) }
{
    let above = first_strategy(facts.as_slice(), node.inputs.as_slice());
    facts.push(facts_after(&node.kind, above))
}

/// What follows for a node of this kind, where `above` is the strategy of what its first input puts out.
fn facts_after(kind: &NodeKind, above: Strategy) -> NodeFacts
    ensures { result ≡ facts_after kind.now above }
{
    let strategy = match kind {
        NodeKind::Source { .. } => Strategy::Global,
        NodeKind::WindowInto { strategy } => *strategy,
        _ => above,
    };
    let onward = match kind {
        NodeKind::Group { .. } => below_group(strategy),
        _ => strategy,
    };
    NodeFacts { strategy, onward }
}

// A Group of sessions puts out windows that no later Group merges.
fn below_group(strategy: Strategy) -> Strategy
    ensures { result ≡ below_group strategy }
{
    match strategy {
        Strategy::Sessions { .. } => Strategy::Kept,
        _ => strategy,
    }
}

/// The strategy of what the first of these inputs puts out.
pub fn first_strategy(facts: &[NodeFacts], inputs: &[u32]) -> Strategy
    ensures { result ≡ first_strategy facts.now inputs.now }
{
    match inputs.first() {
        None => Strategy::Global,
        Some(input) => facts_at(facts, *input).onward,
    }
}

/// What is known of a node. One that isn't there counts as Global.
pub fn facts_at(facts: &[NodeFacts], node: u32) -> NodeFacts
    ensures { result ≡ facts_at facts.now node }
{
    match facts.get(node as usize) {
        None => NodeFacts {
            strategy: Strategy::Global,
            onward: Strategy::Global,
        },
        Some(found) => *found,
    }
}
