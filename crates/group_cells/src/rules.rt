ghost use Rattle.std.specs.Prelude.{◌≡◌, IfOk};
ghost use Rattle.beam_values.specs.Nodes.{facts_of, is_group, is_group_kind};
ghost use Rattle.beam_model.specs.Panes.{is_sessions, rules_of, trigger_in, trigger_of};
ghost use Rattle.beam_model.specs.Plans.{default_trigger};

use beam_values::{Duplicate, List, Mode, NoMemory, Node, NodeKind, Plan, Strategy, Trigger};
use std::alloc::Global;
use std::marker::Model;
use windowing::{NodeFacts, facts_at};

/// The rules of a Group: whether its windows merge, and its trigger.
#[derive(Debug, Drop)]
pub struct Rules {
    pub merges: bool,
    pub trigger: Trigger,
}

impl Model for Rules {
    ghost use Rattle.beam_model.specs.Panes.{GroupRules};

    ghost Value = { GroupRules };

    ghost view = { λ r. record { merges = r.merges; trigger = r.trigger } };

    ghost inverse = { λ r. record { merges = r.merges; trigger = r.trigger } };
}

/// The rules of a node, where `facts` is known of all nodes, with a copy of its trigger.
pub fn rules_of(
    alloc: Global,
    plan: &Plan,
    facts: &[NodeFacts],
    node: u32,
) -> Result<Rules, NoMemory>
    requires { facts.now ≡ facts_of plan.now.nodes }
    ensures { IfOk result (λ rules. rules ≡ rules_of plan.now node) }
{
    let other = default_trigger(alloc);
    Ok(Rules {
        merges: is_sessions(facts_at(facts, node).strategy),
        trigger: trigger_at(plan, node, &other).duplicate(alloc)?,
    })
}

/// Whether a node is a Group.
pub fn is_group(plan: &Plan, node: u32) -> bool
    ensures { result ≡ is_group plan.now node }
{
    match plan.nodes.get(node as usize) {
        None => false,
        Some(found) => is_group_kind(found),
    }
}

fn is_group_kind(node: &Node) -> bool
    ensures { result ≡ is_group_kind node.now.kind }
{
    matches!(node.kind, NodeKind::Group { .. })
}

fn is_sessions(strategy: Strategy) -> bool
    ensures { result ≡ is_sessions strategy }
{
    matches!(strategy, Strategy::Sessions { .. })
}

/// The trigger of a Group. Another node counts as one with the default trigger, `other`.
pub fn trigger_at<'a>(plan: &'a Plan, node: u32, other: &'a Trigger) -> &'a Trigger
    requires { other.now ≡ default_trigger }
    ensures { result.now ≡ trigger_of plan.now node }
{
    match plan.nodes.get(node as usize) {
        None => other,
        Some(found) => trigger_in(&found.kind, other),
    }
}

fn trigger_in<'a>(kind: &'a NodeKind, other: &'a Trigger) -> &'a Trigger
    requires { other.now ≡ default_trigger }
    ensures { result.now ≡ trigger_in kind.now }
{
    match kind {
        NodeKind::Group { trigger } => trigger,
        _ => other,
    }
}

/// The trigger of what isn't a Group. Takes no memory.
pub fn default_trigger(alloc: Global) -> Trigger
    ensures { result ≡ default_trigger }
{
    Trigger {
        early: None,
        late: 1,
        lateness: 0,
        mode: Mode::Discarding,
        early_bars: List::new(alloc),
        late_bars: List::new(alloc),
    }
}
