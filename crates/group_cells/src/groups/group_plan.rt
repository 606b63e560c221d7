ghost use Rattle.std.specs.Prelude.{◌≡◌, ℕ, true, false, None, slice_index_or, IfOk, MatchOption};
ghost use Rattle.std.specs.List.{list_any};
ghost use Rattle.beam_values.specs.Nodes.{facts_of, is_group};
ghost use Rattle.beam_model.specs.Panes.{rules_of, trigger_of};
ghost use Rattle.group_cells.specs.GroupPlans.{group_rules, merges_in};

use crate::rules::{Rules, default_trigger, is_group, rules_of};
use beam_values::{NoMemory, Plan, Trigger};
use std::alloc::Global;
use std::marker::Model;
use windowing::{NodeFacts, facts_of};

/// A plan with the rules of its Groups at hand. Contracts see the plan. Only `new` takes memory.
#[derive(Debug, Drop)]
pub struct GroupPlan {
    plan: Plan,
    /// Of each node that is a Group its rules.
    groups: Vec<Option<Rules>>,
    /// Whether the windows of some Group merge.
    merges: bool,
    /// The trigger of what isn't a Group.
    other: Trigger,
}

impl Model for GroupPlan {
    ghost use Rattle.beam_values.specs.declared.plan.Plan.{Plan};
    ghost use Rattle.group_cells.specs.GroupPlans.{IsGroupPlan};

    ghost Value = { Plan };

    ghost view = { λ p. p.plan };

    ghost invariant = { λ p. IsGroupPlan p.plan p.groups.items p.merges p.other };
}

impl GroupPlan {
    /// Works the rules of each Group out.
    pub fn new(alloc: Global, plan: &Plan) -> Result<GroupPlan, NoMemory>
        ensures { IfOk result (λ p. p ≡ plan.now) }
    {
        let facts = facts_of(alloc, plan.nodes.as_slice())?;
        let groups = all_group_rules(alloc, plan, facts.as_slice())?;
        let merges = any_merges(groups.as_slice());
        Ok(GroupPlan {
            plan: plan.copy(alloc)?,
            groups,
            merges,
            other: default_trigger(alloc),
        })
    }

    /// The plan alone.
    pub fn plan(&self) -> &Plan
        ensures { result.now ≡ self.now }
    {
        &self.plan
    }

    /// The rules of a node, if it is a Group.
    pub fn rules(&self, node: u32) -> Option<&Rules>
        ensures { MatchOption result (is_group self.now node ≡ false)
            (λ rules. (is_group self.now node ≡ true) × (rules.now ≡ rules_of self.now node)) }
    {
        match self.groups.get(node as usize) {
            None => None,
            Some(rules) => rules.as_ref(),
        }
    }

    /// The trigger of a Group. Another node counts as one with the default trigger.
    pub fn trigger(&self, node: u32) -> &Trigger
        ensures { result.now ≡ trigger_of self.now node }
    {
        match self.rules(node) {
            None => &self.other,
            Some(rules) => &rules.trigger,
        }
    }

    /// Whether the windows of some Group merge.
    pub fn merges(&self) -> bool
        ensures { result ≡ false → (n : ℕ) → is_group self.now n ≡ true
            → (rules_of self.now n).merges ≡ false }
    {
        self.merges
    }
}

fn all_group_rules(
    alloc: Global,
    plan: &Plan,
    facts: &[NodeFacts],
) -> Result<Vec<Option<Rules>>, NoMemory>
    requires { facts.now ≡ facts_of plan.now.nodes }
    ensures { IfOk result (λ groups. (node : ℕ)
        → slice_index_or groups.items node None ≡ group_rules plan.now node) }
{
    let mut groups = Vec::new(alloc);
    for node in 0..plan.nodes.len() {
        let node = u32::try_from(node).map_err(|_| NoMemory)?;
        groups.push(group_rules(alloc, plan, facts, node)?)?;
    }
    Ok(groups)
}

fn group_rules(
    alloc: Global,
    plan: &Plan,
    facts: &[NodeFacts],
    node: u32,
) -> Result<Option<Rules>, NoMemory>
    requires { facts.now ≡ facts_of plan.now.nodes }
    ensures { IfOk result (λ rules. rules ≡ group_rules plan.now node) }
{
    if is_group(plan, node) {
        Ok(Some(rules_of(alloc, plan, facts, node)?))
    } else {
        Ok(None)
    }
}

fn any_merges(groups: &[Option<Rules>]) -> bool
    ensures { result ≡ list_any merges_in groups.now }
{
    groups.iter().any(|rules| merges_in(rules))
}

fn merges_in(rules: &Option<Rules>) -> bool
    ensures { result ≡ merges_in rules.now }
{
    match rules {
        None => false,
        Some(rules) => rules.merges,
    }
}
