ghost use Rattle.std.specs.Prelude.{◌≡◌, ◌<◌, length, IfOk, IfErr, OnOk};
ghost use Rattle.beam_values.specs.Checked.{IsChecked, graph_refusal};
ghost use Rattle.beam_values.specs.Nodes.{strategy_of};
ghost use Rattle.pipeline_graph.specs.Followers.{followers_of};
ghost use Rattle.pipeline_graph.specs.Refusals.{IsFirst};

use crate::checking::check_plan;
use crate::followers::index_followers;
use crate::refusal::CheckRefusal;
use beam_values::{Duplicate, List, NoMemory, Plan, Strategy};
use std::alloc::Global;
use std::marker::Model;
use windowing::NodeFacts;

/// A plan that breaks no rule of a pipeline. Contracts see the plan.
#[derive(Debug, Drop)]
pub struct Graph {
    plan: Plan,
    facts: List<NodeFacts>,
    // Of each node, by its number.
    followers: List<List<u32>>,
}

impl Model for Graph {
    ghost use Rattle.beam_values.specs.declared.plan.Plan.{Plan};
    ghost use Rattle.pipeline_graph.specs.Indexes.{IsGraph};

    ghost Value = { Plan };

    ghost view = { λ g. g.plan };

    ghost invariant = { λ g. IsGraph g.plan g.facts g.followers };
}

impl Graph {
    /// A refusal is the first rule that the plan breaks: it has no node or too many; then, node after
    /// node, a source has an input, a node has too few inputs or too many, an input isn't a lower node,
    /// an input is a Write, or a setting isn't allowed; or it has no Write.
    pub fn check(alloc: Global, plan: Plan) -> Result<Graph, CheckRefusal>
        ensures same { IfOk result (λ graph. graph ≡ plan) }
        ensures checked { OnOk result (IsChecked plan) }
        ensures refused { IfErr result (IsFirst (graph_refusal plan)) }
    {
        let facts = check_plan(alloc, &plan)?;
        let followers = index_followers(alloc, plan.nodes.as_slice())?;
        Ok(Graph {
            plan,
            facts,
            followers,
        })
    }

    /// The plan that was checked.
    pub fn plan(&self) -> &Plan
        ensures value { result.now ≡ self.now }
        ensures checked { IsChecked self.now }
    {
        &self.plan
    }

    /// Gives the plan away. Takes no memory.
    pub fn into_plan(self) -> Plan
        ensures value { result ≡ self }
        ensures checked { IsChecked self }
    {
        let Graph { plan, .. } = self;
        plan
    }

    /// The nodes that name this one as an input, ascending, and as often as they name it.
    pub fn followers(&self, node: u32) -> &[u32]
        requires { node < length self.now.nodes }
        ensures value { result.now ≡ followers_of self.now node }
        ensures checked { IsChecked self.now }
    {
        self.followers.as_slice()[node as usize].as_slice()
    }

    /// The strategy of the windows of the elements that come to a node. A WindowInto has its own.
    pub fn strategy(&self, node: u32) -> &Strategy
        requires { node < length self.now.nodes }
        ensures { result.now ≡ strategy_of self.now node }
    {
        let facts = &self.facts.as_slice()[node as usize];
        &facts.strategy
    }

    /// Copies the plan and what is known of it, and checks nothing anew.
    pub fn copy(&self, alloc: Global) -> Result<Graph, NoMemory>
        ensures { IfOk result (λ graph. graph ≡ self.now) }
    {
        Ok(Graph {
            plan: self.plan.copy(alloc)?,
            facts: List::from_slice(alloc, self.facts.as_slice())?,
            followers: self.followers.duplicate(alloc)?,
        })
    }
}
