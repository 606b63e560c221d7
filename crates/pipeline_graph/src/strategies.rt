ghost use Rattle.std.specs.Prelude.{◌≡◌};
ghost use Rattle.beam_values.specs.Checked.{is_kept, is_same_strategy, is_session};
ghost use Rattle.beam_values.specs.Nodes.{first_strategy};
ghost use Rattle.pipeline_graph.specs.Settings.{agrees_in};

use beam_values::Strategy;
use windowing::{NodeFacts, facts_at, first_strategy};

/// Whether what these inputs put out is of one strategy.
pub(crate) fn agrees(facts: &[NodeFacts], inputs: &[u32]) -> bool
    ensures { result ≡ agrees_in facts.now inputs.now }
{
    let first = first_strategy(facts, inputs);
    inputs
        .iter()
        .all(|input| is_same(facts_at(facts, *input).onward, first))
}

fn is_same(a: Strategy, b: Strategy) -> bool
    ensures { result ≡ is_same_strategy a b }
{
    a == b
}

pub(crate) fn is_kept(strategy: &Strategy) -> bool
    ensures { result ≡ is_kept strategy.now }
{
    matches!(strategy, Strategy::Kept)
}

/// Whether the first of these inputs puts out sessions.
pub(crate) fn takes_sessions(facts: &[NodeFacts], inputs: &[u32]) -> bool
    ensures { result ≡ is_session (first_strategy facts.now inputs.now) }
{
    matches!(first_strategy(facts, inputs), Strategy::Sessions { .. })
}
