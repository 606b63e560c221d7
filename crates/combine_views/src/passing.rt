ghost use Rattle.std.specs.Prelude.{◌≡◌, ◌<◌, ◌∷◌, [], ℕ, IfSome, length, List as ListOf};
ghost use Rattle.beam_values.specs.Strategies.{IsAllowed};
ghost use Rattle.beam_values.specs.Windows.{windows_of};
ghost use Rattle.beam_model.specs.Chains.{chain};
ghost use Rattle.beam_model.specs.Positions.{emits_one};
ghost use Rattle.beam_model.specs.Spread.{emission_outputs};
ghost use Rattle.beam_model.specs.Values.{blob};
ghost use Rattle.pipeline_graph.specs.Rules.{HasSettings};
ghost use Rattle.combine_views.specs.Lines.{AreAtBarrier};
ghost use Rattle.combine_views.specs.Passing.{GoesOn, PutsOut};
ghost use Rattle.combine_views.specs.Seen.{element_seen};
ghost use Rattle.combine_views.specs.Told.{elements_told};
ghost use Rattle.combine_views.specs.Words.{AreWordsAtBarrier, IsWord, element_of_word};

use crate::Seen;
use crate::calls::given;
use crate::each_word::{EachWord, given_of_each};
use crate::seen::all_of_time;
use crate::told::Told;
use beam_values::{NodeKind, Span, Strategy, Time};
use pipeline_graph::Graph;
use pipeline_graph::laws::{
    chains_go_by_followers, followers_name_the_node, nodes_have_inputs_and_settings_of_their_kind,
};
use windowing::fixed_window;

/// What a text that a source emits brings.
pub fn brought_by_text<'a>(
    graph: &Graph,
    source: u32,
    text: &'a [u8],
    time: Time,
) -> Option<Told<'a>>
    requires { source < length graph.now.nodes }
    ensures { IfSome result (λ told. AreAtBarrier
        (emission_outputs graph.now source (emits_one (blob text.now) time)) (elements_told told)) }
{
    at_group(graph, source, &Seen::from_source(text, time))
}

/// What an element that a node puts out brings to the Group, where each node on its way has one follower.
fn at_group<'a>(graph: &Graph, from: u32, seen: &Seen<'a>) -> Option<Told<'a>>
    requires { from < length graph.now.nodes }
    ensures { IfSome result (λ told.
        AreAtBarrier (chain graph.now from (element_seen seen.now)) (elements_told told)) }
{
    let Some((next, kind)) = only_follower(graph, from) else {
        return None;
    };
    match kind {
        NodeKind::Group { .. } => Some(Told::One(seen.again())),
        _ => match passed(kind, seen) {
            Some(Told::Nothing) => Some(Told::Nothing),
            Some(Told::One(passed)) => at_group(graph, next, &passed),
            Some(Told::Words(text, each)) => match words_at_group(graph, next, &each) {
                Some(there) => Some(Told::Words(text, there)),
                None => None,
            },
            None => None,
        },
    }
}

/// What each word that a node puts out brings to the Group, where that is made of each in the same way.
fn words_at_group(graph: &Graph, from: u32, each: &EachWord) -> Option<EachWord>
    requires { from < length graph.now.nodes }
    ensures { IfSome result (AreWordsAtBarrier graph.now from each.now) }
{
    let Some((next, kind)) = only_follower(graph, from) else {
        return None;
    };
    match kind {
        NodeKind::Group { .. } => Some(*each),
        _ => match passed_of_each(kind, each) {
            Some(passed) => words_at_group(graph, next, &passed),
            None => None,
        },
    }
}

/// The node to which all goes on that a node puts out, where it has one follower, and its kind.
fn only_follower(graph: &Graph, from: u32) -> Option<(u32, &NodeKind)>
    requires { from < length graph.now.nodes }
    ensures { IfSome result (λ next. GoesOn graph.now from next.0 next.1.now) }
{
    chains_go_by_followers();
    followers_name_the_node();
    nodes_have_inputs_and_settings_of_their_kind();
    let [follower] = graph.followers(from) else {
        return None;
    };
    let next = *follower;
    Some((next, &graph.plan().nodes.as_slice()[next as usize].kind))
}

/// What a node of this kind puts out of an element.
fn passed<'a>(kind: &NodeKind, seen: &Seen<'a>) -> Option<Told<'a>>
    requires { HasSettings kind.now }
    ensures { IfSome result (λ told.
        PutsOut kind.now (element_seen seen.now) (elements_told told)) }
{
    match kind {
        NodeKind::ParDo { work, args } => given(*work, args, seen),
        NodeKind::Flatten => Some(Told::One(seen.again())),
        NodeKind::WindowInto { strategy } => match only_window(strategy, seen.time) {
            Some(span) => Some(Told::One(Seen { span, ..*seen })),
            None => None,
        },
        _ => None,
    }
}

/// What a node of this kind puts out of each word, where that is one element, made of each in the same way.
fn passed_of_each(kind: &NodeKind, each: &EachWord) -> Option<EachWord>
    requires { HasSettings kind.now }
    ensures { IfSome result (λ passed. (word : ListOf ℕ) → IsWord word
        → PutsOut kind.now (element_of_word each.now word) (element_of_word passed word ∷ [])) }
{
    match kind {
        NodeKind::ParDo { work, args } => given_of_each(*work, args, each),
        NodeKind::Flatten => Some(*each),
        NodeKind::WindowInto { strategy } => match only_window(strategy, each.time) {
            Some(span) => Some(EachWord { span, ..*each }),
            None => None,
        },
        _ => None,
    }
}

/// The window of a time, by a strategy that gives each time one.
fn only_window(strategy: &Strategy, time: Time) -> Option<Span>
    requires { IsAllowed strategy.now }
    ensures { IfSome result (λ window. windows_of strategy.now time ≡ window ∷ []) }
{
    match strategy {
        Strategy::Global => Some(all_of_time()),
        Strategy::Fixed { size } => Some(fixed_window(*size, time)),
        _ => None,
    }
}
