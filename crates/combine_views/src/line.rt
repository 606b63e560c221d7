ghost use Rattle.std.specs.Prelude.{◌≡◌, ◌<◌, ◌∷◌, [], length, IfOk, IfSome, OnErr};
ghost use Rattle.std.specs.Bool.{OnFalse, OnTrue};
ghost use Rattle.beam_model.specs.Spread.{emission_outputs};
ghost use Rattle.combine_views.specs.Lines.{AreAtBarrier, HasAdded, HasTaken, emission_of_line};
ghost use Rattle.combine_views.specs.Lines.{HasAddedSome, HasTakenSome};
ghost use Rattle.combine_views.specs.Seen.{element_seen};
ghost use Rattle.combine_views.specs.Told.{elements_told};

use crate::Seen;
use crate::passing::brought_by_text;
use crate::told::Told;
use crate::word_parts::add_words;
use beam_lines::{TimedLine, timed_line};
use beam_values::{NoMemory, SourceKind, Time};
use combine_lift::{Combiner, Partials};
use pipeline_graph::Graph;
use std::alloc::Global;

/// The most parts that a table stands for.
pub const MOST_PARTS: u64 = i64::MAX as u64;

/// Adds what a line of a source brings to the Group, where views tell that, and answers whether they do. Where
/// they don't, and where its part isn't taken, the table stays as it is. For want of memory the first of its
/// words are added, maybe none, and not all.
pub fn add_line<C: Combiner>(
    alloc: Global,
    graph: &Graph,
    source: u32,
    work: SourceKind,
    line: &[u8],
    partials: &mut Partials<C>,
) -> Result<bool, NoMemory>
    requires { source < length graph.now.nodes }
    ensures added { IfOk result (λ known. OnTrue known (HasAdded C.stands
        (emission_outputs graph.now source (emission_of_line work line.now))
        partials.old partials.new)) }
    ensures kept { IfOk result (λ known. OnFalse known (partials.new ≡ partials.old)) }
    ensures err { OnErr result (HasAddedSome C.stands
        (emission_outputs graph.now source (emission_of_line work line.now))
        partials.old partials.new) }
{
    match brought(graph, source, work, line) {
        Some(told) => add_told(alloc, &told, partials),
        None => Ok(false),
    }
}

/// What a line of a source brings to the Group.
fn brought<'a>(graph: &Graph, source: u32, work: SourceKind, line: &'a [u8]) -> Option<Told<'a>>
    requires { source < length graph.now.nodes }
    ensures { IfSome result (λ told. AreAtBarrier
        (emission_outputs graph.now source (emission_of_line work line.now)) (elements_told told)) }
{
    match work {
        SourceKind::Lines => brought_by_text(graph, source, line, Time::LEAST),
        SourceKind::TimedLines => match timed_line(line) {
            TimedLine::Timed(time, text) => brought_by_text(graph, source, text, time),
            TimedLine::Declared(_) => Some(Told::Nothing),
            TimedLine::Poison => None,
        },
        SourceKind::Count | SourceKind::Made => None,
    }
}

/// Adds the parts of the elements that are told.
fn add_told<C: Combiner>(
    alloc: Global,
    told: &Told<'_>,
    partials: &mut Partials<C>,
) -> Result<bool, NoMemory>
    ensures added { IfOk result (λ known. OnTrue known (HasTaken C.stands
        (elements_told told.now) partials.old partials.new)) }
    ensures kept { IfOk result (λ known. OnFalse known (partials.new ≡ partials.old)) }
    ensures err { OnErr result (HasTakenSome C.stands
        (elements_told told.now) partials.old partials.new) }
{
    match told {
        Told::Nothing => Ok(true),
        Told::One(seen) => add_seen(alloc, seen, partials),
        Told::Words(text, each) => add_words(alloc, text, each, partials),
    }
}

/// Adds the part of an element that arrives.
fn add_seen<C: Combiner>(
    alloc: Global,
    seen: &Seen<'_>,
    partials: &mut Partials<C>,
) -> Result<bool, NoMemory>
    ensures added { IfOk result (λ known. OnTrue known (HasTaken C.stands
        (element_seen seen.now ∷ []) partials.old partials.new)) }
    ensures kept { IfOk result (λ known. OnFalse known (partials.new ≡ partials.old)) }
    ensures err { OnErr result (partials.new ≡ partials.old) }
{
    if partials.parts() >= MOST_PARTS {
        return Ok(false);
    }
    let Some((key, part)) = seen.keyed() else {
        return Ok(false);
    };
    partials.add(alloc, key, seen.span, part)
}
