ghost use Rattle.std.specs.Prelude.{◌≡◌, ℤ, pos, negsuc, ◌≤ℤ◌, true, false, MatchOption, IfOk};
ghost use Rattle.std.specs.List.{All};
ghost use Rattle.std.specs.List.Sorted.{IsSorted};
ghost use Rattle.beam_values.specs.Grouping.{key_of};
ghost use Rattle.beam_values.specs.Elements.{element_cmp};
ghost use Rattle.beam_values.specs.declared.plan.Strategy.TheVariants.{Sessions};
ghost use Rattle.beam_model.specs.Plain.{IsGroupedBy};
ghost use Rattle.beam_values.specs.Sessions.{Overlaps, LiesIn, hull, IsSession};
ghost use Rattle.beam_model.specs.Sessions.{IsMerging, is_keyed};
ghost use Rattle.plain_model.specs.Sessions.{IsSettled, IsOneOf, IsPart, spans_with, IsInSession};

use crate::cell::is_keyed_alike;
use crate::grouping::plain_panes;
use beam_values::{Element, List, NoMemory, Span, Strategy};
use std::alloc::Global;

/// The panes of a whole list of elements under a strategy (Beam Programming Guide, GroupByKey): of
/// sessions those of the merged windows, and else those of the windows as they are. The panes ascend.
pub fn grouped(
    alloc: Global,
    strategy: &Strategy,
    elements: List<Element>,
) -> Result<List<Element>, NoMemory>
    ensures plain { IfOk result (IsGroupedBy strategy.now elements) }
    ensures ascending { IfOk result (IsSorted element_cmp) }
{
    match strategy {
        Strategy::Sessions { .. } => plain_sessions(alloc, elements),
        Strategy::Global | Strategy::Fixed { .. } | Strategy::Sliding { .. } | Strategy::Kept => {
            plain_panes(alloc, elements)
        }
    }
}

/// Groups a whole list of elements after the overlapping windows of each key are merged (Beam
/// Programming Guide, Session windows). The panes ascend.
pub fn plain_sessions(alloc: Global, elements: List<Element>) -> Result<List<Element>, NoMemory>
    ensures plain { IfOk result (λ panes. (gap : ℤ) → IsGroupedBy (Sessions gap) elements panes) }
    ensures ascending { IfOk result (IsSorted element_cmp) }
{
    let sessioned = in_sessions(alloc, elements.as_slice())?;
    plain_panes(alloc, sessioned)
}

/// Each element with the session of its key that its window lies in.
fn in_sessions(alloc: Global, elements: &[Element]) -> Result<List<Element>, NoMemory>
    ensures { IfOk result (IsMerging elements.now) }
{
    let mut sessioned = Vec::with_capacity(alloc, elements.len())?;
    for element in elements {
        let span = session_of(element, elements, sessioned.as_slice());
        sessioned.push(Element {
            value: element.value.copy(alloc)?,
            time: element.time,
            span,
            pane: element.pane,
        })?;
    }
    Ok(List::from_vec(sessioned))
}

/// The session of an element, from an earlier one of the session if there is one.
fn session_of(element: &Element, elements: &[Element], sessioned: &[Element]) -> Span
    requires own { IsOneOf (spans_with element.now elements.now) element.now.span }
    requires known { All (IsInSession elements.now) sessioned.now }
    ensures session { IsSession (spans_with element.now elements.now) result }
    ensures within { LiesIn element.now.span result }
{
    for earlier in sessioned {
        if lies_in(element.span, earlier.span) && is_keyed_alike(element, earlier) {
            return earlier.span;
        }
    }
    merged_span(element, elements)
}

/// The window of an element, grown over the windows of its key until none overlaps it.
fn merged_span(element: &Element, elements: &[Element]) -> Span
    requires { IsOneOf (spans_with element.now elements.now) element.now.span }
    ensures session { IsSession (spans_with element.now elements.now) result }
    ensures within { LiesIn element.now.span result }
{
    let mut session = element.span;
    // What is read of the window is that it isn't empty.
    let _start = session.start();
    while let Some(span) = first_extending(session, element, elements) {
        session = hull(session, span);
    }
    session
}

/// The first window of the key of `element` that overlaps the session and doesn't lie in it.
fn first_extending(session: Span, element: &Element, elements: &[Element]) -> Option<Span>
    ensures { MatchOption result (All (IsSettled session) (spans_with element.now elements.now))
        (λ span. IsOneOf (spans_with element.now elements.now) span
        × Overlaps session span × (LiesIn span session → ⊥)) }
{
    for other in elements {
        if extends(session, other.span) && is_keyed_alike(element, other) {
            return Some(other.span);
        }
    }
    None
}

/// A window overlaps a session and doesn't lie in it.
fn extends(session: Span, span: Span) -> bool
    ensures yes { result ≡ true → Overlaps session span × (LiesIn span session → ⊥) }
    ensures no { result ≡ false → IsSettled session span }
{
    session.start() < span.end() && span.start() < session.end() && !lies_in(span, session)
}

fn lies_in(span: Span, session: Span) -> bool
    ensures yes { result ≡ true → LiesIn span session }
    ensures no { result ≡ false → LiesIn span session → ⊥ }
{
    session.start() <= span.start() && span.end() <= session.end()
}

/// The least window in which both lie.
fn hull(a: Span, b: Span) -> Span
    ensures value { result ≡ hull a b }
    ensures low { negsuc 9223372036854775807 ≤ℤ result.start }
    ensures high { result.end ≤ℤ pos 9223372036854775807 }
{
    Span::between(a.start().min(b.start()), a.end().max(b.end()))
}
