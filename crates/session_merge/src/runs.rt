ghost use Rattle.std.specs.Prelude.{◌≡◌, ◌≤◌, ◌<◌, ◌≤ℤ◌, ◌<ℤ◌, ◌∷◌, ◌++◌, length, take, drop};
ghost use Rattle.std.specs.Prelude.{slice_range, slice_get, Contains, Some, MatchOption, IfOk};
ghost use Rattle.std.specs.Prelude.{OnOk, OnErr};
ghost use Rattle.std.specs.List.{AllWithin};
ghost use Rattle.beam_values.specs.Sessions.{IsNonEmpty, hull};
ghost use Rattle.session_merge.specs.Merging.{AreApart};
ghost use Rattle.session_merge.specs.Runs.{IsRun, IsHull, IsMerge};

use beam_values::{List, NoMemory, Span};
use std::alloc::Global;

/// What came of a window that was inserted.
#[derive(Debug, Drop)]
pub struct Merged {
    /// The window that it was merged into, which is listed from now on.
    pub span: Span,
    /// The windows that were merged with it and are listed no more, ascending.
    pub absorbed: List<Span>,
}

/// The places of some windows in a row.
#[derive(Clone, Copy)]
struct Run {
    start: usize,
    end: usize,
}

/// Puts a window in the place of those that it overlaps, grown so that it holds them.
pub fn merge_into(alloc: Global, spans: &mut Vec<Span>, span: Span) -> Result<Merged, NoMemory>
    requires { AreApart spans.old.items }
    ensures ok { IfOk result
        (λ merged. IsMerge spans.old.items span merged.absorbed merged.span spans.new.items) }
    ensures err { OnErr result (spans.new.items ≡ spans.old.items) }
{
    let run = overlapped(spans.as_slice(), span);
    let absorbed = List::from_slice(alloc, &spans[run.start..run.end])?;
    let merged = hull_of(span, absorbed.as_slice());
    put_over(spans, run, merged)?;
    Ok(Merged {
        span: merged,
        absorbed,
    })
}

/// The place of a window, if it is listed.
pub fn place_of(spans: &[Span], span: Span) -> Option<usize>
    requires { AreApart spans.now }
    ensures { MatchOption result (Contains spans.now span → ⊥)
        (λ at. (at < length spans.now) × (slice_get spans.now at ≡ Some span)) }
{
    let at = count_ended(spans, span);
    if at < spans.len() && spans[at] == span {
        Some(at)
    } else {
        None
    }
}

/// Where the windows stand that a window overlaps. They are one run, since the windows ascend.
fn overlapped(spans: &[Span], span: Span) -> Run
    requires { AreApart spans.now }
    ensures some { IsNonEmpty span }
    ensures ordered { result.start ≤ result.end }
    ensures within { result.end ≤ length spans.now }
    ensures run { IsRun spans.now span (take result.start spans.now)
        (slice_range spans.now result.start result.end) (drop result.end spans.now) }
{
    Run {
        start: count_ended(spans, span),
        end: count_begun(spans, span),
    }
}

/// How many of the windows end by the start of another.
fn count_ended(spans: &[Span], span: Span) -> usize
    requires { AreApart spans.now }
    ensures some { IsNonEmpty span }
    ensures bound { result ≤ length spans.now }
    ensures ended { AllWithin (λ w. w.end ≤ℤ span.start) spans.now 0 result }
    ensures later { AllWithin (λ w. span.start <ℤ w.end) spans.now result (length spans.now) }
{
    let start = span.start();
    spans.partition_point(|other| other.end() <= start)
}

/// How many of the windows start before the end of another.
fn count_begun(spans: &[Span], span: Span) -> usize
    requires { AreApart spans.now }
    ensures bound { result ≤ length spans.now }
    ensures begun { AllWithin (λ w. w.start <ℤ span.end) spans.now 0 result }
    ensures later { AllWithin (λ w. span.end ≤ℤ w.start) spans.now result (length spans.now) }
{
    let end = span.end();
    spans.partition_point(|other| other.start() < end)
}

/// The least window that holds a window and a run of windows.
fn hull_of(span: Span, run: &[Span]) -> Span
    requires { AreApart run.now }
    ensures { IsHull span run.now result }
{
    match (run.first(), run.last()) {
        (Some(first), Some(last)) => hull(hull(span, *first), *last),
        _ => span,
    }
}

fn hull(a: Span, b: Span) -> Span
    ensures { result ≡ hull a b }
{
    Span::between(a.start().min(b.start()), a.end().max(b.end()))
}

/// Puts a window in the place of a run.
fn put_over(spans: &mut Vec<Span>, run: Run, merged: Span) -> Result<(), NoMemory>
    requires ordered { run.start ≤ run.end }
    requires within { run.end ≤ length spans.old.items }
    ensures ok { OnOk result (spans.new.items
        ≡ take run.start spans.old.items ++ merged ∷ drop run.end spans.old.items) }
    ensures err { OnErr result (spans.new.items ≡ spans.old.items) }
{
    if run.start == run.end {
        spans.insert(run.start, merged)?;
    } else {
        spans[run.start] = merged;
        spans.drain(run.start + 1..run.end);
    }
    Ok(())
}
