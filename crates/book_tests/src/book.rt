//! A run over one file, worked by hand: lines in windows of a minute are grouped and written.

ghost use Rattle.std.specs.Prelude.{◌≡◌, ℕ, ◌≤◌, ◌≤ℤ◌, ◌+ℤ◌, true, false, [], ◌∷◌, map, IfOk};
ghost use Rattle.std.specs.Prelude.{IfSome, OnOk, None};
ghost use Rattle.std.specs.List.{All};
ghost use Rattle.beam_model.specs.Chains.{Arrives, chain};
ghost use Rattle.beam_model.specs.Positions.{items};
ghost use Rattle.beam_model.specs.Reach.{reaches_barrier};
ghost use Rattle.beam_values.specs.Intervals.{Interval};
ghost use Rattle.beam_values.specs.Nodes.{strategy_of};
ghost use Rattle.beam_values.specs.Strategies.{greatest_length};
ghost use Rattle.beam_values.specs.Times.{greatest_time};
ghost use Rattle.beam_values.specs.declared.element.Element.{Element};
ghost use Rattle.group_cells.specs.Commits.{HasLength};
ghost use Rattle.book_core.specs.Runs.{AreLengthsOf};
ghost use Rattle.book_core.specs.Steps.{IsFree};
ghost use Rattle.book_core.specs.Work.{is_known};

use beam_values::{
    Args, Arrival, Bytes, Element, Estimator, FileLen, List, Mode, NoMemory, Node, NodeKind,
    Options, Pane, PaneTag, Piece, Plan, Range, SourceKind, Span, Strategy, Time, Timing, Trigger,
    Value,
};
use book_core::{Book, Taken};
use bundle_commit::{Job, Receipt};
use pipeline_graph::Graph;
use std::alloc::Global;
use std::test::Fail;

// A file, whose lines tell how far it has come, windows of a minute, a Group and a Write.
fn minutes(alloc: Global) -> Result<Plan, NoMemory>
    ensures unknown { IfOk result (λ plan. is_known None plan 0 ≡ false) }
    ensures reaches { IfOk result (λ plan. reaches_barrier plan 0 2 ≡ true) }
    ensures fixed { IfOk result (λ plan. (span : Interval) → HasLength (strategy_of plan 2) span) }
    ensures onward { IfOk result
        (λ plan. (e : Element) → chain plan 2 e ≡ Arrives (record { node = 3; element = e }) ∷ []) }
    ensures lengths { IfOk result
        (λ plan. AreLengthsOf (items [] plan) (record { node = 0; item = 0; len = 10 } ∷ [])) }
{
    let mut nodes = List::new(alloc);
    let mut files = List::new(alloc);
    files.push(Bytes::from_slice(alloc, b"f")?)?;
    nodes.push(Node {
        kind: NodeKind::Source {
            work: SourceKind::TimedLines,
            args: Args::Nothing,
            files,
            estimator: Estimator::Monotonic,
        },
        inputs: List::new(alloc),
    })?;
    nodes.push(Node {
        kind: NodeKind::WindowInto {
            strategy: Strategy::Fixed { size: 60_000 },
        },
        inputs: List::from_slice(alloc, &[0])?,
    })?;
    nodes.push(Node {
        kind: NodeKind::Group {
            trigger: Trigger {
                early: None,
                late: 1,
                lateness: 0,
                mode: Mode::Discarding,
                early_bars: List::new(alloc),
                late_bars: List::new(alloc),
            },
        },
        inputs: List::from_slice(alloc, &[1])?,
    })?;
    nodes.push(Node {
        kind: NodeKind::Write {
            label: Bytes::new(alloc),
        },
        inputs: List::from_slice(alloc, &[2])?,
    })?;
    Ok(Plan { version: 1, nodes })
}

// A number at the start of a minute, which comes to the Group.
fn number(minute: u32, n: i64) -> Result<Arrival, Fail>
    ensures at { IfOk result (λ arrival. arrival.node ≡ 2) }
    ensures ends { IfOk result
        (λ arrival. arrival.element.span.end ≤ℤ (greatest_time +ℤ greatest_length)) }
    ensures time { IfOk result (λ arrival. arrival.element.time ≤ℤ greatest_time) }
{
    let start = i64::from(minute) * 60_000;
    Ok(Arrival {
        node: 2,
        element: Element {
            value: Value::Int(n),
            time: Time::new(start).ok_or("no time")?,
            span: Span::between(start, start + 60_000),
            pane: PaneTag {
                timing: Timing::Unknown,
                index: 0,
            },
        },
    })
}

fn range_in(taken: &Taken) -> Option<Piece>
    ensures { IfSome result (λ piece. taken.now ≡ Taken.Job (Job.Span piece)) }
{
    match taken {
        Taken::Job(Job::Span { piece }) => Some(*piece),
        _ => None,
    }
}

fn fits(piece: &Piece, last: u64, seen: Time) -> bool
    ensures node { result ≡ true → piece.now.node ≡ 0 }
    ensures fresh { result ≡ true → piece.now.spent ≡ None }
    ensures from { result ≡ true → piece.now.range.from ≤ last }
    ensures seen { result ≡ true → piece.now.seen ≤ℤ seen }
    ensures time { seen ≤ℤ greatest_time }
{
    let ms = seen.ms();
    piece.node == 0 && piece.spent.is_none() && piece.range.from() <= last && piece.seen.ms() <= ms
}

fn batch_in(taken: Taken) -> Option<(u32, List<Pane>)>
    ensures { IfSome result (λ batch. (first : ℕ) × (attempts : ℕ)
        × (taken ≡ Taken.Job (Job.Batch batch.0 first batch.1 attempts))) }
{
    match taken {
        Taken::Job(job) => match job {
            Job::Batch { node, panes, .. } => Some((node, panes)),
            _ => None,
        },
        _ => None,
    }
}

// Takes a range, attempts this position and commits: up to it these numbers came, and this was seen.
fn work_range(
    book: &mut Book,
    slot: u32,
    last: u64,
    arrivals: List<Arrival>,
    seen: Time,
) -> Result<Range, Fail>
    requires free { IsFree book.old slot }
    requires unknown { is_known None book.old.plan 0 ≡ false }
    requires reaches { reaches_barrier book.old.plan 0 2 ≡ true }
    requires fixed { (span : Interval) → HasLength (strategy_of book.old.plan 2) span }
    requires at { All (λ arrival. arrival.node ≡ 2) arrivals }
    requires ends { All
        (λ arrival. arrival.element.span.end ≤ℤ (greatest_time +ℤ greatest_length)) arrivals }
    requires times { All (λ arrival. arrival.element.time ≤ℤ greatest_time) arrivals }
    ensures free { OnOk result (IsFree book.new slot) }
    ensures plan { OnOk result (book.new.plan ≡ book.old.plan) }
{
    let taken = book.take(slot)?;
    let Some(piece) = range_in(&taken) else {
        return Err("no range".into());
    };
    if !fits(&piece, last, seen) {
        return Err("another range".into());
    }
    let _ = book.claim(slot, last);
    let receipt = Receipt {
        arrivals,
        seen,
        logged: None,
    };
    let Ok(()) = book.commit(slot, receipt) else {
        return Err("no memory".into());
    };
    Ok(piece.range)
}

// Takes a batch of the Group's panes, and writes their elements. Answers how many.
fn pass_on(alloc: Global, book: &mut Book, slot: u32) -> Result<usize, Fail>
    requires free { IsFree book.old slot }
    requires onward { (e : Element)
        → chain book.old.plan 2 e ≡ Arrives (record { node = 3; element = e }) ∷ [] }
    ensures free { OnOk result (IsFree book.new slot) }
    ensures plan { OnOk result (book.new.plan ≡ book.old.plan) }
{
    let Some((node, panes)) = batch_in(book.take(slot)?) else {
        return Err("no batch".into());
    };
    if node != 2 {
        return Err("another batch".into());
    }
    let count = panes.len();
    let receipt = Receipt {
        arrivals: written(alloc, panes)?,
        seen: Time::LEAST,
        logged: None,
    };
    let Ok(()) = book.commit(slot, receipt) else {
        return Err("no memory".into());
    };
    Ok(count)
}

fn written(alloc: Global, panes: List<Pane>) -> Result<List<Arrival>, NoMemory>
    ensures { IfOk result
        (λ arrivals. arrivals ≡ map (λ pane. record { node = 3; element = pane.element }) panes) }
{
    let mut arrivals = List::new(alloc);
    for pane in panes.into_vec() {
        arrivals.push(Arrival {
            node: 3,
            element: pane.element,
        })?;
    }
    Ok(arrivals)
}

// The book of a file of ten bytes.
fn open_book(alloc: Global) -> Result<Book, Fail>
    ensures unknown { IfOk result (λ book. is_known None book.plan 0 ≡ false) }
    ensures reaches { IfOk result (λ book. reaches_barrier book.plan 0 2 ≡ true) }
    ensures fixed { IfOk result
        (λ book. (span : Interval) → HasLength (strategy_of book.plan 2) span) }
    ensures onward { IfOk result (λ book. (e : Element)
        → chain book.plan 2 e ≡ Arrives (record { node = 3; element = e }) ∷ []) }
{
    let Ok(graph) = Graph::check(alloc, minutes(alloc)?) else {
        return Err("refused".into());
    };
    let mut files = List::new(alloc);
    files.push(FileLen {
        node: 0,
        item: 0,
        len: 10,
    })?;
    Ok(Book::opening(alloc, graph, files, Options::DEFAULT)?)
}

fn enter(book: &mut Book) -> Result<u32, Fail>
    ensures free { IfOk result (λ slot. IsFree book.new slot) }
    ensures plan { OnOk result (book.new.plan ≡ book.old.plan) }
{
    Ok(book.enroll()?)
}

// A bundle reads up to position 4, and has seen 70000: the first minute is over and fires. The next one
// reads the rest, and nothing holds the second minute back.
#[test]
fn two_minutes_of_a_file_are_grouped_and_written(rt: HostRuntime) -> Result<(), Fail> {
    let alloc = rt.alloc();
    let mut book = open_book(alloc)?;
    let slot = enter(&mut book)?;
    let mut numbers = List::new(alloc);
    numbers.push(number(0, 7)?)?;
    numbers.push(number(1, 8)?)?;
    let seen = Time::new(70_000).ok_or("no time")?;
    let range = work_range(&mut book, slot, 4, numbers, seen)?;
    assert_eq!(rt; (range.from(), range.to(), book.fired()), (0, 10, 1));
    assert_eq!(rt; pass_on(alloc, &mut book, slot)?, 1);
    let range = work_range(&mut book, slot, 10, List::new(alloc), seen)?;
    assert_eq!(rt; (range.from(), range.to(), book.fired()), (5, 10, 2));
    assert_eq!(rt; pass_on(alloc, &mut book, slot)?, 1);
    let last = book.take(slot)?;
    assert!(rt; matches!(&last, Taken::Finished));
    let outcome = book.outcome()?;
    for (at, from, to) in [(0, 0, 5), (1, 5, 10)] {
        let done = outcome.done.get(at).ok_or("no range")?;
        assert_eq!(rt; (done.range.from(), done.range.to()), (from, to));
    }
    for (at, time, commit) in [(0, 59_999, 1), (1, 119_999, 3)] {
        let pane = outcome.panes.get(at).ok_or("no pane")?;
        assert_eq!(rt; (pane.element.time.ms(), pane.commit), (time, commit));
        let arrival = outcome.written.get(at).ok_or("not written")?;
        assert_eq!(rt; (arrival.node, arrival.element.time.ms()), (3, time));
    }
    for (at, mark_in, mark_out) in [
        (0, Time::LEAST_MS, Time::LEAST_MS),
        (1, 70_000, 59_999),
        (2, 70_000, 70_000),
        (3, i64::MAX, 119_999),
        (4, i64::MAX, i64::MAX),
    ] {
        let commit = outcome.commits.get(at).ok_or("no commit")?;
        let group = commit.marks.get().get(2).ok_or("no Group")?;
        assert_eq!(rt;
            (group.mark_in.ms(), group.mark_out.ms()),
            (mark_in, mark_out)
        );
    }
    assert_eq!(rt;
        (
            outcome.commits.len(),
            outcome.cells.len(),
            outcome.dropped.len()
        ),
        (5, 2, 0)
    );
    Ok(())
}
