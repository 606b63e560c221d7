//! Two passes of one table.

ghost use Rattle.std.specs.Prelude.{◌≡◌, [], ◌∷◌, IfOk, None, true, false};
ghost use Rattle.beam_model.specs.Positions.{items};
ghost use Rattle.turn_desk.specs.Notes.{size_of};
ghost use Rattle.book_core.specs.Runs.{AreLengthsOf, Reached};
ghost use Rattle.known_jobs.specs.Calls.{IsFreshJob};
ghost use Rattle.worker_table.specs.Passes.{IsOf, entry_of, note_of_pass, setting_of, slot_of};

use beam_values::{
    Args, Bytes, Cause, Estimator, FileLen, List, NoMemory, Node, NodeKind, Options, Plan,
    SourceKind, StopCause,
};
use book_core::{Book, Taken};
use bundle_commit::Job;
use pipeline_graph::Graph;
use std::alloc::Global;
use std::sync::Wait;
use std::test::Fail;
use worker_table::{Table, WorkerPass};

// A file whose lines are written.
fn lines(alloc: Global) -> Result<Plan, NoMemory>
    ensures { IfOk result
        (λ plan. AreLengthsOf (items [] plan) (record { node = 0; item = 0; len = 10 } ∷ [])) }
{
    let mut nodes = List::new(alloc);
    let mut files = List::new(alloc);
    files.push(Bytes::from_slice(alloc, b"f")?)?;
    nodes.push(Node {
        kind: NodeKind::Source {
            work: SourceKind::TimedLines,
            args: Args::Nothing,
            files,
            estimator: Estimator::Monotonic,
        },
        inputs: List::new(alloc),
    })?;
    nodes.push(Node {
        kind: NodeKind::Write {
            label: Bytes::new(alloc),
        },
        inputs: List::from_slice(alloc, &[0])?,
    })?;
    Ok(Plan { version: 1, nodes })
}

// The book of a file of ten bytes.
#[tactic(auto, using(worker_table::proofs::Opened::opening_reached))]
fn open_book(alloc: Global) -> Result<Book, Fail>
    ensures reached { IfOk result (Reached None) }
    ensures slots { IfOk result (λ book. book.slots ≡ []) }
{
    let Ok(graph) = Graph::check(alloc, lines(alloc)?) else {
        return Err("refused".into());
    };
    let mut files = List::new(alloc);
    files.push(FileLen {
        node: 0,
        item: 0,
        len: 10,
    })?;
    Ok(Book::opening(alloc, graph, files, Options::DEFAULT)?)
}

// A table of that book.
fn open_table(alloc: Global) -> Result<(Table, WorkerPass), Fail>
    ensures table { IfOk result (λ r. IsOf r.0 r.1) }
    ensures loose { IfOk result (λ r. (setting_of r.0).known.strict ≡ false) }
    ensures free { IfOk result (λ r. (note_of_pass r.1).free ≡ 4294967295) }
    ensures all { IfOk result (λ r. size_of (note_of_pass r.1) ≡ 4294967296) }
{
    Ok(Table::new(alloc, open_book(alloc)?)?)
}

// A job that may fail: none is a spent piece.
fn is_fresh(job: &Job) -> bool
    ensures { result ≡ true → IsFreshJob job.now }
{
    match job {
        Job::Span { piece } => piece.spent.is_none(),
        Job::Batch { .. } => true,
        Job::Key { .. } => true,
    }
}

// Takes a job, if there is one, and fails it; then no job is given out any more.
fn fail_and_stop<R: Wait>(rt: &R, table: &Table, mut pass: WorkerPass) -> WorkerPass
    requires table { IsOf table.now pass }
    requires loose { (setting_of table.now).known.strict ≡ false }
    requires slot { slot_of pass ≡ None }
    requires owes { (entry_of pass).owes_split ≡ false }
    ensures table { IsOf table.now result }
    ensures size { size_of (note_of_pass result) ≡ size_of (note_of_pass pass) }
{
    if table.enroll(rt, &mut pass).is_ok() {
        if let Ok(Taken::Job(job)) = table.take_job(rt, &mut pass)
            && is_fresh(&job)
        {
            let _failure = table.fail(rt, &mut pass, 0, Cause::Call);
        }
    }
    table.stop(rt, &mut pass);
    pass
}

#[test]
fn a_pass_fails_a_job_and_stops_the_book(rt: HostRuntime) -> Result<(), Fail> {
    let alloc = rt.alloc();
    let (table, mut first) = open_table(alloc)?;
    let second = table.split_pass(&mut first);
    let second = fail_and_stop(&rt, &table, second);
    table.join_pass(&mut first, second);
    let outcome = table.close(first).outcome()?;
    assert!(rt; matches!(outcome.stopped, Some(StopCause::NoMemory)));
    Ok(())
}
