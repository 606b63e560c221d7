//! A pipeline that is run with kits, from the opening of its files to the writing of its text.

ghost use Rattle.std.specs.Prelude.{◌≡◌, ◌≤◌, ◌<◌, length, IfOk, IfSome, IsSome, Some, None};
ghost use Rattle.beam_values.specs.declared.outcome.Outcome.{Outcome as OutcomeOf};
ghost use Rattle.beam_ports.specs.Observed.{observed_sink};
ghost use Rattle.book_core.specs.Runs.{AreOptions};
ghost use Rattle.bundle_work.specs.Kits.{EachBecomes};
ghost use Rattle.command_ends.specs.Retrying.{TriesSink};
ghost use Rattle.run_engine.specs.Kits.{KeepsKit};
ghost use Rattle.beam_command.specs.Ends.{IsReport};
ghost use Rattle.beam_command.specs.Kits.{HasNotBegun, IsOutcomeOfOpened, KeepsShelf, TriesUnbegun};
ghost use Rattle.beam_command.specs.Kits.{observed_at};
ghost use Rattle.beam_command.specs.Pipelines.{IsGraphEnd, IsRunPrinted};

use beam_ports::{Gate, Sink, Store};
use beam_text::{render, summary};
use beam_values::{Bytes, NoMemory, Options, Outcome};
use command_ends::written;
use dofn_traits::Shelf;
use pipeline_graph::Graph;
use run_engine::{Kit, RunEnd, Status, open_sources, run_plan};
use std::alloc::Global;
use std::sync::Wait;
use std::thread::Threads;

/// What is printed of a run that came to its end.
#[derive(Clone, Copy)]
pub enum Report {
    /// The rendering of its outcome.
    Rendering,
    /// The summary of its outcome.
    Summary,
}

impl Report {
    fn text(self, alloc: Global, outcome: &Outcome) -> Result<Bytes, NoMemory>
        ensures { IfOk result (λ text. IsReport self outcome.now text) }
    {
        match self {
            Report::Rendering => render(alloc, outcome),
            Report::Summary => summary(alloc, outcome),
        }
    }
}

/// An end without an outcome.
pub fn ended(status: Status) -> RunEnd
    ensures { result ≡ record { status = status; outcome = None } }
{
    RunEnd {
        status,
        outcome: None,
    }
}

/// Runs a pipeline with one worker for each kit, and writes the report of its outcome. The first kit's store
/// has failed `failed` times in this command.
pub fn run_graph<R: Threads + Wait + Sync, F: Shelf, S: Store, W: Sink, G: Gate>(
    rt: &R,
    alloc: Global,
    graph: Graph,
    options: &Options,
    report: Report,
    failed: u32,
    kits: &mut [Kit<F, S>],
    out: &mut W,
    gate: &G,
) -> RunEnd
    requires allowed { AreOptions options.now }
    requires some { 0 < length kits.old }
    requires workers { length kits.old ≤ options.now.workers }
    ensures ends { IsGraphEnd (observed_at F.Shelf S.Store W.Sink kits.old kits.new out.old out.new)
        graph options.now report failed result.status result.outcome }
    ensures outcome { IfSome result.outcome
        (λ o. (o.plan ≡ graph) × IsOutcomeOfOpened S.Store kits.new o) }
    ensures idle { HasNotBegun result.status → EachBecomes kits.old kits.new KeepsShelf }
    ensures kept { EachBecomes kits.old kits.new (KeepsKit F.Shelf S.Store) }
    ensures tries { TriesUnbegun S.Store options.now.attempts failed kits.old kits.new result.status }
    ensures writes { TriesSink W.Sink options.now.attempts out.old out.new result.status }
{
    if let Err(status) = open_sources(alloc, &graph, options, kits, failed) {
        return ended(status);
    }
    let RunEnd { status, outcome } = run_plan(rt, alloc, graph, options, kits, gate);
    match status {
        Status::Ok => finished(alloc, outcome, report, options.attempts, out),
        status => RunEnd { status, outcome },
    }
}

// Writes the report of the outcome that a run has which came to its end.
fn finished<W: Sink>(
    alloc: Global,
    outcome: Option<Outcome>,
    report: Report,
    attempts: u32,
    out: &mut W,
) -> RunEnd
    requires some { IsSome outcome }
    requires attempts { 1 ≤ attempts }
    ensures ends { (o : OutcomeOf) → outcome ≡ Some o → IsRunPrinted
        (observed_sink W.faults W.taken out.old out.new) attempts report o result.status result.outcome }
    ensures writes { TriesSink W.Sink attempts out.old out.new result.status }
{
    let Some(outcome) = outcome else {
        unreachable!()
    };
    printed(alloc, outcome, report, attempts, out)
}

// Writes the report of an outcome.
fn printed<W: Sink>(
    alloc: Global,
    outcome: Outcome,
    report: Report,
    attempts: u32,
    out: &mut W,
) -> RunEnd
    requires { 1 ≤ attempts }
    ensures ends { IsRunPrinted (observed_sink W.faults W.taken out.old out.new)
        attempts report outcome result.status result.outcome }
    ensures writes { TriesSink W.Sink attempts out.old out.new result.status }
{
    match report.text(alloc, &outcome) {
        Ok(text) => RunEnd {
            status: written(out, text.as_slice(), attempts),
            outcome: Some(outcome),
        },
        Err(_refused) => ended(Status::NoMemory),
    }
}
