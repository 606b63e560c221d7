ghost use Rattle.std.specs.Prelude.{◌≡◌, ◌<◌, ◌∷◌, [], None, IfErr, IfOk, IfSome};
ghost use Rattle.book_core.specs.Runs.{AreOptions};
ghost use Rattle.bundle_work.specs.Openings.{AreOpened, file_names};
ghost use Rattle.bundle_work.specs.Reading.{opened_lengths};
ghost use Rattle.run_engine.specs.Kits.{RunsKit, observed_kits};
ghost use Rattle.run_engine.specs.Pausing.{AreOpenedSomehow, IsFirstBook};
ghost use Rattle.run_engine.specs.Pausing.{IsPauseRefused, IsPaused};
ghost use Rattle.run_engine.specs.SetAside.{ComesToItsEnd};

use crate::plan_run::first_lengths;
use crate::run_end::{RunEnd, end_or_none, memory_end};
use beam_ports::{Opened, Store};
use beam_values::{NoMemory, Options};
use book_core::Book;
use book_core::laws::{books_with_no_job_left_are_through, honest_runs_are_runs};
use bundle_work::Kit;
use dofn_traits::Shelf;
use ended_runs::laws::{
    runs_that_set_aside_are_stopped_by_reads, runs_without_poison_fail_by_reads,
    runs_without_poison_positions_fail_by_reads,
};
use lone_worker::{AloneEnd, work_alone};
use pipeline_graph::Graph;
use std::alloc::Global;

/// Runs a checked plan on one kit alone, until its book has so many commits after the opening or no job is left. The kit's
/// files are those of the plan. Refused by the end of the run where a job failed as often as it may, or there is no memory.
pub fn pause_plan<F: Shelf, S: Store>(
    alloc: Global,
    graph: Graph,
    options: &Options,
    commits: u32,
    kit: &mut Kit<F, S>,
) -> Result<Book, RunEnd>
    requires allowed { AreOptions options.now }
    requires opened { AreOpened (S.files kit.old.store) (S.opened kit.old.store)
        (file_names graph) kit.old.files }
    requires few { commits < 4294967295 }
    ensures paused { IfOk result (IsPaused (observed_kits F.Shelf S.Store (kit.old ∷ []) (kit.new ∷ []))
        graph options.now commits) }
    ensures refused { IfErr result (IsPauseRefused (observed_kits F.Shelf S.Store
        (kit.old ∷ []) (kit.new ∷ [])) graph options.now) }
    ensures complete { IfErr result (λ end. ComesToItsEnd (observed_kits F.Shelf S.Store
        (kit.old ∷ []) (kit.new ∷ [])) graph options.now end.status) }
    ensures lengths { IfOk result (λ b. b.files ≡ opened_lengths graph kit.old.files) }
    ensures told_lengths { IfErr result
        (λ end. IfSome end.outcome (λ o. o.files ≡ opened_lengths graph kit.old.files)) }
    ensures kept { RunsKit F.Shelf S.Store kit.old kit.new }
{
    books_with_no_job_left_are_through();
    honest_runs_are_runs();
    runs_without_poison_fail_by_reads();
    runs_that_set_aside_are_stopped_by_reads();
    runs_without_poison_positions_fail_by_reads();
    let Ok((plan, mut book)) = open_book(alloc, graph, options, kit.files.as_slice()) else {
        return Err(memory_end());
    };
    // The opening counts in.
    let end = work_alone(alloc, &mut book, 0, &plan, kit, Some(commits + 1));
    book.is_sane();
    match end {
        AloneEnd::Finished | AloneEnd::Paused => Ok(book),
        AloneEnd::Spent(_note) => Err(end_or_none(book)),
        AloneEnd::NoMemory => Err(memory_end()),
        // It ran at its opening.
        AloneEnd::Stopped => unreachable!(),
    }
}

// The book of a run as it is opened, with one slot, and a copy of its plan for the worker.
fn open_book(
    alloc: Global,
    graph: Graph,
    options: &Options,
    files: &[Opened],
) -> Result<(Graph, Book), NoMemory>
    requires allowed { AreOptions options.now }
    requires opened { AreOpenedSomehow graph files.now }
    ensures plan { IfOk result (λ r. r.0 ≡ graph) }
    ensures book { IfOk result (λ r. IsFirstBook graph files.now options.now r.1) }
{
    let lengths = first_lengths(alloc, &graph, files)?;
    let plan = graph.copy(alloc)?;
    let mut book = Book::opening(alloc, graph, lengths, *options)?;
    let _slot = book.enroll()?;
    Ok((plan, book))
}
