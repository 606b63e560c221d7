ghost use Rattle.std.specs.Prelude.{◌≡◌, ◌<◌, ◌≤◌, ◌∷◌, [], ℕ, List as ListOf, Option as OptionOf};
ghost use Rattle.std.specs.Prelude.{length, IfOk, IfSome};
ghost use Rattle.beam_ports.specs.Files.{Opening};
ghost use Rattle.beam_values.specs.declared.file_text.FileText.{FileText};
ghost use Rattle.book_core.specs.Runs.{AreOptions, Reached};
ghost use Rattle.book_core.specs.Work.{Surroundings};
ghost use Rattle.turn_desk.specs.Notes.{opening_note};
ghost use Rattle.worker_table.specs.Notes.{fresh};
ghost use Rattle.known_jobs.specs.Jobs.{setting_for};
ghost use Rattle.worker_table.specs.Passes.{IsOf, note_of_pass, setting_of};
ghost use Rattle.bundle_work.specs.Kits.{EachBecomes};
ghost use Rattle.bundle_work.specs.Openings.{AreOpened, file_names};
ghost use Rattle.run_engine.specs.Kits.{RunsKit, observed_kits};
ghost use Rattle.run_engine.specs.Openings.{AreOpenedByAll};
ghost use Rattle.run_engine.specs.PlanRun.{AreFirstLengths};
ghost use Rattle.bundle_work.specs.Reading.{opened_lengths};
ghost use Rattle.run_engine.specs.PlanRun.{lengths_of_first, IsPlanEnd};
ghost use Rattle.run_engine.specs.SetAside.{AtOk, ComesToItsEnd, HasDeadLetters};

use crate::run_end::{RunEnd, end_of};
use beam_ports::{Gate, Opened, Store};
use beam_values::{FileLen, List, NoMemory, Options};
use book_core::Book;
use book_core::laws::{attempts_are_counted, honest_runs_are_runs};
use bundle_work::{Kit, lengths_of, readers_of};
use command_ends::Status;
use dofn_traits::Shelf;
use ended_runs::laws::{
    dead_positions_are_poison, outcomes_have_their_dead_letters,
    runs_that_set_aside_are_stopped_by_reads, runs_without_poison_fail_by_reads,
    runs_without_poison_positions_fail_by_reads,
};
use pipeline_graph::Graph;
use pipeline_graph::laws::{
    nodes_have_inputs_and_settings_of_their_kind, plans_are_small_and_write_something,
};
use std::alloc::Global;
use std::sync::Wait;
use std::thread::Threads;
use worker_loop::work_all;
use worker_table::{Table, WorkerPass};

/// Runs a checked plan with one worker for each kit, in threads of their own. The kits' files are those of
/// the plan: jobs are taken, worked and committed or given back, until none is left, one has failed as
/// often as the options allow, or there is no memory. A plan of version 2 goes on without a position whose calls
/// fail so often. The outcome is the data of the run's own book.
pub fn run_plan<R: Threads + Wait + Sync, F: Shelf, S: Store, G: Gate>(
    rt: &R,
    alloc: Global,
    graph: Graph,
    options: &Options,
    kits: &mut [Kit<F, S>],
    gate: &G,
) -> RunEnd
    requires some { 0 < length kits.old }
    requires workers { length kits.old ≤ options.now.workers }
    requires allowed { AreOptions options.now }
    requires opened { AreOpenedByAll S.files S.opened graph kits.old }
    ensures ended { IsPlanEnd (observed_kits F.Shelf S.Store kits.old kits.new)
        graph options.now result.status result.outcome }

    // Which positions are dead at Ok: none of a plan of version 1, and (told) just those that are poison where
    // functions fail on poison alone.
    ensures dead_letters { AtOk result.status result.outcome (HasDeadLetters
        (observed_kits F.Shelf S.Store kits.old kits.new) options.now.attempts) }
    ensures complete { ComesToItsEnd (observed_kits F.Shelf S.Store kits.old kits.new)
        graph options.now result.status }
    ensures lengths { IfSome result.outcome (λ o. o.files ≡ lengths_of_first graph kits.old) }
    ensures kept { EachBecomes kits.old kits.new (RunsKit F.Shelf S.Store) }
{
    honest_runs_are_runs();
    outcomes_have_their_dead_letters();
    dead_positions_are_poison();
    runs_without_poison_fail_by_reads();
    runs_that_set_aside_are_stopped_by_reads();
    runs_without_poison_positions_fail_by_reads();
    match run_book(rt, alloc, graph, options, kits, gate) {
        Ok(end) => end,
        Err(NoMemory) => RunEnd {
            status: Status::NoMemory,
            outcome: None,
        },
    }
}

fn run_book<R: Threads + Wait + Sync, F: Shelf, S: Store, G: Gate>(
    rt: &R,
    alloc: Global,
    graph: Graph,
    options: &Options,
    kits: &mut [Kit<F, S>],
    gate: &G,
) -> Result<RunEnd, NoMemory>
    requires some { 0 < length kits.old }
    requires workers { length kits.old ≤ options.now.workers }
    requires allowed { AreOptions options.now }
    requires opened { AreOpenedByAll S.files S.opened graph kits.old }
    ensures ended { IfOk result
        (λ end. IsPlanEnd (observed_kits F.Shelf S.Store kits.old kits.new)
        graph options.now end.status end.outcome) }
    ensures lengths { IfOk result
        (λ end. IfSome end.outcome (λ o. o.files ≡ lengths_of_first graph kits.old)) }
    ensures kept { EachBecomes kits.old kits.new (RunsKit F.Shelf S.Store) }
{
    attempts_are_counted();
    honest_runs_are_runs();
    let lengths = first_lengths(alloc, &graph, kits[0].files.as_slice())?;
    // The workers read their own copy, since the book holds the graph.
    let plan = graph.copy(alloc)?;
    let book = Book::opening(alloc, graph, lengths, *options)?;
    let (table, mut pass) = table_for(alloc, book, kits)?;
    let _all = work_all(rt, alloc, &table, &mut pass, &plan, kits, options, gate)?;
    end_of(table.close(pass))
}

// A table for workers with these kits: what all of them know holds as long as it stands.
fn table_for<F: Shelf, S: Store>(
    alloc: Global,
    book: Book,
    _kits: &[Kit<F, S>],
) -> Result<(Table, WorkerPass), NoMemory>
    ghost known: { Surroundings }
    requires reached { Reached known.told book }
    requires slots { book.slots ≡ [] }
    ensures table { IfOk result (λ r. IsOf r.0 r.1) }
    ensures setting { IfOk result (λ r. setting_of r.0 ≡ setting_for known book) }
    ensures note { IfOk result (λ r. note_of_pass r.1 ≡ opening_note (fresh ∷ [])) }
{
    Table::new(alloc, book)
}

/// The length of each item, where these files are opened.
pub fn first_lengths(
    alloc: Global,
    graph: &Graph,
    files: &[Opened],
) -> Result<List<FileLen>, NoMemory>
    ensures exact { IfOk result (λ lengths. lengths ≡ opened_lengths graph.now files.now) }
    ensures items { IfOk result (λ lengths. (told : OptionOf (ListOf FileText))
        (opened : ℕ → OptionOf Opening) → AreOpened told opened (file_names graph.now) files.now
        → AreFirstLengths told graph.now lengths) }
{
    plans_are_small_and_write_something();
    nodes_have_inputs_and_settings_of_their_kind();
    let readers = readers_of(alloc, graph.plan().nodes.as_slice(), files)?;
    lengths_of(alloc, readers.as_slice())
}
