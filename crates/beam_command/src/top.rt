ghost use Rattle.std.specs.Prelude.{◌≡◌, ◌<◌, ◌≤◌, ℕ, IfSome, None, Some, length};
ghost use Rattle.beam_ports.specs.Observed.{observed_sink};
ghost use Rattle.beam_values.specs.Strategies.{IsLength};
ghost use Rattle.command_words.specs.Commands.{Drill as DrillOf, Panes as PanesOf, Run as RunOf};
ghost use Rattle.book_core.specs.Runs.{AreOptions};
ghost use Rattle.bundle_work.specs.Kits.{EachBecomes};
ghost use Rattle.beam_model.specs.Plans.{panes_plan};
ghost use Rattle.command_ends.specs.Notes.{IsNoted};
ghost use Rattle.command_ends.specs.Retrying.{TriesOnce, TriesSink};
ghost use Rattle.run_engine.specs.Kits.{KeepsKit};
ghost use Rattle.beam_command.specs.Asking.{IsPlanOf};
ghost use Rattle.beam_command.specs.DrillPlans.{drill_plan};
ghost use Rattle.beam_command.specs.ReplayEnds.{IsMakeEnd, IsReplayEnd, text_attempts};
ghost use Rattle.beam_command.specs.Promises.{HasLegalLogs, HasLegalPanes};
ghost use Rattle.beam_command.specs.Ends.{IsHelpEnd, IsPipelineEnd, IsRun};
ghost use Rattle.beam_command.specs.Kits.{AreKitsLeft, HasNotBegun, IsOutcomeOfKits};
ghost use Rattle.beam_command.specs.Kits.{IsOutcomeOfOpened, KeepsShelf, TriesUnbegun, first_files};
ghost use Rattle.beam_command.specs.Kits.{in_use, observed_at, observed_for, observed_in_use};
ghost use Rattle.beam_command.specs.Completeness.{EndsWhereFewFail, IsDecided};
ghost use Rattle.beam_command.specs.Clauses.{asked_by, asking, attempts_of, observed_by, EndsAsAsked};
ghost use Rattle.beam_command.specs.Clauses.{EndsWithOpened, GivesSides, IsAccountedFor, IsOfAsked};
ghost use Rattle.beam_command.specs.Clauses.{IsPartitioned, IsPlain, LeavesKits, LeavesNothing};
ghost use Rattle.beam_command.specs.Clauses.{PrintsDrill, SetsAside, TriesInUse};

use crate::combines::run_combine;
use crate::pipeline::{Report, ended, run_graph};
use crate::plans::{drill_graph, panes_graph};
use crate::replays::run_replay;
use beam_ports::{Gate, Sink, Store};
use beam_text::made_text;
use beam_values::{NoMemory, Options, Outcome};
use book_core::laws::{cells_are_kept, honest_runs_are_runs, reached_books_are_kept};
use command_ends::{noted, read_plan_file, written};
use command_words::laws::words_ask_by_the_rules;
use command_words::{Command, Usage, help_text, read_words};
use dofn_traits::Shelf;
use ended_runs::laws::{
    dead_positions_are_poison, joins_are_plain_side_inputs, nothing_is_set_aside,
    outcomes_are_accounted, outcomes_are_covered, outcomes_are_plainly_written,
    outcomes_have_legal_logs, outcomes_have_legal_panes, outcomes_have_their_dead_letters,
    runs_that_set_aside_are_stopped_by_reads, runs_without_poison_fail_by_reads,
    runs_without_poison_positions_fail_by_reads, stops_are_honest,
};
use run_engine::{Kit, RunEnd, Status};
use std::alloc::Global;
use std::sync::Wait;
use std::thread::Threads;

/// How often a write of the help and of made lines may fail.
const TEXT_ATTEMPTS: u32 = 3;

/// Runs the command that the words name, the name of the program first, with one worker for each kit in use:
/// these are the first ones, as many as the words ask for workers, or all; for a replay the first one. Every
/// kit in use opens every file of the pipeline; files are read from their stores and worked by their functions.
/// The text goes to `out` and, where the end isn't Ok or Help, one line goes to `notes`. Workers pass the gate
/// before each claim and each job; at [`beam_ports::OpenGate`] they pass at once. Workers wait for each other's
/// turns, and that a wait ends is not promised: the clauses are on calls that return.
///
/// `ends` says of each end what it means and why it comes: at Ok the outcome of a pipeline is the data of the
/// run's own final book, which is ended, and its rendering was written, or the summary of a drill; of a replay
/// what its lines print was, and made lines were. The clauses from `plan` to `drilled` say what that outcome
/// is, however many workers there were and whatever was split, bundled or tried again; those from `opened` on
/// speak of every end. What is said of a file's content is said of told files: of stores in use that all tell
/// the same files, as those in memory do.
pub fn beam_main<R: Threads + Wait + Sync, F: Shelf, S: Store, W: Sink, N: Sink, G: Gate>(
    rt: &R,
    alloc: Global,
    words: &[String],
    kits: &mut Vec<Kit<F, S>>,
    out: &mut W,
    notes: &mut N,
    gate: &G,
) -> RunEnd
    requires { 0 < length kits.old.items }
    ensures ends { EndsAsAsked (asked_by words.now)
        (observed_by F.Shelf S.Store W.Sink words.now kits.old kits.new out.old out.new) result }

    // The outcome is of the plan that is asked for and of the files that it names, which are there.
    ensures plan { IsRun (asked_by words.now) result (IsOfAsked (asking S.Store words.now kits.old)) }

    // The committed ranges and the dead positions partition each item. A plan of version 1 has no dead one, so
    // nothing is left out of its account and of plain grouping.
    ensures cover { IsRun (asked_by words.now) result IsPartitioned }

    // Which positions are dead: each failed as often as it may, the last time in a call, and each of these fails
    // was counted. Of told files each position that is poison by itself is dead, and over strict functions no other.
    ensures dead_letters { SetsAside (asked_by words.now)
        (observed_by F.Shelf S.Store W.Sink words.now kits.old kits.new out.old out.new) result }

    // The outputs of every position that isn't dead, every pane, and what each call of a Stateful node gave,
    // arrived at each barrier that they reach exactly once.
    ensures account { IsRun (asked_by words.now) result (IsAccountedFor (asking S.Store words.now kits.old)) }

    // The panes are legal under the trigger of each Group, commit by commit.
    ensures legal_panes { IsRun (asked_by words.now) result HasLegalPanes }

    // Each key and window of a Stateful node was called in one legal order: on its elements, and on its timers
    // as they came due. That each element is called on once is said by the account.
    ensures legal_logs { IsRun (asked_by words.now) result HasLegalLogs }

    // At each Write with the default trigger and sound estimators above it: what was written is plain
    // grouping of the whole input without the dead positions, and nothing was dropped. So it is always for
    // `panes` and for `drill`.
    ensures plain { IsRun (asked_by words.now) result (IsPlain (asking S.Store words.now kits.old)) }

    // Of each side input without sessions, with no Stateful node and with the default trigger and sound estimators
    // above it: each main element was joined once, by its mode, with the whole view of its window and with nothing
    // else, after that window had passed.
    ensures sides { IsRun (asked_by words.now) result (GivesSides (asking S.Store words.now kits.old)) }

    // What a drill prints is the summary of plain grouping of its made lines.
    ensures drilled { PrintsDrill (asked_by words.now)
        (observed_sink W.faults W.taken out.old out.new) result }

    // Of an outcome, at WorkFault too: its plan is the one of the first kit's file, where that store tells its
    // files; every kit in use has a file open for each one of the plan, as long as that of the first kit.
    ensures opened { EndsWithOpened S.Store words.now kits.old kits.new result }

    // Where the files are told and little or nothing outside fails, they decide which end comes.
    ensures decided { IsDecided (asked_by words.now)
        (observed_by F.Shelf S.Store W.Sink words.now kits.old kits.new out.old out.new) result }

    // Whatever the stores tell: a pipeline whose kits count fewer faults than a job has attempts comes to its
    // end, and so does a replay whose store does; unless a plan, a schedule or a file is bad, not there or
    // changed, the sink fails, or there is no memory.
    ensures few_faults { EndsWhereFewFail (asked_by words.now)
        (observed_by F.Shelf S.Store W.Sink words.now kits.old kits.new out.old out.new) result }
    ensures noted { IsNoted result.status (observed_sink N.faults N.taken notes.old notes.new) }

    // Each shelf is what it was where the end came before any work. Of every kit the counts never fall, and what
    // its store tells and has opened stays. The kits that are not in use stay as they were.
    ensures kits { LeavesKits F.Shelf S.Store words.now kits.old kits.new result }

    // Of stores and sinks that count exactly: at an end before any work opening and reading failed as often as they
    // may where it tells of that, and else less often; and so did writing, at every end. After the first failure of the
    // notes nothing more is written to them.
    ensures tries { TriesInUse S.Store words.now kits.old kits.new result }
    ensures writes { TriesSink W.Sink (attempts_of (asked_by words.now)) out.old out.new result.status }
    ensures notes_once { TriesOnce N.Sink notes.old notes.new }
    ensures no_memory { result.status ≡ Status.NoMemory → LeavesNothing F.Shelf S.Store
        kits.old kits.new (observed_sink W.faults W.taken out.old out.new) result }
{
    honest_runs_are_runs();
    outcomes_are_covered();
    nothing_is_set_aside();
    outcomes_are_accounted();
    outcomes_have_legal_logs();
    outcomes_have_legal_panes();
    outcomes_are_plainly_written();
    joins_are_plain_side_inputs();
    words_ask_by_the_rules();
    reached_books_are_kept();
    cells_are_kept();
    stops_are_honest();
    runs_without_poison_fail_by_reads();
    outcomes_have_their_dead_letters();
    dead_positions_are_poison();
    runs_that_set_aside_are_stopped_by_reads();
    runs_without_poison_positions_fail_by_reads();
    let RunEnd { status, outcome } = run(rt, alloc, words, kits.as_mut_slice(), out, gate);
    let status = noted(alloc, status, notes);
    let outcome = unless_no_memory(&status, outcome);
    RunEnd { status, outcome }
}

// Where there is no memory for its note, a run has no outcome.
fn unless_no_memory(status: &Status, outcome: Option<Outcome>) -> Option<Outcome>
    ensures none { status.now ≡ Status.NoMemory → result ≡ None }
    ensures stays { (status.now ≡ Status.NoMemory → ⊥) → result ≡ outcome }
{
    match status {
        Status::NoMemory => None,
        _ => outcome,
    }
}

// The end of the command before its note is written.
fn run<R: Threads + Wait + Sync, F: Shelf, S: Store, W: Sink, G: Gate>(
    rt: &R,
    alloc: Global,
    words: &[String],
    kits: &mut [Kit<F, S>],
    out: &mut W,
    gate: &G,
) -> RunEnd
    requires { 0 < length kits.old }
    ensures ends { EndsAsAsked (asked_by words.now) (observed_in_use F.Shelf S.Store W.Sink
        (asked_by words.now) kits.old kits.new out.old out.new) result }
    ensures opened { IfSome result.outcome
        (IsOutcomeOfKits S.Store (asked_by words.now) kits.old kits.new) }
    ensures kits { AreKitsLeft F.Shelf S.Store (asked_by words.now) result.status kits.old kits.new }
    ensures tries { TriesUnbegun S.Store (attempts_of (asked_by words.now)) 0
        (in_use (asked_by words.now) kits.old) (in_use (asked_by words.now) kits.new) result.status }
    ensures writes { TriesSink W.Sink (attempts_of (asked_by words.now)) out.old out.new result.status }
{
    match read_words(words) {
        Err(Usage) => ended(Status::Usage),
        Ok(Command::Help) => ended(help(out)),
        Ok(
            Command::Panes {
                file,
                size,
                options,
            },
        ) => {
            let count = kits.len().min(options.workers as usize);
            let (used, _unused) = kits.split_at_mut(count);
            run_panes(rt, alloc, file, size, &options, used, out, gate)
        }
        Ok(Command::Run { plan, options }) => {
            let count = kits.len().min(options.workers as usize);
            let (used, _unused) = kits.split_at_mut(count);
            run_file(rt, alloc, plan, &options, used, out, gate)
        }
        Ok(
            Command::Replay {
                plan,
                schedule,
                options,
            },
        ) => {
            let (used, _unused) = kits.split_at_mut(1);
            ended(run_replay(alloc, plan, schedule, &options, used, out))
        }
        Ok(Command::Combine { plan, options }) => {
            let count = kits.len().min(options.workers as usize);
            let (used, _unused) = kits.split_at_mut(count);
            ended(run_combine(rt, alloc, plan, &options, used, out))
        }
        Ok(Command::Make { count, number }) => ended(make(alloc, count, number, out)),
        Ok(
            Command::Drill {
                count,
                number,
                options,
            },
        ) => {
            let workers = kits.len().min(options.workers as usize);
            let (used, _unused) = kits.split_at_mut(workers);
            run_drill(rt, alloc, count, number, &options, used, out, gate)
        }
    }
}

fn help<W: Sink>(out: &mut W) -> Status
    ensures ends { IsHelpEnd (observed_sink W.faults W.taken out.old out.new) result }
    ensures writes { TriesSink W.Sink text_attempts out.old out.new result }
{
    match written(out, help_text(), TEXT_ATTEMPTS) {
        Status::Ok => Status::Help,
        status => status,
    }
}

// Writes made lines.
fn make<W: Sink>(alloc: Global, count: u64, number: u64, out: &mut W) -> Status
    ensures ends { IsMakeEnd (observed_sink W.faults W.taken out.old out.new) count number result }
    ensures writes { TriesSink W.Sink text_attempts out.old out.new result }
{
    match made_text(alloc, count, number) {
        Ok(text) => written(out, text.as_slice(), TEXT_ATTEMPTS),
        Err(NoMemory) => Status::NoMemory,
    }
}

// Runs the pipeline of `drill`.
fn run_drill<R: Threads + Wait + Sync, F: Shelf, S: Store, W: Sink, G: Gate>(
    rt: &R,
    alloc: Global,
    count: u64,
    number: u64,
    options: &Options,
    kits: &mut [Kit<F, S>],
    out: &mut W,
    gate: &G,
) -> RunEnd
    requires count { count ≤ 1000000 }
    requires number { number ≤ 1000000 }
    requires allowed { AreOptions options.now }
    requires some { 0 < length kits.old }
    requires workers { length kits.old ≤ options.now.workers }
    ensures ends { IsPipelineEnd (observed_for F.Shelf S.Store W.Sink
        (Some (DrillOf count number options.now)) kits.old kits.new out.old out.new)
        (DrillOf count number options.now) options.now result.status result.outcome }
    ensures first_plan { IfSome result.outcome (λ o. o.plan ≡ drill_plan count number) }
    ensures opened { IfSome result.outcome (IsOutcomeOfOpened S.Store kits.new) }
    ensures idle { HasNotBegun result.status → EachBecomes kits.old kits.new KeepsShelf }
    ensures kept { EachBecomes kits.old kits.new (KeepsKit F.Shelf S.Store) }
    ensures tries { TriesUnbegun S.Store options.now.attempts 0 kits.old kits.new result.status }
    ensures writes { TriesSink W.Sink options.now.attempts out.old out.new result.status }
{
    match drill_graph(alloc, count, number) {
        Ok(graph) => run_graph(
            rt,
            alloc,
            graph,
            options,
            Report::Summary,
            0,
            kits,
            out,
            gate,
        ),
        Err(NoMemory) => ended(Status::NoMemory),
    }
}

// Runs the pipeline of `panes`.
fn run_panes<R: Threads + Wait + Sync, F: Shelf, S: Store, W: Sink, G: Gate>(
    rt: &R,
    alloc: Global,
    file: &[u8],
    size: i64,
    options: &Options,
    kits: &mut [Kit<F, S>],
    out: &mut W,
    gate: &G,
) -> RunEnd
    requires file { (1 ≤ length file.now) × (length file.now ≤ 4096) }
    requires size { IsLength size }
    requires allowed { AreOptions options.now }
    requires some { 0 < length kits.old }
    requires workers { length kits.old ≤ options.now.workers }
    ensures ends { IsPipelineEnd
        (observed_at F.Shelf S.Store W.Sink kits.old kits.new out.old out.new)
        (PanesOf file.now size options.now) options.now result.status result.outcome }
    ensures first_plan { IfSome result.outcome (λ o. o.plan ≡ panes_plan file.now size) }
    ensures opened { IfSome result.outcome (IsOutcomeOfOpened S.Store kits.new) }
    ensures idle { HasNotBegun result.status → EachBecomes kits.old kits.new KeepsShelf }
    ensures kept { EachBecomes kits.old kits.new (KeepsKit F.Shelf S.Store) }
    ensures tries { TriesUnbegun S.Store options.now.attempts 0 kits.old kits.new result.status }
    ensures writes { TriesSink W.Sink options.now.attempts out.old out.new result.status }
{
    match panes_graph(alloc, file, size) {
        Ok(graph) => run_graph(
            rt,
            alloc,
            graph,
            options,
            Report::Rendering,
            0,
            kits,
            out,
            gate,
        ),
        Err(NoMemory) => ended(Status::NoMemory),
    }
}

// Runs the pipeline of a plan document, which the first kit reads.
fn run_file<R: Threads + Wait + Sync, F: Shelf, S: Store, W: Sink, G: Gate>(
    rt: &R,
    alloc: Global,
    plan: &[u8],
    options: &Options,
    kits: &mut [Kit<F, S>],
    out: &mut W,
    gate: &G,
) -> RunEnd
    requires allowed { AreOptions options.now }
    requires some { 0 < length kits.old }
    requires workers { length kits.old ≤ options.now.workers }
    ensures ends { IsPipelineEnd
        (observed_at F.Shelf S.Store W.Sink kits.old kits.new out.old out.new)
        (RunOf plan.now options.now) options.now result.status result.outcome }
    ensures first_plan { IfSome result.outcome
        (λ o. IsPlanOf (first_files S.files kits.old) (RunOf plan.now options.now) o.plan) }
    ensures opened { IfSome result.outcome (IsOutcomeOfOpened S.Store kits.new) }
    ensures idle { HasNotBegun result.status → EachBecomes kits.old kits.new KeepsShelf }
    ensures kept { EachBecomes kits.old kits.new (KeepsKit F.Shelf S.Store) }
    ensures tries { TriesUnbegun S.Store options.now.attempts 0 kits.old kits.new result.status }
    ensures writes { TriesSink W.Sink options.now.attempts out.old out.new result.status }
{
    match read_plan_file(alloc, &mut kits[0].store, plan, options.attempts) {
        Ok(read) => run_graph(
            rt,
            alloc,
            read.graph,
            options,
            Report::Rendering,
            read.failed,
            kits,
            out,
            gate,
        ),
        Err(status) => ended(status),
    }
}
