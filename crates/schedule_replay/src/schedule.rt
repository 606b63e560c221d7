//! A replay, line by line.
ghost use Rattle.std.specs.Prelude.{◌≡◌, ◌≤◌, [], List as ListOf, Option as OptionOf, None, Some, true};
ghost use Rattle.std.specs.Prelude.{IfErr, IfOk, OnOk, length, replicate};
ghost use Rattle.std.specs.List.{All};
ghost use Rattle.beam_values.specs.Storable.{IsStorable};
ghost use Rattle.beam_text.specs.Parts.{AppendsText};
ghost use Rattle.beam_model.specs.Positions.{items};
ghost use Rattle.beam_ports.specs.Observed.{observed_store};
ghost use Rattle.beam_values.specs.declared.file_text.FileText.{FileText};
ghost use Rattle.book_core.specs.Runs.{AreLengthsOf, AreOptions, Run};
ghost use Rattle.chain_exec.specs.Causes.{observed_shelf};
ghost use Rattle.bundle_work.specs.Kits.{IsKitFor};
ghost use Rattle.bundle_work.specs.Outside.{IsKitKept};
ghost use Rattle.bundle_work.specs.declared.reading.Reader.{Reader};
ghost use Rattle.known_jobs.specs.Jobs.{setting_for};
ghost use Rattle.lone_worker.specs.Work.{Base, IsReadingOn};
ghost use Rattle.schedule_words.specs.Schedules.{IsProper, line_of, lines_of};
ghost use Rattle.schedule_words.specs.Told.{told_text};
ghost use Rattle.schedule_replay.specs.Reaching.{AreLinesWorked, IsLineRefused, IsPrinted, IsWorkRefused};
ghost use Rattle.schedule_replay.specs.Reaching.{base_of};
ghost use Rattle.schedule_replay.specs.Replays.{IsBeginning, IsEnding, IsReplayRefused, IsReplayed, known_by};
ghost use Rattle.schedule_replay.specs.Replays.{enrolls, longest, setting_of};
ghost use Rattle.schedule_replay.specs.Shown.{shown};
ghost use Rattle.schedule_replay.specs.Standing.{IsStanding, IsWorked, counts_after};
ghost use Rattle.schedule_replay.specs.Standing.{claimed_of, counts_before};
ghost use Rattle.schedule_replay.specs.Stands.{is_allowed};

use crate::ending::push_ending;
use crate::stand::Stand;
use beam_ports::Store;
use beam_text::ScheduleRefusal;
use beam_values::{Bytes, FileLen, List, NoMemory, Options};
use book_core::Book;
use bundle_work::{Kit, Worker};
use dofn_traits::Shelf;
use lone_worker::{ClaimEnd, Work};
use pipeline_graph::Graph;
use schedule_words::{Claimed, Line, Told, next_line, push_told, read_line};
use std::alloc::Global;

/// The greatest length of a schedule, in bytes.
const LONGEST: usize = 1_048_576;

/// Why a schedule was not worked to its end.
#[derive(Clone, Copy, Debug, PartialEq, Eq)]
pub enum ReplayRefusal {
    Bad(ScheduleRefusal),
    NoMemory,
}

impl From<NoMemory> for ReplayRefusal {
    ghost use Rattle.schedule_replay.specs.declared.schedule.ReplayRefusal.TheVariants as refusals;

    ghost from_gives = { λ _ e. e ≡ refusals.NoMemory };

    fn from(_e: NoMemory) -> ReplayRefusal {
        ReplayRefusal::NoMemory
    }
}

/// Works a schedule over a checked plan with one kit, whose files are those of the plan, with these lengths. The text is
/// what its lines print, and where the run stands behind them.
pub fn replay<F: Shelf, S: Store>(
    alloc: Global,
    graph: Graph,
    files: List<FileLen>,
    options: &Options,
    kit: &mut Kit<F, S>,
    schedule: &[u8],
) -> Result<Bytes, ReplayRefusal>
    requires lengths { AreLengthsOf (items [] graph) files }
    requires allowed { AreOptions options.now }
    requires kit { IsKitFor F.strict S.files S.opened
        (setting_of (known_by F.strict S.files kit.old) graph files options.now) kit.old }
    ensures text { IfOk result (IsReplayed (known_by F.strict S.files kit.old)
        (counts_before (observed_shelf F.strict F.faults kit.old.shelf kit.new.shelf)
        (observed_store S.files S.faults kit.old.store kit.new.store))
        (counts_after (observed_shelf F.strict F.faults kit.old.shelf kit.new.shelf)
        (observed_store S.files S.faults kit.old.store kit.new.store))
        graph files options.now schedule.now) }
    ensures refused { IfErr result (IsReplayRefused (known_by F.strict S.files kit.old)
        (counts_before (observed_shelf F.strict F.faults kit.old.shelf kit.new.shelf)
        (observed_store S.files S.faults kit.old.store kit.new.store))
        (counts_after (observed_shelf F.strict F.faults kit.old.shelf kit.new.shelf)
        (observed_store S.files S.faults kit.old.store kit.new.store))
        graph files options.now schedule.now) }
    ensures kept { IsKitKept F.faults F.strict S.faults S.files S.opened
        kit.old.shelf kit.new.shelf kit.old.store kit.new.store }
    ensures files { kit.new.files ≡ kit.old.files }
{
    if schedule.len() > LONGEST {
        return Err(ReplayRefusal::Bad(ScheduleRefusal::Length(schedule.len() as u64)));
    }
    let (plan, stand) = begun(alloc, graph, files, *options)?;
    printed(alloc, stand, &plan, options, kit, schedule)
}

// The beginning of a run. The works read their own copy of the plan, since the book holds the graph.
fn begun(
    alloc: Global,
    graph: Graph,
    files: List<FileLen>,
    options: Options,
) -> Result<(Graph, Stand), NoMemory>
    requires lengths { AreLengthsOf (items [] graph) files }
    requires allowed { AreOptions options }
    ensures copied { IfOk result (λ begun. begun.0 ≡ graph) }
    ensures begins { IfOk result (λ begun. (told : OptionOf (ListOf FileText))
        → IsBeginning told graph files options (shown begun.1)) }
    ensures free { IfOk result
        (λ begun. begun.1.works.items ≡ replicate options.workers None) }
    ensures slots { IfOk result
        (λ begun. begun.1.book.slots ≡ replicate options.workers None) }
    ensures plan { IfOk result (λ begun. begun.1.book.plan ≡ graph) }
    ensures lengths { IfOk result (λ begun. begun.1.book.files ≡ files) }
    ensures options { IfOk result (λ begun. begun.1.book.options ≡ options) }
{
    let plan = graph.copy(alloc)?;
    let stand = opening(alloc, graph, files, options)?;
    Ok((plan, stand))
}

// What the lines of a schedule print, and behind them where the run stands.
fn printed<F: Shelf, S: Store>(
    alloc: Global,
    mut stand: Stand,
    plan: &Graph,
    options: &Options,
    kit: &mut Kit<F, S>,
    schedule: &[u8],
) -> Result<Bytes, ReplayRefusal>
    requires plan { plan.now ≡ stand.book.plan }
    requires kit { IsKitFor F.strict S.files S.opened
        (setting_for (known_by F.strict S.files kit.old) stand.book) kit.old }
    requires standing { (readers : ListOf Reader) → IsStanding
        (base_of (known_by F.strict S.files kit.old) stand.book (S.opened kit.old.store) readers)
        stand }
    requires short { length schedule.now ≤ longest }
    ensures text { IfOk result (λ text. (readers : ListOf Reader) × IsPrinted
        (base_of (known_by F.strict S.files kit.old) stand.book (S.opened kit.old.store) readers)
        (observed_shelf F.strict F.faults kit.old.shelf kit.new.shelf)
        (observed_store S.files S.faults kit.old.store kit.new.store)
        (shown stand) schedule.now text) }
    ensures refused { IfErr result (λ why. (readers : ListOf Reader) × IsWorkRefused
        (base_of (known_by F.strict S.files kit.old) stand.book (S.opened kit.old.store) readers)
        (observed_shelf F.strict F.faults kit.old.shelf kit.new.shelf)
        (observed_store S.files S.faults kit.old.store kit.new.store)
        (shown stand) (lines_of schedule.now) why) }
    ensures kept { IsKitKept F.faults F.strict S.faults S.files S.opened
        kit.old.shelf kit.new.shelf kit.old.store kit.new.store }
    ensures files { kit.new.files ≡ kit.old.files }
{
    let lines = printed_lines(alloc, &mut stand, plan, options, kit, schedule)?;
    Ok(ended_text(alloc, stand, lines)?)
}

// What the lines of a schedule print, which are worked with one kit from the opening of a run on.
fn printed_lines<F: Shelf, S: Store>(
    alloc: Global,
    stand: &mut Stand,
    plan: &Graph,
    options: &Options,
    kit: &mut Kit<F, S>,
    schedule: &[u8],
) -> Result<List<u8>, ReplayRefusal>
    requires plan { plan.now ≡ stand.old.book.plan }
    requires kit { IsKitFor F.strict S.files S.opened
        (setting_for (known_by F.strict S.files kit.old) stand.old.book) kit.old }
    requires standing { (readers : ListOf Reader) → IsStanding
        (base_of (known_by F.strict S.files kit.old) stand.old.book (S.opened kit.old.store) readers)
        stand.old }
    requires short { length schedule.now ≤ longest }
    ensures worked { IfOk result (λ lines. (readers : ListOf Reader) × AreLinesWorked
        (base_of (known_by F.strict S.files kit.old) stand.old.book (S.opened kit.old.store) readers)
        (observed_shelf F.strict F.faults kit.old.shelf kit.new.shelf)
        (observed_store S.files S.faults kit.old.store kit.new.store)
        (shown stand.old) (lines_of schedule.now) (shown stand.new) [] lines) }
    ensures refused { IfErr result (λ why. (readers : ListOf Reader) × IsWorkRefused
        (base_of (known_by F.strict S.files kit.old) stand.old.book (S.opened kit.old.store) readers)
        (observed_shelf F.strict F.faults kit.old.shelf kit.new.shelf)
        (observed_store S.files S.faults kit.old.store kit.new.store)
        (shown stand.old) (lines_of schedule.now) why) }
    ensures standing { OnOk result ((base : Base) × IsStanding base stand.new) }
    ensures kept { IsKitKept F.faults F.strict S.faults S.files S.opened
        kit.old.shelf kit.new.shelf kit.old.store kit.new.store }
    ensures files { kit.new.files ≡ kit.old.files }
{
    let mut worker = Worker::new(alloc, plan, kit.files.as_slice(), options)?;
    let mut out = List::new(alloc);
    match work_lines(alloc, stand, plan, kit, &mut worker, schedule, &mut out) {
        Ok(()) => Ok(out),
        Err(refusal) => Err(refusal),
    }
}

// These lines, and behind them where the run stands.
fn ended_text(alloc: Global, stand: Stand, lines: List<u8>) -> Result<Bytes, NoMemory>
    requires standing { (base : Base) × IsStanding base stand }
    ensures text { IfOk result (AppendsText (IsEnding stand.book) lines) }
    ensures storable { All (λ pane. IsStorable pane.element.value) stand.book.panes }
{
    stand.book.look_at_panes();
    let mut out = lines;
    push_ending(alloc, stand, &mut out)?;
    Ok(Bytes::from_list(alloc, out)?)
}

// The book of a run, with its slots.
fn opening(
    alloc: Global,
    graph: Graph,
    files: List<FileLen>,
    options: Options,
) -> Result<Stand, NoMemory>
    requires lengths { AreLengthsOf (items [] graph) files }
    requires allowed { AreOptions options }
    ensures begins { IfOk result (λ stand. (told : OptionOf (ListOf FileText))
        → IsBeginning told graph files options (shown stand)) }
    ensures free { IfOk result
        (λ stand. stand.works.items ≡ replicate options.workers None) }
    ensures slots { IfOk result
        (λ stand. stand.book.slots ≡ replicate options.workers None) }
    ensures plan { IfOk result (λ stand. stand.book.plan ≡ graph) }
    ensures lengths { IfOk result (λ stand. stand.book.files ≡ files) }
    ensures options { IfOk result (λ stand. stand.book.options ≡ options) }
{
    let mut book = Book::opening(alloc, graph, files, options)?;
    let mut works = Vec::new(alloc);
    enroll_all(&mut book, &mut works, options.workers)?;
    Ok(Stand { book, works })
}

// Enrolls so many slots in a book that has none. Each of them works nothing.
fn enroll_all(book: &mut Book, works: &mut Vec<Option<Work>>, count: u32) -> Result<(), NoMemory>
    requires none { book.old.slots ≡ [] }
    requires free { works.old.items ≡ [] }
    ensures run { OnOk result ((told : OptionOf (ListOf FileText))
        → Run told book.old (enrolls count) book.new) }
    ensures free { OnOk result (works.new.items ≡ replicate count None) }
    ensures slots { OnOk result (book.new.slots ≡ replicate count None) }
    ensures plan { OnOk result (book.new.plan ≡ book.old.plan) }
    ensures lengths { OnOk result (book.new.files ≡ book.old.files) }
    ensures options { OnOk result (book.new.options ≡ book.old.options) }
{
    'slots: for _number in 0..count {
        let _enrolled = book.enroll()?;
        works.push(None)?;
    }
    Ok(())
}

// Works lines one after another, up to one that is none or isn't allowed, and appends what they print.
fn work_lines<F: Shelf, S: Store>(
    alloc: Global,
    stand: &mut Stand,
    plan: &Graph,
    kit: &mut Kit<F, S>,
    worker: &mut Worker,
    schedule: &[u8],
    out: &mut List<u8>,
) -> Result<(), ReplayRefusal>
    ghost base: { Base }
    requires plan { plan.now ≡ base.setting.plan }
    requires strict { base.setting.known.strict ≡ true → F.strict kit.old.shelf ≡ true }
    requires reading { IsReadingOn base (S.opened kit.old.store)
        worker.old.readers.items worker.old.place worker.old.bench.pager }
    requires standing { IsStanding base stand.old }
    requires short { length schedule.now ≤ longest }
    ensures worked { OnOk result (AreLinesWorked base
        (observed_shelf F.strict F.faults kit.old.shelf kit.new.shelf)
        (observed_store S.files S.faults kit.old.store kit.new.store)
        (shown stand.old) (lines_of schedule.now) (shown stand.new) out.old out.new) }
    ensures refused { IfErr result (IsWorkRefused base
        (observed_shelf F.strict F.faults kit.old.shelf kit.new.shelf)
        (observed_store S.files S.faults kit.old.store kit.new.store)
        (shown stand.old) (lines_of schedule.now)) }
    ensures standing { OnOk result (IsStanding base stand.new) }
    ensures kept { IsKitKept F.faults F.strict S.faults S.files S.opened
        kit.old.shelf kit.new.shelf kit.old.store kit.new.store }
    ensures files { kit.new.files ≡ kit.old.files }
{
    let mut number = 0u32;
    let mut rest = schedule;
    'lines: while let Some((words, after)) = next_line(rest) {
        number += 1;
        let line = match allowed_line(stand, words, number) {
            Ok(line) => line,
            Err(refusal) => {
                stand.book.look_at_panes();
                return Err(refusal);
            }
        };
        let told = work(alloc, stand, line, plan, kit, worker)?;
        push_told(&told, out)?;
        rest = after;
    }
    Ok(())
}

// What a line asks for, if it is one and is allowed.
fn allowed_line(stand: &Stand, words: &[u8], number: u32) -> Result<Line, ReplayRefusal>
    ensures is { IfOk result (λ line. line_of words.now ≡ Some line) }
    ensures may { IfOk result (λ line. is_allowed (shown stand.now) line ≡ true) }
    ensures proper { IfOk result IsProper }
    ensures refused { IfErr result (IsLineRefused words.now (shown stand.now) number) }
{
    match read_line(words) {
        None => Err(ReplayRefusal::Bad(ScheduleRefusal::Line(number))),
        Some(line) => {
            if stand.allows(line) {
                Ok(line)
            } else {
                Err(ReplayRefusal::Bad(ScheduleRefusal::NotAllowed(number)))
            }
        }
    }
}

// Works a line that is allowed.
fn work<F: Shelf, S: Store>(
    alloc: Global,
    stand: &mut Stand,
    line: Line,
    plan: &Graph,
    kit: &mut Kit<F, S>,
    worker: &mut Worker,
) -> Result<Told, NoMemory>
    ghost base: { Base }
    requires plan { plan.now ≡ base.setting.plan }
    requires strict { base.setting.known.strict ≡ true → F.strict kit.old.shelf ≡ true }
    requires reading { IsReadingOn base (S.opened kit.old.store)
        worker.old.readers.items worker.old.place worker.old.bench.pager }
    requires standing { IsStanding base stand.old }
    requires may { is_allowed (shown stand.old) line ≡ true }
    requires proper { IsProper line }
    ensures done { IfOk result (λ told. IsWorked base
        (observed_shelf F.strict F.faults kit.old.shelf kit.new.shelf)
        (observed_store S.files S.faults kit.old.store kit.new.store)
        (shown stand.old) (shown stand.new) line (told_text told)) }
    ensures standing { OnOk result (IsStanding base stand.new) }
    ensures reading { IsReadingOn base (S.opened kit.new.store)
        worker.new.readers.items worker.new.place worker.new.bench.pager }
    ensures kept { IsKitKept F.faults F.strict S.faults S.files S.opened
        kit.old.shelf kit.new.shelf kit.old.store kit.new.store }
    ensures files { kit.new.files ≡ kit.old.files }
{
    match line {
        Line::Take { slot } => {
            let what = stand.take(alloc, slot)?;
            Ok(Told::Taken { slot, what })
        }
        Line::Claim { slot } => {
            let (p, claim) = stand.claim(slot, plan, kit, worker)?;
            Ok(Told::Claim {
                slot,
                p,
                what: claimed(claim),
            })
        }
        Line::RunJob { slot } => {
            let worked = stand.run(slot, plan, kit, worker)?;
            Ok(Told::Ran {
                slot,
                faulted: !worked,
            })
        }
        Line::Split { slot, num, den } => {
            let at = stand.split(slot, num, den)?;
            Ok(Told::Split { slot, at })
        }
        Line::Commit { slot } => {
            let (panes, drops) = stand.commit(slot)?;
            Ok(Told::Committed { slot, panes, drops })
        }
        Line::Fail { slot } => {
            let spent = stand.fail(slot);
            Ok(Told::Failed { slot, spent })
        }
        Line::Drain => {
            let spent = stand.drain(alloc, plan, kit, worker)?;
            Ok(Told::Drained { spent })
        }
    }
}

fn claimed(claim: ClaimEnd) -> Claimed
    ensures { result ≡ claimed_of claim }
{
    match claim {
        ClaimEnd::Refused => Claimed::Refused,
        ClaimEnd::Worked { .. } => Claimed::Worked,
        ClaimEnd::Faulted => Claimed::Faulted,
    }
}
