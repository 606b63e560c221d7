//! What holds of the outcome of a run. Each function does nothing, but for calling the laws that its own
//! rests on: its contract is the law.

ghost use Rattle.std.specs.Prelude.{◌≡◌, ◌≤◌, ℕ, true, false, List, [], Option, Some};
ghost use Rattle.std.specs.List.{All};
ghost use Rattle.std.specs.List.Sorted.{IsSorted};
ghost use Rattle.beam_values.specs.Cells.{cell_cmp, pane_cmp};
ghost use Rattle.beam_values.specs.Nodes.{HasNoStatefulAbove};
ghost use Rattle.beam_values.specs.declared.fault.FaultNote.{FaultNote};
ghost use Rattle.beam_values.specs.declared.file_text.FileText.{FileText};
ghost use Rattle.beam_values.specs.declared.options.Options.{Options};
ghost use Rattle.beam_values.specs.declared.outcome.Outcome.{Outcome};
ghost use Rattle.beam_values.specs.declared.outcome.StopCause.TheVariants as stop;
ghost use Rattle.beam_values.specs.declared.piece.FileLen.{FileLen};
ghost use Rattle.beam_values.specs.declared.plan.Plan.{Plan};
ghost use Rattle.beam_model.specs.Account.{IsAccounted};
ghost use Rattle.beam_model.specs.Covers.{IsCovered};
ghost use Rattle.beam_model.specs.Estimators.{AreSoundAbove};
ghost use Rattle.beam_model.specs.Flow.{elements_at};
ghost use Rattle.beam_model.specs.Logs.{AreLogsLegal};
ghost use Rattle.beam_model.specs.Panes.{ArePanesLegal};
ghost use Rattle.beam_model.specs.Plain.{ArePlainlyWrittenWhere, HasDefaultTriggersAbove};
ghost use Rattle.beam_model.specs.Plain.{IsPlainAt, NothingIsDroppedAbove};
ghost use Rattle.beam_model.specs.Positions.{items};
ghost use Rattle.beam_model.specs.Rendering.{log_cmp};
ghost use Rattle.beam_ports.specs.Observed.{WhereTold};
ghost use Rattle.book_core.specs.Book.{SeenBook, sets_aside};
ghost use Rattle.book_core.specs.Calls.{IsOutcomeOf};
ghost use Rattle.book_core.specs.Changes.{dead_cmp, done_cmp};
ghost use Rattle.book_core.specs.Runs.{AreTold, HonestRun, HonestlyReached, IsOpening, IsThrough};
ghost use Rattle.book_core.specs.Runs.{MadeStep, Reached};
ghost use Rattle.book_core.specs.Sane.{IsSane};
ghost use Rattle.book_core.specs.Steps.{IsIdle};
ghost use Rattle.book_core.specs.Stored.{IsSaneData, book_of};
ghost use Rattle.book_core.specs.Work.{Surroundings};
ghost use Rattle.book_core.specs.declared.data.BookData.{BookData};
ghost use Rattle.ended_runs.specs.DeadLetters.{AreDeadNoted, AreDeadPoison, ArePoisonDead};
ghost use Rattle.ended_runs.specs.DeadLetters.{HasNoPoisonPosition, IsPoisonDead, IsStoppedByRead};
ghost use Rattle.ended_runs.specs.EndedRuns.{IsEndedRun};
ghost use Rattle.ended_runs.specs.RunsOn.{FailsByReads, IsAtRest, IsStoppedByReadAfter};
ghost use Rattle.ended_runs.specs.RunsOn.{TakesNoPoisonAfter, TakesNoPoisonBesideAfter};
ghost use Rattle.ended_runs.specs.Sides.{AreSidesGivenWhere};
ghost use Rattle.ended_runs.specs.Stops.{IsHonestStop};
ghost use Rattle.ended_runs.specs.Storable.{ArePanesStorable};
ghost use Rattle.ended_runs.specs.Unpoisoned.{TakesNoPoison, TakesNoPoisonBeside};

use book_core::laws::{
    attempts_are_counted, cells_are_kept, reached_books_are_partitioned,
    reached_books_are_well_formed, told_books_are_kept,
};
use pipeline_graph::laws::{
    allowed_functions_go_forward, nodes_have_inputs_and_settings_of_their_kind,
    nodes_take_elements_of_their_strategy, stateful_nodes_have_no_sessions,
    strategies_follow_kinds,
};
use windowing::laws::windows_hold_their_time;

/// Each offset of each source item lies in exactly one committed range or is dead once, and no committed
/// range and no dead position has another offset: nothing is left out untold, and nothing is read twice.
pub fn outcomes_are_covered()
    ensures { (told : Option (List FileText)) (b : SeenBook) (o : Outcome)
        → Reached told b → IsThrough b → IsOutcomeOf b o → IsCovered o }
{
    reached_books_are_partitioned();
    reached_books_are_well_formed();
}

/// So it is of every sane book with nothing pending or worked, also of one that no run reached.
pub fn sane_books_are_covered()
    ensures { (b : SeenBook) (o : Outcome)
        → IsSane b → b.pending ≡ [] → IsIdle b → IsOutcomeOf b o → IsCovered o }
{}

/// A plan that sets no position aside has no dead one, so nothing is left out of the cover, the account and
/// the plain writing of its outcomes.
pub fn nothing_is_set_aside()
    ensures { (told : Option (List FileText)) (b : SeenBook) (o : Outcome)
        → Reached told b → sets_aside b.plan ≡ false → IsOutcomeOf b o → o.dead ≡ [] }
{
    attempts_are_counted();
}

/// Where the files are told, the outputs of every position that isn't dead, every pane and every logged
/// output came to each barrier that they reach exactly once, and nothing else did.
pub fn outcomes_are_accounted()
    ensures { (told : List FileText) (b : SeenBook) (o : Outcome)
        → Reached (Some told) b → AreTold told b → IsThrough b → IsOutcomeOf b o
        → IsAccounted (items told b.plan) o }
{
    reached_books_are_partitioned();
    reached_books_are_well_formed();
    cells_are_kept();
    told_books_are_kept();
}

/// The panes of an outcome are legal under the trigger of each Group, also those of a run that was given
/// up, and they stand by commit, node, key and window.
pub fn outcomes_have_legal_panes()
    ensures { (told : Option (List FileText)) (b : SeenBook) (o : Outcome)
        → Reached told b → IsOutcomeOf b o
        → ArePanesLegal o.plan o.commits o.cells o.dropped o.panes }
{
    cells_are_kept();
}

/// Where nothing is left to do, the logs of an outcome are legal, whatever the plan and the files are: there
/// is at most one for each Stateful node, key and window. Its calls are in one order, each on an element of
/// that key and window or on its first timer that was due, with the outputs that the function gives on the
/// state that the calls before left; and no timer is set at its end. That each element is called on once is
/// said by the account. Of a run that was given up a log may end while timers are set.
pub fn outcomes_have_legal_logs()
    ensures { (told : Option (List FileText)) (b : SeenBook) (o : Outcome)
        → Reached told b → IsThrough b → IsOutcomeOf b o
        → AreLogsLegal o.plan o.commits o.logs }
{}

/// The lists of an outcome are in order: done ranges by node, item and range, dead positions by node, item and
/// position, cells and logs by node, key and window, and panes by commit, node, key and window.
pub fn outcomes_are_in_order()
    ensures done { (told : Option (List FileText)) (b : SeenBook) (o : Outcome)
        → Reached told b → IsOutcomeOf b o → IsSorted done_cmp o.done }
    ensures dead { (told : Option (List FileText)) (b : SeenBook) (o : Outcome)
        → Reached told b → IsOutcomeOf b o → IsSorted dead_cmp o.dead }
    ensures cells { (told : Option (List FileText)) (b : SeenBook) (o : Outcome)
        → Reached told b → IsOutcomeOf b o → IsSorted cell_cmp o.cells }
    ensures logs { (told : Option (List FileText)) (b : SeenBook) (o : Outcome)
        → Reached told b → IsOutcomeOf b o → IsSorted log_cmp o.logs }
    ensures panes { (told : Option (List FileText)) (b : SeenBook) (o : Outcome)
        → Reached told b → IsOutcomeOf b o → IsSorted pane_cmp o.panes }
{
    reached_books_are_well_formed();
    cells_are_kept();
}

/// Where the files are told, no Group above a node drops an element, also in a run that was given up, if no
/// Stateful node is above it, each of these Groups has the default trigger and each estimator above it is
/// sound.
pub fn sound_groups_drop_nothing()
    ensures { (told : List FileText) (b : SeenBook) (o : Outcome) (node : ℕ)
        → Reached (Some told) b → IsOutcomeOf b o → HasNoStatefulAbove o.plan node
        → HasDefaultTriggersAbove o.plan node → AreSoundAbove o.plan (items told b.plan) node
        → NothingIsDroppedAbove o.plan node o.dropped }
{
    stateful_nodes_have_no_sessions();
    nodes_have_inputs_and_settings_of_their_kind();
    nodes_take_elements_of_their_strategy();
    strategies_follow_kinds();
    allowed_functions_go_forward();
    windows_hold_their_time();
}

/// Where the files are told: at each Write with no Stateful node above it, where every Group above has the
/// default trigger and every estimator above is sound, what was written is plain grouping of the whole
/// input without its dead positions, and no Group above it dropped an element, whatever was split, bundled
/// or tried again. Windows may be sessions, and Groups may stand one above another. The values of panes are
/// ones that a program can hold. Of a Write below a Stateful node nothing is said here, since the order of a
/// key's elements decides what comes to it.
pub fn outcomes_are_plainly_written()
    ensures { (told : List FileText) (b : SeenBook) (o : Outcome)
        → Reached (Some told) b → AreTold told b → IsThrough b → IsOutcomeOf b o
        → ArePanesStorable o → ArePlainlyWrittenWhere (items told b.plan) o }
{
    stateful_nodes_have_no_sessions();
    nodes_have_inputs_and_settings_of_their_kind();
    nodes_take_elements_of_their_strategy();
    strategies_follow_kinds();
    allowed_functions_go_forward();
    windows_hold_their_time();
}

/// Where the files are told: at each side input with no Stateful node above it, whose windows aren't sessions,
/// where every Group above has the default trigger and every estimator above is sound, each main element was
/// joined once, by its mode, with the whole view of its window and with nothing else, when that window had
/// passed. Both collections are those of plain grouping of the whole input without its dead positions.
pub fn joins_are_plain_side_inputs()
    ensures { (told : List FileText) (b : SeenBook) (o : Outcome)
        → Reached (Some told) b → AreTold told b → IsThrough b → IsOutcomeOf b o
        → ArePanesStorable o → AreSidesGivenWhere (items told b.plan) o }
{
    stateful_nodes_have_no_sessions();
    nodes_have_inputs_and_settings_of_their_kind();
    nodes_take_elements_of_their_strategy();
    strategies_follow_kinds();
    allowed_functions_go_forward();
    windows_hold_their_time();
}

/// Plain writing asks for sound estimators: there is a run with default triggers that came to its end, whose
/// Group dropped a line, so that what was written is no plain grouping. Of two lines the second is 5001
/// milliseconds before the first, and the lag is 5000.
pub fn a_lag_one_millisecond_too_small_drops_a_line()
    ensures { (told : List FileText) × (b : SeenBook) × (o : Outcome) × (node : ℕ)
        × IsEndedRun told b o node × HasDefaultTriggersAbove o.plan node
        × (NothingIsDroppedAbove o.plan node o.dropped → ⊥)
        × (IsPlainAt o.plan (items told b.plan) node (elements_at node o.written) → ⊥) }
{}

/// And it asks for default triggers: there is a run with sound estimators that came to its end and dropped
/// nothing, where what was written is no plain grouping. A Group that fires early shows the first of two
/// lines before the second comes.
pub fn an_early_trigger_splits_a_pane()
    ensures { (told : List FileText) × (b : SeenBook) × (o : Outcome) × (node : ℕ)
        × IsEndedRun told b o node × AreSoundAbove o.plan (items told b.plan) node
        × NothingIsDroppedAbove o.plan node o.dropped
        × (IsPlainAt o.plan (items told b.plan) node (elements_at node o.written) → ⊥) }
{}

/// A run that was given up by a fault met that fault: some job of it failed there honestly, as often as
/// it may.
pub fn stops_are_honest()
    ensures { (known : Surroundings) (b : SeenBook) (note : FaultNote)
        → HonestlyReached known b → b.stopped ≡ Some (stop.Spent note)
        → IsHonestStop known b note }
{
    attempts_are_counted();
}

/// A book that a run is opened with is at rest, and so is one that sane data stands for, as a snapshot's.
pub fn opened_and_stored_books_are_at_rest()
    ensures opened { (plan : Plan) (files : List FileLen) (options : Options) (b : SeenBook)
        → IsOpening plan files options b → IsAtRest b }
    ensures stored { (plan : Plan) (d : BookData) → IsSaneData plan d → IsAtRest (book_of d) }
{}

/// Where a run goes on from a book at rest over told files, calls fail on poison alone and no poison is taken
/// from then on, no further call fails. So it is given up only by reads, one of them after that book, and with
/// the calls that failed before at least as many failed as a job has attempts. No run need have reached the
/// book.
pub fn runs_on_without_poison_fail_by_reads()
    ensures { (known : Surroundings) (told : List FileText) (first b : SeenBook) (steps : List MadeStep)
        → known.told ≡ Some told → known.strict ≡ true → IsAtRest first
        → TakesNoPoisonAfter known first → HonestRun known first steps b → FailsByReads first b }
{}

/// Where the files are told and calls fail on poison alone, no call fails in a run that takes no poison.
/// So it is given up only by reads, of which at least as many failed as a job has attempts.
pub fn runs_without_poison_fail_by_reads()
    ensures calls { (known : Surroundings) (told : List FileText) (b : SeenBook)
        → known.told ≡ Some told → known.strict ≡ true → AreTold told b
        → TakesNoPoison known b.plan b.options → HonestlyReached known b → b.calls ≡ 0 }
    ensures reads { (known : Surroundings) (told : List FileText) (b : SeenBook) (note : FaultNote)
        → known.told ≡ Some told → known.strict ≡ true → AreTold told b
        → TakesNoPoison known b.plan b.options → HonestlyReached known b
        → b.stopped ≡ Some (stop.Spent note) → b.options.attempts ≤ b.reads }
{
    opened_and_stored_books_are_at_rest();
    runs_on_without_poison_fail_by_reads();
}

/// Work on each dead position failed as often as it may, the last time by a call, and each fail was counted,
/// also in a run that was given up. Where the files are told and nothing is left to do, each position that is
/// poison alone is dead.
pub fn outcomes_have_their_dead_letters()
    ensures noted { (told : Option (List FileText)) (b : SeenBook) (o : Outcome)
        → Reached told b → IsOutcomeOf b o → AreDeadNoted b o }
    ensures poison { (told : List FileText) (b : SeenBook) (o : Outcome)
        → Reached (Some told) b → AreTold told b → IsThrough b → IsOutcomeOf b o
        → ArePoisonDead told o }
{
    attempts_are_counted();
    reached_books_are_partitioned();
    reached_books_are_well_formed();
    told_books_are_kept();
}

/// And where besides calls fail on poison alone, no other position is dead or spent, also in a run that was
/// given up.
pub fn dead_positions_are_poison()
    ensures book { (known : Surroundings) (told : List FileText) (b : SeenBook)
        → known.told ≡ Some told → known.strict ≡ true → HonestlyReached known b
        → AreDeadPoison told b }
    ensures outcome { (known : Surroundings) (told : List FileText) (b : SeenBook) (o : Outcome)
        → known.told ≡ Some told → known.strict ≡ true → HonestlyReached known b
        → IsOutcomeOf b o → All (IsPoisonDead told o.plan) o.dead }
{}

/// Where a run goes on from a book at rest, positions are set aside, calls fail on poison alone, and no batch
/// and no key job that is taken from then on is poison, whatever the ranges are: what stops it by a fault is a
/// read, and one was counted after that book. Pieces may be spent there, and jobs may have
/// one attempt left.
pub fn runs_on_that_set_aside_are_stopped_by_reads()
    ensures { (known : Surroundings) (first b : SeenBook) (steps : List MadeStep)
        → known.strict ≡ true → sets_aside first.plan ≡ true → IsAtRest first
        → TakesNoPoisonBesideAfter known first → HonestRun known first steps b
        → IsStoppedByReadAfter first b }
{}

/// Where positions are set aside, calls fail on poison alone, and no batch and no key job that is taken is
/// poison, whatever the ranges are: what stops a run by a fault is a read, and one was counted.
pub fn runs_that_set_aside_are_stopped_by_reads()
    ensures { (known : Surroundings) (b : SeenBook)
        → known.strict ≡ true → sets_aside b.plan ≡ true
        → WhereTold known.told (λ told. AreTold told b)
        → TakesNoPoisonBeside known b.plan b.options → HonestlyReached known b
        → IsStoppedByRead b }
{
    opened_and_stored_books_are_at_rest();
    runs_on_that_set_aside_are_stopped_by_reads();
}

/// Where a run goes on from a book at rest over told files, calls fail on poison alone, and neither a position
/// nor a batch or a key job that is taken from then on is poison, no further call fails, and only reads give it
/// up, as above. A piece that is spent there may be of a position that isn't poison: it is set aside as it is.
pub fn runs_on_without_poison_positions_fail_by_reads()
    ensures { (known : Surroundings) (told : List FileText) (first b : SeenBook) (steps : List MadeStep)
        → known.told ≡ Some told → known.strict ≡ true → IsAtRest first
        → HasNoPoisonPosition told first.plan → TakesNoPoisonBesideAfter known first
        → HonestRun known first steps b → FailsByReads first b }
{}

/// Where the files are told, calls fail on poison alone, and neither a position nor a batch or a key job that
/// is taken is poison, a run is given up only by reads, of which at least as many failed as a job has
/// attempts.
pub fn runs_without_poison_positions_fail_by_reads()
    ensures { (known : Surroundings) (told : List FileText) (b : SeenBook) (note : FaultNote)
        → known.told ≡ Some told → known.strict ≡ true → AreTold told b
        → HasNoPoisonPosition told b.plan → TakesNoPoisonBeside known b.plan b.options
        → HonestlyReached known b → b.stopped ≡ Some (stop.Spent note)
        → b.options.attempts ≤ b.reads }
{
    opened_and_stored_books_are_at_rest();
    runs_on_without_poison_positions_fail_by_reads();
}
