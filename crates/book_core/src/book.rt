ghost use Rattle.std.specs.Prelude.{◌≡◌, ℕ, ◌≤◌, ◌<◌, [], ◌∷◌, reverse, length, List, Option, Some};
ghost use Rattle.std.specs.Prelude.{None, IfOk, IfErr, OnOk, OnErr};
ghost use Rattle.std.specs.List.{All};
ghost use Rattle.beam_values.specs.Storable.{IsStorable};
ghost use Rattle.beam_values.specs.declared.file_text.FileText.{FileText};
ghost use Rattle.beam_model.specs.Positions.{items};
ghost use Rattle.book_core.specs.Book.{SeenBook};
ghost use Rattle.book_core.specs.Calls.{Makes, CanClaim, CanFail, answer_of, failure_of};
ghost use Rattle.book_core.specs.Calls.{live_piece, IsOutcomeOf};
ghost use Rattle.book_core.specs.DueAt.{IsDueAs};
ghost use Rattle.book_core.specs.Jobs.{first_due, next_cell};
ghost use Rattle.book_core.specs.Runs.{AreOptions, AreLengthsOf, IsOpening};
ghost use Rattle.book_core.specs.Sane.{IsSane};
ghost use Rattle.book_core.specs.Steps.{Enroll, Take, Claim, Split, Fail, Stop, Enrolled, Claimed};
ghost use Rattle.book_core.specs.Steps.{SplitAt, Noted, IsFree, IsRunning, IsNextFor, CanCommit};
ghost use Rattle.book_core.specs.Steps.{IsCommitting, IsWithinLimits};
ghost use Rattle.book_core.specs.Stored.{book_of, IsDataOf, IsSaneData};

use crate::breaking::{break_range, broken_range, keep_parts, most_parts};
use crate::commits::Commits;
use crate::committing::{
    Fired, GREATEST_COUNT, dead_of, done_of, fire, free_job, free_residual, has_numbers, hold_job,
    hold_residual, keep_room, own_in, put_back, residual_of, wait_all,
};
use crate::data::BookData;
use crate::due::{DueAt, batch_job, first_due, piece_job, started};
use crate::failing::{attempts_of, failure_of, give_back, note_of, stopped_after, take_out};
use crate::held::{NodeHolds, mark_of_piece};
use crate::key_job::{elements_of, key_done, key_job, logged_of};
use crate::keyed::{have_numbers, place};
use crate::live::{Batch, Failure, Live, Taken, Unplaced};
use crate::opening::{cut_files, empty_queues, hold_pieces, mark_nodes};
use crate::outcome::{in_order, logs_in_order};
use crate::queue::Queue;
use crate::restoring::{CellTables, Restored, count_waiting, restore, restore_cells};
use crate::results::Results;
use crate::storable::look_at_panes;
use crate::storing::{
    Committed, Given, HeldCells, Uncommitted, copy_cells, copy_given, copy_results,
    copy_uncommitted,
};
use crate::working::{
    count_batches, count_pieces, idle_answer, most_left, piece_at, span_at, tracker_of,
};
use beam_values::{
    Cause, Dead, Done, FileLen, List, NoMemory, Options, Outcome, Piece, RoomyList, StopCause,
};
use bundle_commit::{Job, Receipt};
use group_cells::Groups;
use pipeline_graph::Graph;
use pipeline_graph::laws::{
    nodes_take_elements_of_their_strategy, stateful_nodes_have_no_sessions, strategies_follow_kinds,
};
use retry_core::{FaultShare, next_attempt};
use split_core::Pieces;
use stateful_core::Keys;
use std::alloc::Global;
use std::marker::Model;

/// The book of a run. Contracts see it as plain data.
#[derive(Debug, Drop)]
pub struct Book {
    graph: Graph,
    files: List<FileLen>,
    options: Options,
    pieces: Pieces,
    slots: Vec<Option<Live>>,
    queues: Vec<Queue>,
    returned: RoomyList<Batch>,
    groups: Groups,
    keys: Keys,
    // How many elements wait at key cells, those that are worked counted in.
    waiting: usize,
    results: Results,
    faults: FaultShare,
    stopped: Option<StopCause>,
    // Of each node the marks that hold it back: of pieces that aren't committed, and of panes that aren't
    // through.
    held: NodeHolds,
    alloc: Global,
}

impl Model for Book {
    ghost use Rattle.beam_values.specs.contracts.value.Value as value;
    ghost use Rattle.book_core.specs.Book.{SeenBook};
    ghost use Rattle.std.specs.Coded.{codes};

    ghost Value = { SeenBook };

    ghost coded = { Prim.hlevel (codes, value.the_row.coded) };

    ghost use Rattle.book_core.specs.Inside.{data_of, IsKept};

    ghost view = { data_of };

    ghost invariant = { IsKept };
}

impl Book {
    /// All pieces are pending, and no slot is there yet.
    pub fn opening(
        alloc: Global,
        graph: Graph,
        files: List<FileLen>,
        options: Options,
    ) -> Result<Book, NoMemory>
        requires lengths { AreLengthsOf (items [] graph) files }
        requires allowed { AreOptions options }
        ensures { IfOk result (IsOpening graph files options) }
    {
        let plan = graph.plan();
        let pieces = cut_files(alloc, files.as_slice(), options.chunk)?;
        if pieces.len() >= GREATEST_COUNT {
            return Err(NoMemory);
        }
        let held = hold_pieces(alloc, plan, pieces.pending())?;
        let marks = mark_nodes(alloc, plan, &held)?;
        let queues = empty_queues(alloc, plan.nodes.as_slice())?;
        let groups = Groups::new(alloc, plan)?;
        let results = Results::new(alloc, marks);
        Ok(Book {
            graph,
            files,
            options,
            pieces,
            slots: Vec::new(alloc),
            queues,
            returned: RoomyList::new(alloc),
            groups,
            keys: Keys::new(alloc),
            waiting: 0,
            results,
            faults: FaultShare::new(),
            stopped: None,
            held,
            alloc,
        })
    }

    /// A graph that breaks no rule.
    pub fn graph(&self) -> &Graph
        ensures { result.now ≡ self.now.plan }
    {
        &self.graph
    }

    /// The options of the run, which no step changes.
    pub fn options(&self) -> Options
        ensures { result ≡ self.now.options }
    {
        self.options
    }

    /// The committed ranges.
    pub fn done(&self) -> &[Done]
        ensures { result.now ≡ self.now.done }
    {
        self.results.done.as_slice()
    }

    /// The positions that were set aside, by node, item and position.
    pub fn dead(&self) -> &[Dead]
        ensures { result.now ≡ self.now.dead }
    {
        self.results.dead.as_slice()
    }

    /// The pieces that no slot works, the first to be taken last.
    pub fn pending(&self) -> &[Piece]
        ensures { result.now ≡ reverse self.now.pending }
    {
        self.pieces.pending()
    }

    /// The piece that a slot works, with its present range.
    pub fn live(&self, slot: u32) -> Option<Piece>
        ensures { result ≡ live_piece self.now slot }
    {
        piece_at(self.slots.as_slice(), slot)
    }

    /// How many commits there were, the opening counted in.
    pub fn commits(&self) -> u32
        ensures { result ≡ length self.now.commits }
    {
        self.results.commits.len() as u32
    }

    /// How many panes have fired.
    pub fn fired(&self) -> u32
        ensures { result ≡ length self.now.panes }
    {
        self.results.panes.len() as u32
    }

    /// How many elements came too late.
    pub fn dropped(&self) -> u32
        ensures { result ≡ length self.now.dropped }
    {
        self.groups.dropped().len() as u32
    }

    /// A law: what every book is.
    pub fn is_sane(&self)
        ensures { IsSane self.now }
    {
        let _ = &self.faults;
    }

    /// A law: each number in the panes has 64 bits.
    pub fn look_at_panes(&self)
        ensures { All (λ pane. IsStorable pane.element.value) self.now.panes }
    {
        look_at_panes(self.results.panes.as_slice());
    }

    /// One more slot, which works nothing. Answers its number.
    pub fn enroll(&mut self) -> Result<u32, NoMemory>
        ensures ok { IfOk result
            (λ number. Makes self.old number Enroll (Enrolled number) self.new) }
        ensures err { OnErr result (self.new ≡ self.old) }
    {
        let number = self.slots.len();
        if number >= GREATEST_COUNT - 1 {
            return Err(NoMemory);
        }
        self.slots.push(None)?;
        Ok(number as u32)
    }

    /// The next job, which the slot works from now on. Keeps the room that a fail or a checkpoint of it
    /// needs.
    pub fn take(&mut self, slot: u32) -> Result<Taken, NoMemory>
        requires { IsFree self.old slot }
        ensures ok { IfOk result (λ taken. Makes self.old slot Take (answer_of taken) self.new) }
        ensures err { OnErr result (self.new ≡ self.old) }
    {
        if self.stopped.is_some() {
            return Ok(Taken::Stopped);
        }
        match first_due(self.returned.as_slice(), self.queues.as_slice()) {
            Some(DueAt::GivenBack(at)) => self.take_returned(slot, at),
            Some(DueAt::Oldest(node)) => self.take_oldest(slot, node),
            None => self.take_key(slot),
        }
    }

    fn take_returned(&mut self, slot: u32, at: usize) -> Result<Taken, NoMemory>
        requires running { IsRunning self.old }
        requires free { IsFree self.old slot }
        requires due { IsDueAs self.old (first_due self.old) (Some (DueAt.GivenBack at)) }
        ensures ok { IfOk result (λ taken. Makes self.old slot Take (answer_of taken) self.new) }
        ensures err { OnErr result (self.new ≡ self.old) }
    {
        let batch = &self.returned.as_slice()[at];
        let job = batch_job(self.alloc, self.results.panes.as_slice(), batch)?;
        let batch = self.returned.remove(at);
        self.slots[slot as usize] = Some(Live::Batch(batch));
        Ok(Taken::Job(job))
    }

    fn take_oldest(&mut self, slot: u32, node: u32) -> Result<Taken, NoMemory>
        requires running { IsRunning self.old }
        requires free { IsFree self.old slot }
        requires due { IsDueAs self.old (first_due self.old) (Some (DueAt.Oldest node)) }
        ensures ok { IfOk result (λ taken. Makes self.old slot Take (answer_of taken) self.new) }
        ensures err { OnErr result (self.new ≡ self.old) }
    {
        let most = self.options.bundle as usize;
        let queue = &self.queues[node as usize];
        let panes = queue.oldest(self.alloc, most)?;
        let batch = Batch {
            node,
            panes,
            attempts: 0,
        };
        let job = batch_job(self.alloc, self.results.panes.as_slice(), &batch)?;
        self.returned
            .reserve(count_batches(self.slots.as_slice()) + 1)?;
        let queue = &mut self.queues[node as usize];
        queue.remove_oldest(most);
        self.slots[slot as usize] = Some(Live::Batch(batch));
        Ok(Taken::Job(job))
    }

    // The job that is handed out and the one that the slot keeps share their state.
    fn take_key(&mut self, slot: u32) -> Result<Taken, NoMemory>
        requires running { IsRunning self.old }
        requires free { IsFree self.old slot }
        requires none { first_due self.old ≡ None }
        ensures ok { IfOk result (λ taken. Makes self.old slot Take (answer_of taken) self.new) }
        ensures err { OnErr result (self.new ≡ self.old) }
    {
        let bundle = self.options.bundle;
        let marks = self.results.commits.last_marks();
        let Some(turn) = self.keys.next_job(marks, bundle)? else {
            return self.take_piece(slot);
        };
        let worked = turn.share(self.alloc)?;
        self.keys.start_job(turn.cell, bundle);
        self.slots[slot as usize] = Some(Live::Key(worked));
        Ok(Taken::Job(key_job(turn)))
    }

    fn take_piece(&mut self, slot: u32) -> Result<Taken, NoMemory>
        requires running { IsRunning self.old }
        requires free { IsFree self.old slot }
        requires none { first_due self.old ≡ None }
        requires no_cell { next_cell self.old ≡ None }
        ensures ok { IfOk result (λ taken. Makes self.old slot Take (answer_of taken) self.new) }
        ensures err { OnErr result (self.new ≡ self.old) }
    {
        if self.pieces.is_empty() {
            return Ok(idle_answer(self.slots.as_slice()));
        }
        let worked = count_pieces(self.slots.as_slice());
        keep_parts(&mut self.pieces, self.graph.plan(), worked)?;
        let Some(piece) = self.pieces.take() else {
            unreachable!()
        };
        self.slots[slot as usize] = Some(started(&piece));
        Ok(Taken::Job(piece_job(&piece)))
    }

    /// The slot's live range attempts a position. Takes no memory.
    pub fn claim(&mut self, slot: u32, p: u64) -> bool
        requires { CanClaim self.old slot p }
        ensures { Makes self.old slot (Claim p) (Claimed result) self.new }
    {
        let Some((piece, attempted)) = span_at(self.slots.as_slice(), slot) else {
            unreachable!()
        };
        let mut tracker = tracker_of(&piece, attempted);
        let granted = tracker.try_claim(p);
        self.slots[slot as usize] = Some(Live::Span {
            piece,
            attempted: Some(p),
        });
        granted
    }

    /// Splits the slot's live range, if it has one that isn't spent and can be split there. What is answered is
    /// where.
    pub fn split(&mut self, slot: u32, num: u64, den: u64) -> Result<Option<u64>, NoMemory>
        requires proper { num ≤ den }
        requires positive { 1 ≤ den }
        requires small { den ≤ 1000000 }
        ensures ok { IfOk result (λ at. Makes self.old slot (Split num den) (SplitAt at) self.new) }
        ensures err { OnErr result (self.new ≡ self.old) }
    {
        let Some((piece, attempted)) = span_at(self.slots.as_slice(), slot) else {
            return Ok(None);
        };
        let mut tracker = tracker_of(&piece, attempted);
        let Some(rest) = tracker.try_split(num, den) else {
            return Ok(None);
        };
        let worked = count_pieces(self.slots.as_slice());
        if self.pieces.len() + most_parts(self.graph.plan(), worked) >= GREATEST_COUNT - 1 {
            return Err(NoMemory);
        }
        self.held.keep_room(piece.node, 1)?;
        self.pieces.add_residual(Piece {
            range: rest,
            attempts: 0,
            ..piece
        })?;
        let mark = mark_of_piece(self.graph.plan(), &piece);
        self.held.add_kept(piece.node, mark);
        self.slots[slot as usize] = Some(Live::Span {
            piece: Piece {
                range: tracker.range(),
                ..piece
            },
            attempted,
        });
        Ok(Some(rest.from()))
    }

    /// Places the receipt of the slot's job: arrivals become entries, wait at key cells or are written, the
    /// range that was worked is done and its rest pending again, the position of a spent piece is set aside, a
    /// key job's calls are logged, panes fire and wait, and the slot is free. Where there is no memory nothing is
    /// changed, and the receipt is handed back.
    pub fn commit(&mut self, slot: u32, receipt: Receipt) -> Result<(), Unplaced>
        requires { CanCommit None self.old slot receipt }
        ensures ok { OnOk result
            ((told : Option (List FileText)) → CanCommit told self.old slot receipt
            → IsCommitting told self.old slot receipt self.new × IsWithinLimits self.new) }
        ensures err { IfErr result
            (λ unplaced. (unplaced.receipt ≡ receipt) × (self.new ≡ self.old)) }
    {
        stateful_nodes_have_no_sessions();
        nodes_take_elements_of_their_strategy();
        strategies_follow_kinds();
        let count = receipt.arrivals.len();
        if !has_numbers(&self.results, &self.groups, count) {
            return Err(Unplaced { receipt });
        }
        if !have_numbers(&self.keys, self.waiting, count) {
            return Err(Unplaced { receipt });
        }
        let most = self.groups.cells().len() + count;
        let own = own_in(self.slots.as_slice(), slot);
        let plan = self.graph.plan();
        let Ok(()) = keep_room(
            plan,
            &mut self.queues,
            &mut self.held,
            &mut self.results,
            own,
            most,
            count,
        ) else {
            return Err(Unplaced { receipt });
        };
        let Some(job) = take_out(&mut self.slots, slot) else {
            unreachable!()
        };
        let residual = residual_of(&job, &receipt);
        free_job(&mut self.held, plan, &job);
        hold_residual(&mut self.held, plan, &residual);
        let Receipt {
            mut arrivals,
            seen,
            logged,
        } = receipt;
        let number = self.results.commits.len() as u32;
        let done = key_done(&job, logged, number);
        let first = self.results.panes.len() as u32;
        let before = self.results.commits.last_marks();
        let fired = fire(
            self.alloc,
            plan,
            &mut self.groups,
            &mut self.keys,
            done.as_ref(),
            &mut arrivals,
            &self.held,
            before,
            number,
        );
        let Ok(fired) = fired else {
            free_residual(&mut self.held, plan, &residual);
            hold_job(&mut self.held, plan, &job);
            self.slots[slot as usize] = Some(job);
            return Err(Unplaced {
                receipt: Receipt {
                    arrivals,
                    seen,
                    logged: logged_of(done),
                },
            });
        };
        let Fired { panes, marks } = fired;
        wait_all(
            &mut self.queues,
            &mut self.held,
            before,
            first,
            panes.as_slice(),
        );
        put_back(&mut self.pieces, residual);
        let waiting = place(&mut self.keys, plan, done, &mut arrivals, before);
        self.waiting += waiting;
        self.waiting -= elements_of(&job);
        self.results
            .add(plan, done_of(&job), dead_of(&job), panes, arrivals, marks);
        Ok(())
    }

    /// The slot whose range an idle slot splits at a half: another one with the most left, the lowest of
    /// these. Takes no memory.
    pub fn next_for(&self, slot: u32) -> Option<u32>
        ensures { IsNextFor self.now slot result }
    {
        most_left(self.slots.as_slice(), slot)
    }

    /// The slot's job failed: it is given back. At the limit the book is stopped, or, where a call failed on a
    /// range of a plan that sets positions aside, the range is broken. Takes no memory.
    pub fn fail(&mut self, slot: u32, at: u32, cause: Cause) -> Failure
        requires { CanFail self.old slot }
        ensures { Makes self.old slot (Fail at cause) (failure_of result) self.new }
    {
        let Some(job) = take_out(&mut self.slots, slot) else {
            unreachable!()
        };
        let note = note_of(&job, at, cause);
        let next = next_attempt(attempts_of(&job), self.options.attempts);
        self.faults.rise(cause, 1);
        let plan = self.graph.plan();
        if let Some((piece, attempted)) = broken_range(plan, &job, cause, next) {
            break_range(
                &mut self.pieces,
                &mut self.held,
                plan,
                piece,
                attempted,
                note,
            );
            return Failure::Retry;
        }
        give_back(
            &mut self.pieces,
            &mut self.returned,
            &mut self.keys,
            job,
            at,
            cause,
        );
        self.stopped = stopped_after(self.stopped, next, note);
        failure_of(next, note)
    }

    /// No job is given out any more. Takes no memory.
    pub fn stop(&mut self)
        ensures { (slot : ℕ) → Makes self.old slot Stop Noted self.new }
    {
        self.stopped = self.stopped.or(Some(StopCause::NoMemory));
    }

    /// What the book holds. It has one slot, which works nothing, and isn't stopped.
    pub fn book_data(&self) -> Result<BookData, NoMemory>
        requires slot { self.now.slots ≡ None ∷ [] }
        requires running { IsRunning self.now }
        ensures { IfOk result (λ stored. IsDataOf stored self.now) }
    {
        let Given { plan, files } = copy_given(
            self.alloc,
            self.graph.plan(),
            self.files.as_slice(),
        )?;
        let Uncommitted {
            pending,
            waiting,
            returned,
        } = copy_uncommitted(
            self.alloc,
            &self.pieces,
            self.queues.as_slice(),
            self.returned.as_slice(),
        )?;
        let HeldCells {
            cells,
            dropped,
            keys,
        } = copy_cells(self.alloc, &self.groups, &self.keys)?;
        let Committed {
            panes,
            done,
            dead,
            written,
            commits,
        } = copy_results(self.alloc, &self.results)?;
        Ok(BookData {
            plan,
            files,
            options: self.options,
            pending,
            waiting,
            returned,
            cells,
            dropped,
            keys,
            panes,
            done,
            dead,
            written,
            commits,
            calls: self.faults.calls,
            reads: self.faults.reads,
        })
    }

    /// The book that this data stands for.
    pub fn of_data(alloc: Global, graph: Graph, stored: BookData) -> Result<Book, NoMemory>
        requires { IsSaneData graph stored }
        ensures { IfOk result (λ book. book ≡ book_of stored) }
    {
        let plan = graph.plan();
        let Restored {
            pieces,
            slots,
            queues,
            held,
        } = restore(alloc, plan, &stored)?;
        let waiting = count_waiting(stored.keys.as_slice());
        let BookData {
            files,
            options,
            returned,
            cells,
            dropped,
            keys,
            panes,
            done,
            dead,
            written,
            commits,
            calls,
            reads,
            ..
        } = stored;
        let results = Results {
            panes: RoomyList::from_list(panes),
            done: RoomyList::from_list(done),
            dead: RoomyList::from_list(dead),
            written: RoomyList::from_list(written),
            commits: Commits::from_list(alloc, commits),
        };
        let marks = results.commits.last_marks();
        let CellTables { groups, keys } = restore_cells(alloc, plan, cells, dropped, keys, marks)?;
        Ok(Book {
            graph,
            files,
            options,
            pieces,
            slots,
            queues,
            returned: RoomyList::from_list(returned),
            groups,
            keys,
            waiting,
            results,
            faults: FaultShare { calls, reads },
            stopped: None,
            held,
            alloc,
        })
    }

    /// The book's own data, with its cells, and the logs of its key cells, by node, key bytes and window.
    pub fn outcome(self) -> Result<Outcome, NoMemory>
        ensures { IfOk result (IsOutcomeOf self) }
    {
        let Book {
            graph,
            files,
            groups,
            keys,
            results,
            stopped,
            ..
        } = self;
        let Results {
            panes,
            done,
            dead,
            written,
            commits,
        } = results;
        let (cells, dropped) = groups.into_lists();
        Ok(Outcome {
            plan: graph.into_plan(),
            files,
            done: done.into_list(),
            dead: dead.into_list(),
            cells: in_order(cells)?,
            panes: panes.into_list(),
            dropped,
            logs: logs_in_order(keys.into_logs()?)?,
            written: written.into_list(),
            commits: commits.into_list()?,
            stopped,
        })
    }
}
