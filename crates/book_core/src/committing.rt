ghost use Rattle.std.specs.Prelude.{◌≡◌, ℕ, true, false, ◌+◌, ◌<◌, ◌≤◌, ◌==◌, if◌then◌else◌, [], ◌∷◌};
ghost use Rattle.std.specs.Prelude.{◌++◌, List, length, map, slice_get, Some, None, IfOk, OnOk, OnErr};
ghost use Rattle.std.specs.List.{All, enumerate_from};
ghost use Rattle.std.specs.Int.{int_max};
ghost use Rattle.std.specs.Option.{ForSome, option_copied, option_map, option_to_list};
ghost use Rattle.beam_model.specs.Holds.{Hold, pane_hold, piece_hold};
ghost use Rattle.beam_values.specs.Checked.{IsChecked};
ghost use Rattle.beam_values.specs.Nodes.{is_group, is_group_kind};
ghost use Rattle.beam_values.specs.declared.plan.Node.{Node};
ghost use Rattle.stateful_core.specs.Cells.{key_holds};
ghost use Rattle.book_core.specs.KeyCells.{CanPlace, cells_in, has_stateful};
ghost use Rattle.stateful_core.specs.Opening.{IsStanding, done_of};
ghost use Rattle.stateful_core.specs.Placing.{place};
ghost use Rattle.group_cells.specs.Commits.{AreRounds, HasGap, IsCommitted, RisesFrom};
ghost use Rattle.book_core.specs.Changes.{as_waiting, done_of as range_done, residual_of, with_fired};
ghost use Rattle.book_core.specs.Changes.{with_residual};
ghost use Rattle.book_core.specs.Committing.{node_of, count_of, pane_holds, job_holds, residual_in};
ghost use Rattle.book_core.specs.Committing.{residual_holds, dead_in, done_in, list_at, position_dead};
ghost use Rattle.book_core.specs.Committing.{HasRoom, HasRoomFor};
ghost use Rattle.book_core.specs.Facts.{IsAttemptedWithin};
ghost use Rattle.book_core.specs.Indexes.{room_in, marks_in, least_in, least_with, AreHeldIn};
ghost use Rattle.book_core.specs.declared.live.Live.{Live};
ghost use Rattle.book_core.specs.declared.live.Live.TheVariants as live;

use crate::grouped::{commit_groups, is_group};
use crate::held::{NodeHolds, mark_of_piece};
use crate::keyed::prepare;
use crate::live::{Live, WaitingPane};
use crate::queue::Queue;
use crate::results::Results;
use crate::working::tracker_of;
use beam_values::{
    Arrival, Dead, Done, List, Mark, NoMemory, Node, Pane, Piece, Plan, StageMarks, Time,
};
use bundle_commit::Receipt;
use group_cells::Groups;
use split_core::Pieces;
use stateful_core::{KeyDone, Keys};
use std::alloc::Global;

/// Lists whose places are numbered with 32 bits are shorter than this.
pub const GREATEST_COUNT: usize = 4_294_967_295;

/// Whether all places that a commit of so many arrivals may add have numbers of 32 bits. At most the
/// cells and the arrivals fire.
pub fn has_numbers(results: &Results, groups: &Groups, arrivals: usize) -> bool
    requires commits { length results.now.commits.items < 4294967295 }
    requires panes { length results.now.panes.items < 4294967295 }
    requires dropped { length groups.now.dropped < 4294967295 }
    ensures cells { result ≡ true → length groups.now.cells + arrivals < 4294967295 }
    ensures commits { result ≡ true → length results.now.commits.items + 1 < 4294967295 }
    ensures panes { result ≡ true
        → length results.now.panes.items + (length groups.now.cells + arrivals) < 4294967295 }
    ensures dropped { result ≡ true → length groups.now.dropped + arrivals < 4294967295 }
{
    let cells = groups.cells().len();
    cells < GREATEST_COUNT
        && arrivals < GREATEST_COUNT
        && results.commits.len() < GREATEST_COUNT - 1
        && results.panes.len() + cells + arrivals < GREATEST_COUNT
        && groups.dropped().len() + arrivals < GREATEST_COUNT
}

/// The node that a job holds back, and how often.
#[derive(Clone, Copy, Debug)]
pub struct Own {
    pub node: u32,
    pub count: usize,
}

/// What the job of a slot holds back: a node and how many; without a job node 0, and none.
pub fn own_in(slots: &[Option<Live>], slot: u32) -> Own
    ensures node { (job : Live) → slice_get slots.now slot ≡ Some (Some job)
        → result.node ≡ node_of job }
    ensures count { (job : Live) → slice_get slots.now slot ≡ Some (Some job)
        → result.count ≡ count_of job }
{
    match slots.get(slot as usize) {
        Some(Some(job)) => own_of(job),
        _ => Own { node: 0, count: 0 },
    }
}

fn own_of(job: &Live) -> Own
    ensures node { result.node ≡ node_of job.now }
    ensures count { result.count ≡ count_of job.now }
{
    match job {
        Live::Span { piece, .. } => Own {
            node: piece.node,
            count: 1,
        },
        Live::Batch(batch) => Own {
            node: batch.node,
            count: batch.panes.len(),
        },
        Live::Key(turn) => Own {
            node: turn.node,
            count: 0,
        },
    }
}

/// Keeps all the room that a commit needs: to put the marks of the job and of what is left of it, for
/// the panes that may fire, and for what it brings.
pub fn keep_room(
    plan: &Plan,
    queues: &mut Vec<Queue>,
    held: &mut NodeHolds,
    results: &mut Results,
    own: Own,
    fired: usize,
    arrivals: usize,
) -> Result<(), NoMemory>
    requires checked { IsChecked plan.now }
    requires queues { length queues.old.items ≡ length plan.now.nodes }
    requires held { length held.old ≡ length plan.now.nodes }
    requires own { own.node < length plan.now.nodes }
    requires fired { fired < 4294967295 }
    ensures own { OnOk result (own.count + 1 ≤ room_in held.new own.node) }
    ensures groups { OnOk result
        ((n : ℕ) → is_group plan.now n ≡ true → HasRoom queues.new.items held.new n (fired + 1)) }
    ensures results { OnOk result (HasRoomFor results.new fired arrivals) }
    ensures queued { map (λ q. q.panes) queues.new.items ≡ map (λ q. q.panes) queues.old.items }
    ensures marks { (n : ℕ) → marks_in held.new n ≡ marks_in held.old n }
    ensures sized { length held.new ≡ length held.old }
    ensures panes { results.new.panes.items ≡ results.old.panes.items }
    ensures done { results.new.done.items ≡ results.old.done.items }
    ensures dead { results.new.dead.items ≡ results.old.dead.items }
    ensures written { results.new.written.items ≡ results.old.written.items }
    ensures commits { results.new.commits.items ≡ results.old.commits.items }
{
    let Some(places) = own.count.checked_add(1) else {
        return Err(NoMemory);
    };
    held.keep_room(own.node, places)?;
    keep_at_groups(plan.nodes.as_slice(), queues, held, fired + 1)?;
    results.keep_room(fired, arrivals)?;
    Ok(())
}

/// What is left of the job's range behind its last attempted position, with what its bundle has seen. Of a
/// spent piece nothing is left.
pub fn residual_of(job: &Live, receipt: &Receipt) -> Option<Piece>
    requires { IsAttemptedWithin (Some job.now) }
    ensures { result ≡ residual_in job.now receipt.now }
{
    match job {
        Live::Span { piece, attempted } if piece.spent.is_none() => {
            residual_piece(piece, *attempted, receipt)
        }
        Live::Span { .. } => None,
        Live::Batch(_) => None,
        Live::Key(_) => None,
    }
}

fn residual_piece(piece: &Piece, attempted: Option<u64>, receipt: &Receipt) -> Option<Piece>
    requires { IsAttemptedWithin (Some (live.Span piece.now attempted)) }
    ensures { result ≡ residual_of piece.now attempted receipt.now }
{
    let mut tracker = tracker_of(piece, attempted);
    let rest = tracker.checkpoint()?;
    Some(Piece {
        range: rest,
        seen: receipt.seen,
        attempts: 0,
        ..*piece
    })
}

/// The range that the job did. A spent piece did none.
pub fn done_of(job: &Live) -> Option<Done>
    requires { IsAttemptedWithin (Some job.now) }
    ensures { result ≡ done_in job.now }
{
    match job {
        Live::Span { piece, attempted } if piece.spent.is_none() => {
            Some(done_range(piece, *attempted))
        }
        Live::Span { .. } => None,
        Live::Batch(_) => None,
        Live::Key(_) => None,
    }
}

/// The position that the job sets aside: that of a spent piece.
pub fn dead_of(job: &Live) -> Option<Dead>
    ensures { result ≡ dead_in job.now }
{
    match job {
        Live::Span { piece, .. } => dead_position(piece),
        Live::Batch(_) => None,
        Live::Key(_) => None,
    }
}

fn dead_position(piece: &Piece) -> Option<Dead>
    ensures { result ≡ position_dead piece.now.spent piece.now }
{
    match piece.spent {
        Some(note) => Some(Dead {
            node: piece.node,
            item: piece.item,
            at: piece.range.from(),
            note,
        }),
        None => None,
    }
}

fn done_range(piece: &Piece, attempted: Option<u64>) -> Done
    requires { IsAttemptedWithin (Some (live.Span piece.now attempted)) }
    ensures { result ≡ range_done piece.now attempted }
{
    let mut tracker = tracker_of(piece, attempted);
    let _ = tracker.checkpoint();
    Done {
        node: piece.node,
        item: piece.item,
        range: tracker.range(),
    }
}

/// Takes out the marks at which a job holds its node back.
pub fn free_job(held: &mut NodeHolds, plan: &Plan, job: &Live)
    requires checked { IsChecked plan.now }
    requires holds { (holds : List Hold)
        × AreHeldIn held.old (job_holds plan.now job.now ++ holds) }
    ensures freed { (holds : List Hold)
        → AreHeldIn held.old (job_holds plan.now job.now ++ holds) → AreHeldIn held.new holds }
    ensures kept { (n : ℕ) → room_in held.old n ≤ room_in held.new n }
    ensures sized { length held.new ≡ length held.old }
{
    match job {
        Live::Span { piece, .. } => free_piece(held, plan, piece),
        Live::Batch(batch) => free_panes(held, batch.node, batch.panes.as_slice()),
        Live::Key(_) => {}
    }
}

fn free_piece(held: &mut NodeHolds, plan: &Plan, piece: &Piece)
    requires checked { IsChecked plan.now }
    requires holds { (holds : List Hold)
        × AreHeldIn held.old (piece_hold plan.now piece.now ∷ holds) }
    ensures freed { (holds : List Hold)
        → AreHeldIn held.old (piece_hold plan.now piece.now ∷ holds) → AreHeldIn held.new holds }
    ensures kept { (n : ℕ) → room_in held.old n ≤ room_in held.new n }
    ensures sized { length held.new ≡ length held.old }
{
    held.remove(piece.node, mark_of_piece(plan, piece));
}

fn free_panes(held: &mut NodeHolds, node: u32, panes: &[WaitingPane])
    requires { (holds : List Hold) × AreHeldIn held.old (pane_holds node panes.now ++ holds) }
    ensures freed { (holds : List Hold)
        → AreHeldIn held.old (pane_holds node panes.now ++ holds) → AreHeldIn held.new holds }
    ensures kept { (n : ℕ) → room_in held.old n ≤ room_in held.new n }
    ensures sized { length held.new ≡ length held.old }
{
    for pane in panes {
        held.remove(node, pane.hold);
    }
}

/// Puts them back, where room is kept.
pub fn hold_job(held: &mut NodeHolds, plan: &Plan, job: &Live)
    requires checked { IsChecked plan.now }
    requires within { node_of job.now < length held.old }
    requires room { count_of job.now ≤ room_in held.old (node_of job.now) }
    ensures held { (holds : List Hold) → AreHeldIn held.old holds
        → AreHeldIn held.new (job_holds plan.now job.now ++ holds) }
    ensures sized { length held.new ≡ length held.old }
{
    match job {
        Live::Span { piece, .. } => held.add_kept(piece.node, mark_of_piece(plan, piece)),
        Live::Batch(batch) => hold_panes(held, batch.node, batch.panes.as_slice()),
        Live::Key(_) => {}
    }
}

/// Adds the marks at which panes hold their node back, where room is kept.
pub fn hold_panes(held: &mut NodeHolds, node: u32, panes: &[WaitingPane])
    requires within { node < length held.old }
    requires room { length panes.now ≤ room_in held.old node }
    ensures held { (holds : List Hold) → AreHeldIn held.old holds
        → AreHeldIn held.new (pane_holds node panes.now ++ holds) }
    ensures sized { length held.new ≡ length held.old }
{
    for pane in panes {
        held.add_kept(node, pane.hold);
    }
}

/// Adds the mark of what is left of a range, where room is kept.
pub fn hold_residual(held: &mut NodeHolds, plan: &Plan, residual: &Option<Piece>)
    requires checked { IsChecked plan.now }
    requires within { ForSome residual.now (λ piece. piece.node < length held.old) }
    requires room { ForSome residual.now (λ piece. 0 < room_in held.old piece.node) }
    ensures held { (holds : List Hold) → AreHeldIn held.old holds
        → AreHeldIn held.new (residual_holds plan.now residual.now ++ holds) }
    ensures used { (n : ℕ) → room_in held.old n ≤ room_in held.new n + 1 }
    ensures sized { length held.new ≡ length held.old }
{
    if let Some(piece) = residual {
        held.add_kept(piece.node, mark_of_piece(plan, piece));
    }
}

/// Takes the mark of what is left of a range out again.
pub fn free_residual(held: &mut NodeHolds, plan: &Plan, residual: &Option<Piece>)
    requires checked { IsChecked plan.now }
    requires holds { (holds : List Hold)
        × AreHeldIn held.old (residual_holds plan.now residual.now ++ holds) }
    ensures freed { (holds : List Hold)
        → AreHeldIn held.old (residual_holds plan.now residual.now ++ holds)
        → AreHeldIn held.new holds }
    ensures kept { (n : ℕ) → room_in held.old n ≤ room_in held.new n }
    ensures sized { length held.new ≡ length held.old }
{
    if let Some(piece) = residual {
        free_piece(held, plan, piece);
    }
}

/// Keeps room at each Group for so many panes more.
fn keep_at_groups(
    nodes: &[Node],
    queues: &mut Vec<Queue>,
    held: &mut NodeHolds,
    places: usize,
) -> Result<(), NoMemory>
    requires few { length nodes.now < 4294967296 }
    requires queues { length queues.old.items ≡ length nodes.now }
    requires held { length held.old ≡ length nodes.now }
    ensures ok { OnOk result
        ((n : ℕ) (node : Node) → slice_get nodes.now n ≡ Some node → is_group_kind node.kind ≡ true
        → HasRoom queues.new.items held.new n places) }
    ensures panes { map (λ q. q.panes) queues.new.items ≡ map (λ q. q.panes) queues.old.items }
    ensures marks { (n : ℕ) → marks_in held.new n ≡ marks_in held.old n }
    ensures kept { (n : ℕ) → room_in held.old n ≤ room_in held.new n }
    ensures sized { length held.new ≡ length held.old }
{
    for (n, node) in nodes.iter().enumerate() {
        keep_if_group(node, queues, held, n, places)?;
    }
    Ok(())
}

fn keep_if_group(
    node: &Node,
    queues: &mut Vec<Queue>,
    held: &mut NodeHolds,
    n: usize,
    places: usize,
) -> Result<(), NoMemory>
    requires queued { n < length queues.old.items }
    requires holding { n < length held.old }
    requires small { n < 4294967296 }
    ensures ok { OnOk result
        (is_group_kind node.now.kind ≡ true → HasRoom queues.new.items held.new n places) }
    ensures kept_at { (m k : ℕ) → HasRoom queues.old.items held.old m k
        → HasRoom queues.new.items held.new m k }
    ensures panes { map (λ q. q.panes) queues.new.items ≡ map (λ q. q.panes) queues.old.items }
    ensures marks { (m : ℕ) → marks_in held.new m ≡ marks_in held.old m }
    ensures kept { (m : ℕ) → room_in held.old m ≤ room_in held.new m }
    ensures sized { length held.new ≡ length held.old }
{
    if is_group(node) {
        keep_at(queues, held, n, places)
    } else {
        Ok(())
    }
}

fn keep_at(
    queues: &mut Vec<Queue>,
    held: &mut NodeHolds,
    node: usize,
    places: usize,
) -> Result<(), NoMemory>
    requires queued { node < length queues.old.items }
    requires holding { node < length held.old }
    requires small { node < 4294967296 }
    ensures ok { OnOk result (HasRoom queues.new.items held.new node places) }
    ensures kept_at { (n k : ℕ) → HasRoom queues.old.items held.old n k
        → HasRoom queues.new.items held.new n k }
    ensures panes { map (λ q. q.panes) queues.new.items ≡ map (λ q. q.panes) queues.old.items }
    ensures marks { (n : ℕ) → marks_in held.new n ≡ marks_in held.old n }
    ensures kept { (n : ℕ) → room_in held.old n ≤ room_in held.new n }
    ensures sized { length held.new ≡ length held.old }
{
    held.keep_room(node as u32, places)?;
    let queue = &mut queues[node];
    queue.keep_room(places)
}

/// What the Groups give at a commit: the panes that fired, and the marks after it.
#[derive(Debug, Drop)]
pub struct Fired {
    pub panes: List<Pane>,
    pub marks: List<StageMarks>,
}

/// The Groups take the arrivals at them, and fire; the key job, and the arrivals at Stateful nodes, can be
/// placed without memory from then on. After a refusal nothing is changed.
pub fn fire(
    alloc: Global,
    plan: &Plan,
    groups: &mut Groups,
    keys: &mut Keys,
    done: Option<&KeyDone>,
    arrivals: &mut List<Arrival>,
    held: &NodeHolds,
    before: &[StageMarks],
    commit: u32,
) -> Result<Fired, NoMemory>
    requires plan { groups.old.plan ≡ plan.now }
    requires checked { IsChecked plan.now }
    requires held { length held.now ≡ length plan.now.nodes }
    requires marks { length before.now ≡ length plan.now.nodes }
    requires gaps { All (HasGap plan.now) arrivals.old }
    requires none { has_stateful plan.now ≡ false → cells_in keys.old ≡ [] }
    requires stands { IsStanding (cells_in keys.old) (option_map done_of (option_copied done)) }
    requires rises { RisesFrom plan.now (least_with held.now (key_holds (place plan.now before.now
        (option_map done_of (option_copied done)) arrivals.old (cells_in keys.old)))) before.now }
    ensures keys { cells_in keys.new ≡ cells_in keys.old }
    ensures prepared { OnOk result (CanPlace plan.now (option_map done_of (option_copied done.entry))
        arrivals.old keys.new) }
    ensures rounds { IfOk result (λ fired. AreRounds plan.now commit before.now fired.marks
        arrivals.old groups.old.cells groups.new.cells fired.panes) }
    ensures committed { IfOk result (λ fired. IsCommitted plan.now commit before.now fired.marks
        (least_with held.now (key_holds (place plan.now before.now
        (option_map done_of (option_copied done.entry)) arrivals.old (cells_in keys.old))))
        arrivals.old arrivals.new groups.old groups.new fired.panes) }
    ensures few { IfOk result
        (λ fired. length fired.panes ≤ length groups.old.cells + length arrivals.old) }
    ensures grown { OnOk result
        (length groups.new.cells ≤ length groups.old.cells + length arrivals.old) }
    ensures err { OnErr result ((groups.new ≡ groups.old) × (arrivals.new ≡ arrivals.old)) }
{
    let holds = prepare(alloc, plan, keys, done, arrivals, held, before)?;
    let mut marks = Vec::from_slice(alloc, before)?;
    let panes = commit_groups(
        alloc,
        plan,
        groups,
        arrivals,
        holds.as_slice(),
        marks.as_mut_slice(),
        commit,
    )?;
    Ok(Fired {
        panes,
        marks: List::from_vec(marks),
    })
}

/// The panes that fired wait at their Groups, behind those that wait there, and hold them back. The
/// first of them has the place `first` in the run's list of panes.
pub fn wait_all(
    queues: &mut Vec<Queue>,
    held: &mut NodeHolds,
    before: &[StageMarks],
    first: u32,
    fired: &[Pane],
)
    requires room { All
        (λ pane. HasRoom queues.old.items held.old pane.node (length fired.now)) fired.now }
    requires small { first + length fired.now < 4294967296 }
    ensures queues { map (λ q. q.panes) queues.new.items
        ≡ map (with_fired before.now (enumerate_from first fired.now))
        (enumerate_from 0 (map (λ q. q.panes) queues.old.items)) }
    ensures held { (holds : List Hold) → AreHeldIn held.old holds
        → AreHeldIn held.new (map (pane_hold before.now) fired.now ++ holds) }
    ensures sized { length held.new ≡ length held.old }
{
    for (i, pane) in fired.iter().enumerate() {
        wait(queues, held, before, first + i as u32, pane);
    }
}

fn wait(
    queues: &mut Vec<Queue>,
    held: &mut NodeHolds,
    before: &[StageMarks],
    place: u32,
    pane: &Pane,
)
    requires { HasRoom queues.old.items held.old pane.now.node 1 }
    ensures queues { (n : ℕ) → list_at queues.new.items n
        ≡ list_at queues.old.items n
        ++ (if pane.now.node == n then as_waiting before.now (place, pane.now) ∷ [] else []) }
    ensures count { length queues.new.items ≡ length queues.old.items }
    ensures held { (holds : List Hold) → AreHeldIn held.old holds
        → AreHeldIn held.new (pane_hold before.now pane.now ∷ holds) }
    ensures room { (n k : ℕ) → HasRoom queues.old.items held.old n (k + 1)
        → HasRoom queues.new.items held.new n k }
    ensures sized { length held.new ≡ length held.old }
{
    let hold = hold_of(before, pane);
    let queue = &mut queues[pane.node as usize];
    queue.add_kept(WaitingPane { pane: place, hold });
    held.add_kept(pane.node, hold);
}

// The greater of the pane's time and the mark after its Group before the commit.
fn hold_of(before: &[StageMarks], pane: &Pane) -> Mark
    ensures { result ≡ (pane_hold before.now pane.now).mark }
{
    match before.get(pane.node as usize) {
        Some(marks) => later(pane.element.time, marks.mark_out),
        None => later(pane.element.time, Mark::FINAL),
    }
}

fn later(time: Time, mark: Mark) -> Mark
    ensures { result ≡ int_max time mark }
{
    if time.ms() < mark.ms() {
        mark
    } else {
        Mark::at(time)
    }
}

/// What is left of a range is pending, in the place that was kept for it.
pub fn put_back(pieces: &mut Pieces, residual: Option<Piece>)
    requires { ForSome residual (λ _. 0 < pieces.old.room) }
    ensures pending { pieces.new.pending ≡ with_residual residual pieces.old.pending }
    ensures used { pieces.old.room ≤ pieces.new.room + length (option_to_list residual) }
{
    if let Some(piece) = residual {
        pieces.give_back(piece);
    }
}
