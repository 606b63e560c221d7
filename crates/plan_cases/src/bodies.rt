//! Both bodies of Groups over one plan, driven alike.

ghost use Rattle.std.specs.Prelude.{◌≡◌, ◌≤ℤ◌, length, All, IfOk, IsTrue, OnOk};
ghost use Rattle.group_cells.specs.Commits.{HasGap, NoneFalls, RisesFrom};
ghost use Rattle.watermarks.specs.Holds.{hold_at};

use crate::graphs::marks_of;
use crate::groups::say_groups;
use beam_values::{Arrival, Duplicate, List, Mark, NoMemory, StageMarks, Strategy, Time};
use case_files::Case;
use group_cells::{Groups, PlainGroups};
use pipeline_graph::Graph;
use std::alloc::{AllocError, Global};

/// The number of a commit, what comes in it, and the least hold of each node.
#[derive(Drop)]
pub struct Coming {
    pub number: u32,
    pub arrivals: List<Arrival>,
    pub holds: List<Mark>,
}

/// Makes the commits by the body of the product and by the plain one, from the same marks: at first no cell
/// yet, and the least marks that there are.
// Each body is made by a function of its own, which drops it at one place: a function that owned both would
// be the dearest of all to prove.
pub fn commit_all(graph: &Graph, commits: &[Coming], case: &mut Case<'_>) {
    match Groups::new(case.alloc(), graph.plan()) {
        Ok(mut indexed) => commit_beside_plain(graph, &mut indexed, commits, case),
        Err(refused) => case.no_memory(refused),
    }
}

fn commit_beside_plain(graph: &Graph, indexed: &mut Groups, commits: &[Coming], case: &mut Case<'_>)
    requires { indexed.old.plan ≡ graph.now }
{
    match PlainGroups::new(case.alloc(), graph.plan()) {
        Ok(mut plain) => commit_each(graph, indexed, &mut plain, commits, case),
        Err(refused) => case.no_memory(refused),
    }
}

fn commit_each(
    graph: &Graph,
    indexed: &mut Groups,
    plain: &mut PlainGroups,
    commits: &[Coming],
    case: &mut Case<'_>,
)
    requires indexed { indexed.old.plan ≡ graph.now }
    requires plain { plain.old.plan ≡ graph.now }
{
    let mut marks = match first_marks(case.alloc(), graph) {
        Ok(marks) => marks,
        Err(_) => return case.no_memory(NoMemory),
    };
    for coming in commits {
        commit(graph, indexed, plain, marks.as_mut_slice(), coming, case);
    }
}

fn first_marks(alloc: Global, graph: &Graph) -> Result<Vec<StageMarks>, AllocError>
    ensures { IfOk result (λ marks. length marks.items ≡ length graph.now.nodes) }
{
    let holds = vec![in alloc; Mark::at(Time::LEAST); graph.plan().nodes.len()]?;
    marks_of(alloc, graph, holds.as_slice())
}

// One commit by both bodies, where what comes is what a commit takes.
fn commit(
    graph: &Graph,
    indexed: &mut Groups,
    plain: &mut PlainGroups,
    marks: &mut [StageMarks],
    coming: &Coming,
    case: &mut Case<'_>,
)
    requires indexed { indexed.old.plan ≡ graph.now }
    requires plain { plain.old.plan ≡ graph.now }
    requires marks { length marks.old ≡ length graph.now.nodes }
    ensures indexed { indexed.new.plan ≡ graph.now }
    ensures plain { plain.new.plan ≡ graph.now }
{
    if let Err(fault) = check(case.alloc(), graph, marks, coming) {
        return case.fail(fault);
    }
    match Vec::from_slice(case.alloc(), marks) {
        Ok(mut copy) => commit_both(
            graph,
            indexed,
            plain,
            marks,
            copy.as_mut_slice(),
            coming,
            case,
        ),
        Err(_) => case.no_memory(NoMemory),
    }
}

// The commit by each of the bodies, from the same marks. The case fails where they leave other ones.
fn commit_both(
    graph: &Graph,
    indexed: &mut Groups,
    plain: &mut PlainGroups,
    marks: &mut [StageMarks],
    plain_marks: &mut [StageMarks],
    coming: &Coming,
    case: &mut Case<'_>,
)
    requires indexed { indexed.old.plan ≡ graph.now }
    requires plain { plain.old.plan ≡ graph.now }
    requires same { plain_marks.old ≡ marks.old }
    requires marks { length marks.old ≡ length graph.now.nodes }
    requires holds { length coming.now.holds ≡ length graph.now.nodes }
    requires gaps { All (HasGap graph.now) coming.now.arrivals }
    requires rises { RisesFrom graph.now (hold_at coming.now.holds) marks.old }
    ensures indexed { indexed.new.plan ≡ graph.now }
    ensures plain { plain.new.plan ≡ graph.now }
{
    let mut told = Case::new(case.alloc());
    if let Err(refused) = commit_indexed(indexed, graph, marks, coming, &mut told) {
        case.no_memory(refused);
    }
    let mut plain_told = Case::new(case.alloc());
    if let Err(refused) = commit_plain(plain, graph, plain_marks, coming, &mut plain_told) {
        case.no_memory(refused);
    }
    if *marks != *plain_marks {
        case.fail("the bodies leave other marks");
    }
    say_both(coming.number, &told, &plain_told, case);
}

// The commit by the body of the product, and what there is after it.
fn commit_indexed(
    groups: &mut Groups,
    graph: &Graph,
    marks: &mut [StageMarks],
    coming: &Coming,
    told: &mut Case<'_>,
) -> Result<(), NoMemory>
    requires plan { groups.old.plan ≡ graph.now }
    requires marks { length marks.old ≡ length graph.now.nodes }
    requires holds { length coming.now.holds ≡ length graph.now.nodes }
    requires gaps { All (HasGap graph.now) coming.now.arrivals }
    requires rises { RisesFrom graph.now (hold_at coming.now.holds) marks.old }
    ensures { groups.new.plan ≡ graph.now }
{
    let mut left = coming.arrivals.duplicate(told.alloc())?;
    let holds = coming.holds.as_slice();
    let fired = groups.commit(graph.plan(), &mut left, holds, marks, coming.number)?;
    say_groups(&fired, groups.cells(), groups.dropped(), &left, told);
    Ok(())
}

// The same by the plain one.
fn commit_plain(
    groups: &mut PlainGroups,
    graph: &Graph,
    marks: &mut [StageMarks],
    coming: &Coming,
    told: &mut Case<'_>,
) -> Result<(), NoMemory>
    requires plan { groups.old.plan ≡ graph.now }
    requires marks { length marks.old ≡ length graph.now.nodes }
    requires holds { length coming.now.holds ≡ length graph.now.nodes }
    requires gaps { All (HasGap graph.now) coming.now.arrivals }
    requires rises { RisesFrom graph.now (hold_at coming.now.holds) marks.old }
    ensures { groups.new.plan ≡ graph.now }
{
    let mut left = coming.arrivals.duplicate(told.alloc())?;
    let holds = coming.holds.as_slice();
    let fired = groups.commit(graph.plan(), &mut left, holds, marks, coming.number)?;
    say_groups(&fired, groups.cells(), groups.dropped(), &left, told);
    Ok(())
}

// Whether a commit takes what comes.
fn check(
    alloc: Global,
    graph: &Graph,
    marks: &[StageMarks],
    coming: &Coming,
) -> Result<(), &'static str>
    requires { length marks.now ≡ length graph.now.nodes }
    ensures holds { OnOk result (length coming.now.holds ≡ length graph.now.nodes) }
    ensures gaps { OnOk result (All (HasGap graph.now) coming.now.arrivals) }
    ensures rises { OnOk result (RisesFrom graph.now (hold_at coming.now.holds) marks.now) }
{
    let holds = coming.holds.as_slice();
    if holds.len() != graph.plan().nodes.len() {
        return Err("each node has a hold");
    }
    let arrivals = coming.arrivals.as_slice();
    if !arrivals.iter().all(|arrival| has_gap(graph, arrival)) {
        return Err("an arrival at a Group of sessions has a window of the gap's length");
    }
    let Ok(next) = marks_of(alloc, graph, holds) else {
        return Err("no memory");
    };
    if !rise(marks, next.as_slice()) {
        return Err("a mark falls");
    }
    Ok(())
}

// Whether an arrival has a window of the gap's length, where its node takes sessions.
fn has_gap(graph: &Graph, arrival: &Arrival) -> bool
    ensures { IsTrue result → HasGap graph.now arrival.now }
{
    let node = arrival.node;
    if node as usize >= graph.plan().nodes.len() {
        return false;
    }
    let span = arrival.element.span;
    match *graph.strategy(node) {
        Strategy::Sessions { gap } => span.start().checked_add(gap) == Some(span.end()),
        _ => true,
    }
}

// Whether no mark is lower afterwards.
fn rise(before: &[StageMarks], after: &[StageMarks]) -> bool
    requires { length before.now ≡ length after.now }
    ensures { IsTrue result → NoneFalls before.now after.now }
{
    before.iter().zip(after).all(|(old, new)| rises(old, new))
}

fn rises(old: &StageMarks, new: &StageMarks) -> bool
    ensures mark_in { IsTrue result → old.now.mark_in ≤ℤ new.now.mark_in }
    ensures mark_out { IsTrue result → old.now.mark_out ≤ℤ new.now.mark_out }
{
    old.mark_in.ms() <= new.mark_in.ms() && old.mark_out.ms() <= new.mark_out.ms()
}

// What both bodies leave and fire, where that is the same.
fn say_both(number: u32, indexed: &Case<'_>, plain: &Case<'_>, case: &mut Case<'_>) {
    case.next_answer();
    case.say("commit");
    case.say_number(number);
    if !indexed.got().is_empty() {
        case.next_answer();
        case.say_bytes(indexed.got());
    }
    if plain.got() != indexed.got() {
        case.next_answer();
        case.say("but the plain body");
        case.say_bytes(plain.got());
    }
}
