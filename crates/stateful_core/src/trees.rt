ghost use Rattle.std.specs.Prelude.{◌≡◌, ◌≤◌, ◌<◌, ◌+◌, ◌∷◌, ◌++◌, [], ℕ, ℤ, true, List as ListOf, length, slice_get, slice_set, if◌then◌else◌, ◌==◌};
ghost use Rattle.std.specs.Prelude.{MatchBool, MatchOption, None, OnOk, Option as OptionOf, Some, vec_len};
ghost use Rattle.std.specs.Int.{int_min};
ghost use Rattle.beam_values.specs.Marks.{marks_at};
ghost use Rattle.beam_values.specs.Times.{IsMark, IsTime, final_mark, greatest_time};
ghost use Rattle.mark_trees.specs.declared.twin_marks.TwinMarks.{TwinMarks};
ghost use Rattle.stateful_core.specs.Cells.{KeyCell};
ghost use Rattle.stateful_core.specs.Seen.{cell_of, cells_of};
ghost use Rattle.stateful_core.specs.Taking.{next_place, sooner};
ghost use Rattle.stateful_core.specs.Trees.{AreLonger, AreRenewed, AreTrees, AreTreesBut, HasPlace, HavePlaces, IsAmong};
ghost use Rattle.stateful_core.specs.Trees.{IsBestAmong, IsDueTime, IsEntryOf, IsLonger, IsSetLonger, IsTimerDue, IsTreeBut, entry_at};
ghost use Rattle.stateful_core.specs.Trees.{renewed};
ghost use Rattle.stateful_core.specs.declared.node_tree.NodeTree.{NodeTree as NodeTreeOf};

use crate::cell_hold::cell_hold;
use crate::putting::mark_in;
use crate::routing::number_behind;
use crate::taking::sooner;
use crate::{NodeTree, Place, Slot};
use beam_values::{Mark, NoMemory, StageMarks, Time};
use mark_trees::{LeastTree, TwinMarks};
use std::alloc::Global;
use timer_core::Timers;

/// The ready cell of the lowest node, and of these that of the lowest number.
pub fn next_place(trees: &[NodeTree], marks: &[StageMarks]) -> Option<Place>
    ensures { (cells : ListOf KeyCell) → AreTrees trees.now cells → result ≡ next_place marks.now cells }
{
    let mut best: Option<Place> = None;
    for k in 0..trees.len() {
        best = or_first_of(best, &trees[k], marks);
    }
    best
}

fn or_first_of(best: Option<Place>, tree: &NodeTree, marks: &[StageMarks]) -> Option<Place>
    ensures { (trees : ListOf NodeTreeOf) (cells : ListOf KeyCell) → IsTreeBut None tree.now.node tree.now.marks cells
        → IsBestAmong trees marks.now cells best → IsBestAmong (trees ++ tree.now ∷ []) marks.now cells result }
{
    match first_of(tree, marks) {
        Some(place) => sooner(best, place),
        None => best,
    }
}

/// The first ready cell of a node.
fn first_of(tree: &NodeTree, marks: &[StageMarks]) -> Option<Place>
    ensures { (cells : ListOf KeyCell) → IsTreeBut None tree.now.node tree.now.marks cells
        → IsBestAmong (tree.now ∷ []) marks.now cells result }
{
    let at = tree.marks.first_due(bound(mark_in(marks, tree.node)))?;
    Some(Place {
        at,
        node: tree.node,
    })
}

/// No later than the last time, so that what is never due isn't where the mark is FINAL.
fn bound(mark: Mark) -> Mark
    ensures is { result ≡ int_min mark greatest_time }
    ensures within { IsMark mark }
{
    if mark.ms() > Time::GREATEST_MS {
        Mark::at(Time::GREATEST)
    } else {
        mark
    }
}

/// When a cell is due: at once where an element waits, and never where its job is worked.
fn due_of(slot: &Slot) -> Mark
    ensures { IsDueTime (cell_of slot.now) result }
{
    match slot.live {
        Some(_) => Mark::FINAL,
        None => {
            if slot.waiting.len() > 0 {
                return Mark::at(Time::LEAST);
            }
            first_of_timers(slot.timers.get())
        }
    }
}

fn first_of_timers(timers: &Timers) -> Mark
    ensures { IsTimerDue timers.now result }
{
    match timers.first_due(Mark::FINAL) {
        Some(timer) => mark_at(timer.time),
        None => Mark::FINAL,
    }
}

fn mark_at(time: Time) -> Mark
    ensures is { result ≡ time }
    ensures within { IsTime time }
{
    let _ms = time.ms();
    Mark::at(time)
}

/// When a cell is due, and the least mark at which it holds its node back.
fn entry_of(slot: &Slot) -> TwinMarks
    ensures { IsEntryOf (cell_of slot.now) result }
{
    TwinMarks {
        due: due_of(slot),
        hold: cell_hold(slot),
    }
}

/// The entry of a cell is made anew. Takes no memory.
fn renew(trees: &mut Vec<NodeTree>, at: usize, slot: &Slot)
    ensures due { (cells : ListOf KeyCell) → slice_get cells at ≡ Some (cell_of slot.now)
        → AreTreesBut (Some at) trees.old.items cells → AreTrees trees.new.items cells }
    ensures places { (n i : ℕ) → HasPlace trees.old.items n i → HasPlace trees.new.items n i }
{
    set_entry(trees, slot.node, at, &entry_of(slot));
}

/// The same of a cell among these.
pub fn renew_at(trees: &mut Vec<NodeTree>, slots: &[Slot], at: usize)
    requires { at < length slots.now }
    ensures due { AreTreesBut (Some at) trees.old.items (cells_of slots.now)
        → AreTrees trees.new.items (cells_of slots.now) }
    ensures places { (n i : ℕ) → HasPlace trees.old.items n i → HasPlace trees.new.items n i }
{
    renew(trees, at, &slots[at]);
}

/// The entry of a cell of a node is this, where there is a place for it. Takes no memory.
pub fn set_entry(trees: &mut Vec<NodeTree>, node: u32, at: usize, entry: &TwinMarks)
    ensures { AreRenewed trees.old.items trees.new.items node at entry.now }
{
    for k in 0..trees.len() {
        set_in(trees, k, node, at, entry);
    }
}

fn set_in(trees: &mut Vec<NodeTree>, k: usize, node: u32, at: usize, entry: &TwinMarks)
    requires { k < length trees.old.items }
    ensures is { (tree : NodeTreeOf) → slice_get trees.old.items k ≡ Some tree
        → trees.new.items ≡ slice_set trees.old.items k (renewed node at entry.now tree) }
    ensures len { vec_len trees.new ≡ vec_len trees.old }
{
    let tree = &mut trees[k];
    set_of_node(tree, node, at, entry);
}

fn set_of_node(tree: &mut NodeTree, node: u32, at: usize, entry: &TwinMarks)
    ensures { tree.new ≡ renewed node at entry.now tree.old }
{
    if tree.node != node {
        return;
    }
    set(&mut tree.marks, at, entry);
}

fn set(marks: &mut LeastTree, at: usize, entry: &TwinMarks)
    ensures { marks.new ≡ slice_set marks.old at entry.now }
{
    if at >= marks.len() {
        return;
    }
    marks.set(at, *entry);
}

/// Makes places for the entries of new cells, of which the first has this number.
pub fn grow_all(
    alloc: Global,
    trees: &mut Vec<NodeTree>,
    first: usize,
    fresh: &[Slot],
) -> Result<(), NoMemory>
    ensures kept { (hole : OptionOf ℕ) (cells : ListOf KeyCell)
        → AreTreesBut hole trees.old.items cells → AreTreesBut hole trees.new.items cells }
    ensures ok { OnOk result (HavePlaces trees.new.items first (cells_of fresh.now)) }
{
    for k in 0..fresh.len() {
        let number = number_behind(first, k)?;
        grow(alloc, trees, fresh[k].node, number as usize)?;
    }
    Ok(())
}

/// Makes a place for the entry of a cell of a node with this number.
pub fn grow(alloc: Global, trees: &mut Vec<NodeTree>, node: u32, at: usize) -> Result<(), NoMemory>
    ensures kept { (hole : OptionOf ℕ) (cells : ListOf KeyCell)
        → AreTreesBut hole trees.old.items cells → AreTreesBut hole trees.new.items cells }
    ensures others { (n i : ℕ) → HasPlace trees.old.items n i → HasPlace trees.new.items n i }
    ensures ok { OnOk result (HasPlace trees.new.items node at) }
{
    add(alloc, trees, node)?;
    grow_each(trees, node, at)
}

/// The node has a list, maybe an empty one.
fn add(alloc: Global, trees: &mut Vec<NodeTree>, node: u32) -> Result<(), NoMemory>
    ensures kept { (hole : OptionOf ℕ) (cells : ListOf KeyCell)
        → AreTreesBut hole trees.old.items cells → AreTreesBut hole trees.new.items cells }
    ensures others { (n i : ℕ) → HasPlace trees.old.items n i → HasPlace trees.new.items n i }
    ensures ok { OnOk result (IsAmong trees.new.items node) }
{
    if is_among(trees.as_slice(), node) {
        return Ok(());
    }
    trees.push(NodeTree {
        node,
        marks: LeastTree::new(alloc),
    })?;
    Ok(())
}

fn is_among(trees: &[NodeTree], node: u32) -> bool
    ensures { MatchBool result (IsAmong trees.now node) (IsAmong trees.now node → ⊥) }
{
    for k in 0..trees.len() {
        if trees[k].node == node {
            return true;
        }
    }
    false
}

fn grow_each(trees: &mut Vec<NodeTree>, node: u32, at: usize) -> Result<(), NoMemory>
    ensures longer { AreLonger trees.old.items trees.new.items }
    ensures ok { OnOk result ((k : ℕ) (tree : NodeTreeOf) → slice_get trees.new.items k ≡ Some tree
        → tree.node ≡ node → at < length tree.marks) }
{
    for k in 0..trees.len() {
        grow_in(trees, k, node, at)?;
    }
    Ok(())
}

fn grow_in(trees: &mut Vec<NodeTree>, k: usize, node: u32, at: usize) -> Result<(), NoMemory>
    requires { k < length trees.old.items }
    ensures set { (tree : NodeTreeOf) → slice_get trees.old.items k ≡ Some tree
        → IsSetLonger trees.old.items k tree trees.new.items }
    ensures len { vec_len trees.new ≡ vec_len trees.old }
    ensures ok { OnOk result ((tree : NodeTreeOf) → slice_get trees.new.items k ≡ Some tree
        → tree.node ≡ node → at < length tree.marks) }
{
    let tree = &mut trees[k];
    grow_tree(tree, node, at)?;
    Ok(())
}

fn grow_tree(tree: &mut NodeTree, node: u32, at: usize) -> Result<(), NoMemory>
    ensures longer { IsLonger tree.old tree.new }
    ensures ok { OnOk result (tree.new.node ≡ node → at < length tree.new.marks) }
{
    if tree.node != node {
        return Ok(());
    }
    grow_to(&mut tree.marks, at)
}

fn grow_to(marks: &mut LeastTree, at: usize) -> Result<(), NoMemory>
    ensures entries { (i : ℕ) → entry_at marks.new i ≡ entry_at marks.old i }
    ensures long { length marks.old ≤ length marks.new }
    ensures ok { OnOk result (at < length marks.new) }
{
    while marks.len() <= at {
        marks.push(TwinMarks::NONE)?;
    }
    Ok(())
}
