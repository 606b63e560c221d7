ghost use Rattle.std.specs.Prelude.{◌≡◌, ◌<◌, ◌<ℤ◌, [], ◌∷◌, ◌++◌, true, List as ListOf};
ghost use Rattle.watermarks.specs.Holds.{hold_at};
ghost use Rattle.std.specs.Prelude.{IfOk, if◌then◌else◌, length, map, Some};
ghost use Rattle.std.specs.Option.{option_map, option_copied};
ghost use Rattle.std.specs.Int.{int_min};
ghost use Rattle.beam_values.specs.Nodes.{is_stateful};
ghost use Rattle.beam_values.specs.Times.{final_mark};
ghost use Rattle.beam_model.specs.Holds.{Hold, arrival_hold, least_hold};
ghost use Rattle.stateful_core.specs.Cells.{cell_holds, key_holds};
ghost use Rattle.stateful_core.specs.Least.{AreLeast, tree_hold};
ghost use Rattle.stateful_core.specs.Opening.{IsStanding, done_of};
ghost use Rattle.stateful_core.specs.Placing.{finish, place, with_done};
ghost use Rattle.stateful_core.specs.Lasting.{arrival_holds};
ghost use Rattle.stateful_core.specs.Seen.{cell_of, cells_of};
ghost use Rattle.stateful_core.specs.Trees.{AreRenewed, AreTrees};

use crate::cell_hold::{cell_hold, hold_after};
use crate::finding::is_stateful;
use crate::putting::arrival_hold;
use crate::trees::{renew_at, set_entry};
use crate::{KeyDone, NodeTree, Slot};
use beam_values::{Arrival, List, Mark, NoMemory, Plan, StageMarks};
use mark_trees::TwinMarks;
use std::alloc::Global;

// A node is held back at one more mark; nothing is asked of a node behind the last.
fn lower(least: &mut [Mark], node: u32, mark: Mark)
    ensures least { (holds : ListOf Hold) → AreLeast least.old holds
        → AreLeast least.new (record { node = node; mark = mark } ∷ holds) }
    ensures sized { length least.new ≡ length least.old }
{
    if (node as usize) < least.len() {
        let own = least[node as usize];
        least[node as usize] = lesser(own, mark);
    }
}

fn lesser(a: Mark, b: Mark) -> Mark
    ensures { result ≡ int_min a b }
{
    a.min(b)
}

fn lower_trees(least: &mut [Mark], trees: &[NodeTree])
    ensures least { AreLeast least.old [] → AreLeast least.new (map tree_hold trees.now) }
    ensures sized { length least.new ≡ length least.old }
{
    for tree in trees {
        lower(least, tree.node, tree.marks.least().hold);
    }
}

/// The nodes are held back by their cells as they stand, but for the one whose job is done.
fn lower_standing(
    least: &mut [Mark],
    trees: &mut Vec<NodeTree>,
    slots: &[Slot],
    before: &[StageMarks],
    done: Option<&KeyDone>,
)
    requires trees { AreTrees trees.old.items (cells_of slots.now) }
    requires stands { IsStanding (cells_of slots.now) (option_map done_of (option_copied done)) }
    ensures trees { AreTrees trees.new.items (cells_of slots.now) }
    ensures least { AreLeast least.old [] → AreLeast least.new (key_holds (finish before.now
        (option_map done_of (option_copied done.entry)) (cells_of slots.now))) }
    ensures sized { length least.new ≡ length least.old }
{
    match done {
        Some(done) => lower_beside(least, trees, slots, before, done),
        None => lower_trees(least, trees.as_slice()),
    }
}

/// Mostly other cells hold the node back further than the one whose job is done, and then its entry stays as it
/// is.
fn lower_beside(
    least: &mut [Mark],
    trees: &mut Vec<NodeTree>,
    slots: &[Slot],
    before: &[StageMarks],
    done: &KeyDone,
)
    requires trees { AreTrees trees.old.items (cells_of slots.now) }
    requires stands { done.now.cell < length slots.now }
    ensures trees { AreTrees trees.new.items (cells_of slots.now) }
    ensures least { AreLeast least.old [] → AreLeast least.new (key_holds (finish before.now
        (Some (done_of done.now)) (cells_of slots.now))) }
    ensures sized { length least.new ≡ length least.old }
{
    let slot = &slots[done.cell as usize];
    lower_trees(least, trees.as_slice());
    if is_below(least, slot.node, cell_hold(slot)) {
        lower(least, slot.node, hold_after(before, slot, done));
        return;
    }
    lower_anew(least, trees, slots, before, done);
}

/// Whether a node is held back further than by this mark.
fn is_below(least: &[Mark], node: u32, hold: Mark) -> bool
    ensures { result ≡ true → hold_at least.now node <ℤ hold }
{
    match least.get(node as usize) {
        Some(own) => *own < hold,
        None => false,
    }
}

/// The entry of the cell whose job is done is what it will be, for as long as the least are read.
fn lower_anew(
    least: &mut [Mark],
    trees: &mut Vec<NodeTree>,
    slots: &[Slot],
    before: &[StageMarks],
    done: &KeyDone,
)
    requires trees { AreTrees trees.old.items (cells_of slots.now) }
    requires stands { done.now.cell < length slots.now }
    ensures trees { AreTrees trees.new.items (cells_of slots.now) }
    ensures least { AreLeast least.new (key_holds (finish before.now
        (Some (done_of done.now)) (cells_of slots.now))) }
    ensures sized { length least.new ≡ length least.old }
{
    let at = done.cell as usize;
    hold_none(least);
    set_done(trees, &slots[at], before, done);
    lower_trees(least, trees.as_slice());
    renew_at(trees, slots, at);
}

fn hold_none(least: &mut [Mark])
    ensures none { AreLeast least.new [] }
    ensures sized { length least.new ≡ length least.old }
{
    least.fill(Mark::FINAL);
}

fn set_done(trees: &mut Vec<NodeTree>, slot: &Slot, before: &[StageMarks], done: &KeyDone)
    ensures { AreRenewed trees.old.items trees.new.items slot.now.node done.now.cell (record {
      due = final_mark;
      hold = least_hold (cell_holds (with_done before.now (done_of done.now) (cell_of slot.now)))
          slot.now.node;
    }) }
{
    let entry = TwinMarks {
        due: Mark::FINAL,
        hold: hold_after(before, slot, done),
    };
    set_entry(trees, slot.node, done.cell as usize, &entry);
}

fn lower_arrivals(plan: &Plan, least: &mut [Mark], before: &[StageMarks], arrivals: &[Arrival])
    ensures least { (holds : ListOf Hold) → AreLeast least.old holds → AreLeast least.new
        (holds ++ arrival_holds plan.now before.now arrivals.now) }
    ensures sized { length least.new ≡ length least.old }
{
    for arrival in arrivals {
        lower_arrival(plan, least, before, arrival);
    }
}

fn lower_arrival(plan: &Plan, least: &mut [Mark], before: &[StageMarks], arrival: &Arrival)
    ensures least { (holds : ListOf Hold) → AreLeast least.old holds → AreLeast least.new
        (holds ++ (if is_stateful plan.now arrival.now.node
        then arrival_hold before.now arrival.now ∷ [] else [])) }
    ensures sized { length least.new ≡ length least.old }
{
    if is_stateful(plan, arrival.node) {
        lower(least, arrival.node, arrival_hold(before, arrival));
    }
}

/// The least hold of each node after the commit, or FINAL. The trees stay those of the cells.
pub fn least_holds(
    alloc: Global,
    plan: &Plan,
    trees: &mut Vec<NodeTree>,
    slots: &[Slot],
    done: Option<&KeyDone>,
    before: &[StageMarks],
    arrivals: &[Arrival],
) -> Result<List<Mark>, NoMemory>
    requires trees { AreTrees trees.old.items (cells_of slots.now) }
    requires stands { IsStanding (cells_of slots.now) (option_map done_of (option_copied done)) }
    ensures trees { AreTrees trees.new.items (cells_of slots.now) }
    ensures sized { IfOk result (λ least. length least ≡ length plan.now.nodes) }
    ensures least { IfOk result (λ least. AreLeast least (key_holds (place plan.now before.now
        (option_map done_of (option_copied done.entry)) arrivals.now (cells_of slots.now)))) }
{
    let mut least = no_holds(alloc, plan.nodes.len())?;
    lower_all(
        plan,
        least.as_mut_slice(),
        trees,
        slots,
        before,
        done,
        arrivals,
    );
    Ok(List::from_vec(least))
}

fn lower_all(
    plan: &Plan,
    least: &mut [Mark],
    trees: &mut Vec<NodeTree>,
    slots: &[Slot],
    before: &[StageMarks],
    done: Option<&KeyDone>,
    arrivals: &[Arrival],
)
    requires trees { AreTrees trees.old.items (cells_of slots.now) }
    requires stands { IsStanding (cells_of slots.now) (option_map done_of (option_copied done)) }
    requires least { AreLeast least.old [] }
    ensures trees { AreTrees trees.new.items (cells_of slots.now) }
    ensures least { AreLeast least.new (key_holds (place plan.now before.now
        (option_map done_of (option_copied done.entry)) arrivals.now (cells_of slots.now))) }
    ensures sized { length least.new ≡ length least.old }
{
    lower_standing(least, trees, slots, before, done);
    lower_arrivals(plan, least, before, arrivals);
}

fn no_holds(alloc: Global, count: usize) -> Result<Vec<Mark>, NoMemory>
    ensures sized { IfOk result (λ least. length least.items ≡ count) }
    ensures none { IfOk result (λ least. AreLeast least.items []) }
{
    let mut least = Vec::with_capacity(alloc, count)?;
    for _node in 0..count {
        least.push_reserved(Mark::FINAL);
    }
    Ok(least)
}
