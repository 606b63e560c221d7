ghost use Rattle.std.specs.Prelude.{◌≡◌, ℕ, ◌+◌, ◌<◌, ◌≤◌, [], true, false, not, IfOk, OnOk, length};
ghost use Rattle.std.specs.Prelude.{count_by, None};
ghost use Rattle.std.specs.List.{filter, list_any};
ghost use Rattle.std.specs.Option.{option_copied, option_map};
ghost use Rattle.beam_values.specs.Nodes.{is_stateful, is_stateful_kind};
ghost use Rattle.stateful_core.specs.Cells.{key_holds};
ghost use Rattle.stateful_core.specs.Opening.{IsStanding, done_of};
ghost use Rattle.stateful_core.specs.Placing.{place};
ghost use Rattle.book_core.specs.Indexes.{AreLeastWith};
ghost use Rattle.book_core.specs.KeyCells.{CanPlace, cells_in, has_stateful};

use crate::committing::GREATEST_COUNT;
use crate::held::NodeHolds;
use beam_values::{Arrival, List, Mark, NoMemory, Node, NodeKind, Plan, StageMarks};
use stateful_core::{KeyDone, Keys};
use std::alloc::Global;

/// Whether all key cells, and all elements that wait there, have numbers of 32 bits after a commit of so
/// many arrivals.
pub fn have_numbers(keys: &Keys, waiting: usize, arrivals: usize) -> bool
    ensures cells { result ≡ true → length (cells_in keys.now) + arrivals < 4294967295 }
    ensures waiting { result ≡ true → waiting + arrivals < 4294967295 }
{
    let cells = keys.len();
    cells < GREATEST_COUNT
        && waiting < GREATEST_COUNT
        && arrivals < GREATEST_COUNT
        && cells + arrivals < GREATEST_COUNT
        && waiting + arrivals < GREATEST_COUNT
}

/// Whether the plan has a Stateful node. Where it has none, no commit looks at key cells.
fn has_stateful(plan: &Plan) -> bool
    ensures { result ≡ has_stateful plan.now }
{
    is_any_stateful(plan.nodes.as_slice())
}

fn is_any_stateful(nodes: &[Node]) -> bool
    ensures { result ≡ list_any (λ node. is_stateful_kind node.kind) nodes.now }
{
    nodes.iter().any(|node| is_stateful_kind(&node.kind))
}

fn is_stateful_kind(kind: &NodeKind) -> bool
    ensures { result ≡ is_stateful_kind kind.now }
{
    matches!(kind, NodeKind::Stateful { .. })
}

/// Makes all room that placing the key job and these arrivals needs, and answers the least mark of each node after that, of
/// what is held and of the key cells. No key cell changes.
pub fn prepare(
    alloc: Global,
    plan: &Plan,
    keys: &mut Keys,
    done: Option<&KeyDone>,
    arrivals: &List<Arrival>,
    held: &NodeHolds,
    before: &[StageMarks],
) -> Result<Vec<Mark>, NoMemory>
    requires held { length held.now ≡ length plan.now.nodes }
    requires none { has_stateful plan.now ≡ false → cells_in keys.old ≡ [] }
    requires stands { IsStanding (cells_in keys.old) (option_map done_of (option_copied done)) }
    ensures cells { cells_in keys.new ≡ cells_in keys.old }
    ensures ok { OnOk result (CanPlace plan.now (option_map done_of (option_copied done.entry))
        arrivals.now keys.new) }
    ensures sized { IfOk result (λ least. length least.items ≡ length held.now) }
    ensures least { IfOk result (λ least. AreLeastWith plan.now held.now
        (key_holds (place plan.now before.now (option_map done_of (option_copied done.entry))
        arrivals.now (cells_in keys.old)))
        least.items) }
{
    if !has_stateful(plan) {
        return held.least_with(alloc, &[]);
    }
    let keyed = keys.prepare(plan, done, arrivals, before)?;
    held.least_with(alloc, keyed.as_slice())
}

/// The key job is done, and then each arrival at a Stateful node waits at its key cell, and the others stay
/// in the list. Answers how many wait. Takes no memory.
pub fn place(
    keys: &mut Keys,
    plan: &Plan,
    done: Option<KeyDone>,
    arrivals: &mut List<Arrival>,
    before: &[StageMarks],
) -> usize
    requires can { CanPlace plan.now (option_map done_of done) arrivals.old keys.old }
    requires none { has_stateful plan.now ≡ false → cells_in keys.old ≡ [] }
    ensures cells { cells_in keys.new
        ≡ place plan.now before.now (option_map done_of done) arrivals.old (cells_in keys.old) }
    ensures left { arrivals.new
        ≡ filter (λ arrival. not (is_stateful plan.now arrival.node)) arrivals.old }
    ensures many { result ≡ count_by (λ a. is_stateful plan.now a.node) arrivals.old }
{
    if !has_stateful(plan) {
        return 0;
    }
    let came = arrivals.len();
    keys.place(plan, done, arrivals, before);
    came - arrivals.len()
}
