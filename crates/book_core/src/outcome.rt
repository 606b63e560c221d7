ghost use Rattle.std.specs.Prelude.{◌≡◌, IfOk};
ghost use Rattle.std.specs.List.Sorted.{IsPermutation, IsSorted};
ghost use Rattle.std.specs.Ordering.{ordering_then};
ghost use Rattle.beam_model.specs.Rendering.{log_cmp};
ghost use Rattle.beam_values.specs.Cells.{cell_cmp, span_cmp};
ghost use Rattle.beam_values.specs.Orders.{value_cmp};

use beam_values::{Cell, KeyLog, KeyRank, List, NoMemory, cmp_cells, cmp_spans, cmp_values};
use std::cmp::Ordering;

/// Puts cells into the order of an outcome.
pub fn in_order(cells: List<Cell>) -> Result<List<Cell>, NoMemory>
    ensures ascending { IfOk result (IsSorted cell_cmp) }
    ensures same { IfOk result (IsPermutation cells) }
{
    let mut cells = cells.into_vec();
    sort_by_ranks(&mut cells);
    cells.sort_by(|a, b| cmp_cells(a, b))?;
    Ok(List::from_vec(cells))
}

/// What mostly compares as cells do.
#[derive(Clone, Copy, Debug, PartialEq, Eq, PartialOrd, Ord)]
struct Rank {
    node: u32,
    key: KeyRank,
    start: i64,
}

/// Sorts cells by their ranks, which lie side by side where the keys lie scattered. A sort by whole keys
/// then finds most cells in order. Where there is no memory for the ranks, the cells stay as they are.
fn sort_by_ranks(cells: &mut Vec<Cell>)
    ensures { IsPermutation cells.old.items cells.new.items }
{
    let _ = cells.sort_by_cached_key(|cell| rank_of(cell));
}

fn rank_of(cell: &Cell) -> Rank {
    Rank {
        node: cell.node,
        key: KeyRank::of(&cell.key),
        start: cell.span.start(),
    }
}

/// Puts logs into the order of an outcome: by node, key bytes and window.
pub fn logs_in_order(logs: List<KeyLog>) -> Result<List<KeyLog>, NoMemory>
    ensures ascending { IfOk result (IsSorted log_cmp) }
    ensures same { IfOk result (IsPermutation logs) }
{
    let mut logs = logs.into_vec();
    logs.sort_by(|a, b| cmp_logs(a, b))?;
    Ok(List::from_vec(logs))
}

fn cmp_logs(a: &KeyLog, b: &KeyLog) -> Ordering
    ensures { result ≡ log_cmp a.now b.now }
{
    match a.node.cmp(&b.node) {
        Ordering::Equal => cmp_logs_of_node(a, b),
        decided => decided,
    }
}

fn cmp_logs_of_node(a: &KeyLog, b: &KeyLog) -> Ordering
    ensures { result ≡ ordering_then (value_cmp a.now.key b.now.key) (span_cmp a.now.span b.now.span) }
{
    match cmp_values(&a.key, &b.key) {
        Ordering::Equal => cmp_spans(a.span, b.span),
        decided => decided,
    }
}
