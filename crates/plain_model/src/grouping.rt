ghost use Rattle.std.specs.Prelude.{◌≡◌, IfOk, map};
ghost use Rattle.std.specs.List.{prefix_len};
ghost use Rattle.std.specs.List.Sorted.{IsSorted};
ghost use Rattle.std.specs.Ordering.{is_eq};
ghost use Rattle.beam_values.specs.Grouping.{key_of, part_of, pane_with, IsPlainGrouping};
ghost use Rattle.beam_values.specs.Elements.{element_cmp};
ghost use Rattle.beam_values.specs.Cells.{window_key_cmp, grouped_cmp};

use beam_values::{
    Boxed, Element, List, NoMemory, PaneTag, Timing, Value, cmp_grouped, cmp_window_keys, copy_key,
    last_time, part_of,
};
use std::alloc::Global;
use std::cmp::Ordering;

/// Groups a whole list of elements by key and window (Beam Programming Guide, GroupByKey): one
/// on-time pane for each key and window, whose value is the key with all of its parts in ascending
/// order. The panes ascend.
pub fn plain_panes(alloc: Global, elements: List<Element>) -> Result<List<Element>, NoMemory>
    ensures plain { IfOk result (IsPlainGrouping elements) }
    ensures ascending { IfOk result (IsSorted element_cmp) }
{
    let mut sorted = elements.into_vec();
    sorted.sort_by(|a, b| cmp_grouped(a, b))?;
    panes_of(alloc, sorted.as_slice())
}

/// The panes of elements that stand in the order of grouping: each cell is a run of them.
fn panes_of(alloc: Global, sorted: &[Element]) -> Result<List<Element>, NoMemory>
    requires { IsSorted grouped_cmp sorted.now }
    ensures plain { IfOk result (IsPlainGrouping sorted.now) }
    ensures ascending { IfOk result (IsSorted element_cmp) }
{
    let mut panes = Vec::new(alloc);
    let mut rest = sorted;
    while let Some(first) = rest.first() {
        let (group, others) = rest.split_at(run_len(first, rest));
        panes.push(pane_of(alloc, first, group)?)?;
        rest = others;
    }
    Ok(List::from_vec(panes))
}

/// How many elements at the front are in the cell of `first`.
fn run_len(first: &Element, elements: &[Element]) -> usize
    ensures { result ≡ prefix_len (λ e. is_eq (window_key_cmp first.now e)) elements.now }
{
    for (i, element) in elements.iter().enumerate() {
        if cmp_window_keys(first, element) != Ordering::Equal {
            return i;
        }
    }
    elements.len()
}

/// The pane of the cell of `first` with the parts of the elements of `group`.
fn pane_of(alloc: Global, first: &Element, group: &[Element]) -> Result<Element, NoMemory>
    ensures { IfOk result
        (λ pane. pane ≡ pane_with (key_of first.now) first.now.span (map part_of group.now)) }
{
    let key = Boxed::new(alloc, copy_key(alloc, first)?)?;
    let parts = Boxed::new(alloc, Value::Seq(copy_parts(alloc, group)?))?;
    Ok(Element {
        value: Value::Pair(key, parts),
        time: last_time(first.span),
        span: first.span,
        pane: PaneTag {
            timing: Timing::OnTime,
            index: 0,
        },
    })
}

fn copy_parts(alloc: Global, elements: &[Element]) -> Result<List<Value>, NoMemory>
    ensures { IfOk result (λ parts. parts ≡ map part_of elements.now) }
{
    let mut parts = Vec::with_capacity(alloc, elements.len())?;
    for element in elements {
        parts.push(part_of(element).copy(alloc)?)?;
    }
    Ok(List::from_vec(parts))
}
