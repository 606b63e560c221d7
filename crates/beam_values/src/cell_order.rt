ghost use Rattle.std.specs.Prelude.{◌≡◌};
ghost use Rattle.std.specs.Ordering.{on, then_cmp};
ghost use Rattle.beam_values.specs.Cells.{span_cmp, cell_cmp, window_key_cmp, grouped_cmp};
ghost use Rattle.beam_values.specs.Grouping.{key_of};
ghost use Rattle.beam_values.specs.Orders.{value_cmp};

use crate::{Cell, Element, Span, Value, cmp_values, key_or, part_of};
use std::cmp::Ordering;

/// The order of windows: by their starts, and then by their ends.
pub fn cmp_spans(a: Span, b: Span) -> Ordering
    ensures { result ≡ span_cmp a b }
{
    a.start().cmp(&b.start()).then(a.end().cmp(&b.end()))
}

/// The order of the keys of two elements, by the bytes that spell them.
pub fn cmp_keys(a: &Element, b: &Element) -> Ordering
    ensures { result ≡ value_cmp (key_of a.now) (key_of b.now) }
{
    let null = Value::Null;
    cmp_values(key_or(a, &null), key_or(b, &null))
}

/// The order of two elements by window and then by key. Most elements differ by their windows
/// already, which are at hand; keys lie elsewhere.
pub fn cmp_window_keys(a: &Element, b: &Element) -> Ordering
    ensures { result ≡ window_key_cmp a.now b.now }
{
    match cmp_spans(a.span, b.span) {
        Ordering::Equal => cmp_keys(a, b),
        decided => decided,
    }
}

/// The order in which elements are grouped: by window and key, and then by what they bring to it.
pub fn cmp_grouped(a: &Element, b: &Element) -> Ordering
    ensures { result ≡ grouped_cmp a.now b.now }
{
    match cmp_window_keys(a, b) {
        Ordering::Equal => cmp_values(part_of(a), part_of(b)),
        decided => decided,
    }
}

/// The order of the cells of an outcome: by node, by the bytes that spell the key, and by window.
pub fn cmp_cells(a: &Cell, b: &Cell) -> Ordering
    ensures { result ≡ cell_cmp a.now b.now }
{
    match a.node.cmp(&b.node) {
        Ordering::Equal => cmp_cells_of_node(a, b),
        decided => decided,
    }
}

fn cmp_cells_of_node(a: &Cell, b: &Cell) -> Ordering
    ensures { result
        ≡ then_cmp (on (λ cell. cell.key) value_cmp) (on (λ cell. cell.span) span_cmp) a.now b.now }
{
    match cmp_values(&a.key, &b.key) {
        Ordering::Equal => cmp_spans(a.span, b.span),
        decided => decided,
    }
}
