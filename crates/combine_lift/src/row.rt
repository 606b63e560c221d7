ghost use Rattle.std.specs.Prelude.{◌≡◌, ◌↔◌, IsTrue};
ghost use Rattle.beam_values.specs.Spans.{same_span};
ghost use Rattle.combine_lift.specs.Tables.{row_cmp};
ghost use Rattle.combine_lift.specs.Views.{view_value};

use crate::View;
use beam_values::{Span, Value, cmp_spans, cmp_values};
use std::cmp::Ordering;

/// What is kept of a key and a window.
#[derive(Debug, Drop)]
pub struct Row<A> {
    pub span: Span,
    pub key: Value,
    pub acc: A,
}

/// The order of rows: by window, and then by the bytes that spell the key.
pub fn cmp_rows<A>(a: &Row<A>, b: &Row<A>) -> Ordering
    ensures { result ≡ row_cmp a.now b.now }
{
    match cmp_spans(a.span, b.span) {
        Ordering::Equal => cmp_values(&a.key, &b.key),
        decided => decided,
    }
}

/// Whether a row is of a key and a window.
pub fn is_row_of<A>(key: View<'_>, span: Span, row: &Row<A>) -> bool
    ensures { IsTrue result ↔ ((view_value key.entry ≡ row.now.key)
        × IsTrue (same_span row.now.span span)) }
{
    key.is(&row.key) && is_same_span(row.span, span)
}

fn is_same_span(a: Span, b: Span) -> bool
    ensures { result ≡ same_span a b }
{
    a.start() == b.start() && a.end() == b.end()
}
