ghost use Rattle.std.specs.Prelude.{◌≡◌};
ghost use Rattle.std.specs.Ordering.{as_partial_cmp, eq_by_cmp, on, then_cmp, int_cmp};
ghost use Rattle.std.specs.Cmp.{partial_order_from_own_ties};
ghost use Rattle.std.specs.Cmp.Rules.{comparing};
ghost use Rattle.std.proofs.Common.{rules};
ghost use Rattle.beam_values.specs.Elements.{element_cmp, place_cmp, tag_cmp};

use crate::{Element, PaneTag, Timing, cmp_values};
use std::cmp::Ordering;

// Most elements differ by their windows already.
fn cmp_places(a: &Element, b: &Element) -> Ordering
    ensures { result ≡ place_cmp a.now b.now }
{
    match a.span.start().cmp(&b.span.start()) {
        Ordering::Equal => cmp_from_end(a, b),
        decided => decided,
    }
}

fn cmp_from_end(a: &Element, b: &Element) -> Ordering
    ensures { result ≡ then_cmp (on (λ e. e.span.end) int_cmp) tag_cmp a.now b.now }
{
    match a.span.end().cmp(&b.span.end()) {
        Ordering::Equal => cmp_tags(a, b),
        decided => decided,
    }
}

fn cmp_tags(a: &Element, b: &Element) -> Ordering
    ensures { result ≡ tag_cmp a.now b.now }
{
    let by_index = a.pane.index.cmp(&b.pane.index);
    let by_timing = a.pane.timing.number().cmp(&b.pane.timing.number());
    let by_time = a.time.ms().cmp(&b.time.ms());
    by_index.then(by_timing.then(by_time))
}

impl PartialEq for Element {
    ghost eq = { eq_by_cmp element_cmp };

    ghost laws = { Prim.search (comparing, rules) depth 12 };

    fn eq(&self, other: &Element) -> bool {
        self.cmp(other).is_eq()
    }
}

impl Eq for Element {
    ghost laws = { Prim.search (comparing, rules) depth 12 };
}

impl PartialOrd for Element {
    ghost partial_cmp = { as_partial_cmp element_cmp };

    ghost laws = { partial_order_from_own_ties (Prim.search (comparing, rules) depth 12)
        (Prim.search (comparing, rules) depth 12) };

    fn partial_cmp(&self, other: &Element) -> Option<Ordering> {
        Some(self.cmp(other))
    }
}

impl Ord for Element {
    ghost cmp = { element_cmp };

    ghost total = { Prim.search (comparing, rules) depth 12 };

    ghost matches_partial_cmp = { Prim.search (comparing, rules) depth 12 };

    ghost matches_eq = { Prim.search (comparing, rules) depth 12 };

    fn cmp(&self, other: &Element) -> Ordering {
        match cmp_places(self, other) {
            Ordering::Equal => cmp_values(&self.value, &other.value),
            decided => decided,
        }
    }
}
