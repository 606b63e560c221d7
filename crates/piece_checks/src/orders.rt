//! Whether lists are in their orders.

ghost use Rattle.std.specs.Prelude.{◌≡◌, ◌↔◌, IsTrue};
ghost use Rattle.std.specs.List.Sorted.{IsSorted};
ghost use Rattle.std.specs.Ordering.{on, then_cmp, nat_cmp};
ghost use Rattle.beam_values.specs.Cells.{pane_cmp, span_cmp};
ghost use Rattle.beam_values.specs.Grouping.{key_of};
ghost use Rattle.beam_values.specs.Orders.{value_cmp};
ghost use Rattle.split_core.specs.Order.{piece_cmp, IsAscending};
ghost use Rattle.piece_checks.specs.Orders.{dead_cmp, done_cmp};

use beam_values::{Dead, Done, Pane, Piece, cmp_keys, cmp_spans};
use std::cmp::Ordering;

/// Whether pieces are in the order in which they are taken.
pub fn are_pieces_in_order(pieces: &[Piece]) -> bool
    ensures { IsTrue result ↔ IsAscending pieces.now }
{
    pieces.is_sorted_by(|a, b| !cmp_pieces(b, a).is_lt())
}

/// Whether done ranges are in order: by node, item and range.
pub fn are_done_in_order(done: &[Done]) -> bool
    ensures { IsTrue result ↔ IsSorted done_cmp done.now }
{
    done.is_sorted_by(|a, b| !cmp_done(b, a).is_lt())
}

/// Whether dead positions are in order: by node, item and position.
pub fn are_dead_in_order(dead: &[Dead]) -> bool
    ensures { IsTrue result ↔ IsSorted dead_cmp dead.now }
{
    dead.is_sorted_by(|a, b| !cmp_dead(b, a).is_lt())
}

/// Whether panes are in order: by commit, and those of a commit by node, key and window.
pub fn are_panes_in_order(panes: &[Pane]) -> bool
    ensures { IsTrue result ↔ IsSorted pane_cmp panes.now }
{
    panes.is_sorted_by(|a, b| !cmp_panes(b, a).is_lt())
}

fn cmp_pieces(a: &Piece, b: &Piece) -> Ordering
    ensures { result ≡ piece_cmp a.now b.now }
{
    let by_node = a.node.cmp(&b.node);
    let by_item = a.item.cmp(&b.item);
    let by_from = a.range.from().cmp(&b.range.from());
    let by_to = a.range.to().cmp(&b.range.to());
    let by_seen = a.seen.ms().cmp(&b.seen.ms());
    let by_attempts = a.attempts.cmp(&b.attempts);
    by_node.then(by_item.then(by_from.then(by_to.then(by_seen.then(by_attempts)))))
}

fn cmp_done(a: &Done, b: &Done) -> Ordering
    ensures { result ≡ done_cmp a.now b.now }
{
    let by_node = a.node.cmp(&b.node);
    let by_item = a.item.cmp(&b.item);
    let by_from = a.range.from().cmp(&b.range.from());
    let by_to = a.range.to().cmp(&b.range.to());
    by_node.then(by_item.then(by_from.then(by_to)))
}

fn cmp_dead(a: &Dead, b: &Dead) -> Ordering
    ensures { result ≡ dead_cmp a.now b.now }
{
    let by_node = a.node.cmp(&b.node);
    let by_item = a.item.cmp(&b.item);
    let by_at = a.at.cmp(&b.at);
    by_node.then(by_item.then(by_at))
}

fn cmp_panes(a: &Pane, b: &Pane) -> Ordering
    ensures { result ≡ pane_cmp a.now b.now }
{
    match a.commit.cmp(&b.commit) {
        Ordering::Equal => cmp_panes_of_commit(a, b),
        decided => decided,
    }
}

fn cmp_panes_of_commit(a: &Pane, b: &Pane) -> Ordering
    ensures { result ≡ then_cmp (on (λ pane. pane.node) nat_cmp)
        (then_cmp (on (λ pane. key_of pane.element) value_cmp)
        (on (λ pane. pane.element.span) span_cmp)) a.now b.now }
{
    match a.node.cmp(&b.node) {
        Ordering::Equal => cmp_panes_of_node(a, b),
        decided => decided,
    }
}

fn cmp_panes_of_node(a: &Pane, b: &Pane) -> Ordering
    ensures { result ≡ then_cmp (on (λ pane. key_of pane.element) value_cmp)
        (on (λ pane. pane.element.span) span_cmp) a.now b.now }
{
    match cmp_keys(&a.element, &b.element) {
        Ordering::Equal => cmp_spans(a.element.span, b.element.span),
        decided => decided,
    }
}
