//! The panes of a commit: their order, and how far they hold their Groups back.

ghost use Rattle.std.specs.Prelude.{◌≡◌, ◌++◌, map, option_to_list, OnOk};
ghost use Rattle.std.specs.Int.{int_min};
ghost use Rattle.std.specs.Ordering.{nat_cmp, on, then_cmp};
ghost use Rattle.beam_values.specs.Cells.{pane_cmp, span_cmp};
ghost use Rattle.beam_values.specs.Grouping.{key_of};
ghost use Rattle.beam_values.specs.Marks.{least_mark, marks_at};
ghost use Rattle.beam_values.specs.Orders.{value_cmp};
ghost use Rattle.beam_model.specs.Holds.{pane_hold};

use beam_values::{Mark, NoMemory, Pane, StageMarks, cmp_keys, cmp_spans};
use std::cmp::Ordering;

/// The lesser of a hold and those of some panes.
pub fn least_with(before: &[StageMarks], hold: Mark, fired: &[Pane]) -> Mark
    ensures { result
        ≡ int_min hold (least_mark (map (λ pane. (pane_hold before.now pane).mark) fired.now)) }
{
    let mut least = Mark::FINAL;
    for pane in fired {
        least = lesser(least, pane_mark(before, pane));
    }
    lesser(hold, least)
}

fn lesser(a: Mark, b: Mark) -> Mark
    ensures { result ≡ int_min a b }
{
    if b.ms() < a.ms() { b } else { a }
}

// A pane that waits holds its Group back at the greater of its time and the mark after the Group before.
fn pane_mark(before: &[StageMarks], pane: &Pane) -> Mark
    ensures { result ≡ (pane_hold before.now pane.now).mark }
{
    let out = mark_out_of(before, pane.node);
    let time = Mark::at(pane.element.time);
    if time.ms() < out.ms() { out } else { time }
}

fn mark_out_of(marks: &[StageMarks], node: u32) -> Mark
    ensures { result ≡ (marks_at marks.now node).mark_out }
{
    match marks.get(node as usize) {
        None => Mark::FINAL,
        Some(stage) => stage.mark_out,
    }
}

/// Adds the pane, if there is one.
pub fn push_if(panes: &mut Vec<Pane>, pane: Option<Pane>) -> Result<(), NoMemory>
    ensures { OnOk result (panes.new.items ≡ panes.old.items ++ option_to_list pane) }
{
    if let Some(pane) = pane {
        panes.push(pane)?;
    }
    Ok(())
}

/// By commit, node, key and window.
pub fn cmp_panes(a: &Pane, b: &Pane) -> Ordering
    ensures { result ≡ pane_cmp a.now b.now }
{
    match a.commit.cmp(&b.commit) {
        Ordering::Equal => cmp_panes_of_commit(a, b),
        decided => decided,
    }
}

fn cmp_panes_of_commit(a: &Pane, b: &Pane) -> Ordering
    ensures { result ≡ then_cmp (on (λ pane. pane.node) nat_cmp)
        (then_cmp (on (λ pane. key_of pane.element) value_cmp)
        (on (λ pane. pane.element.span) span_cmp)) a.now b.now }
{
    match a.node.cmp(&b.node) {
        Ordering::Equal => cmp_panes_of_node(a, b),
        decided => decided,
    }
}

fn cmp_panes_of_node(a: &Pane, b: &Pane) -> Ordering
    ensures { result ≡ then_cmp (on (λ pane. key_of pane.element) value_cmp)
        (on (λ pane. pane.element.span) span_cmp) a.now b.now }
{
    match cmp_keys(&a.element, &b.element) {
        Ordering::Equal => cmp_spans(a.element.span, b.element.span),
        decided => decided,
    }
}
