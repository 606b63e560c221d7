//! The least hold of each node.

ghost use Rattle.std.specs.Prelude.{◌≡◌, ◌<◌, ◌++◌, ◌∷◌, [], ℕ, true, length, map, slice_set, IfOk, Some};
ghost use Rattle.std.specs.Int.{int_min};
ghost use Rattle.std.specs.List.{flat_map};
ghost use Rattle.beam_model.specs.Holds.{estimator_in, piece_hold};
ghost use Rattle.beam_values.specs.Checked.{is_estimator_allowed, IsChecked};
ghost use Rattle.beam_values.specs.Marks.{mark_of};
ghost use Rattle.watermarks.specs.Holds.{hold_at};
ghost use Rattle.stateful_core.specs.Cells.{element_hold, timer_hold};
ghost use Rattle.stateful_core.specs.Data.{timer_holds_of};
ghost use Rattle.stored_books.specs.Held.{batch_holds, data_holds, key_data_holds, least_hold_of, own_hold, AreHeldOn};

use crate::waiting::node_in;
use beam_values::{Mark, NoMemory, NodeKind, Pane, Piece, Plan, Time};
use book_core::{Batch, BookData, WaitingPane};
use stateful_core::{KeyData, SetTimer, Waiting};
use std::alloc::Global;
use watermarks::mark_of;

/// The least hold of each node of a plan, or FINAL: of pieces, of panes that aren't through, and of the
/// elements and timers of key cells.
pub fn least_holds(alloc: Global, plan: &Plan, stored: &BookData) -> Result<Vec<Mark>, NoMemory>
    requires { IsChecked plan.now }
    ensures sized { IfOk result (λ least. length least.items ≡ length plan.now.nodes) }
    ensures least { IfOk result (λ least. (n : ℕ) → n < length plan.now.nodes
        → hold_at least.items n ≡ least_hold_of plan.now stored.now n) }
{
    let mut least = vec![in alloc; Mark::FINAL; plan.nodes.len()]?;
    hold_all(least.as_mut_slice(), plan, stored);
    Ok(least)
}

fn hold_all(least: &mut [Mark], plan: &Plan, stored: &BookData)
    requires { IsChecked plan.now }
    ensures { AreHeldOn (data_holds plan.now stored.now) least.old least.new }
{
    hold_pieces(least, plan, stored.pending.as_slice());
    hold_waiting(least, stored.panes.as_slice(), stored.waiting.as_slice());
    hold_returned(least, stored.returned.as_slice());
    hold_keys(least, stored.keys.as_slice());
}

/// One more hold of a node, if there is that node.
fn hold(least: &mut [Mark], node: u32, mark: Mark)
    ensures { AreHeldOn (record { node = node; mark = mark } ∷ []) least.old least.new }
{
    let at = node as usize;
    if at < least.len() {
        least[at] = lesser(least[at], mark);
    }
}

fn lesser(a: Mark, b: Mark) -> Mark
    ensures { result ≡ int_min a b }
{
    if b.ms() < a.ms() { b } else { a }
}

fn hold_pieces(least: &mut [Mark], plan: &Plan, pieces: &[Piece])
    requires { IsChecked plan.now }
    ensures { AreHeldOn (map (piece_hold plan.now) pieces.now) least.old least.new }
{
    for piece in pieces {
        hold(least, piece.node, mark_of_piece(plan, piece));
    }
}

/// The mark at which a piece holds its source back.
fn mark_of_piece(plan: &Plan, piece: &Piece) -> Mark
    requires { IsChecked plan.now }
    ensures { result ≡ (piece_hold plan.now piece.now).mark }
{
    match plan.nodes.get(piece.node as usize) {
        Some(node) => mark_by(&node.kind, piece.seen),
        None => Mark::at(Time::LEAST),
    }
}

// What isn't a source has no estimator.
fn mark_by(kind: &NodeKind, seen: Time) -> Mark
    requires { is_estimator_allowed (estimator_in kind.now) ≡ true }
    ensures { result ≡ mark_of (estimator_in kind.now) seen }
{
    match kind {
        NodeKind::Source { estimator, .. } => mark_of(estimator, seen),
        _ => Mark::at(Time::LEAST),
    }
}

fn hold_waiting(least: &mut [Mark], panes: &[Pane], waiting: &[WaitingPane])
    ensures { AreHeldOn (flat_map (own_hold panes.now) waiting.now) least.old least.new }
{
    for one in waiting {
        hold_own(least, panes, one);
    }
}

fn hold_own(least: &mut [Mark], panes: &[Pane], waiting: &WaitingPane)
    ensures { AreHeldOn (own_hold panes.now waiting.now) least.old least.new }
{
    if let Some(node) = node_in(panes, waiting) {
        hold(least, node, waiting.hold);
    }
}

fn hold_returned(least: &mut [Mark], returned: &[Batch])
    ensures { AreHeldOn (flat_map batch_holds returned.now) least.old least.new }
{
    for batch in returned {
        hold_panes(least, batch.node, batch.panes.as_slice());
    }
}

fn hold_panes(least: &mut [Mark], node: u32, panes: &[WaitingPane])
    ensures { AreHeldOn (batch_holds (record { node = node; panes = panes.now; attempts = 0 })) least.old least.new }
{
    for waiting in panes {
        hold(least, node, waiting.hold);
    }
}

fn hold_keys(least: &mut [Mark], keys: &[KeyData])
    ensures { AreHeldOn (flat_map key_data_holds keys.now) least.old least.new }
{
    for key in keys {
        hold_key(least, key);
    }
}

fn hold_key(least: &mut [Mark], key: &KeyData)
    ensures { AreHeldOn (key_data_holds key.now) least.old least.new }
{
    hold_elements(least, key.node, key.waiting.as_slice());
    hold_timers(least, key.node, key.timers.as_slice());
}

fn hold_elements(least: &mut [Mark], node: u32, waiting: &[Waiting])
    ensures { AreHeldOn (map (element_hold node) waiting.now) least.old least.new }
{
    for one in waiting {
        hold(least, node, one.hold);
    }
}

/// A timer that stands twice holds its node back once.
fn hold_timers(least: &mut [Mark], node: u32, timers: &[SetTimer])
    ensures { AreHeldOn (flat_map (timer_hold node) (timer_holds_of timers.now)) least.old least.new }
{
    hold_set(least, node, &timer_holds(timers));
}

fn hold_set(least: &mut [Mark], node: u32, holds: &[Option<Mark>])
    ensures { AreHeldOn (flat_map (timer_hold node) holds.now) least.old least.new }
{
    for held in holds {
        hold_if_set(least, node, *held);
    }
}

fn hold_if_set(least: &mut [Mark], node: u32, held: Option<Mark>)
    ensures { AreHeldOn (timer_hold node held) least.old least.new }
{
    if let Some(mark) = held {
        hold(least, node, mark);
    }
}

/// Of each of the eight timers the mark at which it holds its node back, if it is set.
fn timer_holds(timers: &[SetTimer]) -> [Option<Mark>; 8]
    ensures { result ≡ timer_holds_of timers.now }
{
    let mut holds = [None; 8];
    for set in timers {
        set_hold(&mut holds, set);
    }
    holds
}

fn set_hold(holds: &mut [Option<Mark>], set: &SetTimer)
    ensures { holds.new ≡ slice_set holds.old set.now.timer.name (Some set.now.hold) }
{
    let at = set.timer.name as usize;
    if at < holds.len() {
        holds[at] = Some(set.hold);
    }
}
